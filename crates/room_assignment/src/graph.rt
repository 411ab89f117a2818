use crate::lists::{count_at, item_at, sum_up};
use std::alloc::{AllocError, Global};

/// An edge of a bipartite graph, between a left and a right vertex.
#[derive(Clone, Copy)]
pub struct Edge {
    pub left: u32,
    pub right: u32,
    pub weight: i128,
}

/// Edges that are grouped by left vertex, and by left vertex the number of its first edge.
#[derive(Drop)]
pub struct Graph<'a> {
    edges: &'a [Edge],
    starts: Vec<u32>,
}

impl<'a> Graph<'a> {
    /// The graph of these edges.
    pub fn new(alloc: Global, lefts: u32, edges: &'a [Edge]) -> Result<Graph<'a>, AllocError> {
        let mut starts = vec![in alloc; 0; lefts as usize + 2]?;
        for edge in edges {
            count_at(&mut starts, edge.left.wrapping_add(1));
        }
        sum_up(&mut starts);
        Ok(Graph { edges, starts })
    }

    /// The number of the left vertex's first edge.
    pub fn start(&self, left: u32) -> u32 {
        item_at(&self.starts, left, 0)
    }

    /// The edges of the left vertex.
    pub fn edges_of(&self, left: u32) -> &[Edge] {
        let start = self.start(left) as usize;
        let end = self.start(left.wrapping_add(1)) as usize;
        match self.edges.get(start..end) {
            Some(edges) => edges,
            None => &[],
        }
    }

    /// The edge of this number.
    pub fn edge(&self, number: u32) -> Option<Edge> {
        match self.edges.get(number as usize) {
            Some(edge) => Some(*edge),
            None => None,
        }
    }
}
