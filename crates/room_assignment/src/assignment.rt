ghost use Rattle.std.specs.Prelude.{◌≡◌, ◌<◌, length, IfOk, IfSome};
ghost use Rattle.std.specs.List.{All};

use crate::frontier::{Frontier, spread};
use crate::graph::{Edge, Graph};
use crate::lists::{add, item_at, numbers_below, prices_of, put};
use std::alloc::{AllocError, Global};
use values::Items;

/// A matching, and prices that show that none weighs more.
#[derive(Drop)]
pub struct Assignment {
    /// By left vertex, the number of its edge in the matching.
    pub chosen: Items<Option<u32>>,
    /// By left vertex, its price.
    pub left: Items<i128>,
    /// By right vertex, its price.
    pub right: Items<i128>,
}

/// What is matched so far, and the prices.
#[derive(Drop)]
pub struct Matching {
    /// By left vertex, the number of its edge in the matching.
    pub chosen: Vec<Option<u32>>,
    /// By right vertex, the left vertex that it is matched with.
    pub mates: Vec<Option<u32>>,
    /// By left vertex, its price.
    pub left: Vec<i128>,
    /// By right vertex, its price.
    pub right: Vec<i128>,
}

impl Matching {
    /// Nothing is matched, and all prices are 0.
    fn new(alloc: Global, lefts: u32, rights: u32) -> Result<Matching, AllocError> {
        let chosen = vec![in alloc; None; lefts as usize]?;
        let mates = vec![in alloc; None; rights as usize]?;
        let left = vec![in alloc; 0; lefts as usize]?;
        let right = vec![in alloc; 0; rights as usize]?;
        Ok(Matching {
            chosen,
            mates,
            left,
            right,
        })
    }

    /// What the edge weighs less than the prices of its ends.
    pub fn slack(&self, edge: &Edge) -> i128 {
        let left = item_at(&self.left, edge.left, 0);
        let right = item_at(&self.right, edge.right, 0);
        left.wrapping_add(right).wrapping_sub(edge.weight)
    }

    /// Gives the left vertex the least price, at least 0, at which none of its edges weighs more than its ends
    /// cost together.
    fn price_left(&mut self, graph: &Graph, left: u32) {
        let mut most: i128 = 0;
        for edge in graph.edges_of(left) {
            let gain = edge
                .weight
                .wrapping_sub(item_at(&self.right, edge.right, 0));
            most = most.max(gain);
        }
        put(&mut self.left, left, most);
    }

    /// Raises the right vertex's price, and lowers that of the left vertex that it is matched with.
    pub fn raise(&mut self, right: u32, more: i128) {
        add(&mut self.right, right, more);
        if let Some(left) = item_at(&self.mates, right, None) {
            self.lower(left, more);
        }
    }

    /// Lowers the left vertex's price.
    pub fn lower(&mut self, left: u32, less: i128) {
        let zero: i128 = 0;
        add(&mut self.left, left, zero.wrapping_sub(less));
    }
}

/// A matching of the greatest weight in the bipartite graph of so many left and right vertices, where a vertex
/// may stay unmatched, and prices of the vertices. Each price is at least 0, and that of an unmatched vertex is
/// 0; each edge weighs at most what its two ends cost together, and an edge of the matching exactly that. So the
/// matching weighs as much as all vertices cost, and none weighs more.
///
/// The edges come grouped by left vertex, the groups in rising order. Edges out of place, or with a vertex out of
/// range, are overlooked; and where sums of weights and prices leave `i128` the answer may be any. It fails only
/// where memory runs out.
///
/// The method is Kuhn's (1955) with Munkres's (1957) prices, by shortest augmenting paths as in Jonker and
/// Volgenant (1987): one left vertex after the other is given a price and matched along the alternating path
/// that costs least. A path may end at a left vertex, which is left unmatched. The work for a vertex depends on
/// the edges that can be reached from it, and not on the size of the graph.
pub fn assign(
    alloc: Global,
    lefts: u32,
    rights: u32,
    edges: &[Edge],
) -> Result<Assignment, AllocError>
    ensures chosen { IfOk result (λ a. length a.chosen ≡ lefts) }
    ensures known { IfOk result (λ a. All (λ number. IfSome number (λ n. n < length edges.now)) a.chosen) }
    ensures left { IfOk result (λ a. length a.left ≡ lefts) }
    ensures right { IfOk result (λ a. length a.right ≡ rights) }
{
    let matching = matched(alloc, lefts, rights, edges)?;
    read_out(alloc, lefts, rights, edges.len(), &matching)
}

/// Matches one left vertex after the other.
fn matched(alloc: Global, lefts: u32, rights: u32, edges: &[Edge]) -> Result<Matching, AllocError> {
    let mut matching = Matching::new(alloc, lefts, rights)?;
    let graph = Graph::new(alloc, lefts, edges)?;
    let mut frontier = Frontier::new(alloc, rights)?;
    match_all(&graph, &mut matching, &mut frontier, lefts)?;
    Ok(matching)
}

/// Matches one left vertex after the other.
fn match_all(
    graph: &Graph,
    matching: &mut Matching,
    frontier: &mut Frontier,
    lefts: u32,
) -> Result<(), AllocError> {
    for left in 0..lefts {
        matching.price_left(graph, left);
        spread(graph, matching, frontier, left)?;
        frontier.settle(matching, left);
        frontier.turn(graph, matching);
    }
    Ok(())
}

/// The matching and its prices, as they are handed out.
fn read_out(
    alloc: Global,
    lefts: u32,
    rights: u32,
    count: usize,
    matching: &Matching,
) -> Result<Assignment, AllocError>
    ensures chosen { IfOk result (λ a. length a.chosen ≡ lefts) }
    ensures known { IfOk result (λ a. All (λ number. IfSome number (λ n. n < count)) a.chosen) }
    ensures left { IfOk result (λ a. length a.left ≡ lefts) }
    ensures right { IfOk result (λ a. length a.right ≡ rights) }
{
    let chosen = numbers_below(alloc, &matching.chosen, lefts, count)?;
    let left = prices_of(alloc, &matching.left, lefts)?;
    let right = prices_of(alloc, &matching.right, rights)?;
    Ok(Assignment {
        chosen,
        left,
        right,
    })
}
