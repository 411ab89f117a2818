use crate::lists::{count_at, item_at, put, sum_up};
use std::alloc::{AllocError, Global};

/// An arc of a directed graph.
#[derive(Clone, Copy)]
pub struct Arc {
    pub from: u32,
    pub to: u32,
}

/// By node, the rank of its strongly connected component, and the highest. The rank is how many arcs between
/// components a path from there has at most, so an arc that leaves its component goes to one of lower rank.
#[derive(Drop)]
pub struct Ranks {
    pub ranks: Vec<u32>,
    pub highest: u32,
}

/// The heads of the arcs, grouped by tail, and by node the place of its first.
#[derive(Drop)]
struct Heads {
    starts: Vec<u32>,
    heads: Vec<u32>,
}

/// A walk through the graph, depth first.
#[derive(Drop)]
struct Walk {
    /// By node, the place of the next arc to go over.
    next: Vec<u32>,
    /// By node, the how manieth it was entered; 0 where it was not.
    order: Vec<u32>,
    /// By node, the lowest order that is known to be reached from it, among nodes without a component.
    low: Vec<u32>,
    /// By node, the highest rank that is known to be that of its component at least.
    high: Vec<u32>,
    /// By node, the rank of its component, once that is whole.
    ranks: Vec<Option<u32>>,
    /// The nodes from the root to where the walk is.
    path: Vec<u32>,
    /// The nodes that were entered and have no component yet, in the order in which they were entered.
    waiting: Vec<u32>,
    /// How many nodes were entered.
    entered: u32,
    /// The highest rank of a component that is whole.
    highest: u32,
}

/// The ranks of the strongly connected components of the graph of so many nodes, which are found by Tarjan's
/// method (1972).
pub fn ranks_of(alloc: Global, nodes: u32, arcs: &[Arc]) -> Result<Ranks, AllocError> {
    let heads = Heads::new(alloc, nodes, arcs)?;
    let mut walk = Walk::new(alloc, nodes, &heads)?;
    for root in 0..nodes {
        if item_at(&walk.order, root, 0) == 0 {
            walk.go_from(&heads, root)?;
        }
    }
    let mut ranks = vec![in alloc; 0; nodes as usize]?;
    for node in 0..nodes {
        if let Some(rank) = item_at(&walk.ranks, node, None) {
            put(&mut ranks, node, rank);
        }
    }
    Ok(Ranks {
        ranks,
        highest: walk.highest,
    })
}

impl Heads {
    /// The arcs grouped by tail.
    fn new(alloc: Global, nodes: u32, arcs: &[Arc]) -> Result<Heads, AllocError> {
        let starts = starts_of(alloc, nodes, arcs)?;
        let mut next = Vec::from_slice(alloc, &starts)?;
        let mut heads = vec![in alloc; 0; arcs.len()]?;
        for arc in arcs {
            let at = item_at(&next, arc.from, 0);
            put(&mut heads, at, arc.to);
            count_at(&mut next, arc.from);
        }
        Ok(Heads { starts, heads })
    }
}

/// By node, the place of its first arc where they are grouped by tail; and after the last node how many there are.
fn starts_of(alloc: Global, nodes: u32, arcs: &[Arc]) -> Result<Vec<u32>, AllocError> {
    let mut starts = vec![in alloc; 0; nodes as usize + 2]?;
    for arc in arcs {
        count_at(&mut starts, arc.from.wrapping_add(1));
    }
    sum_up(&mut starts);
    Ok(starts)
}

impl Walk {
    /// Before the first root.
    fn new(alloc: Global, nodes: u32, heads: &Heads) -> Result<Walk, AllocError> {
        let next = Vec::from_slice(alloc, &heads.starts)?;
        let order = vec![in alloc; 0; nodes as usize]?;
        let low = vec![in alloc; 0; nodes as usize]?;
        let high = vec![in alloc; 0; nodes as usize]?;
        let ranks = vec![in alloc; None; nodes as usize]?;
        Ok(Walk {
            next,
            order,
            low,
            high,
            ranks,
            path: Vec::new(alloc),
            waiting: Vec::new(alloc),
            entered: 0,
            highest: 0,
        })
    }

    /// Walks through what is reached from the root and was not entered before: each step enters a node, goes
    /// over an arc to a node that was entered, or leaves a node.
    fn go_from(&mut self, heads: &Heads, root: u32) -> Result<(), AllocError> {
        self.enter(root)?;
        let most = self.order.len().wrapping_add(heads.heads.len());
        for _ in 0..most {
            match self.path.last().copied() {
                Some(node) => self.step(heads, node)?,
                None => return Ok(()),
            }
        }
        Ok(())
    }

    /// Enters the node.
    fn enter(&mut self, node: u32) -> Result<(), AllocError> {
        self.entered = self.entered.wrapping_add(1);
        put(&mut self.order, node, self.entered);
        put(&mut self.low, node, self.entered);
        self.path.push(node)?;
        self.waiting.push(node)?;
        Ok(())
    }

    /// Goes over the node's next arc, or leaves it where there is none.
    fn step(&mut self, heads: &Heads, node: u32) -> Result<(), AllocError> {
        let at = item_at(&self.next, node, 0);
        if at < item_at(&heads.starts, node.wrapping_add(1), 0) {
            count_at(&mut self.next, node);
            self.go_over(node, item_at(&heads.heads, at, 0))
        } else {
            self.leave(node);
            Ok(())
        }
    }

    /// Goes over the arc.
    fn go_over(&mut self, from: u32, to: u32) -> Result<(), AllocError> {
        let order = item_at(&self.order, to, 0);
        if order == 0 {
            return self.enter(to);
        }
        match item_at(&self.ranks, to, None) {
            Some(rank) => self.raise(from, rank.wrapping_add(1)),
            None => self.lower(from, order),
        }
        Ok(())
    }

    /// Leaves the last node of the path. Where it was the first of its component that was entered, those that
    /// were entered since and have none are the others. The node before has an arc to it.
    fn leave(&mut self, node: u32) {
        let low = item_at(&self.low, node, 0);
        let high = item_at(&self.high, node, 0);
        let is_first = low == item_at(&self.order, node, 0);
        let _ = self.path.pop();
        if is_first {
            self.close(node, high);
        }
        if let Some(before) = self.path.last().copied() {
            if is_first {
                self.raise(before, high.wrapping_add(1));
            } else {
                self.lower(before, low);
                self.raise(before, high);
            }
        }
    }

    /// Lowers what is reached from the node, where this is lower.
    fn lower(&mut self, node: u32, order: u32) {
        if order < item_at(&self.low, node, 0) {
            put(&mut self.low, node, order);
        }
    }

    /// Raises the rank of the node's component, where this is higher.
    fn raise(&mut self, node: u32, rank: u32) {
        if rank > item_at(&self.high, node, 0) {
            put(&mut self.high, node, rank);
        }
    }

    /// Makes a component of this rank of the waiting nodes, from the last back to this one.
    fn close(&mut self, node: u32, rank: u32) {
        self.highest = self.highest.max(rank);
        for _ in 0..self.waiting.len() {
            let Some(one) = self.waiting.pop() else {
                return;
            };
            put(&mut self.ranks, one, Some(rank));
            if one == node {
                return;
            }
        }
    }
}
