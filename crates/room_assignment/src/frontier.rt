use crate::assignment::Matching;
use crate::graph::{Edge, Graph};
use crate::lists::{item_at, put};
use std::alloc::{AllocError, Global};

/// Where a path ends.
#[derive(Clone, Copy)]
enum End {
    /// At a left vertex, which is left unmatched.
    Left(u32),
    /// At a right vertex that was unmatched.
    Right(u32),
}

/// How a right vertex was reached: in which search, at what cost, and by the edge of which number.
#[derive(Clone, Copy)]
struct Reached {
    search: u32,
    cost: i128,
    edge: u32,
}

/// A search for the alternating path that costs least. The cost of a path is the sum of its edges' slacks, and
/// of its last left vertex's price where it ends there.
#[derive(Drop)]
pub struct Frontier {
    /// The number of the search.
    search: u32,
    /// By right vertex, how it was reached last.
    reached: Vec<Reached>,
    /// Matched right vertices that were reached, and from which the search has still to go on.
    open: Vec<u32>,
    /// Those from which it has gone on.
    closed: Vec<u32>,
    /// The least cost of a path that was found, and its end.
    least: i128,
    end: End,
}

impl Frontier {
    /// Before the first search.
    pub fn new(alloc: Global, rights: u32) -> Result<Frontier, AllocError> {
        let never = Reached {
            search: 0,
            cost: 0,
            edge: 0,
        };
        let reached = vec![in alloc; never; rights as usize]?;
        Ok(Frontier {
            search: 0,
            reached,
            open: Vec::new(alloc),
            closed: Vec::new(alloc),
            least: 0,
            end: End::Left(0),
        })
    }

    /// Begins a search at the left vertex. The path that ends where it starts is the first that is found.
    fn begin(&mut self, matching: &Matching, start: u32) {
        self.search = self.search.wrapping_add(1);
        self.open.clear();
        self.closed.clear();
        self.least = item_at(&matching.left, start, 0);
        self.end = End::Left(start);
    }

    /// Reaches the right vertices of the left vertex's edges, which itself is reached at this cost.
    fn scan(
        &mut self,
        graph: &Graph,
        matching: &Matching,
        left: u32,
        cost: i128,
    ) -> Result<(), AllocError> {
        let mut number = graph.start(left);
        for edge in graph.edges_of(left) {
            let cost = cost.wrapping_add(matching.slack(edge));
            if edge.left == left && cost < self.least {
                self.reach(matching, edge, number, cost)?;
            }
            number = number.wrapping_add(1);
        }
        Ok(())
    }

    /// Reaches the edge's right vertex at this cost, where it was not reached at less.
    fn reach(
        &mut self,
        matching: &Matching,
        edge: &Edge,
        number: u32,
        cost: i128,
    ) -> Result<(), AllocError> {
        let Some(place) = self.reached.get_mut(edge.right as usize) else {
            return Ok(());
        };
        let is_new = place.search != self.search;
        if !is_new && place.cost <= cost {
            return Ok(());
        }
        *place = Reached {
            search: self.search,
            cost,
            edge: number,
        };
        if item_at(&matching.mates, edge.right, None).is_none() {
            self.least = cost;
            self.end = End::Right(edge.right);
        } else if is_new {
            self.open.push(edge.right)?;
        }
        Ok(())
    }

    /// How the right vertex was reached last.
    fn reached_at(&self, right: u32) -> Option<Reached> {
        match self.reached.get(right as usize) {
            Some(reached) => Some(*reached),
            None => None,
        }
    }

    /// The cost at which the right vertex was reached.
    fn cost(&self, right: u32) -> i128 {
        match self.reached.get(right as usize) {
            Some(reached) => reached.cost,
            None => 0,
        }
    }

    /// The place among the open vertices of one that costs least, where it costs less than the best path.
    fn cheapest(&self) -> Option<usize> {
        let mut least = self.least;
        let mut cheapest = None;
        let mut place: usize = 0;
        for right in &self.open {
            let cost = self.cost(*right);
            if cost < least {
                least = cost;
                cheapest = Some(place);
            }
            place = place.wrapping_add(1);
        }
        cheapest
    }

    /// Takes an open vertex that costs least, where it costs less than the best path.
    fn take_cheapest(&mut self) -> Option<u32> {
        match self.cheapest() {
            Some(place) if place < self.open.len() => Some(self.open.swap_remove(place)),
            _ => None,
        }
    }

    /// Goes on from the right vertex: over the edge by which it is matched, to an end at the left vertex or over
    /// that vertex's edges.
    fn go_on(&mut self, graph: &Graph, matching: &Matching, right: u32) -> Result<(), AllocError> {
        let Some(left) = item_at(&matching.mates, right, None) else {
            return Ok(());
        };
        self.closed.push(right)?;
        let cost = self.cost(right);
        let ended = cost.wrapping_add(item_at(&matching.left, left, 0));
        if ended < self.least {
            self.least = ended;
            self.end = End::Left(left);
        }
        self.scan(graph, matching, left, cost)
    }

    /// Changes the prices so that the edges of the path that was found have no slack.
    pub fn settle(&self, matching: &mut Matching, start: u32) {
        matching.lower(start, self.least);
        for right in &self.closed {
            let more = self.least.wrapping_sub(self.cost(*right));
            if more > 0 {
                matching.raise(*right, more);
            }
        }
    }

    /// Matches along the path that was found, from its end back to its start.
    pub fn turn(&self, graph: &Graph, matching: &mut Matching) {
        let mut at = match self.end {
            End::Right(right) => Some(right),
            End::Left(left) => free_left(graph, matching, left),
        };
        for _ in 0..=self.closed.len() {
            match at {
                Some(right) => at = self.turn_at(graph, matching, right),
                None => return,
            }
        }
    }

    /// Matches the right vertex by the edge that it was reached by, and gives the right vertex that this edge's
    /// left vertex was matched with before.
    fn turn_at(&self, graph: &Graph, matching: &mut Matching, right: u32) -> Option<u32> {
        let number = self.reached_at(right)?.edge;
        let left = graph.edge(number)?.left;
        let before = free_left(graph, matching, left);
        put(&mut matching.chosen, left, Some(number));
        put(&mut matching.mates, right, Some(left));
        before
    }
}

/// Leaves the left vertex unmatched, and gives the right vertex that it was matched with.
fn free_left(graph: &Graph, matching: &mut Matching, left: u32) -> Option<u32> {
    let number = item_at(&matching.chosen, left, None)?;
    put(&mut matching.chosen, left, None);
    let edge = graph.edge(number)?;
    Some(edge.right)
}

/// Searches from the left vertex for the alternating path that costs least, by Dijkstra's method (1959).
pub fn spread(
    graph: &Graph,
    matching: &Matching,
    frontier: &mut Frontier,
    start: u32,
) -> Result<(), AllocError> {
    frontier.begin(matching, start);
    frontier.scan(graph, matching, start, 0)?;
    for _ in 0..frontier.reached.len() {
        let Some(right) = frontier.take_cheapest() else {
            return Ok(());
        };
        frontier.go_on(graph, matching, right)?;
    }
    Ok(())
}
