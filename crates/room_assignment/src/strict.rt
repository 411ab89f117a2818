ghost use Rattle.std.specs.Prelude.{◌≡◌, ◌<ℤ◌, pos, length, IfOk};

use crate::assignment::Assignment;
use crate::components::{Arc, Ranks, ranks_of};
use crate::graph::Edge;
use crate::lists::{item_at, put};
use std::alloc::{AllocError, Global};
use values::Items;

/// Prices like those of an assignment, for the weights times a factor.
#[derive(Drop)]
pub struct StrictPrices {
    /// By left vertex, its price.
    pub left: Items<i128>,
    /// By right vertex, its price.
    pub right: Items<i128>,
    /// What the weights are multiplied by.
    pub factor: i128,
}

/// A graph, a matching of the greatest weight with its prices, and by right vertex the left vertex that it is
/// matched with.
#[derive(Drop)]
struct Matched<'a> {
    edges: &'a [Edge],
    matching: &'a Assignment,
    mates: &'a [Option<u32>],
    /// The number of left vertices.
    lefts: u32,
}

/// By node, its component's rank; and that of the free node's.
#[derive(Drop)]
struct Shifts {
    ranks: Ranks,
    free: u32,
}

/// Prices like those of the assignment, for the weights times a factor: at least 0, and two ends of an edge cost
/// at least its weight times the factor. They cost exactly that where some matching of the greatest weight has
/// the edge, and more where none has. A vertex costs more than 0 where each matching of the greatest weight
/// matches it, and 0 where one leaves it unmatched. The factor is at least 1 and at most 1 more than the number of
/// matched pairs. The graph is that of the assignment; where sums and products leave `i128` the prices are any.
/// It fails only where memory runs out.
///
/// Such prices are there by Goldman and Tucker (1956). An exchange on an edge without slack, or at a vertex of
/// price 0, leads to another matching of the greatest weight where it is part of a circle of exchanges. So the
/// pairs of the matching and one node for all that is free are made the nodes of a directed graph of exchanges,
/// and each pair's prices are shifted by the rank of its strongly connected component, which falls along an
/// exchange that is part of no circle.
pub fn strict_prices(
    alloc: Global,
    lefts: u32,
    rights: u32,
    edges: &[Edge],
    matching: &Assignment,
) -> Result<StrictPrices, AllocError>
    ensures left { IfOk result (λ prices. length prices.left ≡ lefts) }
    ensures right { IfOk result (λ prices. length prices.right ≡ rights) }
    ensures factor { IfOk result (λ prices. pos 0 <ℤ prices.factor) }
{
    let mates = mates_of(alloc, rights, edges, matching)?;
    let matched = Matched {
        edges,
        matching,
        mates: &mates,
        lefts,
    };
    let shifts = shifts_of(alloc, &matched)?;
    let factor = i128::from(shifts.ranks.highest) + 1;
    let left = shifted_left(alloc, &matched, &shifts, factor)?;
    let right = shifted_right(alloc, &matched, &shifts, factor, rights)?;
    Ok(StrictPrices {
        left,
        right,
        factor,
    })
}

/// By right vertex, the left vertex that it is matched with.
fn mates_of(
    alloc: Global,
    rights: u32,
    edges: &[Edge],
    matching: &Assignment,
) -> Result<Vec<Option<u32>>, AllocError> {
    let mut mates = vec![in alloc; None; rights as usize]?;
    for number in matching.chosen.as_slice() {
        if let Some(edge) = edge_at(edges, *number) {
            put(&mut mates, edge.right, Some(edge.left));
        }
    }
    Ok(mates)
}

/// The edge of this number, where there is one.
fn edge_at(edges: &[Edge], number: Option<u32>) -> Option<Edge> {
    match edges.get(number? as usize) {
        Some(edge) => Some(*edge),
        None => None,
    }
}

/// The shifts of the prices, by the components of the graph of exchanges.
fn shifts_of(alloc: Global, matched: &Matched) -> Result<Shifts, AllocError> {
    let mut arcs = Vec::new(alloc);
    add_tight(matched, &mut arcs)?;
    add_free(matched, &mut arcs)?;
    let ranks = ranks_of(alloc, matched.lefts.wrapping_add(1), &arcs)?;
    let free = item_at(&ranks.ranks, matched.lefts, 0);
    Ok(Shifts { ranks, free })
}

/// The exchanges over edges without slack: the left vertex's pair gives up its edge for this one, and the right
/// vertex's pair loses its own.
fn add_tight(matched: &Matched, arcs: &mut Vec<Arc>) -> Result<(), AllocError> {
    for edge in matched.edges {
        let from = matched.node_of_left(edge.left);
        let to = matched.node_of_right(edge.right);
        if from != to && matched.is_tight(edge) {
            arcs.push(Arc { from, to })?;
        }
    }
    Ok(())
}

/// The exchanges at matched vertices of price 0, which may become free.
fn add_free(matched: &Matched, arcs: &mut Vec<Arc>) -> Result<(), AllocError> {
    let free = matched.lefts;
    for left in 0..matched.lefts {
        if let Some(edge) = matched.edge_of(left) {
            if matched.left_price(left) == 0 {
                arcs.push(Arc {
                    from: left,
                    to: free,
                })?;
            }
            if matched.right_price(edge.right) == 0 {
                arcs.push(Arc {
                    from: free,
                    to: left,
                })?;
            }
        }
    }
    Ok(())
}

impl<'a> Matched<'a> {
    /// The edge of the left vertex in the matching.
    fn edge_of(&self, left: u32) -> Option<Edge> {
        edge_at(
            self.edges,
            item_at(self.matching.chosen.as_slice(), left, None),
        )
    }

    /// The left vertex's price.
    fn left_price(&self, left: u32) -> i128 {
        item_at(self.matching.left.as_slice(), left, 0)
    }

    /// The right vertex's price.
    fn right_price(&self, right: u32) -> i128 {
        item_at(self.matching.right.as_slice(), right, 0)
    }

    /// Whether the edge weighs what its ends cost.
    fn is_tight(&self, edge: &Edge) -> bool {
        let left = self.left_price(edge.left);
        left.wrapping_add(self.right_price(edge.right)) == edge.weight
    }

    /// The node of the left vertex's pair: the left vertex itself, or the free node.
    fn node_of_left(&self, left: u32) -> u32 {
        match self.edge_of(left) {
            Some(_) => left,
            None => self.lefts,
        }
    }

    /// The node of the right vertex's pair: its left vertex, or the free node.
    fn node_of_right(&self, right: u32) -> u32 {
        match item_at(self.mates, right, None) {
            Some(left) => left,
            None => self.lefts,
        }
    }
}

impl Shifts {
    /// What the left vertices of the node's pair are raised by, and its right vertices lowered by.
    fn shift(&self, node: u32) -> i128 {
        let rank = i128::from(item_at(&self.ranks.ranks, node, 0));
        rank.wrapping_sub(i128::from(self.free))
    }
}

/// The left vertices' prices times the factor and shifted.
fn shifted_left(
    alloc: Global,
    matched: &Matched,
    shifts: &Shifts,
    factor: i128,
) -> Result<Items<i128>, AllocError>
    ensures { IfOk result (λ prices. length prices ≡ matched.now.lefts) }
{
    let mut prices = Items::new(alloc);
    for left in 0..matched.lefts {
        let shift = shifts.shift(matched.node_of_left(left));
        let price = matched.left_price(left).wrapping_mul(factor);
        prices.push(price.wrapping_add(shift))?;
    }
    Ok(prices)
}

/// The right vertices' prices times the factor and shifted.
fn shifted_right(
    alloc: Global,
    matched: &Matched,
    shifts: &Shifts,
    factor: i128,
    rights: u32,
) -> Result<Items<i128>, AllocError>
    ensures { IfOk result (λ prices. length prices ≡ rights) }
{
    let mut prices = Items::new(alloc);
    for right in 0..rights {
        let shift = shifts.shift(matched.node_of_right(right));
        let price = matched.right_price(right).wrapping_mul(factor);
        prices.push(price.wrapping_sub(shift))?;
    }
    Ok(prices)
}
