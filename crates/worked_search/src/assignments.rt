use room_assignment::{Assignment, Edge, StrictPrices, assign, strict_prices};
use std::alloc::{AllocError, Global};
use std::test::Fail;

/// A graph: the numbers of its left and right vertices, and its edges with their weights, each with whether a
/// matching of the greatest weight has it. Then the greatest weight, and by left and by right vertex whether
/// each such matching matches it.
#[derive(Clone, Copy)]
struct Case {
    lefts: u32,
    rights: u32,
    edges: &'static [(u32, u32, i64, bool)],
    greatest: i64,
    left: &'static [bool],
    right: &'static [bool],
}

/// Graphs that were worked by hand.
fn cases() -> [Case; 8] {
    [
        // The best edge of the first vertex is given up: 2 and 2 instead of 3.
        Case {
            lefts: 2,
            rights: 2,
            edges: &[(0, 0, 3, false), (0, 1, 2, true), (1, 0, 2, true)],
            greatest: 4,
            left: &[true, true],
            right: &[true, true],
        },
        // The first vertex is matched and then left unmatched: 5 and 3, and not 4 and 3, nor 4 and 2.
        Case {
            lefts: 3,
            rights: 2,
            edges: &[
                (0, 0, 4, false),
                (1, 0, 5, true),
                (1, 1, 2, false),
                (2, 1, 3, true),
            ],
            greatest: 8,
            left: &[false, true, true],
            right: &[true, true],
        },
        // Two left vertices want one right vertex, and weigh the same.
        Case {
            lefts: 2,
            rights: 1,
            edges: &[(0, 0, 1, true), (1, 0, 1, true)],
            greatest: 1,
            left: &[false, false],
            right: &[true],
        },
        // All matchings of two edges weigh the same; those of one edge weigh less.
        Case {
            lefts: 2,
            rights: 2,
            edges: &[
                (0, 0, 1, true),
                (0, 1, 1, true),
                (1, 0, 1, true),
                (1, 1, 1, true),
            ],
            greatest: 2,
            left: &[true, true],
            right: &[true, true],
        },
        // Three edges in a row: the outer two weigh 2, the inner one alone weighs 2 as well.
        Case {
            lefts: 2,
            rights: 2,
            edges: &[(0, 0, 1, true), (0, 1, 2, true), (1, 1, 1, true)],
            greatest: 2,
            left: &[true, false],
            right: &[false, true],
        },
        // An edge of weight 0 may be in or out, and one below 0 is out.
        Case {
            lefts: 2,
            rights: 2,
            edges: &[(0, 0, 0, true), (1, 1, -1, false)],
            greatest: 0,
            left: &[false, false],
            right: &[false, false],
        },
        // Two edges between the same vertices.
        Case {
            lefts: 1,
            rights: 1,
            edges: &[(0, 0, 6, false), (0, 0, 7, true)],
            greatest: 7,
            left: &[true],
            right: &[true],
        },
        // Nothing to match.
        Case {
            lefts: 1,
            rights: 0,
            edges: &[],
            greatest: 0,
            left: &[false],
            right: &[],
        },
    ]
}

/// The edges of the case.
fn edges_of(alloc: Global, case: &Case) -> Result<Vec<Edge>, AllocError> {
    let mut edges = Vec::new(alloc);
    for edge in case.edges {
        edges.push(Edge {
            left: edge.0,
            right: edge.1,
            weight: i128::from(edge.2),
        })?;
    }
    Ok(edges)
}

/// What the edges of the matching weigh together, where each left vertex has an edge of its own.
fn weight_of(edges: &[Edge], matching: &Assignment) -> Option<i128> {
    let mut weight: i128 = 0;
    let mut left: u32 = 0;
    for number in matching.chosen.as_slice() {
        if let Some(number) = number {
            let edge = edges.get(*number as usize)?;
            if edge.left != left {
                return None;
            }
            weight = weight.wrapping_add(edge.weight);
        }
        left = left.wrapping_add(1);
    }
    Some(weight)
}

/// What all vertices cost together, where each price is at least 0.
fn cost_of(left: &[i128], right: &[i128]) -> Option<i128> {
    let mut cost: i128 = 0;
    for price in left {
        if *price < 0 {
            return None;
        }
        cost = cost.wrapping_add(*price);
    }
    for price in right {
        if *price < 0 {
            return None;
        }
        cost = cost.wrapping_add(*price);
    }
    Some(cost)
}

/// What the edge weighs less than its ends cost, for weights times the factor.
fn slack_of(left: &[i128], right: &[i128], edge: &Edge, factor: i128) -> Option<i128> {
    let left = left.get(edge.left as usize)?;
    let right = right.get(edge.right as usize)?;
    let weight = edge.weight.wrapping_mul(factor);
    Some(left.wrapping_add(*right).wrapping_sub(weight))
}

/// Whether no edge weighs more than its ends cost.
fn covers(edges: &[Edge], matching: &Assignment) -> bool {
    for edge in edges {
        match slack_of(matching.left.as_slice(), matching.right.as_slice(), edge, 1) {
            Some(slack) if slack >= 0 => {}
            _ => return false,
        }
    }
    true
}

/// Whether the edges have no slack where they should, and more than 0 elsewhere.
fn tells_edges(case: &Case, edges: &[Edge], prices: &StrictPrices) -> bool {
    for (edge, row) in edges.iter().zip(case.edges) {
        match slack_of(
            prices.left.as_slice(),
            prices.right.as_slice(),
            edge,
            prices.factor,
        ) {
            Some(slack) if slack >= 0 && (slack == 0) == row.3 => {}
            _ => return false,
        }
    }
    true
}

/// Whether there are as many prices, at least 0, and above 0 where they should be.
fn tells_vertices(wanted: &[bool], prices: &[i128]) -> bool {
    if wanted.len() != prices.len() {
        return false;
    }
    for (above, price) in wanted.iter().zip(prices) {
        if *price < 0 || (*price > 0) != *above {
            return false;
        }
    }
    true
}

/// Whether the matching weighs the most, its prices show that, and the strict prices tell what all have in
/// common that weigh the most.
fn is_solved(alloc: Global, case: &Case) -> Result<bool, AllocError> {
    let edges = edges_of(alloc, case)?;
    let matching = assign(alloc, case.lefts, case.rights, &edges)?;
    let prices = strict_prices(alloc, case.lefts, case.rights, &edges, &matching)?;
    Ok(is_best(case, &edges, &matching) && tells(case, &edges, &prices))
}

/// Whether the matching weighs the most, and its prices show that.
fn is_best(case: &Case, edges: &[Edge], matching: &Assignment) -> bool {
    let greatest = i128::from(case.greatest);
    covers(edges, matching)
        && weight_of(edges, matching) == Some(greatest)
        && cost_of(matching.left.as_slice(), matching.right.as_slice()) == Some(greatest)
}

/// Whether the strict prices tell what all matchings of the greatest weight have in common.
fn tells(case: &Case, edges: &[Edge], prices: &StrictPrices) -> bool {
    let cost = cost_of(prices.left.as_slice(), prices.right.as_slice());
    let greatest = i128::from(case.greatest).wrapping_mul(prices.factor);
    cost == Some(greatest)
        && tells_edges(case, edges, prices)
        && tells_vertices(case.left, prices.left.as_slice())
        && tells_vertices(case.right, prices.right.as_slice())
}

#[test]
fn assigns_and_prices(rt: HostRuntime) -> Result<(), Fail> {
    for case in cases() {
        assert!(rt; is_solved(rt.alloc(), &case)?);
    }
    Ok(())
}
