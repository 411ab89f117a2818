ghost use Rattle.std.specs.Prelude.{◌≡◌, ◌^◌, ℤ, pos, true, IfOk, MatchOption};
ghost use Rattle.std.specs.List.{list_any};
ghost use Rattle.std.specs.Ordering.{int_eq};
ghost use Rattle.duality.specs.declared.row.Term.{Term as OneTerm};
ghost use Rattle.duality.specs.Sums.{IsValue, are_small, is_small, rises};
ghost use Rattle.duality.specs.Tree.{ends_at};
ghost use Rattle.packing_model.specs.Built.{packing};
ghost use Rattle.packing_model.specs.Closing.{counted};
ghost use Rattle.packing_model.specs.Cuts.{IsPoolOf};
ghost use Rattle.packing_model.specs.Nodes.{fixed_of, stage_at};
ghost use Rattle.search_nodes.specs.Leaves.{IsFineLeaf};
ghost use Rattle.node_bound.specs.Exact.{Shows};
ghost use Rattle.node_bound.specs.Fixed.{IsNode};
ghost use Rattle.node_bound.specs.Guessed.{is_fine_leaf, is_scale, no_zero};

use crate::bounded::Bounded;
use crate::gap::takes_point;
use clique_cuts::better_choice;
use duality::{Leaf, Objective, Term, is_before};
use node_guess::Guess;
use packing_model::{ObjectiveAt, Point, close_leaf};
use problem_core::{Choice, Memory};
use std::alloc::Global;

/// The largest size of a scale and of a multiplier.
const MOST_TIMES: u128 = 1_000_000_000_000_000_000_000_000;

/// The answer that a guess makes where it passes its test: a leaf that closes, a better choice, or a point of
/// the node that weighs more than the best value though it makes no choice. Any guess may be asked for. It
/// fails only where memory runs out.
pub fn tested<O: Objective>(
    alloc: Global,
    at: &ObjectiveAt<O>,
    guess: Guess,
) -> Result<Option<Bounded>, Memory>
    requires node { IsNode at.now.model.now (O.count at.now.objective.now) (O.levels at.now.objective.now) at.now.level at.now.targets.now at.now.fixing.now }
    requires pool { IsPoolOf (packing at.now.model.now) at.now.pool.now }
    requires best { IsValue at.now.best }
    ensures { IfOk result (λ found. MatchOption found (Unit {0}) (Shows at.now.model.now (counted (O.weight at.now.objective.now) (O.floor at.now.objective.now)) (stage_at at.now.level at.now.targets.now at.now.best at.now.pool.now) (fixed_of at.now.fixing.now))) }
{
    match guess {
        Guess::Leaf(leaf) => Ok(tested_leaf(at, leaf)),
        Guess::Choice(choice) => tested_choice(alloc, at, choice),
        Guess::Point(point) => tested_point(alloc, at, point),
    }
}

/// The leaf where it closes.
fn tested_leaf<O: Objective>(at: &ObjectiveAt<O>, leaf: Leaf) -> Option<Bounded>
    requires node { IsNode at.now.model.now (O.count at.now.objective.now) (O.levels at.now.objective.now) at.now.level at.now.targets.now at.now.fixing.now }
    requires pool { IsPoolOf (packing at.now.model.now) at.now.pool.now }
    requires best { IsValue at.now.best }
    ensures { MatchOption result (Unit {0}) (Shows at.now.model.now (counted (O.weight at.now.objective.now) (O.floor at.now.objective.now)) (stage_at at.now.level at.now.targets.now at.now.best at.now.pool.now) (fixed_of at.now.fixing.now)) }
{
    if takes_leaf(at, &leaf) {
        return Some(Bounded::Closed(leaf));
    }
    None
}

/// The choice where it is better.
fn tested_choice<O: Objective>(
    alloc: Global,
    at: &ObjectiveAt<O>,
    choice: Choice,
) -> Result<Option<Bounded>, Memory>
    requires node { IsNode at.now.model.now (O.count at.now.objective.now) (O.levels at.now.objective.now) at.now.level at.now.targets.now at.now.fixing.now }
    ensures { IfOk result (λ found. MatchOption found (Unit {0}) (Shows at.now.model.now (counted (O.weight at.now.objective.now) (O.floor at.now.objective.now)) (stage_at at.now.level at.now.targets.now at.now.best at.now.pool.now) (fixed_of at.now.fixing.now))) }
{
    match better_choice(alloc, at, choice)? {
        Some(choice) => Ok(Some(Bounded::Better(choice))),
        None => Ok(None),
    }
}

/// The point where it is one of the node.
fn tested_point<O: Objective>(
    alloc: Global,
    at: &ObjectiveAt<O>,
    point: Point,
) -> Result<Option<Bounded>, Memory>
    requires node { IsNode at.now.model.now (O.count at.now.objective.now) (O.levels at.now.objective.now) at.now.level at.now.targets.now at.now.fixing.now }
    requires pool { IsPoolOf (packing at.now.model.now) at.now.pool.now }
    requires best { IsValue at.now.best }
    ensures { IfOk result (λ found. MatchOption found (Unit {0}) (Shows at.now.model.now (counted (O.weight at.now.objective.now) (O.floor at.now.objective.now)) (stage_at at.now.level at.now.targets.now at.now.best at.now.pool.now) (fixed_of at.now.fixing.now))) }
{
    if takes_point(alloc, at, &point)? {
        return Ok(Some(Bounded::Gap(point)));
    }
    Ok(None)
}

/// Whether the leaf closes at the node, its rows in order, its scale not negative, no multiplier 0, and all
/// of them at most 10^24 in size. Any leaf may be asked for.
pub(crate) fn takes_leaf<O: Objective>(at: &ObjectiveAt<O>, leaf: &Leaf) -> bool
    requires node { IsNode at.now.model.now (O.count at.now.objective.now) (O.levels at.now.objective.now) at.now.level at.now.targets.now at.now.fixing.now }
    requires pool { IsPoolOf (packing at.now.model.now) at.now.pool.now }
    requires best { IsValue at.now.best }
    ensures { result ≡ true → (ends_at (packing at.now.model.now) (counted (O.weight at.now.objective.now) (O.floor at.now.objective.now)) (stage_at at.now.level at.now.targets.now at.now.best at.now.pool.now) (fixed_of at.now.fixing.now) leaf.now ≡ true) × IsFineLeaf leaf.now }
{
    if !is_fine_leaf(leaf) {
        return false;
    }
    close_leaf(at, leaf).is_ok()
}

/// Whether the leaf is inside the bounds of certificates.
fn is_fine_leaf(leaf: &Leaf) -> bool
    ensures { result ≡ is_fine_leaf leaf.now }
{
    let terms = leaf.terms.as_slice();
    let scale = is_scale(leaf.scale);
    let rising = are_rising(terms);
    let small = are_multipliers(terms);
    let none = no_zero(terms);
    scale && rising && small && none
}

/// Whether the scale is not negative and at most 10^24.
fn is_scale(scale: i128) -> bool
    ensures { result ≡ is_scale scale }
{
    0 <= scale && is_multiplier(scale)
}

/// Whether the rows of the terms are in strict order.
fn are_rising(terms: &[Term]) -> bool
    ensures { result ≡ rises terms.now }
{
    let Some((first, rest)) = terms.split_first() else {
        return true;
    };
    let mut last = first.row;
    for term in rest {
        if !is_before(last, term.row) {
            return false;
        }
        last = term.row;
    }
    true
}

/// Whether the multipliers are at most 10^24 in size.
fn are_multipliers(terms: &[Term]) -> bool
    ensures { result ≡ are_small terms.now }
{
    for term in terms {
        if !is_multiplier(term.times) {
            return false;
        }
    }
    true
}

/// Whether the number is at most 10^24 in size.
fn is_multiplier(times: i128) -> bool
    ensures { result ≡ is_small (10 ^ 24) times }
{
    times.unsigned_abs() <= MOST_TIMES
}

/// Whether no multiplier is 0.
fn no_zero(terms: &[Term]) -> bool
    ensures { result ≡ no_zero terms.now }
{
    for term in terms {
        if is_zero(term.times) {
            return false;
        }
    }
    true
}

/// Whether the number is 0.
fn is_zero(times: i128) -> bool
    ensures { result ≡ int_eq times (pos 0) }
{
    times == 0
}
