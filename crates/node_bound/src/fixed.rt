ghost use Rattle.std.specs.Prelude.{◌≡◌, ◌≤◌, ◌<◌, ◌^◌, ◌∷◌, ◌-ℤ◌, int_le, int_lt, [], ℕ, pos, false, length, Some, IfOk, MatchOption};
ghost use Rattle.std.specs.Ordering.{int_eq};
ghost use Rattle.numbers.specs.Sums.{total};
ghost use Rattle.duality.specs.Packing.{target_of};
ghost use Rattle.duality.specs.Sums.{IsValue, IsWithin};
ghost use Rattle.packing_model.specs.Built.{packing};
ghost use Rattle.packing_model.specs.Closing.{counted};
ghost use Rattle.packing_model.specs.Nodes.{IsValidFixing, AreTargets, fixed_of, stage_at};
ghost use Rattle.meeting_patterns.specs.Pattern.{patterns_of};
ghost use Rattle.packing_model.specs.Built.{measured};
ghost use Rattle.node_bound.specs.Bounds.{Decides, IsBetterChoice, has_free};
ghost use Rattle.node_bound.specs.declared.bounded.Bounded.TheVariants as bounds;
ghost use Rattle.clique_cuts.specs.Better.{MeetsAll, ReachesFloor};
ghost use Rattle.node_bound.specs.Fixed.{is_at_most, IsNode, IsMiss};

use crate::bounded::Bounded;
use duality::{FLOOR_LEVEL, Leaf, Objective, RowName, Term, Weighed, weigh};
use meeting_patterns::{pattern_laws, to_choice};
use packing_model::{At, Measured, ObjectiveAt};
use problem_core::Memory;
use search_nodes::measured_laws;
use std::alloc::Global;
use values::Items;

/// The answer at a node of the measures where no pattern is free, by [`close_fixed_at`]: `Closed` or `Better`
/// alone. A better choice is legal, has the target measures, and more than the best value at the level.
pub fn close_fixed(alloc: Global, at: &At) -> Result<Bounded, Memory>
    requires fixing { IsValidFixing (packing at.now.model.now) at.now.fixing.now }
    requires high { at.now.level ≤ 6 }
    requires targets { AreTargets at.now.level at.now.targets.now }
    requires best { IsWithin (10 ^ 12) at.now.best }
    requires none { has_free (packing at.now.model.now) (fixed_of at.now.fixing.now) ≡ false }
    ensures decides { IfOk result (Decides at.now.model.now (measured at.now.model.now) (stage_at at.now.level at.now.targets.now (Some at.now.best) at.now.pool.now) (fixed_of at.now.fixing.now)) }
    ensures better { IfOk result (IsBetterChoice at.now.model.now at.now.level at.now.targets.now at.now.best) }
{
    measured_laws(at.model);
    let measured = Measured::new(at.model);
    let node = ObjectiveAt {
        model: at.model,
        pool: at.pool,
        fixing: at.fixing,
        objective: &measured,
        level: at.level,
        targets: at.targets,
        best: Some(at.best),
    };
    close_fixed_at(alloc, &node)
}

/// The answer at a node where no pattern is free, so the patterns that are taken are the only choice left.
/// Where they miss the target of a level below or the floor, the row that they miss is a leaf of scale 0 that
/// closes; where their value is at most the best, so is the empty leaf of scale 1; else the choice of rooms
/// that they make is `Better`. No other answer comes. It fails only where memory runs out.
pub fn close_fixed_at<O: Objective>(alloc: Global, at: &ObjectiveAt<O>) -> Result<Bounded, Memory>
    requires count { O.count at.now.objective.now ≡ length (patterns_of at.now.model.now) }
    requires fixing { IsValidFixing (packing at.now.model.now) at.now.fixing.now }
    requires high { at.now.level ≤ O.levels at.now.objective.now }
    requires targets { AreTargets at.now.level at.now.targets.now }
    requires best { IsValue at.now.best }
    requires none { has_free (packing at.now.model.now) (fixed_of at.now.fixing.now) ≡ false }
    ensures { IfOk result (Decides at.now.model.now (counted (O.weight at.now.objective.now) (O.floor at.now.objective.now)) (stage_at at.now.level at.now.targets.now at.now.best at.now.pool.now) (fixed_of at.now.fixing.now)) }
{
    at.model.laws();
    pattern_laws();
    match missed(at) {
        Some(term) => one_term(alloc, term),
        None => at_value(alloc, at),
    }
}

/// The first row that the patterns which are taken miss.
fn missed<O: Objective>(at: &ObjectiveAt<O>) -> Option<Term>
    requires node { IsNode at.now.model.now (O.count at.now.objective.now) (O.levels at.now.objective.now) at.now.level at.now.targets.now at.now.fixing.now }
    ensures { MatchOption result (MeetsAll (counted (O.weight at.now.objective.now) (O.floor at.now.objective.now)) at.now.level at.now.targets.now at.now.fixing.now.one)
        (IsMiss (packing at.now.model.now) (counted (O.weight at.now.objective.now) (O.floor at.now.objective.now)) (stage_at at.now.level at.now.targets.now at.now.best at.now.pool.now) (fixed_of at.now.fixing.now)) }
{
    for level in 1..at.level {
        if let Some(term) = missed_target(at, level) {
            return Some(term);
        }
    }
    missed_floor(at)
}

/// The level's row, where the patterns that are taken miss its target.
fn missed_target<O: Objective>(at: &ObjectiveAt<O>, level: u32) -> Option<Term>
    requires node { IsNode at.now.model.now (O.count at.now.objective.now) (O.levels at.now.objective.now) at.now.level at.now.targets.now at.now.fixing.now }
    requires low { 1 ≤ level }
    requires below { level < at.now.level }
    ensures { MatchOption result (total (O.weight at.now.objective.now level) at.now.fixing.now.one ≡ target_of at.now.targets.now level)
        (IsMiss (packing at.now.model.now) (counted (O.weight at.now.objective.now) (O.floor at.now.objective.now)) (stage_at at.now.level at.now.targets.now at.now.best at.now.pool.now) (fixed_of at.now.fixing.now)) }
{
    let weight = weigh(
        at.objective,
        Weighed::Level(level),
        at.fixing.one.as_slice(),
    );
    let target = at.targets[level as usize - 1];
    if is_equal(weight, target) {
        return None;
    }
    if is_less(target, weight) {
        return Some(Term {
            row: RowName::Level(level),
            times: 1,
        });
    }
    Some(Term {
        row: RowName::Level(level),
        times: -1,
    })
}

/// The floor's row, where the patterns that are taken don't reach it.
fn missed_floor<O: Objective>(at: &ObjectiveAt<O>) -> Option<Term>
    requires node { IsNode at.now.model.now (O.count at.now.objective.now) (O.levels at.now.objective.now) at.now.level at.now.targets.now at.now.fixing.now }
    ensures { MatchOption result (ReachesFloor (O.floor at.now.objective.now) at.now.fixing.now.one)
        (IsMiss (packing at.now.model.now) (counted (O.weight at.now.objective.now) (O.floor at.now.objective.now)) (stage_at at.now.level at.now.targets.now at.now.best at.now.pool.now) (fixed_of at.now.fixing.now)) }
{
    if !at.objective.has_floor() {
        return None;
    }
    let weight = weigh(at.objective, Weighed::Floor, at.fixing.one.as_slice());
    if is_within(weight, at.objective.floor_number()) {
        return None;
    }
    Some(Term {
        row: RowName::Level(FLOOR_LEVEL),
        times: 1,
    })
}

/// Whether the negated weights are at most the negated number.
fn is_within(weight: i64, number: i64) -> bool
    requires { IsWithin (10 ^ 12) number }
    ensures { result ≡ int_le weight (pos 0 -ℤ number) }
{
    weight <= -number
}

/// Whether the numbers are equal.
fn is_equal(a: i64, b: i64) -> bool
    ensures { result ≡ int_eq a b }
{
    a == b
}

/// Whether the first number is less.
fn is_less(a: i64, b: i64) -> bool
    ensures { result ≡ int_lt a b }
{
    a < b
}

/// A leaf of one row that is missed.
fn one_term(alloc: Global, term: Term) -> Result<Bounded, Memory>
    ensures { IfOk result (λ r. r ≡ bounds.Closed (record { scale = pos 0; terms = term ∷ [] })) }
{
    let mut terms = Items::new(alloc);
    terms.push(term)?;
    Ok(Bounded::Closed(Leaf { scale: 0, terms }))
}

/// The patterns that are taken have the targets: they are better, or they are not.
fn at_value<O: Objective>(alloc: Global, at: &ObjectiveAt<O>) -> Result<Bounded, Memory>
    requires node { IsNode at.now.model.now (O.count at.now.objective.now) (O.levels at.now.objective.now) at.now.level at.now.targets.now at.now.fixing.now }
    requires none { has_free (packing at.now.model.now) (fixed_of at.now.fixing.now) ≡ false }
    requires meets { MeetsAll (counted (O.weight at.now.objective.now) (O.floor at.now.objective.now)) at.now.level at.now.targets.now at.now.fixing.now.one }
    ensures { IfOk result (Decides at.now.model.now (counted (O.weight at.now.objective.now) (O.floor at.now.objective.now)) (stage_at at.now.level at.now.targets.now at.now.best at.now.pool.now) (fixed_of at.now.fixing.now)) }
{
    let one = at.fixing.one.as_slice();
    let value = weigh(at.objective, Weighed::Level(at.level), one);
    if is_at_most(value, at.best) {
        return Ok(Bounded::Closed(Leaf {
            scale: 1,
            terms: Items::new(alloc),
        }));
    }
    let choice = to_choice(alloc, at.model.problem(), at.model.patterns(), one)?;
    Ok(Bounded::Better(choice))
}

/// Whether there is a best value that the value doesn't exceed.
fn is_at_most(value: i64, best: Option<i64>) -> bool
    ensures { result ≡ is_at_most value best }
{
    match best {
        Some(best) => value <= best,
        None => false,
    }
}
