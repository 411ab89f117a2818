ghost use Rattle.std.specs.Prelude.{◌≡◌, ◌<◌, ◌≤◌, ◌^◌, ◌-ℤ◌, ℕ, pos, true, int_le, nat_lt, length, IfOk, OnOk, MatchOption};
ghost use Rattle.std.specs.List.{list_all, All};
ghost use Rattle.std.specs.Ordering.{int_eq};
ghost use Rattle.numbers.specs.Sums.{total};
ghost use Rattle.problem_core.specs.Choice.{IsLegal};
ghost use Rattle.meeting_patterns.specs.Pattern.{patterns_of};
ghost use Rattle.duality.specs.Packing.{target_of};
ghost use Rattle.duality.specs.Sums.{IsWithin};
ghost use Rattle.packing_model.specs.Built.{packing};
ghost use Rattle.packing_model.specs.Closing.{counted};
ghost use Rattle.packing_model.specs.Nodes.{AreTargets};
ghost use Rattle.search_nodes.specs.Choices.{IsMore};
ghost use Rattle.search_nodes.specs.Paths.{IsWalk};
ghost use Rattle.search_nodes.specs.Points.{IsPointOf};
ghost use Rattle.clique_cuts.specs.Cliques.{IsKnown};
ghost use Rattle.clique_cuts.specs.Better.{IsBetter, IsLevel, AreFew, HasTargets, ReachesFloor, MeetsAll, is_over};

use crate::cuts::falling;
use crate::slots::slot_choice;
use duality::{Objective, Weighed, weigh};
use meeting_patterns::{chosen, pattern_laws, to_choice};
use packing_model::{Model, ObjectiveAt, Point, is_free};
use problem_core::{Choice, Memory};
use search_nodes::{Walk, walk_laws};
use std::alloc::Global;

/// A better choice that is made out of the point, where one is found: it is legal, has the targets of the
/// levels below, reaches the floor, and weighs more than the best value at the level. Nothing is promised of
/// how it is found, nor that it is found where there is one; what is found is tested. It fails only where
/// memory runs out.
///
/// It is sought in two ways. The patterns of the point are taken by falling entry, each that clashes with none
/// taken before. Then rooms are given slot by slot over the pairs of meeting and room that the point uses, so
/// that each meeting and each room is covered in a slot that the point covers wholly there.
pub fn rounded<O: Objective>(
    alloc: Global,
    at: &ObjectiveAt<O>,
    point: &Point,
) -> Result<Option<Choice>, Memory>
    requires count { O.count at.now.objective.now ≡ length (patterns_of at.now.model.now) }
    requires high { at.now.level ≤ O.levels at.now.objective.now }
    requires targets { AreTargets at.now.level at.now.targets.now }
    requires point { IsPointOf (packing at.now.model.now) point.now }
    ensures { IfOk result (λ found. MatchOption found (Unit {0}) (λ choice. IsBetter at.now.model.now (counted (O.weight at.now.objective.now) (O.floor at.now.objective.now)) at.now.level at.now.targets.now at.now.best choice.entries)) }
{
    let entries = falling(alloc, point)?;
    let choice = packed(alloc, at.model, &entries)?;
    match better_choice(alloc, at, choice)? {
        Some(choice) => Ok(Some(choice)),
        None => {
            let choice = slot_choice(alloc, at.model, point.den, &entries)?;
            better_choice(alloc, at, choice)
        }
    }
}

/// The choice of the entries' patterns in their order, each that clashes with none before.
fn packed(alloc: Global, m: &Model, entries: &[(u32, i128)]) -> Result<Choice, Memory>
    requires { All (IsKnown (packing m.now)) entries.now }
{
    pattern_laws();
    let walk = walk_over(alloc, m, entries)?;
    walk_laws();
    to_choice(alloc, m.problem(), m.patterns(), walk.fixing.one.as_slice())
}

/// The path on which these patterns are taken.
fn walk_over(alloc: Global, m: &Model, entries: &[(u32, i128)]) -> Result<Walk, Memory>
    requires { All (IsKnown (packing m.now)) entries.now }
    ensures { IfOk result (λ walk. IsWalk (packing m.now) walk) }
{
    let mut walk = Walk::new(alloc);
    for entry in entries {
        take_free(&mut walk, m, entry.0)?;
    }
    Ok(walk)
}

/// Takes the pattern where it clashes with none that is taken.
fn take_free(walk: &mut Walk, m: &Model, pattern: u32) -> Result<(), Memory>
    requires walk { IsWalk (packing m.now) walk.old }
    requires known { pattern < length (patterns_of m.now) }
    ensures { OnOk result (IsWalk (packing m.now) walk.new) }
{
    walk_laws();
    if is_free(m, &walk.fixing, pattern) {
        walk.branch(pattern)?;
        walk.turn()?;
    }
    Ok(())
}

/// The choice, where it is better: it is legal, has the targets of the levels below, reaches the floor, and
/// weighs more than the best value at the level. Any choice may be asked for, of any number of entries and any
/// rooms. It fails only where memory runs out.
pub fn better_choice<O: Objective>(
    alloc: Global,
    at: &ObjectiveAt<O>,
    choice: Choice,
) -> Result<Option<Choice>, Memory>
    requires count { O.count at.now.objective.now ≡ length (patterns_of at.now.model.now) }
    requires high { at.now.level ≤ O.levels at.now.objective.now }
    requires targets { AreTargets at.now.level at.now.targets.now }
    ensures { IfOk result (λ found. MatchOption found (Unit {0}) (λ found. IsBetter at.now.model.now (counted (O.weight at.now.objective.now) (O.floor at.now.objective.now)) at.now.level at.now.targets.now at.now.best found.entries)) }
{
    at.model.laws();
    pattern_laws();
    if !at.model.problem().is_legal(&choice) {
        return Ok(None);
    }
    let list = chosen(alloc, at.model.problem(), at.model.patterns(), &choice)?;
    if is_better(at, &list) {
        return Ok(Some(choice));
    }
    Ok(None)
}

/// Whether the patterns have the targets, reach the floor, and weigh more than the best value.
fn is_better<O: Objective>(at: &ObjectiveAt<O>, list: &[u32]) -> bool
    requires level { IsLevel (O.levels at.now.objective.now) at.now.level at.now.targets.now }
    requires list { AreFew (O.count at.now.objective.now) list.now }
    ensures { result ≡ true → MeetsAll (counted (O.weight at.now.objective.now) (O.floor at.now.objective.now)) at.now.level at.now.targets.now list.now × IsMore at.now.best (total (O.weight at.now.objective.now at.now.level) list.now) }
{
    has_targets(at, list) && reaches_floor(at, list) && is_more(at, list)
}

/// Whether the patterns have the targets of the levels below.
fn has_targets<O: Objective>(at: &ObjectiveAt<O>, list: &[u32]) -> bool
    requires level { IsLevel (O.levels at.now.objective.now) at.now.level at.now.targets.now }
    requires list { AreFew (O.count at.now.objective.now) list.now }
    ensures { result ≡ true → HasTargets (O.weight at.now.objective.now) at.now.level at.now.targets.now list.now }
{
    for level in 1..at.level {
        if !has_target(at, level, list) {
            return false;
        }
    }
    true
}

/// Whether the patterns have the level's target.
fn has_target<O: Objective>(at: &ObjectiveAt<O>, level: u32, list: &[u32]) -> bool
    requires level { IsLevel (O.levels at.now.objective.now) at.now.level at.now.targets.now }
    requires list { AreFew (O.count at.now.objective.now) list.now }
    requires low { 1 ≤ level }
    requires below { level < at.now.level }
    ensures { result ≡ true → total (O.weight at.now.objective.now level) list.now ≡ target_of at.now.targets.now level }
{
    let weight = weigh(at.objective, Weighed::Level(level), list);
    is_equal(weight, at.targets[level as usize - 1])
}

/// Whether the patterns reach the floor, where there is one.
fn reaches_floor<O: Objective>(at: &ObjectiveAt<O>, list: &[u32]) -> bool
    requires list { AreFew (O.count at.now.objective.now) list.now }
    ensures { result ≡ true → ReachesFloor (O.floor at.now.objective.now) list.now }
{
    if !at.objective.has_floor() {
        return true;
    }
    let weight = weigh(at.objective, Weighed::Floor, list);
    is_within(weight, at.objective.floor_number())
}

/// Whether the negated weights are at most the negated number.
fn is_within(weight: i64, number: i64) -> bool
    requires { IsWithin (10 ^ 12) number }
    ensures { result ≡ int_le weight (pos 0 -ℤ number) }
{
    weight <= -number
}

/// Whether the numbers are equal.
fn is_equal(a: i64, b: i64) -> bool
    ensures { result ≡ int_eq a b }
{
    a == b
}

/// Whether the patterns weigh more than the best value at the level.
fn is_more<O: Objective>(at: &ObjectiveAt<O>, list: &[u32]) -> bool
    requires level { IsLevel (O.levels at.now.objective.now) at.now.level at.now.targets.now }
    requires list { AreFew (O.count at.now.objective.now) list.now }
    ensures { result ≡ true → IsMore at.now.best (total (O.weight at.now.objective.now at.now.level) list.now) }
{
    let weight = weigh(at.objective, Weighed::Level(at.level), list);
    is_over(weight, at.best)
}

/// Whether the value is more than the best value, where there is one.
fn is_over(value: i64, best: Option<i64>) -> bool
    ensures { result ≡ is_over value best }
{
    match best {
        Some(best) => best < value,
        None => true,
    }
}
