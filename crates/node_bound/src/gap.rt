ghost use Rattle.std.specs.Prelude.{◌≡◌, ◌<◌, ◌≤◌, ◌*ℤ◌, ◌^◌, ◌+ℤ◌, ◌-ℤ◌, ℕ, ℤ, pos, map, length, nat_lt, int_lt, int_le, true, IfOk};
ghost use Rattle.std.specs.List.{list_all};
ghost use Rattle.numbers.specs.Sums.{member};
ghost use Rattle.std.specs.Ordering.{int_eq};
ghost use Rattle.meeting_patterns.specs.Pattern.{patterns_of};
ghost use Rattle.duality.specs.Packing.{floor_number, floor_weight, target_of};
ghost use Rattle.duality.specs.Sums.{IsLevelOf, IsValue, IsWithin, weighed};
ghost use Rattle.packing_model.specs.Built.{packing};
ghost use Rattle.packing_model.specs.Closing.{counted};
ghost use Rattle.packing_model.specs.Cuts.{IsPoolOf};
ghost use Rattle.packing_model.specs.Nodes.{IsFixingOf, fixed_of, stage_at};
ghost use Rattle.packing_model.specs.Rising.{is_rising};
ghost use Rattle.search_nodes.specs.Points.{IsAbove, IsGapPoint, IsPointOf, ReachesFloor, entry_of, is_part, sum_at};
ghost use Rattle.node_bound.specs.Fixed.{IsNode};
ghost use Rattle.node_bound.specs.Guessed.{AreEntries, AreFew, HasTargets, IsBeside, KeepsRows, entry_sum, has_all, is_den, is_point, keeps_fixing, may_stand};

use crate::given::row_sums;
use crate::places::Places;
use crate::whole::is_whole;
use duality::{Objective, Weighed, added, product, weight_of};
use packing_model::{Fixing, Model, ObjectiveAt, Point, is_free};
use problem_core::Memory;
use std::alloc::Global;

/// The most entries of a point that is tested, so that its sums fit.
const MOST_ENTRIES: usize = 100_000;

/// The greatest denominator.
const MOST_DEN: i128 = 1_000_000_000_000_000_000_000_000;

/// Whether the point is one of the node: its entries rise and are parts of 1 over a denominator of at most
/// 10^24; it has all of each pattern that is taken and nothing of any other that is not free; it meets each
/// base row and cut, the targets of the levels below and the floor; it weighs at least 1 more than the best
/// value; and some pattern is given in part. A point of more than 100,000 entries is not taken. Any point may
/// be asked for. It fails only where memory runs out.
pub(crate) fn takes_point<O: Objective>(
    alloc: Global,
    at: &ObjectiveAt<O>,
    point: &Point,
) -> Result<bool, Memory>
    requires node { IsNode at.now.model.now (O.count at.now.objective.now) (O.levels at.now.objective.now) at.now.level at.now.targets.now at.now.fixing.now }
    requires pool { IsPoolOf (packing at.now.model.now) at.now.pool.now }
    requires best { IsValue at.now.best }
    ensures { IfOk result (λ taken. taken ≡ true → IsGapPoint (packing at.now.model.now) (counted (O.weight at.now.objective.now) (O.floor at.now.objective.now)) (stage_at at.now.level at.now.targets.now at.now.best at.now.pool.now) (fixed_of at.now.fixing.now) point.now) }
{
    if !is_point(at.model, point) {
        return Ok(false);
    }
    if !is_beside(at, point) {
        return Ok(false);
    }
    keeps_rows(alloc, at, point)
}

/// Whether the entries rise and are parts of 1 of patterns that there are, and are not too many.
fn is_point(model: &Model, point: &Point) -> bool
    ensures { result ≡ is_point (length (patterns_of model.now)) point.now }
{
    let entries = point.entries.as_slice();
    let few = entries.len() <= MOST_ENTRIES;
    let den = is_den(point.den);
    let rising = are_rising(entries);
    let known = are_known(entries, model.patterns().len());
    let parts = are_parts(entries, point.den);
    few && den && rising && known && parts
}

/// Whether it may be a denominator.
fn is_den(den: i128) -> bool
    ensures { result ≡ is_den den }
{
    0 < den && den <= MOST_DEN
}

/// Whether the patterns of the entries rise.
fn are_rising(entries: &[(u32, i128)]) -> bool
    ensures { result ≡ is_rising (map (λ (e : ℕ × ℤ). e.0) entries.now) }
{
    let Some((first, rest)) = entries.split_first() else {
        return true;
    };
    let mut last = first.0;
    for entry in rest {
        if last >= entry.0 {
            return false;
        }
        last = entry.0;
    }
    true
}

/// Whether the patterns of the entries are below the number.
fn are_known(entries: &[(u32, i128)], count: u32) -> bool
    ensures { result ≡ list_all (λ (e : ℕ × ℤ). nat_lt e.0 count) entries.now }
{
    for entry in entries {
        if entry.0 >= count {
            return false;
        }
    }
    true
}

/// Whether each entry is more than 0 and at most the denominator.
fn are_parts(entries: &[(u32, i128)], den: i128) -> bool
    ensures { result ≡ list_all (is_part den) entries.now }
{
    for entry in entries {
        if !is_part(den, *entry) {
            return false;
        }
    }
    true
}

/// Whether the entry is more than 0 and at most the denominator.
fn is_part(den: i128, entry: (u32, i128)) -> bool
    ensures { result ≡ is_part den entry }
{
    0 < entry.1 && entry.1 <= den
}

/// Whether the point keeps to the fixing, meets the level rows, weighs more than the best value, and gives some
/// pattern in part.
fn is_beside<O: Objective>(at: &ObjectiveAt<O>, point: &Point) -> bool
    requires node { IsNode at.now.model.now (O.count at.now.objective.now) (O.levels at.now.objective.now) at.now.level at.now.targets.now at.now.fixing.now }
    requires best { IsValue at.now.best }
    requires point { AreFew (packing at.now.model.now) point.now }
    ensures { result ≡ true → IsBeside (packing at.now.model.now) (counted (O.weight at.now.objective.now) (O.floor at.now.objective.now)) (stage_at at.now.level at.now.targets.now at.now.best at.now.pool.now) (fixed_of at.now.fixing.now) point.now }
{
    if !keeps_fixing(at.model, at.fixing, point) {
        return false;
    }
    if !has_targets(at, point) {
        return false;
    }
    reaches_floor(at, point) && is_above(at, point) && !is_whole(point)
}

/// Whether the point has all of each pattern that is taken, and nothing of any other that is not free.
fn keeps_fixing(model: &Model, fixing: &Fixing, point: &Point) -> bool
    requires fixing { IsFixingOf (packing model.now) fixing.now }
    requires point { AreFew (packing model.now) point.now }
    ensures { result ≡ keeps_fixing (packing model.now) (fixed_of fixing.now) point.now }
{
    let taken = has_each(point, fixing.one.as_slice());
    let others = may_stand_each(model, fixing, point.entries.as_slice());
    taken && others
}

/// Whether the point has all of each of the patterns.
fn has_each(point: &Point, patterns: &[u32]) -> bool
    ensures { result ≡ list_all (has_all point.now) patterns.now }
{
    for pattern in patterns {
        if !has_all(point, *pattern) {
            return false;
        }
    }
    true
}

/// Whether the point has all of the pattern.
fn has_all(point: &Point, pattern: u32) -> bool
    ensures { result ≡ has_all point.now pattern }
{
    entry_of(point.entries.as_slice(), pattern) == point.den
}

/// What the entries give the pattern.
fn entry_of(entries: &[(u32, i128)], pattern: u32) -> i128
    ensures { result ≡ entry_of entries.now pattern }
{
    for entry in entries {
        if entry.0 == pattern {
            return entry.1;
        }
    }
    0
}

/// Whether each pattern of an entry is taken or free.
fn may_stand_each(model: &Model, fixing: &Fixing, entries: &[(u32, i128)]) -> bool
    requires fixing { IsFixingOf (packing model.now) fixing.now }
    requires known { list_all (λ (e : ℕ × ℤ). nat_lt e.0 (length (patterns_of model.now))) entries.now ≡ true }
    ensures { result ≡ list_all (may_stand (packing model.now) (fixed_of fixing.now)) entries.now }
{
    for entry in entries {
        if !may_stand(model, fixing, *entry) {
            return false;
        }
    }
    true
}

/// Whether the pattern of the entry is taken or free.
fn may_stand(model: &Model, fixing: &Fixing, entry: (u32, i128)) -> bool
    requires fixing { IsFixingOf (packing model.now) fixing.now }
    requires known { entry.0 < length (patterns_of model.now) }
    ensures { result ≡ may_stand (packing model.now) (fixed_of fixing.now) entry }
{
    let taken = is_one_of(entry.0, fixing.one.as_slice());
    taken || is_free(model, fixing, entry.0)
}

/// Whether the pattern is one of these.
fn is_one_of(pattern: u32, patterns: &[u32]) -> bool
    ensures { result ≡ member pattern patterns.now }
{
    patterns.contains(&pattern)
}

/// Whether the point has the targets of the levels below.
fn has_targets<O: Objective>(at: &ObjectiveAt<O>, point: &Point) -> bool
    requires node { IsNode at.now.model.now (O.count at.now.objective.now) (O.levels at.now.objective.now) at.now.level at.now.targets.now at.now.fixing.now }
    requires point { AreFew (packing at.now.model.now) point.now }
    ensures { result ≡ true → HasTargets (O.weight at.now.objective.now) at.now.level at.now.targets.now point.now }
{
    for level in 1..at.level {
        if !has_target(at, point, level) {
            return false;
        }
    }
    true
}

/// Whether the point has the level's target.
fn has_target<O: Objective>(at: &ObjectiveAt<O>, point: &Point, level: u32) -> bool
    requires node { IsNode at.now.model.now (O.count at.now.objective.now) (O.levels at.now.objective.now) at.now.level at.now.targets.now at.now.fixing.now }
    requires point { AreFew (packing at.now.model.now) point.now }
    requires low { 1 ≤ level }
    requires below { level < at.now.level }
    ensures { result ≡ int_eq (entry_sum (O.weight at.now.objective.now level) point.now.entries) (point.now.den *ℤ target_of at.now.targets.now level) }
{
    let sum = sum_of(at.objective, Weighed::Level(level), point);
    let target = product(point.den, at.targets[level as usize - 1]);
    is_equal(sum, target)
}

/// Whether the point reaches the floor, where there is one.
fn reaches_floor<O: Objective>(at: &ObjectiveAt<O>, point: &Point) -> bool
    requires count { O.count at.now.objective.now ≡ length (patterns_of at.now.model.now) }
    requires point { AreFew (packing at.now.model.now) point.now }
    ensures { result ≡ true → ReachesFloor (packing at.now.model.now) (O.floor at.now.objective.now) point.now }
{
    if !at.objective.has_floor() {
        return true;
    }
    let sum = sum_of(at.objective, Weighed::Floor, point);
    let least = product(point.den, at.objective.floor_number());
    is_negated(sum, least)
}

/// Whether the point weighs at least 1 more than the best value, where there is one.
fn is_above<O: Objective>(at: &ObjectiveAt<O>, point: &Point) -> bool
    requires node { IsNode at.now.model.now (O.count at.now.objective.now) (O.levels at.now.objective.now) at.now.level at.now.targets.now at.now.fixing.now }
    requires best { IsValue at.now.best }
    requires point { AreFew (packing at.now.model.now) point.now }
    ensures { result ≡ true → IsAbove at.now.best point.now.den (sum_at (packing at.now.model.now) (O.weight at.now.objective.now at.now.level) point.now) }
{
    match at.best {
        Some(best) => {
            let sum = sum_of(at.objective, Weighed::Level(at.level), point);
            is_at_most(product(point.den, one_more(best)), sum)
        }
        None => true,
    }
}

/// The next value.
fn one_more(value: i64) -> i64
    requires { IsWithin (10 ^ 12) value }
    ensures { result ≡ value +ℤ pos 1 }
{
    value + 1
}

/// What the point's entries weigh at a level, or on the floor's row, over the denominator.
fn sum_of<O: Objective>(objective: &O, what: Weighed, point: &Point) -> i128
    requires level { IsLevelOf (O.levels objective.now) what }
    requires point { AreEntries (O.count objective.now) point.now.entries }
    ensures value { result ≡ entry_sum (weighed (counted (O.weight objective.now) (O.floor objective.now)) what) point.now.entries }
    ensures small { IsWithin (10 ^ 38) result }
{
    let mut sum: i128 = 0;
    for entry in point.entries.as_slice() {
        sum = added(sum, weight_in(objective, what, *entry));
    }
    sum
}

/// What one entry weighs.
fn weight_in<O: Objective>(objective: &O, what: Weighed, entry: (u32, i128)) -> i128
    requires level { IsLevelOf (O.levels objective.now) what }
    requires known { entry.0 < O.count objective.now }
    requires small { IsWithin (10 ^ 24) entry.1 }
    ensures value { result ≡ weighed (counted (O.weight objective.now) (O.floor objective.now)) what entry.0 *ℤ entry.1 }
    ensures small { IsWithin (10 ^ 33) result }
{
    times(weight_of(objective, what, entry.0), entry.1)
}

/// A weight times an entry.
fn times(weight: i64, part: i128) -> i128
    requires weight { IsWithin (10 ^ 9) weight }
    requires part { IsWithin (10 ^ 24) part }
    ensures value { result ≡ weight *ℤ part }
    ensures small { IsWithin (10 ^ 33) result }
{
    i128::from(weight) * part
}

/// Whether the point meets the base rows and the cuts.
fn keeps_rows<O: Objective>(
    alloc: Global,
    at: &ObjectiveAt<O>,
    point: &Point,
) -> Result<bool, Memory>
    requires node { IsNode at.now.model.now (O.count at.now.objective.now) (O.levels at.now.objective.now) at.now.level at.now.targets.now at.now.fixing.now }
    requires point { AreFew (packing at.now.model.now) point.now }
    ensures { IfOk result (λ kept. kept ≡ true → KeepsRows (packing at.now.model.now) (stage_at at.now.level at.now.targets.now at.now.best at.now.pool.now) point.now) }
{
    let places = Places::of(at);
    let sums = row_sums(alloc, at, &places, point.entries.as_slice())?;
    Ok(are_at_most(&sums, point.den))
}

/// Whether each number is at most the bound.
fn are_at_most(numbers: &[i128], bound: i128) -> bool
    ensures { result ≡ list_all (λ z. int_le z bound) numbers.now }
{
    for number in numbers {
        if !is_at_most(*number, bound) {
            return false;
        }
    }
    true
}

/// Whether the first number is at most the second.
fn is_at_most(a: i128, b: i128) -> bool
    ensures { result ≡ int_le a b }
{
    a <= b
}

/// Whether the numbers are equal.
fn is_equal(a: i128, b: i128) -> bool
    ensures { result ≡ int_eq a b }
{
    a == b
}

/// Whether the first number is at most the second negated.
fn is_negated(a: i128, b: i128) -> bool
    requires { IsWithin (10 ^ 37) b }
    ensures { result ≡ int_le a (pos 0 -ℤ b) }
{
    a <= -b
}
