ghost use Rattle.std.specs.Prelude.{◌≡◌, ◌<◌, ◌<ℤ◌, ◌≤ℤ◌, ◌^◌, pos, true, false, ℕ, [], slice_index_or, IfOk, MatchOption};
ghost use Rattle.std.specs.List.{list_any, All};
ghost use Rattle.std.specs.List.Sorted.{IsPermutation};
ghost use Rattle.packing_model.specs.Built.{packing};
ghost use Rattle.search_nodes.specs.Points.{IsPointOf};
ghost use Rattle.clique_cuts.specs.Separation.{KeepsPairs, KeepsTriples};
ghost use Rattle.clique_cuts.specs.Search.{IsEntry, IsBroken, AreEntries, IsSize, two_exceed, three_exceed, can_follow, clashes_with_both, can_end, breaks_with, breaks_from, breaks_in};

use crate::groups::{Kind, grouped};
use packing_model::{Model, Point};
use problem_core::Memory;
use std::alloc::Global;
use values::Items;

/// Two or three patterns that clash in pairs, to which a point gives more than its denominator.
#[derive(Clone, Copy)]
pub enum Broken {
    Pair(u32, u32),
    Triple(u32, u32, u32),
}

/// Two or three patterns that clash in pairs, to which the point gives more than its denominator, where
/// there are such. Three that clash in pairs have one room or one course, so they are sought there.
pub fn find_broken(
    alloc: Global,
    m: &Model,
    point: &Point,
    entries: &[(u32, i128)],
) -> Result<Option<Broken>, Memory>
    requires point { IsPointOf (packing m.now) point.now }
    requires entries { IsPermutation point.now.entries entries.now }
    ensures broken { IfOk result (λ found. MatchOption found (Unit {0}) (IsBroken (packing m.now) point.now)) }
    ensures pairs { IfOk result (λ found. MatchOption found (KeepsPairs (packing m.now) point.now) (λ broken. Unit {0})) }
    ensures triples { IfOk result (λ found. MatchOption found (KeepsTriples (packing m.now) point.now) (λ broken. Unit {0})) }
{
    let rooms = grouped(alloc, m, point, entries, Kind::Room)?;
    if let Some(broken) = broken_among(m, point, &rooms) {
        return Ok(Some(broken));
    }
    let courses = grouped(alloc, m, point, entries, Kind::Course)?;
    Ok(broken_among(m, point, &courses))
}

/// Two or three entries of a group that are broken, in the first group where there are such.
fn broken_among(m: &Model, point: &Point, groups: &[Items<(u32, i128)>]) -> Option<Broken>
    requires small { point.now.den ≤ℤ pos (10 ^ 24) }
    requires entries { AreEntries (packing m.now) point.now groups.now }
    ensures { MatchOption result ((g : ℕ) → breaks_in (packing m.now) point.now.den (slice_index_or groups.now g []) ≡ false) (IsBroken (packing m.now) point.now) }
{
    for group in groups {
        if let Some(broken) = broken_in(m, point, group.as_slice()) {
            return Some(broken);
        }
    }
    None
}

/// Two or three entries of the group that are broken, where there are such.
fn broken_in(m: &Model, point: &Point, group: &[(u32, i128)]) -> Option<Broken>
    requires small { point.now.den ≤ℤ pos (10 ^ 24) }
    requires entries { All (IsEntry (packing m.now) point.now) group.now }
    ensures { MatchOption result (breaks_in (packing m.now) point.now.den group.now ≡ false) (IsBroken (packing m.now) point.now) }
{
    for first in group {
        if let Some(broken) = broken_from(m, point, group, *first) {
            return Some(broken);
        }
    }
    None
}

/// The same, where the entry is the greatest of them.
fn broken_from(
    m: &Model,
    point: &Point,
    group: &[(u32, i128)],
    first: (u32, i128),
) -> Option<Broken>
    requires small { point.now.den ≤ℤ pos (10 ^ 24) }
    requires entries { All (IsEntry (packing m.now) point.now) group.now }
    requires first { IsEntry (packing m.now) point.now first }
    ensures { MatchOption result (breaks_from (packing m.now) point.now.den group.now first ≡ false) (IsBroken (packing m.now) point.now) }
{
    if !three_exceed(point, first.1, first.1, first.1) {
        return None;
    }
    for second in group {
        if let Some(broken) = broken_with(m, point, group, first, *second) {
            return Some(broken);
        }
    }
    None
}

/// Whether the two are more than the denominator together.
fn two_exceed(point: &Point, first: i128, second: i128) -> bool
    requires small { point.now.den ≤ℤ pos (10 ^ 24) }
    requires first { IsSize point.now.den first }
    requires second { IsSize point.now.den second }
    ensures { result ≡ two_exceed point.now.den first second }
{
    point.den < first + second
}

/// Whether the three are more than the denominator together.
fn three_exceed(point: &Point, first: i128, second: i128, third: i128) -> bool
    requires small { point.now.den ≤ℤ pos (10 ^ 24) }
    requires first { IsSize point.now.den first }
    requires second { IsSize point.now.den second }
    requires third { IsSize point.now.den third }
    ensures { result ≡ three_exceed point.now.den first second third }
{
    point.den < first + (second + third)
}

/// The two entries where they are broken, or they and a third of the group, none of which is greater than
/// the one before.
fn broken_with(
    m: &Model,
    point: &Point,
    group: &[(u32, i128)],
    first: (u32, i128),
    second: (u32, i128),
) -> Option<Broken>
    requires small { point.now.den ≤ℤ pos (10 ^ 24) }
    requires entries { All (IsEntry (packing m.now) point.now) group.now }
    requires first { IsEntry (packing m.now) point.now first }
    requires second { IsEntry (packing m.now) point.now second }
    ensures { MatchOption result (breaks_with (packing m.now) point.now.den group.now first second ≡ false) (IsBroken (packing m.now) point.now) }
{
    if !can_follow(m, point, first, second) {
        return None;
    }
    if two_exceed(point, first.1, second.1) {
        return Some(Broken::Pair(first.0, second.0));
    }
    third_of(m, point, group, first, second)
}

/// Whether the second entry is no greater than the first, twice it is more than what the first leaves of
/// the denominator, and the two clash.
fn can_follow(m: &Model, point: &Point, first: (u32, i128), second: (u32, i128)) -> bool
    requires small { point.now.den ≤ℤ pos (10 ^ 24) }
    requires first { IsEntry (packing m.now) point.now first }
    requires second { IsEntry (packing m.now) point.now second }
    ensures { result ≡ can_follow (packing m.now) point.now.den first second }
{
    second.1 <= first.1
        && three_exceed(point, first.1, second.1, second.1)
        && m.clash(first.0, second.0)
}

/// The two entries and a third of the group, which is no greater.
fn third_of(
    m: &Model,
    point: &Point,
    group: &[(u32, i128)],
    first: (u32, i128),
    second: (u32, i128),
) -> Option<Broken>
    requires small { point.now.den ≤ℤ pos (10 ^ 24) }
    requires entries { All (IsEntry (packing m.now) point.now) group.now }
    requires first { IsEntry (packing m.now) point.now first }
    requires second { IsEntry (packing m.now) point.now second }
    requires clash { (packing m.now).clash first.0 second.0 ≡ true }
    ensures { MatchOption result (list_any (can_end (packing m.now) point.now.den first second) group.now ≡ false) (IsBroken (packing m.now) point.now) }
{
    for third in group {
        if can_end(m, point, first, second, *third) {
            return Some(Broken::Triple(first.0, second.0, third.0));
        }
    }
    None
}

/// Whether the third entry is no greater than the second, the three are more than the denominator, and it
/// clashes with both.
fn can_end(
    m: &Model,
    point: &Point,
    first: (u32, i128),
    second: (u32, i128),
    third: (u32, i128),
) -> bool
    requires small { point.now.den ≤ℤ pos (10 ^ 24) }
    requires first { IsEntry (packing m.now) point.now first }
    requires second { IsEntry (packing m.now) point.now second }
    requires third { IsEntry (packing m.now) point.now third }
    ensures { result ≡ can_end (packing m.now) point.now.den first second third }
{
    third.1 <= second.1
        && three_exceed(point, first.1, second.1, third.1)
        && clashes_with_both(m, first.0, second.0, third.0)
}

/// Whether the third pattern clashes with both others.
fn clashes_with_both(m: &Model, first: u32, second: u32, third: u32) -> bool
    requires first { first < (packing m.now).count }
    requires second { second < (packing m.now).count }
    requires third { third < (packing m.now).count }
    ensures { result ≡ clashes_with_both (packing m.now).clash first second third }
{
    m.clash(first, third) && m.clash(second, third)
}
