ghost use Rattle.std.specs.Prelude.{◌≡◌, ◌≢◌, ◌<◌, ◌≤◌, ◌+◌, ◌==◌, ◌&&◌, not, ℕ, List, IfOk, if◌then◌else◌, length, slice_index};
ghost use Rattle.std.specs.List.{list_any, AllByRecursion};
ghost use Rattle.problem_core.specs.Choice.{IsLegal, entry};
ghost use Rattle.problem_core.specs.Courses.{place_of, passing};
ghost use Rattle.numbers.specs.Sums.{member};
ghost use Rattle.meeting_patterns.specs.Made.{AreClashless, IsMade};
ghost use Rattle.meeting_patterns.specs.Pattern.{ArePatterns, IsPattern, pattern_at, has_bit, is_equal, chooses};

use crate::laws::pattern_laws;
use crate::pattern::Pattern;
use crate::set::{PatternSet, has_bit};
use problem_core::{Choice, Memory, Problem};
use std::alloc::Global;
use values::Items;

/// The patterns that a legal choice chooses, in rising order: those whose events are exactly the events of
/// their course that the choice puts into their room. The set is that of the problem. They differ and don't
/// clash, so `to_choice` takes them.
pub fn chosen(alloc: Global, p: &Problem, s: &PatternSet, a: &Choice) -> Result<Vec<u32>, Memory>
    requires patterns { ArePatterns p.now s.now }
    requires legal { IsLegal p.now a.now.entries }
    ensures chosen { IfOk result (λ v. v.items ≡ passing (λ i. chooses p.now a.now.entries (pattern_at s.now i)) (length s.now)) }
    ensures clashless { IfOk result (λ v. AreClashless p.now s.now v.items) }
{
    p.laws();
    let chosen = chosen_of(alloc, p, s, a.entries.as_slice())?;
    Ok(chosen.into_vec())
}

fn chosen_of(
    alloc: Global,
    p: &Problem,
    s: &PatternSet,
    entries: &[u32],
) -> Result<Items<u32>, Memory>
    requires patterns { ArePatterns p.now s.now }
    requires one_each { length entries.now ≡ length p.now.events }
    requires few_rooms { length p.now.capacity ≤ 200 }
    ensures { IfOk result (λ v. v ≡ passing (λ i. chooses p.now entries.now (pattern_at s.now i)) (length s.now)) }
{
    let mut chosen = Items::new(alloc);
    for i in 0..s.len() {
        if chooses(p, entries, s.get(i)) {
            chosen.push(i)?;
        }
    }
    Ok(chosen)
}

/// Whether the events of the pattern's course that have its room are exactly the pattern's.
fn chooses(p: &Problem, entries: &[u32], x: Pattern) -> bool
    requires pattern { IsPattern p.now x }
    requires one_each { length entries.now ≡ length p.now.events }
    requires few_rooms { length p.now.capacity ≤ 200 }
    ensures { result ≡ chooses p.now entries.now x }
{
    !differs(p, entries, p.events_of(x.course), x)
}

/// Whether one of the events is in the mask and hasn't the room, or has it and isn't in the mask.
fn differs(p: &Problem, entries: &[u32], events: &[u32], x: Pattern) -> bool
    requires one_each { length entries.now ≡ length p.now.events }
    requires few_rooms { x.room < 200 }
    requires known { AllByRecursion (λ e. e < length p.now.events) events.now }
    ensures { result ≡ list_any (λ e. not (is_equal (has_bit x.mask (place_of p.now e)) (slice_index entries.now e == x.room + 1))) events.now }
{
    for event in events {
        if differs_at(p, entries[*event as usize], *event, x) {
            return true;
        }
    }
    false
}

fn differs_at(p: &Problem, found: u32, event: u32, x: Pattern) -> bool
    requires known { event < length p.now.events }
    requires few_rooms { x.room < 200 }
    ensures { result ≡ not (is_equal (has_bit x.mask (place_of p.now event)) (found == x.room + 1)) }
{
    let within = has_bit(u32::from(x.mask), p.place_of(event));
    within != (found == x.room + 1)
}

/// The choice that the patterns of the list make: each event has the room of the pattern that holds it,
/// else none. The set is that of the problem; the numbers differ, and their patterns don't clash. The
/// choice is legal, and what it chooses are the list's patterns.
pub fn to_choice(alloc: Global, p: &Problem, s: &PatternSet, list: &[u32]) -> Result<Choice, Memory>
    requires patterns { ArePatterns p.now s.now }
    requires clashless { AreClashless p.now s.now list.now }
    ensures made { IfOk result (λ a. IsMade p.now s.now list.now a.entries) }
    ensures legal { IfOk result (λ a. IsLegal p.now a.entries) }
    ensures back { IfOk result (λ a. (i : ℕ) → i < length s.now → chooses p.now a.entries (pattern_at s.now i) ≡ member i list.now) }
{
    p.laws();
    pattern_laws();
    let entries = made_entries(alloc, p, s, list)?;
    Ok(Choice {
        entries: Items::from(entries),
    })
}

/// The entries that the patterns make, from the last pattern to the first.
fn made_entries(
    alloc: Global,
    p: &Problem,
    s: &PatternSet,
    list: &[u32],
) -> Result<Vec<u32>, Memory>
    requires patterns { ArePatterns p.now s.now }
    requires known { (j : ℕ) → j < length list.now → slice_index list.now j < length s.now }
    requires few_rooms { length p.now.capacity ≤ 200 }
    ensures { IfOk result (λ v. IsMade p.now s.now list.now v.items) }
{
    let mut entries = vec![in alloc; 0; p.event_count() as usize]?;
    let mut left = list.len();
    while 0 < left {
        left -= 1;
        let x = s.get(list[left]);
        place(&mut entries, p, p.events_of(x.course), x);
    }
    Ok(entries)
}

/// Gives those of the events that are the pattern's its room.
fn place(entries: &mut Vec<u32>, p: &Problem, events: &[u32], x: Pattern)
    requires one_each { length entries.old.items ≡ length p.now.events }
    requires few_rooms { x.room < 200 }
    requires known { AllByRecursion (λ e. e < length p.now.events) events.now }
    ensures one_each { length entries.new.items ≡ length p.now.events }
    ensures entries { (e : ℕ) → slice_index entries.new.items e ≡ (if list_any (λ f. (f == e) && has_bit x.mask (place_of p.now f)) events.now then x.room + 1 else slice_index entries.old.items e) }
{
    for event in events {
        place_one(entries, p, *event, x);
    }
}

fn place_one(entries: &mut Vec<u32>, p: &Problem, event: u32, x: Pattern)
    requires one_each { length entries.old.items ≡ length p.now.events }
    requires few_rooms { x.room < 200 }
    requires known { event < length p.now.events }
    ensures one_each { length entries.new.items ≡ length p.now.events }
    ensures entries { (e : ℕ) → slice_index entries.new.items e ≡ (if (event == e) && has_bit x.mask (place_of p.now event) then x.room + 1 else slice_index entries.old.items e) }
{
    if has_bit(u32::from(x.mask), p.place_of(event)) {
        entries[event as usize] = x.room + 1;
    }
}
