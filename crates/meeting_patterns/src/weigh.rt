ghost use Rattle.std.specs.Prelude.{◌≡◌, ◌≢◌, ◌<◌, ◌≤◌, ◌+◌, ◌==◌, ◌&&◌, ℕ, ℤ, pos, true, length};
ghost use Rattle.std.specs.List.{list_any, AllByRecursion};
ghost use Rattle.numbers.specs.Sums.{picked, total};
ghost use Rattle.problem_core.specs.Facts.{share_slot};
ghost use Rattle.problem_core.specs.Kept.{IsWithin};
ghost use Rattle.problem_core.specs.Courses.{place_of, is_of_course, events_of};
ghost use Rattle.problem_core.specs.Measures.{gain};
ghost use Rattle.meeting_patterns.specs.Pattern.{IsPattern, has_bit, within, weight, weights, clash, share_event, share_a_slot};

use crate::pattern::Pattern;
use crate::set::has_bit;
use problem_core::Problem;

/// Whether the event is one of the pattern's.
pub fn within(p: &Problem, a: Pattern, event: u32) -> bool
    requires { event < length p.now.events }
    ensures { result ≡ within p.now a event }
{
    a.course == p.course_of(event) && has_bit(u32::from(a.mask), p.place_of(event))
}

/// What the pattern adds to the six measures: what its meetings gain in its room, and -1 in course rooms.
pub fn weights(p: &Problem, a: Pattern) -> [i64; 6]
    requires { IsPattern p.now a }
    ensures weights { result ≡ weights p.now a }
    ensures small { AllByRecursion (IsWithin (pos 576000000)) result }
{
    [
        weight(p, a, 1),
        weight(p, a, 2),
        weight(p, a, 3),
        weight(p, a, 4),
        -1,
        weight(p, a, 6),
    ]
}

/// What the pattern's meetings gain in its room.
fn weight(p: &Problem, a: Pattern, level: u32) -> i64
    requires pattern { IsPattern p.now a }
    requires low { 1 ≤ level }
    requires high { level ≤ 6 }
    requires not_rooms { level ≢ 5 }
    ensures weight { result ≡ weight p.now level a }
    ensures small { IsWithin (pos 576000000) result }
{
    weight_of(p, a, level, p.events_of(a.course))
}

/// What those of the course's events that are the pattern's gain in its room.
fn weight_of(p: &Problem, a: Pattern, level: u32, events: &[u32]) -> i64
    requires pattern { IsPattern p.now a }
    requires low { 1 ≤ level }
    requires high { level ≤ 6 }
    requires not_rooms { level ≢ 5 }
    requires few { length events.now ≤ 12 }
    requires known { AllByRecursion (λ e. e < length p.now.events) events.now }
    requires of_course { AllByRecursion (λ e. is_of_course p.now a.course e ≡ true) events.now }
    ensures weight { result ≡ total (λ e. picked (has_bit a.mask (place_of p.now e)) (gain p.now level e a.room)) events.now }
    ensures small { IsWithin (pos 576000000) result }
{
    let mut sum: i64 = 0;
    for event in events {
        sum += gain_within(p, a, level, *event);
    }
    sum
}

/// What the event gains in the pattern's room where it is one of the pattern's, else 0.
fn gain_within(p: &Problem, a: Pattern, level: u32, event: u32) -> i64
    requires pattern { IsPattern p.now a }
    requires low { 1 ≤ level }
    requires high { level ≤ 6 }
    requires not_rooms { level ≢ 5 }
    requires known { event < length p.now.events }
    requires of_course { is_of_course p.now a.course event ≡ true }
    ensures gain { result ≡ picked (has_bit a.mask (place_of p.now event)) (gain p.now level event a.room) }
    ensures small { IsWithin (pos 48000000) result }
{
    if has_bit(u32::from(a.mask), p.place_of(event)) {
        p.gain(level, event, a.room)
    } else {
        0
    }
}

/// Whether the patterns clash: they differ, and share an event, or have one room and events with a slot in
/// common, or have one course and one room.
pub fn clash(p: &Problem, a: Pattern, b: Pattern) -> bool
    requires first { IsPattern p.now a }
    requires second { IsPattern p.now b }
    ensures { result ≡ clash p.now a b }
{
    if a.room != b.room {
        share_event(p, a, b)
    } else if a.course == b.course {
        a.mask != b.mask
    } else {
        share_a_slot(p, a, b)
    }
}

/// Whether one event is in both patterns.
fn share_event(p: &Problem, a: Pattern, b: Pattern) -> bool
    requires first { IsPattern p.now a }
    requires second { IsPattern p.now b }
    ensures { result ≡ share_event p.now a b }
{
    a.course == b.course && share_a_bit(p, p.events_of(a.course), a.mask, b.mask)
}

/// Whether one of the events is in both masks.
fn share_a_bit(p: &Problem, events: &[u32], a: u16, b: u16) -> bool
    requires { AllByRecursion (λ e. e < length p.now.events) events.now }
    ensures { result ≡ list_any (λ e. has_bit a (place_of p.now e) && has_bit b (place_of p.now e)) events.now }
{
    for event in events {
        let place = p.place_of(*event);
        if has_both(a, b, place) {
            return true;
        }
    }
    false
}

fn has_both(a: u16, b: u16, place: u32) -> bool
    requires { place < 12 }
    ensures { result ≡ (has_bit a place && has_bit b place) }
{
    has_bit(u32::from(a), place) && has_bit(u32::from(b), place)
}

/// Whether an event of the one and an event of the other take a slot in common.
fn share_a_slot(p: &Problem, a: Pattern, b: Pattern) -> bool
    requires first { IsPattern p.now a }
    requires second { IsPattern p.now b }
    ensures { result ≡ share_a_slot p.now a b }
{
    any_meets(p, a, p.events_of(a.course), b)
}

/// Whether one of the events is a's, and takes a slot in common with one of b's.
fn any_meets(p: &Problem, a: Pattern, events: &[u32], b: Pattern) -> bool
    requires second { IsPattern p.now b }
    requires known { AllByRecursion (λ e. e < length p.now.events) events.now }
    ensures { result ≡ list_any (λ e. has_bit a.mask (place_of p.now e) && list_any (λ f. has_bit b.mask (place_of p.now f) && share_slot p.now e f) (events_of p.now b.course)) events.now }
{
    for event in events {
        if meets(p, a, *event, b) {
            return true;
        }
    }
    false
}

/// Whether the event is one of a's, and takes a slot in common with one of b's.
fn meets(p: &Problem, a: Pattern, event: u32, b: Pattern) -> bool
    requires second { IsPattern p.now b }
    requires known { event < length p.now.events }
    ensures { result ≡ (has_bit a.mask (place_of p.now event) && list_any (λ f. has_bit b.mask (place_of p.now f) && share_slot p.now event f) (events_of p.now b.course)) }
{
    has_bit(u32::from(a.mask), p.place_of(event))
        && meets_one(p, event, p.events_of(b.course), b.mask)
}

/// Whether one of the events in the mask takes a slot in common with the event.
fn meets_one(p: &Problem, event: u32, others: &[u32], mask: u16) -> bool
    requires known { event < length p.now.events }
    requires others { AllByRecursion (λ e. e < length p.now.events) others.now }
    ensures { result ≡ list_any (λ f. has_bit mask (place_of p.now f) && share_slot p.now event f) others.now }
{
    for other in others {
        if is_met(p, event, *other, mask) {
            return true;
        }
    }
    false
}

fn is_met(p: &Problem, event: u32, other: u32, mask: u16) -> bool
    requires known { event < length p.now.events }
    requires other { other < length p.now.events }
    ensures { result ≡ (has_bit mask (place_of p.now other) && share_slot p.now event other) }
{
    has_bit(u32::from(mask), p.place_of(other)) && p.share_slot(event, other)
}
