ghost use Rattle.std.specs.Prelude.{◌≡◌, ◌<◌, ◌≤◌, ◌+◌, ◌++◌, ◌∷◌, ℕ, OnOk, IfOk, length, map, drop};
ghost use Rattle.meeting_patterns.specs.Pattern.{Lists, patterns_of, in_rooms, masks_at, has_bit, pattern, pattern_at};

use crate::pattern::Pattern;
use problem_core::{BuildFault, Limit, LimitKind, Memory, Problem};
use std::alloc::Global;
use std::marker::Model;
use values::Items;

/// The most patterns that a set holds.
pub const MOST_PATTERNS: u64 = 200_000;

/// All patterns of a problem, each once, in order of course, room and mask. Contracts see them as a list.
#[derive(Drop)]
pub struct PatternSet {
    patterns: Items<Pattern>,
}

impl Model for PatternSet {
    ghost use Rattle.std.specs.Prelude.{List, ◌≤◌, length};
    ghost use Rattle.meeting_patterns.specs.declared.pattern.Pattern.{Pattern};

    ghost Value = { List Pattern };

    ghost view = { λ s. s.patterns };

    ghost invariant = { λ s. length s.patterns ≤ 200000 };
}

impl PatternSet {
    /// The patterns of the problem. `Limit` of kind `Patterns` comes exactly where there are more than 200,000.
    pub fn all(alloc: Global, p: &Problem) -> Result<PatternSet, BuildFault>
        ensures { Lists p.now result }
    {
        let count = count(p);
        if MOST_PATTERNS < count {
            return Err(BuildFault::Limit(Limit {
                kind: LimitKind::Patterns,
                count,
                limit: MOST_PATTERNS,
            }));
        }
        match listed(alloc, p) {
            Ok(patterns) => Ok(PatternSet { patterns }),
            Err(_) => Err(BuildFault::Memory),
        }
    }

    /// The number of patterns.
    pub fn len(&self) -> u32
        ensures count { result ≡ length self.now }
        ensures few { length self.now ≤ 200000 }
    {
        self.patterns.len() as u32
    }

    /// The pattern of the number.
    pub fn get(&self, pattern: u32) -> Pattern
        requires { pattern < length self.now }
        ensures { result ≡ pattern_at self.now pattern }
    {
        self.patterns.as_slice()[pattern as usize]
    }
}

/// The patterns of the problem.
fn listed(alloc: Global, p: &Problem) -> Result<Items<Pattern>, Memory>
    ensures { IfOk result (λ s. s ≡ patterns_of p.now) }
{
    let mut patterns = Items::new(alloc);
    for course in 0..p.course_count() {
        add_course(&mut patterns, p, course)?;
    }
    Ok(patterns)
}

/// Adds the course's patterns.
fn add_course(patterns: &mut Items<Pattern>, p: &Problem, course: u32) -> Result<(), Memory>
    requires { course < length p.now.students }
    ensures { OnOk result (patterns.new ≡ patterns.old ++ in_rooms p.now course (length p.now.capacity)) }
{
    for room in 0..p.room_count() {
        add_room(patterns, p, course, room)?;
    }
    Ok(())
}

/// Adds the course's patterns in the room, a meeting at a time: those of the earlier meetings come first.
fn add_room(
    patterns: &mut Items<Pattern>,
    p: &Problem,
    course: u32,
    room: u32,
) -> Result<(), Memory>
    requires known { course < length p.now.students }
    requires known_room { room < length p.now.capacity }
    ensures { OnOk result (patterns.new ≡ patterns.old ++ map (pattern course room) (masks_at p.now course room)) }
{
    let first = patterns.len();
    for event in p.events_of(course) {
        if p.suits(*event, room) {
            let mask = 1 << p.place_of(*event);
            add_meeting(patterns, first, Pattern { course, room, mask })?;
        }
    }
    Ok(())
}

/// Adds the pattern of a meeting alone, and then the patterns that join it to those from `first` on.
fn add_meeting(patterns: &mut Items<Pattern>, first: usize, alone: Pattern) -> Result<(), Memory>
    requires known { first ≤ length patterns.old }
    requires small { alone.mask ≤ 2048 }
    requires earlier { (i : ℕ) → first ≤ i → i < length patterns.old → (pattern_at patterns.old i).mask < alone.mask }
    ensures { OnOk result (patterns.new ≡ patterns.old ++ alone ∷ map (λ x. pattern alone.course alone.room (alone.mask + x.mask)) (drop first patterns.old)) }
{
    let end = patterns.len();
    patterns.push(alone)?;
    for earlier in first..end {
        let mask = alone.mask + patterns.as_slice()[earlier].mask;
        patterns.push(Pattern { mask, ..alone })?;
    }
    Ok(())
}

/// The number of patterns of the problem.
pub fn count(p: &Problem) -> u64
    ensures count { result ≡ length (patterns_of p.now) }
    ensures few { length (patterns_of p.now) ≤ 819200000 }
{
    let mut count = 0;
    for course in 0..p.course_count() {
        count += count_in_course(p, course);
    }
    count
}

fn count_in_course(p: &Problem, course: u32) -> u64
    requires { course < length p.now.students }
    ensures count { result ≡ length (in_rooms p.now course (length p.now.capacity)) }
    ensures few { result ≤ 819200 }
{
    let mut count = 0;
    for room in 0..p.room_count() {
        count += u64::from(count_in_room(p, course, room));
    }
    count
}

fn count_in_room(p: &Problem, course: u32, room: u32) -> u32
    requires known { course < length p.now.students }
    requires known_room { room < length p.now.capacity }
    ensures count { result ≡ length (masks_at p.now course room) }
    ensures few { result ≤ 4096 }
{
    let mut count = 0;
    for event in p.events_of(course) {
        count = if p.suits(*event, room) {
            2 * count + 1
        } else {
            count
        };
    }
    count
}

/// Bit j of the number.
pub(crate) fn has_bit(number: u32, j: u32) -> bool
    requires { j < 12 }
    ensures { result ≡ has_bit number j }
{
    (number >> j) & 1 == 1
}
