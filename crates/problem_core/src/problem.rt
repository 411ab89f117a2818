ghost use Rattle.std.specs.Prelude.{◌≡◌, ◌==◌, ◌<◌, ◌≤◌, ◌+◌, ℕ, List, pos, length, IsTrue, slice_index};
ghost use Rattle.std.specs.List.{list_any, AllByRecursion};
ghost use Rattle.problem_core.specs.Courses.{events_of, place_of};
ghost use Rattle.problem_core.specs.OfParts.{facts_of, well_formed};
ghost use Rattle.problem_core.specs.Limits.{Builds};
ghost use Rattle.problem_core.specs.Valid.{IsProblem};
ghost use Rattle.problem_core.specs.Kept.{IsWithin};
ghost use Rattle.problem_core.specs.Choice.{IsLegal};
ghost use Rattle.problem_core.specs.Measures.{points_of, measure};
ghost use Rattle.problem_core.specs.Facts.{suits, share_slot, admits, is_closed, course_of, event_at, hours_of, run_of};

use crate::courses::{CourseTable, ROW};
use crate::grid::cell;
use crate::limit::BuildFault;
use crate::parts::{EventPart, Parts};
use crate::tables::problem_tables;
use std::alloc::Global;
use std::marker::Model;

/// Meetings that want rooms. Contracts see a problem as the lists that it was made of.
#[derive(Drop)]
pub struct Problem {
    parts: Parts,
    courses: CourseTable,
    admitted: Vec<bool>,
    closed: Vec<bool>,
    points: Vec<i32>,
}

impl Model for Problem {
    ghost use Rattle.problem_core.specs.Facts.{Facts};
    ghost use Rattle.problem_core.specs.OfParts.{facts_of};
    ghost use Rattle.problem_core.specs.Kept.{AreKept};
    ghost use Rattle.problem_core.specs.Tables.{AreTables};

    ghost Value = { Facts };

    ghost view = { λ p. facts_of p.parts };

    ghost invariant = { λ p. AreKept p.parts × AreTables (facts_of p.parts) p.courses.sizes.items p.courses.order.items p.courses.places.items p.admitted.items p.closed.items p.points.items };
}

impl Problem {
    /// The problem of the parts. `Limit` comes exactly where there are more than 4,000 events
    /// (`Meetings`), else where a course has more than 12 (`CourseMeetings`, with the count of the
    /// lowest such course). After a refusal the parts are gone.
    pub fn build(alloc: Global, parts: Parts) -> Result<Problem, BuildFault>
        requires { IsTrue (well_formed parts) }
        ensures { Builds (facts_of parts) result }
    {
        let tables = problem_tables(alloc, &parts)?;
        Ok(Problem {
            parts,
            courses: tables.courses,
            admitted: tables.admitted,
            closed: tables.closed,
            points: tables.points,
        })
    }

    /// What holds of every problem: its limits, that courses of events are known, and that events of one
    /// course have no slot in common. It computes nothing.
    pub fn laws(&self)
        ensures { IsProblem self.now }
    {
        let _ = &self.parts;
    }

    /// The measures of a legal choice are at most 192,000,000,000 in size. It computes nothing.
    pub fn measure_laws(&self)
        ensures { (k : ℕ) (a : List ℕ) → IsLegal self.now a → IsWithin (pos 192000000000) (measure self.now k a) }
    {
        let _ = &self.parts;
    }

    /// The number of events.
    pub fn event_count(&self) -> u32
        ensures count { result ≡ length self.now.events }
        ensures few { length self.now.events ≤ 4000 }
    {
        self.parts.events.len() as u32
    }

    /// The number of courses.
    pub fn course_count(&self) -> u32
        ensures count { result ≡ length self.now.students }
        ensures few { length self.now.students ≤ 1000 }
    {
        self.parts.students.len() as u32
    }

    /// The number of rooms.
    pub fn room_count(&self) -> u32
        ensures count { result ≡ length self.now.capacity }
        ensures few { length self.now.capacity ≤ 200 }
    {
        self.parts.capacity.len() as u32
    }

    /// The number of slots.
    pub fn slot_count(&self) -> u32
        ensures count { result ≡ self.now.slots }
        ensures few { self.now.slots ≤ 672 }
    {
        self.parts.slots
    }

    /// The event's course.
    pub fn course_of(&self, event: u32) -> u32
        requires { event < length self.now.events }
        ensures course { result ≡ course_of self.now event }
        ensures known { result < length self.now.students }
    {
        self.event(event).course
    }

    /// The event's first slot and how many slots it takes from there on.
    pub fn takes(&self, event: u32) -> (u32, u32)
        requires { event < length self.now.events }
        ensures slots { (event_at self.now event).takes ≡ run_of result.0 result.1 }
        ensures hours { result.1 ≡ hours_of self.now event }
        ensures some { 1 ≤ result.1 }
        ensures short { result.1 ≤ 48 }
        ensures within { result.0 + result.1 ≤ self.now.slots }
    {
        let e = self.event(event);
        (e.slot, e.length)
    }

    /// The course's students.
    pub fn students(&self, course: u32) -> u32
        requires { course < length self.now.students }
        ensures students { result ≡ slice_index self.now.students course }
        ensures small { result ≤ 1000000 }
    {
        self.parts.students.as_slice()[course as usize]
    }

    /// The room's capacity.
    pub fn capacity(&self, room: u32) -> u32
        requires { room < length self.now.capacity }
        ensures capacity { result ≡ slice_index self.now.capacity room }
        ensures small { result ≤ 1000000 }
    {
        self.parts.capacity.as_slice()[room as usize]
    }

    /// The event as it was handed in.
    fn event(&self, event: u32) -> EventPart
        requires { event < length self.now.events }
        ensures course { result.course ≡ course_of self.now event }
        ensures slots { (event_at self.now event).takes ≡ run_of result.slot result.length }
        ensures hours { result.length ≡ hours_of self.now event }
        ensures known { result.course < length self.now.students }
        ensures some { 1 ≤ result.length }
        ensures short { result.length ≤ 48 }
        ensures within { result.slot + result.length ≤ self.now.slots }
        ensures small { result.slot + result.length ≤ 672 }
    {
        self.parts.events.as_slice()[event as usize]
    }

    /// Whether the room suits the event: it seats the event's course, has every feature that the
    /// course needs, isn't denied to it, and is closed in none of the event's slots.
    pub fn suits(&self, event: u32, room: u32) -> bool
        requires known_event { event < length self.now.events }
        requires known_room { room < length self.now.capacity }
        ensures { result ≡ suits self.now event room }
    {
        let e = self.event(event);
        self.admits(e.course, room) && !self.is_closed(room, e.slot, e.length)
    }

    /// Whether the room seats the course, has every feature that it needs, and isn't denied to it.
    fn admits(&self, course: u32, room: u32) -> bool
        requires known { course < length self.now.students }
        requires known_room { room < length self.now.capacity }
        ensures { result ≡ admits self.now course room }
    {
        let rooms = self.parts.capacity.len();
        cell(&self.admitted, rooms, course as usize, room as usize)
    }

    /// Whether the two events take a slot in common.
    pub fn share_slot(&self, first: u32, second: u32) -> bool
        requires known_first { first < length self.now.events }
        requires known_second { second < length self.now.events }
        ensures { result ≡ share_slot self.now first second }
    {
        let e = self.event(first);
        let f = self.event(second);
        runs_meet(e.slot, e.length, f.slot, f.length)
    }

    /// Whether the room is closed in one of the slots.
    fn is_closed(&self, room: u32, slot: u32, count: u32) -> bool
        requires known_room { room < length self.now.capacity }
        requires within { slot + count ≤ self.now.slots }
        requires small { slot + count ≤ 672 }
        ensures { result ≡ list_any (is_closed self.now room) (run_of slot count) }
    {
        for s in slot..slot + count {
            if self.is_closed_at(room, s) {
                return true;
            }
        }
        false
    }

    /// Whether the room is closed in the slot.
    fn is_closed_at(&self, room: u32, slot: u32) -> bool
        requires known { slot < self.now.slots }
        requires known_room { room < length self.now.capacity }
        ensures { result ≡ is_closed self.now room slot }
    {
        let slots = self.parts.slots as usize;
        cell(&self.closed, slots, room as usize, slot as usize)
    }

    /// The course's events, in order.
    pub fn events_of(&self, course: u32) -> &[u32]
        requires { course < length self.now.students }
        ensures events { result.now ≡ events_of self.now course }
        ensures few { length result.now ≤ 12 }
    {
        let first = course as usize * ROW;
        let count = self.courses.sizes[course as usize] as usize;
        &self.courses.order[first..first + count]
    }

    /// The event's place among its course's events: how many of them come before it.
    pub fn place_of(&self, event: u32) -> u32
        requires { event < length self.now.events }
        ensures place { result ≡ place_of self.now event }
        ensures few { result < 12 }
    {
        self.courses.places[event as usize]
    }

    /// The rows of thresholds and points.
    pub(crate) fn robust(&self) -> &[(u32, i32)]
        ensures rows { result.now ≡ self.now.robust }
        ensures small { AllByRecursion (λ row. IsWithin (pos 1000000) row.1) result.now }
    {
        self.parts.robust.as_slice()
    }

    /// The points that are listed for the course and the room, else 0.
    pub(crate) fn points(&self, course: u32, room: u32) -> i32
        requires known { course < length self.now.students }
        requires known_room { room < length self.now.capacity }
        ensures points { result ≡ points_of course room self.now.prefer }
        ensures small { IsWithin (pos 1000000) result }
    {
        let rooms = self.parts.capacity.len();
        cell(&self.points, rooms, course as usize, room as usize)
    }
}

/// Whether two runs of slots, n from a on and m from b on, have one in common.
fn runs_meet(a: u32, n: u32, b: u32, m: u32) -> bool
    requires some { 1 ≤ n }
    requires other_some { 1 ≤ m }
    requires small { a + n ≤ 672 }
    requires other_small { b + m ≤ 672 }
    ensures { result ≡ list_any (λ s. list_any (λ t. t == s) (run_of b m)) (run_of a n) }
{
    a < b + m && b < a + n
}
