ghost use Rattle.std.specs.Prelude.{◌≡◌, ◌≤◌, ◌<◌, ◌+◌, ◌*◌, ◌^◌, [], ◌++◌, ◌∷◌, length, IfOk, OnOk, OnErr, true};
ghost use Rattle.std.specs.List.{list_any};
ghost use Rattle.timed_solution.specs.Times.{same_time, held_of};
ghost use Rattle.timed_solution.specs.Placed.{has_place, place};

use crate::times::Meeting;
use input_core::Memory;
use std::alloc::Global;
use std::marker::Model;
use values::Items;

/// The places of a course's slots: 14 days of 48 periods.
const SLOTS: usize = 672;

/// Meetings, with a table of the slots that each course has taken and a count of each course's meetings.
#[derive(Drop)]
pub struct Placed {
    meetings: Items<Meeting>,
    taken: Vec<bool>,
    held: Vec<u32>,
}

impl Model for Placed {
    ghost use Rattle.std.specs.Prelude.{length};
    ghost use Rattle.timed_solution.specs.Placed.{Held, AreTables};

    ghost Value = { Held };

    ghost view = { λ p. record { courses = length p.held.items; meetings = p.meetings } };

    ghost invariant = { λ p. AreTables p.meetings p.taken.items p.held.items };
}

impl Placed {
    /// No meetings of so many courses.
    pub fn new(alloc: Global, courses: usize) -> Result<Placed, Memory>
        requires { courses ≤ 1000 }
        ensures { IfOk result (λ p. p ≡ record { courses = courses; meetings = [] }) }
    {
        Ok(Placed {
            meetings: Items::new(alloc),
            taken: vec![in alloc; false; courses * SLOTS]?,
            held: vec![in alloc; 0u32; courses]?,
        })
    }

    /// Whether the course of the meeting has one in its slot.
    pub fn is_taken(&self, meeting: &Meeting) -> bool
        requires { has_place self.now.courses meeting.now ≡ true }
        ensures { result ≡ list_any (same_time meeting.now) self.now.meetings }
    {
        self.taken[place(meeting)]
    }

    /// How many meetings the course has.
    pub fn held(&self, course: u32) -> u32
        requires { course < self.now.courses }
        ensures { result ≡ held_of course self.now.meetings }
    {
        self.held[course as usize]
    }

    /// Adds a meeting.
    pub fn push(&mut self, meeting: Meeting) -> Result<(), Memory>
        requires placed { has_place self.old.courses meeting ≡ true }
        requires few { held_of meeting.course self.old.meetings < 1000 }
        ensures ok { OnOk result (self.new ≡ record { courses = self.old.courses; meetings = self.old.meetings ++ meeting ∷ [] }) }
        ensures err { OnErr result (self.new ≡ self.old) }
    {
        self.meetings.push(meeting)?;
        self.taken[place(&meeting)] = true;
        self.held[meeting.course as usize] += 1;
        Ok(())
    }

    /// The meetings.
    pub fn into_meetings(self) -> Items<Meeting>
        ensures { result ≡ self.meetings }
    {
        let Placed {
            meetings,
            taken: _,
            held: _,
        } = self;
        meetings
    }
}

fn place(meeting: &Meeting) -> usize
    requires { has_place 1000 meeting.now ≡ true }
    ensures { result ≡ place meeting.now }
{
    meeting.course as usize * SLOTS + meeting.day as usize * 48 + meeting.period as usize
}
