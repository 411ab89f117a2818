ghost use Rattle.std.specs.Prelude.{◌≡◌, ◌≤◌, ◌<◌, ◌+◌, ◌*◌, ℕ, IfOk, length, map, true, slice_index_or};
ghost use Rattle.std.specs.List.{list_all};
ghost use Rattle.ctt_reader.specs.Promised.{IsInstance};
ghost use Rattle.timed_solution.specs.Times.{is_meeting};
ghost use Rattle.measure_file.specs.Promised.{AreMeasures, is_length, is_triple};
ghost use Rattle.room_model.specs.ProblemOf.{length_from, event_part, closed_slot};

use ctt_reader::Instance;
use measure_file::Measures;
use problem_core::EventPart;
use std::alloc::{AllocError, Global};
use std::marker::Model;
use timed_solution::Meeting;
use values::Items;

/// The days and periods of an instance, and how many periods a meeting of each course takes.
#[derive(Drop)]
pub struct Calendar<'a> {
    instance: &'a Instance,
    measures: &'a Measures,
    lengths: Vec<u32>,
}

impl<'a> Model for Calendar<'a> {
    ghost use Rattle.room_model.specs.Calendar.{Planned, IsCalendar};

    ghost Value = { Planned };

    ghost view = { λ c. record { instance = c.instance.now; measures = c.measures.now } };

    ghost invariant = { λ c. IsCalendar c.instance.now c.measures.now c.lengths.items };
}

impl<'a> Calendar<'a> {
    /// The calendar of the instance with the lengths of the measures.
    pub fn new(
        alloc: Global,
        instance: &'a Instance,
        measures: &'a Measures,
    ) -> Result<Calendar<'a>, AllocError>
        requires instance { IsInstance instance.now }
        requires measures { AreMeasures instance.now measures.now }
        ensures { IfOk result (λ c. c ≡ record { instance = instance.entry.now; measures = measures.entry.now }) }
    {
        let lengths = lengths_by_course(
            alloc,
            instance.courses.len(),
            measures.lengths.as_slice(),
        )?;
        Ok(Calendar {
            instance,
            measures,
            lengths,
        })
    }

    /// The number of slots.
    pub fn slots(&self) -> u32
        ensures slots { result ≡ self.now.instance.days * self.now.instance.periods }
        ensures some { 1 ≤ result }
        ensures few { result ≤ 672 }
    {
        self.instance.days * self.instance.periods
    }

    /// The number of courses.
    pub fn courses(&self) -> usize
        ensures count { result ≡ length self.now.instance.courses }
        ensures few { result ≤ 1000 }
    {
        self.lengths.len()
    }

    /// The periods of a day.
    pub fn periods(&self) -> u32
        ensures periods { result ≡ self.now.instance.periods }
        ensures few { result ≤ 48 }
    {
        self.instance.periods
    }

    /// The event of a meeting.
    pub fn event(&self, meeting: Meeting) -> EventPart
        requires { is_meeting self.now.instance meeting ≡ true }
        ensures event { result ≡ event_part self.now.instance.periods self.now.measures meeting }
        ensures known { result.course < length self.now.instance.courses }
        ensures some { 1 ≤ result.length }
        ensures short { result.length ≤ 48 }
        ensures small { result.slot ≤ 671 }
    {
        EventPart {
            course: meeting.course,
            slot: meeting.day * self.instance.periods + meeting.period,
            length: self.lengths[meeting.course as usize],
        }
    }

    /// The meetings as events.
    pub fn events(
        &self,
        alloc: Global,
        meetings: &[Meeting],
    ) -> Result<Items<EventPart>, AllocError>
        requires { list_all (is_meeting self.now.instance) meetings.now ≡ true }
        ensures { IfOk result (λ events. events ≡ map (event_part self.now.instance.periods self.now.measures) meetings.now) }
    {
        let mut events = Items::new(alloc);
        for meeting in meetings {
            events.push(self.event(*meeting))?;
        }
        Ok(events)
    }

    /// The rooms and the slots in which they are closed.
    pub fn closed_slots(
        &self,
        alloc: Global,
        closed: &[(u32, u32, u32)],
    ) -> Result<Items<(u32, u32)>, AllocError>
        requires { list_all (is_triple (length self.now.instance.rooms) self.now.instance.days self.now.instance.periods) closed.now ≡ true }
        ensures { IfOk result (λ slots. slots ≡ map (closed_slot self.now.instance.periods) closed.now) }
    {
        let mut slots = Items::new(alloc);
        for (room, day, period) in closed {
            slots.push((*room, *day * self.instance.periods + *period))?;
        }
        Ok(slots)
    }
}

/// For each of the courses the periods that the rows list for it, else 1.
fn lengths_by_course(
    alloc: Global,
    courses: usize,
    rows: &[(u32, u32)],
) -> Result<Vec<u32>, AllocError>
    requires { list_all (is_length courses) rows.now ≡ true }
    ensures count { IfOk result (λ v. length v.items ≡ courses) }
    ensures each { IfOk result (λ v. (course : ℕ) (d : ℕ) → course < length v.items → slice_index_or v.items course d ≡ length_from course 1 rows.now) }
{
    let mut lengths = vec![in alloc; 1u32; courses]?;
    for (course, periods) in rows {
        lengths[*course as usize] = *periods;
    }
    Ok(lengths)
}
