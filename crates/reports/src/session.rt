ghost use Rattle.std.specs.Prelude.{◌≡◌, ◌<◌, length, IfOk};
ghost use Rattle.reports.specs.Rooms.{session_at, sessions};

use input_core::Memory;
use problem_core::{Choice, Problem};
use std::alloc::Global;
use timed_solution::Times;
use values::Items;

/// A meeting with its room, its first slot, and how many periods it takes.
#[derive(Clone, Copy)]
pub struct Session {
    pub course: u32,
    /// 0 for none, else the room's number + 1.
    pub room: u32,
    pub day: u32,
    pub period: u32,
    pub hours: u32,
}

/// Who has which room when. A report is printed from these lists.
#[derive(Drop)]
pub struct RoomUse {
    /// By room, the meetings in it by slot.
    pub by_room: Vec<Items<Session>>,
    /// By course, each room that it uses, by the room's number, and how many of its meetings are there.
    pub by_course: Vec<Items<(u32, u32)>>,
    /// The meetings without a room, in the order of events.
    pub unroomed: Items<Session>,
}

/// The meetings with their rooms and hours, in the order of events.
pub(crate) fn sessions(
    alloc: Global,
    times: &Times,
    problem: &Problem,
    choice: &Choice,
) -> Result<Items<Session>, Memory>
    requires events { length problem.now.events ≡ length times.now.meetings }
    requires entries { length choice.now.entries ≡ length times.now.meetings }
    ensures { IfOk result (λ xs. xs ≡ sessions times.now problem.now choice.now.entries) }
{
    let mut found = Items::new(alloc);
    for event in 0..problem.event_count() {
        found.push(session_at(times, problem, choice, event))?;
    }
    Ok(found)
}

/// The meeting of the event with its room and hours.
fn session_at(times: &Times, problem: &Problem, choice: &Choice, event: u32) -> Session
    requires events { length problem.now.events ≡ length times.now.meetings }
    requires entries { length choice.now.entries ≡ length times.now.meetings }
    requires known { event < length times.now.meetings }
    ensures { result ≡ session_at times.now problem.now choice.now.entries event }
{
    let meeting = times.meetings.as_slice()[event as usize];
    Session {
        course: meeting.course,
        room: choice.entries.as_slice()[event as usize],
        day: meeting.day,
        period: meeting.period,
        hours: problem.takes(event).1,
    }
}
