ghost use Rattle.std.specs.Prelude.{◌≡◌, length, IfOk, true};
ghost use Rattle.problem_core.specs.Choice.{IsLegal};
ghost use Rattle.ctt_reader.specs.Promised.{IsInstance};
ghost use Rattle.timed_solution.specs.Times.{AreTimes};
ghost use Rattle.reports.specs.Rooms.{sessions, IsProblemOf, IsRoomUse};
ghost use Rattle.reports.specs.Groups.{AreFit};

use crate::by_course::by_course;
use crate::by_room::by_room;
use crate::groups::{Grouping, grouped};
use crate::session::{RoomUse, Session, sessions};
use ctt_reader::Instance;
use input_core::Memory;
use problem_core::{Choice, Problem};
use std::alloc::Global;
use timed_solution::Times;

/// Who has which room when: by room, by course, and who has none. The time is that of the events, the slots, the
/// rooms and the courses, each gone over a fixed number of times.
pub(crate) fn room_use(
    alloc: Global,
    instance: &Instance,
    times: &Times,
    problem: &Problem,
    choice: &Choice,
) -> Result<RoomUse, Memory>
    requires instance { IsInstance instance.now }
    requires times { AreTimes instance.now times.now.meetings }
    requires problem { IsProblemOf instance.now times.now problem.now }
    requires legal { IsLegal problem.now choice.now.entries }
    ensures { IfOk result (λ u. IsRoomUse instance.now (sessions times.now problem.now choice.now.entries) u) }
{
    problem.laws();
    let sessions = sessions(alloc, times, problem, choice)?;
    gathered(alloc, instance, sessions.as_slice())
}

/// The lists of the meetings.
fn gathered(alloc: Global, instance: &Instance, sessions: &[Session]) -> Result<RoomUse, Memory>
    requires instance { IsInstance instance.now }
    requires fit { AreFit instance.now sessions.now }
    ensures { IfOk result (λ u. IsRoomUse instance.now sessions.now u) }
{
    let count = instance.rooms.len() + 1;
    let mut groups = grouped(alloc, sessions, Grouping::ByEntry, count)?;
    let unroomed = groups.remove(0);
    let by_course = by_course(alloc, instance.courses.len(), &groups)?;
    let by_room = by_room(alloc, instance, sessions)?;
    Ok(RoomUse {
        by_room,
        by_course,
        unroomed,
    })
}
