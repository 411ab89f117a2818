ghost use Rattle.ctt_reader.specs.Promised.{IsInstance};
ghost use Rattle.timed_solution.specs.Times.{AreTimes};

use ctt_reader::{Instance, read_ctt};
use problem_core::Choice;
use std::alloc::Global;
use std::process::Abort;
use std::test::Fail;
use timed_solution::{Meeting, Times, read_times, write_solution};
use values::Items;

/// One course with two lectures, one room, one day of two periods.
const BOTH: &[u8] =
    b"Name: x\nCourses: 1\nRooms: 1\nDays: 1\nPeriods_per_day: 2\nCurricula: 0\nConstraints: 0\n\nCOURSES:\nC1 T1 2 1 10\n\nROOMS:\nR1 20\n\nCURRICULA:\n\nUNAVAILABILITY_CONSTRAINTS:\n\nEND.\n";

/// The meeting in the period with the room, where 0 is no room.
fn meeting(room: u32, period: u32) -> Meeting {
    Meeting {
        course: 0,
        room,
        day: 0,
        period,
    }
}

/// That the text has these meetings.
fn judge_times(
    rt: &impl Abort,
    alloc: Global,
    i: &Instance,
    text: &[u8],
    meetings: &[Meeting],
) -> Result<(), Fail>
    requires { IsInstance i.now }
{
    let t = read_times(alloc, i, text)?;
    assert!(rt; t.meetings.as_slice() == meetings);
    Ok(())
}

/// Lines of four and three fields, a room `-`, and no line.
fn judge_fields(rt: &impl Abort, alloc: Global, i: &Instance) -> Result<(), Fail>
    requires { IsInstance i.now }
{
    let (first, second) = (meeting(1, 1), meeting(0, 0));
    let text = b"\tC1\tR1\t0 01 \r\n\nC1 0 0\r\n\n";
    judge_times(rt, alloc, i, text, &[first, second])?;
    judge_times(rt, alloc, i, b"C1 - 0 0", &[second])?;
    judge_times(rt, alloc, i, b"", &[])
}

#[test]
fn reads_three_and_four_fields(rt: HostRuntime) -> Result<(), Fail> {
    let i = read_ctt(rt.alloc(), BOTH)?;
    judge_fields(&rt, rt.alloc(), &i)
}

/// That the choice of the first room and of none is written so.
fn judge_written(rt: &impl Abort, alloc: Global, i: &Instance, t: &Times) -> Result<(), Fail>
    requires instance { IsInstance i.now }
    requires times { AreTimes i.now t.now.meetings }
{
    assert!(rt; i.rooms.len() == 1);
    assert!(rt; t.meetings.len() == 2);
    let entries = Items::from_slice(alloc, &[1, 0])?;
    let text = write_solution(alloc, i, t, &Choice { entries })?;
    assert!(rt; text.as_slice() == b"C1 R1 0 1\nC1 - 0 0\n".as_slice());
    Ok(())
}

fn judge_choice(rt: &impl Abort, alloc: Global, i: &Instance) -> Result<(), Fail>
    requires { IsInstance i.now }
{
    let t = read_times(alloc, i, b"C1 0 1\nC1\tR1 0 0\r\n")?;
    judge_written(rt, alloc, i, &t)
}

#[test]
fn writes_the_rooms_of_a_choice(rt: HostRuntime) -> Result<(), Fail> {
    let i = read_ctt(rt.alloc(), BOTH)?;
    judge_choice(&rt, rt.alloc(), &i)
}
