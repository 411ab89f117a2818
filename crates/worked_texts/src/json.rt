//! Reports as one line of JSON, worked by hand.
ghost use Rattle.ctt_reader.specs.Promised.{IsInstance};
ghost use Rattle.timed_solution.specs.Times.{AreTimes};
ghost use Rattle.measure_file.specs.Promised.{AreMeasures};
ghost use Rattle.reports.specs.Rooms.{IsProblemOf};

use ctt_reader::{Instance, read_ctt};
use measure_file::{Measures, read_measures};
use problem_core::{Choice, Problem};
use reports::json_report;
use room_model::{given_choice, to_problem};
use std::alloc::Global;
use std::process::Abort;
use std::test::Fail;
use timed_solution::{Times, read_times};

/// One course of 10 students with one lecture, one room of 20 seats, one slot.
const ONE: &[u8] =
    b"Name: x\nCourses: 1\nRooms: 1\nDays: 1\nPeriods_per_day: 1\nCurricula: 0\nConstraints: 0\n\nCOURSES:\nC1 T1 1 1 10\n\nROOMS:\nR1 20\n\nCURRICULA:\n\nUNAVAILABILITY_CONSTRAINTS:\n\nEND.\n";

/// Two courses of 10 students with one lecture each, one room of 20 seats, a day of three periods.
const TWO: &[u8] =
    b"Name: x\nCourses: 2\nRooms: 1\nDays: 1\nPeriods_per_day: 3\nCurricula: 0\nConstraints: 0\n\nCOURSES:\nC1 T1 1 1 10\nC2 T1 1 1 10\n\nROOMS:\nR1 20\n\nCURRICULA:\n\nUNAVAILABILITY_CONSTRAINTS:\n\nEND.\n";

/// Courses of 10 and 20 students with two lectures each, rooms of 20 and 40 seats, a day of four periods.
const SHARED_DAY: &[u8] =
    b"Name: x\nCourses: 2\nRooms: 2\nDays: 1\nPeriods_per_day: 4\nCurricula: 0\nConstraints: 0\n\nCOURSES:\nAlgebra T1 2 1 10\nLogic T1 2 1 20\n\nROOMS:\nA1 20\nB2 40\n\nCURRICULA:\n\nUNAVAILABILITY_CONSTRAINTS:\n\nEND.\n";

/// Neither a course nor a room.
const NONE: &[u8] =
    b"Name: x\nCourses: 0\nRooms: 0\nDays: 1\nPeriods_per_day: 1\nCurricula: 0\nConstraints: 0\n\nCOURSES:\n\nROOMS:\n\nCURRICULA:\n\nUNAVAILABILITY_CONSTRAINTS:\n\nEND.\n";

/// Three courses of 10, 20 and 5 students and three rooms, named with quotation marks, a backslash and a slash; two
/// days of three periods.
const NAMES: &[u8] =
    b"Name: x\nCourses: 3\nRooms: 3\nDays: 2\nPeriods_per_day: 3\nCurricula: 0\nConstraints: 0\n\nCOURSES:\nA\"b T1 3 1 10\nC\\d T1 2 1 20\nE/f T1 1 1 5\n\nROOMS:\nR1 20\nS\"2 40\nT3 0\n\nCURRICULA:\n\nUNAVAILABILITY_CONSTRAINTS:\n\nEND.\n";

/// Meetings of the second course take two periods.
const WISHES: &[u8] =
    b"measures 2\nprefer A\"b R1 -3\nprefer C\\d S\"2 1\nrobust 0 1\nrobust 501 4\nlength C\\d 2\n";

/// Meetings out of the order of their slots, one of several periods in a room and one without.
const MIXED: &[u8] =
    b"A\"b R1 1 2\nC\\d S\"2 1 0\nA\"b R1 0 1\nC\\d - 0 1\nA\"b S\"2 0 0\nE/f R1 0 0\n";

/// In a room of 20, 10 students leave 500 of a thousand seats and 5 leave 750; in one of 40, 10 leave 750 and 20 leave
/// 500. So three of the five meetings with rooms have 1 point of spare robustness, and two have 4.
const MIXED_LINE: &[u8] =
    b"{\"courses\":[{\"name\":\"A\\\"b\",\"rooms\":[[\"R1\",2],[\"S\\\"2\",1]]},{\"name\":\"C\\\\d\",\"rooms\":[[\"S\\\"2\",1]]},{\"name\":\"E/f\",\"rooms\":[[\"R1\",1]]}],\"rooms\":[{\"capacity\":20,\"meetings\":[[\"E/f\",0,0],[\"A\\\"b\",0,1],[\"A\\\"b\",1,2]],\"name\":\"R1\"},{\"capacity\":40,\"meetings\":[[\"A\\\"b\",0,0],[\"C\\\\d\",1,0,2]],\"name\":\"S\\\"2\"},{\"capacity\":0,\"meetings\":[],\"name\":\"T3\"}],\"unroomed\":[[\"C\\\\d\",0,1,2]],\"values\":[6,75,2500,-5,4,11]}\n";

/// That the rooms of the choice are legal, and their report is this line.
fn judge_line(
    rt: &impl Abort,
    alloc: Global,
    i: &Instance,
    t: &Times,
    p: &Problem,
    choice: &Choice,
    line: &[u8],
) -> Result<(), Fail>
    requires instance { IsInstance i.now }
    requires times { AreTimes i.now t.now.meetings }
    requires problem { IsProblemOf i.now t.now p.now }
{
    assert!(rt; p.is_legal(choice));
    let text = json_report(alloc, i, t, p, choice)?;
    assert!(rt; text.as_slice() == line);
    Ok(())
}

fn judge_problem(
    rt: &impl Abort,
    alloc: Global,
    i: &Instance,
    t: &Times,
    m: &Measures,
    line: &[u8],
) -> Result<(), Fail>
    requires instance { IsInstance i.now }
    requires times { AreTimes i.now t.now.meetings }
    requires measures { AreMeasures i.now m.now }
{
    let choice = given_choice(alloc, t)?;
    let p = to_problem(alloc, i, t, m)?;
    judge_line(rt, alloc, i, t, &p, &choice, line)
}

fn judge_times(
    rt: &impl Abort,
    alloc: Global,
    i: &Instance,
    t: &Times,
    measures: &[u8],
    line: &[u8],
) -> Result<(), Fail>
    requires instance { IsInstance i.now }
    requires times { AreTimes i.now t.now.meetings }
{
    let m = read_measures(alloc, i, measures)?;
    judge_problem(rt, alloc, i, t, &m, line)
}

fn judge_instance(
    rt: &impl Abort,
    alloc: Global,
    i: &Instance,
    times: &[u8],
    measures: &[u8],
    line: &[u8],
) -> Result<(), Fail>
    requires { IsInstance i.now }
{
    let t = read_times(alloc, i, times)?;
    judge_times(rt, alloc, i, &t, measures, line)
}

/// That the report on the rooms in the times is this line.
fn judge(
    rt: &impl Abort,
    alloc: Global,
    instance: &[u8],
    times: &[u8],
    measures: &[u8],
    line: &[u8],
) -> Result<(), Fail> {
    let i = read_ctt(alloc, instance)?;
    judge_instance(rt, alloc, &i, times, measures, line)
}

/// One meeting in a room; nothing at all.
#[test]
fn reports_one_meeting_and_none(rt: HostRuntime) -> Result<(), Fail> {
    let alloc = rt.alloc();
    judge(
        &rt,
        alloc,
        ONE,
        b"C1 R1 0 0\n",
        b"",
        b"{\"courses\":[{\"name\":\"C1\",\"rooms\":[[\"R1\",1]]}],\"rooms\":[{\"capacity\":20,\"meetings\":[[\"C1\",0,0]],\"name\":\"R1\"}],\"unroomed\":[],\"values\":[1,10,500,0,1,0]}\n",
    )?;
    judge(
        &rt,
        alloc,
        NONE,
        b"",
        b"",
        b"{\"courses\":[],\"rooms\":[],\"unroomed\":[],\"values\":[0,0,0,0,0,0]}\n",
    )
}

/// A meeting of two periods beside one of one period without a room; then meetings of two periods with and without a
/// room.
#[test]
fn reports_meetings_of_several_periods(rt: HostRuntime) -> Result<(), Fail> {
    let alloc = rt.alloc();
    judge(
        &rt,
        alloc,
        TWO,
        b"C1 R1 0 0\nC2 - 0 1\n",
        b"measures 2\nlength C1 2\n",
        b"{\"courses\":[{\"name\":\"C1\",\"rooms\":[[\"R1\",1]]},{\"name\":\"C2\",\"rooms\":[]}],\"rooms\":[{\"capacity\":20,\"meetings\":[[\"C1\",0,0,2]],\"name\":\"R1\"}],\"unroomed\":[[\"C2\",0,1]],\"values\":[2,20,1000,0,1,0]}\n",
    )?;
    judge(
        &rt,
        alloc,
        SHARED_DAY,
        b"Algebra A1 0 3\nLogic B2 0 0\nAlgebra A1 0 1\nLogic - 0 2\n",
        b"measures 2\nlength Logic 2\n",
        b"{\"courses\":[{\"name\":\"Algebra\",\"rooms\":[[\"A1\",2]]},{\"name\":\"Logic\",\"rooms\":[[\"B2\",1]]}],\"rooms\":[{\"capacity\":20,\"meetings\":[[\"Algebra\",0,1],[\"Algebra\",0,3]],\"name\":\"A1\"},{\"capacity\":40,\"meetings\":[[\"Logic\",0,0,2]],\"name\":\"B2\"}],\"unroomed\":[[\"Logic\",0,2,2]],\"values\":[4,60,2000,0,2,0]}\n",
    )
}

/// Meetings by slot and not by line, counts by room, a room without meetings, a value below 0, and names that JSON
/// escapes.
#[test]
fn reports_names_orders_and_counts(rt: HostRuntime) -> Result<(), Fail> {
    judge(&rt, rt.alloc(), NAMES, MIXED, WISHES, MIXED_LINE)
}
