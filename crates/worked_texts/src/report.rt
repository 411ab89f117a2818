//! Reports, worked by hand.
ghost use Rattle.ctt_reader.specs.Promised.{IsInstance};
ghost use Rattle.timed_solution.specs.Times.{AreTimes};
ghost use Rattle.measure_file.specs.Promised.{AreMeasures};
ghost use Rattle.reports.specs.Rooms.{IsProblemOf};

use ctt_reader::{Instance, read_ctt};
use measure_file::{Measures, read_measures};
use problem_core::Problem;
use reports::text_report;
use room_model::{given_choice, to_problem};
use std::alloc::Global;
use std::process::Abort;
use std::test::Fail;
use timed_solution::{Times, read_times};

/// One course, one room, one slot.
const ONE: &[u8] =
    b"Name: x\nCourses: 1\nRooms: 1\nDays: 1\nPeriods_per_day: 1\nCurricula: 0\nConstraints: 0\n\nCOURSES:\nC1 T1 1 1 10\n\nROOMS:\nR1 20\n\nCURRICULA:\n\nUNAVAILABILITY_CONSTRAINTS:\n\nEND.\n";

/// Two courses, one room, one day of three periods.
const TWO: &[u8] =
    b"Name: x\nCourses: 2\nRooms: 1\nDays: 1\nPeriods_per_day: 3\nCurricula: 0\nConstraints: 0\n\nCOURSES:\nC1 T1 1 1 10\nC2 T1 1 1 10\n\nROOMS:\nR1 20\n\nCURRICULA:\n\nUNAVAILABILITY_CONSTRAINTS:\n\nEND.\n";

/// Four courses, three rooms, two days of four periods.
const FOUR: &[u8] =
    b"Name: x\nCourses: 4\nRooms: 3\nDays: 2\nPeriods_per_day: 4\nCurricula: 0\nConstraints: 0\n\nCOURSES:\nC1 T1 3 1 10\nC2 T1 2 1 5\nC3 T1 1 1 20\nC4 T1 1 1 4\n\nROOMS:\nR1 20\nR2 30\nR3 8\n\nCURRICULA:\n\nUNAVAILABILITY_CONSTRAINTS:\n\nEND.\n";

/// The three files of a report, and the report.
#[derive(Clone, Copy)]
struct Case {
    instance: &'static [u8],
    times: &'static [u8],
    measures: &'static [u8],
    report: &'static [u8],
}

/// One meeting.
const ONE_MEETING: Case = Case {
    instance: ONE,
    times: b"C1 R1 0 0\n",
    measures: b"",
    report: b"room R1 20\n0 0 C1\ncourse C1 R1 1\nunroomed 0\nevent hours 1\nseated students 10\nseat utilisation 500\nroom preference 0\ncourse rooms 1\nspare robustness 0\n",
};

/// A meeting of two periods keeps another from the room.
const ONE_LONG: Case = Case {
    instance: TWO,
    times: b"C1 R1 0 0\nC2 0 1\n",
    measures: b"measures 2\nlength C1 2\n",
    report: b"room R1 20\n0 0 C1 hours 2\ncourse C1 R1 1\ncourse C2\nunroomed 1\nC2 0 1\nevent hours 2\nseated students 20\nseat utilisation 1000\nroom preference 0\ncourse rooms 1\nspare robustness 0\n",
};

/// Lines in another order than that of slots, a course in two rooms, one twice in one room and one without meetings,
/// a room that is not used, and a meeting of two periods without a room. Hours: 2 + 1 + 2 + 1 + 1. Students: 20 + 5 +
/// 20 + 5 + 20. Utilisation: 2 times 333, 166, 2 times 500, 166 and 1000. Preference: -10 + 3 + 3. The first course
/// uses two rooms, the second and the third one each. Robustness: 9 four times, and 7 where no seat is spare.
const MANY: Case = Case {
    instance: FOUR,
    times: b"C1 R2 1 1\nC2 R2 1 0\nC1 R1 0 0\nC1 - 0 2\nC2 R2 0 3\nC3 R1 0 2\n",
    measures: b"measures 2\nprefer C1 R2 -10\nprefer C2 R2 3\nrobust 0 7\nrobust 500 9\nlength C1 2\n",
    report: b"room R1 20\n0 0 C1 hours 2\n0 2 C3\nroom R2 30\n0 3 C2\n1 0 C2\n1 1 C1 hours 2\nroom R3 8\ncourse C1 R1 1 R2 1\ncourse C2 R2 2\ncourse C3 R1 1\ncourse C4\nunroomed 1\nC1 0 2 hours 2\nevent hours 7\nseated students 70\nseat utilisation 2998\nroom preference -4\ncourse rooms 4\nspare robustness 43\n",
};

/// That the given rooms are legal, and that the report is this.
fn judge_report(
    rt: &impl Abort,
    alloc: Global,
    i: &Instance,
    t: &Times,
    p: &Problem,
    report: &[u8],
) -> Result<(), Fail>
    requires instance { IsInstance i.now }
    requires times { AreTimes i.now t.now.meetings }
    requires problem { IsProblemOf i.now t.now p.now }
{
    let choice = given_choice(alloc, t)?;
    let legal = p.is_legal(&choice);
    assert!(rt; legal);
    let text = text_report(alloc, i, t, p, &choice)?;
    assert!(rt; text.as_slice() == report);
    Ok(())
}

fn judge_problem(
    rt: &impl Abort,
    alloc: Global,
    i: &Instance,
    t: &Times,
    m: &Measures,
    report: &[u8],
) -> Result<(), Fail>
    requires instance { IsInstance i.now }
    requires times { AreTimes i.now t.now.meetings }
    requires measures { AreMeasures i.now m.now }
{
    let p = to_problem(alloc, i, t, m)?;
    judge_report(rt, alloc, i, t, &p, report)
}

fn judge_measures(
    rt: &impl Abort,
    alloc: Global,
    i: &Instance,
    t: &Times,
    case: Case,
) -> Result<(), Fail>
    requires instance { IsInstance i.now }
    requires times { AreTimes i.now t.now.meetings }
{
    let m = read_measures(alloc, i, case.measures)?;
    judge_problem(rt, alloc, i, t, &m, case.report)
}

fn judge_times(rt: &impl Abort, alloc: Global, i: &Instance, case: Case) -> Result<(), Fail>
    requires { IsInstance i.now }
{
    let t = read_times(alloc, i, case.times)?;
    judge_measures(rt, alloc, i, &t, case)
}

fn judge(rt: &impl Abort, alloc: Global, case: Case) -> Result<(), Fail> {
    let i = read_ctt(alloc, case.instance)?;
    judge_times(rt, alloc, &i, case)
}

#[test]
fn says_who_is_where(rt: HostRuntime) -> Result<(), Fail> {
    let alloc = rt.alloc();
    judge(&rt, alloc, ONE_MEETING)?;
    judge(&rt, alloc, ONE_LONG)?;
    judge(&rt, alloc, MANY)
}
