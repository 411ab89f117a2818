ghost use Rattle.ctt_reader.specs.Promised.{IsInstance};
ghost use Rattle.timed_solution.specs.Times.{AreTimes};
ghost use Rattle.measure_file.specs.Promised.{AreMeasures};

use ctt_reader::{Instance, read_ctt};
use input_core::{LineFault, LineKind, TextFault};
use measure_file::{Measures, is_numbered_as_written, read_measures, write_measures};
use problem_core::Problem;
use room_model::{given_choice, to_problem};
use std::alloc::{AllocError, Global};
use std::process::Abort;
use std::test::Fail;
use timed_solution::{Times, read_times};

/// Two courses, two rooms, one day of two periods.
const SMALL: &[u8] =
    b"Name: x\nCourses: 2\nRooms: 2\nDays: 1\nPeriods_per_day: 2\nCurricula: 0\nConstraints: 0\n\nCOURSES:\nC1 T1 1 1 10\nC2 T1 1 1 10\n\nROOMS:\nR1 20\nR2 30\n\nCURRICULA:\n\nUNAVAILABILITY_CONSTRAINTS:\n\nEND.\n";

/// Two courses of three lectures, two rooms, two days of three periods.
const TWO_DAYS: &[u8] =
    b"Name: x\nCourses: 2\nRooms: 2\nDays: 2\nPeriods_per_day: 3\nCurricula: 0\nConstraints: 0\n\nCOURSES:\nC1 T1 3 1 10\nC2 T1 3 1 5\n\nROOMS:\nR1 20\nR2 30\n\nCURRICULA:\n\nUNAVAILABILITY_CONSTRAINTS:\n\nEND.\n";

/// Lines of all kinds, with tabs, CR, leading zeros, repeated lines and no last line feed.
const ALL_KINDS: &[u8] =
    b"\t\nmeasures 2\r\nneed\tC2 lab\r\nrobust 0 7\nrobust 1000 -0\nhas R2 piano\nhas R2 piano\nhas R1 lab\ndeny C1 R2\nclosed R1 0 01\nlength C2 048\nprefer C1 R1 -1000000\nprefer C1 R2 1000000";

/// What is looked at in measures.
#[derive(Clone, Copy)]
enum Look {
    AllKinds,
    Nothing,
    /// That there are a hundred features and a hundred thresholds.
    Hundred,
    /// That the first course needs the eighth feature.
    NeedsEighth,
    /// That they are written so.
    Written(&'static [u8]),
}

/// Reads measures of the small instance, and looks at them.
fn judge(rt: &impl Abort, alloc: Global, text: &[u8], look: Look) -> Result<(), Fail> {
    let i = read_ctt(alloc, SMALL)?;
    judge_in(rt, alloc, &i, text, look)
}

/// It alone owns measures.
fn judge_in(
    rt: &impl Abort,
    alloc: Global,
    i: &Instance,
    text: &[u8],
    look: Look,
) -> Result<(), Fail>
    requires { IsInstance i.now }
{
    let m = read_measures(alloc, i, text)?;
    look_at(rt, alloc, i, &m, look)
}

fn look_at(
    rt: &impl Abort,
    alloc: Global,
    i: &Instance,
    m: &Measures,
    look: Look,
) -> Result<(), Fail>
    requires instance { IsInstance i.now }
    requires measures { AreMeasures i.now m.now }
{
    match look {
        Look::AllKinds => look_at_all_kinds(rt, m),
        Look::Nothing => {
            assert!(rt; m.features.len() == 0);
        }
        Look::Hundred => {
            assert!(rt; m.features.len() == 100);
            assert!(rt; m.robust.len() == 100);
        }
        Look::NeedsEighth => {
            assert!(rt; m.needs.as_slice() == [(0, 7)].as_slice());
        }
        Look::Written(text) => {
            assert!(rt; is_numbered_as_written(m));
            let written = write_measures(alloc, i, m)?;
            assert!(rt; written.as_slice() == text);
        }
    }
    Ok(())
}

fn look_at_all_kinds(rt: &impl Abort, m: &Measures) {
    assert!(rt; m.features.len() == 2);
    assert!(rt; m.features.as_slice()[0].as_str() == "lab");
    assert!(rt; m.features.as_slice()[1].as_str() == "piano");
    assert!(rt; m.has.as_slice() == [(1, 1), (1, 1), (0, 0)].as_slice());
    assert!(rt; m.needs.as_slice() == [(1, 0)].as_slice());
    assert!(rt; m.denied.as_slice() == [(0, 1)].as_slice());
    assert!(rt; m.closed.as_slice() == [(0, 0, 1)].as_slice());
    assert!(rt; m.prefer.as_slice() == [(0, 0, -1_000_000), (0, 1, 1_000_000)].as_slice());
    assert!(rt; m.robust.as_slice() == [(0, 7), (1_000, 0)].as_slice());
    assert!(rt; m.lengths.as_slice() == [(1, 48)].as_slice());
}

#[test]
fn reads_all_kinds_of_lines(rt: HostRuntime) -> Result<(), Fail> {
    judge(&rt, rt.alloc(), ALL_KINDS, Look::AllKinds)?;
    judge(&rt, rt.alloc(), b"", Look::Nothing)
}

#[test]
fn writes_lines_by_kind(rt: HostRuntime) -> Result<(), Fail> {
    let alloc = rt.alloc();
    let two = b"measures 1\nrobust 0 7\nclosed R1 0 0";
    let sorted = b"measures 1\nclosed R1 0 0\nrobust 0 7\n";
    judge(&rt, alloc, two, Look::Written(sorted))?;
    judge(&rt, alloc, b"measures 1", Look::Written(b""))?;
    let five = b"measures 2\nlength C2 3\nprefer C1 R2 -5\ndeny C2 R1\nhas R1 lab\nneed C1 lab";
    let sorted = b"measures 2\nhas R1 lab\nneed C1 lab\ndeny C2 R1\nprefer C1 R2 -5\nlength C2 3\n";
    judge(&rt, alloc, five, Look::Written(sorted))
}

/// A hundred features and a hundred thresholds.
fn hundred(alloc: Global) -> Result<Vec<u8>, AllocError> {
    let mut text = Vec::from_slice(alloc, b"measures 1\n")?;
    for tens in b'0'..=b'9' {
        for ones in b'0'..=b'9' {
            text.extend_from_slice(b"has R1 f")?;
            text.extend_from_slice(&[tens, ones])?;
            text.extend_from_slice(b"\nrobust ")?;
            text.extend_from_slice(&[tens, ones])?;
            text.extend_from_slice(b" 1\n")?;
        }
    }
    Ok(text)
}

/// The fault of measures of the small instance, if there is one.
fn fault_of(alloc: Global, text: &[u8]) -> Result<Option<TextFault>, TextFault> {
    let i = read_ctt(alloc, SMALL)?;
    Ok(fault_in(alloc, &i, text))
}

fn fault_in(alloc: Global, i: &Instance, text: &[u8]) -> Option<TextFault>
    requires { IsInstance i.now }
{
    read_measures(alloc, i, text).err()
}

#[test]
fn takes_a_hundred_features_and_thresholds(rt: HostRuntime) -> Result<(), Fail> {
    let alloc = rt.alloc();
    let mut text = hundred(alloc)?;
    judge(&rt, alloc, text.as_slice(), Look::Hundred)?;
    text.extend_from_slice(b"need C1 f07\n")?;
    judge(&rt, alloc, text.as_slice(), Look::NeedsEighth)?;
    let full = TextFault::Line(LineFault {
        line: 203,
        kind: LineKind::TooMany { limit: 100 },
    });
    let mut features = Vec::from_slice(alloc, text.as_slice())?;
    features.extend_from_slice(b"need C1 f100\n")?;
    assert!(rt; fault_of(alloc, features.as_slice())? == Some(full));
    text.extend_from_slice(b"robust 99 1\n")?;
    assert!(rt; fault_of(alloc, text.as_slice())? == Some(full));
    Ok(())
}

/// What the problem has of the files of three meetings.
fn look_at_problem(rt: &impl Abort, p: &Problem) -> Result<(), Fail> {
    assert!(rt; p.event_count() == 3);
    assert!(rt; p.room_count() == 2);
    assert!(rt; p.takes(0) == (4, 2));
    assert!(rt; p.takes(2) == (2, 1));
    assert!(rt; !p.suits(0, 0) && p.suits(0, 1));
    assert!(rt; p.suits(1, 0) && !p.suits(1, 1));
    assert!(rt; !p.suits(2, 0) && !p.suits(2, 1));
    Ok(())
}

fn judge_problem(
    rt: &impl Abort,
    alloc: Global,
    i: &Instance,
    t: &Times,
    m: &Measures,
) -> Result<(), Fail>
    requires instance { IsInstance i.now }
    requires times { AreTimes i.now t.now.meetings }
    requires measures { AreMeasures i.now m.now }
{
    let choice = given_choice(alloc, t)?;
    assert!(rt; choice.entries.as_slice() == [2, 0, 1].as_slice());
    let p = to_problem(alloc, i, t, m)?;
    look_at_problem(rt, &p)
}

fn judge_files(rt: &impl Abort, alloc: Global, i: &Instance, t: &Times) -> Result<(), Fail>
    requires instance { IsInstance i.now }
    requires times { AreTimes i.now t.now.meetings }
{
    let text =
        b"measures 2\nhas R1 a\nhas R1 b\nhas R2 b\nneed C2 a\nneed C2 b\ndeny C1 R1\nclosed R1 0 2\nlength C1 2\n";
    let m = read_measures(alloc, i, text)?;
    judge_problem(rt, alloc, i, t, &m)
}

fn judge_times(rt: &impl Abort, alloc: Global, i: &Instance) -> Result<(), Fail>
    requires { IsInstance i.now }
{
    let t = read_times(alloc, i, b"C1 R2 1 1\nC2 0 0\nC2 R1 0 2")?;
    judge_files(rt, alloc, i, &t)
}

#[test]
fn takes_rooms_and_wishes_from_the_files(rt: HostRuntime) -> Result<(), Fail> {
    let i = read_ctt(rt.alloc(), TWO_DAYS)?;
    judge_times(&rt, rt.alloc(), &i)
}
