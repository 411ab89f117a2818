//! Solutions with their nine counts, worked by hand.
ghost use Rattle.ctt_reader.specs.Promised.{IsInstance};

use ctt_reader::{Instance, read_ctt};
use input_core::{MemShelf, MemSink};
use itc_score::{ScoreCounts, run_score, score};
use std::alloc::Global;
use std::process::Abort;
use std::test::Fail;
use timed_solution::read_times;

/// Three courses, C1 and C3 of one teacher, C1 and C2 in two curricula of which the first lists C1 twice; two rooms,
/// and two days of three periods. C1 has 3 lectures on 2 days and 30 students, C2 has 2 on 1 and 10, C3 has 1 on 1
/// and 40; R1 seats 20 and R2 35. C2 is unavailable in the first period, C3 in the last.
const FEW: &[u8] =
    b"Name: few\nCourses: 3\nRooms: 2\nDays: 2\nPeriods_per_day: 3\nCurricula: 2\nConstraints: 2\n\nCOURSES:\nC1 T1 3 2 30\nC2 T2 2 1 10\nC3 T1 1 1 40\n\nROOMS:\nR1 20\nR2 35\n\nCURRICULA:\nq1 3 C1 C2 C1\nq2 2 C2 C1\n\nUNAVAILABILITY_CONSTRAINTS:\nC2 0 0\nC3 1 2\n\nEND.\n";

/// Two courses of one teacher, with 25 and 10 students, a room of 20 and two days of two periods.
const TWO: &[u8] =
    b"Name: two\nCourses: 2\nRooms: 1\nDays: 2\nPeriods_per_day: 2\nCurricula: 0\nConstraints: 0\n\nCOURSES:\nC1 T1 2 1 25\nC2 T1 1 1 10\n\nROOMS:\nR1 20\n\nCURRICULA:\n\nUNAVAILABILITY_CONSTRAINTS:\n\nEND.\n";

/// One course with one lecture.
const ONE: &[u8] =
    b"Name: one\nCourses: 1\nRooms: 1\nDays: 1\nPeriods_per_day: 1\nCurricula: 0\nConstraints: 0\n\nCOURSES:\nC1 T1 1 1 10\n\nROOMS:\nR1 20\n\nCURRICULA:\n\nUNAVAILABILITY_CONSTRAINTS:\n\nEND.\n";

/// A week of twelve courses.
const WEEK: &[u8] =
    b"Name: Week one\nCourses: 12\nRooms: 5\nDays: 5\nPeriods_per_day: 4\nCurricula: 2\nConstraints: 2\n\nCOURSES:\nc01 t01 4 3 18\nc02 t02 3 3 15\nc03 t03 4 4 35\nc04 t04 3 3 38\nc05 t05 3 3 30\nc06 t06 4 4 55\nc07 t07 3 3 50\nc08 t08 3 3 90\nc09 t09 3 1 100\nc10 t10 4 4 150\nc11 t11 3 1 180\nc12 t12 3 3 36\n\nROOMS:\nS1 20\nS2 40\nM1 60\nM2 100\nH1 200\n\nCURRICULA:\nq1 3 c01 c04 c05\nq2 2 c10 c11\n\nUNAVAILABILITY_CONSTRAINTS:\nc01 4 3\nc08 0 0\n\nEND.\n";

/// The week's lectures in its best rooms.
const IN_BEST_ROOMS: &[u8] =
    b"c01 S1 0 0\nc01 S1 1 0\nc01 S1 2 0\nc01 S1 3 0\nc02 S2 0 3\nc02 S2 1 3\nc02 S2 2 3\nc03 S2 0 0\nc03 S2 1 0\nc03 S2 2 0\nc03 S2 3 0\nc04 S2 0 1\nc04 S2 1 1\nc04 S2 2 1\nc05 S2 0 2\nc05 S2 1 2\nc05 S2 2 2\nc06 M1 0 0\nc06 M1 1 0\nc06 M1 2 0\nc06 M1 3 0\nc07 M1 0 1\nc07 M1 1 1\nc07 M1 2 1\nc08 M2 0 3\nc08 M2 1 3\nc08 M2 2 3\nc09 M2 3 1\nc09 M2 3 2\nc09 M2 3 3\nc10 H1 1 0\nc10 H1 2 0\nc10 H1 3 0\nc10 H1 4 0\nc11 H1 4 1\nc11 H1 4 2\nc11 H1 4 3\nc12 M1 0 2\nc12 M1 1 2\nc12 M1 2 2\n";

/// Lectures missing, unroomed, room occupancy, conflicts, availability, room capacity, minimum working days,
/// curriculum compactness, room stability.
fn listed(s: ScoreCounts) -> [u64; 9] {
    [
        s.missing,
        s.unroomed,
        s.occupancy,
        s.conflicts,
        s.availability,
        s.capacity,
        s.days,
        s.compactness,
        s.stability,
    ]
}

/// That the solution of the instance has these counts.
fn judge(
    rt: &impl Abort,
    alloc: Global,
    i: &Instance,
    solution: &[u8],
    counts: [u64; 9],
) -> Result<(), Fail>
    requires { IsInstance i.now }
{
    let t = read_times(alloc, i, solution)?;
    let s = score(alloc, i, &t)?;
    assert!(rt; listed(s) == counts);
    Ok(())
}

/// The same of a solution of the instance of that text.
fn judge_text(
    rt: &impl Abort,
    alloc: Global,
    instance: &[u8],
    solution: &[u8],
    counts: [u64; 9],
) -> Result<(), Fail> {
    let i = read_ctt(alloc, instance)?;
    judge(rt, alloc, &i, solution, counts)
}

/// C1 is over by 5 twice, and stands in the room and slot of C2, which has its teacher.
#[test]
fn counts_a_pair_in_a_room(rt: HostRuntime) -> Result<(), Fail> {
    let solution = b"C1 R1 0 0\nC1 R1 0 1\nC2 R1 0 0\n";
    judge_text(&rt, rt.alloc(), TWO, solution, [0, 0, 1, 1, 0, 10, 0, 0, 0])
}

/// In the first curriculum the lecture on day 3 stands alone, and in the second those on days 1, 2 and 3.
#[test]
fn counts_the_week(rt: HostRuntime) -> Result<(), Fail> {
    judge_text(
        &rt,
        rt.alloc(),
        WEEK,
        IN_BEST_ROOMS,
        [0, 0, 0, 0, 0, 0, 0, 8, 0],
    )
}

/// A lecture is missing, and a day.
#[test]
fn counts_an_empty_solution(rt: HostRuntime) -> Result<(), Fail> {
    judge_text(&rt, rt.alloc(), ONE, b"", [1, 0, 0, 0, 0, 0, 5, 0, 0])
}

/// Nothing is held: six lectures are missing, and C1 is short of two days, C2 and C3 of one each.
#[test]
fn no_lecture_is_held(rt: HostRuntime) -> Result<(), Fail> {
    let solution = b"";
    judge_text(&rt, rt.alloc(), FEW, solution, [6, 0, 0, 0, 0, 0, 20, 0, 0])
}

/// Three lectures of C1 one after the other: none stands alone. C1 is short of one day, C2 and C3 of one each.
#[test]
fn three_in_a_row(rt: HostRuntime) -> Result<(), Fail> {
    let solution = b"C1 R2 0 0\nC1 R2 0 1\nC1 R2 0 2\n";
    judge_text(&rt, rt.alloc(), FEW, solution, [3, 0, 0, 0, 0, 0, 15, 0, 0])
}

/// Three pairs in the room. C1 is in conflict with C2, by two curricula, and with C3, by the teacher; C2 and C3 are
/// not. R1 is over by 10 and by 20. C1 and C2 stand alone in both curricula.
#[test]
fn three_in_one_room_and_slot(rt: HostRuntime) -> Result<(), Fail> {
    let solution = b"C1 R1 0 1\nC2 R1 0 1\nC3 R1 0 1\n";
    judge_text(&rt, rt.alloc(), FEW, solution, [3, 0, 3, 2, 0, 30, 5, 8, 0])
}

/// One conflict though both curricula have the pair, and q1 lists C1 twice; both lectures stand alone in both.
#[test]
fn one_pair_in_two_curricula(rt: HostRuntime) -> Result<(), Fail> {
    let solution = b"C1 R1 1 0\nC2 R2 1 0\n";
    judge_text(
        &rt,
        rt.alloc(),
        FEW,
        solution,
        [4, 0, 0, 1, 0, 10, 10, 8, 0],
    )
}

/// The last period of a day and the first of the next are not next to each other.
#[test]
fn over_the_end_of_a_day(rt: HostRuntime) -> Result<(), Fail> {
    let solution = b"C1 R2 0 2\nC1 R2 1 0\n";
    judge_text(&rt, rt.alloc(), FEW, solution, [4, 0, 0, 0, 0, 0, 10, 8, 0])
}

/// The room that isn't there is no second room of C1, and has no capacity.
#[test]
fn one_of_two_without_a_room(rt: HostRuntime) -> Result<(), Fail> {
    let solution = b"C1 - 0 0\nC1 R1 0 1\n";
    judge_text(
        &rt,
        rt.alloc(),
        FEW,
        solution,
        [4, 1, 0, 0, 0, 10, 15, 0, 0],
    )
}

/// Two without a room share none, are in conflict, and C2 isn't available.
#[test]
fn two_without_a_room(rt: HostRuntime) -> Result<(), Fail> {
    let solution = b"C1 0 0\nC2 0 0\n";
    judge_text(&rt, rt.alloc(), FEW, solution, [4, 2, 0, 1, 1, 0, 10, 8, 0])
}

/// R1 is over by 10 twice; the lecture of the second day stands alone; two rooms are one too many.
#[test]
fn two_rooms_of_a_course(rt: HostRuntime) -> Result<(), Fail> {
    let solution = b"C1 R1 0 0\nC1 R2 0 1\nC1 R1 1 1\n";
    judge_text(
        &rt,
        rt.alloc(),
        FEW,
        solution,
        [3, 0, 0, 0, 0, 20, 10, 4, 1],
    )
}

/// Only C3 is unavailable there; R2 is over by 5; C3 is in no curriculum, and C1 stands alone in both.
#[test]
fn a_constraint_of_one_course(rt: HostRuntime) -> Result<(), Fail> {
    let solution = b"C1 R2 1 2\nC3 R2 1 2\n";
    judge_text(&rt, rt.alloc(), FEW, solution, [4, 0, 1, 1, 1, 5, 10, 4, 0])
}

/// A free period between two lectures leaves both alone.
#[test]
fn a_gap_of_one_period(rt: HostRuntime) -> Result<(), Fail> {
    let solution = b"C1 R2 0 0\nC2 R2 0 2\n";
    judge_text(&rt, rt.alloc(), FEW, solution, [4, 0, 0, 0, 0, 0, 10, 8, 0])
}

/// Lectures of two members one after the other: none stands alone.
#[test]
fn members_next_to_each_other(rt: HostRuntime) -> Result<(), Fail> {
    let solution = b"C1 R2 0 0\nC2 R2 0 1\n";
    judge_text(&rt, rt.alloc(), FEW, solution, [4, 0, 0, 0, 0, 0, 10, 0, 0])
}

/// A day more than C2 wants makes up for none that C1 and C3 are short of.
#[test]
fn more_days_than_wanted(rt: HostRuntime) -> Result<(), Fail> {
    let solution = b"C2 R1 0 1\nC2 R1 1 1\n";
    judge_text(&rt, rt.alloc(), FEW, solution, [4, 0, 0, 0, 0, 0, 15, 8, 0])
}

/// All six lectures; only R2 is over, by 5.
#[test]
fn all_held(rt: HostRuntime) -> Result<(), Fail> {
    let solution = b"C1 R2 0 0\nC1 R2 0 1\nC1 R2 1 0\nC2 R1 0 2\nC2 R1 1 1\nC3 R2 1 1\n";
    judge_text(&rt, rt.alloc(), FEW, solution, [0, 0, 0, 0, 0, 5, 0, 0, 0])
}

/// That the words, over one file of the name `i` with these bytes, end with this status and text.
fn judge_run(
    rt: &impl Abort,
    alloc: Global,
    words: &[&str],
    bytes: &[u8],
    status: u8,
    text: &[u8],
) -> Result<(), Fail> {
    let mut given = Vec::new(alloc);
    for word in words {
        given.push(String::from_str(alloc, word)?)?;
    }
    let mut files = Vec::new(alloc);
    files.push((
        String::from_str(alloc, "i")?,
        Vec::from_slice(alloc, bytes)?,
    ))?;
    let mut shelf = MemShelf::new(alloc, files, Vec::new(alloc));
    let mut out = MemSink::new(alloc, Vec::new(alloc));
    let ended = run_score(alloc, given.as_slice(), &mut shelf, &mut out);
    assert!(rt; ended.number() == status);
    assert!(rt; out.bytes() == text);
    Ok(())
}

#[test]
fn ends_as_the_words_and_files_say(rt: HostRuntime) -> Result<(), Fail> {
    let alloc = rt.alloc();
    judge_run(
        &rt,
        alloc,
        &["i"],
        ONE,
        2,
        b"usage:\nscore INSTANCE SOLUTION\n",
    )?;
    judge_run(&rt, alloc, &["n", "i"], ONE, 5, b"read fault n\n")?;
    judge_run(&rt, alloc, &["i", "t"], ONE, 5, b"read fault t\n")?;
    judge_run(
        &rt,
        alloc,
        &["i", "i"],
        b"",
        4,
        b"bad input i line 1: file ends\n",
    )?;
    judge_run(
        &rt,
        alloc,
        &["i", "i"],
        ONE,
        4,
        b"bad input i line 1: wrong number of fields\n",
    )
}
