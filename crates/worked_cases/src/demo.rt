ghost use Rattle.std.specs.Prelude.{◌≤◌};
ghost use Rattle.ctt_reader.specs.Promised.{IsInstance};

use crate::packing::judge_sizes;
use ctt_reader::{Instance, write_ctt};
use demo_files::{demo_files, demo_model};
use input_core::Memory;
use measure_file::Measures;
use std::alloc::Global;
use std::process::Abort;
use std::test::Fail;
use timed_solution::{Meeting, Times};
use tool_core::Loaded;

/// The instance of three courses: one, two and three lectures, and 10, 47 and 84 students.
const THREE: &[u8] =
    b"Name: demo\nCourses: 3\nRooms: 12\nDays: 5\nPeriods_per_day: 8\nCurricula: 0\nConstraints: 0\n\nCOURSES:\nd0 t0 1 1 10\nd1 t1 2 1 47\nd2 t2 3 1 84\n\nROOMS:\nh0 20\nh1 40\nh2 60\nh3 80\nh4 100\nh5 120\nh6 140\nh7 160\nh8 180\nh9 200\nh10 220\nh11 240\n\nCURRICULA:\n\nUNAVAILABILITY_CONSTRAINTS:\n\nEND.\n";

/// What is looked at in what is read back.
#[derive(Clone, Copy)]
enum Look {
    /// The values of three courses.
    Three,
    /// How many courses, meetings, patterns and base rows there are.
    Sizes(usize, usize, u32, u32),
}

/// Makes the input, and looks at it. It alone owns one.
fn judge(rt: &impl Abort, alloc: Global, n: u32, look: Look) -> Result<(), Fail>
    requires some { 1 ≤ n }
    requires few { n ≤ 300 }
{
    let loaded = demo_model(alloc, n)?;
    look_at(rt, alloc, &loaded, look)
}

fn look_at(rt: &impl Abort, alloc: Global, loaded: &Loaded, look: Look) -> Result<(), Fail>
    requires { IsInstance loaded.now.instance }
{
    match look {
        Look::Three => look_at_three(rt, alloc, loaded),
        Look::Sizes(courses, meetings, patterns, rows) => {
            assert!(rt; loaded.instance.courses.len() == courses);
            assert!(rt; loaded.times.meetings.len() == meetings);
            judge_sizes(rt, &loaded.model, patterns, rows)
        }
    }
}

fn look_at_three(rt: &impl Abort, alloc: Global, loaded: &Loaded) -> Result<(), Fail>
    requires { IsInstance loaded.now.instance }
{
    look_at_instance(rt, alloc, &loaded.instance)?;
    look_at_times(rt, &loaded.times)?;
    look_at_measures(rt, &loaded.measures)?;
    judge_sizes(rt, &loaded.model, 98, 80)
}

fn look_at_instance(rt: &impl Abort, alloc: Global, instance: &Instance) -> Result<(), Fail>
    requires { IsInstance instance.now }
{
    let text = write_ctt(alloc, instance)?;
    assert!(rt; text.as_slice() == THREE);
    Ok(())
}

/// The meeting of the course in the slot, without a room.
fn meeting(course: u32, slot: u32) -> Meeting {
    Meeting {
        course,
        room: 0,
        day: slot / 8,
        period: slot % 8,
    }
}

/// Slot 0; 7, 18; 14, 25, 36.
fn look_at_times(rt: &impl Abort, times: &Times) -> Result<(), Fail> {
    let expected = [
        meeting(0, 0),
        meeting(1, 7),
        meeting(1, 18),
        meeting(2, 14),
        meeting(2, 25),
        meeting(2, 36),
    ];
    assert!(rt; times.meetings.as_slice() == expected.as_slice());
    Ok(())
}

/// Three preferences, two thresholds, and nothing else.
fn look_at_measures(rt: &impl Abort, measures: &Measures) -> Result<(), Fail> {
    assert!(rt; measures.prefer.as_slice() == [(0, 0, 3), (1, 1, 3), (2, 2, 3)].as_slice());
    assert!(rt; measures.robust.as_slice() == [(100, 2), (400, 1)].as_slice());
    let features = measures.features.len() == 0 && measures.has.len() == 0;
    let needs = measures.needs.len() == 0 && measures.denied.len() == 0;
    let hours = measures.closed.len() == 0 && measures.lengths.len() == 0;
    assert!(rt; features && needs && hours);
    Ok(())
}

#[test]
fn three_courses_are_read_back(rt: HostRuntime) -> Result<(), Fail> {
    judge(&rt, rt.alloc(), 3, Look::Three)
}

/// With 1 course there are 12 patterns; with 12 courses 317; with 300 courses the limits of a model are not passed.
#[test]
fn counts_meetings_patterns_and_base_rows(rt: HostRuntime) -> Result<(), Fail> {
    let alloc = rt.alloc();
    judge(&rt, alloc, 1, Look::Sizes(1, 1, 12, 13))?;
    judge(&rt, alloc, 2, Look::Sizes(2, 3, 42, 45))?;
    judge(&rt, alloc, 12, Look::Sizes(12, 24, 317, 254))?;
    judge(&rt, alloc, 300, Look::Sizes(300, 600, 8052, 2535))
}

/// The preferred room of a course is the one before that of the next course, and room 0 comes after room 11.
#[test]
fn rooms_take_turns(rt: HostRuntime) -> Result<(), Fail> {
    judge_turns(&rt, rt.alloc())
}

fn judge_turns(rt: &impl Abort, alloc: Global) -> Result<(), Fail> {
    let prefer = preferred(alloc)?;
    assert!(rt; prefer == [(11, 11, 3), (12, 0, 3)]);
    Ok(())
}

/// The last two preferences of 13 courses.
fn preferred(alloc: Global) -> Result<[(u32, u32, i32); 2], Memory> {
    let files = demo_files(alloc, 13)?;
    let rows = files.2.prefer.as_slice();
    match (rows.get(11), rows.get(12)) {
        (Some(first), Some(second)) => Ok([*first, *second]),
        _ => Ok([(0, 0, 0), (0, 0, 0)]),
    }
}
