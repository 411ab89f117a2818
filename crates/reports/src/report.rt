ghost use Rattle.std.specs.Prelude.{◌≡◌, ◌<◌, ◌≤◌, ◌++◌, [], ℕ, pos, length, codes, decimal, slice_index_or, true, IfOk, OnOk};
ghost use Rattle.std.specs.List.{AllByRecursion, flat_map};
ghost use Rattle.problem_core.specs.Choice.{IsLegal};
ghost use Rattle.problem_core.specs.Kept.{IsWithin};
ghost use Rattle.ctt_reader.specs.Promised.{IsInstance};
ghost use Rattle.timed_solution.specs.Times.{AreTimes};
ghost use Rattle.reports.specs.Rooms.{each_below, sessions, are_known, are_rooms, IsProblemOf, IsRoomUse};
ghost use Rattle.reports.specs.Report.{room_at, hours_text, roomed_line, room_line, room_text, used_text, course_text, unroomed_line, unroomed_text, use_text, report_text, ArePrintable};

use crate::room_use::room_use;
use crate::session::{RoomUse, Session};
use crate::six_values::value_lines;
use ctt_reader::Instance;
use input_core::Memory;
use itoa::Buffer;
use problem_core::{Choice, Problem};
use room_model::course_name;
use std::alloc::{AllocError, Global};
use timed_solution::Times;
use values::Items;

/// The report of a legal choice for the problem of the instance, the times and some measures: for each room the
/// meetings in it by slot, for each course the rooms that it uses with the number of its meetings there, the meetings
/// without a room, and the six values. `Memory` comes where memory runs out.
pub fn text_report(
    alloc: Global,
    instance: &Instance,
    times: &Times,
    problem: &Problem,
    choice: &Choice,
) -> Result<Vec<u8>, Memory>
    requires instance { IsInstance instance.now }
    requires times { AreTimes instance.now times.now.meetings }
    requires problem { IsProblemOf instance.now times.now problem.now }
    requires legal { IsLegal problem.now choice.now.entries }
    ensures { IfOk result (λ v. v.items ≡ report_text instance.now times.now problem.now choice.now.entries) }
{
    let values = problem.values(choice);
    let found = room_use(alloc, instance, times, problem, choice)?;
    print(alloc, instance, &found, &values)
}

/// The text of the lists and the values.
fn print(
    alloc: Global,
    instance: &Instance,
    found: &RoomUse,
    values: &[i64; 6],
) -> Result<Vec<u8>, Memory>
    requires printable { ArePrintable instance.now found.now }
    requires values { AllByRecursion (IsWithin (pos 1000000000000)) values.now }
    ensures { IfOk result (λ v. v.items ≡ use_text instance.now found.now values.now) }
{
    let lines = value_lines(alloc, values)?;
    let mut text = Vec::new(alloc);
    push_rooms(&mut text, instance, &found.by_room)?;
    push_courses(&mut text, instance, &found.by_course)?;
    push_unroomed(&mut text, instance, found.unroomed.as_slice())?;
    text.extend_from_slice(&lines)?;
    Ok(text)
}

/// Adds each room with its meetings.
#[tactic(auto, using(crate::proofs::ListLaws::each_below_more))]
fn push_rooms(
    text: &mut Vec<u8>,
    instance: &Instance,
    rooms: &[Items<Session>],
) -> Result<(), AllocError>
    requires whole { length rooms.now ≡ length instance.now.rooms }
    requires known { (r : ℕ) → r < length rooms.now → are_known instance.now (slice_index_or rooms.now r []) ≡ true }
    ensures { OnOk result (text.new.items ≡ text.old.items ++ each_below (λ r. room_text instance.now r (slice_index_or rooms.now r [])) (length instance.now.rooms)) }
{
    for room in 0..rooms.len() {
        push_room(text, instance, room, rooms[room].as_slice())?;
    }
    Ok(())
}

/// Adds `room NAME CAPACITY` and the meetings in the room.
fn push_room(
    text: &mut Vec<u8>,
    instance: &Instance,
    room: usize,
    sessions: &[Session],
) -> Result<(), AllocError>
    requires room { room < length instance.now.rooms }
    requires known { are_known instance.now sessions.now ≡ true }
    ensures { OnOk result (text.new.items ≡ text.old.items ++ room_text instance.now room sessions.now) }
{
    push_room_line(text, instance, room)?;
    push_roomed(text, instance, sessions)
}

fn push_room_line(text: &mut Vec<u8>, instance: &Instance, room: usize) -> Result<(), AllocError>
    requires { room < length instance.now.rooms }
    ensures { OnOk result (text.new.items ≡ text.old.items ++ room_line (room_at instance.now room)) }
{
    let mut buffer = Buffer::new();
    let found = &instance.rooms.as_slice()[room];
    text.extend_from_slice(b"room ")?;
    text.extend_from_slice(found.name.as_bytes())?;
    text.extend_from_slice(b" ")?;
    text.extend_from_slice(buffer.format(found.capacity).as_bytes())?;
    text.extend_from_slice(b"\n")?;
    Ok(())
}

/// Adds the lines of meetings in a room.
fn push_roomed(
    text: &mut Vec<u8>,
    instance: &Instance,
    sessions: &[Session],
) -> Result<(), AllocError>
    requires { are_known instance.now sessions.now ≡ true }
    ensures { OnOk result (text.new.items ≡ text.old.items ++ flat_map (roomed_line instance.now) sessions.now) }
{
    for session in sessions {
        push_roomed_line(text, instance, session)?;
    }
    Ok(())
}

/// Adds `DAY PERIOD COURSE`, and the periods where they are several.
fn push_roomed_line(
    text: &mut Vec<u8>,
    instance: &Instance,
    session: &Session,
) -> Result<(), AllocError>
    requires { session.now.course < length instance.now.courses }
    ensures { OnOk result (text.new.items ≡ text.old.items ++ roomed_line instance.now session.now) }
{
    let mut buffer = Buffer::new();
    text.extend_from_slice(buffer.format(session.day).as_bytes())?;
    text.extend_from_slice(b" ")?;
    text.extend_from_slice(buffer.format(session.period).as_bytes())?;
    text.extend_from_slice(b" ")?;
    text.extend_from_slice(course_name(instance, session.course).as_bytes())?;
    push_hours(text, session.hours)?;
    text.extend_from_slice(b"\n")?;
    Ok(())
}

/// Adds ` hours N` where N is more than one.
fn push_hours(text: &mut Vec<u8>, hours: u32) -> Result<(), AllocError>
    ensures { OnOk result (text.new.items ≡ text.old.items ++ hours_text hours) }
{
    if hours > 1 {
        push_many_hours(text, hours)
    } else {
        Ok(())
    }
}

fn push_many_hours(text: &mut Vec<u8>, hours: u32) -> Result<(), AllocError>
    ensures { OnOk result (text.new.items ≡ text.old.items ++ (codes " hours " ++ decimal hours)) }
{
    let mut buffer = Buffer::new();
    text.extend_from_slice(b" hours ")?;
    text.extend_from_slice(buffer.format(hours).as_bytes())?;
    Ok(())
}

/// Adds each course with its rooms.
#[tactic(auto, using(crate::proofs::ListLaws::each_below_more))]
fn push_courses(
    text: &mut Vec<u8>,
    instance: &Instance,
    uses: &[Items<(u32, u32)>],
) -> Result<(), AllocError>
    requires whole { length uses.now ≡ length instance.now.courses }
    requires few { length uses.now ≤ 1000 }
    requires known { (c : ℕ) → c < length uses.now → are_rooms instance.now (slice_index_or uses.now c []) ≡ true }
    ensures { OnOk result (text.new.items ≡ text.old.items ++ each_below (λ c. course_text instance.now c (slice_index_or uses.now c [])) (length instance.now.courses)) }
{
    for course in 0..uses.len() {
        push_course(text, instance, course as u32, uses[course].as_slice())?;
    }
    Ok(())
}

/// Adds `course NAME` and the course's rooms.
fn push_course(
    text: &mut Vec<u8>,
    instance: &Instance,
    course: u32,
    rooms: &[(u32, u32)],
) -> Result<(), AllocError>
    requires course { course < length instance.now.courses }
    requires known { are_rooms instance.now rooms.now ≡ true }
    ensures { OnOk result (text.new.items ≡ text.old.items ++ course_text instance.now course rooms.now) }
{
    text.extend_from_slice(b"course ")?;
    text.extend_from_slice(course_name(instance, course).as_bytes())?;
    push_used(text, instance, rooms)?;
    text.extend_from_slice(b"\n")?;
    Ok(())
}

/// Adds the rooms of a course.
fn push_used(
    text: &mut Vec<u8>,
    instance: &Instance,
    rooms: &[(u32, u32)],
) -> Result<(), AllocError>
    requires { are_rooms instance.now rooms.now ≡ true }
    ensures { OnOk result (text.new.items ≡ text.old.items ++ flat_map (used_text instance.now) rooms.now) }
{
    for room in rooms {
        push_use(text, instance, *room)?;
    }
    Ok(())
}

/// Adds ` ROOM COUNT`.
fn push_use(text: &mut Vec<u8>, instance: &Instance, room: (u32, u32)) -> Result<(), AllocError>
    requires { room.0 < length instance.now.rooms }
    ensures { OnOk result (text.new.items ≡ text.old.items ++ used_text instance.now room) }
{
    let mut buffer = Buffer::new();
    text.extend_from_slice(b" ")?;
    text.extend_from_slice(instance.rooms.as_slice()[room.0 as usize].name.as_bytes())?;
    text.extend_from_slice(b" ")?;
    text.extend_from_slice(buffer.format(room.1).as_bytes())?;
    Ok(())
}

/// Adds `unroomed K` and the K meetings without a room.
fn push_unroomed(
    text: &mut Vec<u8>,
    instance: &Instance,
    sessions: &[Session],
) -> Result<(), AllocError>
    requires { are_known instance.now sessions.now ≡ true }
    ensures { OnOk result (text.new.items ≡ text.old.items ++ unroomed_text instance.now sessions.now) }
{
    let mut buffer = Buffer::new();
    text.extend_from_slice(b"unroomed ")?;
    text.extend_from_slice(buffer.format(sessions.len()).as_bytes())?;
    text.extend_from_slice(b"\n")?;
    push_unroomed_lines(text, instance, sessions)
}

fn push_unroomed_lines(
    text: &mut Vec<u8>,
    instance: &Instance,
    sessions: &[Session],
) -> Result<(), AllocError>
    requires { are_known instance.now sessions.now ≡ true }
    ensures { OnOk result (text.new.items ≡ text.old.items ++ flat_map (unroomed_line instance.now) sessions.now) }
{
    for session in sessions {
        push_unroomed_line(text, instance, session)?;
    }
    Ok(())
}

/// Adds `COURSE DAY PERIOD`, and the periods where they are several.
fn push_unroomed_line(
    text: &mut Vec<u8>,
    instance: &Instance,
    session: &Session,
) -> Result<(), AllocError>
    requires { session.now.course < length instance.now.courses }
    ensures { OnOk result (text.new.items ≡ text.old.items ++ unroomed_line instance.now session.now) }
{
    let mut buffer = Buffer::new();
    text.extend_from_slice(course_name(instance, session.course).as_bytes())?;
    text.extend_from_slice(b" ")?;
    text.extend_from_slice(buffer.format(session.day).as_bytes())?;
    text.extend_from_slice(b" ")?;
    text.extend_from_slice(buffer.format(session.period).as_bytes())?;
    push_hours(text, session.hours)?;
    text.extend_from_slice(b"\n")?;
    Ok(())
}
