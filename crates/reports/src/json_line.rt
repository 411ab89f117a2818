ghost use Rattle.std.specs.Prelude.{◌≡◌, ◌<◌, ◌++◌, [], ℕ, List, length, codes, pos, slice_index_or, IfOk, true, false};
ghost use Rattle.std.specs.List.{AllByRecursion};
ghost use Rattle.serde_json.specs.View.{view};
ghost use Rattle.serde_json.specs.Written.{has_float, compact_text};
ghost use Rattle.problem_core.specs.Choice.{IsLegal};
ghost use Rattle.problem_core.specs.Kept.{IsWithin};
ghost use Rattle.ctt_reader.specs.Promised.{IsInstance};
ghost use Rattle.timed_solution.specs.Times.{AreTimes};
ghost use Rattle.reports.specs.Rooms.{are_known, are_rooms, IsRoomUse, IsProblemOf};
ghost use Rattle.reports.specs.Json.{courses_data, rooms_data, values_data, kept_report, json_line};

use crate::json_parts::{course_value, room_value, session_list};
use crate::room_use::room_use;
use crate::session::{RoomUse, Session};
use crate::six_values::turned;
use ctt_reader::Instance;
use input_core::Memory;
use problem_core::{Choice, Problem};
use serde_json::{Map, Value, json, put};
use std::alloc::{AllocError, Global};
use timed_solution::Times;
use values::Items;

/// The report of a legal choice for the problem of the instance, the times and some measures as one line of compact
/// JSON: an object with the courses, each with its rooms and the number of its meetings there, the rooms, each with
/// its capacity and its meetings by slot, the meetings without a room, and the six values. `Memory` comes where memory
/// runs out.
pub fn json_report(
    alloc: Global,
    instance: &Instance,
    times: &Times,
    problem: &Problem,
    choice: &Choice,
) -> Result<Vec<u8>, Memory>
    requires instance { IsInstance instance.now }
    requires times { AreTimes instance.now times.now.meetings }
    requires problem { IsProblemOf instance.now times.now problem.now }
    requires legal { IsLegal problem.now choice.now.entries }
    ensures { IfOk result (λ v. v.items ≡ json_line instance.now times.now problem.now choice.now.entries) }
{
    let values = problem.values(choice);
    let parts = room_use(alloc, instance, times, problem, choice)?;
    kept_line(alloc, instance, &parts, &values)
}

/// The line of a report with these lists and values.
#[tactic(auto, using(crate::proofs::JsonLaws::kept_whole))]
fn kept_line(
    alloc: Global,
    instance: &Instance,
    parts: &RoomUse,
    values: &[i64; 6],
) -> Result<Vec<u8>, Memory>
    requires parts { (xs : List Session) × IsRoomUse instance.now xs parts.now }
    requires values { AllByRecursion (IsWithin (pos 1000000000000)) values.now }
    ensures { IfOk result (λ v. v.items ≡ compact_text (kept_report instance.now parts.now values.now) ++ codes "\n") }
{
    let report = report_value(alloc, instance, parts, values)?;
    line_of(alloc, &report)
}

/// The compact text of the value, and a line feed.
fn line_of(alloc: Global, value: &Value) -> Result<Vec<u8>, Memory>
    requires { has_float (view value.now) ≡ false }
    ensures { IfOk result (λ v. v.items ≡ compact_text (view value.now) ++ codes "\n") }
{
    let mut text = value.to_vec(alloc)?;
    text.extend_from_slice(b"\n")?;
    Ok(text)
}

/// The object of a report with these lists and values.
fn report_value(
    alloc: Global,
    instance: &Instance,
    parts: &RoomUse,
    values: &[i64; 6],
) -> Result<Value, AllocError>
    requires parts { (xs : List Session) × IsRoomUse instance.now xs parts.now }
    requires values { AllByRecursion (IsWithin (pos 1000000000000)) values.now }
    ensures { IfOk result (λ v. view v ≡ kept_report instance.now parts.now values.now) }
{
    let mut members = Map::new(alloc);
    let courses = course_list(alloc, instance, parts.by_course.as_slice())?;
    put(&mut members, alloc, "courses", courses)?;
    let rooms = room_list(alloc, instance, parts.by_room.as_slice())?;
    put(&mut members, alloc, "rooms", rooms)?;
    let unroomed = session_list(alloc, instance, parts.unroomed.as_slice())?;
    put(&mut members, alloc, "unroomed", unroomed)?;
    let values = value_list(alloc, values)?;
    put(&mut members, alloc, "values", values)?;
    Ok(Value::from(members))
}

/// The courses, each with its rooms and counts.
fn course_list(
    alloc: Global,
    instance: &Instance,
    by_course: &[Items<(u32, u32)>],
) -> Result<Value, AllocError>
    requires count { length by_course.now ≡ length instance.now.courses }
    requires known { (c : ℕ) → c < length instance.now.courses → are_rooms instance.now (slice_index_or by_course.now c []) ≡ true }
    ensures { IfOk result (λ v. view v ≡ courses_data instance.now (λ c. slice_index_or by_course.now c [])) }
{
    let mut list = Vec::new(alloc);
    for c in 0..by_course.len() {
        list.push(course_value(alloc, instance, c, by_course[c].as_slice())?)?;
    }
    Ok(Value::Array(list))
}

/// The rooms, each with its sessions.
fn room_list(
    alloc: Global,
    instance: &Instance,
    by_room: &[Items<Session>],
) -> Result<Value, AllocError>
    requires count { length by_room.now ≡ length instance.now.rooms }
    requires known { (r : ℕ) → r < length instance.now.rooms → are_known instance.now (slice_index_or by_room.now r []) ≡ true }
    ensures { IfOk result (λ v. view v ≡ rooms_data instance.now (λ r. slice_index_or by_room.now r [])) }
{
    let mut list = Vec::new(alloc);
    for r in 0..by_room.len() {
        list.push(room_value(alloc, instance, r, by_room[r].as_slice())?)?;
    }
    Ok(Value::Array(list))
}

/// The six values, the fifth with its sign turned.
fn value_list(alloc: Global, values: &[i64; 6]) -> Result<Value, AllocError>
    requires { AllByRecursion (IsWithin (pos 1000000000000)) values.now }
    ensures { IfOk result (λ v. view v ≡ values_data values.now) }
{
    let rooms = turned(values[4]);
    json!(in alloc; [values[0], values[1], values[2], values[3], rooms, values[5]])
}
