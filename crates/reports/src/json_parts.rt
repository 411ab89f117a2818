ghost use Rattle.std.specs.Prelude.{◌≡◌, ◌<◌, [], ◌∷◌, length, map, IfOk, true};
ghost use Rattle.serde_json.specs.Data.{string};
ghost use Rattle.serde_json.specs.View.{view};
ghost use Rattle.reports.specs.Rooms.{are_known, are_rooms};
ghost use Rattle.reports.specs.Json.{whole, session_data, sessions_data, used_data, room_with, course_with};

use crate::session::Session;
use ctt_reader::{Instance, course_name};
use serde_json::{Value, json};
use std::alloc::{AllocError, Global};

/// The course, the day and the period of a session, and its hours where they are more than 1.
fn session_value(alloc: Global, instance: &Instance, session: Session) -> Result<Value, AllocError>
    requires { session.course < length instance.now.courses }
    ensures { IfOk result (λ v. view v ≡ session_data instance.now session) }
{
    let course = course_name(instance, session.course);
    let mut parts = timed_parts(alloc, course, session.day, session.period)?;
    if 1 < session.hours {
        parts.push(Value::from(session.hours))?;
    }
    Ok(Value::from(parts))
}

/// A course, a day and a period.
fn timed_parts(alloc: Global, course: &str, day: u32, period: u32) -> Result<Vec<Value>, AllocError>
    ensures { IfOk result (λ v. map view v.items ≡ string course.now ∷ whole day ∷ whole period ∷ []) }
{
    let mut parts = Vec::new(alloc);
    parts.push(Value::try_from_str(alloc, course)?)?;
    parts.push(Value::from(day))?;
    parts.push(Value::from(period))?;
    Ok(parts)
}

/// The sessions, in their order.
pub fn session_list(
    alloc: Global,
    instance: &Instance,
    sessions: &[Session],
) -> Result<Value, AllocError>
    requires { are_known instance.now sessions.now ≡ true }
    ensures { IfOk result (λ v. view v ≡ sessions_data instance.now sessions.now) }
{
    let mut list = Vec::new(alloc);
    for session in sessions {
        list.push(session_value(alloc, instance, *session)?)?;
    }
    Ok(Value::Array(list))
}

/// A room's name and a count.
fn used_value(alloc: Global, instance: &Instance, used: (u32, u32)) -> Result<Value, AllocError>
    requires { used.0 < length instance.now.rooms }
    ensures { IfOk result (λ v. view v ≡ used_data instance.now used) }
{
    let name = instance.rooms.as_slice()[used.0 as usize].name.as_str();
    json!(in alloc; [name, used.1])
}

/// Rooms and counts, in their order.
fn used_list(
    alloc: Global,
    instance: &Instance,
    pairs: &[(u32, u32)],
) -> Result<Vec<Value>, AllocError>
    requires { are_rooms instance.now pairs.now ≡ true }
    ensures { IfOk result (λ v. map view v.items ≡ map (used_data instance.now) pairs.now) }
{
    let mut list = Vec::new(alloc);
    for used in pairs {
        list.push(used_value(alloc, instance, *used)?)?;
    }
    Ok(list)
}

/// Room r with these sessions in it.
pub fn room_value(
    alloc: Global,
    instance: &Instance,
    r: usize,
    sessions: &[Session],
) -> Result<Value, AllocError>
    requires room { r < length instance.now.rooms }
    requires known { are_known instance.now sessions.now ≡ true }
    ensures { IfOk result (λ v. view v ≡ room_with instance.now r sessions.now) }
{
    let room = &instance.rooms.as_slice()[r];
    let meetings = session_list(alloc, instance, sessions)?;
    let name = room.name.as_str();
    json!(in alloc; {"capacity": room.capacity, "meetings": meetings, "name": name})
}

/// Course c with these rooms and counts.
pub fn course_value(
    alloc: Global,
    instance: &Instance,
    c: usize,
    pairs: &[(u32, u32)],
) -> Result<Value, AllocError>
    requires course { c < length instance.now.courses }
    requires known { are_rooms instance.now pairs.now ≡ true }
    ensures { IfOk result (λ v. view v ≡ course_with instance.now c pairs.now) }
{
    let name = instance.courses.as_slice()[c].name.as_str();
    let rooms = used_list(alloc, instance, pairs)?;
    json!(in alloc; {"name": name, "rooms": rooms})
}
