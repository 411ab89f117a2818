ghost use Rattle.std.specs.Prelude.{◌≡◌, ◌<◌, ◌≤◌, ◌++◌, ℕ, OnOk, length, map};
ghost use Rattle.std.specs.List.{flat_map, AllByRecursion};
ghost use Rattle.problem_core.specs.Facts.{event_at};
ghost use Rattle.meeting_patterns.specs.Pattern.{IsPattern};
ghost use Rattle.packing_model.specs.Keys.{slot_end, key_end, slot_key, own_keys, keys_of, row_of, needed};

use crate::row::Row;
use meeting_patterns::{Pattern, within};
use problem_core::Problem;
use std::alloc::AllocError;

/// One more than the last key of an event, or of a room and slot.
fn slot_end(p: &Problem) -> u32
    ensures end { result ≡ slot_end p.now }
    ensures few { slot_end p.now ≤ 138400 }
{
    p.event_count() + p.room_count() * p.slot_count()
}

/// The number of keys. A key is the number of a row that might be: of an event, then of a room and slot,
/// then of a course and room.
pub fn key_end(p: &Problem) -> u32
    ensures end { result ≡ key_end p.now }
    ensures few { key_end p.now ≤ 338400 }
{
    slot_end(p) + p.course_count() * p.room_count()
}

/// The row of the key.
pub fn row_of(p: &Problem, key: u32) -> Row
    requires { key < key_end p.now }
    ensures { result ≡ row_of p.now key }
{
    let events = p.event_count();
    let end = slot_end(p);
    if key < events {
        Row::Event(key)
    } else if key < end {
        Row::RoomSlot {
            room: (key - events) / p.slot_count(),
            slot: (key - events) % p.slot_count(),
        }
    } else {
        Row::CourseRoom {
            course: (key - end) / p.room_count(),
            room: (key - end) % p.room_count(),
        }
    }
}

/// How many patterns must have the key to make its row a base row.
pub fn needed(p: &Problem, key: u32) -> u32
    ensures { result ≡ needed p.now key }
{
    if key < slot_end(p) { 1 } else { 2 }
}

/// Writes the keys of the pattern in place of what the list holds: of each of its events, of the slots
/// that they take in its room, and of its course and room.
pub fn put_keys(keys: &mut Vec<u32>, p: &Problem, x: Pattern) -> Result<(), AllocError>
    requires { IsPattern p.now x }
    ensures { OnOk result (keys.new.items ≡ keys_of p.now x) }
{
    p.laws();
    keys.clear();
    add_events(keys, p, p.events_of(x.course), x)?;
    keys.push(slot_end(p) + (x.course * p.room_count() + x.room))?;
    Ok(())
}

/// Adds the keys of those of the events that are the pattern's.
fn add_events(
    keys: &mut Vec<u32>,
    p: &Problem,
    events: &[u32],
    x: Pattern,
) -> Result<(), AllocError>
    requires room { x.room < 200 }
    requires known { AllByRecursion (λ e. e < length p.now.events) events.now }
    ensures { OnOk result (keys.new.items ≡ keys.old.items ++ flat_map (own_keys p.now x) events.now) }
{
    for event in events {
        add_event(keys, p, *event, x)?;
    }
    Ok(())
}

/// Adds the keys of the event where it is the pattern's.
fn add_event(keys: &mut Vec<u32>, p: &Problem, event: u32, x: Pattern) -> Result<(), AllocError>
    requires room { x.room < 200 }
    requires known { event < length p.now.events }
    ensures { OnOk result (keys.new.items ≡ keys.old.items ++ own_keys p.now x event) }
{
    if within(p, x, event) {
        keys.push(event)?;
        add_slots(keys, p, event, x.room)?;
    }
    Ok(())
}

/// Adds the keys of the event's slots in the room.
fn add_slots(keys: &mut Vec<u32>, p: &Problem, event: u32, room: u32) -> Result<(), AllocError>
    requires room { room < 200 }
    requires known { event < length p.now.events }
    ensures { OnOk result (keys.new.items ≡ keys.old.items ++ map (slot_key p.now room) (event_at p.now event).takes) }
{
    let (first, count) = p.takes(event);
    let row = p.event_count() + room * p.slot_count();
    for slot in first..first + count {
        keys.push(row + slot)?;
    }
    Ok(())
}
