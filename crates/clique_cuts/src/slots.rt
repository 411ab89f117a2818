ghost use Rattle.std.specs.Prelude.{◌<◌, length};
ghost use Rattle.std.specs.List.{All};
ghost use Rattle.packing_model.specs.Built.{packing};
ghost use Rattle.clique_cuts.specs.Cliques.{IsKnown};

use crate::matching::{Side, cover_both, empty_lists};
use packing_model::Model;
use problem_core::{Choice, Memory, Problem};
use std::alloc::Global;
use values::Items;

/// A room that the point uses for a meeting, and the part that it gives to one of its patterns there.
#[derive(Clone, Copy)]
struct Use {
    room: u32,
    part: i128,
}

/// Rooms for the meetings slot by slot, over the pairs of meeting and room that the entries use: first for
/// each meeting that they cover wholly, then so that each room is used that they use wholly there, then for
/// any other meeting that finds a room. A room that the course has in another slot goes before others, and
/// then the greater part. A meeting of several slots keeps the room of its first one, so the rooms may not
/// suit each other in its later slots.
///
/// Each slot is a matching of meetings and rooms along alternating paths (Berge, 1957); that one matching
/// covers the vertices of either side that two matchings cover is the theorem of Mendelsohn and Dulmage
/// (1958).
pub fn slot_choice(
    alloc: Global,
    m: &Model,
    den: i128,
    entries: &[(u32, i128)],
) -> Result<Choice, Memory>
    requires { All (IsKnown (packing m.now)) entries.now }
{
    let p = m.problem();
    let uses = uses_of(alloc, m, entries)?;
    let mut rooms = vec![in alloc; 0u32; p.event_count() as usize]?;
    for slot in 0..p.slot_count() {
        fill_slot(alloc, p, den, &uses, slot, &mut rooms)?;
    }
    Ok(Choice {
        entries: Items::from(rooms),
    })
}

/// By meeting, the rooms that the entries use for it.
fn uses_of(alloc: Global, m: &Model, entries: &[(u32, i128)]) -> Result<Vec<Items<Use>>, Memory>
    requires { All (IsKnown (packing m.now)) entries.now }
{
    let p = m.problem();
    let mut uses = empty_lists(alloc, p.event_count())?;
    for entry in entries {
        let pattern = m.patterns().get(entry.0);
        let found = Use {
            room: pattern.room,
            part: entry.1,
        };
        add_uses(&mut uses, p.events_of(pattern.course), pattern.mask, found)?;
    }
    Ok(uses)
}

/// Adds the use to each of the course's meetings that the mask names.
fn add_uses(uses: &mut [Items<Use>], events: &[u32], mask: u16, found: Use) -> Result<(), Memory> {
    let mut rest = mask;
    for event in events {
        if rest % 2 == 1 {
            push_at(uses, *event, found)?;
        }
        rest /= 2;
    }
    Ok(())
}

/// Adds the item to a list, where there is such a list.
fn push_at(lists: &mut [Items<Use>], at: u32, item: Use) -> Result<(), Memory> {
    if let Some(list) = lists.get_mut(at as usize) {
        list.push(item)?;
    }
    Ok(())
}

/// The rooms that the entries use for the meeting.
fn uses_at(uses: &[Items<Use>], event: u32) -> &[Use] {
    match uses.get(event as usize) {
        Some(list) => list.as_slice(),
        None => &[],
    }
}

/// Gives rooms to the meetings that begin in the slot.
fn fill_slot(
    alloc: Global,
    p: &Problem,
    den: i128,
    uses: &[Items<Use>],
    slot: u32,
    rooms: &mut [u32],
) -> Result<(), Memory> {
    let mut meetings = Side::new(alloc, p.event_count())?;
    let mut places = Side::new(alloc, p.room_count())?;
    let mut taken = vec![in alloc; false; p.room_count() as usize]?;
    let mut loads = vec![in alloc; 0i128; p.room_count() as usize]?;
    for event in 0..p.event_count() {
        if takes_slot(p, event, slot) {
            add_loads(&mut loads, uses_at(uses, event));
            add_taken(&mut taken, value_at(rooms, event, 0));
        }
    }
    link_slot(
        p,
        den,
        uses,
        slot,
        rooms,
        &taken,
        &mut meetings,
        &mut places,
    )?;
    need_full(p, &loads, den, &mut places);
    cover_both(alloc, &mut meetings, &mut places)?;
    give_rooms(p, &meetings, rooms);
    Ok(())
}

/// Whether the meeting takes the slot.
fn takes_slot(p: &Problem, event: u32, slot: u32) -> bool
    requires { event < length p.now.events }
{
    let (first, count) = p.takes(event);
    first <= slot && slot - first < count
}

/// The value at the place, or the other one where there is no such place.
fn value_at<T: Copy>(list: &[T], at: u32, other: T) -> T {
    match list.get(at as usize) {
        Some(value) => *value,
        None => other,
    }
}

/// Adds to the load of each room what the entries use of it for a meeting.
fn add_loads(loads: &mut [i128], uses: &[Use]) {
    for found in uses {
        if let Some(load) = loads.get_mut(found.room as usize) {
            *load = load.saturating_add(found.part);
        }
    }
}

/// Says that the room of the entry is taken, where it has one.
fn add_taken(taken: &mut [bool], entry: u32) {
    if entry != 0 {
        if let Some(place) = taken.get_mut(entry as usize - 1) {
            *place = true;
        }
    }
}

/// Links the meetings that begin in the slot with rooms that no meeting has there which began before, and
/// says of those that the entries cover wholly that they must be matched.
fn link_slot(
    p: &Problem,
    den: i128,
    uses: &[Items<Use>],
    slot: u32,
    rooms: &[u32],
    taken: &[bool],
    meetings: &mut Side,
    places: &mut Side,
) -> Result<(), Memory> {
    for event in 0..p.event_count() {
        if p.takes(event).0 == slot {
            let others = p.events_of(p.course_of(event));
            let uses = uses_at(uses, event);
            link_where(event, uses, others, rooms, taken, true, meetings, places)?;
            link_where(event, uses, others, rooms, taken, false, meetings, places)?;
            if load_of(uses) == den {
                meetings.need(event);
            }
        }
    }
    Ok(())
}

/// Links the meeting with the rooms that one of the course's meetings has, or with those that none has.
fn link_where(
    event: u32,
    uses: &[Use],
    others: &[u32],
    rooms: &[u32],
    taken: &[bool],
    held: bool,
    meetings: &mut Side,
    places: &mut Side,
) -> Result<(), Memory> {
    for found in uses {
        if is_held(others, rooms, found.room) == held && !value_at(taken, found.room, true) {
            meetings.link(event, found.room)?;
            places.link(found.room, event)?;
        }
    }
    Ok(())
}

/// Whether one of the meetings has the room.
fn is_held(events: &[u32], rooms: &[u32], room: u32) -> bool {
    for event in events {
        let entry = value_at(rooms, *event, 0);
        if entry != 0 && entry - 1 == room {
            return true;
        }
    }
    false
}

/// Says of the rooms that they must be matched where the entries use them wholly.
fn need_full(p: &Problem, loads: &[i128], den: i128, places: &mut Side) {
    for room in 0..p.room_count() {
        if value_at(loads, room, 0) == den {
            places.need(room);
        }
    }
}

/// How much of a meeting the entries cover.
fn load_of(uses: &[Use]) -> i128 {
    let mut load = 0i128;
    for found in uses {
        load = load.saturating_add(found.part);
    }
    load
}

/// Gives each meeting the room that it is matched with.
fn give_rooms(p: &Problem, meetings: &Side, rooms: &mut [u32]) {
    for event in 0..p.event_count() {
        if let Some(room) = meetings.mate(event) {
            set_room(rooms, event, room.saturating_add(1));
        }
    }
}

/// Sets the entry of the meeting.
fn set_room(rooms: &mut [u32], event: u32, entry: u32) {
    if let Some(place) = rooms.get_mut(event as usize) {
        *place = entry;
    }
}
