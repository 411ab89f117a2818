use crate::face::Face;
use crate::lists::{item_at, put};
use crate::reading::pattern_of;
use crate::relaxed::NONE;
use duality::Objective;
use packing_model::ObjectiveAt;
use problem_core::Memory;
use std::alloc::Global;
use values::Items;

/// A meeting's row with a room that it may have.
#[derive(Clone, Copy)]
pub struct Pair {
    pub event: u32,
    pub room: u32,
}

/// Where meetings may be, and which of them and of the rooms and slots can't be left out.
#[derive(Drop)]
pub struct Ground {
    pub rooms: u32,
    /// The pairs of meeting and room, without meetings that have one room and can't be left out.
    pairs: Items<Pair>,
    /// By event row and room, the row of room and slot, or `NONE`.
    places: Vec<u32>,
    /// By event row, how many rooms it may have.
    choices: Vec<u32>,
    /// By event row, its course or `NONE`.
    courses: Vec<u32>,
    /// By course, the rows of its events that may have a room.
    mates: Vec<Items<u32>>,
    /// By base row, whether it must be met.
    tight: Vec<bool>,
}

impl Ground {
    /// The pairs of meeting and room that cost nothing in the face.
    pub fn new<O: Objective>(
        alloc: Global,
        at: &ObjectiveAt<O>,
        face: &Face,
    ) -> Result<Ground, Memory> {
        let rooms = at.model.problem().room_count();
        let events = face.rooms.layout.events;
        let size = rooms.wrapping_mul(events);
        let mut ground = Ground {
            rooms,
            pairs: Items::new(alloc),
            places: vec![in alloc; NONE; size as usize]?,
            choices: vec![in alloc; 0; events as usize]?,
            courses: vec![in alloc; NONE; events as usize]?,
            mates: no_mates(alloc, at.model.problem().course_count())?,
            tight: vec![in alloc; false; at.model.base_len() as usize]?,
        };
        ground.set_tight(face, at.model.base_len());
        ground.set_places(at, face);
        ground.add_mates(events)?;
        ground.add_pairs(at, face)?;
        Ok(ground)
    }

    /// Notes which of the base rows must be met.
    fn set_tight(&mut self, face: &Face, rows: u32) {
        for row in 0..rows {
            put(&mut self.tight, row, face.is_tight(row));
        }
    }

    /// Notes the courses and the places of all meetings.
    fn set_places<O: Objective>(&mut self, at: &ObjectiveAt<O>, face: &Face) {
        for single in face.rooms.singles.as_slice() {
            let pattern = pattern_of(at.model, single.pattern);
            put(&mut self.courses, single.event, pattern.course);
            if face.cost(at, single.pattern) == 0 {
                let count = item_at(&self.choices, single.event, 0);
                put(&mut self.choices, single.event, count.wrapping_add(1));
                let place = self.at(single.event, pattern.room);
                put(&mut self.places, place, single.place);
            }
        }
    }

    /// Adds each of so many events that may have a room to the list of its course.
    fn add_mates(&mut self, events: u32) -> Result<(), Memory> {
        for event in 0..events {
            let course = self.course(event);
            if item_at(&self.choices, event, 0) == 0 {
                continue;
            }
            if let Some(list) = self.mates.get_mut(course as usize) {
                list.push(event)?;
            }
        }
        Ok(())
    }

    /// Adds the pairs of all meetings that may change.
    fn add_pairs<O: Objective>(&mut self, at: &ObjectiveAt<O>, face: &Face) -> Result<(), Memory> {
        for single in face.rooms.singles.as_slice() {
            let pair = Pair {
                event: single.event,
                room: pattern_of(at.model, single.pattern).room,
            };
            let is_fixed = self.is_tight(pair.event) && item_at(&self.choices, pair.event, 0) == 1;
            if !is_fixed && self.place(pair.event, pair.room) != NONE {
                self.pairs.push(pair)?;
            }
        }
        Ok(())
    }

    /// The number of pairs.
    pub fn pair_count(&self) -> u64 {
        self.pairs.len() as u64
    }

    /// The number of events.
    pub fn event_count(&self) -> usize {
        self.courses.len()
    }

    /// The pair that a number below 2^32 draws, where there is one.
    pub fn pair(&self, drawn: u64) -> Option<Pair> {
        let at = drawn.wrapping_mul(self.pair_count()) >> 32;
        match self.pairs.as_slice().get(at as usize) {
            Some(pair) => Some(*pair),
            None => None,
        }
    }

    /// The place of the event and the room in the table.
    fn at(&self, event: u32, room: u32) -> u32 {
        event.wrapping_mul(self.rooms).wrapping_add(room)
    }

    /// The row of the room and the event's slot, or `NONE` where the event can't be there.
    pub fn place(&self, event: u32, room: u32) -> u32 {
        item_at(&self.places, self.at(event, room), NONE)
    }

    /// Whether the row must be met.
    pub fn is_tight(&self, row: u32) -> bool {
        item_at(&self.tight, row, false)
    }

    /// The event's course.
    pub fn course(&self, event: u32) -> u32 {
        item_at(&self.courses, event, NONE)
    }

    /// The rows of all events of the event's course.
    pub fn mates(&self, event: u32) -> &[u32] {
        match self.mates.get(self.course(event) as usize) {
            Some(list) => list.as_slice(),
            None => &[],
        }
    }
}

/// An empty list for each of so many courses.
fn no_mates(alloc: Global, courses: u32) -> Result<Vec<Items<u32>>, Memory> {
    let mut mates = Vec::new(alloc);
    for _ in 0..courses {
        if mates.push(Items::new(alloc)).is_err() {
            return Err(Memory);
        }
    }
    Ok(mates)
}
