use crate::face::Face;
use crate::ground::{Ground, Pair};
use crate::lists::{item_at, put};
use crate::reading::{pattern_of, row_of};
use crate::relaxed::NONE;
use duality::Objective;
use packing_model::{Model, ObjectiveAt, Row};
use problem_core::{Choice, Memory};
use std::alloc::Global;
use values::Items;

/// The draws of a round, in which the odds of a walk stay the same.
const ROUND: u64 = 1_000;

/// The odds at a walk's beginning, in millionths.
const ODDS: u64 = 50_000;

/// Rooms of the meetings, and how many meetings each course has in each room.
#[derive(Drop)]
pub struct Rooms {
    /// By event row, its room or `NONE`.
    rooms: Vec<u32>,
    /// By base row of a room and slot, the event row there or `NONE`.
    events: Vec<u32>,
    /// By course and room, the meetings.
    counts: Vec<u32>,
    /// How many pairs of course and room have meetings.
    pub used: u32,
}

/// A meeting leaves a room for another; `NONE` stands for no room.
#[derive(Clone, Copy)]
struct Change {
    event: u32,
    from: u32,
    to: u32,
}

/// The change of nothing.
const STAY: Change = Change {
    event: NONE,
    from: NONE,
    to: NONE,
};

impl Rooms {
    /// No meeting has a room.
    fn empty<O: Objective>(
        alloc: Global,
        at: &ObjectiveAt<O>,
        ground: &Ground,
    ) -> Result<Rooms, Memory> {
        let courses = at.model.problem().course_count();
        let size = courses.wrapping_mul(ground.rooms);
        Ok(Rooms {
            rooms: vec![in alloc; NONE; ground.event_count()]?,
            events: vec![in alloc; NONE; at.model.base_len() as usize]?,
            counts: vec![in alloc; 0; size as usize]?,
            used: 0,
        })
    }

    /// The rooms that the face's assignment gives.
    pub fn of_face<O: Objective>(
        alloc: Global,
        at: &ObjectiveAt<O>,
        face: &Face,
        ground: &Ground,
    ) -> Result<Rooms, Memory> {
        let mut rooms = Rooms::empty(alloc, at, ground)?;
        for number in face.rooms.assignment.chosen.as_slice() {
            if let Some(single) = face.rooms.single(*number) {
                let room = pattern_of(at.model, single.pattern).room;
                rooms.add(ground, single.event, room);
                rooms.put(ground, single.event, room);
            }
        }
        Ok(rooms)
    }

    /// The same rooms.
    pub fn copy(&self, alloc: Global) -> Result<Rooms, Memory> {
        Ok(Rooms {
            rooms: Vec::from_slice(alloc, &self.rooms)?,
            events: Vec::from_slice(alloc, &self.events)?,
            counts: Vec::from_slice(alloc, &self.counts)?,
            used: self.used,
        })
    }

    /// The event's room, or `NONE`.
    fn room(&self, event: u32) -> u32 {
        item_at(&self.rooms, event, NONE)
    }

    /// Gives the event the room, or none where it is none.
    fn put(&mut self, ground: &Ground, event: u32, room: u32) {
        put(&mut self.rooms, event, room);
        if room != NONE {
            put(&mut self.events, ground.place(event, room), event);
        }
    }

    /// Notes that the event is no longer in the room, if it is one.
    fn leave(&mut self, ground: &Ground, event: u32, room: u32) {
        if room != NONE {
            put(&mut self.events, ground.place(event, room), NONE);
        }
    }

    /// Counts one meeting more of the event's course in the room, if it is one.
    #[inline]
    fn add(&mut self, ground: &Ground, event: u32, room: u32) {
        if room == NONE {
            return;
        }
        let at = ground
            .course(event)
            .wrapping_mul(ground.rooms)
            .wrapping_add(room);
        let count = item_at(&self.counts, at, 0);
        if count == 0 {
            self.used = self.used.wrapping_add(1);
        }
        put(&mut self.counts, at, count.wrapping_add(1));
    }

    /// Counts one meeting less of the event's course in the room, if it is one.
    #[inline]
    fn take(&mut self, ground: &Ground, event: u32, room: u32) {
        if room == NONE {
            return;
        }
        let at = ground
            .course(event)
            .wrapping_mul(ground.rooms)
            .wrapping_add(room);
        let count = item_at(&self.counts, at, 0);
        if count == 1 {
            self.used = self.used.wrapping_sub(1);
        }
        put(&mut self.counts, at, count.wrapping_sub(1));
    }

    /// The choice of these rooms.
    pub fn choice(&self, alloc: Global, model: &Model) -> Result<Choice, Memory> {
        let count = model.problem().event_count();
        let mut entries = vec![in alloc; 0; count as usize]?;
        let mut row = 0;
        for room in &self.rooms {
            if let Some(Row::Event(event)) = row_of(model, row) {
                if *room != NONE {
                    put(&mut entries, event, room.wrapping_add(1));
                }
            }
            row = row.wrapping_add(1);
        }
        Ok(Choice {
            entries: Items::from(entries),
        })
    }
}

/// A walk: the rooms where it stands, and the best that it met.
#[derive(Drop)]
struct Walk {
    rooms: Rooms,
    best: Rooms,
    /// The changes that are tried, so many of the list; it has room for one of each event.
    changes: Vec<Change>,
    tried: u32,
    /// The last pseudo-random number.
    state: u64,
    /// The odds of what uses one pair of course and room more, in millionths.
    odds: u64,
}

/// The best rooms of so many draws from these on, in whole rounds: those with the fewest pairs of course and room. It
/// ends where no more than `goal` pairs are used. What uses no more pairs is made, what uses one or two more with odds
/// that fall (simulated annealing: Kirkpatrick, Gelatt and Vecchi, 1983). It fails only where memory runs out.
pub fn walked(
    alloc: Global,
    ground: &Ground,
    start: &Rooms,
    draws: u64,
    seed: u64,
    goal: u32,
) -> Result<Rooms, Memory> {
    let mut walk = Walk {
        rooms: start.copy(alloc)?,
        best: start.copy(alloc)?,
        changes: vec![in alloc; STAY; ground.event_count()]?,
        tried: 0,
        state: seed,
        odds: 0,
    };
    let rounds = draws / ROUND;
    for round in 0..rounds {
        if walk.best.used <= goal {
            break;
        }
        walk.odds = odds(rounds - round, rounds);
        walk.go_round(alloc, ground, goal)?;
    }
    Ok(walk.best)
}

/// The odds where so many of the rounds are left: they fall by the square of these.
fn odds(left: u64, rounds: u64) -> u64 {
    let all = rounds.wrapping_mul(rounds);
    left.wrapping_mul(left).wrapping_mul(ODDS) / all.max(1)
}

/// The next pseudo-random number (xorshift: Marsaglia, 2003).
fn next(state: u64) -> u64 {
    let first = state ^ (state << 13);
    let second = first ^ (first >> 7);
    second ^ (second << 17)
}

impl Walk {
    /// Makes the draws of a round, or fewer where the goal is met.
    fn go_round(&mut self, alloc: Global, ground: &Ground, goal: u32) -> Result<(), Memory> {
        for _ in 0..ROUND {
            self.step(ground);
            if self.rooms.used < self.best.used {
                self.best = self.rooms.copy(alloc)?;
            }
            if self.best.used <= goal {
                break;
            }
        }
        Ok(())
    }

    /// Draws a pair and what is tried with it, and makes it or not.
    fn step(&mut self, ground: &Ground) {
        self.state = next(self.state);
        self.tried = 0;
        let Some(pair) = ground.pair(self.state >> 32) else {
            return;
        };
        if !self.propose(ground, pair) {
            return;
        }
        let before = self.rooms.used;
        self.count(ground);
        if self.is_taken(self.rooms.used.saturating_sub(before)) {
            self.move_out(ground);
            self.move_in(ground);
        } else {
            self.count_back(ground);
        }
    }

    /// Notes the changes that are drawn, by the last two bits of the number: the pair's meeting to a room that its
    /// course has already, the meeting to the pair's room, or all meetings of the course that share its room. False
    /// where they can't be made.
    fn propose(&mut self, ground: &Ground, pair: Pair) -> bool {
        match self.state & 3 {
            0 => {
                let room = self.room_of_mate(ground, pair.event);
                self.exchange(ground, pair.event, room)
            }
            1 => self.exchange(ground, pair.event, pair.room),
            _ => self.exchange_all(ground, pair),
        }
    }

    /// The room of an event of the event's course that is drawn, or `NONE`.
    fn room_of_mate(&self, ground: &Ground, event: u32) -> u32 {
        let mates = ground.mates(event);
        let drawn = (self.state >> 2) & 0xffff;
        let at = drawn.wrapping_mul(mates.len() as u64) >> 16;
        match mates.get(at as usize) {
            Some(mate) => self.rooms.room(*mate),
            None => NONE,
        }
    }

    /// Notes that the event gets the room, and who is there the event's; false where it has that room already, or
    /// what must be met would be left out.
    fn exchange(&mut self, ground: &Ground, event: u32, room: u32) -> bool {
        let old = self.rooms.room(event);
        if room == NONE || room == old {
            return false;
        }
        let place = ground.place(event, room);
        let other = item_at(&self.rooms.events, place, NONE);
        if place == NONE || !is_lawful(ground, event, old, other) {
            return false;
        }
        self.note(event, old, room);
        if other != NONE {
            self.note(other, room, old);
        }
        true
    }

    /// Notes that all events of the course that are where the pair's is get the pair's room.
    fn exchange_all(&mut self, ground: &Ground, pair: Pair) -> bool {
        let old = self.rooms.room(pair.event);
        if old == NONE {
            return self.exchange(ground, pair.event, pair.room);
        }
        for mate in ground.mates(pair.event) {
            let is_there = self.rooms.room(*mate) == old;
            if is_there && !self.exchange(ground, *mate, pair.room) {
                return false;
            }
        }
        true
    }

    /// Notes the change.
    fn note(&mut self, event: u32, from: u32, to: u32) {
        put(&mut self.changes, self.tried, Change { event, from, to });
        self.tried = self.tried.wrapping_add(1);
    }

    /// The change of this number.
    fn change(&self, number: u32) -> Change {
        item_at(&self.changes, number, STAY)
    }

    /// Counts the meetings as they are behind the changes.
    fn count(&mut self, ground: &Ground) {
        for number in 0..self.tried {
            let change = self.change(number);
            self.rooms.add(ground, change.event, change.to);
            self.rooms.take(ground, change.event, change.from);
        }
    }

    /// Counts the meetings as they were before the changes.
    fn count_back(&mut self, ground: &Ground) {
        for number in 0..self.tried {
            let change = self.change(number);
            self.rooms.add(ground, change.event, change.from);
            self.rooms.take(ground, change.event, change.to);
        }
    }

    /// Moves the meetings of the changes out of their rooms.
    fn move_out(&mut self, ground: &Ground) {
        for number in 0..self.tried {
            let change = self.change(number);
            self.rooms.leave(ground, change.event, change.from);
        }
    }

    /// Moves the meetings of the changes into their new rooms.
    fn move_in(&mut self, ground: &Ground) {
        for number in 0..self.tried {
            let change = self.change(number);
            self.rooms.put(ground, change.event, change.to);
        }
    }

    /// Whether changes are made that use so many pairs more: where it is one or two, by the next number.
    fn is_taken(&mut self, more: u32) -> bool {
        let odds = match more {
            0 => return true,
            1 => self.odds,
            2 => self.odds.wrapping_mul(self.odds) / 1_000_000,
            _ => return false,
        };
        self.state = next(self.state);
        let drawn = (self.state >> 32).wrapping_mul(1_000_000) >> 32;
        drawn < odds
    }
}

/// Whether the event may leave its room, and the other one get it; `NONE` stands for no room, and no other event.
fn is_lawful(ground: &Ground, event: u32, old: u32, other: u32) -> bool {
    match (old == NONE, other == NONE) {
        (true, true) => true,
        (true, false) => !ground.is_tight(other),
        (false, true) => !ground.is_tight(ground.place(event, old)),
        (false, false) => ground.place(other, old) != NONE,
    }
}
