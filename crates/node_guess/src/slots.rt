use crate::guess::Guess;
use crate::lists::{item_at, put};
use crate::reading::{pattern_of, row_of, weight_of};
use crate::singles::{Layout, Single, singles};
use duality::{Leaf, Objective, RowName, Term};
use packing_model::{Model, ObjectiveAt, Row};
use problem_core::{Choice, Memory};
use room_assignment::{Assignment, Edge, assign};
use std::alloc::Global;
use values::Items;

/// The most levels of an objective.
pub const LEVELS: usize = 7;

/// Rooms for the meetings, slot by slot, that weigh most at the levels up to that of the node, compared one after
/// the other, with prices that show it.
#[derive(Drop)]
pub struct SlotRooms {
    pub layout: Layout,
    pub singles: Items<Single>,
    /// By level less 1, what its weights are multiplied by.
    pub factors: [i128; LEVELS],
    pub edges: Items<Edge>,
    pub assignment: Assignment,
}

impl SlotRooms {
    /// No rooms.
    pub fn empty(alloc: Global) -> SlotRooms {
        SlotRooms {
            layout: Layout {
                events: 0,
                places: 0,
            },
            singles: Items::new(alloc),
            factors: [0; LEVELS],
            edges: Items::new(alloc),
            assignment: Assignment {
                chosen: Items::new(alloc),
                left: Items::new(alloc),
                right: Items::new(alloc),
            },
        }
    }

    /// Gives the rooms of the levels up to this one, where each meeting takes one slot; false where one takes
    /// several. At these levels patterns must weigh what their meetings do. It fails only where memory runs out.
    ///
    /// The weights of all levels make one: each is multiplied by so much that all that follows weighs less. In each
    /// slot this is an assignment problem, whose prices are multipliers of the rows of events and of rooms and slots.
    pub fn fill<O: Objective>(
        &mut self,
        alloc: Global,
        at: &ObjectiveAt<O>,
        level: u32,
    ) -> Result<bool, Memory> {
        self.layout = Layout::of(at.model);
        match singles(alloc, at.model, self.layout)? {
            Some(singles) => self.singles = singles,
            None => return Ok(false),
        }
        self.factors = factors(at, level, self.singles.as_slice());
        self.add_edges(at, level)?;
        self.assignment = assign(
            alloc,
            self.layout.events,
            self.layout.place_count(),
            self.edges.as_slice(),
        )?;
        Ok(true)
    }

    /// Adds the edges of the graph of meetings and of rooms by slot.
    fn add_edges<O: Objective>(&mut self, at: &ObjectiveAt<O>, level: u32) -> Result<(), Memory> {
        for single in self.singles.as_slice() {
            self.edges.push(Edge {
                left: single.event,
                right: single.place.saturating_sub(self.layout.events),
                weight: combined(at, level, &self.factors, single.pattern),
            })?;
        }
        Ok(())
    }
}

/// By level, a factor so large that it outweighs all levels behind it in a slot.
fn factors<O: Objective>(at: &ObjectiveAt<O>, level: u32, singles: &[Single]) -> [i128; LEVELS] {
    let rooms = i128::from(at.model.problem().room_count());
    let mut factors = [0; LEVELS];
    let mut factor: i128 = 1;
    for below in 0..level {
        let number = level - below;
        put(&mut factors, number - 1, factor);
        let most = i128::from(largest(at, number, singles)).wrapping_mul(2);
        factor = factor.wrapping_mul(rooms.wrapping_mul(most).wrapping_add(1));
    }
    factors
}

/// The largest size of a weight at the level.
fn largest<O: Objective>(at: &ObjectiveAt<O>, level: u32, singles: &[Single]) -> u64 {
    let mut most = 0;
    for single in singles {
        most = most.max(weight_of(at, level, single.pattern).unsigned_abs());
    }
    most
}

/// What the pattern weighs at all levels up to this one, each times its factor.
pub fn combined<O: Objective>(
    at: &ObjectiveAt<O>,
    level: u32,
    factors: &[i128],
    pattern: u32,
) -> i128 {
    let mut sum: i128 = 0;
    for below in 0..level {
        let weight = i128::from(weight_of(at, below + 1, pattern));
        sum = sum.wrapping_add(weight.wrapping_mul(item_at(factors, below, 0)));
    }
    sum
}

impl SlotRooms {
    /// What the rooms weigh at the level.
    pub fn weight<O: Objective>(&self, at: &ObjectiveAt<O>, level: u32) -> i64 {
        let mut sum: i64 = 0;
        for number in self.assignment.chosen.as_slice() {
            if let Some(single) = self.single(*number) {
                sum = sum.wrapping_add(weight_of(at, level, single.pattern));
            }
        }
        sum
    }

    /// The pattern of an edge.
    pub fn single(&self, edge: Option<u32>) -> Option<Single> {
        match self.singles.as_slice().get(edge? as usize) {
            Some(single) => Some(*single),
            None => None,
        }
    }

    /// The choice of these rooms.
    pub fn choice(&self, alloc: Global, model: &Model) -> Result<Guess, Memory> {
        let count = model.problem().event_count();
        let mut rooms = vec![in alloc; 0; count as usize]?;
        for number in self.assignment.chosen.as_slice() {
            if let Some(single) = self.single(*number) {
                give_room(model, &mut rooms, single);
            }
        }
        Ok(Guess::Choice(Choice {
            entries: Items::from(rooms),
        }))
    }

    /// The leaf of the prices at the level: the factors of the levels below, negated, are the multipliers of
    /// their rows.
    pub fn leaf(&self, alloc: Global, level: u32) -> Result<Guess, Memory> {
        let mut terms = Items::new(alloc);
        push_prices(&mut terms, 0, self.assignment.left.as_slice())?;
        push_prices(
            &mut terms,
            self.layout.events,
            self.assignment.right.as_slice(),
        )?;
        for below in 1..level {
            let zero: i128 = 0;
            let times = zero.wrapping_sub(item_at(&self.factors, below - 1, 0));
            push_term(&mut terms, RowName::Level(below), times)?;
        }
        Ok(Guess::Leaf(Leaf { scale: 1, terms }))
    }
}

/// Gives the meeting of the pattern its room.
fn give_room(model: &Model, rooms: &mut [u32], single: Single) {
    if let Some(Row::Event(event)) = row_of(model, single.event) {
        let room = pattern_of(model, single.pattern).room;
        put(rooms, event, room.wrapping_add(1));
    }
}

/// Adds the prices of base rows from the first on.
fn push_prices(terms: &mut Items<Term>, first: u32, prices: &[i128]) -> Result<(), Memory> {
    let mut row = first;
    for price in prices {
        push_term(terms, RowName::Base(row), *price)?;
        row = row.wrapping_add(1);
    }
    Ok(())
}

/// Adds the term, unless its multiplier is 0.
pub fn push_term(terms: &mut Items<Term>, row: RowName, times: i128) -> Result<(), Memory> {
    if times != 0 {
        terms.push(Term { row, times })?;
    }
    Ok(())
}
