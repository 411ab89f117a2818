ghost use Rattle.std.specs.Prelude.{◌≡◌, ◌<◌, ◌≤◌, ◌+◌, ◌-◌, ◌++◌, ◌^◌, IfOk, OnOk, length, true};
ghost use Rattle.duality.specs.declared.row.RowName.TheVariants.{Level};
ghost use Rattle.packing_model.specs.Built.{packing, rows_of};
ghost use Rattle.packing_model.specs.Closing.{counted};
ghost use Rattle.packing_model.specs.Nodes.{stage_at};
ghost use Rattle.node_bound.specs.Fixed.{IsNode};
ghost use Rattle.node_bound.specs.Places.{AreOf, IsLayout, base_place, is_placed, later_row, level_names, level_place, names_in, number_of_row, place_of, row_count, stretch_from};

use duality::{FLOOR_LEVEL, Objective, RowName};
use packing_model::{Model, ObjectiveAt, Row};
use problem_core::Memory;
use std::alloc::Global;
use values::Items;

/// The most level rows that stand before the rows of courses and rooms: at the levels up to the fifth of the
/// measures all of them, since their gains add up over meetings.
const MOST_LOW: u32 = 4;

/// Where the rows of a node's task stand: the leading base rows (those of events, and of rooms and slots), the
/// low level rows, the other base rows, the cuts, the other level rows, the floor.
#[derive(Clone, Copy)]
pub(crate) struct Places {
    /// The number of leading base rows.
    pub lead: u32,
    /// The number of low level rows.
    pub low: u32,
    /// The number of base rows.
    pub base: u32,
    pub cuts: u32,
    pub level: u32,
    pub has_floor: bool,
}

impl Places {
    /// The places of the rows of the node.
    pub(crate) fn of<O: Objective>(at: &ObjectiveAt<O>) -> Places
        requires { IsNode at.now.model.now (O.count at.now.objective.now) (O.levels at.now.objective.now) at.now.level at.now.targets.now at.now.fixing.now }
        ensures { AreOf (packing at.now.model.now) (counted (O.weight at.now.objective.now) (O.floor at.now.objective.now)) (stage_at at.now.level at.now.targets.now at.now.best at.now.pool.now) result }
    {
        let has_floor = at.objective.has_floor();
        Places {
            lead: leading_rows(at.model),
            low: low_levels(at.level, has_floor),
            base: at.model.base_len(),
            cuts: at.pool.len(),
            level: at.level,
            has_floor,
        }
    }

    /// The number of rows.
    pub(crate) fn len(&self) -> usize
        requires { IsLayout self.now }
        ensures { result ≡ row_count self.now }
    {
        let floor = u32::from(self.has_floor);
        (self.base + self.cuts + (self.level - 1) + floor) as usize
    }

    /// Whether the row is one of the task's.
    pub(crate) fn has(&self, row: RowName) -> bool
        ensures { result ≡ is_placed self.now row }
    {
        match row {
            RowName::Base(row) => row < self.base,
            RowName::Cut(cut) => cut < self.cuts,
            RowName::Level(level) => self.has_level(level),
        }
    }

    /// Whether the level's row is one of the task's.
    fn has_level(&self, level: u32) -> bool
        ensures { result ≡ is_placed self.now (Level level) }
    {
        if level == FLOOR_LEVEL {
            self.has_floor
        } else {
            1 <= level && level < self.level
        }
    }

    /// The place of the row.
    pub(crate) fn place(&self, row: RowName) -> usize
        requires layout { IsLayout self.now }
        requires placed { is_placed self.now row ≡ true }
        ensures { result ≡ place_of self.now row }
    {
        match row {
            RowName::Base(row) => self.base_place(row),
            RowName::Cut(cut) => (self.base + self.low + cut) as usize,
            RowName::Level(level) => self.level_place(level),
        }
    }

    /// The place of the base row.
    pub(crate) fn base_place(&self, row: u32) -> usize
        requires layout { IsLayout self.now }
        requires known { row < self.now.base }
        ensures { result ≡ base_place self.now row }
    {
        if row < self.lead {
            row as usize
        } else {
            (row + self.low) as usize
        }
    }

    /// The place of the level's row.
    fn level_place(&self, level: u32) -> usize
        requires layout { IsLayout self.now }
        requires placed { is_placed self.now (Level level) ≡ true }
        ensures { result ≡ level_place self.now level }
    {
        if level == FLOOR_LEVEL {
            return (self.base + self.cuts + (self.level - 1)) as usize;
        }
        if level <= self.low {
            return (self.lead + (level - 1)) as usize;
        }
        (self.base + self.cuts + (level - 1)) as usize
    }

    /// The rows in their order.
    pub(crate) fn names(&self, alloc: Global) -> Result<Items<RowName>, Memory>
        requires { IsLayout self.now }
        ensures { IfOk result (λ names. names ≡ names_in self.now) }
    {
        let others = self.base - self.lead;
        let high = self.level - 1 - self.low;
        let mut names = Items::new(alloc);
        push_rows(&mut names, RowName::Base(0), self.lead)?;
        push_rows(&mut names, RowName::Level(1), self.low)?;
        push_rows(&mut names, RowName::Base(self.lead), others)?;
        push_rows(&mut names, RowName::Cut(0), self.cuts)?;
        push_rows(&mut names, RowName::Level(self.low + 1), high)?;
        push_rows(
            &mut names,
            RowName::Level(FLOOR_LEVEL),
            u32::from(self.has_floor),
        )?;
        Ok(names)
    }

    /// The level rows and the floor.
    pub(crate) fn levels(&self, alloc: Global) -> Result<Items<RowName>, Memory>
        requires { IsLayout self.now }
        ensures { IfOk result (λ names. names ≡ level_names self.now) }
    {
        let mut names = Items::new(alloc);
        push_rows(&mut names, RowName::Level(1), self.level - 1)?;
        push_rows(
            &mut names,
            RowName::Level(FLOOR_LEVEL),
            u32::from(self.has_floor),
        )?;
        Ok(names)
    }
}

/// Adds so many rows of one kind, from the first on.
fn push_rows(names: &mut Items<RowName>, first: RowName, count: u32) -> Result<(), Memory>
    requires { number_of_row first + count < 2 ^ 32 }
    ensures { OnOk result (names.new ≡ names.old ++ stretch_from first count) }
{
    for i in 0..count {
        names.push(later_row(first, i))?;
    }
    Ok(())
}

/// The row so many numbers on.
fn later_row(row: RowName, by: u32) -> RowName
    requires { number_of_row row + by < 2 ^ 32 }
    ensures { result ≡ later_row row by }
{
    match row {
        RowName::Base(row) => RowName::Base(row + by),
        RowName::Cut(cut) => RowName::Cut(cut + by),
        RowName::Level(level) => RowName::Level(level + by),
    }
}

/// The number of base rows before the first of a course and a room.
fn leading_rows(model: &Model) -> u32
    ensures { result ≤ length (rows_of model.now) }
{
    let count = model.base_len();
    for row in 0..count {
        if let Row::CourseRoom { .. } = model.base_row(row) {
            return row;
        }
    }
    count
}

/// The number of level rows before the rows of courses and rooms: with a floor all of them.
fn low_levels(level: u32, has_floor: bool) -> u32
    requires { 1 ≤ level }
    ensures { result ≤ level - 1 }
{
    if has_floor || level - 1 < MOST_LOW {
        level - 1
    } else {
        MOST_LOW
    }
}
