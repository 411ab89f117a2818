ghost use Rattle.std.specs.Prelude.{◌≡◌, ◌<◌, [], IfOk, true};
ghost use Rattle.measure_file.specs.Grammar.{with_preference, with_length};
ghost use Rattle.measure_file.specs.Marks.{IsUnmarked, has_place, pair_place};
ghost use Rattle.measure_file.specs.Steps.{Adds};

use crate::faults::EntryFault;
use input_core::{LineKind, Memory};
use std::alloc::Global;
use std::marker::Model;
use values::Items;

/// The most courses.
const COURSES: usize = 1_000;

/// The most rooms.
const ROOMS: usize = 200;

/// Preferences, with a table of the courses and rooms that have one. Contracts see the list of preferences.
#[derive(Drop)]
pub struct Preferences {
    rows: Items<(u32, u32, i32)>,
    marks: Vec<bool>,
}

impl Model for Preferences {
    ghost use Rattle.std.specs.Prelude.{List, ℕ, ℤ};
    ghost use Rattle.measure_file.specs.Marks.{ArePreferred};

    ghost Value = { List (ℕ × ℕ × ℤ) };

    ghost view = { λ p. p.rows };

    ghost invariant = { λ p. ArePreferred p.rows p.marks.items };
}

impl Preferences {
    /// No preferences.
    pub fn new(alloc: Global) -> Result<Preferences, Memory>
        ensures { IfOk result (λ p. p ≡ []) }
    {
        Ok(Preferences {
            rows: Items::new(alloc),
            marks: no_marks(alloc, COURSES * ROOMS)?,
        })
    }

    /// Adds a preference, where its course and room have none.
    pub fn add(&mut self, row: (u32, u32, i32)) -> Result<(), EntryFault>
        requires { has_place row ≡ true }
        ensures { Adds (with_preference self.old row) result self.new }
    {
        let place = pair_place(row);
        if self.marks[place] {
            return Err(EntryFault::Kind(LineKind::Repeated));
        }
        self.rows.push(row)?;
        self.marks[place] = true;
        Ok(())
    }

    /// The preferences.
    pub fn into_rows(self) -> Items<(u32, u32, i32)>
        ensures { result ≡ self }
    {
        let Preferences { rows, marks: _ } = self;
        rows
    }
}

/// Lengths of courses, with a table of the courses that have one. Contracts see the list of lengths.
#[derive(Drop)]
pub struct Lengths {
    rows: Items<(u32, u32)>,
    marks: Vec<bool>,
}

impl Model for Lengths {
    ghost use Rattle.std.specs.Prelude.{List, ℕ};
    ghost use Rattle.measure_file.specs.Marks.{AreMarks, course_place};

    ghost Value = { List (ℕ × ℕ) };

    ghost view = { λ l. l.rows };

    ghost invariant = { λ l. AreMarks 1000 course_place l.rows l.marks.items };
}

impl Lengths {
    /// No lengths.
    pub fn new(alloc: Global) -> Result<Lengths, Memory>
        ensures { IfOk result (λ l. l ≡ []) }
    {
        Ok(Lengths {
            rows: Items::new(alloc),
            marks: no_marks(alloc, COURSES)?,
        })
    }

    /// Adds the length of a course, where it has none.
    pub fn add(&mut self, row: (u32, u32)) -> Result<(), EntryFault>
        requires { row.0 < 1000 }
        ensures { Adds (with_length self.old row) result self.new }
    {
        let course = row.0 as usize;
        if self.marks[course] {
            return Err(EntryFault::Kind(LineKind::Repeated));
        }
        self.rows.push(row)?;
        self.marks[course] = true;
        Ok(())
    }

    /// The lengths.
    pub fn into_rows(self) -> Items<(u32, u32)>
        ensures { result ≡ self }
    {
        let Lengths { rows, marks: _ } = self;
        rows
    }
}

fn pair_place(row: (u32, u32, i32)) -> usize
    requires { has_place row ≡ true }
    ensures { result ≡ pair_place row }
{
    row.0 as usize * ROOMS + row.1 as usize
}

fn no_marks(alloc: Global, count: usize) -> Result<Vec<bool>, Memory>
    ensures { IfOk result (λ marks. IsUnmarked count marks.items) }
{
    Ok(vec![in alloc; false; count]?)
}
