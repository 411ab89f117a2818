use crate::guess::Guess;
use crate::lists::{count_of, item_at, put};
use crate::modular::{Equation, solve_equations};
use crate::reading::pattern_of;
use crate::relaxed::{NONE, Relaxed};
use duality::Objective;
use packing_model::{Model, ObjectiveAt, Point};
use problem_core::{Choice, Memory};
use std::alloc::Global;
use std::num::saturating_f64_to_i64;
use values::Items;

/// What is nearer to a whole number than this is taken for it.
const NEAR: f64 = 0.000_001;

/// The point that the program ended at: the columns in part, and those that it has wholly.
#[derive(Drop)]
pub struct Reached {
    pub in_part: Items<u32>,
    pub wholly: Items<u32>,
}

/// The columns of the program's point.
pub fn point_reached(alloc: Global, relaxed: &Relaxed) -> Result<Reached, Memory> {
    let mut reached = Reached {
        in_part: Items::new(alloc),
        wholly: Items::new(alloc),
    };
    let point = relaxed.now.simplex.point(alloc)?;
    for entry in point.as_slice() {
        if entry.1 > 1.0 - NEAR {
            reached.wholly.push(entry.0)?;
        } else {
            reached.in_part.push(entry.0)?;
        }
    }
    Ok(reached)
}

/// The choice of the patterns that the point has wholly, and of those that are taken.
pub fn whole_choice<O: Objective>(
    alloc: Global,
    at: &ObjectiveAt<O>,
    relaxed: &Relaxed,
    reached: &Reached,
) -> Result<Guess, Memory> {
    let count = at.model.problem().event_count();
    let mut rooms = vec![in alloc; 0; count as usize]?;
    for column in reached.wholly.as_slice() {
        give_rooms(at.model, &mut rooms, relaxed.pattern(*column));
    }
    for pattern in at.fixing.one.as_slice() {
        give_rooms(at.model, &mut rooms, *pattern);
    }
    Ok(Guess::Choice(Choice {
        entries: Items::from(rooms),
    }))
}

/// Gives the meetings of the pattern its room.
pub fn give_rooms(model: &Model, rooms: &mut [u32], pattern: u32) {
    let found = pattern_of(model, pattern);
    if found.course >= model.problem().course_count() {
        return;
    }
    let mut rest = found.mask;
    for event in model.problem().events_of(found.course) {
        if rest % 2 == 1 {
            put(rooms, *event, found.room.wrapping_add(1));
        }
        rest /= 2;
    }
}

/// The point in exact fractions: the columns in part solve the equations of the rows that are met wholly. `None`
/// where the fractions are not small. It fails only where memory runs out.
pub fn exact_point<O: Objective>(
    alloc: Global,
    at: &ObjectiveAt<O>,
    relaxed: &Relaxed,
    reached: &Reached,
) -> Result<Option<Guess>, Memory> {
    let count = relaxed.now.simplex.column_count() as usize;
    let mut unknowns = vec![in alloc; NONE; count]?;
    number_unknowns(&mut unknowns, reached.in_part.as_slice());
    let mut wholly = vec![in alloc; false; count]?;
    for column in reached.wholly.as_slice() {
        put(&mut wholly, *column, true);
    }
    let equations = equations(alloc, relaxed, &unknowns, &wholly)?;
    let number = count_of(reached.in_part.as_slice());
    match solve_equations(alloc, number, equations.as_slice())? {
        Some(solution) => {
            let values = solution.values.as_slice();
            let point = point(alloc, at, relaxed, reached, solution.denominator, values)?;
            Ok(Some(point))
        }
        None => Ok(None),
    }
}

/// Numbers the columns in part as unknowns.
fn number_unknowns(unknowns: &mut [u32], columns: &[u32]) {
    let mut number = 0;
    for column in columns {
        put(unknowns, *column, number);
        number = number.wrapping_add(1);
    }
}

/// The equations of the rows that are met wholly and have a column in part; those with few of them first.
fn equations(
    alloc: Global,
    relaxed: &Relaxed,
    unknowns: &[u32],
    wholly: &[bool],
) -> Result<Items<Equation>, Memory> {
    let mut equations = Items::new(alloc);
    let rows = relaxed.now.simplex.tight_rows(alloc)?;
    let mut keyed = Vec::new(alloc);
    for row in rows.as_slice() {
        let length = count_of(relaxed.now.simplex.columns_of(*row));
        if keyed.push((length, *row)).is_err() {
            return Err(Memory);
        }
    }
    keyed.sort()?;
    for key in keyed.as_slice() {
        let equation = equation(alloc, relaxed, unknowns, wholly, key.1)?;
        if !equation.unknowns.as_slice().is_empty() {
            equations.push(equation)?;
        }
    }
    Ok(equations)
}

/// The equation of the row.
fn equation(
    alloc: Global,
    relaxed: &Relaxed,
    unknowns: &[u32],
    wholly: &[bool],
    row: u32,
) -> Result<Equation, Memory> {
    let mut side = saturating_f64_to_i64(relaxed.now.simplex.side(row));
    let mut found = Items::new(alloc);
    for column in relaxed.now.simplex.columns_of(row) {
        let unknown = item_at(unknowns, *column, NONE);
        if unknown != NONE {
            found.push(unknown)?;
        }
        if item_at(wholly, *column, false) {
            side = side.wrapping_sub(1);
        }
    }
    Ok(Equation {
        unknowns: found,
        side,
    })
}

/// The point of these values, with the patterns that it has wholly and those that are taken.
fn point<O: Objective>(
    alloc: Global,
    at: &ObjectiveAt<O>,
    relaxed: &Relaxed,
    reached: &Reached,
    denominator: i128,
    values: &[i128],
) -> Result<Guess, Memory> {
    let mut entries = Items::new(alloc);
    for column in reached.wholly.as_slice() {
        entries.push((relaxed.pattern(*column), denominator))?;
    }
    for pattern in at.fixing.one.as_slice() {
        entries.push((*pattern, denominator))?;
    }
    let mut number = 0;
    for column in reached.in_part.as_slice() {
        let value = item_at(values, number, 0);
        if value != 0 {
            entries.push((relaxed.pattern(*column), value))?;
        }
        number = number.wrapping_add(1);
    }
    let mut entries = entries.into_vec();
    entries.sort()?;
    Ok(Guess::Point(Point {
        den: denominator,
        entries: Items::from(entries),
    }))
}
