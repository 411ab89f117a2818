ghost use Rattle.std.specs.Prelude.{◌≡◌, ◌<◌, ◌≤◌, ◌+◌, ◌*◌, ◌&&◌, ℕ, pos, nat_le, IfOk, length, slice_index, slice_index_or, slice_set};
ghost use Rattle.problem_core.specs.OfParts.{facts_of};
ghost use Rattle.problem_core.specs.Kept.{AreFit};
ghost use Rattle.problem_core.specs.Facts.{admits, seats, is_closed};
ghost use Rattle.problem_core.specs.Measures.{points_of};
ghost use Rattle.problem_core.specs.Tables.{IsGrid};

use crate::parts::Parts;
use std::alloc::{AllocError, Global};

/// The cell of the row and column.
pub fn cell<T: Copy>(cells: &[T], columns: usize, row: usize, column: usize) -> T
    requires { row * columns + column < length cells.now }
    ensures { (d : T) → result ≡ slice_index_or cells.now (row * columns + column) d }
{
    cells[row * columns + column]
}

/// Writes the cell of the row and column.
pub fn put<T: Copy>(cells: &mut Vec<T>, columns: usize, row: usize, column: usize, value: T)
    requires { row * columns + column < length cells.old.items }
    ensures { cells.new.items ≡ slice_set cells.old.items (row * columns + column) value }
{
    cells[row * columns + column] = value;
}

/// By course and room, whether the room admits the course.
pub fn admitted(alloc: Global, parts: &Parts) -> Result<Vec<bool>, AllocError>
    requires { AreFit parts.now }
    ensures { IfOk result (λ v. IsGrid v.items (length parts.now.students) (length parts.now.capacity) (admits (facts_of parts.now))) }
{
    let rooms = parts.capacity.len();
    let mut cells = seating(alloc, parts)?;
    let denied = parts.denied.as_slice();
    let mut left = denied.len();
    while 0 < left {
        left -= 1;
        let (course, room) = denied[left];
        put(&mut cells, rooms, course as usize, room as usize, false);
    }
    Ok(cells)
}

/// By course and room, whether the room seats the course and has every feature that it needs.
fn seating(alloc: Global, parts: &Parts) -> Result<Vec<bool>, AllocError>
    requires { AreFit parts.now }
    ensures { IfOk result (λ v. IsGrid v.items (length parts.now.students) (length parts.now.capacity) (seats (facts_of parts.now))) }
{
    let rooms = parts.capacity.len();
    let mut cells = Vec::new(alloc);
    for i in 0..parts.students.len() * rooms {
        cells.push(seats(parts, i / rooms, i % rooms))?;
    }
    Ok(cells)
}

fn seats(parts: &Parts, course: usize, room: usize) -> bool
    requires fit { AreFit parts.now }
    requires known { course < length parts.now.students }
    requires known_room { room < length parts.now.capacity }
    ensures { result ≡ seats (facts_of parts.now) course room }
{
    let needs = parts.needs.as_slice()[course];
    let has = parts.features.as_slice()[room];
    let seats = parts.students.as_slice()[course] <= parts.capacity.as_slice()[room];
    seats && needs & has == needs
}

/// By room and slot, whether the room is closed.
pub fn closed(alloc: Global, parts: &Parts) -> Result<Vec<bool>, AllocError>
    requires { AreFit parts.now }
    ensures { IfOk result (λ v. IsGrid v.items (length parts.now.capacity) parts.now.slots (is_closed (facts_of parts.now))) }
{
    let slots = parts.slots as usize;
    let mut cells = vec![in alloc; false; parts.capacity.len() * slots]?;
    let closed = parts.closed.as_slice();
    let mut left = closed.len();
    while 0 < left {
        left -= 1;
        let (room, slot) = closed[left];
        put(&mut cells, slots, room as usize, slot as usize, true);
    }
    Ok(cells)
}

/// By course and room, the points that are listed for them, else 0.
pub fn points(alloc: Global, parts: &Parts) -> Result<Vec<i32>, AllocError>
    requires { AreFit parts.now }
    ensures { IfOk result (λ v. IsGrid v.items (length parts.now.students) (length parts.now.capacity) (λ c r. points_of c r parts.now.prefer)) }
{
    let rooms = parts.capacity.len();
    let mut cells = vec![in alloc; 0; parts.students.len() * rooms]?;
    let prefer = parts.prefer.as_slice();
    let mut left = prefer.len();
    while 0 < left {
        left -= 1;
        let (course, room, points) = prefer[left];
        put(&mut cells, rooms, course as usize, room as usize, points);
    }
    Ok(cells)
}
