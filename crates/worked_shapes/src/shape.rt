use problem_core::{BuildFault, EventPart, Parts, Problem};
use std::alloc::{AllocError, Global};
use values::Items;

/// Courses with their meetings, and rooms.
#[derive(Clone, Copy)]
pub struct Shape<'a> {
    pub students: &'a [u32],
    pub needs: &'a [u128],
    /// Course, first slot, and number of slots.
    pub meetings: &'a [(u32, u32, u32)],
    pub capacity: &'a [u32],
    pub features: &'a [u128],
    pub slots: u32,
    /// Course and room.
    pub denied: &'a [(u32, u32)],
    /// Room and slot.
    pub closed: &'a [(u32, u32)],
    /// Course, room and points.
    pub prefer: &'a [(u32, u32, i32)],
    /// Threshold and points.
    pub robust: &'a [(u32, i32)],
}

/// One course of 10 with one meeting, and one room.
pub fn one_meeting() -> Shape<'static> {
    Shape {
        students: &[10],
        needs: &[0],
        meetings: &[(0, 0, 1)],
        capacity: &[20],
        features: &[0],
        slots: 1,
        denied: &[],
        closed: &[],
        prefer: &[],
        robust: &[],
    }
}

/// Two meetings of a course of 10; the room that just seats it is closed in the second slot.
pub fn closed_once() -> Shape<'static> {
    Shape {
        meetings: &[(0, 0, 1), (0, 1, 1)],
        capacity: &[10, 20],
        features: &[0, 0],
        slots: 2,
        closed: &[(0, 1)],
        ..one_meeting()
    }
}

/// Two courses with three rooms each that the other can't use; each room is closed in one of three slots.
pub fn two_courses() -> Shape<'static> {
    Shape {
        students: &[10, 10],
        needs: &[1, 2],
        meetings: &[
            (0, 0, 1),
            (0, 1, 1),
            (0, 2, 1),
            (1, 0, 1),
            (1, 1, 1),
            (1, 2, 1),
        ],
        capacity: &[20, 20, 20, 20, 20, 20],
        features: &[1, 1, 1, 2, 2, 2],
        slots: 3,
        closed: &[(0, 2), (1, 0), (2, 1), (3, 2), (4, 0), (5, 1)],
        ..one_meeting()
    }
}

/// Twelve courses of a department in a week of five days of four periods, and five rooms.
pub fn week() -> Shape<'static> {
    Shape {
        students: &[18, 15, 35, 38, 30, 55, 50, 90, 100, 150, 180, 36],
        needs: &[0, 0, 0, 0, 0, 0, 0, 0, 0, 0, 0, 1],
        meetings: &[
            (0, 0, 1),
            (0, 4, 1),
            (0, 8, 1),
            (0, 12, 1),
            (1, 3, 1),
            (1, 7, 1),
            (1, 11, 1),
            (2, 0, 1),
            (2, 4, 1),
            (2, 8, 1),
            (2, 12, 1),
            (3, 1, 1),
            (3, 5, 1),
            (3, 9, 1),
            (4, 2, 1),
            (4, 6, 1),
            (4, 10, 1),
            (5, 0, 1),
            (5, 4, 1),
            (5, 8, 1),
            (5, 12, 1),
            (6, 1, 1),
            (6, 5, 1),
            (6, 9, 1),
            (7, 3, 1),
            (7, 7, 1),
            (7, 11, 1),
            (8, 13, 1),
            (8, 14, 1),
            (8, 15, 1),
            (9, 4, 1),
            (9, 8, 1),
            (9, 12, 1),
            (9, 16, 1),
            (10, 17, 1),
            (10, 18, 1),
            (10, 19, 1),
            (11, 2, 1),
            (11, 6, 1),
            (11, 10, 1),
        ],
        capacity: &[20, 40, 60, 100, 200],
        features: &[0, 0, 1, 0, 0],
        slots: 20,
        denied: &[(1, 0), (8, 4)],
        closed: &[(4, 0)],
        prefer: &[(0, 0, 5), (4, 2, 2), (5, 2, 3), (10, 3, 4), (11, 2, -1)],
        robust: &[(0, 0), (100, 2), (250, 5)],
    }
}

/// The parts of the shape.
fn parts_of(alloc: Global, shape: &Shape) -> Result<Parts, AllocError> {
    Ok(Parts {
        students: Items::from_slice(alloc, shape.students)?,
        needs: Items::from_slice(alloc, shape.needs)?,
        capacity: Items::from_slice(alloc, shape.capacity)?,
        features: Items::from_slice(alloc, shape.features)?,
        slots: shape.slots,
        events: events_of(alloc, shape.meetings)?,
        denied: Items::from_slice(alloc, shape.denied)?,
        closed: Items::from_slice(alloc, shape.closed)?,
        prefer: Items::from_slice(alloc, shape.prefer)?,
        robust: Items::from_slice(alloc, shape.robust)?,
    })
}

fn events_of(alloc: Global, meetings: &[(u32, u32, u32)]) -> Result<Items<EventPart>, AllocError> {
    let mut events = Items::new(alloc);
    for meeting in meetings {
        let (course, slot, length) = *meeting;
        events.push(EventPart {
            course,
            slot,
            length,
        })?;
    }
    Ok(events)
}

/// Courses of 1 student with so many meetings each, no two in one slot, and rooms of capacity 10.
fn small_courses(
    alloc: Global,
    courses: u32,
    meetings: u32,
    rooms: usize,
) -> Result<Parts, AllocError> {
    let mut events = Items::new(alloc);
    let mut slots: u32 = 0;
    for course in 0..courses {
        for _ in 0..meetings {
            events.push(EventPart {
                course,
                slot: slots,
                length: 1,
            })?;
            slots = slots.wrapping_add(1);
        }
    }
    Ok(Parts {
        students: vec![in alloc; 1; courses as usize]?.into(),
        needs: vec![in alloc; 0; courses as usize]?.into(),
        capacity: vec![in alloc; 10; rooms]?.into(),
        features: vec![in alloc; 0; rooms]?.into(),
        slots,
        events,
        denied: Items::new(alloc),
        closed: Items::new(alloc),
        prefer: Items::new(alloc),
        robust: Items::new(alloc),
    })
}

/// The problem of the parts; what is not well formed is answered as want of memory is.
fn build(alloc: Global, parts: Parts) -> Result<Problem, BuildFault> {
    if !parts.well_formed() {
        return Err(BuildFault::Memory);
    }
    Problem::build(alloc, parts)
}

/// The problem of the shape.
pub fn problem_of(alloc: Global, shape: &Shape) -> Result<Problem, BuildFault> {
    build(alloc, parts_of(alloc, shape)?)
}

/// The problem of such small courses.
pub fn problem_of_small_courses(
    alloc: Global,
    courses: u32,
    meetings: u32,
    rooms: usize,
) -> Result<Problem, BuildFault> {
    build(alloc, small_courses(alloc, courses, meetings, rooms)?)
}
