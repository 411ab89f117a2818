use crate::model::{Task, judge};
use meeting_patterns::{chosen, to_choice};
use packing_model::{Model, Row, Run};
use problem_core::Choice;
use std::alloc::{AllocError, Global};
use std::process::Abort;
use std::test::Fail;
use values::Items;
use worked_shapes::{closed_once, two_courses, week};

/// That the model has so many patterns and base rows.
pub fn judge_sizes(rt: &impl Abort, model: &Model, patterns: u32, rows: u32) -> Result<(), Fail> {
    assert!(rt; model.patterns().len() == patterns);
    assert!(rt; model.base_len() == rows);
    Ok(())
}

#[test]
fn counts_patterns_and_base_rows(rt: HostRuntime) -> Result<(), Fail> {
    let alloc = rt.alloc();
    judge(&rt, alloc, &closed_once(), Task::Sizes(4, 6))?;
    judge(&rt, alloc, &two_courses(), Task::Sizes(18, 24))?;
    judge(&rt, alloc, &week(), Task::Sizes(311, 135))
}

/// The pairs of patterns that don't clash.
fn clashless(alloc: Global, model: &Model) -> Result<Items<(u32, u32)>, AllocError> {
    let mut pairs = Items::new(alloc);
    for first in 0..model.patterns().len() {
        for second in first + 1..model.patterns().len() {
            if !model.clash(first, second) {
                pairs.push((first, second))?;
            }
        }
    }
    Ok(pairs)
}

/// The base rows.
fn base_rows(alloc: Global, model: &Model) -> Result<Items<Row>, AllocError> {
    let mut rows = Items::new(alloc);
    for row in 0..model.base_len() {
        rows.push(model.base_row(row))?;
    }
    Ok(rows)
}

/// In how many runs the base rows of each pattern lie, and its utilisation.
fn by_pattern(alloc: Global, model: &Model) -> Result<Items<(usize, i64)>, AllocError> {
    let mut found = Items::new(alloc);
    for pattern in 0..model.patterns().len() {
        found.push((model.base_runs(pattern).len(), model.weight(3, pattern)))?;
    }
    Ok(found)
}

/// The rows of the two meetings of which one can't have the first room.
fn closed_once_rows() -> [Row; 6] {
    [
        Row::Event(0),
        Row::Event(1),
        Row::RoomSlot { room: 0, slot: 0 },
        Row::RoomSlot { room: 1, slot: 0 },
        Row::RoomSlot { room: 1, slot: 1 },
        Row::CourseRoom { course: 0, room: 1 },
    ]
}

/// The runs of the pattern, where there is one.
fn runs_of(model: &Model, pattern: u32) -> &[Run] {
    if pattern < model.patterns().len() {
        model.base_runs(pattern)
    } else {
        &[]
    }
}

/// Which patterns clash, the base rows in their order, runs and weights, and rows that follow one another joined.
pub fn judge_closed_once(rt: &impl Abort, alloc: Global, model: &Model) -> Result<(), Fail> {
    let pairs = clashless(alloc, model)?;
    assert!(rt; pairs.as_slice() == [(0, 2)].as_slice());
    let rows = base_rows(alloc, model)?;
    assert!(rt; rows.as_slice() == closed_once_rows().as_slice());
    let found = by_pattern(alloc, model)?;
    assert!(rt; found.as_slice() == [(2, 1000), (3, 500), (2, 500), (4, 1000)].as_slice());
    let second = [Run { first: 1, count: 1 }, Run { first: 4, count: 2 }];
    assert!(rt; runs_of(model, 2) == second.as_slice());
    there_and_back(rt, alloc, model)
}

/// The choice of the first room and then the second chooses two patterns, and they make the choice again.
fn there_and_back(rt: &impl Abort, alloc: Global, model: &Model) -> Result<(), Fail> {
    let choice = Choice {
        entries: Items::from_slice(alloc, &[1, 2])?,
    };
    assert!(rt; model.problem().is_legal(&choice));
    let list = chosen(alloc, model.problem(), model.patterns(), &choice)?;
    assert!(rt; list.as_slice() == [0, 2].as_slice());
    let back = to_choice(alloc, model.problem(), model.patterns(), list.as_slice())?;
    assert!(rt; back.entries.as_slice() == [1, 2].as_slice());
    Ok(())
}

#[test]
fn lists_patterns_and_rows(rt: HostRuntime) -> Result<(), Fail> {
    judge(&rt, rt.alloc(), &closed_once(), Task::ClosedOnce)
}
