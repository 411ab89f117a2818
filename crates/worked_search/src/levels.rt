ghost use Rattle.std.specs.Prelude.{◌≡◌, ◌≤◌, ◌<◌};
ghost use Rattle.problem_core.specs.Choice.{IsLegal};

use crate::model::{Task, judge};
use exact_num::{Arith, Exact128, Refusing, Steps};
use lex_driver::{Stopped, search_levels};
use packing_model::{Measured, Model};
use problem_core::{Choice, Memory, first_choice};
use search_nodes::measured_laws;
use std::alloc::Global;
use std::marker::Brand;
use std::process::Abort;
use std::sync::ledger::{Blank, Ledger};
use std::test::Fail;
use worked_shapes::{Shape, closed_once, one_meeting, two_courses, week};

/// The six values, how many levels are proved, what is left of the budget, and how many units the log has.
#[derive(Clone, Copy, PartialEq, Eq)]
pub struct Found {
    values: [i64; 6],
    levels: usize,
    left: u64,
    units: usize,
}

/// All six levels, with so much left of the budget after so many units.
fn all(values: [i64; 6], left: u64, units: usize) -> Found {
    Found {
        values,
        levels: 6,
        left,
        units,
    }
}

/// The budget was spent at the sixth level.
fn five(values: [i64; 6], units: usize) -> Found {
    Found {
        values,
        levels: 5,
        left: 0,
        units,
    }
}

/// What the search found, where its choice is legal.
fn found_of(model: &Model, stopped: &Stopped) -> Option<Found> {
    let search = &stopped.search;
    if !model.problem().is_legal(&search.choice) {
        return None;
    }
    Some(Found {
        values: model.problem().values(&search.choice),
        levels: search.trees.len(),
        left: search.budget.left,
        units: search.log.units.len(),
    })
}

/// What is found from the choice.
fn searched<A: Arith, L: Ledger>(
    alloc: Global,
    model: &Model,
    start: Choice,
    budget: u64,
    arith: &mut A,
    blank: Blank,
) -> Result<Option<Found>, Memory>
    requires legal { IsLegal model.now start.entries }
    requires few { budget ≤ 1000000 }
    requires name { blank.name ≡ L.name }
    requires parts { blank.parts ≡ L.parts }
    requires some { 0 < blank.parts }
{
    measured_laws(model);
    let measured = Measured::new(model);
    let mut steps: Steps<L> = Steps::new(blank);
    let stopped = search_levels(alloc, model, &measured, start, budget, arith, &mut steps)?;
    Ok(found_of(model, &stopped))
}

/// That these values are found without a branch.
pub fn judge_exact_levels(
    rt: &impl Abort,
    alloc: Global,
    model: &Model,
    values: [i64; 6],
) -> Result<(), Fail> {
    let start = first_choice(alloc, model.problem())?;
    let mut arith = Exact128::new();
    let found = searched::<Exact128, Brand>(alloc, model, start, 0, &mut arith, Blank::new(1))?;
    assert!(rt; found == Some(all(values, 0, 0)));
    Ok(())
}

/// What is found under the budget over an arithmetic that refuses each number.
pub fn judge_refused_levels(
    rt: &impl Abort,
    alloc: Global,
    model: &Model,
    budget: u64,
    want: Found,
) -> Result<(), Fail> {
    if budget > 1_000_000 {
        return Err(Fail::new("the budget is out of bounds"));
    }
    let start = first_choice(alloc, model.problem())?;
    let mut arith = Refusing::new();
    let found = searched::<Refusing, Brand>(
        alloc,
        model,
        start,
        budget,
        &mut arith,
        Blank::new(1),
    )?;
    assert!(rt; found == Some(want));
    Ok(())
}

/// Two courses of 20 and 30 in one slot, and one room of 30.
fn one_room() -> Shape<'static> {
    Shape {
        students: &[20, 30],
        needs: &[0, 0],
        meetings: &[(0, 0, 1), (1, 0, 1)],
        capacity: &[30],
        ..one_meeting()
    }
}

#[test]
fn branches_where_no_number_fits(rt: HostRuntime) -> Result<(), Fail> {
    let alloc = rt.alloc();
    let one = [1, 10, 500, 0, -1, 0];
    let whole = Task::RefusedLevels(6, all(one, 0, 6));
    judge(&rt, alloc, &one_meeting(), whole)?;
    let open = Task::RefusedLevels(5, five(one, 5));
    judge(&rt, alloc, &one_meeting(), open)?;
    let room = [1, 30, 1000, 0, -1, 0];
    let whole = Task::RefusedLevels(12, all(room, 0, 12));
    judge(&rt, alloc, &one_room(), whole)?;
    let open = Task::RefusedLevels(11, five(room, 11));
    judge(&rt, alloc, &one_room(), open)?;
    let once = [2, 20, 1500, 0, -2, 0];
    let whole = Task::RefusedLevels(30, all(once, 0, 30));
    judge(&rt, alloc, &closed_once(), whole)?;
    let open = Task::RefusedLevels(29, five(once, 29));
    judge(&rt, alloc, &closed_once(), open)
}

#[test]
fn needs_no_branch_where_numbers_fit(rt: HostRuntime) -> Result<(), Fail> {
    let alloc = rt.alloc();
    let task = Task::ExactLevels([1, 10, 500, 0, -1, 0]);
    judge(&rt, alloc, &one_meeting(), task)?;
    let task = Task::ExactLevels([1, 30, 1000, 0, -1, 0]);
    judge(&rt, alloc, &one_room(), task)?;
    let task = Task::ExactLevels([2, 20, 1500, 0, -2, 0]);
    judge(&rt, alloc, &closed_once(), task)?;
    let task = Task::ExactLevels([6, 60, 3000, 0, -4, 0]);
    judge(&rt, alloc, &two_courses(), task)?;
    let task = Task::ExactLevels([40, 2649, 32688, 29, -12, 99]);
    judge(&rt, alloc, &week(), task)
}
