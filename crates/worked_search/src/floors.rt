ghost use Rattle.std.specs.Prelude.{◌≡◌, ◌≤◌, ◌<◌};

use crate::model::{Task, judge};
use branch_tree::{Budget, LevelAt, Log, TreeGrown, grow_tree};
use exact_num::{Exact128, Steps};
use node_bound::Hints;
use packing_model::{Model, Pool};
use problem_core::Memory;
use std::alloc::Global;
use std::marker::Brand;
use std::process::Abort;
use std::sync::ledger::{Blank, Ledger};
use std::test::Fail;
use worked_shapes::{SomePatterns, closed_once, one_meeting};

/// Whether the tree is whole, and the value of the choice that is held at its end.
fn end_of(grown: &TreeGrown) -> (bool, Option<i64>) {
    match &grown.held {
        Some(held) => (grown.proved, Some(held.value)),
        None => (grown.proved, None),
    }
}

/// How the tree of the only level from no choice ends, over a floor of so many patterns.
fn grown<L: Ledger>(
    alloc: Global,
    model: &Model,
    least: u32,
    blank: Blank,
) -> Result<(bool, Option<i64>), Memory>
    requires small { least ≤ 2 }
    requires name { blank.name ≡ L.name }
    requires parts { blank.parts ≡ L.parts }
    requires some { 0 < blank.parts }
{
    let objective = SomePatterns::new(model.patterns().len(), least);
    let at = LevelAt {
        model,
        objective: &objective,
        level: 1,
        targets: &[],
    };
    let mut pool = Pool::new(alloc);
    let mut budget = Budget { left: 100 };
    let mut log = Log::new(alloc);
    let mut arith = Exact128::new();
    let mut steps: Steps<L> = Steps::new(blank);
    let mut hints = Hints::new();
    let grown = grow_tree(
        alloc,
        &at,
        None,
        &mut pool,
        &mut budget,
        &mut log,
        &mut hints,
        &mut arith,
        &mut steps,
    )?;
    Ok(end_of(&grown))
}

/// That the tree over a floor of so many patterns ends so.
pub fn judge_floor(
    rt: &impl Abort,
    alloc: Global,
    model: &Model,
    least: u32,
    want: (bool, Option<i64>),
) -> Result<(), Fail> {
    if least > 2 {
        return Err(Fail::new("the floor is too high"));
    }
    let found = grown::<Brand>(alloc, model, least, Blank::new(1))?;
    assert!(rt; found == want);
    Ok(())
}

#[test]
fn grows_from_no_choice_over_a_floor(rt: HostRuntime) -> Result<(), Fail> {
    let alloc = rt.alloc();
    judge(&rt, alloc, &closed_once(), Task::Floor(1, true, Some(2)))?;
    judge(&rt, alloc, &closed_once(), Task::Floor(2, true, Some(2)))?;
    judge(&rt, alloc, &one_meeting(), Task::Floor(2, true, None))
}
