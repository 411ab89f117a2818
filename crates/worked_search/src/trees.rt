ghost use Rattle.std.specs.Prelude.{◌≡◌, ◌≤◌, ◌<◌};
ghost use Rattle.problem_core.specs.Choice.{IsLegal};

use crate::model::{Task, judge};
use branch_tree::{Budget, Grown, Log, grow};
use exact_num::{Refusing, Steps};
use packing_model::{Model, Pool};
use problem_core::{Choice, Memory, first_choice};
use std::alloc::Global;
use std::marker::Brand;
use std::process::Abort;
use std::sync::ledger::{Blank, Ledger};
use std::test::Fail;
use worked_shapes::{closed_once, one_meeting};

/// Whether a tree is whole, how many nodes it has, what is left of the budget, and how many units the log has.
#[derive(Clone, Copy, PartialEq, Eq)]
pub struct Tree {
    whole: bool,
    nodes: usize,
    left: u64,
    units: usize,
}

fn tree_of(whole: bool, nodes: usize, left: u64, units: usize) -> Tree {
    Tree {
        whole,
        nodes,
        left,
        units,
    }
}

/// Whether the tree is whole, and how many nodes it has.
fn nodes_of(grown: &Grown) -> (bool, usize) {
    match grown {
        Grown::Proved { tree, .. } => (true, tree.nodes.len()),
        Grown::Spent { tree, .. } => (false, tree.nodes.len()),
    }
}

/// The tree of the level from the choice, over an arithmetic that refuses each number.
fn grown<L: Ledger>(
    alloc: Global,
    model: &Model,
    level: u32,
    start: Choice,
    budget: u64,
    blank: Blank,
) -> Result<Tree, Memory>
    requires low { 1 ≤ level }
    requires high { level ≤ 6 }
    requires legal { IsLegal model.now start.entries }
    requires few { budget ≤ 1000000 }
    requires name { blank.name ≡ L.name }
    requires parts { blank.parts ≡ L.parts }
    requires some { 0 < blank.parts }
{
    let mut pool = Pool::new(alloc);
    let mut budget = Budget { left: budget };
    let mut log = Log::new(alloc);
    let mut arith = Refusing::new();
    let mut steps: Steps<L> = Steps::new(blank);
    let grown = grow(
        alloc,
        model,
        &mut pool,
        level,
        start,
        &mut budget,
        &mut log,
        &mut arith,
        &mut steps,
    )?;
    let (whole, nodes) = nodes_of(&grown);
    Ok(tree_of(whole, nodes, budget.left, log.units.len()))
}

/// That the tree of the level from the first choice is this.
pub fn judge_tree(
    rt: &impl Abort,
    alloc: Global,
    model: &Model,
    level: u32,
    budget: u64,
    want: Tree,
) -> Result<(), Fail> {
    if level < 1 || level > 6 || budget > 1_000_000 {
        return Err(Fail::new("the level or the budget is out of bounds"));
    }
    let start = first_choice(alloc, model.problem())?;
    let found = grown::<Brand>(alloc, model, level, start, budget, Blank::new(1))?;
    assert!(rt; found == want);
    Ok(())
}

#[test]
fn grows_by_branching(rt: HostRuntime) -> Result<(), Fail> {
    let alloc = rt.alloc();
    let one = one_meeting();
    judge(&rt, alloc, &one, Task::Tree(1, 1, tree_of(true, 3, 0, 1)))?;
    judge(&rt, alloc, &one, Task::Tree(1, 0, tree_of(false, 1, 0, 0)))?;
    let two = closed_once();
    judge(&rt, alloc, &two, Task::Tree(1, 5, tree_of(true, 11, 0, 5)))?;
    judge(&rt, alloc, &two, Task::Tree(6, 7, tree_of(true, 11, 2, 5)))?;
    judge(&rt, alloc, &two, Task::Tree(1, 4, tree_of(false, 9, 0, 4)))
}
