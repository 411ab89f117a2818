ghost use Rattle.std.specs.Prelude.{◌≡◌, ◌≤◌, ℕ, ℤ, not, true, IfOk, OnOk};
ghost use Rattle.std.specs.List.{list_any};
ghost use Rattle.std.specs.Ordering.{int_eq};
ghost use Rattle.duality.specs.Sums.{IsValue};
ghost use Rattle.packing_model.specs.Built.{packing};
ghost use Rattle.packing_model.specs.Closing.{counted};
ghost use Rattle.packing_model.specs.Cuts.{IsPoolOf};
ghost use Rattle.packing_model.specs.Nodes.{fixed_of, stage_at};
ghost use Rattle.search_nodes.specs.Points.{IsAbove, sum_at};
ghost use Rattle.exact_simplex.specs.Task.{IsBest, IsTask, ShowsEmpty};
ghost use Rattle.node_bound.specs.Answers.{IsNodePoint};
ghost use Rattle.node_bound.specs.Bounds.{has_free};
ghost use Rattle.node_bound.specs.Exact.{BoundsExactly, Shows};
ghost use Rattle.node_bound.specs.Fixed.{IsNode};
ghost use Rattle.node_bound.specs.Tasks.{IsNodeTask};

use crate::bounded::Bounded;
use crate::closing::{best_leaf, empty_leaf};
use crate::point::point_at;
use crate::task::NodeTask;
use crate::whole::{is_whole, whole_choice};
use clique_cuts::rounded;
use duality::Objective;
use exact_num::{Arith, Steps};
use exact_simplex::{LpAnswer, solve_by_plan};
use packing_model::{ObjectiveAt, Point};
use problem_core::Memory;
use std::alloc::Global;
use std::sync::ledger::Ledger;

/// What is known at a node where a pattern is free: its linear program is solved once.
pub(crate) fn bound_free<O: Objective, A: Arith, L: Ledger>(
    alloc: Global,
    at: &ObjectiveAt<O>,
    arith: &mut A,
    steps: &mut Steps<L>,
) -> Result<Bounded, Memory>
    requires node { IsNode at.now.model.now (O.count at.now.objective.now) (O.levels at.now.objective.now) at.now.level at.now.targets.now at.now.fixing.now }
    requires pool { IsPoolOf (packing at.now.model.now) at.now.pool.now }
    requires best { IsValue at.now.best }
    requires free { has_free (packing at.now.model.now) (fixed_of at.now.fixing.now) ≡ true }
    ensures bounds { IfOk result (BoundsExactly at.now.model.now (counted (O.weight at.now.objective.now) (O.floor at.now.objective.now)) (stage_at at.now.level at.now.targets.now at.now.best at.now.pool.now) (fixed_of at.now.fixing.now) (A.wides arith.old) (A.wides arith.new) steps.old steps.new) }
    ensures wides { OnOk result (A.wides arith.old ≤ A.wides arith.new) }
    ensures steps { steps.old ≤ steps.new }
{
    let task = NodeTask::build(alloc, at)?;
    solved(alloc, at, &task, arith, steps)
}

/// What the answer of the node's linear program shows.
fn solved<O: Objective, A: Arith, L: Ledger>(
    alloc: Global,
    at: &ObjectiveAt<O>,
    task: &NodeTask,
    arith: &mut A,
    steps: &mut Steps<L>,
) -> Result<Bounded, Memory>
    requires node { IsNode at.now.model.now (O.count at.now.objective.now) (O.levels at.now.objective.now) at.now.level at.now.targets.now at.now.fixing.now }
    requires pool { IsPoolOf (packing at.now.model.now) at.now.pool.now }
    requires best { IsValue at.now.best }
    requires free { has_free (packing at.now.model.now) (fixed_of at.now.fixing.now) ≡ true }
    requires task { IsNodeTask (packing at.now.model.now) (counted (O.weight at.now.objective.now) (O.floor at.now.objective.now)) (stage_at at.now.level at.now.targets.now at.now.best at.now.pool.now) (fixed_of at.now.fixing.now) task.now }
    requires program { IsTask task.now.lp }
    ensures bounds { IfOk result (BoundsExactly at.now.model.now (counted (O.weight at.now.objective.now) (O.floor at.now.objective.now)) (stage_at at.now.level at.now.targets.now at.now.best at.now.pool.now) (fixed_of at.now.fixing.now) (A.wides arith.old) (A.wides arith.new) steps.old steps.new) }
    ensures wides { OnOk result (A.wides arith.old ≤ A.wides arith.new) }
    ensures steps { steps.old ≤ steps.new }
{
    at.model.laws();
    let before = arith.wide_count();
    match solve_by_plan(alloc, &task.lp, task.plan(), arith, steps) {
        Ok(LpAnswer::Best { x, xden, y, yden }) => {
            at_best(alloc, at, task, x.as_slice(), xden, y.as_slice(), yden)
        }
        Ok(LpAnswer::Empty { farkas }) => at_empty(alloc, at, task, farkas.as_slice()),
        Ok(LpAnswer::Ray { .. }) => unreachable!(),
        Ok(LpAnswer::Wide) => Ok(Bounded::Wide {
            before,
            after: arith.wide_count(),
        }),
        Ok(LpAnswer::Stalled { pivots }) => Ok(Bounded::Stalled { pivots }),
        Err(_) => Err(Memory),
    }
}

/// The leaf of multipliers that show that no point meets the rows.
fn at_empty<O: Objective>(
    alloc: Global,
    at: &ObjectiveAt<O>,
    task: &NodeTask,
    farkas: &[i128],
) -> Result<Bounded, Memory>
    requires node { IsNode at.now.model.now (O.count at.now.objective.now) (O.levels at.now.objective.now) at.now.level at.now.targets.now at.now.fixing.now }
    requires pool { IsPoolOf (packing at.now.model.now) at.now.pool.now }
    requires best { IsValue at.now.best }
    requires task { IsNodeTask (packing at.now.model.now) (counted (O.weight at.now.objective.now) (O.floor at.now.objective.now)) (stage_at at.now.level at.now.targets.now at.now.best at.now.pool.now) (fixed_of at.now.fixing.now) task.now }
    requires empty { ShowsEmpty task.now.lp farkas.now }
    ensures { IfOk result (Shows at.now.model.now (counted (O.weight at.now.objective.now) (O.floor at.now.objective.now)) (stage_at at.now.level at.now.targets.now at.now.best at.now.pool.now) (fixed_of at.now.fixing.now)) }
{
    let leaf = empty_leaf(alloc, at, task, farkas)?;
    Ok(Bounded::Closed(leaf))
}

/// What multipliers that cover the gain and a point of the same gain show: a leaf that closes, or a better
/// choice, or a point of the node.
fn at_best<O: Objective>(
    alloc: Global,
    at: &ObjectiveAt<O>,
    task: &NodeTask,
    x: &[i128],
    xden: i128,
    y: &[i128],
    yden: i128,
) -> Result<Bounded, Memory>
    requires node { IsNode at.now.model.now (O.count at.now.objective.now) (O.levels at.now.objective.now) at.now.level at.now.targets.now at.now.fixing.now }
    requires pool { IsPoolOf (packing at.now.model.now) at.now.pool.now }
    requires best { IsValue at.now.best }
    requires task { IsNodeTask (packing at.now.model.now) (counted (O.weight at.now.objective.now) (O.floor at.now.objective.now)) (stage_at at.now.level at.now.targets.now at.now.best at.now.pool.now) (fixed_of at.now.fixing.now) task.now }
    requires is_best { IsBest task.now.lp x.now xden y.now yden }
    ensures { IfOk result (Shows at.now.model.now (counted (O.weight at.now.objective.now) (O.floor at.now.objective.now)) (stage_at at.now.level at.now.targets.now at.now.best at.now.pool.now) (fixed_of at.now.fixing.now)) }
{
    match best_leaf(alloc, at, task, y, yden)? {
        Some(leaf) => Ok(Bounded::Closed(leaf)),
        None => {
            let point = point_at(alloc, at, task, x, xden)?;
            at_point(alloc, at, point)
        }
    }
}

/// What a point of the node that weighs more than the best value shows: a better choice, or a point that is
/// none.
fn at_point<O: Objective>(
    alloc: Global,
    at: &ObjectiveAt<O>,
    point: Point,
) -> Result<Bounded, Memory>
    requires node { IsNode at.now.model.now (O.count at.now.objective.now) (O.levels at.now.objective.now) at.now.level at.now.targets.now at.now.fixing.now }
    requires pool { IsPoolOf (packing at.now.model.now) at.now.pool.now }
    requires point { IsNodePoint (packing at.now.model.now) (counted (O.weight at.now.objective.now) (O.floor at.now.objective.now)) (stage_at at.now.level at.now.targets.now at.now.best at.now.pool.now) (fixed_of at.now.fixing.now) point }
    requires above { IsAbove at.now.best point.den (sum_at (packing at.now.model.now) (O.weight at.now.objective.now at.now.level) point) }
    ensures { IfOk result (Shows at.now.model.now (counted (O.weight at.now.objective.now) (O.floor at.now.objective.now)) (stage_at at.now.level at.now.targets.now at.now.best at.now.pool.now) (fixed_of at.now.fixing.now)) }
{
    if is_whole(&point) {
        let choice = whole_choice(alloc, at, &point)?;
        return Ok(Bounded::Better(choice));
    }
    match rounded(alloc, at, &point)? {
        Some(choice) => Ok(Bounded::Better(choice)),
        None => Ok(Bounded::Gap(point)),
    }
}
