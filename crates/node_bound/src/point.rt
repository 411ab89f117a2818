ghost use Rattle.std.specs.Prelude.{◌≡◌, ◌+ℤ◌, ◌*ℤ◌, IfOk};
ghost use Rattle.numbers.specs.Sums.{total};
ghost use Rattle.packing_model.specs.Built.{packing};
ghost use Rattle.packing_model.specs.Closing.{counted};
ghost use Rattle.packing_model.specs.Cuts.{IsPoolOf};
ghost use Rattle.packing_model.specs.Nodes.{fixed_of, stage_at};
ghost use Rattle.search_nodes.specs.Points.{sum_at};
ghost use Rattle.exact_simplex.specs.Task.{gain_sum};
ghost use Rattle.node_bound.specs.Answers.{IsFeasible, IsNodePoint};
ghost use Rattle.node_bound.specs.Fixed.{IsNode};
ghost use Rattle.node_bound.specs.Tasks.{IsNodeTask};

use crate::amounts::{amounts_of, listed};
use crate::task::NodeTask;
use duality::Objective;
use packing_model::{ObjectiveAt, Point};
use problem_core::Memory;
use std::alloc::Global;

/// The point over all patterns that a point of the linear program and the patterns that are taken make: a
/// pattern that is taken has all of it, a free one the number of its column, and no other has an entry.
pub(crate) fn point_at<O: Objective>(
    alloc: Global,
    at: &ObjectiveAt<O>,
    task: &NodeTask,
    x: &[i128],
    xden: i128,
) -> Result<Point, Memory>
    requires node { IsNode at.now.model.now (O.count at.now.objective.now) (O.levels at.now.objective.now) at.now.level at.now.targets.now at.now.fixing.now }
    requires pool { IsPoolOf (packing at.now.model.now) at.now.pool.now }
    requires task { IsNodeTask (packing at.now.model.now) (counted (O.weight at.now.objective.now) (O.floor at.now.objective.now)) (stage_at at.now.level at.now.targets.now at.now.best at.now.pool.now) (fixed_of at.now.fixing.now) task.now }
    requires feasible { IsFeasible task.now.lp x.now xden }
    ensures point { IfOk result (IsNodePoint (packing at.now.model.now) (counted (O.weight at.now.objective.now) (O.floor at.now.objective.now)) (stage_at at.now.level at.now.targets.now at.now.best at.now.pool.now) (fixed_of at.now.fixing.now)) }
    ensures den { IfOk result (λ p. p.den ≡ xden) }
    ensures value { IfOk result (λ p. sum_at (packing at.now.model.now) (O.weight at.now.objective.now at.now.level) p ≡ (gain_sum task.now.lp x.now +ℤ (xden *ℤ total (O.weight at.now.objective.now at.now.level) at.now.fixing.now.one))) }
{
    at.model.laws();
    let count = at.model.patterns().len();
    let columns = task.columns.as_slice();
    let one = at.fixing.one.as_slice();
    let amounts = amounts_of(alloc, count, columns, x, one, xden)?;
    let entries = listed(alloc, &amounts)?;
    Ok(Point { den: xden, entries })
}
