ghost use Rattle.std.specs.Prelude.{◌≡◌, ◌≤ℤ◌, ◌∷◌, pos, length, true, IfOk, MatchOption};
ghost use Rattle.std.specs.List.{list_all};
ghost use Rattle.numbers.specs.Sums.{total};
ghost use Rattle.duality.specs.Sums.{IsValue};
ghost use Rattle.duality.specs.Packing.{is_there};
ghost use Rattle.duality.specs.Leaf.{is_under, left_side};
ghost use Rattle.duality.specs.Tree.{ends_at};
ghost use Rattle.packing_model.specs.Built.{packing};
ghost use Rattle.packing_model.specs.Closing.{counted};
ghost use Rattle.packing_model.specs.Cuts.{IsPoolOf};
ghost use Rattle.packing_model.specs.Nodes.{fixed_of, stage_at};
ghost use Rattle.search_nodes.specs.Leaves.{IsFineLeaf};
ghost use Rattle.exact_simplex.specs.Task.{AreSmall, ShowsEmpty, side_sum};
ghost use Rattle.node_bound.specs.Answers.{IsCover, LeavesRoom};
ghost use Rattle.node_bound.specs.Fixed.{IsNode};
ghost use Rattle.node_bound.specs.Multipliers.{IsLeafOf};
ghost use Rattle.node_bound.specs.Tasks.{IsNodeTask};
ghost use Rattle.node_bound.specs.Terms.{Divides};

use crate::divisor::{divided, divisor_of};
use crate::task::NodeTask;
use crate::terms::leaf_terms;
use duality::{Leaf, Objective, is_under, level_times};
use exact_num::quotient;
use packing_model::{ObjectiveAt, left_of};
use problem_core::Memory;
use std::alloc::Global;

/// The leaf of multipliers that show that no point meets the rows of the node. It has the scale 0, and closes there
/// whatever the best value is. It fails only where memory runs out.
pub(crate) fn empty_leaf<O: Objective>(
    alloc: Global,
    at: &ObjectiveAt<O>,
    task: &NodeTask,
    farkas: &[i128],
) -> Result<Leaf, Memory>
    requires node { IsNode at.now.model.now (O.count at.now.objective.now) (O.levels at.now.objective.now) at.now.level at.now.targets.now at.now.fixing.now }
    requires pool { IsPoolOf (packing at.now.model.now) at.now.pool.now }
    requires best { IsValue at.now.best }
    requires task { IsNodeTask (packing at.now.model.now) (counted (O.weight at.now.objective.now) (O.floor at.now.objective.now)) (stage_at at.now.level at.now.targets.now at.now.best at.now.pool.now) (fixed_of at.now.fixing.now) task.now }
    requires empty { ShowsEmpty task.now.lp farkas.now }
    ensures { IfOk result (λ leaf. (ends_at (packing at.now.model.now) (counted (O.weight at.now.objective.now) (O.floor at.now.objective.now)) (stage_at at.now.level at.now.targets.now at.now.best at.now.pool.now) (fixed_of at.now.fixing.now) leaf ≡ true) × IsFineLeaf leaf) }
{
    leaf_of(alloc, at, task, 0, farkas)
}

/// The leaf of multipliers that cover the gain, where it closes at the node; `None` comes only where what they
/// are worth leaves room for a better value, so always where there is no best value. It fails only where memory
/// runs out.
pub(crate) fn best_leaf<O: Objective>(
    alloc: Global,
    at: &ObjectiveAt<O>,
    task: &NodeTask,
    y: &[i128],
    yden: i128,
) -> Result<Option<Leaf>, Memory>
    requires node { IsNode at.now.model.now (O.count at.now.objective.now) (O.levels at.now.objective.now) at.now.level at.now.targets.now at.now.fixing.now }
    requires pool { IsPoolOf (packing at.now.model.now) at.now.pool.now }
    requires best { IsValue at.now.best }
    requires task { IsNodeTask (packing at.now.model.now) (counted (O.weight at.now.objective.now) (O.floor at.now.objective.now)) (stage_at at.now.level at.now.targets.now at.now.best at.now.pool.now) (fixed_of at.now.fixing.now) task.now }
    requires cover { IsCover task.now.lp y.now yden }
    ensures { IfOk result (λ found. MatchOption found (LeavesRoom at.now.best yden (side_sum task.now.lp y.now) (total (O.weight at.now.objective.now at.now.level) at.now.fixing.now.one))
        (λ leaf. (ends_at (packing at.now.model.now) (counted (O.weight at.now.objective.now) (O.floor at.now.objective.now)) (stage_at at.now.level at.now.targets.now at.now.best at.now.pool.now) (fixed_of at.now.fixing.now) leaf ≡ true) × IsFineLeaf leaf)) }
{
    let leaf = leaf_of(alloc, at, task, yden, y)?;
    if is_short(at, &leaf) {
        return Ok(Some(leaf));
    }
    Ok(None)
}

/// The leaf of a scale and of multipliers of the rows, divided by their greatest common divisor. It has the rows in
/// the order of a leaf, and leaves those of multiplier 0 out.
fn leaf_of<O: Objective>(
    alloc: Global,
    at: &ObjectiveAt<O>,
    task: &NodeTask,
    scale: i128,
    times: &[i128],
) -> Result<Leaf, Memory>
    requires task { IsNodeTask (packing at.now.model.now) (counted (O.weight at.now.objective.now) (O.floor at.now.objective.now)) (stage_at at.now.level at.now.targets.now at.now.best at.now.pool.now) (fixed_of at.now.fixing.now) task.now }
    requires scale { pos 0 ≤ℤ scale }
    requires small { AreSmall (scale ∷ times.now) }
    requires one_each { length times.now ≡ length task.now.names }
    requires some { Divides 0 scale times.now (length times.now) → ⊥ }
    ensures { IfOk result (IsLeafOf (packing at.now.model.now) (stage_at at.now.level at.now.targets.now at.now.best at.now.pool.now) task.now scale times.now) }
{
    let others = (at.model.base_len() - task.lead) as usize + at.pool.len() as usize;
    let divisor = divisor_of(scale, times);
    let parts = divided(alloc, times, divisor)?;
    let terms = leaf_terms(
        alloc,
        task.lead as usize,
        task.low as usize,
        others,
        task.names.as_slice(),
        parts.as_slice(),
    )?;
    Ok(Leaf {
        scale: quotient(scale, divisor),
        terms,
    })
}

/// Whether the leaf's left side is below what the best value asks for.
fn is_short<O: Objective>(at: &ObjectiveAt<O>, leaf: &Leaf) -> bool
    requires node { IsNode at.now.model.now (O.count at.now.objective.now) (O.levels at.now.objective.now) at.now.level at.now.targets.now at.now.fixing.now }
    requires pool { IsPoolOf (packing at.now.model.now) at.now.pool.now }
    requires best { IsValue at.now.best }
    requires fine { IsFineLeaf leaf.now }
    requires there { list_all (λ t. is_there (packing at.now.model.now) (counted (O.weight at.now.objective.now) (O.floor at.now.objective.now)) (stage_at at.now.level at.now.targets.now at.now.best at.now.pool.now) t.row) leaf.now.terms ≡ true }
    ensures { result ≡ is_under at.now.best leaf.now.scale (left_side (packing at.now.model.now) (counted (O.weight at.now.objective.now) (O.floor at.now.objective.now)) (stage_at at.now.level at.now.targets.now at.now.best at.now.pool.now) (fixed_of at.now.fixing.now) leaf.now) }
{
    let _ = at.model.base_len();
    let _ = at.pool.len();
    let times = level_times(leaf.terms.as_slice());
    is_under(at.best, leaf.scale, left_of(at, leaf, &times))
}
