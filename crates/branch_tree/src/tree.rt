ghost use Rattle.std.specs.Prelude.{◌≡◌, ◌≤◌, ◌∷◌, ◌++◌, [], false, length, IfOk, OnOk};
ghost use Rattle.duality.specs.After.{open_ends};
ghost use Rattle.duality.specs.Walk.{pending_of};
ghost use Rattle.packing_model.specs.Built.{packing};
ghost use Rattle.packing_model.specs.Closing.{counted};
ghost use Rattle.packing_model.specs.Cuts.{IsPoolOf};
ghost use Rattle.search_nodes.specs.Paths.{path_of};
ghost use Rattle.node_bound.specs.Bounds.{IsLevelAt};
ghost use Rattle.branch_tree.specs.Growths.{value_of, IsHeldAt};
ghost use Rattle.branch_tree.specs.Kept.{Keeps};
ghost use Rattle.branch_tree.specs.Trees.{Grows, LogsAll, outside_count};

use crate::budget::Budget;
use crate::level::{Held, LevelAt};
use crate::log::Log;
use crate::state::{Growth, Step};
use duality::{Node, Objective};
use exact_num::{Arith, Steps};
use node_bound::Hints;
use packing_model::Pool;
use problem_core::Memory;
use search_nodes::Side;
use std::alloc::Global;
use std::sync::ledger::Ledger;
use values::Items;

/// A level's tree in preorder, the choice that is held at its end, and whether the tree is whole: it proves
/// the level against what the choice weighs. Else the budget was spent, and the tree has open ends.
#[derive(Drop)]
pub struct TreeGrown {
    pub nodes: Items<Node>,
    pub held: Option<Held>,
    pub proved: bool,
}

/// Grows the tree of a level, of any objective over the model's patterns, with a choice that is held or
/// without one. One node after the other, in preorder, is bounded, and what [`node_bound::bound_at`] answers
/// is done: a leaf closes its node; a better choice takes the place of the one that is held, and what is
/// closed stays closed; a point is separated by cuts while the pool has room, and branched on where no cut is
/// found; where nothing was found the lowest free pattern is branched on. Each branch takes 1 from the budget
/// and is logged with its cause, each cut with the point that it breaks.
///
/// The tree is whole, or the budget is spent at a node where a pattern is free: each part that was left is an
/// open end. It fails only where memory runs out; then too each new unit was paid for, each new cut has its
/// note, and what was in log and pool before is the first of what is in them.
///
/// Branch and bound over a binary tree: Land and Doig (1960); with cuts at its nodes: Padberg and Rinaldi
/// (1991). The path to the node is all that is kept beside the nodes, so nothing recurses.
pub fn grow_tree<O: Objective, A: Arith, L: Ledger>(
    alloc: Global,
    at: &LevelAt<O>,
    held: Option<Held>,
    pool: &mut Pool,
    budget: &mut Budget,
    log: &mut Log,
    hints: &mut Hints,
    arith: &mut A,
    steps: &mut Steps<L>,
) -> Result<TreeGrown, Memory>
    requires level { IsLevelAt at.now.model.now (counted (O.weight at.now.objective.now) (O.floor at.now.objective.now)) (O.count at.now.objective.now) (O.levels at.now.objective.now) at.now.level at.now.targets.now }
    requires pool { IsPoolOf (packing at.now.model.now) pool.old }
    requires held { IsHeldAt at.now.model.now (counted (O.weight at.now.objective.now) (O.floor at.now.objective.now)) at.now.level at.now.targets.now held }
    requires few { budget.old.left ≤ 1000000 }
    ensures grows { IfOk result (Grows at.now.model.now (counted (O.weight at.now.objective.now) (O.floor at.now.objective.now)) at.now.level at.now.targets.now held pool.old pool.new budget.old.left budget.new.left) }
    ensures logged { IfOk result (λ grown. LogsAll (packing at.now.model.now) (counted (O.weight at.now.objective.now) (O.floor at.now.objective.now)) at.now.level at.now.targets.now (value_of held) (value_of grown.held) grown.nodes grown.proved pool.old pool.new log.old log.new (A.wides arith.old) (A.wides arith.new) steps.old steps.new) }
    ensures keeps { Keeps (packing at.now.model.now) pool.old pool.new budget.old.left budget.new.left log.old log.new }
{
    let mut growth = Growth::new(alloc, held);
    'nodes: loop {
        match growth.step(alloc, at, pool, budget, log, hints, arith, steps)? {
            Step::On => {}
            Step::Proved => {
                return Ok(TreeGrown {
                    nodes: growth.nodes,
                    held: growth.held,
                    proved: true,
                });
            }
            Step::Spent => return left_open(growth),
        }
    }
}

/// The tree with an open end for each part that is left.
fn left_open(growth: Growth) -> Result<TreeGrown, Memory>
    ensures { IfOk result (λ grown. (grown.nodes ≡ growth.nodes ++ open_ends (length (pending_of (path_of growth.walk.path)))) × (grown.held ≡ growth.held) × (grown.proved ≡ false)) }
{
    let Growth { nodes, walk, held } = growth;
    let mut nodes = nodes;
    nodes.push(Node::OpenEnd)?;
    for side in walk.path.as_slice() {
        open_end(&mut nodes, *side)?;
    }
    Ok(TreeGrown {
        nodes,
        held,
        proved: false,
    })
}

/// An open end where the branch is on its first side.
fn open_end(nodes: &mut Items<Node>, side: Side) -> Result<(), Memory>
    ensures { OnOk result (nodes.new ≡ nodes.old ++ open_ends (outside_count (side ∷ []))) }
{
    if !side.inside {
        nodes.push(Node::OpenEnd)?;
    }
    Ok(())
}
