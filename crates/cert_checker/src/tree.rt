ghost use Rattle.std.specs.Prelude.{◌≡◌, ◌≤◌, ◌∷◌, None, Some, false, length, IfOk};
ghost use Rattle.duality.specs.Leaf.{leaf_fault};
ghost use Rattle.duality.specs.Sums.{IsValue};
ghost use Rattle.duality.specs.Walk.{step_at, fixing_of, turn};
ghost use Rattle.meeting_patterns.specs.Pattern.{patterns_of};
ghost use Rattle.packing_model.specs.Built.{packing};
ghost use Rattle.packing_model.specs.Closing.{counted};
ghost use Rattle.packing_model.specs.Cuts.{IsPoolOf};
ghost use Rattle.packing_model.specs.Nodes.{AreTargets, ok_unless, stage_at};
ghost use Rattle.cert_checker.specs.Faults.{node_reason, branch_reason, leaf_reason};
ghost use Rattle.search_nodes.specs.Paths.{path_of, IsWalk, IsTurned};
ghost use Rattle.cert_checker.specs.Trees.{IsLeafWithin, IsNodeWithin, NodeAfter};

use crate::verdict::Reason;
use cert_text::Node;
use duality::Objective;
use packing_model::{Leaf, LeafFault, Model, ObjectiveAt, Pool, close_leaf};
use problem_core::Memory;
use search_nodes::Walk;

/// A level of an objective over a model's patterns whose tree is judged: the cuts that its leaves may use,
/// the values of the levels below it, and the value that no choice with those values is to exceed. Where
/// there is no such value, the tree is to show that there is no such choice.
#[derive(Clone, Copy)]
pub struct TreeAt<'a, O> {
    pub model: &'a Model,
    pub pool: &'a Pool,
    pub objective: &'a O,
    pub level: u32,
    pub targets: &'a [i64],
    pub best: Option<i64>,
}

impl<O: Objective> TreeAt<'_, O> {
    /// Judges the next node of the level's tree, to which the walk has come: a branch is to be on a pattern
    /// of the model that is free there, a leaf is to close there. Where the node is at fault this gives the
    /// reason. Otherwise the walk goes on to the node behind it: from a branch to the part in which its
    /// pattern is left out, from a leaf to the part of the last branch on its first side in which its
    /// pattern is taken. An open end has no fault, and the walk stays; a node that names an earlier leaf is
    /// not to come. The objective is to count the model's
    /// patterns, the cuts are to be of the model, and the walk one through trees of the model, which it
    /// stays. It fails only where memory runs out; then nothing is known of the walk.
    pub fn judge_node(&self, walk: &mut Walk, node: &Node) -> Result<Option<Reason>, Memory>
        requires count { O.count self.now.objective.now ≡ length (patterns_of self.now.model.now) }
        requires pool { IsPoolOf (packing self.now.model.now) self.now.pool.now }
        requires walk { IsWalk (packing self.now.model.now) walk.old }
        requires high { self.now.level ≤ O.levels self.now.objective.now }
        requires targets { AreTargets self.now.level self.now.targets.now }
        requires best { IsValue self.now.best }
        requires node { IsNodeWithin node.now }
        ensures reason { IfOk result (λ reason. reason ≡ node_reason (packing self.now.model.now) (counted (O.weight self.now.objective.now) (O.floor self.now.objective.now)) (stage_at self.now.level self.now.targets.now self.now.best self.now.pool.now) (fixing_of (path_of walk.old.path)) node.now) }
        ensures walk { IfOk result (λ reason. IsWalk (packing self.now.model.now) walk.new) }
        ensures path { IfOk result (λ reason. reason ≡ None → NodeAfter node.now (path_of walk.old.path) (path_of walk.new.path)) }
    {
        match node {
            Node::Branch(pattern) => branch_reason(self.model, walk, *pattern),
            Node::Leaf(leaf) => self.leaf_reason(walk, leaf),
            Node::OpenEnd | Node::Same(_) => Ok(None),
        }
    }

    // A leaf is to close where the walk has come.
    fn leaf_reason(&self, walk: &mut Walk, leaf: &Leaf) -> Result<Option<Reason>, Memory>
        requires count { O.count self.now.objective.now ≡ length (patterns_of self.now.model.now) }
        requires pool { IsPoolOf (packing self.now.model.now) self.now.pool.now }
        requires walk { IsWalk (packing self.now.model.now) walk.old }
        requires high { self.now.level ≤ O.levels self.now.objective.now }
        requires targets { AreTargets self.now.level self.now.targets.now }
        requires best { IsValue self.now.best }
        requires leaf { IsLeafWithin leaf.now }
        ensures reason { IfOk result (λ reason. reason ≡ leaf_reason (leaf_fault (packing self.now.model.now) (counted (O.weight self.now.objective.now) (O.floor self.now.objective.now)) (stage_at self.now.level self.now.targets.now self.now.best self.now.pool.now) (fixing_of (path_of walk.old.path)) leaf.now)) }
        ensures walk { IfOk result (λ reason. IsWalk (packing self.now.model.now) walk.new) }
        ensures path { IfOk result (λ reason. reason ≡ None → IsTurned (turn (path_of walk.old.path)) (path_of walk.new.path)) }
    {
        match self.close(walk, leaf) {
            Ok(()) => {
                walk.turn()?;
                walk.mark_rows(self.model)?;
                Ok(None)
            }
            Err(fault) => Ok(Some(reason_of(fault))),
        }
    }

    // Whether the leaf closes where the walk has come.
    fn close(&self, walk: &Walk, leaf: &Leaf) -> Result<(), LeafFault>
        requires count { O.count self.now.objective.now ≡ length (patterns_of self.now.model.now) }
        requires pool { IsPoolOf (packing self.now.model.now) self.now.pool.now }
        requires walk { IsWalk (packing self.now.model.now) walk.now }
        requires high { self.now.level ≤ O.levels self.now.objective.now }
        requires targets { AreTargets self.now.level self.now.targets.now }
        requires best { IsValue self.now.best }
        requires leaf { IsLeafWithin leaf.now }
        ensures { result ≡ ok_unless (leaf_fault (packing self.now.model.now) (counted (O.weight self.now.objective.now) (O.floor self.now.objective.now)) (stage_at self.now.level self.now.targets.now self.now.best self.now.pool.now) (fixing_of (path_of walk.now.path)) leaf.now) }
    {
        let at = ObjectiveAt {
            model: self.model,
            pool: self.pool,
            fixing: &walk.fixing,
            objective: self.objective,
            level: self.level,
            targets: self.targets,
            best: self.best,
        };
        close_leaf(&at, leaf)
    }
}

// A branch is to be on a pattern that is free where the walk has come.
fn branch_reason(model: &Model, walk: &mut Walk, pattern: u32) -> Result<Option<Reason>, Memory>
    requires { IsWalk (packing model.now) walk.old }
    ensures reason { IfOk result (λ reason. reason ≡ branch_reason (packing model.now) (fixing_of (path_of walk.old.path)) pattern) }
    ensures walk { IfOk result (λ reason. IsWalk (packing model.now) walk.new) }
    ensures path { IfOk result (λ reason. reason ≡ None → path_of walk.new.path ≡ step_at pattern false ∷ path_of walk.old.path) }
{
    if pattern >= model.patterns().len() {
        return Ok(Some(Reason::Pattern { pattern }));
    }
    if !walk.is_free(model, pattern) {
        return Ok(Some(Reason::NotFree { pattern }));
    }
    walk.branch(pattern)?;
    Ok(None)
}

fn reason_of(fault: LeafFault) -> Reason
    ensures { Some result ≡ leaf_reason (Some fault) }
{
    match fault {
        LeafFault::Row { .. } => Reason::Row,
        LeafFault::Sign { .. } => Reason::Sign,
        LeafFault::Cost { pattern } => Reason::Cost { pattern },
        LeafFault::Bound => Reason::Bound,
    }
}
