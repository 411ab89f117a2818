ghost use Rattle.std.specs.Prelude.{◌≡◌, ◌∷◌, ◌++◌, [], true, false, IfOk, OnOk};
ghost use Rattle.duality.specs.declared.leaf.Node.TheVariants as nodes;
ghost use Rattle.duality.specs.Packing.{Packing};
ghost use Rattle.duality.specs.Tree.{can_branch};
ghost use Rattle.duality.specs.Walk.{step_at, fixing_of};
ghost use Rattle.search_nodes.specs.Paths.{path_of, IsWalk};
ghost use Rattle.branch_tree.specs.Growths.{value_of, IsClosing};

use crate::level::Held;
use duality::{Leaf, Node};
use problem_core::Memory;
use search_nodes::{Walk, walk_laws};
use std::alloc::Global;
use values::Items;

/// The nodes of a tree so far, the path to the next, and the choice that is held.
#[derive(Drop)]
pub(crate) struct Growth {
    pub nodes: Items<Node>,
    pub walk: Walk,
    pub held: Option<Held>,
}

/// What a step came to: there is more to do, the tree is whole, or the budget is spent.
#[derive(Clone, Copy)]
pub(crate) enum Step {
    On,
    Proved,
    Spent,
}

impl Growth {
    /// No nodes yet.
    pub(crate) fn new(alloc: Global, held: Option<Held>) -> Growth
        ensures nodes { result.nodes ≡ [] }
        ensures path { result.walk.path ≡ [] }
        ensures walk { (k : Packing) → IsWalk k result.walk }
        ensures held { result.held ≡ held }
    {
        Growth {
            nodes: Items::new(alloc),
            walk: Walk::new(alloc),
            held,
        }
    }

    /// What the choice that is held weighs.
    pub(crate) fn value(&self) -> Option<i64>
        ensures { result ≡ value_of self.now.held }
    {
        match &self.held {
            Some(held) => Some(held.value),
            None => None,
        }
    }

    /// Adds a leaf that closes the next node, and goes on to the node behind it.
    pub(crate) fn close(&mut self, leaf: Leaf) -> Result<Step, Memory>
        ensures { IfOk result (IsClosing self.old self.new leaf) }
    {
        walk_laws();
        self.nodes.push(Node::Leaf(leaf))?;
        self.walk.turn()?;
        if self.walk.path.len() == 0 {
            Ok(Step::Proved)
        } else {
            Ok(Step::On)
        }
    }

    /// Adds a branch, and goes on to the part in which its pattern is left out.
    pub(crate) fn branch(&mut self, pattern: u32) -> Result<(), Memory>
        ensures nodes { OnOk result (self.new.nodes ≡ self.old.nodes ++ nodes.Branch pattern ∷ []) }
        ensures held { OnOk result (self.new.held ≡ self.old.held) }
        ensures path { OnOk result (path_of self.new.walk.path ≡ step_at pattern false ∷ path_of self.old.walk.path) }
        ensures walk { OnOk result ((k : Packing) → IsWalk k self.old.walk → can_branch k (fixing_of (path_of self.old.walk.path)) pattern ≡ true → IsWalk k self.new.walk) }
    {
        self.nodes.push(Node::Branch(pattern))?;
        self.walk.branch(pattern)
    }
}
