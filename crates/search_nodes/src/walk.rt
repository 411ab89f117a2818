ghost use Rattle.std.specs.Prelude.{◌≡◌, ◌<◌, ◌+◌, ◌∷◌, ◌&&◌, [], OnOk, not, true, false, length};
ghost use Rattle.duality.specs.Packing.{Packing, is_free};
ghost use Rattle.duality.specs.Tree.{can_branch};
ghost use Rattle.duality.specs.Walk.{step_at, fixing_of, turn};
ghost use Rattle.packing_model.specs.Nodes.{fixed_of};
ghost use Rattle.meeting_patterns.specs.Pattern.{patterns_of};
ghost use Rattle.packing_model.specs.Built.{packing};
ghost use Rattle.search_nodes.specs.Marks.{mark_at};
ghost use Rattle.search_nodes.specs.Paths.{path_of, IsWalk, IsTurned, IsOutside, IsInside};

use crate::marks::{Marks, clear, fill, is_marked, put};
use packing_model::{Fixing, Model, is_free};
use problem_core::Memory;
use std::alloc::Global;
use values::Items;

/// A branch on the path to a node, and whether its pattern is taken there; else it is left out.
#[derive(Clone, Copy)]
pub struct Side {
    pub pattern: u32,
    pub inside: bool,
}

/// The path to a node of a tree, from its first branch on, and the fixing that it makes. A tree is begun
/// by [`Walk::new`]; [`Walk::branch`] goes on from a branch, and [`Walk::turn`] from a leaf. Whether a
/// pattern is free there is looked up by marks, which [`Walk::mark_rows`] brings up to date.
#[derive(Drop)]
pub struct Walk {
    pub path: Items<Side>,
    pub fixing: Fixing,
    marks: Marks,
}

impl Walk {
    /// The path to the first node of a tree, which is a walk of every packing.
    pub fn new(alloc: Global) -> Walk
        ensures path { result.path ≡ [] }
        ensures walk { (k : Packing) → IsWalk k result }
    {
        Walk {
            path: Items::new(alloc),
            fixing: Fixing::empty(alloc),
            marks: Marks::new(alloc),
        }
    }

    /// Whether the pattern is free where the walk has come: neither left out nor taken, and in clash with none
    /// that is taken. Where the rows are marked of all patterns that are taken, it takes no more than a
    /// look-up for each base row of the pattern.
    pub fn is_free(&self, model: &Model, pattern: u32) -> bool
        requires walk { IsWalk (packing model.now) self.now }
        requires known { pattern < length (patterns_of model.now) }
        ensures { result ≡ is_free (packing model.now) (fixed_of self.now.fixing) pattern }
    {
        model.laws();
        if self.marks.count != self.fixing.one.len() {
            return is_free(model, &self.fixing, pattern);
        }
        if !self.is_unmarked(pattern) {
            return false;
        }
        !self.marks.meets(model.base_runs(pattern))
    }

    // Whether the pattern is neither left out nor taken.
    fn is_unmarked(&self, pattern: u32) -> bool
        ensures { result ≡ (not (mark_at self.now.marks.left_out.items pattern) && not (mark_at self.now.marks.taken.items pattern)) }
    {
        let left_out = is_marked(&self.marks.left_out, pattern);
        let taken = is_marked(&self.marks.taken, pattern);
        !left_out && !taken
    }

    /// Marks the base rows of the patterns that were taken since the last call. The path and the fixing stay.
    /// After a refusal for want of memory nothing is known of the walk.
    pub fn mark_rows(&mut self, model: &Model) -> Result<(), Memory>
        requires { IsWalk (packing model.now) self.old }
        ensures walk { OnOk result (IsWalk (packing model.now) self.new) }
        ensures path { OnOk result (self.new.path ≡ self.old.path) }
        ensures fixing { OnOk result (self.new.fixing ≡ self.old.fixing) }
        ensures all { OnOk result (self.new.marks.count ≡ length self.new.fixing.one) }
    {
        'taken: while self.marks.count < self.fixing.one.len() {
            self.mark_next(model)?;
        }
        Ok(())
    }

    // Marks the base rows of the first pattern whose rows are not marked.
    fn mark_next(&mut self, model: &Model) -> Result<(), Memory>
        requires walk { IsWalk (packing model.now) self.old }
        requires some { self.old.marks.count < length self.old.fixing.one }
        ensures walk { OnOk result (IsWalk (packing model.now) self.new) }
        ensures path { OnOk result (self.new.path ≡ self.old.path) }
        ensures fixing { OnOk result (self.new.fixing ≡ self.old.fixing) }
        ensures count { OnOk result (self.new.marks.count ≡ self.old.marks.count + 1) }
    {
        let _ = model.patterns();
        let pattern = self.fixing.one.as_slice()[self.marks.count];
        let runs = model.base_runs(pattern);
        fill(&mut self.marks.fillers, runs, pattern)?;
        self.marks.count += 1;
        Ok(())
    }

    /// From a branch to the part in which its pattern is left out. The walk stays one of a packing where the
    /// pattern is free there. After a refusal for want of memory nothing is known of the walk.
    pub fn branch(&mut self, pattern: u32) -> Result<(), Memory>
        ensures path { OnOk result (path_of self.new.path ≡ step_at pattern false ∷ path_of self.old.path) }
        ensures walk { OnOk result ((k : Packing) → IsWalk k self.old → can_branch k (fixing_of (path_of self.old.path)) pattern ≡ true → IsWalk k self.new) }
    {
        self.fixing.add_zero(pattern)?;
        put(&mut self.marks.left_out, pattern, true, false)?;
        self.path.push(Side {
            pattern,
            inside: false,
        })?;
        Ok(())
    }

    /// From a leaf to the next node: the part of the last branch on its first side in which its pattern is
    /// taken. Where there is no such branch the tree is at its end, and the path is empty. After a refusal
    /// for want of memory nothing is known of the walk.
    pub fn turn(&mut self) -> Result<(), Memory>
        ensures path { OnOk result (IsTurned (turn (path_of self.old.path)) (path_of self.new.path)) }
        ensures walk { OnOk result ((k : Packing) → IsWalk k self.old → IsWalk k self.new) }
    {
        'sides: while let Some(side) = self.path.pop() {
            if !side.inside {
                return self.take(side.pattern);
            }
            self.release(side.pattern);
        }
        Ok(())
    }

    // The pattern, which was the last that was taken, is taken no longer.
    fn release(&mut self, pattern: u32)
        ensures path { self.new.path ≡ self.old.path }
        ensures walk { (k : Packing) → IsInside k pattern self.old → IsWalk k self.new }
    {
        self.fixing.drop_one();
        self.marks.release(pattern, self.fixing.one.len());
    }

    // The pattern, which was the last that was left out, is taken.
    fn take(&mut self, pattern: u32) -> Result<(), Memory>
        ensures path { OnOk result (path_of self.new.path ≡ step_at pattern true ∷ path_of self.old.path) }
        ensures walk { OnOk result ((k : Packing) → IsOutside k pattern self.old → IsWalk k self.new) }
    {
        self.fixing.drop_zero();
        clear(&mut self.marks.left_out, pattern);
        self.fixing.add_one(pattern)?;
        put(&mut self.marks.taken, pattern, true, false)?;
        self.path.push(Side {
            pattern,
            inside: true,
        })?;
        Ok(())
    }
}
