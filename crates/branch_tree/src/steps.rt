ghost use Rattle.std.specs.Prelude.{◌≡◌, ◌≤◌, ◌<◌, ◌+◌, ◌∷◌, ◌++◌, ◌⊎◌, ◌^◌, [], ℕ, Some, true, length, IfOk, OnOk};
ghost use Rattle.problem_core.specs.Choice.{IsLegal};
ghost use Rattle.duality.specs.Tree.{can_branch};
ghost use Rattle.duality.specs.Units.{branch_count};
ghost use Rattle.duality.specs.Walk.{fixing_of};
ghost use Rattle.packing_model.specs.Built.{packing};
ghost use Rattle.packing_model.specs.Closing.{counted};
ghost use Rattle.packing_model.specs.Cuts.{IsPoolOf, IsCutOf};
ghost use Rattle.packing_model.specs.Nodes.{stage_at};
ghost use Rattle.search_nodes.specs.Choices.{weighs};
ghost use Rattle.search_nodes.specs.Paths.{path_of};
ghost use Rattle.search_nodes.specs.Points.{IsGapPoint, IsPointOf};
ghost use Rattle.clique_cuts.specs.Separation.{KeepsTriples};
ghost use Rattle.node_bound.specs.Bounds.{Bounds, IsLevelAt, has_free};
ghost use Rattle.branch_tree.specs.Growths.{value_of, IsGrowth, IsStep};
ghost use Rattle.branch_tree.specs.Kept.{Keeps, NotesCut};
ghost use Rattle.branch_tree.specs.Logging.{IsBounded, IsLowestCause, Took, Logs};
ghost use Rattle.branch_tree.specs.Logs.{IsCaused};
ghost use Rattle.branch_tree.specs.Pools.{FindsCut};

use crate::budget::Budget;
use crate::fraction::lowest_fractional;
use crate::level::{Held, LevelAt};
use crate::log::{Cause, CutNote, Log, Unit};
use crate::state::{Growth, Step};
use clique_cuts::separate;
use duality::Objective;
use exact_num::{Arith, Steps};
use node_bound::{Bounded, Hints, bound_at, lowest_free};
use packing_model::{Cut, Model, ObjectiveAt, Point, Pool};
use problem_core::{Choice, Memory};
use search_nodes::{walk_laws, weigh_choice};
use std::alloc::Global;
use std::sync::ledger::Ledger;

/// The most cuts that a pool holds.
const MOST_CUTS: u32 = 1_000;

impl Growth {
    /// Takes the next step of the search: asks for the bound at the next node, and does what it says.
    pub(crate) fn step<O: Objective, A: Arith, L: Ledger>(
        &mut self,
        alloc: Global,
        at: &LevelAt<O>,
        pool: &mut Pool,
        budget: &mut Budget,
        log: &mut Log,
        hints: &mut Hints,
        arith: &mut A,
        steps: &mut Steps<L>,
    ) -> Result<Step, Memory>
        requires level { IsLevelAt at.now.model.now (counted (O.weight at.now.objective.now) (O.floor at.now.objective.now)) (O.count at.now.objective.now) (O.levels at.now.objective.now) at.now.level at.now.targets.now }
        requires kept { IsGrowth at.now.model.now (counted (O.weight at.now.objective.now) (O.floor at.now.objective.now)) at.now.level at.now.targets.now pool.old self.old }
        requires few { branch_count self.old.nodes + budget.old.left ≤ 1000000 }
        ensures step { IfOk result (IsStep at.now.model.now (counted (O.weight at.now.objective.now) (O.floor at.now.objective.now)) at.now.level at.now.targets.now self.old self.new pool.old pool.new budget.old.left budget.new.left) }
        ensures logged { IfOk result (λ step. Logs (packing at.now.model.now) (counted (O.weight at.now.objective.now) (O.floor at.now.objective.now)) at.now.level at.now.targets.now self.old self.new pool.old pool.new log.old log.new (A.wides arith.old) (A.wides arith.new) steps.old steps.new step) }
        ensures keeps { Keeps (packing at.now.model.now) pool.old pool.new budget.old.left budget.new.left log.old log.new }
    {
        let bounded = self.bound(alloc, at, pool, hints, arith, steps)?;
        self.follow(alloc, at, pool, budget, log, bounded)
    }

    /// The bound at the next node.
    fn bound<O: Objective, A: Arith, L: Ledger>(
        &self,
        alloc: Global,
        at: &LevelAt<O>,
        pool: &Pool,
        hints: &mut Hints,
        arith: &mut A,
        steps: &mut Steps<L>,
    ) -> Result<Bounded, Memory>
        requires level { IsLevelAt at.now.model.now (counted (O.weight at.now.objective.now) (O.floor at.now.objective.now)) (O.count at.now.objective.now) (O.levels at.now.objective.now) at.now.level at.now.targets.now }
        requires kept { IsGrowth at.now.model.now (counted (O.weight at.now.objective.now) (O.floor at.now.objective.now)) at.now.level at.now.targets.now pool.now self.now }
        ensures bounds { IfOk result (Bounds at.now.model.now (counted (O.weight at.now.objective.now) (O.floor at.now.objective.now)) (stage_at at.now.level at.now.targets.now (value_of self.now.held) pool.now) (fixing_of (path_of self.now.walk.path)) (A.wides arith.old) (A.wides arith.new) steps.old steps.new) }
        ensures wides { OnOk result (A.wides arith.old ≤ A.wides arith.new) }
        ensures steps { steps.old ≤ steps.new }
    {
        walk_laws();
        let node = ObjectiveAt {
            model: at.model,
            pool,
            fixing: &self.walk.fixing,
            objective: at.objective,
            level: at.level,
            targets: at.targets,
            best: self.value(),
        };
        bound_at(alloc, &node, hints, arith, steps)
    }

    /// Does what the bound says: a leaf closes the node; a better choice is held from now on, and the node
    /// is bounded again; a point is separated or branched on; where nothing was found the lowest free
    /// pattern is branched on.
    fn follow<O: Objective>(
        &mut self,
        alloc: Global,
        at: &LevelAt<O>,
        pool: &mut Pool,
        budget: &mut Budget,
        log: &mut Log,
        bounded: Bounded,
    ) -> Result<Step, Memory>
        requires level { IsLevelAt at.now.model.now (counted (O.weight at.now.objective.now) (O.floor at.now.objective.now)) (O.count at.now.objective.now) (O.levels at.now.objective.now) at.now.level at.now.targets.now }
        requires kept { IsGrowth at.now.model.now (counted (O.weight at.now.objective.now) (O.floor at.now.objective.now)) at.now.level at.now.targets.now pool.old self.old }
        requires bounds { IsBounded at.now.model.now (counted (O.weight at.now.objective.now) (O.floor at.now.objective.now)) (stage_at at.now.level at.now.targets.now (value_of self.old.held) pool.old) (fixing_of (path_of self.old.walk.path)) bounded }
        requires few { branch_count self.old.nodes + budget.old.left ≤ 1000000 }
        ensures step { IfOk result (IsStep at.now.model.now (counted (O.weight at.now.objective.now) (O.floor at.now.objective.now)) at.now.level at.now.targets.now self.old self.new pool.old pool.new budget.old.left budget.new.left) }
        ensures logged { IfOk result (λ step. (wides wides' steps steps' : ℕ) → wides ≤ wides' → steps ≤ steps' → Bounds at.now.model.now (counted (O.weight at.now.objective.now) (O.floor at.now.objective.now)) (stage_at at.now.level at.now.targets.now (value_of self.old.held) pool.old) (fixing_of (path_of self.old.walk.path)) wides wides' steps steps' bounded → Logs (packing at.now.model.now) (counted (O.weight at.now.objective.now) (O.floor at.now.objective.now)) at.now.level at.now.targets.now self.old self.new pool.old pool.new log.old log.new wides wides' steps steps' step) }
        ensures keeps { Keeps (packing at.now.model.now) pool.old pool.new budget.old.left budget.new.left log.old log.new }
    {
        match bounded {
            Bounded::Closed(leaf) => self.close(leaf),
            Bounded::Better(choice) => {
                self.improve(alloc, at, choice)?;
                Ok(Step::On)
            }
            Bounded::Gap(point) => self.part(alloc, at, pool, budget, log, point),
            Bounded::Wide { before, after } => {
                self.split_lowest(at, pool, budget, log, Cause::Wide { before, after })
            }
            Bounded::Stalled { pivots } => {
                self.split_lowest(at, pool, budget, log, Cause::Stalled { pivots })
            }
        }
    }

    /// A better choice takes the place of the one that is held.
    fn improve<O: Objective>(
        &mut self,
        alloc: Global,
        at: &LevelAt<O>,
        choice: Choice,
    ) -> Result<(), Memory>
        requires level { IsLevelAt at.now.model.now (counted (O.weight at.now.objective.now) (O.floor at.now.objective.now)) (O.count at.now.objective.now) (O.levels at.now.objective.now) at.now.level at.now.targets.now }
        requires legal { IsLegal at.now.model.now choice.entries }
        ensures { OnOk result (self.new ≡ record { nodes = self.old.nodes; walk = self.old.walk; held = Some (record { choice = choice; value = weighs at.now.model.now (counted (O.weight at.now.objective.now) (O.floor at.now.objective.now)) at.now.level choice.entries }) }) }
    {
        let value = weigh_choice(alloc, at.model, at.objective, at.level, &choice)?;
        self.held = Some(Held { choice, value });
        Ok(())
    }

    /// A point of the node: a cut that it breaks is added while there is room for one, and the node is to
    /// be bounded again; else it is branched on.
    fn part<O: Objective>(
        &mut self,
        alloc: Global,
        at: &LevelAt<O>,
        pool: &mut Pool,
        budget: &mut Budget,
        log: &mut Log,
        point: Point,
    ) -> Result<Step, Memory>
        requires kept { IsGrowth at.now.model.now (counted (O.weight at.now.objective.now) (O.floor at.now.objective.now)) at.now.level at.now.targets.now pool.old self.old }
        requires gap { IsGapPoint (packing at.now.model.now) (counted (O.weight at.now.objective.now) (O.floor at.now.objective.now)) (stage_at at.now.level at.now.targets.now (value_of self.old.held) pool.old) (fixing_of (path_of self.old.walk.path)) point }
        requires few { branch_count self.old.nodes + budget.old.left ≤ 1000000 }
        ensures step { IfOk result (IsStep at.now.model.now (counted (O.weight at.now.objective.now) (O.floor at.now.objective.now)) at.now.level at.now.targets.now self.old self.new pool.old pool.new budget.old.left budget.new.left) }
        ensures logged { IfOk result (λ step. (wides wides' steps steps' : ℕ) → wides ≤ wides' → steps ≤ steps' → Logs (packing at.now.model.now) (counted (O.weight at.now.objective.now) (O.floor at.now.objective.now)) at.now.level at.now.targets.now self.old self.new pool.old pool.new log.old log.new wides wides' steps steps' step) }
        ensures keeps { Keeps (packing at.now.model.now) pool.old pool.new budget.old.left budget.new.left log.old log.new }
    {
        match found_cut(alloc, at.model, pool, &point)? {
            Some(cut) => self.keep(at, pool, log, point, cut),
            None => self.split_point(at, pool, budget, log, point),
        }
    }

    /// Adds a cut, and its point to the log.
    fn keep<O: Objective>(
        &self,
        at: &LevelAt<O>,
        pool: &mut Pool,
        log: &mut Log,
        point: Point,
        cut: Cut,
    ) -> Result<Step, Memory>
        requires room { length pool.old < 1000 }
        requires few { length self.now.nodes < 2 ^ 32 }
        ensures { NotesCut (record { level = at.now.level; node = length self.now.nodes; value = value_of self.now.held; point = point }) cut pool.old pool.new log.old log.new result }
    {
        log.cuts.push(CutNote {
            level: at.level,
            node: self.nodes.len() as u32,
            value: self.value(),
            point,
        })?;
        match pool.add(cut) {
            Ok(_) => Ok(Step::On),
            Err(_) => Err(Memory),
        }
    }

    /// Branches on the lowest pattern of the point whose entry is less than the denominator.
    fn split_point<O: Objective>(
        &mut self,
        at: &LevelAt<O>,
        pool: &Pool,
        budget: &mut Budget,
        log: &mut Log,
        point: Point,
    ) -> Result<Step, Memory>
        requires kept { IsGrowth at.now.model.now (counted (O.weight at.now.objective.now) (O.floor at.now.objective.now)) at.now.level at.now.targets.now pool.now self.old }
        requires gap { IsGapPoint (packing at.now.model.now) (counted (O.weight at.now.objective.now) (O.floor at.now.objective.now)) (stage_at at.now.level at.now.targets.now (value_of self.old.held) pool.now) (fixing_of (path_of self.old.walk.path)) point }
        requires few { branch_count self.old.nodes + budget.old.left ≤ 1000000 }
        requires tight { KeepsTriples (packing at.now.model.now) point ⊎ (length pool.now ≡ 1000) }
        ensures step { IfOk result (IsStep at.now.model.now (counted (O.weight at.now.objective.now) (O.floor at.now.objective.now)) at.now.level at.now.targets.now self.old self.new pool.now pool.now budget.old.left budget.new.left) }
        ensures logged { IfOk result (λ step. (wides wides' steps steps' : ℕ) → wides ≤ wides' → steps ≤ steps' → Logs (packing at.now.model.now) (counted (O.weight at.now.objective.now) (O.floor at.now.objective.now)) at.now.level at.now.targets.now self.old self.new pool.now pool.now log.old log.new wides wides' steps steps' step) }
        ensures keeps { Keeps (packing at.now.model.now) pool.now pool.now budget.old.left budget.new.left log.old log.new }
    {
        match lowest_fractional(&point) {
            Some(pattern) => self.split(at, pool, budget, log, pattern, Cause::Gap(point)),
            None => unreachable!(),
        }
    }

    /// Branches on the lowest free pattern.
    fn split_lowest<O: Objective>(
        &mut self,
        at: &LevelAt<O>,
        pool: &Pool,
        budget: &mut Budget,
        log: &mut Log,
        cause: Cause,
    ) -> Result<Step, Memory>
        requires kept { IsGrowth at.now.model.now (counted (O.weight at.now.objective.now) (O.floor at.now.objective.now)) at.now.level at.now.targets.now pool.now self.old }
        requires free { has_free (packing at.now.model.now) (fixing_of (path_of self.old.walk.path)) ≡ true }
        requires few { branch_count self.old.nodes + budget.old.left ≤ 1000000 }
        requires caused { IsLowestCause (packing at.now.model.now) (counted (O.weight at.now.objective.now) (O.floor at.now.objective.now)) (stage_at at.now.level at.now.targets.now (value_of self.old.held) pool.now) (fixing_of (path_of self.old.walk.path)) cause }
        ensures step { IfOk result (IsStep at.now.model.now (counted (O.weight at.now.objective.now) (O.floor at.now.objective.now)) at.now.level at.now.targets.now self.old self.new pool.now pool.now budget.old.left budget.new.left) }
        ensures logged { IfOk result (λ step. (wides wides' steps steps' : ℕ) → wides ≤ wides' → steps ≤ steps' → Took cause wides wides' steps steps' → Logs (packing at.now.model.now) (counted (O.weight at.now.objective.now) (O.floor at.now.objective.now)) at.now.level at.now.targets.now self.old self.new pool.now pool.now log.old log.new wides wides' steps steps' step) }
        ensures keeps { Keeps (packing at.now.model.now) pool.now pool.now budget.old.left budget.new.left log.old log.new }
    {
        walk_laws();
        match lowest_free(at.model, &self.walk.fixing) {
            Some(pattern) => self.split(at, pool, budget, log, pattern, cause),
            None => unreachable!(),
        }
    }

    /// Branches on the pattern where the budget allows it: the branch is logged and paid for.
    fn split<O: Objective>(
        &mut self,
        at: &LevelAt<O>,
        pool: &Pool,
        budget: &mut Budget,
        log: &mut Log,
        pattern: u32,
        cause: Cause,
    ) -> Result<Step, Memory>
        requires kept { IsGrowth at.now.model.now (counted (O.weight at.now.objective.now) (O.floor at.now.objective.now)) at.now.level at.now.targets.now pool.now self.old }
        requires free { can_branch (packing at.now.model.now) (fixing_of (path_of self.old.walk.path)) pattern ≡ true }
        requires few { branch_count self.old.nodes + budget.old.left ≤ 1000000 }
        requires caused { IsCaused (packing at.now.model.now) (counted (O.weight at.now.objective.now) (O.floor at.now.objective.now)) (stage_at at.now.level at.now.targets.now (value_of self.old.held) pool.now) (fixing_of (path_of self.old.walk.path)) pattern cause }
        ensures step { IfOk result (IsStep at.now.model.now (counted (O.weight at.now.objective.now) (O.floor at.now.objective.now)) at.now.level at.now.targets.now self.old self.new pool.now pool.now budget.old.left budget.new.left) }
        ensures logged { IfOk result (λ step. (wides wides' steps steps' : ℕ) → wides ≤ wides' → steps ≤ steps' → Took cause wides wides' steps steps' → Logs (packing at.now.model.now) (counted (O.weight at.now.objective.now) (O.floor at.now.objective.now)) at.now.level at.now.targets.now self.old self.new pool.now pool.now log.old log.new wides wides' steps steps' step) }
        ensures keeps { Keeps (packing at.now.model.now) pool.now pool.now budget.old.left budget.new.left log.old log.new }
    {
        if budget.left == 0 {
            return Ok(Step::Spent);
        }
        log.units.push(Unit {
            level: at.level,
            node: self.nodes.len() as u32,
            pattern,
            cuts: pool.len(),
            value: self.value(),
            cause,
        })?;
        budget.left -= 1;
        self.branch(pattern)?;
        Ok(Step::On)
    }
}

/// A cut that the point breaks, while there is room for it.
fn found_cut(
    alloc: Global,
    model: &Model,
    pool: &Pool,
    point: &Point,
) -> Result<Option<Cut>, Memory>
    requires { IsPointOf (packing model.now) point.now }
    ensures { IfOk result (FindsCut (packing model.now) (length pool.now) point.now) }
{
    if pool.len() == MOST_CUTS {
        return Ok(None);
    }
    separate(alloc, model, point)
}
