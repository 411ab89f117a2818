ghost use Rattle.std.specs.Prelude.{◌≤◌, length, Some, IfOk};
ghost use Rattle.meeting_patterns.specs.Pattern.{patterns_of};
ghost use Rattle.problem_core.specs.Choice.{IsLegal};
ghost use Rattle.packing_model.specs.Built.{packing, measured, rows_of};
ghost use Rattle.packing_model.specs.Cuts.{IsPoolOf};
ghost use Rattle.node_bound.specs.Bounds.{IsLevelAt};
ghost use Rattle.branch_tree.specs.Growths.{value_of, IsHeldAt};
ghost use Rattle.branch_tree.specs.Kept.{Keeps};
ghost use Rattle.branch_tree.specs.Measured.{GrowsTo, IsEnded, LogsTo};
ghost use Rattle.branch_tree.specs.Trees.{Grows, LogsAll};

use crate::budget::Budget;
use crate::level::{Held, LevelAt};
use crate::log::Log;
use crate::tree::{TreeGrown, grow_tree};
use cert_text::Tree;
use exact_num::{Arith, Steps};
use node_bound::Hints;
use packing_model::{Measured, Model, Pool};
use problem_core::{Choice, Memory};
use search_nodes::measured_laws;
use std::alloc::Global;
use std::sync::ledger::Ledger;

/// The tree of a level of the measures, and the choice that is held at its end: a tree that proves the level
/// against the measure of the choice, or, where the budget is spent, one with open ends.
#[derive(Drop)]
pub enum Grown {
    Proved { tree: Tree, choice: Choice },
    Spent { tree: Tree, choice: Choice },
}

/// Grows the tree of a level of the measures from the choice that is best so far, by [`grow_tree`]; the
/// targets are its measures below the level. The choice that it gives is legal, has these measures too, and
/// has at least as much at the level. `Proved` comes with a tree that proves that no legal choice with these
/// measures has more; `Spent` comes only where the budget is 0 at a node with a free pattern. Each node is
/// inside the bounds of a certificate's lines. It fails only where memory runs out; then the budget, the log
/// and the pool hold what was done so far.
pub fn grow<A: Arith, L: Ledger>(
    alloc: Global,
    model: &Model,
    pool: &mut Pool,
    level: u32,
    best: Choice,
    budget: &mut Budget,
    log: &mut Log,
    arith: &mut A,
    steps: &mut Steps<L>,
) -> Result<Grown, Memory>
    requires low { 1 ≤ level }
    requires high { level ≤ 6 }
    requires legal { IsLegal model.now best.entries }
    requires few { budget.old.left ≤ 1000000 }
    requires pool { IsPoolOf (packing model.now) pool.old }
    ensures grows { IfOk result (GrowsTo model.now level best.entries pool.old pool.new budget.old.left budget.new.left) }
    ensures logged { IfOk result (LogsTo model.now level best.entries pool.old pool.new log.old log.new (A.wides arith.old) (A.wides arith.new) steps.old steps.new) }
    ensures keeps { Keeps (packing model.now) pool.old pool.new budget.old.left budget.new.left log.old log.new }
{
    measured_laws(model);
    let values = model.problem().values(&best);
    let below = level as usize - 1;
    let held = Held {
        choice: best,
        value: values[below],
    };
    let targets = &values[..below];
    let grown = grow_level(
        alloc, model, pool, level, targets, held, budget, log, arith, steps,
    )?;
    sizes(model, pool);
    let TreeGrown {
        nodes,
        held,
        proved,
    } = grown;
    let tree = Tree { nodes };
    match held {
        Some(held) => Ok(ended(tree, held.choice, proved)),
        None => unreachable!(),
    }
}

/// The tree of a level of the measures with its targets, from the choice that is held.
fn grow_level<A: Arith, L: Ledger>(
    alloc: Global,
    model: &Model,
    pool: &mut Pool,
    level: u32,
    targets: &[i64],
    held: Held,
    budget: &mut Budget,
    log: &mut Log,
    arith: &mut A,
    steps: &mut Steps<L>,
) -> Result<TreeGrown, Memory>
    requires level { IsLevelAt model.now (measured model.now) (length (patterns_of model.now)) 6 level targets.now }
    requires held { IsHeldAt model.now (measured model.now) level targets.now (Some held) }
    requires few { budget.old.left ≤ 1000000 }
    requires pool { IsPoolOf (packing model.now) pool.old }
    ensures grows { IfOk result (Grows model.now (measured model.now) level targets.now (Some held) pool.old pool.new budget.old.left budget.new.left) }
    ensures logged { IfOk result (λ grown. LogsAll (packing model.now) (measured model.now) level targets.now (Some held.value) (value_of grown.held) grown.nodes grown.proved pool.old pool.new log.old log.new (A.wides arith.old) (A.wides arith.new) steps.old steps.new) }
    ensures keeps { Keeps (packing model.now) pool.old pool.new budget.old.left budget.new.left log.old log.new }
{
    let measured = Measured::new(model);
    let at = LevelAt {
        model,
        objective: &measured,
        level,
        targets,
    };
    let mut hints = Hints::new();
    let held = Some(held);
    grow_tree(
        alloc, &at, held, pool, budget, log, &mut hints, arith, steps,
    )
}

/// The tree with its choice, as it ended.
fn ended(tree: Tree, choice: Choice, proved: bool) -> Grown
    ensures { IsEnded tree choice proved result }
{
    if proved {
        Grown::Proved { tree, choice }
    } else {
        Grown::Spent { tree, choice }
    }
}

/// What holds of every model and pool: there are few patterns, base rows and cuts.
fn sizes(model: &Model, pool: &Pool)
    ensures patterns { length (patterns_of model.now) ≤ 200000 }
    ensures rows { length (rows_of model.now) ≤ 4000 }
    ensures cuts { length pool.now ≤ 1000 }
{
    let _ = model.patterns();
    let _ = model.base_len();
    let _ = pool.len();
}
