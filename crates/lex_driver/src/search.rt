ghost use Rattle.std.specs.Prelude.{◌≡◌, ◌≤◌, ◌+◌, true, length, IfOk};
ghost use Rattle.problem_core.specs.Choice.{IsLegal};
ghost use Rattle.duality.specs.Packing.{meets_floor};
ghost use Rattle.packing_model.specs.Built.{packing};
ghost use Rattle.packing_model.specs.Closing.{counted, choice_of};
ghost use Rattle.branch_tree.specs.Logs.{moment};
ghost use Rattle.lex_driver.specs.Accounts.{Accounted, AccountsOn};
ghost use Rattle.lex_driver.specs.Searches.{HasLevels, IsSearch, Advances, Searches};

use branch_tree::{Budget, Held, LevelAt, Log, TreeGrown, grow_tree};
use cert_text::Tree;
use duality::Objective;
use exact_num::{Arith, Steps};
use node_bound::Hints;
use packing_model::{Model, Pool};
use problem_core::{Choice, Memory};
use search_nodes::weigh_choice;
use std::alloc::Global;
use std::sync::ledger::Ledger;
use values::Items;

/// The levels that were proved, with their trees and values, and the choice that has these values; the cuts,
/// what is left of the budget, and the log, which go on from level to level.
#[derive(Drop)]
pub struct Search {
    pub trees: Items<Tree>,
    pub targets: Items<i64>,
    pub choice: Choice,
    pub pool: Pool,
    pub budget: Budget,
    pub log: Log,
}

/// The search behind a level, with the level's tree where the budget was spent in it.
#[derive(Drop)]
pub struct Stopped {
    pub search: Search,
    pub unfinished: Option<Tree>,
}

/// Searches the levels of an objective one after the other, from a choice that is legal and reaches the floor,
/// with one budget, one pool of cuts and one log. Each level's tree is grown by [`branch_tree::grow_tree`]
/// from the choice that is held; where it is whole, what that choice weighs is the level's value, and the
/// trees of the levels below stay proved: a better choice of a later level has the same values below, and
/// cuts are only added.
///
/// Either all levels are proved, with at most `budget` branches; or the budget was spent in a level, with
/// exactly `budget` branches in all trees together, which are fewer than `2^n - 1` for each level over n
/// patterns. The log has a unit for each branch and a note for each cut, each with its lawful cause, and says
/// why the search stopped. It fails only where memory runs out.
pub fn search_levels<'x, O: Objective, A: Arith, L: Ledger>(
    alloc: Global,
    model: &'x Model,
    objective: &'x O,
    start: Choice,
    budget: u64,
    arith: &mut A,
    steps: &mut Steps<L>,
) -> Result<Stopped, Memory>
    requires levels { HasLevels model.now (counted (O.weight objective.now) (O.floor objective.now)) (O.count objective.now) (O.levels objective.now) }
    requires legal { IsLegal model.now start.entries }
    requires floor { meets_floor (packing model.now) (choice_of model.now start.entries) (O.floor objective.now) ≡ true }
    requires few { budget ≤ 1000000 }
    ensures searches { IfOk result (Searches model.now (counted (O.weight objective.now) (O.floor objective.now)) (O.levels objective.now) budget) }
    ensures logged { IfOk result (λ stopped. Accounted model.now (counted (O.weight objective.now) (O.floor objective.now)) stopped.search (moment (A.wides arith.old) steps.old 0) (moment (A.wides arith.new) steps.new (length stopped.search.pool)) stopped.unfinished) }
{
    let mut hints = Hints::new();
    let mut search = Search {
        trees: Items::new(alloc),
        targets: Items::new(alloc),
        choice: start,
        pool: Pool::new(alloc),
        budget: Budget { left: budget },
        log: Log::new(alloc),
    };
    for level in 0..objective.levels() {
        let stopped = search.advance(alloc, model, objective, level + 1, &mut hints, arith, steps)?;
        if stopped.unfinished.is_some() {
            return Ok(stopped);
        }
        search = stopped.search;
    }
    Ok(Stopped {
        search,
        unfinished: None,
    })
}

impl Search {
    /// Searches one more level.
    fn advance<'x, O: Objective, A: Arith, L: Ledger>(
        self,
        alloc: Global,
        model: &'x Model,
        objective: &'x O,
        level: u32,
        hints: &mut Hints,
        arith: &mut A,
        steps: &mut Steps<L>,
    ) -> Result<Stopped, Memory>
        requires levels { HasLevels model.now (counted (O.weight objective.now) (O.floor objective.now)) (O.count objective.now) (O.levels objective.now) }
        requires kept { IsSearch model.now (counted (O.weight objective.now) (O.floor objective.now)) self }
        requires next { level ≡ length self.targets + 1 }
        requires high { level ≤ O.levels objective.now }
        requires few { self.budget.left ≤ 1000000 }
        ensures advances { IfOk result (Advances model.now (counted (O.weight objective.now) (O.floor objective.now)) self) }
        ensures logged { IfOk result (AccountsOn model.now (counted (O.weight objective.now) (O.floor objective.now)) self (A.wides arith.old) steps.old (A.wides arith.new) steps.new) }
    {
        let Search {
            trees,
            targets,
            choice,
            pool,
            budget,
            log,
        } = self;
        let mut trees = trees;
        let mut targets = targets;
        let mut pool = pool;
        let mut budget = budget;
        let mut log = log;
        let at = LevelAt {
            model,
            objective,
            level,
            targets: targets.as_slice(),
        };
        let value = weigh_choice(alloc, model, objective, level, &choice)?;
        let held = Some(Held { choice, value });
        let grown = grow_tree(
            alloc,
            &at,
            held,
            &mut pool,
            &mut budget,
            &mut log,
            hints,
            arith,
            steps,
        )?;
        let TreeGrown {
            nodes,
            held,
            proved,
        } = grown;
        let Some(held) = held else {
            unreachable!();
        };
        if !proved {
            return Ok(Stopped {
                search: Search {
                    trees,
                    targets,
                    choice: held.choice,
                    pool,
                    budget,
                    log,
                },
                unfinished: Some(Tree { nodes }),
            });
        }
        trees.push(Tree { nodes })?;
        targets.push(held.value)?;
        Ok(Stopped {
            search: Search {
                trees,
                targets,
                choice: held.choice,
                pool,
                budget,
                log,
            },
            unfinished: None,
        })
    }
}
