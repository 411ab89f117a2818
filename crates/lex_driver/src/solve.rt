ghost use Rattle.std.specs.Prelude.{◌≡◌, ◌≤◌, length, IfOk};
ghost use Rattle.problem_core.specs.Choice.{IsLegal};
ghost use Rattle.meeting_patterns.specs.Pattern.{patterns_of};
ghost use Rattle.packing_model.specs.Built.{measured, rows_of};
ghost use Rattle.branch_tree.specs.Logs.{moment};
ghost use Rattle.lex_driver.specs.Accounts.{Accounted};
ghost use Rattle.lex_driver.specs.Searches.{Searches};
ghost use Rattle.lex_driver.specs.Solving.{found_of, IsFoundSearch, IsSharedOf, IsSolved, Solves};
ghost use Rattle.lex_driver.specs.Writing.{IsFound};

use crate::search::{Search, Stopped, search_levels};
use branch_tree::Log;
use cert_checker::certificate_laws;
use cert_text::{Certificate, Tree, share, share_laws};
use exact_num::{Arith, Steps};
use packing_model::{Measured, Model, Pool};
use problem_core::{Choice, Memory, first_choice};
use search_nodes::measured_laws;
use std::alloc::Global;
use std::sync::ledger::Ledger;
use values::Items;

/// What the search over the six measures came to: a certificate of six finished levels; or one of the levels
/// below the level in which the budget was spent, with that level's unfinished tree, and the log of the
/// search.
#[derive(Drop)]
pub enum Solved {
    Optimal(Certificate),
    Open {
        level: u32,
        certificate: Certificate,
        log: Log,
    },
}

/// The best choice of rooms in the six measures, compared one after the other, with a certificate of it: the
/// levels are searched by [`search_levels`] from the first choice on.
///
/// The certificate is of version 2, inside the bounds of its text, and valid for its finished levels, in which
/// its choice is best. `Optimal` has six finished trees with at most `budget` branches in all of them. `Open`
/// comes only where exactly `budget` branches were made, fewer than `6 * (2^n - 1)` for n patterns: then the
/// log accounts for the certificate in its form with each leaf where it stands, and says why the search
/// stopped at its first open end. It fails only where memory runs out.
///
/// Comparing measures one after the other, with the values of the earlier ones as rows: Phillips, Waterer,
/// Ehrgott and Ryan (2015).
pub fn solve_levels<A: Arith, L: Ledger>(
    alloc: Global,
    model: &Model,
    budget: u64,
    arith: &mut A,
    steps: &mut Steps<L>,
) -> Result<Solved, Memory>
    requires { budget ≤ 1000000 }
    ensures { IfOk result (Solves model.now budget (moment (A.wides arith.old) steps.old 0) (A.wides arith.new) steps.new) }
{
    model.laws();
    measured_laws(model);
    certificate_laws();
    let start = first_choice(alloc, model.problem())?;
    let stopped = search_measures(alloc, model, start, budget, arith, steps)?;
    let Stopped { search, unfinished } = stopped;
    certified(alloc, model, search, unfinished)
}

/// The search over the six measures from a legal choice.
fn search_measures<A: Arith, L: Ledger>(
    alloc: Global,
    model: &Model,
    start: Choice,
    budget: u64,
    arith: &mut A,
    steps: &mut Steps<L>,
) -> Result<Stopped, Memory>
    requires legal { IsLegal model.now start.entries }
    requires few { budget ≤ 1000000 }
    ensures searches { IfOk result (Searches model.now (measured model.now) 6 budget) }
    ensures logged { IfOk result (λ stopped. Accounted model.now (measured model.now) stopped.search (moment (A.wides arith.old) steps.old 0) (moment (A.wides arith.new) steps.new (length stopped.search.pool)) stopped.unfinished) }
{
    measured_laws(model);
    let measured = Measured::new(model);
    search_levels(alloc, model, &measured, start, budget, arith, steps)
}

/// The certificate of what the search found, with the level and the log where it was stopped.
fn certified(
    alloc: Global,
    model: &Model,
    search: Search,
    unfinished: Option<Tree>,
) -> Result<Solved, Memory>
    requires { IsFoundSearch model.now search unfinished }
    ensures { IfOk result (IsSolved model.now search unfinished) }
{
    measured_laws(model);
    sizes(model, &search.pool);
    let is_open = unfinished.is_some();
    let Search {
        trees,
        choice,
        pool,
        log,
        ..
    } = search;
    let level = trees.len() as u32 + 1;
    let certificate = certificate_of(alloc, model, trees, choice, &pool, unfinished)?;
    if is_open {
        Ok(Solved::Open {
            level,
            certificate,
            log,
        })
    } else {
        Ok(Solved::Optimal(certificate))
    }
}

/// What holds of every model and pool: there are few patterns, base rows, cuts, meetings and rooms.
fn sizes(model: &Model, pool: &Pool)
    ensures patterns { length (patterns_of model.now) ≤ 200000 }
    ensures rows { length (rows_of model.now) ≤ 4000 }
    ensures events { length model.now.events ≤ 4000 }
    ensures rooms { length model.now.capacity ≤ 200 }
    ensures cuts { length pool.now ≤ 1000 }
{
    let _ = model.patterns();
    let _ = model.base_len();
    let _ = model.problem().event_count();
    let _ = model.problem().room_count();
    let _ = pool.len();
}

/// The certificate of what was found, with equal leaves shared.
fn certificate_of(
    alloc: Global,
    model: &Model,
    trees: Items<Tree>,
    choice: Choice,
    pool: &Pool,
    unfinished: Option<Tree>,
) -> Result<Certificate, Memory>
    requires { IsFound model.now trees unfinished pool.now choice.entries }
    ensures { IfOk result (IsSharedOf model.now trees choice.entries pool.now unfinished) }
{
    share_laws();
    let found = found(alloc, model, trees, choice, pool, unfinished)?;
    match share(alloc, &found) {
        Ok(certificate) => Ok(certificate),
        Err(_) => Err(Memory),
    }
}

/// The certificate of what was found, with each leaf where it stands.
fn found(
    alloc: Global,
    model: &Model,
    trees: Items<Tree>,
    choice: Choice,
    pool: &Pool,
    unfinished: Option<Tree>,
) -> Result<Certificate, Memory>
    requires { IsLegal model.now choice.entries }
    ensures { IfOk result (λ c. c ≡ found_of model.now trees choice.entries pool.now unfinished) }
{
    let cuts = cuts_of(alloc, pool)?;
    let values = model.problem().values(&choice);
    Ok(Certificate {
        version: 1,
        patterns: model.patterns().len(),
        rows: model.base_len(),
        choice: choice.entries,
        values,
        cuts,
        levels: trees,
        unfinished,
    })
}

/// The patterns of each cut.
fn cuts_of(alloc: Global, pool: &Pool) -> Result<Items<Items<u32>>, Memory>
    ensures { IfOk result (λ cuts. cuts ≡ pool.now) }
{
    let mut cuts = Items::new(alloc);
    for cut in 0..pool.len() {
        let patterns = Items::from_slice(alloc, pool.get(cut).patterns())?;
        cuts.push(patterns)?;
    }
    Ok(cuts)
}
