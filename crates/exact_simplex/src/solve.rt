ghost use Rattle.std.specs.Prelude.{◌≡◌, ◌≤◌, length, true};
ghost use Rattle.exact_simplex.specs.Enter.{IsExtreme};
ghost use Rattle.exact_simplex.specs.Ray.{IsDirection};
ghost use Rattle.simplex_tableau.specs.Sparse.{PlacesBelow};
ghost use Rattle.exact_simplex.specs.Answer.{Answers, AnswersBest, Concludes, ConcludesAfter};
ghost use Rattle.simplex_tableau.specs.Ends.{Ends};
ghost use Rattle.exact_simplex.specs.Keeping.{IsDual};
ghost use Rattle.exact_simplex.specs.Final.{Describes, AreSettled};
ghost use Rattle.exact_simplex.specs.Progress.{IsProgress, size_of};
ghost use Rattle.exact_simplex.specs.Task.{IsTask, pivot_limit};

use crate::answer::{best, empty, ray};
use crate::build::build;
use crate::column_values::values_of_columns;
use crate::drive::{Driven, drive};
use crate::force::{Blocked, row_of};
use crate::multipliers::ascend_kept;
use crate::pricing::Pricing;
use crate::progress::{Progress, Task};
use crate::rows::{force_rows, lead_rows};
use crate::start::start;
use crate::task::{Lp, LpAnswer, LpRow, Plan, RowKind};
use exact_num::{Arith, Memory, Steps};
use simplex_tableau::{Entry, Fault, add_times, append_number, repeated};
use std::alloc::Global;
use std::sync::ledger::Ledger;

/// The greatest number of pivots of a call.
fn limit_of(lp: &Lp) -> u64
    requires { IsTask lp.now }
    ensures { result ≡ pivot_limit lp.now }
{
    20 * (lp.rows.len() as u64 + u64::from(lp.columns)) + 1000
}

/// The point of the last basis and the multipliers that show that it is best.
fn best_point<A: Arith>(
    alloc: Global,
    arith: &mut A,
    lp: &Lp,
    task: &Task<A::Num>,
    progress: &Progress<A::Num>,
    y: &[A::Num],
) -> Result<LpAnswer, Fault>
    requires describes { Describes A.Num.value lp.now task.now }
    requires progress { IsProgress A.Num.value task.now progress.now }
    requires settled { AreSettled lp.now progress.now.states.items }
    requires dual { IsDual A.Num.value task.now progress.now (length lp.now.rows) y.now }
    requires extreme { IsExtreme A.Num.value task.now progress.now.states.items y.now true }
    ensures { Ends (A.wides arith.old) (A.wides arith.new) (AnswersBest lp.now) result }
{
    let tableau = &progress.tableau;
    let x = values_of_columns(alloc, arith, task.columns, &tableau.basis, &tableau.point)?;
    best(alloc, arith, lp, &x, &y[..lp.rows.len()])
}

/// How the columns move where a variable grows by 1 that no row stops.
fn direction<A: Arith>(
    alloc: Global,
    arith: &mut A,
    task: &Task<A::Num>,
    progress: &Progress<A::Num>,
    entering: usize,
    made: &[Entry<A::Num>],
) -> Result<Vec<A::Num>, Fault>
    requires made { PlacesBelow (size_of task.now) made.now }
    requires basis { length progress.now.tableau.basis.items ≡ size_of task.now }
    ensures { Ends (A.wides arith.old) (A.wides arith.new) (λ v. IsDirection A.Num.value task.now progress.now entering made.now v.items) result }
{
    let zero = arith.from_int(0)?;
    let one = arith.from_int(1)?;
    let minus = arith.from_int(-1)?;
    let mut moves = repeated(alloc, zero, task.sides.len())?;
    add_times(arith, &mut moves, minus, made)?;
    append_number(&mut moves, one)?;
    let mut variables = Vec::from_slice(alloc, &progress.tableau.basis)?;
    append_number(&mut variables, entering)?;
    values_of_columns(alloc, arith, task.columns, &variables, &moves)
}

/// Drives the gain up from a point that meets the rows, by whatever helps.
fn raise_fully<A: Arith, L: Ledger>(
    alloc: Global,
    arith: &mut A,
    steps: &mut Steps<L>,
    lp: &Lp,
    task: &Task<A::Num>,
    progress: &mut Progress<A::Num>,
    pricing: &mut Pricing,
    limit: u64,
) -> Result<LpAnswer, Fault>
    requires task { IsTask lp.now }
    requires limit { limit ≡ pivot_limit lp.now }
    requires describes { Describes A.Num.value lp.now task.now }
    requires progress { IsProgress A.Num.value task.now progress.old }
    requires settled { AreSettled lp.now progress.old.states.items }
    requires within { progress.old.pivots ≤ limit }
    ensures ends { Ends (A.wides arith.old) (A.wides arith.new) (ConcludesAfter lp.now progress.old.pivots steps.old steps.new) result }
    ensures later { steps.old ≤ steps.new }
{
    let row = lp.rows.len() as u32;
    let mut y = row_of(alloc, arith, &progress.tableau.inverse, row)?;
    match drive(
        alloc, arith, steps, task, progress, pricing, &mut y, row, true, limit,
    )? {
        Driven::Left => unreachable!(),
        Driven::Stuck => best_point(alloc, arith, lp, task, progress, &y),
        Driven::Unbounded { entering, made } => {
            let x = direction(alloc, arith, task, progress, entering, made.as_slice())?;
            ray(alloc, arith, lp, &x)
        }
        Driven::Stalled => Ok(LpAnswer::Stalled {
            pivots: progress.pivots,
        }),
    }
}

/// Drives the gain up from a point that meets the rows. Where rows are kept, that they stay kept is tried
/// first.
fn raise_gain<A: Arith, L: Ledger>(
    alloc: Global,
    arith: &mut A,
    steps: &mut Steps<L>,
    lp: &Lp,
    task: &Task<A::Num>,
    progress: &mut Progress<A::Num>,
    pricing: &mut Pricing,
    limit: u64,
) -> Result<LpAnswer, Fault>
    requires task { IsTask lp.now }
    requires limit { limit ≡ pivot_limit lp.now }
    requires describes { Describes A.Num.value lp.now task.now }
    requires progress { IsProgress A.Num.value task.now progress.old }
    requires settled { AreSettled lp.now progress.old.states.items }
    requires within { progress.old.pivots ≤ limit }
    ensures ends { Ends (A.wides arith.old) (A.wides arith.new) (ConcludesAfter lp.now progress.old.pivots steps.old steps.new) result }
    ensures later { steps.old ≤ steps.new }
{
    if !pricing.holds() {
        return raise_fully(alloc, arith, steps, lp, task, progress, pricing, limit);
    }
    let gain = lp.rows.len() as u32;
    match ascend_kept(alloc, arith, steps, task, progress, pricing, gain, limit)? {
        Some(y) => best_point(alloc, arith, lp, task, progress, &y),
        None => {
            pricing.let_go(alloc);
            raise_fully(alloc, arith, steps, lp, task, progress, pricing, limit)
        }
    }
}

/// Solves a task, or says why a step has no answer.
fn solve<A: Arith, L: Ledger>(
    alloc: Global,
    lp: &Lp,
    plan: Plan,
    arith: &mut A,
    steps: &mut Steps<L>,
) -> Result<LpAnswer, Fault>
    requires { IsTask lp.now }
    ensures ends { Ends (A.wides arith.old) (A.wides arith.new) (Concludes lp.now steps.old steps.new) result }
    ensures later { steps.old ≤ steps.new }
{
    let task = build(alloc, arith, lp)?;
    let mut progress = start(alloc, arith, &task)?;
    let limit = limit_of(lp);
    lead_rows(lp, &task, &mut progress, plan.leading);
    let mut pricing = Pricing::new(alloc);
    match force_rows(
        alloc,
        arith,
        steps,
        lp,
        plan,
        &task,
        &mut progress,
        &mut pricing,
        limit,
    )? {
        None => {
            pricing.release(alloc, plan.ascent.is_none());
            raise_gain(
                alloc,
                arith,
                steps,
                lp,
                &task,
                &mut progress,
                &mut pricing,
                limit,
            )
        }
        Some(Blocked::Empty(y)) => empty(alloc, arith, lp, &y[..lp.rows.len()]),
        Some(Blocked::Stalled) => Ok(LpAnswer::Stalled {
            pivots: progress.pivots,
        }),
    }
}

/// The number of rows that bound their sums before the first that fixes it.
fn bounds_before(rows: &[LpRow]) -> u32 {
    let mut count = 0u32;
    for row in rows {
        match row.kind {
            RowKind::Equal => return count,
            RowKind::AtMost => count = count.saturating_add(1),
        }
    }
    count
}

/// Solves a linear program by the simplex method in exact fractions (G. B. Dantzig, 1951), over the inverse
/// of the basis (G. B. Dantzig and W. Orchard-Hays, 1954).
///
/// An answer is its own proof: `Best`, `Empty` and `Ray` hold the numbers that show them. `Wide` comes only
/// where `arith` refused a number and counted it. `steps` counts the pivots of the call; there are at most
/// `20 * (rows + columns) + 1000`, and `Stalled` comes exactly where so many gave no answer. Memory may run
/// out. Each column that an entry names is one of the task's, there is one gain a column, and there are
/// fewer than 2^32 rows.
pub fn solve_lp<A: Arith, L: Ledger>(
    alloc: Global,
    lp: &Lp,
    arith: &mut A,
    steps: &mut Steps<L>,
) -> Result<LpAnswer, Memory>
    requires { IsTask lp.now }
    ensures answers { Answers lp.now (A.wides arith.old) (A.wides arith.new) steps.old steps.new result }
    ensures later { steps.old ≤ steps.new }
{
    let plan = Plan {
        leading: bounds_before(lp.rows.as_slice()),
        ascent: None,
    };
    solve_by_plan(alloc, lp, plan, arith, steps)
}

/// Solves a linear program as `solve_lp` does, with rows that come in force in the order of a plan.
pub fn solve_by_plan<A: Arith, L: Ledger>(
    alloc: Global,
    lp: &Lp,
    plan: Plan,
    arith: &mut A,
    steps: &mut Steps<L>,
) -> Result<LpAnswer, Memory>
    requires { IsTask lp.now }
    ensures answers { Answers lp.now (A.wides arith.old) (A.wides arith.new) steps.old steps.new result }
    ensures later { steps.old ≤ steps.new }
{
    match solve(alloc, lp, plan, arith, steps) {
        Ok(answer) => Ok(answer),
        Err(Fault::Wide) => Ok(LpAnswer::Wide),
        Err(Fault::Memory) => Err(Memory),
    }
}
