ghost use Rattle.std.specs.Prelude.{◌≡◌, ◌≤◌, ◌<◌, length, IfErr};
ghost use Rattle.simplex_tableau.specs.declared.fault.Fault.TheVariants as fault;
ghost use Rattle.std.proofs.Common.{get_or};
ghost use Rattle.simplex_tableau.specs.Ends.{Ends};
ghost use Rattle.exact_simplex.specs.Final.{Describes};
ghost use Rattle.exact_simplex.specs.Force.{WaitsOrHolds, ForcesTo};
ghost use Rattle.exact_simplex.specs.Progress.{IsProgress, IsTaskLists, size_of};
ghost use Rattle.exact_simplex.specs.Rows.{AreForced, ForcesAll, LeadsTo, Ascends};
ghost use Rattle.exact_simplex.specs.Start.{Starts};
ghost use Rattle.exact_simplex.specs.Task.{IsTask};
ghost use Rattle.simplex_tableau.specs.declared.state.RowState.TheVariants as state;

use crate::force::{Blocked, force_row, row_of, set_state};
use crate::keeping::drive_kept;
use crate::pricing::{Pricing, freeze};
use crate::progress::{Progress, Task};
use crate::task::{Lp, LpRow, Plan, RowKind};
use exact_num::{Arith, Fraction, Steps};
use simplex_tableau::{Fault, RowState, sign};
use std::alloc::Global;
use std::cmp::Ordering;
use std::sync::ledger::Ledger;

/// Brings a waiting row in force where it bounds its sum and its slack is not negative.
fn lead_row<N: Fraction>(task: &Task<N>, progress: &mut Progress<N>, row: u32, kind: RowKind)
    requires progress { IsProgress N.value task.now progress.old }
    requires row { row < size_of task.now }
    requires waits { get_or progress.old.states.items row state.Waiting ≡ state.Waiting }
    ensures { LeadsTo N.value task.now row kind progress.old progress.new }
{
    match kind {
        RowKind::Equal => {}
        RowKind::AtMost => match sign(progress.tableau.point[row as usize]) {
            Ordering::Less => {}
            Ordering::Equal => set_state(task, progress, row, RowState::AtLeast),
            Ordering::Greater => set_state(task, progress, row, RowState::AtLeast),
        },
    }
}

/// Brings the leading rows in force that their slacks allow.
pub(crate) fn lead_rows<N: Fraction>(
    lp: &Lp,
    task: &Task<N>,
    progress: &mut Progress<N>,
    leading: u32,
)
    requires task { IsTask lp.now }
    requires describes { Describes N.value lp.now task.now }
    requires starts { Starts N.value task.now progress.old }
    ensures progress { IsProgress N.value task.now progress.new }
    ensures pivots { progress.new.pivots ≡ 0 }
    ensures forced { AreForced lp.now progress.new.states.items 0 }
{
    let rows = lp.rows.as_slice();
    for i in 0..rows.len() {
        if i < leading as usize {
            lead_row(task, progress, i as u32, rows[i].kind);
        }
    }
}

/// Drives the gain up, whatever it comes to, and keeps back what would lower it.
fn ascend<A: Arith, L: Ledger>(
    alloc: Global,
    arith: &mut A,
    steps: &mut Steps<L>,
    task: &Task<A::Num>,
    progress: &mut Progress<A::Num>,
    pricing: &mut Pricing,
    gain: u32,
    limit: u64,
) -> Result<(), Fault>
    requires task { IsTaskLists task.now }
    requires progress { IsProgress A.Num.value task.now progress.old }
    requires within { progress.old.pivots ≤ limit }
    requires gain { gain < size_of task.now }
    requires waits { get_or progress.old.states.items gain state.Waiting ≡ state.Waiting }
    ensures ends { Ends (A.wides arith.old) (A.wides arith.new) (λ _. Ascends A.Num.value task.now limit progress.old progress.new steps.old steps.new) result }
    ensures later { steps.old ≤ steps.new }
{
    let mut y = row_of(alloc, arith, &progress.tableau.inverse, gain)?;
    if drive_kept(
        alloc, arith, steps, task, progress, pricing, &mut y, gain, true, limit,
    )? {
        return Ok(());
    }
    freeze(alloc, arith, task, &y, pricing)
}

/// Drives the gain up where the plan says so, before row `row`.
fn ascend_before<A: Arith, L: Ledger>(
    alloc: Global,
    arith: &mut A,
    steps: &mut Steps<L>,
    task: &Task<A::Num>,
    progress: &mut Progress<A::Num>,
    pricing: &mut Pricing,
    plan: Plan,
    row: u32,
    gain: u32,
    limit: u64,
) -> Result<(), Fault>
    requires task { IsTaskLists task.now }
    requires progress { IsProgress A.Num.value task.now progress.old }
    requires within { progress.old.pivots ≤ limit }
    requires gain { gain < size_of task.now }
    requires waits { get_or progress.old.states.items gain state.Waiting ≡ state.Waiting }
    ensures ends { Ends (A.wides arith.old) (A.wides arith.new) (λ _. Ascends A.Num.value task.now limit progress.old progress.new steps.old steps.new) result }
    ensures later { steps.old ≤ steps.new }
{
    match plan.ascent {
        None => Ok(()),
        Some(before) => {
            if before == row {
                return ascend(alloc, arith, steps, task, progress, pricing, gain, limit);
            }
            Ok(())
        }
    }
}

/// Prices the columns of a row before all others while it is driven, where it bounds its sum and stands
/// behind the first ascent.
fn prefer_own(
    alloc: Global,
    pricing: &mut Pricing,
    plan: Plan,
    row: u32,
    lp_row: &LpRow,
) -> Result<(), Fault>
    ensures err { IfErr result (λ e. e ≡ fault.Memory) }
{
    match (plan.ascent, lp_row.kind) {
        (Some(before), RowKind::AtMost) => {
            if row >= before {
                return pricing.prefer(alloc, lp_row.entries.as_slice());
            }
            pricing.prefer(alloc, &[])
        }
        (Some(_), RowKind::Equal) => pricing.prefer(alloc, &[]),
        (None, _) => Ok(()),
    }
}

/// Brings a row in force, unless it is already.
fn take_row<A: Arith, L: Ledger>(
    alloc: Global,
    arith: &mut A,
    steps: &mut Steps<L>,
    task: &Task<A::Num>,
    progress: &mut Progress<A::Num>,
    pricing: &mut Pricing,
    plan: Plan,
    row: u32,
    lp_row: &LpRow,
    limit: u64,
) -> Result<Option<Blocked<A::Num>>, Fault>
    requires task { IsTaskLists task.now }
    requires progress { IsProgress A.Num.value task.now progress.old }
    requires within { progress.old.pivots ≤ limit }
    requires row { row < size_of task.now }
    requires waits { WaitsOrHolds lp_row.now.kind (get_or progress.old.states.items row state.Waiting) }
    ensures ends { Ends (A.wides arith.old) (A.wides arith.new) (ForcesTo A.Num.value task.now row lp_row.now.kind limit progress.old progress.new steps.old steps.new) result }
    ensures later { steps.old ≤ steps.new }
{
    match progress.states[row as usize] {
        RowState::Waiting => {
            prefer_own(alloc, pricing, plan, row, lp_row)?;
            force_row(
                alloc,
                arith,
                steps,
                task,
                progress,
                pricing,
                row,
                lp_row.kind,
                limit,
            )
        }
        RowState::Above | RowState::Below | RowState::AtLeast | RowState::Zero => Ok(None),
    }
}

/// Brings all rows in force, one after the other, and drives the gain up once before one of them where the
/// plan says so.
pub(crate) fn force_rows<A: Arith, L: Ledger>(
    alloc: Global,
    arith: &mut A,
    steps: &mut Steps<L>,
    lp: &Lp,
    plan: Plan,
    task: &Task<A::Num>,
    progress: &mut Progress<A::Num>,
    pricing: &mut Pricing,
    limit: u64,
) -> Result<Option<Blocked<A::Num>>, Fault>
    requires task { IsTask lp.now }
    requires describes { Describes A.Num.value lp.now task.now }
    requires progress { IsProgress A.Num.value task.now progress.old }
    requires within { progress.old.pivots ≤ limit }
    requires forced { AreForced lp.now progress.old.states.items 0 }
    ensures ends { Ends (A.wides arith.old) (A.wides arith.new) (ForcesAll A.Num.value lp.now task.now limit progress.old progress.new steps.old steps.new) result }
    ensures later { steps.old ≤ steps.new }
{
    let rows = lp.rows.as_slice();
    for i in 0..rows.len() {
        let gain = rows.len() as u32;
        ascend_before(
            alloc, arith, steps, task, progress, pricing, plan, i as u32, gain, limit,
        )?;
        if let Some(blocked) = take_row(
            alloc, arith, steps, task, progress, pricing, plan, i as u32, &rows[i], limit,
        )? {
            return Ok(Some(blocked));
        }
    }
    Ok(None)
}
