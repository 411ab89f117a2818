ghost use Rattle.std.specs.Prelude.{◌≡◌, ◌≢◌, ◌≤◌, ◌<◌, ◌+◌, length};
ghost use Rattle.std.proofs.Common.{get_or};
ghost use Rattle.simplex_tableau.specs.Ends.{Ends};
ghost use Rattle.simplex_tableau.specs.Tableau.{basis_of};
ghost use Rattle.simplex_tableau.specs.declared.state.RowState.TheVariants as state;
ghost use Rattle.exact_simplex.specs.Keeping.{StepsKept, DrivesKept, kept_of};
ghost use Rattle.exact_simplex.specs.Progress.{IsTaskLists, IsProgress, IsRow, size_of};

use crate::drive::{Driven, bring_in};
use crate::pricing::{Pricing, choose_free};
use crate::progress::{Progress, Task};
use exact_num::{Arith, Fraction, Steps};
use simplex_tableau::{Fault, RowState, sign};
use std::alloc::Global;
use std::cmp::Ordering;
use std::sync::ledger::Ledger;

/// Whether the slack of a row that is driven up came to 0.
fn is_met<N: Fraction>(state: RowState, x: N) -> bool {
    match (state, sign(x)) {
        (RowState::Below, Ordering::Equal) => true,
        _ => false,
    }
}

/// What a pivot came to, in the words of `step_kept`.
fn rest_of<N: Fraction>(went: &Option<Driven<N>>) -> Option<bool>
    ensures { result ≡ kept_of went.now }
{
    match went {
        None => None,
        Some(Driven::Left) => Some(true),
        Some(Driven::Stuck) => Some(false),
        Some(Driven::Unbounded { .. }) => Some(false),
        Some(Driven::Stalled) => Some(false),
    }
}

/// Drives the slack of a row by one pivot that keeps the kept rows at their extremes. `None` says that it
/// goes on, and else whether the slack left the basis.
fn step_kept<A: Arith, L: Ledger>(
    alloc: Global,
    arith: &mut A,
    steps: &mut Steps<L>,
    task: &Task<A::Num>,
    progress: &mut Progress<A::Num>,
    pricing: &mut Pricing,
    y: &mut [A::Num],
    row: u32,
    up: bool,
    limit: u64,
) -> Result<Option<bool>, Fault>
    requires task { IsTaskLists task.now }
    requires progress { IsProgress A.Num.value task.now progress.old }
    requires within { progress.old.pivots ≤ limit }
    requires row { row < size_of task.now }
    requires own_place { basis_of progress.old.tableau row ≡ task.now.columns + row }
    requires driven { get_or progress.old.states.items row state.Waiting ≢ state.AtLeast }
    requires y { IsRow A.Num.value (size_of task.now) progress.old.tableau row y.old }
    ensures ends { Ends (A.wides arith.old) (A.wides arith.new) (StepsKept A.Num.value task.now row limit progress.old progress.new y.new steps.old steps.new) result }
    ensures later { steps.old ≤ steps.new }
{
    if is_met(
        progress.states[row as usize],
        progress.tableau.point[row as usize],
    ) {
        return Ok(Some(false));
    }
    let Some(entering) = choose_free(alloc, arith, task, &progress.states, y, up, pricing)? else {
        return Ok(Some(false));
    };
    let went = bring_in(
        alloc, arith, steps, task, progress, y, row, up, entering, limit,
    )?;
    Ok(rest_of(&went))
}

/// Drives the slack of a row up or down until it leaves, comes to 0 from below, or no variable helps that
/// keeps the kept rows at their extremes; no longer than the pivots have not reached their limit. Says
/// whether the slack left the basis. `y` is the row of the inverse throughout.
pub(crate) fn drive_kept<A: Arith, L: Ledger>(
    alloc: Global,
    arith: &mut A,
    steps: &mut Steps<L>,
    task: &Task<A::Num>,
    progress: &mut Progress<A::Num>,
    pricing: &mut Pricing,
    y: &mut [A::Num],
    row: u32,
    up: bool,
    limit: u64,
) -> Result<bool, Fault>
    requires task { IsTaskLists task.now }
    requires progress { IsProgress A.Num.value task.now progress.old }
    requires within { progress.old.pivots ≤ limit }
    requires row { row < size_of task.now }
    requires own_place { basis_of progress.old.tableau row ≡ task.now.columns + row }
    requires driven { get_or progress.old.states.items row state.Waiting ≢ state.AtLeast }
    requires y { IsRow A.Num.value (size_of task.now) progress.old.tableau row y.old }
    ensures ends { Ends (A.wides arith.old) (A.wides arith.new) (DrivesKept A.Num.value task.now row limit progress.old progress.new y.new steps.old steps.new) result }
    ensures later { steps.old ≤ steps.new }
{
    'drive: loop {
        if let Some(left) = step_kept(
            alloc, arith, steps, task, progress, pricing, y, row, up, limit,
        )? {
            return Ok(left);
        }
    }
}
