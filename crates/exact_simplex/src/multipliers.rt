ghost use Rattle.std.specs.Prelude.{◌≡◌, ◌≤◌, ◌<◌, length, true};
ghost use Rattle.std.proofs.Common.{get_or};
ghost use Rattle.simplex_tableau.specs.Ends.{Ends};
ghost use Rattle.simplex_tableau.specs.Dense.{num};
ghost use Rattle.simplex_tableau.specs.Inverse.{AllRise};
ghost use Rattle.simplex_tableau.specs.Pivot.{dot};
ghost use Rattle.simplex_tableau.specs.declared.state.RowState.TheVariants as state;
ghost use Rattle.exact_simplex.specs.Enter.{Anything, IsExtreme};
ghost use Rattle.exact_simplex.specs.Keeping.{AscendsKept, IsCertified, IsDual};
ghost use Rattle.exact_simplex.specs.Progress.{IsTaskLists, IsProgress, size_of};

use crate::enter::choose_between;
use crate::force::{is_zero, row_of};
use crate::keeping::drive_kept;
use crate::pricing::Pricing;
use crate::progress::{Progress, Task};
use exact_num::{Arith, Fraction, Steps};
use simplex_tableau::{Entry, Fault, RowState, is_one, plus_times, price, sign, state_at};
use std::alloc::Global;
use std::cmp::Ordering;
use std::sync::ledger::Ledger;
use values::Items;

/// The sum of the products of two lists.
fn total<A: Arith>(arith: &mut A, y: &[A::Num], sides: &[A::Num]) -> Result<A::Num, Fault>
    requires { length y.now ≡ length sides.now }
    ensures { Ends (A.wides arith.old) (A.wides arith.new) (λ x. A.Num.value x ≡ dot (num A.Num.value y.now) (num A.Num.value sides.now) (length y.now)) result }
{
    let mut total = arith.from_int(0)?;
    for i in 0..y.len() {
        let sum = plus_times(arith, total, y[i], sides[i])?;
        total = sum;
    }
    Ok(total)
}

/// Whether multipliers have 1 at the row of the gain and give the gain of the point.
fn is_dual<A: Arith>(
    arith: &mut A,
    task: &Task<A::Num>,
    progress: &Progress<A::Num>,
    gain: u32,
    y: &[A::Num],
) -> Result<bool, Fault>
    requires progress { IsProgress A.Num.value task.now progress.now }
    requires gain { gain < size_of task.now }
    requires y { length y.now ≡ size_of task.now }
    ensures { Ends (A.wides arith.old) (A.wides arith.new) (λ found. found ≡ true → IsDual A.Num.value task.now progress.now gain y.now) result }
{
    if is_one(y[gain as usize]) {
        let given = total(arith, y, &task.sides)?;
        let rest = arith.sub(given, progress.tableau.point[gain as usize])?;
        return Ok(is_zero(rest));
    }
    Ok(false)
}

/// Whether no variable that may come in has a negative product with the multipliers.
fn covers<A: Arith>(
    arith: &mut A,
    task: &Task<A::Num>,
    states: &[RowState],
    y: &[A::Num],
) -> Result<bool, Fault>
    requires task { IsTaskLists task.now }
    requires y { length y.now ≡ size_of task.now }
    ensures { Ends (A.wides arith.old) (A.wides arith.new) (λ found. found ≡ true → IsExtreme A.Num.value task.now states.now y.now true) result }
{
    match choose_between(arith, task, states, y, true, 0, task.lists.len())? {
        None => Ok(true),
        Some(_) => Ok(false),
    }
}

/// Whether the multipliers show that the point is best.
fn is_certified<A: Arith>(
    arith: &mut A,
    task: &Task<A::Num>,
    progress: &Progress<A::Num>,
    gain: u32,
    y: &[A::Num],
) -> Result<bool, Fault>
    requires task { IsTaskLists task.now }
    requires progress { IsProgress A.Num.value task.now progress.now }
    requires gain { gain < size_of task.now }
    requires y { length y.now ≡ size_of task.now }
    ensures { Ends (A.wides arith.old) (A.wides arith.new) (λ found. found ≡ true → IsCertified A.Num.value task.now progress.now gain y.now) result }
{
    if !is_dual(arith, task, progress, gain, y)? {
        return Ok(false);
    }
    covers(arith, task, &progress.states, y)
}

/// A number over another that is negative.
fn over_negative<A: Arith>(
    arith: &mut A,
    number: A::Num,
    divisor: A::Num,
) -> Result<Option<A::Num>, Fault>
    ensures { Ends (A.wides arith.old) (A.wides arith.new) Anything result }
{
    match sign(divisor) {
        Ordering::Less => {
            let ratio = arith.div(number, divisor)?;
            Ok(Some(ratio))
        }
        Ordering::Equal | Ordering::Greater => Ok(None),
    }
}

/// How often a kept row has to be taken away for the product of a variable, where it is negative.
fn ratio_of<A: Arith>(
    arith: &mut A,
    task: &Task<A::Num>,
    states: &[RowState],
    y: &[A::Num],
    kept: &[A::Num],
    variable: usize,
) -> Result<Option<A::Num>, Fault>
    requires task { IsTaskLists task.now }
    requires y { length y.now ≡ size_of task.now }
    requires kept { length kept.now ≡ size_of task.now }
    requires variable { variable < length task.now.lists.items }
    ensures { Ends (A.wides arith.old) (A.wides arith.new) Anything result }
{
    match state_at(task.columns, states, variable) {
        RowState::AtLeast => {}
        RowState::Waiting | RowState::Above | RowState::Below | RowState::Zero => return Ok(None),
    }
    let column = task.lists[variable].as_slice();
    let product = price(arith, y, column)?;
    match sign(product) {
        Ordering::Less => {}
        Ordering::Equal | Ordering::Greater => return Ok(None),
    }
    let share = price(arith, kept, column)?;
    over_negative(arith, product, share)
}

/// The greater of two numbers.
fn greater<N: Fraction>(one: N, other: Option<N>) -> N {
    match other {
        None => one,
        Some(number) => match one.cmp(&number) {
            Ordering::Less => number,
            Ordering::Equal | Ordering::Greater => one,
        },
    }
}

/// The opposite of the least whole number that is at least a number.
fn opposite_rounded_up<A: Arith>(arith: &mut A, x: A::Num) -> Result<A::Num, Fault>
    ensures { Ends (A.wides arith.old) (A.wides arith.new) Anything result }
{
    let up = match x.num().checked_div(x.den()) {
        None => 0,
        Some(whole) => {
            if x.den() == 1 {
                whole
            } else {
                whole.saturating_add(1)
            }
        }
    };
    let number = arith.from_int(up.saturating_neg())?;
    Ok(number)
}

/// How often a kept row has to be taken away so that no variable that it holds has a negative product.
fn ratio_of_all<A: Arith>(
    arith: &mut A,
    task: &Task<A::Num>,
    states: &[RowState],
    y: &[A::Num],
    kept: &[A::Num],
) -> Result<A::Num, Fault>
    requires task { IsTaskLists task.now }
    requires y { length y.now ≡ size_of task.now }
    requires kept { length kept.now ≡ size_of task.now }
    ensures { Ends (A.wides arith.old) (A.wides arith.new) Anything result }
{
    let mut most = arith.from_int(0)?;
    for variable in 0..task.lists.len() {
        let ratio = ratio_of(arith, task, states, y, kept, variable)?;
        most = greater(most, ratio);
    }
    Ok(most)
}

/// Adds `factor` * `source` to `y`.
fn add_row_times<A: Arith>(
    arith: &mut A,
    y: &mut [A::Num],
    factor: A::Num,
    source: &[A::Num],
) -> Result<(), Fault>
    requires { length y.old ≡ length source.now }
    ensures { Ends (A.wides arith.old) (A.wides arith.new) Anything result }
{
    for i in 0..y.len() {
        let sum = plus_times(arith, y[i], factor, source[i])?;
        y[i] = sum;
    }
    Ok(())
}

/// Takes the least whole multiple of a kept row away from the multipliers that makes the products of the
/// variables that it holds right.
fn take_away<A: Arith>(
    alloc: Global,
    arith: &mut A,
    task: &Task<A::Num>,
    progress: &Progress<A::Num>,
    row: u32,
    y: &mut [A::Num],
) -> Result<(), Fault>
    requires task { IsTaskLists task.now }
    requires progress { IsProgress A.Num.value task.now progress.now }
    requires y { length y.old ≡ size_of task.now }
    ensures { Ends (A.wides arith.old) (A.wides arith.new) Anything result }
{
    let kept = row_of(alloc, arith, &progress.tableau.inverse, row)?;
    let ratio = ratio_of_all(arith, task, &progress.states, y, &kept)?;
    let factor = opposite_rounded_up(arith, ratio)?;
    add_row_times(arith, y, factor, &kept)
}

/// Takes the kept rows away from the multipliers, from the last to the first.
fn take_all_away<A: Arith>(
    alloc: Global,
    arith: &mut A,
    task: &Task<A::Num>,
    progress: &Progress<A::Num>,
    kept: &[u32],
    y: &mut [A::Num],
) -> Result<(), Fault>
    requires task { IsTaskLists task.now }
    requires progress { IsProgress A.Num.value task.now progress.now }
    requires y { length y.old ≡ size_of task.now }
    ensures { Ends (A.wides arith.old) (A.wides arith.new) Anything result }
{
    for row in kept.iter().rev() {
        take_away(alloc, arith, task, progress, *row, y)?;
    }
    Ok(())
}

/// Drives the gain up by variables that keep the kept rows at their extremes, and gives multipliers that show
/// that the point is best, where a check finds them right.
pub(crate) fn ascend_kept<A: Arith, L: Ledger>(
    alloc: Global,
    arith: &mut A,
    steps: &mut Steps<L>,
    task: &Task<A::Num>,
    progress: &mut Progress<A::Num>,
    pricing: &mut Pricing,
    gain: u32,
    limit: u64,
) -> Result<Option<Vec<A::Num>>, Fault>
    requires task { IsTaskLists task.now }
    requires progress { IsProgress A.Num.value task.now progress.old }
    requires within { progress.old.pivots ≤ limit }
    requires gain { gain < size_of task.now }
    requires waits { get_or progress.old.states.items gain state.Waiting ≡ state.Waiting }
    ensures ends { Ends (A.wides arith.old) (A.wides arith.new) (AscendsKept A.Num.value task.now gain limit progress.old progress.new steps.old steps.new) result }
    ensures later { steps.old ≤ steps.new }
{
    let mut y = row_of(alloc, arith, &progress.tableau.inverse, gain)?;
    let _left = drive_kept(
        alloc, arith, steps, task, progress, pricing, &mut y, gain, true, limit,
    )?;
    take_all_away(alloc, arith, task, progress, pricing.kept(), &mut y)?;
    if is_certified(arith, task, progress, gain, &y)? {
        return Ok(Some(y));
    }
    Ok(None)
}
