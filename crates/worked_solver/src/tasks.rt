//! Small tasks for the exact simplex.
ghost use Rattle.std.specs.Prelude.{◌≡◌, ◌<◌, true, length};
ghost use Rattle.exact_simplex.specs.Task.{IsTask, ColumnsBelow};
ghost use Rattle.worked_solver.specs.Ranges.{RowsIn};

use exact_num::{Arith, Steps};
use exact_simplex::{Lp, LpAnswer, LpRow, Plan, RowKind, solve_by_plan, solve_lp};
use std::alloc::Global;
use std::marker::Brand;
use std::sync::ledger::{Blank, Ledger};
use std::test::Fail;
use values::Items;

/// A row that bounds its sum.
pub fn at_most(alloc: Global, entries: &[(u32, i64)], side: i64) -> Result<LpRow, Fail> {
    let entries = Items::from_slice(alloc, entries)?;
    Ok(LpRow {
        kind: RowKind::AtMost,
        entries,
        side,
    })
}

/// A row that fixes its sum.
pub fn equal(alloc: Global, entries: &[(u32, i64)], side: i64) -> Result<LpRow, Fail> {
    let entries = Items::from_slice(alloc, entries)?;
    Ok(LpRow {
        kind: RowKind::Equal,
        entries,
        side,
    })
}

/// Whether a row names columns of a task alone.
fn is_in_range(columns: u32, entries: &[(u32, i64)]) -> bool
    ensures { result ≡ true → ColumnsBelow columns entries.now }
{
    for i in 0..entries.len() {
        if entries[i].0 >= columns {
            return false;
        }
    }
    true
}

/// Whether all rows do.
fn are_in_range(columns: u32, rows: &[LpRow]) -> bool
    ensures { result ≡ true → RowsIn columns rows.now }
{
    for i in 0..rows.len() {
        if !is_in_range(columns, rows[i].entries.as_slice()) {
            return false;
        }
    }
    true
}

/// Whether a task is one.
pub fn is_task(lp: &Lp) -> bool
    ensures { result ≡ true → IsTask lp.now }
{
    if lp.gain.len() != lp.columns as usize {
        return false;
    }
    if lp.rows.len() >= 4_294_967_296 {
        return false;
    }
    are_in_range(lp.columns, lp.rows.as_slice())
}

/// The answer to the task with these gains and rows, by a plan where there is one, with its pivots
/// counted in a ledger.
fn answer_counted<A: Arith, L: Ledger>(
    alloc: Global,
    arith: &mut A,
    blank: Blank,
    gain: &[i64],
    rows: Vec<LpRow>,
    plan: Option<Plan>,
) -> Result<LpAnswer, Fail>
    requires name { blank.name ≡ L.name }
    requires parts { blank.parts ≡ L.parts }
    requires some { 0 < blank.parts }
{
    let gain = Items::from_slice(alloc, gain)?;
    let Ok(columns) = u32::try_from(gain.len()) else {
        return Err(Fail::new("too many columns"));
    };
    let lp = Lp {
        columns,
        rows: Items::from(rows),
        gain,
    };
    let mut steps: Steps<L> = Steps::new(blank);
    if !is_task(&lp) {
        return Err(Fail::new("no task"));
    }
    match plan {
        None => Ok(solve_lp(alloc, &lp, arith, &mut steps)?),
        Some(plan) => Ok(solve_by_plan(alloc, &lp, plan, arith, &mut steps)?),
    }
}

/// The answer to the task with these gains and rows.
pub fn answer<A: Arith>(
    alloc: Global,
    arith: &mut A,
    gain: &[i64],
    rows: Vec<LpRow>,
) -> Result<LpAnswer, Fail> {
    answer_counted::<A, Brand>(alloc, arith, Blank::new(1), gain, rows, None)
}

/// The answer by a plan.
pub fn answer_by_plan<A: Arith>(
    alloc: Global,
    arith: &mut A,
    gain: &[i64],
    rows: Vec<LpRow>,
    plan: Plan,
) -> Result<LpAnswer, Fail> {
    answer_counted::<A, Brand>(alloc, arith, Blank::new(1), gain, rows, Some(plan))
}
