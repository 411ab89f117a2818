ghost use Rattle.std.specs.Prelude.{◌≡◌, ◌<◌, ◌≤◌, ◌++◌, ◌+◌, ◌^◌, IfOk, OnOk, length};
ghost use Rattle.duality.specs.Runs.{rows_from, rows_in, AreBelow};
ghost use Rattle.duality.specs.Sums.{AreRowsOf};
ghost use Rattle.meeting_patterns.specs.Pattern.{patterns_of};
ghost use Rattle.packing_model.specs.Built.{packing};
ghost use Rattle.packing_model.specs.Nodes.{stage_of};

use duality::{RowName, Run};
use packing_model::{Model, Pool};
use problem_core::Memory;
use std::alloc::Global;
use values::Items;

/// The base rows and cuts that the pattern stands in, each once.
pub(crate) fn rows_of(
    alloc: Global,
    model: &Model,
    pool: &Pool,
    pattern: u32,
) -> Result<Items<RowName>, Memory>
    requires { pattern < length (patterns_of model.now) }
    ensures { IfOk result (λ rows. AreRowsOf (packing model.now) (stage_of pool.now) rows pattern × (length rows ≤ 5000)) }
{
    let mut rows = Items::new(alloc);
    push_runs(&mut rows, model.base_runs(pattern))?;
    push_all(&mut rows, pool.cut_rows(pattern))?;
    Ok(rows)
}

/// Adds the rows of the runs.
fn push_runs(rows: &mut Items<RowName>, runs: &[Run]) -> Result<(), Memory>
    requires { AreBelow 4000 runs.now }
    ensures { OnOk result (rows.new ≡ rows.old ++ rows_in runs.now) }
{
    for run in runs {
        push_run(rows, *run)?;
    }
    Ok(())
}

/// Adds the rows of the run.
fn push_run(rows: &mut Items<RowName>, run: Run) -> Result<(), Memory>
    requires { run.first + run.count ≤ 4000 }
    ensures { OnOk result (rows.new ≡ rows.old ++ rows_from run.first run.count) }
{
    for row in run.first..run.first + run.count {
        rows.push(RowName::Base(row))?;
    }
    Ok(())
}

/// Adds the rows.
fn push_all(rows: &mut Items<RowName>, more: &[RowName]) -> Result<(), Memory>
    ensures { OnOk result (rows.new ≡ rows.old ++ more.now) }
{
    for row in more {
        rows.push(*row)?;
    }
    Ok(())
}
