ghost use Rattle.std.specs.Prelude.{◌≡◌, ◌<◌, ◌≤◌, ◌+◌, ◌++◌, ℕ, true, IfOk, OnOk, length, slice_index};
ghost use Rattle.std.specs.List.{flat_map, AllByRecursion};
ghost use Rattle.numbers.specs.Sums.{member};
ghost use Rattle.problem_core.specs.Valid.{IsProblem};
ghost use Rattle.meeting_patterns.specs.Pattern.{ArePatterns};
ghost use Rattle.packing_model.specs.Keys.{AreRuns, AreWeights, key_end, named, number_in};
ghost use Rattle.packing_model.specs.Runs.{merged, no_run, with_row, ended, as_list};

use crate::keys::put_keys;
use duality::Run;
use meeting_patterns::{PatternSet, weights};
use problem_core::Problem;
use std::alloc::{AllocError, Global};

/// The base rows of one pattern after the other, as runs, and where those of each begin; the last start is
/// the end of all runs. So a meeting of many slots takes no more room than one of a single slot.
#[derive(Drop)]
pub struct RunTable {
    pub runs: Vec<Run>,
    pub starts: Vec<usize>,
}

/// The base rows of each pattern. `numbers` has by key the number of its row + 1, at most 4,000, or 0.
pub fn run_table(
    alloc: Global,
    p: &Problem,
    s: &PatternSet,
    numbers: &[u32],
) -> Result<RunTable, AllocError>
    requires patterns { ArePatterns p.now s.now }
    requires problem { IsProblem p.now }
    requires whole { length numbers.now ≡ key_end p.now }
    requires few { (k : ℕ) → slice_index numbers.now k ≤ 4000 }
    ensures { IfOk result (λ t. AreRuns p.now numbers.now s.now (length s.now) (length s.now + 1) t.runs.items t.starts.items) }
{
    let mut table = RunTable {
        runs: Vec::new(alloc),
        starts: Vec::new(alloc),
    };
    let mut keys = Vec::new(alloc);
    let mut rows = Vec::new(alloc);
    for i in 0..s.len() {
        put_keys(&mut keys, p, s.get(i))?;
        put_rows(&mut rows, numbers, &keys)?;
        table.starts.push(table.runs.len())?;
        add_runs(&mut table.runs, &rows)?;
    }
    table.starts.push(table.runs.len())?;
    Ok(table)
}

/// Writes the rows of those of the keys that have one in place of what the list holds.
fn put_rows(rows: &mut Vec<u32>, numbers: &[u32], keys: &[u32]) -> Result<(), AllocError>
    requires { (k : ℕ) → member k keys.now ≡ true → k < length numbers.now }
    ensures { OnOk result (rows.new.items ≡ flat_map (named numbers.now) keys.now) }
{
    rows.clear();
    for key in keys {
        add_row(rows, numbers[*key as usize])?;
    }
    Ok(())
}

/// Adds the row whose number + 1 is given, where it isn't 0.
fn add_row(rows: &mut Vec<u32>, number: u32) -> Result<(), AllocError>
    ensures { OnOk result (rows.new.items ≡ rows.old.items ++ number_in number) }
{
    if number != 0 {
        rows.push(number - 1)?;
    }
    Ok(())
}

/// Adds the rows, those that follow one another as one run.
fn add_runs(runs: &mut Vec<Run>, rows: &[u32]) -> Result<(), AllocError>
    requires { AllByRecursion (λ r. r < 4000) rows.now }
    ensures { OnOk result (runs.new.items ≡ runs.old.items ++ merged no_run rows.now) }
{
    let mut run = Run { first: 0, count: 0 };
    for row in rows {
        run = next_run(runs, run, *row)?;
    }
    push_run(runs, run)?;
    Ok(())
}

/// The run with one row more where the row follows it. Otherwise the run is added, and a new one begins.
fn next_run(runs: &mut Vec<Run>, run: Run, row: u32) -> Result<Run, AllocError>
    requires low { run.first + run.count ≤ 4000 }
    requires row { row < 4000 }
    ensures run { IfOk result (λ r. r ≡ with_row run row) }
    ensures runs { IfOk result (λ _. runs.new.items ≡ runs.old.items ++ ended run row) }
{
    if run.first + run.count == row {
        return Ok(Run {
            first: run.first,
            count: run.count + 1,
        });
    }
    push_run(runs, run)?;
    Ok(Run {
        first: row,
        count: 1,
    })
}

/// Adds the run where it has a row.
fn push_run(runs: &mut Vec<Run>, run: Run) -> Result<(), AllocError>
    ensures { OnOk result (runs.new.items ≡ runs.old.items ++ as_list run) }
{
    if run.count != 0 {
        runs.push(run)?;
    }
    Ok(())
}

/// The six weights of each pattern.
pub fn weight_table(alloc: Global, p: &Problem, s: &PatternSet) -> Result<Vec<[i64; 6]>, AllocError>
    requires { ArePatterns p.now s.now }
    ensures { IfOk result (λ v. AreWeights p.now s.now (length s.now) v.items) }
{
    let mut table = Vec::new(alloc);
    for i in 0..s.len() {
        table.push(weights(p, s.get(i)))?;
    }
    Ok(table)
}
