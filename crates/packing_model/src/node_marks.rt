ghost use Rattle.std.specs.Prelude.{◌≡◌, ◌<◌, ◌≤◌, ◌+◌, ◌||◌, ℕ, true, false, nat_lt, length, slice_index_or};
ghost use Rattle.std.specs.List.{list_all};
ghost use Rattle.numbers.specs.Sums.{member};
ghost use Rattle.meeting_patterns.specs.Pattern.{patterns_of};
ghost use Rattle.duality.specs.Packing.{is_free};
ghost use Rattle.duality.specs.Runs.{AreBelow};
ghost use Rattle.packing_model.specs.Built.{packing};
ghost use Rattle.packing_model.specs.Nodes.{IsValidFixing, fixed_of};
ghost use Rattle.packing_model.specs.NodeMarks.{mark_at, OnlyMarks, in_run, in_runs, has_one_of, AreNodeMarks, MeetsRun, MeetsRuns};

use crate::fixing::Fixing;
use crate::free::is_free;
use crate::model::Model;
use duality::Run;

/// So many patterns have their marks in a small table.
pub const FEW_PATTERNS: usize = 4_096;

/// Marks of a fixing, which stand on the stack: by pattern, whether it is left out, and by base row, whether
/// a pattern that is taken fills it.
#[derive(Drop)]
pub struct NodeMarks<'a> {
    pub left_out: &'a [bool],
    pub filled: [bool; 4_000],
}

/// A small table with no mark.
pub fn few_patterns() -> [bool; FEW_PATTERNS]
    ensures { (k : ℕ) → slice_index_or result k false ≡ false }
{
    [false; FEW_PATTERNS]
}

/// A table with no mark for as many patterns as a model holds.
pub fn many_patterns() -> [bool; 200_000]
    ensures { (k : ℕ) → slice_index_or result k false ≡ false }
{
    [false; 200_000]
}

// No base row is filled.
fn no_rows() -> [bool; 4_000]
    ensures { (k : ℕ) → slice_index_or result k false ≡ false }
{
    [false; 4_000]
}

impl<'a> NodeMarks<'a> {
    /// The marks of the fixing, with a table for the patterns that has none.
    pub fn new(model: &Model, fixing: &Fixing, left_out: &'a mut [bool]) -> NodeMarks<'a>
        requires fixing { IsValidFixing (packing model.now) fixing.now }
        requires whole { length left_out.old ≡ length (patterns_of model.now) }
        requires blank { (k : ℕ) → slice_index_or left_out.old k false ≡ false }
        ensures { AreNodeMarks (packing model.now) fixing.now result }
    {
        mark_each(left_out, fixing.zero.as_slice());
        let mut filled = no_rows();
        fill_each(&mut filled, model, fixing.one.as_slice());
        NodeMarks { left_out, filled }
    }
}

// Marks these places of a table that has no mark.
fn mark_each(table: &mut [bool], places: &[u32])
    requires known { list_all (λ p. nat_lt p (length table.old)) places.now ≡ true }
    requires blank { (k : ℕ) → slice_index_or table.old k false ≡ false }
    ensures whole { length table.new ≡ length table.old }
    ensures marks { OnlyMarks (λ p. member p places.now) table.new }
{
    for place in places {
        table[*place as usize] = true;
    }
}

// Marks the base rows of each of these patterns in a table that has no mark.
fn fill_each(filled: &mut [bool; 4_000], model: &Model, patterns: &[u32])
    requires known { list_all (λ p. nat_lt p (length (patterns_of model.now))) patterns.now ≡ true }
    requires blank { (k : ℕ) → slice_index_or filled.old k false ≡ false }
    ensures { OnlyMarks (has_one_of (packing model.now) patterns.now) filled.new }
{
    for pattern in patterns {
        fill(filled, model.base_runs(*pattern));
    }
}

// Marks the rows of the runs.
fn fill(filled: &mut [bool; 4_000], runs: &[Run])
    requires { AreBelow 4000 runs.now }
    ensures { OnlyMarks (λ r. mark_at filled.old r || in_runs runs.now r) filled.new }
{
    for run in runs {
        fill_run(filled, *run);
    }
}

// Marks the rows of the run.
fn fill_run(filled: &mut [bool; 4_000], run: Run)
    requires { run.first + run.count ≤ 4000 }
    ensures { OnlyMarks (λ r. mark_at filled.old r || in_run run r) filled.new }
{
    for row in run.first..run.first + run.count {
        filled[row as usize] = true;
    }
}

/// Whether the pattern is free, where these are the marks of the fixing.
pub fn is_free_by(model: &Model, fixing: &Fixing, marks: &NodeMarks, pattern: u32) -> bool
    requires fixing { IsValidFixing (packing model.now) fixing.now }
    requires marks { AreNodeMarks (packing model.now) fixing.now marks.now }
    requires known { pattern < length (patterns_of model.now) }
    ensures { result ≡ is_free (packing model.now) (fixed_of fixing.now) pattern }
{
    if marks.left_out[pattern as usize] {
        return false;
    }
    if meets(&marks.filled, model.base_runs(pattern)) {
        return false;
    }
    is_free(model, fixing, pattern)
}

// Whether one of the rows of the runs is filled.
fn meets(filled: &[bool; 4_000], runs: &[Run]) -> bool
    requires { AreBelow 4000 runs.now }
    ensures { result ≡ true → MeetsRuns filled.now runs.now }
{
    for run in runs {
        if meets_run(filled, *run) {
            return true;
        }
    }
    false
}

// Whether one of the rows of the run is filled.
fn meets_run(filled: &[bool; 4_000], run: Run) -> bool
    requires { run.first + run.count ≤ 4000 }
    ensures { result ≡ true → MeetsRun filled.now run }
{
    for row in run.first..run.first + run.count {
        if filled[row as usize] {
            return true;
        }
    }
    false
}
