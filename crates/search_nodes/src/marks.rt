ghost use Rattle.std.specs.Prelude.{◌≡◌, ◌<◌, ◌≤◌, ◌+◌, ◌&&◌, [], ℕ, true, false, nat_le, nat_lt, min, length, slice_index_or, OnOk};
ghost use Rattle.duality.specs.Runs.{AreBelow};
ghost use Rattle.search_nodes.specs.Marks.{mark_at, SetsAt, Fills, in_runs, is_taken, is_filled, MeetsRow};

use packing_model::Run;
use problem_core::Memory;
use std::alloc::Global;

/// Marks by which freedom is a look-up over the rows of a pattern.
#[derive(Drop)]
pub struct Marks {
    /// By pattern, whether it is left out.
    pub left_out: Vec<bool>,
    /// By pattern, whether it is taken.
    pub taken: Vec<bool>,
    /// By base row, the last pattern + 1 that filled it, which may be taken no longer; else 0.
    pub fillers: Vec<u32>,
    /// Of how many patterns that are taken, from the first on, the rows are marked.
    pub count: usize,
}

impl Marks {
    /// Nothing is marked.
    pub fn new(alloc: Global) -> Marks
        ensures left_out { result.left_out.items ≡ [] }
        ensures taken { result.taken.items ≡ [] }
        ensures fillers { result.fillers.items ≡ [] }
        ensures count { result.count ≡ 0 }
    {
        Marks {
            left_out: Vec::new(alloc),
            taken: Vec::new(alloc),
            fillers: Vec::new(alloc),
            count: 0,
        }
    }

    /// The pattern, which was taken last, is taken no longer; so many patterns are still taken.
    pub fn release(&mut self, pattern: u32, still: usize)
        ensures taken { SetsAt false pattern false self.old.taken.items self.new.taken.items }
        ensures count { self.new.count ≡ min self.old.count still }
        ensures left_out { self.new.left_out ≡ self.old.left_out }
        ensures fillers { self.new.fillers ≡ self.old.fillers }
    {
        clear(&mut self.taken, pattern);
        self.count = self.count.min(still);
    }

    /// Whether a pattern that is taken fills one of the rows of the runs.
    pub fn meets(&self, runs: &[Run]) -> bool
        requires { AreBelow 4000 runs.now }
        ensures some { result ≡ true → MeetsRow self.now runs.now }
        ensures none { result ≡ false → (r : ℕ) → in_runs runs.now r ≡ true → is_filled self.now r ≡ false }
    {
        for run in runs {
            if self.meets_run(*run) {
                return true;
            }
        }
        false
    }

    // Whether a pattern that is taken fills one of the rows of the run.
    fn meets_run(&self, run: Run) -> bool
        requires { run.first + run.count ≤ 4000 }
        ensures some { result ≡ true → (r : ℕ) × (run.first ≤ r) × (r < run.first + run.count) × (is_filled self.now r ≡ true) }
        ensures none { result ≡ false → (r : ℕ) → run.first ≤ r → r < run.first + run.count → is_filled self.now r ≡ false }
    {
        for row in run.first..run.first + run.count {
            if self.is_filled(row) {
                return true;
            }
        }
        false
    }

    // Whether a pattern that is taken fills the row.
    fn is_filled(&self, row: u32) -> bool
        ensures { result ≡ is_filled self.now row }
    {
        match self.fillers.get(row as usize) {
            Some(filler) => is_taken(&self.taken, *filler),
            None => false,
        }
    }
}

// Whether the pattern of this number less 1 is marked.
fn is_taken(taken: &[bool], filler: u32) -> bool
    ensures { result ≡ is_taken taken.now filler }
{
    if filler == 0 {
        return false;
    }
    is_marked(taken, filler - 1)
}

/// Whether there is a mark at the place.
pub fn is_marked(marks: &[bool], at: u32) -> bool
    ensures { result ≡ mark_at marks.now at }
{
    match marks.get(at as usize) {
        Some(mark) => *mark,
        None => false,
    }
}

/// Takes the mark at the place away, where there is one.
pub fn clear(marks: &mut Vec<bool>, at: u32)
    ensures { SetsAt false at false marks.old.items marks.new.items }
{
    if (at as usize) < marks.len() {
        marks[at as usize] = false;
    }
}

/// Puts the value at the place of a list that reads the filler past its end.
pub fn put<T: Copy>(list: &mut Vec<T>, at: u32, value: T, filler: T) -> Result<(), Memory>
    ensures { OnOk result (SetsAt filler at value list.old.items list.new.items) }
{
    lengthen(list, at as usize + 1, filler)?;
    list[at as usize] = value;
    Ok(())
}

// Makes the list at least so long.
fn lengthen<T: Copy>(list: &mut Vec<T>, count: usize, filler: T) -> Result<(), Memory>
    ensures longer { OnOk result (count ≤ length list.new.items) }
    ensures same { (i : ℕ) → slice_index_or list.new.items i filler ≡ slice_index_or list.old.items i filler }
{
    'more: while list.len() < count {
        if list.push(filler).is_err() {
            return Err(Memory);
        }
    }
    Ok(())
}

/// Marks the rows of the runs as filled by the pattern.
pub fn fill(fillers: &mut Vec<u32>, runs: &[Run], pattern: u32) -> Result<(), Memory>
    requires low { AreBelow 4000 runs.now }
    requires known { pattern < 200000 }
    ensures { OnOk result (Fills pattern (in_runs runs.now) fillers.old.items fillers.new.items) }
{
    for run in runs {
        fill_run(fillers, *run, pattern)?;
    }
    Ok(())
}

// Marks the rows of the run as filled by the pattern.
fn fill_run(fillers: &mut Vec<u32>, run: Run, pattern: u32) -> Result<(), Memory>
    requires low { run.first + run.count ≤ 4000 }
    requires known { pattern < 200000 }
    ensures { OnOk result (Fills pattern (λ r. nat_le run.first r && nat_lt r (run.first + run.count)) fillers.old.items fillers.new.items) }
{
    for row in run.first..run.first + run.count {
        put(fillers, row, pattern + 1, 0)?;
    }
    Ok(())
}
