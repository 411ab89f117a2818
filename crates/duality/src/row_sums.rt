ghost use Rattle.std.specs.Prelude.{ℤ, pos, ◌++◌, ◌+◌, ◌+ℤ◌, ◌-ℤ◌, ◌≡◌, ◌<◌, ◌≤◌, ◌*◌, ◌^◌, length, true};
ghost use Rattle.numbers.specs.Sums.{total};
ghost use Rattle.duality.specs.Runs.{rows_from, rows_in};
ghost use Rattle.duality.specs.Sums.{rises, are_small, IsWithin, times_of, AreRowSums, AreInTable};

use crate::row::{RowName, Run, Term};
use crate::sums::{added, priced, times_of};

/// Writes into each entry of the table what the multipliers of the base rows below its number sum to.
pub fn sum_rows(terms: &[Term], below: &mut [i128])
    requires rising { rises terms.now ≡ true }
    requires small { are_small terms.now ≡ true }
    requires few { length below.old ≤ 4001 }
    ensures sums { AreRowSums terms.now below.new }
    ensures whole { length below.new ≡ length below.old }
{
    let mut sum: i128 = 0;
    for row in 0..below.len() {
        below[row] = sum;
        sum = added(sum, times_of(terms, RowName::Base(row as u32)));
    }
}

/// The terms of a leaf with what the multipliers of the base rows below each number sum to, so that a run
/// of rows costs two look-ups.
#[derive(Clone, Copy)]
pub struct RowSums<'a> {
    pub terms: &'a [Term],
    pub below: &'a [i128],
}

impl RowSums<'_> {
    // What the terms cost a pattern on one run of base rows.
    fn priced_run(&self, run: Run) -> i128
        requires sums { AreRowSums self.now.terms.now self.now.below.now }
        requires low { run.first + run.count < length self.now.below.now }
        requires few { length self.now.below.now ≤ 4001 }
        ensures value { result ≡ total (times_of self.now.terms.now) (rows_from run.first run.count) }
        ensures small { IsWithin (run.count * 10 ^ 24) result }
    {
        let first = run.first as usize;
        self.below[first + run.count as usize] - self.below[first]
    }

    // What the terms cost a pattern on the base rows of these runs.
    fn priced_runs(&self, runs: &[Run]) -> i128
        requires sums { AreRowSums self.now.terms.now self.now.below.now }
        requires few { length (rows_in runs.now) ≤ 4000 }
        requires low { AreInTable (length self.now.below.now) runs.now }
        requires few_sums { length self.now.below.now ≤ 4001 }
        ensures value { result ≡ total (times_of self.now.terms.now) (rows_in runs.now) }
        ensures small { IsWithin (length (rows_in runs.now) * 10 ^ 24) result }
    {
        let mut sum: i128 = 0;
        for run in runs {
            sum = added(sum, self.priced_run(*run));
        }
        sum
    }

    /// What the terms cost a pattern that stands in the base rows of these runs and in these cuts.
    pub fn priced_cliques(&self, base: &[Run], cuts: &[RowName]) -> i128
        requires rising { rises self.now.terms.now ≡ true }
        requires small { are_small self.now.terms.now ≡ true }
        requires sums { AreRowSums self.now.terms.now self.now.below.now }
        requires few_sums { length self.now.below.now ≤ 4001 }
        requires few_base { length (rows_in base.now) ≤ 4000 }
        requires low_base { AreInTable (length self.now.below.now) base.now }
        requires few_cuts { length cuts.now ≤ 1000 }
        ensures value { result ≡ total (times_of self.now.terms.now) (rows_in base.now ++ cuts.now) }
        ensures small { IsWithin (5000 * 10 ^ 24) result }
    {
        self.priced_runs(base) + priced(self.terms, cuts)
    }
}
