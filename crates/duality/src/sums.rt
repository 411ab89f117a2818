ghost use Rattle.std.specs.Prelude.{ℕ, ℤ, pos, ◌++◌, ◌+◌, ◌+ℤ◌, ◌-ℤ◌, ◌≡◌, ◌≢◌, ◌<◌, ◌≤◌, ◌*◌, ◌^◌, ◌*ℤ◌, length, true, nat_lt, slice_index_or};
ghost use Rattle.std.specs.List.{list_all};
ghost use Rattle.numbers.specs.Sums.{total, picked, sum_below};
ghost use Rattle.duality.specs.declared.row.RowName.TheVariants as rows;
ghost use Rattle.duality.specs.Packing.{level_coefficient, level_side, floor_level};
ghost use Rattle.duality.specs.Runs.{rows_from, rows_in, AreBelow};
ghost use Rattle.duality.specs.Sums.{row_before, same_row, rises, are_small, IsWithin, times_of, clique_worth, is_clique, level_sum, HaveTargets, weighed, weighed_at, IsLevelOf, AreLevelTimes, AreOfLevels};

use crate::objective::{Objective, Weighed};
use crate::row::{FLOOR_LEVEL, RowName, Run, Term};

/// Whether two names are of one row.
pub fn is_same(a: RowName, b: RowName) -> bool
    ensures { result ≡ same_row a b }
{
    match (a, b) {
        (RowName::Base(a), RowName::Base(b)) => a == b,
        (RowName::Cut(a), RowName::Cut(b)) => a == b,
        (RowName::Level(a), RowName::Level(b)) => a == b,
        _ => false,
    }
}

/// Whether a row stands before another: base rows before cuts before level rows, and by number.
pub fn is_before(a: RowName, b: RowName) -> bool
    ensures { result ≡ row_before a b }
{
    match (a, b) {
        (RowName::Base(a), RowName::Base(b)) => a < b,
        (RowName::Base(_), _) => true,
        (RowName::Cut(_), RowName::Base(_)) => false,
        (RowName::Cut(a), RowName::Cut(b)) => a < b,
        (RowName::Cut(_), RowName::Level(_)) => true,
        (RowName::Level(a), RowName::Level(b)) => a < b,
        (RowName::Level(_), _) => false,
    }
}

/// The multiplier of a row, 0 where it has none: by halving, over terms in strict order of rows.
pub fn times_of(terms: &[Term], row: RowName) -> i128
    requires rising { rises terms.now ≡ true }
    requires small { are_small terms.now ≡ true }
    ensures value { result ≡ times_of terms.now row }
    ensures small { IsWithin (10 ^ 24) result }
{
    let mut low = 0;
    let mut high = terms.len();
    'search: while low < high {
        let middle = low + (high - low) / 2;
        let term = terms[middle];
        if is_same(row, term.row) {
            return term.times;
        }
        if is_before(term.row, row) {
            low = middle + 1;
        } else {
            high = middle;
        }
    }
    0
}

/// What the terms cost a pattern on these rows.
pub fn priced(terms: &[Term], rows: &[RowName]) -> i128
    requires rising { rises terms.now ≡ true }
    requires small { are_small terms.now ≡ true }
    requires few { length rows.now ≤ 5000 }
    ensures value { result ≡ total (times_of terms.now) rows.now }
    ensures small { IsWithin (length rows.now * 10 ^ 24) result }
{
    let mut sum: i128 = 0;
    for row in rows {
        sum = added(sum, times_of(terms, *row));
    }
    sum
}

// What the terms cost a pattern on one run of base rows.
fn priced_run(terms: &[Term], run: Run) -> i128
    requires rising { rises terms.now ≡ true }
    requires small { are_small terms.now ≡ true }
    requires low { run.first + run.count ≤ 4000 }
    ensures value { result ≡ total (times_of terms.now) (rows_from run.first run.count) }
    ensures small { IsWithin (run.count * 10 ^ 24) result }
{
    let mut sum: i128 = 0;
    for row in run.first..run.first + run.count {
        sum = added(sum, times_of(terms, RowName::Base(row)));
    }
    sum
}

/// What the terms cost a pattern on the base rows of these runs.
pub fn priced_runs(terms: &[Term], runs: &[Run]) -> i128
    requires rising { rises terms.now ≡ true }
    requires small { are_small terms.now ≡ true }
    requires few { length (rows_in runs.now) ≤ 4000 }
    requires low { AreBelow 4000 runs.now }
    ensures value { result ≡ total (times_of terms.now) (rows_in runs.now) }
    ensures small { IsWithin (length (rows_in runs.now) * 10 ^ 24) result }
{
    let mut sum: i128 = 0;
    for run in runs {
        sum = added(sum, priced_run(terms, *run));
    }
    sum
}

/// What the terms cost a pattern that stands in the base rows of these runs and in these cuts.
pub fn priced_cliques(terms: &[Term], base: &[Run], cuts: &[RowName]) -> i128
    requires rising { rises terms.now ≡ true }
    requires small { are_small terms.now ≡ true }
    requires few_base { length (rows_in base.now) ≤ 4000 }
    requires low_base { AreBelow 4000 base.now }
    requires few_cuts { length cuts.now ≤ 1000 }
    ensures value { result ≡ total (times_of terms.now) (rows_in base.now ++ cuts.now) }
    ensures small { IsWithin (5000 * 10 ^ 24) result }
{
    priced_runs(terms, base) + priced(terms, cuts)
}

/// A sum and a part that are far from the ends of the type.
pub fn added(sum: i128, part: i128) -> i128
    requires sum { IsWithin (10 ^ 38) sum }
    requires part { IsWithin (10 ^ 37) part }
    ensures { result ≡ sum +ℤ part }
{
    sum + part
}

/// A multiplier or a scale times a sum of weights, a value or a number of a floor.
#[tactic(auto, using(crate::proofs::PricedLaws::fits_product))]
pub fn product(times: i128, number: i64) -> i128
    requires times { IsWithin (10 ^ 24) times }
    requires number { IsWithin (4 * 10 ^ 12) number }
    ensures value { result ≡ times *ℤ number }
    ensures small { IsWithin (4 * 10 ^ 36) result }
{
    times * i128::from(number)
}

/// What one pattern weighs.
pub fn weight_of<O: Objective>(objective: &O, what: Weighed, pattern: u32) -> i64
    requires level { IsLevelOf (O.levels objective.now) what }
    requires known { pattern < O.count objective.now }
    ensures value { result ≡ weighed (record { weight = O.weight objective.now; floor = O.floor objective.now }) what pattern }
    ensures small { IsWithin (10 ^ 9) result }
{
    match what {
        Weighed::Level(level) => objective.weight(level, pattern),
        Weighed::Floor => -objective.floor_weight(pattern),
    }
}

/// What patterns weigh together at a level, or on the floor's row.
pub fn weigh<O: Objective>(objective: &O, what: Weighed, patterns: &[u32]) -> i64
    requires level { IsLevelOf (O.levels objective.now) what }
    requires known { list_all (λ p. nat_lt p (O.count objective.now)) patterns.now ≡ true }
    requires few { length patterns.now ≤ 4000 }
    ensures value { result ≡ total (weighed (record { weight = O.weight objective.now; floor = O.floor objective.now }) what) patterns.now }
    ensures small { IsWithin (4000 * 10 ^ 9) result }
{
    let mut sum: i64 = 0;
    for pattern in patterns {
        sum += weight_of(objective, what, *pattern);
    }
    sum
}

/// The multipliers of the level rows 1 to 7, the last of which is the floor's.
pub fn level_times(terms: &[Term]) -> [i128; 7]
    requires rising { rises terms.now ≡ true }
    requires small { are_small terms.now ≡ true }
    ensures { AreLevelTimes terms.now result }
{
    [
        times_of(terms, RowName::Level(1)),
        times_of(terms, RowName::Level(2)),
        times_of(terms, RowName::Level(3)),
        times_of(terms, RowName::Level(4)),
        times_of(terms, RowName::Level(5)),
        times_of(terms, RowName::Level(6)),
        times_of(terms, RowName::Level(FLOOR_LEVEL)),
    ]
}

// What a level row, or the floor's row, adds up over patterns.
fn weighed_at(level: u32) -> Weighed
    ensures { result ≡ weighed_at level }
{
    if level == FLOOR_LEVEL {
        Weighed::Floor
    } else {
        Weighed::Level(level)
    }
}

// What one level row costs patterns; with no multiplier nothing is added up.
fn row_price<O: Objective>(objective: &O, times: i128, level: u32, patterns: &[u32]) -> i128
    requires small { IsWithin (10 ^ 24) times }
    requires level { (times ≢ pos 0) → IsLevelOf (O.levels objective.now) (weighed_at level) }
    requires known { list_all (λ p. nat_lt p (O.count objective.now)) patterns.now ≡ true }
    requires few { length patterns.now ≤ 4000 }
    ensures value { result ≡ times *ℤ total (level_coefficient (record { weight = O.weight objective.now; floor = O.floor objective.now }) level) patterns.now }
    ensures small { IsWithin (4 * 10 ^ 36) result }
{
    if times == 0 {
        return 0;
    }
    product(times, weigh(objective, weighed_at(level), patterns))
}

/// What the level rows of a leaf cost patterns together.
pub fn priced_levels<O: Objective>(objective: &O, times: &[i128; 7], patterns: &[u32]) -> i128
    requires small { (i : ℕ) → i < 7 → IsWithin (10 ^ 24) (slice_index_or times.now i (pos 0)) }
    requires levels { AreOfLevels (O.levels objective.now) times.now }
    requires known { list_all (λ p. nat_lt p (O.count objective.now)) patterns.now ≡ true }
    requires few { length patterns.now ≤ 4000 }
    ensures value { result ≡ sum_below (λ i. slice_index_or times.now i (pos 0) *ℤ total (level_coefficient (record { weight = O.weight objective.now; floor = O.floor objective.now }) (i + 1)) patterns.now) 7 }
    ensures small { IsWithin (7 * (4 * 10 ^ 36)) result }
{
    let mut sum: i128 = 0;
    for i in 0..7 {
        sum = added(sum, row_price(objective, times[i], i as u32 + 1, patterns));
    }
    sum
}

// The multiplier of a term on an "at most" row, else 0.
fn clique_times(term: Term) -> i128
    requires { IsWithin (10 ^ 24) term.times }
    ensures value { result ≡ picked (is_clique term.row) term.times }
    ensures small { IsWithin (10 ^ 24) result }
{
    match term.row {
        RowName::Level(_) => 0,
        _ => term.times,
    }
}

/// The sum of the multipliers of base rows and cuts, whose right side is 1.
pub fn clique_worth(terms: &[Term]) -> i128
    requires small { are_small terms.now ≡ true }
    requires few { length terms.now ≤ 5007 }
    ensures value { result ≡ clique_worth terms.now }
    ensures small { IsWithin (5007 * 10 ^ 24) result }
{
    let mut sum: i128 = 0;
    for term in terms {
        sum = added(sum, clique_times(*term));
    }
    sum
}

// The right side of a level row, or of the floor's.
fn side<O: Objective>(objective: &O, level: u32, targets: &[i64]) -> i64
    requires low { 1 ≤ level }
    requires target { (level ≢ floor_level) → level ≤ length targets.now }
    requires small { (i : ℕ) → i < length targets.now → IsWithin (10 ^ 12) (slice_index_or targets.now i (pos 0)) }
    ensures value { result ≡ level_side (record { weight = O.weight objective.now; floor = O.floor objective.now }) targets.now level }
    ensures small { IsWithin (10 ^ 12) result }
{
    if level == FLOOR_LEVEL {
        -objective.floor_number()
    } else {
        targets[level as usize - 1]
    }
}

// What one level row is worth; with no multiplier its right side is not asked for.
fn row_worth<O: Objective>(objective: &O, times: i128, level: u32, targets: &[i64]) -> i128
    requires small { IsWithin (10 ^ 24) times }
    requires low { 1 ≤ level }
    requires target { (times ≢ pos 0) → (level ≢ floor_level) → level ≤ length targets.now }
    requires targets { (i : ℕ) → i < length targets.now → IsWithin (10 ^ 12) (slice_index_or targets.now i (pos 0)) }
    ensures value { result ≡ times *ℤ level_side (record { weight = O.weight objective.now; floor = O.floor objective.now }) targets.now level }
    ensures small { IsWithin (4 * 10 ^ 36) result }
{
    if times == 0 {
        return 0;
    }
    product(times, side(objective, level, targets))
}

/// What the level rows of a leaf are worth on the right side.
pub fn worth_levels<O: Objective>(objective: &O, times: &[i128; 7], targets: &[i64]) -> i128
    requires small { (i : ℕ) → i < 7 → IsWithin (10 ^ 24) (slice_index_or times.now i (pos 0)) }
    requires targets { HaveTargets times.now targets.now }
    ensures value { result ≡ sum_below (λ i. slice_index_or times.now i (pos 0) *ℤ level_side (record { weight = O.weight objective.now; floor = O.floor objective.now }) targets.now (i + 1)) 7 }
    ensures small { IsWithin (7 * (4 * 10 ^ 36)) result }
{
    let mut sum: i128 = 0;
    for i in 0..7 {
        sum = added(sum, row_worth(objective, times[i], i as u32 + 1, targets));
    }
    sum
}
