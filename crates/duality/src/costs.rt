ghost use Rattle.std.specs.Prelude.{ℕ, ℤ, pos, ◌++◌, ◌+ℤ◌, ◌-ℤ◌, ◌*ℤ◌, ◌≡◌, ◌<◌, ◌≤◌, ◌*◌, ◌^◌, length, true, nat_lt, slice_index_or};
ghost use Rattle.std.specs.List.{list_all};
ghost use Rattle.numbers.specs.Sums.{total};
ghost use Rattle.duality.specs.Packing.{level_coefficient, level_side};
ghost use Rattle.duality.specs.Leaf.{is_under};
ghost use Rattle.duality.specs.Runs.{rows_in};
ghost use Rattle.duality.specs.Sums.{rises, are_small, is_small, IsWithin, times_of, clique_worth, level_sum, AreLevelTimes, AreOfLevels, HaveTargets, IsValue, AreRowSums, AreInTable};

use crate::leaf::Leaf;
use crate::objective::{Objective, Weighed};
use crate::row::{RowName, Run};
use crate::row_sums::RowSums;
use crate::sums::{added, clique_worth, priced_levels, product, weigh, weight_of, worth_levels};

// A sum less a part, both far from the ends of the type.
fn lessened(sum: i128, part: i128) -> i128
    requires sum { IsWithin (10 ^ 37) sum }
    requires part { IsWithin (10 ^ 38) part }
    ensures { result ≡ sum -ℤ part }
{
    sum - part
}

/// The reduced cost of a pattern that stands in the base rows of these runs and in these cuts: the scale times its weight,
/// less what the rows cost it. `times` are the multipliers of the leaf's level rows, and `sums` the sums of its
/// terms over base rows.
pub fn reduced_cost<O: Objective>(
    objective: &O,
    level: u32,
    leaf: &Leaf,
    times: &[i128; 7],
    sums: &RowSums,
    base: &[Run],
    cuts: &[RowName],
    pattern: u32,
) -> i128
    requires low { 1 ≤ level }
    requires high { level ≤ O.levels objective.now }
    requires known { pattern < O.count objective.now }
    requires scale { is_small (10 ^ 24) leaf.now.scale ≡ true }
    requires rising { rises leaf.now.terms ≡ true }
    requires small { are_small leaf.now.terms ≡ true }
    requires times { AreLevelTimes leaf.now.terms times.now }
    requires levels { AreOfLevels (O.levels objective.now) times.now }
    requires terms { sums.now.terms.now ≡ leaf.now.terms }
    requires sums { AreRowSums leaf.now.terms sums.now.below.now }
    requires few_sums { length sums.now.below.now ≤ 4001 }
    requires few_base { length (rows_in base.now) ≤ 4000 }
    requires low_base { AreInTable (length sums.now.below.now) base.now }
    requires few_cuts { length cuts.now ≤ 1000 }
    ensures { result ≡ (leaf.now.scale *ℤ O.weight objective.now level pattern) -ℤ ((total (times_of leaf.now.terms) (rows_in base.now ++ cuts.now)) +ℤ
        level_sum leaf.now.terms (λ j. level_coefficient (record { weight = O.weight objective.now; floor = O.floor objective.now }) j pattern)) }
{
    let gain = product(
        leaf.scale,
        weight_of(objective, Weighed::Level(level), pattern),
    );
    let patterns = [pattern];
    let cost = added(
        priced_levels(objective, times, &patterns),
        sums.priced_cliques(base, cuts),
    );
    lessened(gain, cost)
}

/// The left side of a leaf's bound: what its rows are worth and the reduced costs of the patterns that
/// are taken, of which `cliques` is what base rows and cuts cost them together.
pub fn left_side<O: Objective>(
    objective: &O,
    level: u32,
    leaf: &Leaf,
    times: &[i128; 7],
    targets: &[i64],
    taken: &[u32],
    cliques: i128,
) -> i128
    requires low { 1 ≤ level }
    requires high { level ≤ O.levels objective.now }
    requires known { list_all (λ p. nat_lt p (O.count objective.now)) taken.now ≡ true }
    requires few { length taken.now ≤ 4000 }
    requires scale { is_small (10 ^ 24) leaf.now.scale ≡ true }
    requires terms { length leaf.now.terms ≤ 5007 }
    requires small { are_small leaf.now.terms ≡ true }
    requires times { AreLevelTimes leaf.now.terms times.now }
    requires levels { AreOfLevels (O.levels objective.now) times.now }
    requires targets { HaveTargets times.now targets.now }
    requires cliques { IsWithin (10 ^ 37) cliques }
    ensures value { result ≡ (clique_worth leaf.now.terms +ℤ level_sum leaf.now.terms (level_side (record { weight = O.weight objective.now; floor = O.floor objective.now }) targets.now))
        +ℤ ((leaf.now.scale *ℤ total (O.weight objective.now level) taken.now) -ℤ (cliques +ℤ
        level_sum leaf.now.terms (λ j. total (level_coefficient (record { weight = O.weight objective.now; floor = O.floor objective.now }) j) taken.now))) }
    ensures small { IsWithin (10 ^ 38) result }
{
    let worth = added(
        worth_levels(objective, times, targets),
        clique_worth(leaf.terms.as_slice()),
    );
    let gain = product(leaf.scale, weigh(objective, Weighed::Level(level), taken));
    let cost = added(priced_levels(objective, times, taken), cliques);
    sum_of_sides(worth, gain, cost)
}

// The three parts of a left side together.
fn sum_of_sides(worth: i128, gain: i128, cost: i128) -> i128
    requires worth { IsWithin (3 * 10 ^ 37) worth }
    requires gain { IsWithin (4 * 10 ^ 36) gain }
    requires cost { IsWithin (4 * 10 ^ 37) cost }
    ensures value { result ≡ worth +ℤ (gain -ℤ cost) }
    ensures small { IsWithin (10 ^ 38) result }
{
    worth + (gain - cost)
}

/// Whether the left side is below what the best value asks for; where there is no value, whether the scale
/// is 0 and the left side negative.
pub fn is_under(best: Option<i64>, scale: i128, left: i128) -> bool
    requires best { IsValue best }
    requires scale { is_small (10 ^ 24) scale ≡ true }
    ensures { result ≡ is_under best scale left }
{
    match best {
        Some(best) => left < product(scale, best + 1),
        None => scale <= 0 && left < 0,
    }
}
