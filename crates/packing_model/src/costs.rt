ghost use Rattle.std.specs.Prelude.{◌≡◌, ◌<◌, ◌≤◌, ◌+◌, ◌-◌, ◌^◌, int_lt, pos, length, true};
ghost use Rattle.std.specs.List.{list_all};
ghost use Rattle.numbers.specs.Below.{first_from};
ghost use Rattle.meeting_patterns.specs.Pattern.{patterns_of};
ghost use Rattle.duality.specs.Packing.{is_there};
ghost use Rattle.duality.specs.Leaf.{reduced, costs, cost_fault};
ghost use Rattle.duality.specs.Sums.{rises, are_small, is_small, AreLevelTimes, AreRowSums};
ghost use Rattle.packing_model.specs.Built.{packing, rows_of};
ghost use Rattle.packing_model.specs.Cuts.{IsPoolOf};
ghost use Rattle.packing_model.specs.Nodes.{IsValidFixing, fixed_of, stage_at, AreTargets, ok_unless};
ghost use Rattle.packing_model.specs.Closing.{counted};
ghost use Rattle.packing_model.specs.NodeMarks.{AreNodeMarks};

use crate::close::ObjectiveAt;
use crate::node_marks::{FEW_PATTERNS, NodeMarks, few_patterns, is_free_by, many_patterns};
use duality::{Leaf, LeafFault, Objective, RowSums, reduced_cost, sum_laws, sum_rows};

/// So many base rows have their sums in a small table.
const FEW_ROWS: usize = 256;

/// The lowest free pattern whose reduced cost is positive. The sums over base rows stand on the stack, in a
/// table no larger than the model asks for.
pub fn test_costs<O: Objective>(
    at: &ObjectiveAt<O>,
    leaf: &Leaf,
    times: &[i128; 7],
) -> Result<(), LeafFault>
    requires count { O.count at.now.objective.now ≡ length (patterns_of at.now.model.now) }
    requires pool { IsPoolOf (packing at.now.model.now) at.now.pool.now }
    requires fixing { IsValidFixing (packing at.now.model.now) at.now.fixing.now }
    requires high { at.now.level ≤ O.levels at.now.objective.now }
    requires targets { AreTargets at.now.level at.now.targets.now }
    requires small_scale { is_small (10 ^ 24) leaf.now.scale ≡ true }
    requires rising { rises leaf.now.terms ≡ true }
    requires small { are_small leaf.now.terms ≡ true }
    requires there { list_all (λ t. is_there (packing at.now.model.now) (counted (O.weight at.now.objective.now) (O.floor at.now.objective.now)) (stage_at at.now.level at.now.targets.now at.now.best at.now.pool.now) t.row) leaf.now.terms ≡ true }
    requires times { AreLevelTimes leaf.now.terms times.now }
    ensures { result ≡ ok_unless (cost_fault (packing at.now.model.now) (counted (O.weight at.now.objective.now) (O.floor at.now.objective.now)) (stage_at at.now.level at.now.targets.now at.now.best at.now.pool.now) (fixed_of at.now.fixing.now) leaf.now) }
{
    let end = at.model.base_len() as usize + 1;
    if end <= FEW_ROWS {
        let mut below = few_sums();
        test_by_table(at, leaf, times, &mut below[..end])
    } else {
        let mut below = many_sums();
        test_by_table(at, leaf, times, &mut below[..end])
    }
}

// A small table.
fn few_sums() -> [i128; FEW_ROWS] {
    [0; FEW_ROWS]
}

// A table for as many base rows as a model holds.
fn many_sums() -> [i128; 4_001] {
    [0; 4_001]
}

// The same with a table for the sums.
fn test_by_table<O: Objective>(
    at: &ObjectiveAt<O>,
    leaf: &Leaf,
    times: &[i128; 7],
    below: &mut [i128],
) -> Result<(), LeafFault>
    requires count { O.count at.now.objective.now ≡ length (patterns_of at.now.model.now) }
    requires pool { IsPoolOf (packing at.now.model.now) at.now.pool.now }
    requires fixing { IsValidFixing (packing at.now.model.now) at.now.fixing.now }
    requires high { at.now.level ≤ O.levels at.now.objective.now }
    requires targets { AreTargets at.now.level at.now.targets.now }
    requires small_scale { is_small (10 ^ 24) leaf.now.scale ≡ true }
    requires rising { rises leaf.now.terms ≡ true }
    requires small { are_small leaf.now.terms ≡ true }
    requires there { list_all (λ t. is_there (packing at.now.model.now) (counted (O.weight at.now.objective.now) (O.floor at.now.objective.now)) (stage_at at.now.level at.now.targets.now at.now.best at.now.pool.now) t.row) leaf.now.terms ≡ true }
    requires times { AreLevelTimes leaf.now.terms times.now }
    requires table { length below.old ≡ length (rows_of at.now.model.now) + 1 }
    ensures { result ≡ ok_unless (cost_fault (packing at.now.model.now) (counted (O.weight at.now.objective.now) (O.floor at.now.objective.now)) (stage_at at.now.level at.now.targets.now at.now.best at.now.pool.now) (fixed_of at.now.fixing.now) leaf.now) }
{
    let _ = at.model.base_len();
    let terms = leaf.terms.as_slice();
    sum_rows(terms, below);
    let sums = RowSums { terms, below };
    test_by_sums(at, leaf, times, &sums)
}

// The same with the sums. Only where some cost is positive it is asked which patterns are free.
fn test_by_sums<O: Objective>(
    at: &ObjectiveAt<O>,
    leaf: &Leaf,
    times: &[i128; 7],
    sums: &RowSums,
) -> Result<(), LeafFault>
    requires count { O.count at.now.objective.now ≡ length (patterns_of at.now.model.now) }
    requires pool { IsPoolOf (packing at.now.model.now) at.now.pool.now }
    requires fixing { IsValidFixing (packing at.now.model.now) at.now.fixing.now }
    requires high { at.now.level ≤ O.levels at.now.objective.now }
    requires targets { AreTargets at.now.level at.now.targets.now }
    requires small_scale { is_small (10 ^ 24) leaf.now.scale ≡ true }
    requires rising { rises leaf.now.terms ≡ true }
    requires small { are_small leaf.now.terms ≡ true }
    requires there { list_all (λ t. is_there (packing at.now.model.now) (counted (O.weight at.now.objective.now) (O.floor at.now.objective.now)) (stage_at at.now.level at.now.targets.now at.now.best at.now.pool.now) t.row) leaf.now.terms ≡ true }
    requires times { AreLevelTimes leaf.now.terms times.now }
    requires terms { sums.now.terms.now ≡ leaf.now.terms }
    requires sums { AreRowSums leaf.now.terms sums.now.below.now }
    requires table { length sums.now.below.now ≡ length (rows_of at.now.model.now) + 1 }
    ensures { result ≡ ok_unless (cost_fault (packing at.now.model.now) (counted (O.weight at.now.objective.now) (O.floor at.now.objective.now)) (stage_at at.now.level at.now.targets.now at.now.best at.now.pool.now) (fixed_of at.now.fixing.now) leaf.now) }
{
    for pattern in 0..at.objective.count() {
        if has_cost(at, leaf, times, sums, pattern) {
            return test_from(at, leaf, times, sums, pattern);
        }
    }
    Ok(())
}

// The same where no pattern before the first costs.
fn test_from<O: Objective>(
    at: &ObjectiveAt<O>,
    leaf: &Leaf,
    times: &[i128; 7],
    sums: &RowSums,
    first: u32,
) -> Result<(), LeafFault>
    requires count { O.count at.now.objective.now ≡ length (patterns_of at.now.model.now) }
    requires pool { IsPoolOf (packing at.now.model.now) at.now.pool.now }
    requires fixing { IsValidFixing (packing at.now.model.now) at.now.fixing.now }
    requires high { at.now.level ≤ O.levels at.now.objective.now }
    requires targets { AreTargets at.now.level at.now.targets.now }
    requires small_scale { is_small (10 ^ 24) leaf.now.scale ≡ true }
    requires rising { rises leaf.now.terms ≡ true }
    requires small { are_small leaf.now.terms ≡ true }
    requires there { list_all (λ t. is_there (packing at.now.model.now) (counted (O.weight at.now.objective.now) (O.floor at.now.objective.now)) (stage_at at.now.level at.now.targets.now at.now.best at.now.pool.now) t.row) leaf.now.terms ≡ true }
    requires times { AreLevelTimes leaf.now.terms times.now }
    requires terms { sums.now.terms.now ≡ leaf.now.terms }
    requires sums { AreRowSums leaf.now.terms sums.now.below.now }
    requires table { length sums.now.below.now ≡ length (rows_of at.now.model.now) + 1 }
    requires before { first_from (costs (packing at.now.model.now) (counted (O.weight at.now.objective.now) (O.floor at.now.objective.now)) (stage_at at.now.level at.now.targets.now at.now.best at.now.pool.now) (fixed_of at.now.fixing.now) leaf.now) 0 (length (patterns_of at.now.model.now)) ≡ first_from (costs (packing at.now.model.now) (counted (O.weight at.now.objective.now) (O.floor at.now.objective.now)) (stage_at at.now.level at.now.targets.now at.now.best at.now.pool.now) (fixed_of at.now.fixing.now) leaf.now) first (length (patterns_of at.now.model.now) - first) }
    requires known { first < length (patterns_of at.now.model.now) }
    ensures { result ≡ ok_unless (cost_fault (packing at.now.model.now) (counted (O.weight at.now.objective.now) (O.floor at.now.objective.now)) (stage_at at.now.level at.now.targets.now at.now.best at.now.pool.now) (fixed_of at.now.fixing.now) leaf.now) }
{
    let count = at.objective.count() as usize;
    if count <= FEW_PATTERNS {
        let mut left_out = few_patterns();
        let marks = NodeMarks::new(at.model, at.fixing, &mut left_out[..count]);
        test_by_marks(at, leaf, times, sums, &marks, first)
    } else {
        let mut left_out = many_patterns();
        let marks = NodeMarks::new(at.model, at.fixing, &mut left_out[..count]);
        test_by_marks(at, leaf, times, sums, &marks, first)
    }
}

// The same with the marks of the fixing.
fn test_by_marks<O: Objective>(
    at: &ObjectiveAt<O>,
    leaf: &Leaf,
    times: &[i128; 7],
    sums: &RowSums,
    marks: &NodeMarks,
    first: u32,
) -> Result<(), LeafFault>
    requires count { O.count at.now.objective.now ≡ length (patterns_of at.now.model.now) }
    requires pool { IsPoolOf (packing at.now.model.now) at.now.pool.now }
    requires fixing { IsValidFixing (packing at.now.model.now) at.now.fixing.now }
    requires high { at.now.level ≤ O.levels at.now.objective.now }
    requires targets { AreTargets at.now.level at.now.targets.now }
    requires small_scale { is_small (10 ^ 24) leaf.now.scale ≡ true }
    requires rising { rises leaf.now.terms ≡ true }
    requires small { are_small leaf.now.terms ≡ true }
    requires there { list_all (λ t. is_there (packing at.now.model.now) (counted (O.weight at.now.objective.now) (O.floor at.now.objective.now)) (stage_at at.now.level at.now.targets.now at.now.best at.now.pool.now) t.row) leaf.now.terms ≡ true }
    requires times { AreLevelTimes leaf.now.terms times.now }
    requires terms { sums.now.terms.now ≡ leaf.now.terms }
    requires sums { AreRowSums leaf.now.terms sums.now.below.now }
    requires table { length sums.now.below.now ≡ length (rows_of at.now.model.now) + 1 }
    requires marks { AreNodeMarks (packing at.now.model.now) at.now.fixing.now marks.now }
    requires before { first_from (costs (packing at.now.model.now) (counted (O.weight at.now.objective.now) (O.floor at.now.objective.now)) (stage_at at.now.level at.now.targets.now at.now.best at.now.pool.now) (fixed_of at.now.fixing.now) leaf.now) 0 (length (patterns_of at.now.model.now)) ≡ first_from (costs (packing at.now.model.now) (counted (O.weight at.now.objective.now) (O.floor at.now.objective.now)) (stage_at at.now.level at.now.targets.now at.now.best at.now.pool.now) (fixed_of at.now.fixing.now) leaf.now) first (length (patterns_of at.now.model.now) - first) }
    requires known { first < length (patterns_of at.now.model.now) }
    ensures { result ≡ ok_unless (cost_fault (packing at.now.model.now) (counted (O.weight at.now.objective.now) (O.floor at.now.objective.now)) (stage_at at.now.level at.now.targets.now at.now.best at.now.pool.now) (fixed_of at.now.fixing.now) leaf.now) }
{
    for pattern in first..at.objective.count() {
        if is_costly(at, leaf, times, sums, marks, pattern) {
            return Err(LeafFault::Cost { pattern });
        }
    }
    Ok(())
}

// Whether the pattern is free and its reduced cost is positive. The cost is tested first, as the cheaper.
fn is_costly<O: Objective>(
    at: &ObjectiveAt<O>,
    leaf: &Leaf,
    times: &[i128; 7],
    sums: &RowSums,
    marks: &NodeMarks,
    pattern: u32,
) -> bool
    requires known { pattern < length (patterns_of at.now.model.now) }
    requires count { O.count at.now.objective.now ≡ length (patterns_of at.now.model.now) }
    requires pool { IsPoolOf (packing at.now.model.now) at.now.pool.now }
    requires fixing { IsValidFixing (packing at.now.model.now) at.now.fixing.now }
    requires high { at.now.level ≤ O.levels at.now.objective.now }
    requires targets { AreTargets at.now.level at.now.targets.now }
    requires small_scale { is_small (10 ^ 24) leaf.now.scale ≡ true }
    requires rising { rises leaf.now.terms ≡ true }
    requires small { are_small leaf.now.terms ≡ true }
    requires there { list_all (λ t. is_there (packing at.now.model.now) (counted (O.weight at.now.objective.now) (O.floor at.now.objective.now)) (stage_at at.now.level at.now.targets.now at.now.best at.now.pool.now) t.row) leaf.now.terms ≡ true }
    requires times { AreLevelTimes leaf.now.terms times.now }
    requires terms { sums.now.terms.now ≡ leaf.now.terms }
    requires sums { AreRowSums leaf.now.terms sums.now.below.now }
    requires table { length sums.now.below.now ≡ length (rows_of at.now.model.now) + 1 }
    requires marks { AreNodeMarks (packing at.now.model.now) at.now.fixing.now marks.now }
    ensures { result ≡ costs (packing at.now.model.now) (counted (O.weight at.now.objective.now) (O.floor at.now.objective.now)) (stage_at at.now.level at.now.targets.now at.now.best at.now.pool.now) (fixed_of at.now.fixing.now) leaf.now pattern }
{
    if !has_cost(at, leaf, times, sums, pattern) {
        return false;
    }
    is_free_by(at.model, at.fixing, marks, pattern)
}

// Whether the reduced cost of the pattern is positive.
fn has_cost<O: Objective>(
    at: &ObjectiveAt<O>,
    leaf: &Leaf,
    times: &[i128; 7],
    sums: &RowSums,
    pattern: u32,
) -> bool
    requires known { pattern < length (patterns_of at.now.model.now) }
    requires count { O.count at.now.objective.now ≡ length (patterns_of at.now.model.now) }
    requires pool { IsPoolOf (packing at.now.model.now) at.now.pool.now }
    requires high { at.now.level ≤ O.levels at.now.objective.now }
    requires targets { AreTargets at.now.level at.now.targets.now }
    requires small_scale { is_small (10 ^ 24) leaf.now.scale ≡ true }
    requires rising { rises leaf.now.terms ≡ true }
    requires small { are_small leaf.now.terms ≡ true }
    requires there { list_all (λ t. is_there (packing at.now.model.now) (counted (O.weight at.now.objective.now) (O.floor at.now.objective.now)) (stage_at at.now.level at.now.targets.now at.now.best at.now.pool.now) t.row) leaf.now.terms ≡ true }
    requires times { AreLevelTimes leaf.now.terms times.now }
    requires terms { sums.now.terms.now ≡ leaf.now.terms }
    requires sums { AreRowSums leaf.now.terms sums.now.below.now }
    requires table { length sums.now.below.now ≡ length (rows_of at.now.model.now) + 1 }
    ensures { result ≡ int_lt (pos 0) (reduced (packing at.now.model.now) (counted (O.weight at.now.objective.now) (O.floor at.now.objective.now)) (stage_at at.now.level at.now.targets.now at.now.best at.now.pool.now) leaf.now pattern) }
{
    0 < cost_of(at, leaf, times, sums, pattern)
}

// The reduced cost of the pattern.
fn cost_of<O: Objective>(
    at: &ObjectiveAt<O>,
    leaf: &Leaf,
    times: &[i128; 7],
    sums: &RowSums,
    pattern: u32,
) -> i128
    requires known { pattern < length (patterns_of at.now.model.now) }
    requires count { O.count at.now.objective.now ≡ length (patterns_of at.now.model.now) }
    requires pool { IsPoolOf (packing at.now.model.now) at.now.pool.now }
    requires high { at.now.level ≤ O.levels at.now.objective.now }
    requires targets { AreTargets at.now.level at.now.targets.now }
    requires small_scale { is_small (10 ^ 24) leaf.now.scale ≡ true }
    requires rising { rises leaf.now.terms ≡ true }
    requires small { are_small leaf.now.terms ≡ true }
    requires there { list_all (λ t. is_there (packing at.now.model.now) (counted (O.weight at.now.objective.now) (O.floor at.now.objective.now)) (stage_at at.now.level at.now.targets.now at.now.best at.now.pool.now) t.row) leaf.now.terms ≡ true }
    requires times { AreLevelTimes leaf.now.terms times.now }
    requires terms { sums.now.terms.now ≡ leaf.now.terms }
    requires sums { AreRowSums leaf.now.terms sums.now.below.now }
    requires table { length sums.now.below.now ≡ length (rows_of at.now.model.now) + 1 }
    ensures { result ≡ reduced (packing at.now.model.now) (counted (O.weight at.now.objective.now) (O.floor at.now.objective.now)) (stage_at at.now.level at.now.targets.now at.now.best at.now.pool.now) leaf.now pattern }
{
    sum_laws();
    let _ = at.model.base_len();
    let base = at.model.base_runs(pattern);
    let cuts = at.pool.cut_rows(pattern);
    reduced_cost(
        at.objective,
        at.level,
        leaf,
        times,
        sums,
        base,
        cuts,
        pattern,
    )
}
