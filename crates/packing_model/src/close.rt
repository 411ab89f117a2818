ghost use Rattle.std.specs.Prelude.{◌≡◌, ◌<◌, ◌≤◌, ◌≤ℤ◌, ◌^◌, ◌*◌, ℕ, List, pos, length, true, false, nat_lt, Some, IfOk};
ghost use Rattle.std.specs.List.{list_all, list_any};
ghost use Rattle.numbers.specs.Sums.{total};
ghost use Rattle.problem_core.specs.Choice.{IsLegal};
ghost use Rattle.problem_core.specs.Measures.{measure};
ghost use Rattle.meeting_patterns.specs.Pattern.{patterns_of};
ghost use Rattle.duality.specs.Packing.{AreCliques, IsFixing, is_there, has_sign};
ghost use Rattle.duality.specs.Leaf.{left_side, terms_fault, bound_fault, leaf_fault};
ghost use Rattle.duality.specs.Sums.{rises, are_small, is_small, clique_priced, AreLevelTimes, IsWithin, IsValue};
ghost use Rattle.packing_model.specs.Built.{packing, measured, rows_of};
ghost use Rattle.packing_model.specs.Cuts.{IsPoolOf};
ghost use Rattle.packing_model.specs.Nodes.{IsValidFixing, fixed_of, stage_at, AreTargets, ok_unless};
ghost use Rattle.packing_model.specs.Closing.{counted, Caps, Empties, HasTargets, choice_of};

use crate::costs::test_costs;
use crate::fixing::Fixing;
use crate::laws::packing_laws;
use crate::measured::Measured;
use crate::model::Model;
use crate::pool::Pool;
use duality::{
    FLOOR_LEVEL, Leaf, LeafFault, Objective, RowName, Term, added, is_under, leaf_laws, left_side,
    level_times, priced_cliques, sum_laws,
};
use meeting_patterns::pattern_laws;

/// A node of the search for the best value of a measure: its model, cuts and fixing, the level, the values
/// of the levels below it, and the best value so far.
#[derive(Clone, Copy)]
pub struct At<'a> {
    pub model: &'a Model,
    pub pool: &'a Pool,
    pub fixing: &'a Fixing,
    pub level: u32,
    pub targets: &'a [i64],
    pub best: i64,
}

/// A node of the search at a level of an objective, which may have no value so far.
#[derive(Clone, Copy)]
pub struct ObjectiveAt<'a, O> {
    pub model: &'a Model,
    pub pool: &'a Pool,
    pub fixing: &'a Fixing,
    pub objective: &'a O,
    pub level: u32,
    pub targets: &'a [i64],
    pub best: Option<i64>,
}

/// Whether the leaf closes at the node against its best value, or else the first fault: the terms in their
/// order, each first for its row, then for its sign; then the lowest free pattern whose reduced cost is
/// positive; then the bound. It takes no memory. Where it answers Ok, every legal choice that has the
/// targets, chooses all patterns that are taken and none that is left out has at most the best value.
pub fn leaf_closes(at: &At, leaf: &Leaf) -> Result<(), LeafFault>
    requires pool { IsPoolOf (packing at.now.model.now) at.now.pool.now }
    requires fixing { IsValidFixing (packing at.now.model.now) at.now.fixing.now }
    requires high { at.now.level ≤ 6 }
    requires targets { AreTargets at.now.level at.now.targets.now }
    requires best { IsWithin (10 ^ 12) at.now.best }
    requires scale { pos 0 ≤ℤ leaf.now.scale }
    requires small_scale { is_small (10 ^ 24) leaf.now.scale ≡ true }
    requires rising { rises leaf.now.terms ≡ true }
    requires small { are_small leaf.now.terms ≡ true }
    ensures verdict { result ≡ ok_unless (leaf_fault (packing at.now.model.now) (measured at.now.model.now) (stage_at at.now.level at.now.targets.now (Some at.now.best) at.now.pool.now) (fixed_of at.now.fixing.now) leaf.now) }
    ensures caps { IfOk result (λ _. (b : List ℕ) → IsLegal at.now.model.now b → HasTargets at.now.model.now at.now.level at.now.targets.now b
        → list_all (choice_of at.now.model.now b) at.now.fixing.now.one ≡ true → list_any (choice_of at.now.model.now b) at.now.fixing.now.zero ≡ false
        → measure at.now.model.now at.now.level b ≤ℤ at.now.best) }
    ensures empties { IfOk result (λ _. leaf.now.scale ≡ pos 0 → (b : List ℕ) → IsLegal at.now.model.now b → HasTargets at.now.model.now at.now.level at.now.targets.now b
        → list_all (choice_of at.now.model.now b) at.now.fixing.now.one ≡ true → list_any (choice_of at.now.model.now b) at.now.fixing.now.zero ≡ false → ⊥) }
{
    let measured = Measured::new(at.model);
    let node = ObjectiveAt {
        model: at.model,
        pool: at.pool,
        fixing: at.fixing,
        objective: &measured,
        level: at.level,
        targets: at.targets,
        best: Some(at.best),
    };
    at.model.laws();
    packing_laws();
    pattern_laws();
    close_leaf(&node, leaf)
}

/// Whether the leaf closes at a level of an objective over the model's patterns, or else the first fault,
/// in the order of [`leaf_closes`]. It takes no memory. Where it answers Ok, each choice of patterns that
/// do not clash, that holds what is taken and nothing that is left out, and that meets the targets and the
/// floor, weighs at most the best value; where there is no best value, or the scale is 0, there is no such
/// choice.
pub fn close_leaf<O: Objective>(at: &ObjectiveAt<O>, leaf: &Leaf) -> Result<(), LeafFault>
    requires count { O.count at.now.objective.now ≡ length (patterns_of at.now.model.now) }
    requires pool { IsPoolOf (packing at.now.model.now) at.now.pool.now }
    requires fixing { IsValidFixing (packing at.now.model.now) at.now.fixing.now }
    requires high { at.now.level ≤ O.levels at.now.objective.now }
    requires targets { AreTargets at.now.level at.now.targets.now }
    requires best { IsValue at.now.best }
    requires scale { pos 0 ≤ℤ leaf.now.scale }
    requires small_scale { is_small (10 ^ 24) leaf.now.scale ≡ true }
    requires rising { rises leaf.now.terms ≡ true }
    requires small { are_small leaf.now.terms ≡ true }
    ensures verdict { result ≡ ok_unless (leaf_fault (packing at.now.model.now) (counted (O.weight at.now.objective.now) (O.floor at.now.objective.now)) (stage_at at.now.level at.now.targets.now at.now.best at.now.pool.now) (fixed_of at.now.fixing.now) leaf.now) }
    ensures caps { IfOk result (λ _. Caps (packing at.now.model.now) (counted (O.weight at.now.objective.now) (O.floor at.now.objective.now)) (stage_at at.now.level at.now.targets.now at.now.best at.now.pool.now) (fixed_of at.now.fixing.now)) }
    ensures empties { IfOk result (λ _. leaf.now.scale ≡ pos 0 → Empties (packing at.now.model.now) (counted (O.weight at.now.objective.now) (O.floor at.now.objective.now)) (stage_at at.now.level at.now.targets.now at.now.best at.now.pool.now) (fixed_of at.now.fixing.now)) }
{
    leaf_laws();
    node_laws(at.model, at.pool, at.fixing);
    test_terms(at, leaf.terms.as_slice())?;
    let times = level_times(leaf.terms.as_slice());
    test_costs(at, leaf, &times)?;
    test_bound(at, leaf, &times)
}

// What holds at each node: there are few rows, the rows are cliques, and the patterns that are taken differ
// and are few. It computes nothing.
fn node_laws(model: &Model, pool: &Pool, fixing: &Fixing)
    requires pool { IsPoolOf (packing model.now) pool.now }
    requires fixing { IsValidFixing (packing model.now) fixing.now }
    ensures few_rows { length (rows_of model.now) ≤ 4000 }
    ensures few_cuts { length pool.now ≤ 1000 }
    ensures cliques { AreCliques (packing model.now) pool.now }
    ensures fixing { IsFixing (packing model.now) (fixed_of fixing.now) }
    ensures few_taken { length fixing.now.one ≤ 4000 }
{
    let _ = model.base_len();
    let _ = model.patterns();
    let _ = pool.len();
    model.laws();
    packing_laws();
    pattern_laws();
    let _ = fixing;
}

// The first term whose row is not there, or that is negative on an "at most" row.
fn test_terms<O: Objective>(at: &ObjectiveAt<O>, terms: &[Term]) -> Result<(), LeafFault>
    requires few_rows { length (rows_of at.now.model.now) ≤ 4000 }
    requires few_cuts { length at.now.pool.now ≤ 1000 }
    requires high { at.now.level ≤ 7 }
    requires rising { rises terms.now ≡ true }
    requires small { are_small terms.now ≡ true }
    ensures verdict { result ≡ ok_unless (terms_fault (packing at.now.model.now) (counted (O.weight at.now.objective.now) (O.floor at.now.objective.now)) (stage_at at.now.level at.now.targets.now at.now.best at.now.pool.now) 0 terms.now) }
    ensures there { IfOk result (λ _. list_all (λ t. is_there (packing at.now.model.now) (counted (O.weight at.now.objective.now) (O.floor at.now.objective.now)) (stage_at at.now.level at.now.targets.now at.now.best at.now.pool.now) t.row) terms.now ≡ true) }
    ensures few { IfOk result (λ _. length terms.now ≤ 5007) }
{
    for (i, term) in terms.iter().enumerate() {
        let at_term = i as u32;
        if !is_there(at, term.row) {
            return Err(LeafFault::Row { at: at_term });
        }
        if !has_sign(term.row, term.times) {
            return Err(LeafFault::Sign { at: at_term });
        }
    }
    Ok(())
}

// Whether the row is there: the level rows are those of the levels below, and the floor's where there is one.
fn is_there<O: Objective>(at: &ObjectiveAt<O>, row: RowName) -> bool
    ensures { result ≡ is_there (packing at.now.model.now) (counted (O.weight at.now.objective.now) (O.floor at.now.objective.now)) (stage_at at.now.level at.now.targets.now at.now.best at.now.pool.now) row }
{
    match row {
        RowName::Base(base) => base < at.model.base_len(),
        RowName::Cut(cut) => cut < at.pool.len(),
        RowName::Level(FLOOR_LEVEL) => at.objective.has_floor(),
        RowName::Level(level) => 1 <= level && level < at.level,
    }
}

// Whether the multiplier may stand on the row: on an "at most" row it is not negative.
fn has_sign(row: RowName, times: i128) -> bool
    ensures { result ≡ has_sign row times }
{
    match row {
        RowName::Base(_) | RowName::Cut(_) | RowName::Level(FLOOR_LEVEL) => 0 <= times,
        RowName::Level(_) => true,
    }
}

// Whether the left side is below what the best value asks for.
fn test_bound<O: Objective>(
    at: &ObjectiveAt<O>,
    leaf: &Leaf,
    times: &[i128; 7],
) -> Result<(), LeafFault>
    requires count { O.count at.now.objective.now ≡ length (patterns_of at.now.model.now) }
    requires pool { IsPoolOf (packing at.now.model.now) at.now.pool.now }
    requires fixing { IsValidFixing (packing at.now.model.now) at.now.fixing.now }
    requires high { at.now.level ≤ O.levels at.now.objective.now }
    requires targets { AreTargets at.now.level at.now.targets.now }
    requires best { IsValue at.now.best }
    requires small_scale { is_small (10 ^ 24) leaf.now.scale ≡ true }
    requires rising { rises leaf.now.terms ≡ true }
    requires small { are_small leaf.now.terms ≡ true }
    requires there { list_all (λ t. is_there (packing at.now.model.now) (counted (O.weight at.now.objective.now) (O.floor at.now.objective.now)) (stage_at at.now.level at.now.targets.now at.now.best at.now.pool.now) t.row) leaf.now.terms ≡ true }
    requires times { AreLevelTimes leaf.now.terms times.now }
    requires few_taken { length at.now.fixing.now.one ≤ 4000 }
    requires few_terms { length leaf.now.terms ≤ 5007 }
    ensures { result ≡ ok_unless (bound_fault (packing at.now.model.now) (counted (O.weight at.now.objective.now) (O.floor at.now.objective.now)) (stage_at at.now.level at.now.targets.now at.now.best at.now.pool.now) (fixed_of at.now.fixing.now) leaf.now) }
{
    let left = left_of(at, leaf, times);
    if is_under(at.best, leaf.scale, left) {
        Ok(())
    } else {
        Err(LeafFault::Bound)
    }
}

/// The left side of a leaf's bound, for terms whose rows are there: what the rows are worth, and the reduced
/// costs of the patterns that are taken. `times` are the multipliers of the leaf's level rows.
pub fn left_of<O: Objective>(at: &ObjectiveAt<O>, leaf: &Leaf, times: &[i128; 7]) -> i128
    requires count { O.count at.now.objective.now ≡ length (patterns_of at.now.model.now) }
    requires pool { IsPoolOf (packing at.now.model.now) at.now.pool.now }
    requires fixing { IsValidFixing (packing at.now.model.now) at.now.fixing.now }
    requires high { at.now.level ≤ O.levels at.now.objective.now }
    requires targets { AreTargets at.now.level at.now.targets.now }
    requires small_scale { is_small (10 ^ 24) leaf.now.scale ≡ true }
    requires rising { rises leaf.now.terms ≡ true }
    requires small { are_small leaf.now.terms ≡ true }
    requires there { list_all (λ t. is_there (packing at.now.model.now) (counted (O.weight at.now.objective.now) (O.floor at.now.objective.now)) (stage_at at.now.level at.now.targets.now at.now.best at.now.pool.now) t.row) leaf.now.terms ≡ true }
    requires times { AreLevelTimes leaf.now.terms times.now }
    requires few_taken { length at.now.fixing.now.one ≤ 4000 }
    requires few_terms { length leaf.now.terms ≤ 5007 }
    ensures { result ≡ left_side (packing at.now.model.now) (counted (O.weight at.now.objective.now) (O.floor at.now.objective.now)) (stage_at at.now.level at.now.targets.now at.now.best at.now.pool.now) (fixed_of at.now.fixing.now) leaf.now }
{
    sum_laws();
    let taken = at.fixing.one.as_slice();
    let cliques = cliques_of(at, leaf.terms.as_slice(), taken);
    left_side(
        at.objective,
        at.level,
        leaf,
        times,
        at.targets,
        taken,
        cliques,
    )
}

// What base rows and cuts cost the patterns that are taken.
fn cliques_of<O: Objective>(at: &ObjectiveAt<O>, terms: &[Term], taken: &[u32]) -> i128
    requires pool { IsPoolOf (packing at.now.model.now) at.now.pool.now }
    requires known { list_all (λ p. nat_lt p (length (patterns_of at.now.model.now))) taken.now ≡ true }
    requires few { length taken.now ≤ 4000 }
    requires rising { rises terms.now ≡ true }
    requires small { are_small terms.now ≡ true }
    requires there { list_all (λ t. is_there (packing at.now.model.now) (counted (O.weight at.now.objective.now) (O.floor at.now.objective.now)) (stage_at at.now.level at.now.targets.now at.now.best at.now.pool.now) t.row) terms.now ≡ true }
    ensures value { result ≡ total (clique_priced (packing at.now.model.now) (counted (O.weight at.now.objective.now) (O.floor at.now.objective.now)) (stage_at at.now.level at.now.targets.now at.now.best at.now.pool.now) terms.now) taken.now }
    ensures small { IsWithin (10 ^ 37) result }
{
    let mut sum: i128 = 0;
    for pattern in taken {
        sum = added(sum, cliques_at(at, terms, *pattern));
    }
    sum
}

// What base rows and cuts cost the pattern.
fn cliques_at<O: Objective>(at: &ObjectiveAt<O>, terms: &[Term], pattern: u32) -> i128
    requires known { pattern < length (patterns_of at.now.model.now) }
    requires pool { IsPoolOf (packing at.now.model.now) at.now.pool.now }
    requires rising { rises terms.now ≡ true }
    requires small { are_small terms.now ≡ true }
    requires there { list_all (λ t. is_there (packing at.now.model.now) (counted (O.weight at.now.objective.now) (O.floor at.now.objective.now)) (stage_at at.now.level at.now.targets.now at.now.best at.now.pool.now) t.row) terms.now ≡ true }
    ensures value { result ≡ clique_priced (packing at.now.model.now) (counted (O.weight at.now.objective.now) (O.floor at.now.objective.now)) (stage_at at.now.level at.now.targets.now at.now.best at.now.pool.now) terms.now pattern }
    ensures small { IsWithin (5000 * 10 ^ 24) result }
{
    sum_laws();
    let base = at.model.base_runs(pattern);
    let cuts = at.pool.cut_rows(pattern);
    priced_cliques(terms, base, cuts)
}
