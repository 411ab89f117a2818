ghost use Rattle.std.specs.Prelude.{◌≡◌, ◌≤◌, ◌^◌, true, Some, IfOk, OnOk, MatchOption};
ghost use Rattle.duality.specs.Sums.{IsValue, IsWithin};
ghost use Rattle.packing_model.specs.Built.{packing, measured};
ghost use Rattle.packing_model.specs.Closing.{counted};
ghost use Rattle.packing_model.specs.Cuts.{IsPoolOf};
ghost use Rattle.packing_model.specs.Nodes.{AreTargets, IsValidFixing, fixed_of, stage_at};
ghost use Rattle.node_bound.specs.Bounds.{Bounds, IsBetterChoice, IsLevelAt, has_free};
ghost use Rattle.node_bound.specs.Exact.{BoundsExactly, Shows, since};
ghost use Rattle.node_bound.specs.Fixed.{IsNode};

use crate::fixed::close_fixed_at;
use crate::free::lowest_free;
use crate::guess::guess_at;
use crate::guesses::tested;
use crate::solve::bound_free;
use duality::Objective;
use exact_num::{Arith, Steps};
use meeting_patterns::pattern_laws;
use node_guess::Hints;
use packing_model::{At, Leaf, Measured, ObjectiveAt, Point};
use problem_core::{Choice, Memory};
use search_nodes::measured_laws;
use std::alloc::Global;
use std::sync::ledger::Ledger;

/// What is known at a node: a leaf that closes there; a better choice; a point that meets the rows of the node
/// and weighs more than the best value, though it makes no choice; that a number of the arithmetic did not
/// fit, with the counts of such numbers before and after; or that so many pivots were spent.
#[derive(Drop)]
pub enum Bounded {
    Closed(Leaf),
    Better(Choice),
    Gap(Point),
    Wide { before: u64, after: u64 },
    Stalled { pivots: u64 },
}

/// What is known at a node of the measures, by [`bound_at`]. Where a pattern is free its linear program is
/// solved once; where none is, the answer is that of `close_fixed`.
///
/// - `Closed`: the leaf closes at the node. Its scale and multipliers are at most 10^24 in size, and no
///   multiplier is 0.
/// - `Better`: the choice is legal, has the target measures, and more than the best value at the level.
/// - `Gap`: the point has all of each pattern that is taken and nothing of any other that is not free, meets
///   each base row, cut and level row, has at least one more than the best value, and has a pattern in part.
///   Its denominator is at most 10^24.
/// - `Wide` comes only where a number did not fit, with the counts of such numbers before and after.
/// - `Stalled` comes only where the pivots of the node's linear program reached their limit, which is
///   `20 * (base rows + cuts + levels below + free patterns) + 1000`; so many steps were counted.
///
/// It fails only where memory runs out.
pub fn bound<A: Arith, L: Ledger>(
    alloc: Global,
    at: &At,
    arith: &mut A,
    steps: &mut Steps<L>,
) -> Result<Bounded, Memory>
    requires pool { IsPoolOf (packing at.now.model.now) at.now.pool.now }
    requires fixing { IsValidFixing (packing at.now.model.now) at.now.fixing.now }
    requires high { at.now.level ≤ 6 }
    requires targets { AreTargets at.now.level at.now.targets.now }
    requires best { IsWithin (10 ^ 12) at.now.best }
    ensures bounds { IfOk result (BoundsExactly at.now.model.now (measured at.now.model.now) (stage_at at.now.level at.now.targets.now (Some at.now.best) at.now.pool.now) (fixed_of at.now.fixing.now) (A.wides arith.old) (A.wides arith.new) steps.old steps.new) }
    ensures better { IfOk result (IsBetterChoice at.now.model.now at.now.level at.now.targets.now at.now.best) }
    ensures wides { OnOk result (A.wides arith.old ≤ A.wides arith.new) }
    ensures steps { steps.old ≤ steps.new }
{
    measured_laws(at.model);
    let measured = Measured::new(at.model);
    let node = ObjectiveAt {
        model: at.model,
        pool: at.pool,
        fixing: at.fixing,
        objective: &measured,
        level: at.level,
        targets: at.targets,
        best: Some(at.best),
    };
    bound_once(alloc, &node, arith, steps)
}

/// What is known at a node of an objective over the model's patterns, against a best value or none, with a
/// floor or none. Where no pattern is free it answers as `close_fixed_at`; else the node's linear program over
/// the free patterns is solved once, and its answer decides by one comparison.
///
/// `Closed`, `Better`, `Gap` and `Wide` are those of [`bound`], with the targets and the floor of the
/// objective. `Stalled` comes only where at least the pivots that the node may spend were spent, and so many
/// steps were counted. No promise rests on the hints. It fails only where memory runs out.
///
/// Bounds by the dual of a linear program, and leaves by its multipliers: after weak duality (Gale, Kuhn and
/// Tucker, 1951); branch and bound over linear programs: Land and Doig (1960).
pub fn bound_at<O: Objective, A: Arith, L: Ledger>(
    alloc: Global,
    at: &ObjectiveAt<O>,
    hints: &mut Hints,
    arith: &mut A,
    steps: &mut Steps<L>,
) -> Result<Bounded, Memory>
    requires pool { IsPoolOf (packing at.now.model.now) at.now.pool.now }
    requires fixing { IsValidFixing (packing at.now.model.now) at.now.fixing.now }
    requires level { IsLevelAt at.now.model.now (counted (O.weight at.now.objective.now) (O.floor at.now.objective.now)) (O.count at.now.objective.now) (O.levels at.now.objective.now) at.now.level at.now.targets.now }
    requires best { IsValue at.now.best }
    ensures bounds { IfOk result (Bounds at.now.model.now (counted (O.weight at.now.objective.now) (O.floor at.now.objective.now)) (stage_at at.now.level at.now.targets.now at.now.best at.now.pool.now) (fixed_of at.now.fixing.now) (A.wides arith.old) (A.wides arith.new) steps.old steps.new) }
    ensures wides { OnOk result (A.wides arith.old ≤ A.wides arith.new) }
    ensures steps { steps.old ≤ steps.new }
{
    at.model.laws();
    pattern_laws();
    match lowest_free(at.model, at.fixing) {
        Some(_) => bound_guessed(alloc, at, hints, arith, steps),
        None => close_fixed_at(alloc, at),
    }
}

/// What is known at a node where a pattern is free: a guess that passes its test, or else what the node's
/// linear program shows.
fn bound_guessed<O: Objective, A: Arith, L: Ledger>(
    alloc: Global,
    at: &ObjectiveAt<O>,
    hints: &mut Hints,
    arith: &mut A,
    steps: &mut Steps<L>,
) -> Result<Bounded, Memory>
    requires node { IsNode at.now.model.now (O.count at.now.objective.now) (O.levels at.now.objective.now) at.now.level at.now.targets.now at.now.fixing.now }
    requires pool { IsPoolOf (packing at.now.model.now) at.now.pool.now }
    requires best { IsValue at.now.best }
    requires free { has_free (packing at.now.model.now) (fixed_of at.now.fixing.now) ≡ true }
    ensures bounds { IfOk result (Bounds at.now.model.now (counted (O.weight at.now.objective.now) (O.floor at.now.objective.now)) (stage_at at.now.level at.now.targets.now at.now.best at.now.pool.now) (fixed_of at.now.fixing.now) (A.wides arith.old) (A.wides arith.new) steps.old steps.new) }
    ensures wides { OnOk result (A.wides arith.old ≤ A.wides arith.new) }
    ensures steps { steps.old ≤ steps.new }
{
    let before = arith.wide_count();
    if let Some(bounded) = guessed(alloc, at, hints, arith)? {
        return Ok(bounded);
    }
    let bounded = bound_free(alloc, at, arith, steps)?;
    Ok(since(before, bounded))
}

/// A guess that passes its test.
fn guessed<O: Objective, A: Arith>(
    alloc: Global,
    at: &ObjectiveAt<O>,
    hints: &mut Hints,
    arith: &mut A,
) -> Result<Option<Bounded>, Memory>
    requires node { IsNode at.now.model.now (O.count at.now.objective.now) (O.levels at.now.objective.now) at.now.level at.now.targets.now at.now.fixing.now }
    requires pool { IsPoolOf (packing at.now.model.now) at.now.pool.now }
    requires best { IsValue at.now.best }
    requires free { has_free (packing at.now.model.now) (fixed_of at.now.fixing.now) ≡ true }
    ensures shows { IfOk result (λ found. MatchOption found (Unit {0}) (Shows at.now.model.now (counted (O.weight at.now.objective.now) (O.floor at.now.objective.now)) (stage_at at.now.level at.now.targets.now at.now.best at.now.pool.now) (fixed_of at.now.fixing.now))) }
    ensures wides { A.wides arith.old ≤ A.wides arith.new }
{
    match guess_at(alloc, at, hints, arith)? {
        Some(guess) => tested(alloc, at, guess),
        None => Ok(None),
    }
}

/// The answer, with an earlier count of numbers that did not fit.
fn since(before: u64, bounded: Bounded) -> Bounded
    ensures { result ≡ since before bounded }
{
    match bounded {
        Bounded::Wide { after, .. } => Bounded::Wide { before, after },
        other => other,
    }
}

/// The same without hints: where the pivots were spent they are exactly those that the node may spend.
fn bound_once<O: Objective, A: Arith, L: Ledger>(
    alloc: Global,
    at: &ObjectiveAt<O>,
    arith: &mut A,
    steps: &mut Steps<L>,
) -> Result<Bounded, Memory>
    requires pool { IsPoolOf (packing at.now.model.now) at.now.pool.now }
    requires fixing { IsValidFixing (packing at.now.model.now) at.now.fixing.now }
    requires level { IsLevelAt at.now.model.now (counted (O.weight at.now.objective.now) (O.floor at.now.objective.now)) (O.count at.now.objective.now) (O.levels at.now.objective.now) at.now.level at.now.targets.now }
    requires best { IsValue at.now.best }
    ensures bounds { IfOk result (BoundsExactly at.now.model.now (counted (O.weight at.now.objective.now) (O.floor at.now.objective.now)) (stage_at at.now.level at.now.targets.now at.now.best at.now.pool.now) (fixed_of at.now.fixing.now) (A.wides arith.old) (A.wides arith.new) steps.old steps.new) }
    ensures wides { OnOk result (A.wides arith.old ≤ A.wides arith.new) }
    ensures steps { steps.old ≤ steps.new }
{
    at.model.laws();
    pattern_laws();
    match lowest_free(at.model, at.fixing) {
        Some(_) => bound_free(alloc, at, arith, steps),
        None => close_fixed_at(alloc, at),
    }
}
