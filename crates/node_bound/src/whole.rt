ghost use Rattle.std.specs.Prelude.{◌≡◌, ℕ, ℤ, false, not, map, IfOk};
ghost use Rattle.std.specs.List.{list_any};
ghost use Rattle.std.specs.Ordering.{int_eq};
ghost use Rattle.packing_model.specs.Built.{packing};
ghost use Rattle.packing_model.specs.Closing.{counted};
ghost use Rattle.packing_model.specs.Cuts.{IsPoolOf};
ghost use Rattle.packing_model.specs.Nodes.{fixed_of, stage_at};
ghost use Rattle.search_nodes.specs.Choices.{IsHeld, IsMore, weighs};
ghost use Rattle.search_nodes.specs.Points.{IsAbove, sum_at};
ghost use Rattle.node_bound.specs.Answers.{IsNodePoint};
ghost use Rattle.node_bound.specs.Fixed.{IsNode};

use duality::Objective;
use meeting_patterns::to_choice;
use packing_model::{ObjectiveAt, Point};
use problem_core::{Choice, Memory};
use std::alloc::Global;
use values::Items;

/// Whether the point gives each pattern that it lists all of it, so no pattern is given in part.
pub(crate) fn is_whole(point: &Point) -> bool
    ensures { result ≡ not (list_any (λ (e : ℕ × ℤ). not (int_eq e.1 point.now.den)) point.now.entries) }
{
    for entry in point.entries.as_slice() {
        if !is_all(entry.1, point.den) {
            return false;
        }
    }
    true
}

/// Whether the amount is the denominator.
fn is_all(amount: i128, den: i128) -> bool
    ensures { result ≡ int_eq amount den }
{
    amount == den
}

/// The choice of rooms that a whole point's patterns make. It is legal, has the targets, reaches the floor,
/// and weighs what the point weighs, which is more than the best value.
pub(crate) fn whole_choice<O: Objective>(
    alloc: Global,
    at: &ObjectiveAt<O>,
    point: &Point,
) -> Result<Choice, Memory>
    requires node { IsNode at.now.model.now (O.count at.now.objective.now) (O.levels at.now.objective.now) at.now.level at.now.targets.now at.now.fixing.now }
    requires pool { IsPoolOf (packing at.now.model.now) at.now.pool.now }
    requires point { IsNodePoint (packing at.now.model.now) (counted (O.weight at.now.objective.now) (O.floor at.now.objective.now)) (stage_at at.now.level at.now.targets.now at.now.best at.now.pool.now) (fixed_of at.now.fixing.now) point.now }
    requires whole { list_any (λ (e : ℕ × ℤ). not (int_eq e.1 point.now.den)) point.now.entries ≡ false }
    requires above { IsAbove at.now.best point.now.den (sum_at (packing at.now.model.now) (O.weight at.now.objective.now at.now.level) point.now) }
    ensures { IfOk result (λ choice. IsHeld at.now.model.now (counted (O.weight at.now.objective.now) (O.floor at.now.objective.now)) at.now.level at.now.targets.now choice.entries
        × IsMore at.now.best (weighs at.now.model.now (counted (O.weight at.now.objective.now) (O.floor at.now.objective.now)) at.now.level choice.entries)) }
{
    at.model.laws();
    let patterns = patterns_of(alloc, point.entries.as_slice())?;
    to_choice(
        alloc,
        at.model.problem(),
        at.model.patterns(),
        patterns.as_slice(),
    )
}

/// The patterns of the entries.
fn patterns_of(alloc: Global, entries: &[(u32, i128)]) -> Result<Items<u32>, Memory>
    ensures { IfOk result (λ patterns. patterns ≡ map (λ (e : ℕ × ℤ). e.0) entries.now) }
{
    let mut patterns = Items::new(alloc);
    for entry in entries {
        patterns.push(entry.0)?;
    }
    Ok(patterns)
}
