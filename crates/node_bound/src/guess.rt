ghost use Rattle.std.specs.Prelude.{◌≡◌, ◌≤◌, true};
ghost use Rattle.duality.specs.Sums.{IsValue};
ghost use Rattle.packing_model.specs.Built.{packing};
ghost use Rattle.packing_model.specs.Cuts.{IsPoolOf};
ghost use Rattle.packing_model.specs.Nodes.{fixed_of};
ghost use Rattle.node_bound.specs.Bounds.{has_free};
ghost use Rattle.node_bound.specs.Fixed.{IsNode};

use duality::Objective;
use exact_num::Arith;
use node_guess::{Guess, Hints, find_guess, gains_fit};
use packing_model::ObjectiveAt;
use problem_core::Memory;
use std::alloc::Global;

/// A guess at a node where a pattern is free, or none. Nothing is promised of it. It fails only where memory
/// runs out.
pub(crate) fn guess_at<O: Objective, A: Arith>(
    alloc: Global,
    at: &ObjectiveAt<O>,
    hints: &mut Hints,
    arith: &mut A,
) -> Result<Option<Guess>, Memory>
    requires node { IsNode at.now.model.now (O.count at.now.objective.now) (O.levels at.now.objective.now) at.now.level at.now.targets.now at.now.fixing.now }
    requires pool { IsPoolOf (packing at.now.model.now) at.now.pool.now }
    requires best { IsValue at.now.best }
    requires free { has_free (packing at.now.model.now) (fixed_of at.now.fixing.now) ≡ true }
    ensures { A.wides arith.old ≤ A.wides arith.new }
{
    if gains_fit(at, arith) {
        find_guess(alloc, at, hints)
    } else {
        Ok(None)
    }
}
