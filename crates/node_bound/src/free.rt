ghost use Rattle.std.specs.Prelude.{◌≡◌, ◌+◌, false, MatchOption};
ghost use Rattle.numbers.specs.Below.{first_from};
ghost use Rattle.duality.specs.Packing.{is_free};
ghost use Rattle.packing_model.specs.Built.{packing};
ghost use Rattle.packing_model.specs.Nodes.{IsFixingOf, fixed_of};
ghost use Rattle.node_bound.specs.Bounds.{has_free};

use packing_model::{Fixing, Model, is_free};

/// The lowest free pattern; `None` comes exactly where none is free.
pub fn lowest_free(model: &Model, fixing: &Fixing) -> Option<u32>
    requires { IsFixingOf (packing model.now) fixing.now }
    ensures { MatchOption result (has_free (packing model.now) (fixed_of fixing.now) ≡ false) (λ pattern. first_from (is_free (packing model.now) (fixed_of fixing.now)) 0 (packing model.now).count ≡ pattern + 1) }
{
    for pattern in 0..model.patterns().len() {
        if is_free(model, fixing, pattern) {
            return Some(pattern);
        }
    }
    None
}
