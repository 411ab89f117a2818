ghost use Rattle.std.specs.Prelude.{◌≡◌, ◌≤◌, ℕ, IfOk, length, true};
ghost use Rattle.std.specs.List.{list_all};
ghost use Rattle.measure_file.specs.Promised.{is_pair};
ghost use Rattle.room_model.specs.Features.{FeaturesAreListed};
ghost use Rattle.room_model.specs.ProblemOf.{sets_of};

use std::alloc::{AllocError, Global};
use values::Items;

/// For each of `count` courses or rooms the set of the features that the pairs list for it: bit f of a set stands
/// for feature f.
pub fn feature_sets(
    alloc: Global,
    count: usize,
    features: usize,
    pairs: &[(u32, u32)],
) -> Result<Items<u128>, AllocError>
    requires few { features ≤ 100 }
    requires known { list_all (is_pair count features) pairs.now ≡ true }
    ensures { IfOk result (λ sets. sets ≡ sets_of count pairs.now) }
{
    let mut sets = vec![in alloc; 0u128; count]?;
    for (number, feature) in pairs {
        let number = *number as usize;
        sets[number] = sets[number] | 1 << *feature;
    }
    Ok(Items::from(sets))
}

/// In a problem of files a room has the features that a course needs exactly where each of them is listed for the
/// room. It computes nothing.
pub fn feature_laws()
    ensures { FeaturesAreListed }
{}
