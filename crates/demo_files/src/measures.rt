ghost use Rattle.std.specs.Prelude.{◌≡◌, ◌≤◌, map, IfOk};
ghost use Rattle.demo_files.specs.Generator.{indices, preference_at, measures_of};

use measure_file::Measures;
use std::alloc::{AllocError, Global};
use values::Items;

/// The points for spare seats: at least so many thousandths of a room's seats stay free.
const ROBUST: [(u32, i32); 2] = [(100, 2), (400, 1)];

/// The measures of `n` courses.
pub fn demo_measures(alloc: Global, n: u32) -> Result<Measures, AllocError>
    requires { n ≤ 300 }
    ensures { IfOk result (λ measures. measures ≡ measures_of n) }
{
    let robust = Items::from_slice(alloc, &ROBUST)?;
    let prefer = preferences(alloc, n)?;
    Ok(Measures {
        features: Items::new(alloc),
        has: Items::new(alloc),
        needs: Items::new(alloc),
        denied: Items::new(alloc),
        closed: Items::new(alloc),
        prefer,
        robust,
        lengths: Items::new(alloc),
    })
}

/// The preferences, course after course.
#[tactic(auto, using(crate::proofs::IndexLemmas::mapped_more))]
fn preferences(alloc: Global, n: u32) -> Result<Items<(u32, u32, i32)>, AllocError>
    requires { n ≤ 300 }
    ensures { IfOk result (λ rows. rows ≡ map preference_at (indices n)) }
{
    let mut rows = Items::new(alloc);
    for course in 0..n {
        rows.push((course, course % 12, 3))?;
    }
    Ok(rows)
}
