ghost use Rattle.std.specs.Prelude.{◌≡◌, ◌≢◌, ◌<◌, length};
ghost use Rattle.exact_num.specs.Ops.{zero_ℚ, inv_ℚ, ◌*ℚ◌};
ghost use Rattle.simplex_tableau.specs.Ends.{Ends};
ghost use Rattle.simplex_tableau.specs.Sparse.{at, Rises, PlacesBelow};
ghost use Rattle.simplex_tableau.specs.Dense.{num, Added};
ghost use Rattle.simplex_tableau.specs.Tableau.{HasShape, PivotsTo};

use crate::dense::add_times;
use crate::fault::Fault;
use crate::inverse::{row_over, turn_columns};
use crate::sparse::{Entry, combine};
use exact_num::Arith;
use std::alloc::Global;
use values::Items;

/// A basis with its inverse, and the values at its places.
#[derive(Drop)]
pub struct Tableau<N> {
    /// The variable at each place.
    pub basis: Vec<usize>,
    /// The columns of the inverse, each in order of places.
    pub inverse: Vec<Items<Entry<N>>>,
    /// The value at each place.
    pub point: Vec<N>,
    /// The value at each place for the sides that break ties.
    pub tie: Vec<N>,
}

/// Adds `less` to the values, times their number at a place over a divisor.
fn step_values<A: Arith>(
    arith: &mut A,
    values: &mut [A::Num],
    place: usize,
    divisor: A::Num,
    less: &[Entry<A::Num>],
) -> Result<(), Fault>
    requires place { place < length values.old }
    requires some { A.Num.value divisor ≢ zero_ℚ }
    requires less { PlacesBelow (length values.old) less.now }
    ensures { Ends (A.wides arith.old) (A.wides arith.new) (λ _. Added A.Num.value values.old (num A.Num.value values.old place *ℚ inv_ℚ (A.Num.value divisor)) less.now values.new) result }
{
    let step = arith.div(values[place], divisor)?;
    add_times(arith, values, step, less)
}

/// Brings a variable in at a place, where `made` is the inverse times its column. Answers what each
/// column of the inverse took of `made`, with its sign turned.
pub fn pivot<A: Arith>(
    alloc: Global,
    arith: &mut A,
    tableau: &mut Tableau<A::Num>,
    place: u32,
    number: A::Num,
    entering: usize,
    made: &[Entry<A::Num>],
) -> Result<Items<Entry<A::Num>>, Fault>
    requires shape { HasShape (length tableau.old.point.items) tableau.old }
    requires below { place < length tableau.old.point.items }
    requires number { A.Num.value number ≡ at A.Num.value made.now place }
    requires some { A.Num.value number ≢ zero_ℚ }
    requires rises { Rises 0 (length tableau.old.point.items) made.now }
    ensures { Ends (A.wides arith.old) (A.wides arith.new) (PivotsTo A.Num.value (length tableau.old.point.items) place entering made.now tableau.old tableau.new) result }
{
    let one = arith.from_int(1)?;
    let minus = arith.from_int(-1)?;
    let divisor = arith.mul(number, minus)?;
    let unit = [Entry { place, number: one }];
    let less = combine(alloc, arith, made, minus, &unit)?;
    let row = row_over(alloc, arith, &tableau.inverse, place, divisor)?;
    step_values(
        arith,
        &mut tableau.point,
        place as usize,
        divisor,
        less.as_slice(),
    )?;
    step_values(
        arith,
        &mut tableau.tie,
        place as usize,
        divisor,
        less.as_slice(),
    )?;
    turn_columns(
        alloc,
        arith,
        &mut tableau.inverse,
        row.as_slice(),
        less.as_slice(),
    )?;
    tableau.basis[place as usize] = entering;
    Ok(row)
}
