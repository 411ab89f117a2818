ghost use Rattle.std.specs.Prelude.{◌≢◌, ◌≤◌, ◌^◌, length};
ghost use Rattle.exact_num.specs.Ops.{zero_ℚ, inv_ℚ};
ghost use Rattle.simplex_tableau.specs.Ends.{Ends};
ghost use Rattle.simplex_tableau.specs.Sparse.{PlacesBelow};
ghost use Rattle.simplex_tableau.specs.Inverse.{AllRise, Makes, RowTimes, Turns, IsShared};

use crate::fault::Fault;
use crate::sparse::{Entry, combine, number_at};
use exact_num::Arith;
use std::alloc::Global;
use values::Items;

/// The inverse times a column: how the column is made of those of the basis.
pub fn ftran<A: Arith>(
    alloc: Global,
    arith: &mut A,
    inverse: &[Items<Entry<A::Num>>],
    column: &[Entry<A::Num>],
) -> Result<Items<Entry<A::Num>>, Fault>
    requires { PlacesBelow (length inverse.now) column.now }
    ensures { Ends (A.wides arith.old) (A.wides arith.new) (Makes A.Num.value inverse.now column.now) result }
{
    let mut made = Items::new(alloc);
    for entry in column {
        let source = inverse[entry.place as usize].as_slice();
        made = combine(alloc, arith, made.as_slice(), entry.number, source)?;
    }
    Ok(made)
}

/// Adds a number over a divisor to a row, where there is one.
fn push_share<A: Arith>(
    arith: &mut A,
    row: &mut Items<Entry<A::Num>>,
    place: u32,
    found: Option<A::Num>,
    divisor: A::Num,
) -> Result<(), Fault>
    requires { A.Num.value divisor ≢ zero_ℚ }
    ensures { Ends (A.wides arith.old) (A.wides arith.new) (λ _. IsShared A.Num.value (inv_ℚ (A.Num.value divisor)) place found row.old row.new) result }
{
    match found {
        None => Ok(()),
        Some(number) => {
            let share = arith.div(number, divisor)?;
            row.push(Entry {
                place,
                number: share,
            })?;
            Ok(())
        }
    }
}

/// The numbers at one place of the columns of the inverse, divided by a number: entry k is that of column k.
pub fn row_over<A: Arith>(
    alloc: Global,
    arith: &mut A,
    inverse: &[Items<Entry<A::Num>>],
    place: u32,
    divisor: A::Num,
) -> Result<Items<Entry<A::Num>>, Fault>
    requires some { A.Num.value divisor ≢ zero_ℚ }
    requires few { length inverse.now ≤ 2 ^ 32 }
    requires rises { AllRise (length inverse.now) inverse.now }
    ensures { Ends (A.wides arith.old) (A.wides arith.new) (RowTimes A.Num.value inverse.now place (inv_ℚ (A.Num.value divisor))) result }
{
    let mut row = Items::new(alloc);
    for k in 0..inverse.len() {
        let found = number_at(inverse[k].as_slice(), place);
        push_share(arith, &mut row, k as u32, found, divisor)?;
    }
    Ok(row)
}

/// Adds `row[k]` * `less` to column k of the inverse, for each k.
pub fn turn_columns<A: Arith>(
    alloc: Global,
    arith: &mut A,
    inverse: &mut [Items<Entry<A::Num>>],
    row: &[Entry<A::Num>],
    less: &[Entry<A::Num>],
) -> Result<(), Fault>
    requires { PlacesBelow (length inverse.old) row.now }
    ensures { Ends (A.wides arith.old) (A.wides arith.new) (λ _. Turns A.Num.value inverse.old row.now less.now inverse.new) result }
{
    for entry in row {
        let k = entry.place as usize;
        let turned = combine(alloc, arith, inverse[k].as_slice(), entry.number, less)?;
        inverse[k] = turned;
    }
    Ok(())
}
