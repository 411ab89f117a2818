ghost use Rattle.std.specs.Prelude.{◌≤◌, length};
ghost use Rattle.simplex_tableau.specs.Ends.{Ends};
ghost use Rattle.exact_simplex.specs.Values.{AddsValue, AreValues};

use exact_num::Arith;
use simplex_tableau::{Fault, repeated};
use std::alloc::Global;

/// Adds a number to the value of a variable, where that is one of the columns.
fn add_value<A: Arith>(
    arith: &mut A,
    values: &mut [A::Num],
    variable: usize,
    number: A::Num,
) -> Result<(), Fault>
    ensures { Ends (A.wides arith.old) (A.wides arith.new) (λ _. AddsValue A.Num.value values.old variable (A.Num.value number) values.new) result }
{
    if variable < values.len() {
        let sum = arith.add(values[variable], number)?;
        values[variable] = sum;
    }
    Ok(())
}

/// The values of the columns, where `numbers[p]` is the value of variable `variables[p]` and all others are 0.
pub(crate) fn values_of_columns<A: Arith>(
    alloc: Global,
    arith: &mut A,
    columns: usize,
    variables: &[usize],
    numbers: &[A::Num],
) -> Result<Vec<A::Num>, Fault>
    requires { length variables.now ≤ length numbers.now }
    ensures { Ends (A.wides arith.old) (A.wides arith.new) (λ v. AreValues A.Num.value columns variables.now numbers.now v.items) result }
{
    let zero = arith.from_int(0)?;
    let mut values = repeated(alloc, zero, columns)?;
    for p in 0..variables.len() {
        add_value(arith, &mut values, variables[p], numbers[p])?;
    }
    Ok(values)
}
