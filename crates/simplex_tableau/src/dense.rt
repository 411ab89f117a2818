ghost use Rattle.std.specs.Prelude.{◌≡◌, length, OnOk, IfOk, IfErr, replicate, ◌++◌, ◌∷◌, []};
ghost use Rattle.simplex_tableau.specs.declared.fault.Fault.TheVariants as fault;
ghost use Rattle.simplex_tableau.specs.Ends.{Ends};
ghost use Rattle.simplex_tableau.specs.Sparse.{PlacesBelow, dot_with};
ghost use Rattle.simplex_tableau.specs.Dense.{num, Added};

use crate::fault::Fault;
use crate::products::plus_times;
use crate::sparse::Entry;
use exact_num::Arith;
use std::alloc::Global;

/// Appends a number.
pub fn append_number<N: Copy>(list: &mut Vec<N>, number: N) -> Result<(), Fault>
    ensures ok { OnOk result (list.new.items ≡ list.old.items ++ number ∷ []) }
    ensures err { IfErr result (λ e. e ≡ fault.Memory) }
{
    match list.push(number) {
        Ok(()) => Ok(()),
        Err(_) => Err(Fault::Memory),
    }
}

/// A number again and again.
pub fn repeated<N: Copy>(alloc: Global, number: N, count: usize) -> Result<Vec<N>, Fault>
    ensures ok { IfOk result (λ v. v.items ≡ replicate count number) }
    ensures err { IfErr result (λ e. e ≡ fault.Memory) }
{
    let mut list = Vec::new(alloc);
    for _ in 0..count {
        append_number(&mut list, number)?;
    }
    Ok(list)
}

/// Adds `factor` * `source` to `x`.
pub fn add_times<A: Arith>(
    arith: &mut A,
    x: &mut [A::Num],
    factor: A::Num,
    source: &[Entry<A::Num>],
) -> Result<(), Fault>
    requires { PlacesBelow (length x.old) source.now }
    ensures { Ends (A.wides arith.old) (A.wides arith.new) (λ _. Added A.Num.value x.old (A.Num.value factor) source.now x.new) result }
{
    for entry in source {
        let place = entry.place as usize;
        let sum = plus_times(arith, x[place], factor, entry.number)?;
        x[place] = sum;
    }
    Ok(())
}

/// The product of `y` with a column.
pub fn price<A: Arith>(
    arith: &mut A,
    y: &[A::Num],
    column: &[Entry<A::Num>],
) -> Result<A::Num, Fault>
    requires { PlacesBelow (length y.now) column.now }
    ensures { Ends (A.wides arith.old) (A.wides arith.new) (λ x. A.Num.value x ≡ dot_with A.Num.value (num A.Num.value y.now) column.now) result }
{
    let mut total = arith.from_int(0)?;
    for entry in column {
        let sum = plus_times(arith, total, y[entry.place as usize], entry.number)?;
        total = sum;
    }
    Ok(total)
}
