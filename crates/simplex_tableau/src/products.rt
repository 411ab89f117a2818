ghost use Rattle.std.specs.Prelude.{◌≡◌, true};
ghost use Rattle.exact_num.specs.Ops.{one_ℚ, ◌+ℚ◌, ◌*ℚ◌};
ghost use Rattle.simplex_tableau.specs.Ends.{Ends};

use crate::fault::Fault;
use crate::sparse::sign;
use exact_num::{Arith, Fraction};
use std::cmp::Ordering;

/// Whether a number is 1.
pub fn is_one<N: Fraction>(x: N) -> bool
    ensures { result ≡ true → N.value x ≡ one_ℚ }
{
    if x.num() != 1 {
        return false;
    }
    if x.den() != 1 {
        return false;
    }
    true
}

/// The product of two numbers. The arithmetic is not asked where one of them is 1.
pub fn times<A: Arith>(arith: &mut A, a: A::Num, b: A::Num) -> Result<A::Num, Fault>
    ensures { Ends (A.wides arith.old) (A.wides arith.new) (λ x. A.Num.value x ≡ A.Num.value a *ℚ A.Num.value b) result }
{
    if is_one(b) {
        return Ok(a);
    }
    if is_one(a) {
        return Ok(b);
    }
    let product = arith.mul(a, b)?;
    Ok(product)
}

/// The sum of two numbers. The arithmetic is not asked where the first is 0.
fn plus<A: Arith>(arith: &mut A, a: A::Num, b: A::Num) -> Result<A::Num, Fault>
    ensures { Ends (A.wides arith.old) (A.wides arith.new) (λ x. A.Num.value x ≡ A.Num.value a +ℚ A.Num.value b) result }
{
    match sign(a) {
        Ordering::Equal => Ok(b),
        Ordering::Less | Ordering::Greater => {
            let sum = arith.add(a, b)?;
            Ok(sum)
        }
    }
}

/// The sum of a number and a product. The arithmetic is not asked where the first factor is 0.
pub fn plus_times<A: Arith>(
    arith: &mut A,
    total: A::Num,
    a: A::Num,
    b: A::Num,
) -> Result<A::Num, Fault>
    ensures { Ends (A.wides arith.old) (A.wides arith.new) (λ x. A.Num.value x ≡ A.Num.value total +ℚ A.Num.value a *ℚ A.Num.value b) result }
{
    match sign(a) {
        Ordering::Equal => Ok(total),
        Ordering::Less | Ordering::Greater => {
            let product = times(arith, a, b)?;
            plus(arith, total, product)
        }
    }
}
