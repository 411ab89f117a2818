ghost use Rattle.std.specs.Prelude.{ℕ, ◌≡◌, ◌+◌, ◌<◌, ◌^◌, ℤ, pos, ◌≤ℤ◌, ◌<ℤ◌, true, unsigned_abs, length, IfOk};
ghost use Rattle.std.specs.Int.{◌∣◌, IsGcd};
ghost use Rattle.exact_num.specs.Work.{below};
ghost use Rattle.exact_simplex.specs.Task.{AreSmall, int_at};
ghost use Rattle.node_bound.specs.Terms.{IsGreatest, AreParts};

use exact_num::{common_divisor, quotient};
use problem_core::Memory;
use std::alloc::Global;
use values::Items;

/// The greatest common divisor of a scale and numbers, 0 where all of them are 0.
pub(crate) fn divisor_of(scale: i128, numbers: &[i128]) -> i128
    requires scale { pos 0 ≤ℤ scale }
    requires small { AreSmall numbers.now }
    ensures greatest { IsGreatest (unsigned_abs result) scale numbers.now (length numbers.now) }
    ensures not_negative { pos 0 ≤ℤ result }
{
    let mut divisor = scale;
    for number in numbers {
        divisor = joined(divisor, *number);
    }
    divisor
}

/// The greatest common divisor of a divisor, which is 0 where all before it were 0, and one number more.
fn joined(divisor: i128, number: i128) -> i128
    requires not_negative { pos 0 ≤ℤ divisor }
    requires small { below (10 ^ 24 + 1) number ≡ true }
    ensures gcd { IsGcd (unsigned_abs number) (unsigned_abs divisor) (unsigned_abs result) }
    ensures not_negative { pos 0 ≤ℤ result }
{
    if divisor == 0 {
        return number.abs();
    }
    common_divisor(number, divisor)
}

/// The numbers, each divided by a divisor that they have in common.
pub(crate) fn divided(alloc: Global, numbers: &[i128], divisor: i128) -> Result<Items<i128>, Memory>
    requires some { pos 0 <ℤ divisor }
    requires small { AreSmall numbers.now }
    requires divides { (i : ℕ) → i < length numbers.now → unsigned_abs divisor ∣ unsigned_abs (int_at numbers.now i) }
    ensures { IfOk result (λ parts. AreParts divisor parts numbers.now) }
{
    let mut parts = Items::new(alloc);
    for number in numbers {
        parts.push(quotient(*number, divisor))?;
    }
    Ok(parts)
}
