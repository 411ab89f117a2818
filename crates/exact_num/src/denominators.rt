ghost use Rattle.std.specs.Prelude.{◌≡◌, ◌<◌, ◌≤◌, ◌^◌, ℕ, pos, map, MatchOption, unsigned_abs};
ghost use Rattle.exact_num.specs.Multiples.{Divides, least_den};
ghost use Rattle.exact_num.specs.Denominators.{FindsNums, FindsCommon};

use crate::arith::{Common, CommonFault};
use crate::fraction::Fraction;
use crate::parts::{common_divisor, fitting_product, quotient};
use std::alloc::Global;

/// The least common denominator, where it is below the bound.
fn least_common<F: Fraction>(bound: u128, list: &[F]) -> Option<i128>
    requires bound { bound ≤ 2 ^ 127 }
    requires one { 1 < bound }
    ensures { MatchOption result (bound ≤ least_den (map F.value list.now)) (λ d. (d ≡ pos (least_den (map F.value list.now))) × (least_den (map F.value list.now) < bound)) }
{
    let mut den: i128 = 1;
    for x in list {
        let other = x.den();
        let g = common_divisor(den, other);
        let Some(both) = fitting_product(bound, den, quotient(other, g)) else {
            return None;
        };
        den = both;
    }
    Some(den)
}

/// The numerators over a denominator that all denominators divide, where they are below the bound.
fn numerators<F: Fraction>(
    alloc: Global,
    bound: u128,
    den: i128,
    list: &[F],
) -> Result<Vec<i128>, CommonFault>
    requires bound { bound ≤ 2 ^ 127 }
    requires divides { Divides (unsigned_abs den) (map F.value list.now) }
    ensures { FindsNums bound den (map F.value list.now) result }
{
    let mut nums = Vec::new(alloc);
    for x in list {
        let times = quotient(den, x.den());
        let Some(num) = fitting_product(bound, x.num(), times) else {
            return Err(CommonFault::Wide);
        };
        if nums.push(num).is_err() {
            return Err(CommonFault::Memory);
        }
    }
    Ok(nums)
}

/// The fractions over their least common denominator, where it and the numerators are below the bound.
pub(crate) fn over_one<F: Fraction>(
    alloc: Global,
    bound: u128,
    list: &[F],
) -> Result<Common, CommonFault>
    requires bound { bound ≤ 2 ^ 127 }
    requires one { 1 < bound }
    ensures { FindsCommon bound (map F.value list.now) result }
{
    let Some(den) = least_common(bound, list) else {
        return Err(CommonFault::Wide);
    };
    match numerators(alloc, bound, den, list) {
        Ok(nums) => Ok(Common { nums, den }),
        Err(fault) => Err(fault),
    }
}
