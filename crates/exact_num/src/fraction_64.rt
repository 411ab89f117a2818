ghost use Rattle.std.specs.Prelude.{◌≡◌, ◌<◌, ◌^◌, unsigned_abs};
ghost use Rattle.exact_num.specs.Q.{IsLow};

use crate::fraction::Fraction;
use crate::parts::{compare, reduced};
use std::cmp::Ordering;

/// Sizes below this fit the parts of a `Frac64`.
pub(crate) const BOUND_64: u128 = 1 << 63;

/// A fraction whose parts have at most 63 bits.
#[derive(Clone, Copy, PartialEq, Eq, Hash)]
pub struct Frac64 {
    pub(crate) num: i64,
    pub(crate) den: i64,
    ghost low: { IsLow num den },
    ghost fits: { unsigned_abs num < 2 ^ 63 },
}

impl Frac64 {
    ghost use Rattle.std.specs.Prelude.{◌≢◌, pos, MatchOption};
    ghost use Rattle.exact_num.specs.Arith.{IsValue, IsUnfit, HasParts};
    ghost use Rattle.exact_num.specs.Value64.{value_64};

    /// The fraction `num / den` in lowest terms. `None` comes exactly where `den` is 0 or a part of the
    /// fraction in lowest terms is larger in size than 2^63 - 1.
    pub fn new(num: i64, den: i64) -> Option<Frac64>
        ensures { MatchOption result (IsUnfit (2 ^ 63) num den) (λ x. (den ≢ pos 0) × IsValue (value_64 x) num den) }
    {
        match reduced(BOUND_64, i128::from(num), i128::from(den)) {
            Some((num, den)) => Some(Frac64::from_parts(num, den)),
            None => None,
        }
    }

    /// The fraction with these parts.
    #[inline]
    pub(crate) fn from_parts(num: i128, den: i128) -> Frac64
        requires low { IsLow num den }
        requires fits { unsigned_abs num < 2 ^ 63 }
        requires den_fits { unsigned_abs den < 2 ^ 63 }
        ensures { HasParts (value_64 result) num den }
    {
        Frac64 {
            num: num as i64,
            den: den as i64,
        }
    }
}

impl Fraction for Frac64 {
    ghost use Rattle.exact_num.specs.Value64.{value_64, same_64, equal_64};
    ghost use Rattle.std.specs.Prelude.{refl};

    ghost value = { value_64 };

    ghost same = { same_64 };

    ghost equality = { equal_64 };

    ghost order = { λ x y. refl };

    #[inline]
    fn num(&self) -> i128 {
        i128::from(self.num)
    }

    #[inline]
    fn den(&self) -> i128 {
        i128::from(self.den)
    }
}

impl Ord for Frac64 {
    ghost use Rattle.std.specs.Prelude.{refl};
    ghost use Rattle.exact_num.specs.Cross.{cross_cmp, IsTotalOrder-cross, matches_fields};

    ghost cmp = { λ x y. cross_cmp x.num x.den y.num y.den };

    ghost total = { IsTotalOrder-cross (λ x. x.num) (λ x. x.den) (λ x. x.low.positive) };

    ghost matches_partial_cmp = { λ x y. refl };

    ghost matches_eq = { λ x y. matches_fields x.num x.den y.num y.den x.low.positive y.low.positive x.low.reduced y.low.reduced };

    fn cmp(&self, other: &Frac64) -> Ordering {
        compare(
            i128::from(self.num),
            i128::from(self.den),
            i128::from(other.num),
            i128::from(other.den),
        )
    }
}

impl PartialOrd for Frac64 {
    ghost use Rattle.std.specs.Prelude.{refl, Some};
    ghost use Rattle.std.specs.Cmp.{partial_order_from_agreeing_total};
    ghost use Rattle.exact_num.specs.Cross.{cross_cmp, IsTotalOrder-cross, matches_fields};
    ghost use Rattle.exact_num.specs.declared.fraction_64.Frac64.{Frac64};

    ghost partial_cmp = { λ x y. Some (cross_cmp x.num x.den y.num y.den) };

    ghost laws = { partial_order_from_agreeing_total (λ (x y : Frac64). cross_cmp x.num x.den y.num y.den) (IsTotalOrder-cross (λ (x : Frac64). x.num) (λ x. x.den) (λ x. x.low.positive)) (λ x y. refl) (λ x y. matches_fields x.num x.den y.num y.den x.low.positive y.low.positive x.low.reduced y.low.reduced) };

    fn partial_cmp(&self, other: &Frac64) -> Option<Ordering> {
        Some(self.cmp(other))
    }
}
