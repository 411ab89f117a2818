ghost use Rattle.std.specs.Prelude.{◌≡◌, ◌<◌, ◌^◌, unsigned_abs};
ghost use Rattle.exact_num.specs.Q.{IsLow};

use crate::fraction::Fraction;
use crate::parts::{compare, reduced};
use std::cmp::Ordering;

/// Sizes below this fit the parts of a `Frac128`.
pub(crate) const BOUND_128: u128 = 1 << 127;

/// A fraction whose parts have at most 127 bits.
#[derive(Clone, Copy, PartialEq, Eq, Hash)]
pub struct Frac128 {
    pub(crate) num: i128,
    pub(crate) den: i128,
    ghost low: { IsLow num den },
    ghost fits: { unsigned_abs num < 2 ^ 127 },
}

impl Frac128 {
    ghost use Rattle.std.specs.Prelude.{◌≢◌, pos, MatchOption};
    ghost use Rattle.exact_num.specs.Arith.{IsValue, IsUnfit, HasParts};
    ghost use Rattle.exact_num.specs.Value128.{value_128};

    /// The fraction `num / den` in lowest terms. `None` comes exactly where `den` is 0 or a part of the
    /// fraction in lowest terms is larger in size than 2^127 - 1.
    pub fn new(num: i128, den: i128) -> Option<Frac128>
        ensures { MatchOption result (IsUnfit (2 ^ 127) num den) (λ x. (den ≢ pos 0) × IsValue (value_128 x) num den) }
    {
        match reduced(BOUND_128, num, den) {
            Some((num, den)) => Some(Frac128::from_parts(num, den)),
            None => None,
        }
    }

    /// The fraction with these parts.
    #[inline]
    pub(crate) fn from_parts(num: i128, den: i128) -> Frac128
        requires low { IsLow num den }
        requires fits { unsigned_abs num < 2 ^ 127 }
        ensures { HasParts (value_128 result) num den }
    {
        Frac128 { num, den }
    }
}

impl Fraction for Frac128 {
    ghost use Rattle.exact_num.specs.Value128.{value_128, same_128, equal_128};
    ghost use Rattle.std.specs.Prelude.{refl};

    ghost value = { value_128 };

    ghost same = { same_128 };

    ghost equality = { equal_128 };

    ghost order = { λ x y. refl };

    #[inline]
    fn num(&self) -> i128 {
        self.num
    }

    #[inline]
    fn den(&self) -> i128 {
        self.den
    }
}

impl Ord for Frac128 {
    ghost use Rattle.std.specs.Prelude.{refl};
    ghost use Rattle.exact_num.specs.Cross.{cross_cmp, IsTotalOrder-cross, matches_fields};

    ghost cmp = { λ x y. cross_cmp x.num x.den y.num y.den };

    ghost total = { IsTotalOrder-cross (λ x. x.num) (λ x. x.den) (λ x. x.low.positive) };

    ghost matches_partial_cmp = { λ x y. refl };

    ghost matches_eq = { λ x y. matches_fields x.num x.den y.num y.den x.low.positive y.low.positive x.low.reduced y.low.reduced };

    fn cmp(&self, other: &Frac128) -> Ordering {
        compare(self.num, self.den, other.num, other.den)
    }
}

impl PartialOrd for Frac128 {
    ghost use Rattle.std.specs.Prelude.{refl, Some};
    ghost use Rattle.std.specs.Cmp.{partial_order_from_agreeing_total};
    ghost use Rattle.exact_num.specs.Cross.{cross_cmp, IsTotalOrder-cross, matches_fields};
    ghost use Rattle.exact_num.specs.declared.fraction_128.Frac128.{Frac128};

    ghost partial_cmp = { λ x y. Some (cross_cmp x.num x.den y.num y.den) };

    ghost laws = { partial_order_from_agreeing_total (λ (x y : Frac128). cross_cmp x.num x.den y.num y.den) (IsTotalOrder-cross (λ (x : Frac128). x.num) (λ x. x.den) (λ x. x.low.positive)) (λ x y. refl) (λ x y. matches_fields x.num x.den y.num y.den x.low.positive y.low.positive x.low.reduced y.low.reduced) };

    fn partial_cmp(&self, other: &Frac128) -> Option<Ordering> {
        Some(self.cmp(other))
    }
}
