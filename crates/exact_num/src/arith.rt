ghost use Rattle.std.specs.Prelude.{◌≡◌, ◌≢◌, ℕ, ℤ, pos, Bool, [], ◌∷◌, map, ◌&&◌};
ghost use Rattle.std.specs.List.{list_all};
ghost use Rattle.exact_num.specs.Ops.{◌+ℚ◌, ◌*ℚ◌, neg_ℚ, inv_ℚ};
ghost use Rattle.exact_num.specs.Whole.{int_ℚ};
ghost use Rattle.exact_num.specs.Work.{sum_work, difference_work, product_work, quotient_work};
ghost use Rattle.exact_num.specs.Arith.{Gives};
ghost use Rattle.exact_num.specs.Denominators.{GivesCommon};

use crate::fraction::Fraction;
use std::alloc::{AllocError, Global};

/// A working number of the call does not fit.
#[derive(Clone, Copy, PartialEq, Eq)]
pub struct Wide;

/// Memory ran out.
#[derive(Clone, Copy, Debug, PartialEq, Eq)]
pub struct Memory;

impl From<AllocError> for Memory {
    fn from(_: AllocError) -> Memory {
        Memory
    }
}

/// Fractions over one denominator: `nums[i] / den` is the i-th of them.
#[derive(Drop)]
pub struct Common {
    pub nums: Vec<i128>,
    pub den: i128,
}

/// Why fractions were not brought over one denominator.
#[derive(Clone, Copy, PartialEq, Eq)]
pub enum CommonFault {
    /// The least common denominator, or a numerator over it, does not fit or is larger in size than 10^24.
    Wide,
    /// Memory ran out.
    Memory,
}

/// Exact arithmetic on fractions, which refuses a call where one of the numbers that it works with does
/// not fit. Each refusal is counted; the count stands still at `u64::MAX`.
///
/// The working numbers of a sum and of a product are those of Henrici's method: common divisors are
/// taken out before the products and not after them (P. Henrici, 1956; D. E. Knuth, The Art of Computer
/// Programming, volume 2, section 4.5.1).
pub trait Arith {
    type Num: Fraction;

    /// Whether a working number fits.
    ghost fits: { ℤ → Bool };

    /// How often a call was refused.
    ghost wides: { Self → ℕ };

    /// The whole number `n`. `Wide` comes exactly where `n` does not fit.
    fn from_int(&mut self, n: i128) -> Result<Self::Num, Wide>
        ensures { Gives Self.Num.value (list_all fits (n ∷ [])) (int_ℚ n) (wides self.old) (wides self.new) result };

    /// The sum of `a / b` and `c / d`. `Wide` comes exactly where one of these numbers does not fit:
    /// with `g = gcd(b, d)` the products `a * (d / g)` and `c * (b / g)` and their sum `s`, and with
    /// `h = gcd(s, g)` the parts `s / h` and `(b / g) * (d / h)`.
    fn add(&mut self, a: Self::Num, b: Self::Num) -> Result<Self::Num, Wide>
        ensures { Gives Self.Num.value (list_all fits (sum_work (Self.Num.value a) (Self.Num.value b))) (Self.Num.value a +ℚ Self.Num.value b) (wides self.old) (wides self.new) result };

    /// The difference, which works with the numbers of a sum, with `-c` in place of `c`.
    fn sub(&mut self, a: Self::Num, b: Self::Num) -> Result<Self::Num, Wide>
        ensures { Gives Self.Num.value (list_all fits (difference_work (Self.Num.value a) (Self.Num.value b))) (Self.Num.value a +ℚ neg_ℚ (Self.Num.value b)) (wides self.old) (wides self.new) result };

    /// The product of `a / b` and `c / d`. `Wide` comes exactly where one of these numbers does not
    /// fit: with `g = gcd(a, d)` and `h = gcd(c, b)` the parts `(a / g) * (c / h)` and
    /// `(b / h) * (d / g)`.
    fn mul(&mut self, a: Self::Num, b: Self::Num) -> Result<Self::Num, Wide>
        ensures { Gives Self.Num.value (list_all fits (product_work (Self.Num.value a) (Self.Num.value b))) (Self.Num.value a *ℚ Self.Num.value b) (wides self.old) (wides self.new) result };

    /// The quotient of `a / b` by `c / d`, which is not 0. It works with the numbers of the product of
    /// `a / b` and `d / c`, the sign of `c` moved to the top.
    fn div(&mut self, a: Self::Num, b: Self::Num) -> Result<Self::Num, Wide>
        requires { (Self.Num.value b).num ≢ pos 0 }
        ensures { Gives Self.Num.value (list_all fits (quotient_work (Self.Num.value a) (Self.Num.value b))) (Self.Num.value a *ℚ inv_ℚ (Self.Num.value b)) (wides self.old) (wides self.new) result };

    /// The numerators over the least common denominator, which is 1 for an empty list. `Wide` comes
    /// exactly where that denominator or one of the numerators does not fit or is larger in size than
    /// 10^24.
    fn common(&mut self, alloc: Global, list: &[Self::Num]) -> Result<Common, CommonFault>
        ensures { GivesCommon fits (map Self.Num.value list.now) (wides self.old) (wides self.new) result };

    /// How often a call was refused.
    fn wide_count(&self) -> u64
        ensures { result ≡ wides self.now };
}
