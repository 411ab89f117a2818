ghost use Rattle.std.specs.Prelude.{◌≡◌, ◌↔◌, true};
ghost use Rattle.exact_num.specs.Q.{ℚ};
ghost use Rattle.exact_num.specs.Order.{cmp_ℚ};

use std::hash::Hash;

/// Fractions in lowest terms with a positive denominator, ordered by their values. Two of one value are
/// one value of the type, so they are equal and hash alike.
pub trait Fraction: Copy + Eq + Ord + Hash {
    ghost value: { Self → ℚ };

    /// The numerator, whose sign is that of the fraction.
    fn num(&self) -> i128
        ensures { result ≡ (value self.now).num };

    /// The denominator, which is positive.
    fn den(&self) -> i128
        ensures { result ≡ (value self.now).den };

    ghost same: { (x y : Self) → value x ≡ value y → x ≡ y };

    ghost equality: { (x y : Self) → (Self.PartialEq.eq x y ≡ true) ↔ (value x ≡ value y) };

    ghost order: { (x y : Self) → Self.Ord.cmp x y ≡ cmp_ℚ (value x) (value y) };
}
