ghost use Rattle.std.specs.Prelude.{◌≡◌, ℕ, ◌<◌, ◌^◌, IfSome, Bool, false, unsigned_abs};
ghost use Rattle.exact_num.specs.Q.{IsLow};
ghost use Rattle.exact_num.specs.Work.{below};
ghost use Rattle.exact_num.specs.Arith.{Rose, Settles};
ghost use Rattle.exact_num.specs.Value128.{value_128};
ghost use Rattle.exact_num.specs.Value64.{value_64};

use crate::arith::{Arith, Common, CommonFault, Wide};
use crate::denominators::over_one;
use crate::fraction_64::{BOUND_64, Frac64};
use crate::fraction_128::{BOUND_128, Frac128};
use crate::parts::{int_parts, product_parts, quotient_parts, sum_parts};
use std::alloc::Global;
use std::marker::Model;

/// Sizes below this are at most 10^24, and fit the numerators of `Exact128::common`.
const COMMON_BOUND: u128 = 1_000_000_000_000_000_000_000_001;

/// One more refusal; the count stands still at its greatest value.
#[inline]
fn raised(wides: u64) -> u64
    ensures { Rose wides result }
{
    wides.saturating_add(1)
}

/// Arithmetic on fractions of 128-bit parts, where sizes up to 2^127 - 1 fit. Contracts see it as its
/// count of refusals.
#[derive(Drop)]
pub struct Exact128 {
    wides: u64,
}

impl Model for Exact128 {
    ghost use Rattle.std.specs.Prelude.{ℕ};

    ghost Value = { ℕ };

    ghost view = { λ e. e.wides };
}

impl Exact128 {
    /// With the count 0.
    pub fn new() -> Exact128
        ensures { result ≡ 0 }
    {
        Exact128 { wides: 0 }
    }

    /// The fraction with these parts; none is a refusal, which is counted.
    #[inline]
    fn settled(&mut self, parts: Option<(i128, i128)>) -> Result<Frac128, Wide>
        requires { IfSome parts (λ p. IsLow p.0 p.1 × (unsigned_abs p.0 < 2 ^ 127)) }
        ensures { Settles value_128 parts self.old self.new result }
    {
        match parts {
            Some((num, den)) => Ok(Frac128::from_parts(num, den)),
            None => {
                self.wides = raised(self.wides);
                Err(Wide)
            }
        }
    }
}

impl Arith for Exact128 {
    type Num = Frac128;

    ghost fits = { below (2 ^ 127) };

    ghost wides = { λ e. e };

    fn from_int(&mut self, n: i128) -> Result<Frac128, Wide> {
        let found = int_parts(BOUND_128, n);
        self.settled(found)
    }

    fn add(&mut self, a: Frac128, b: Frac128) -> Result<Frac128, Wide> {
        let found = sum_parts(BOUND_128, a.num, a.den, b.num, b.den);
        self.settled(found)
    }

    fn sub(&mut self, a: Frac128, b: Frac128) -> Result<Frac128, Wide> {
        let found = sum_parts(BOUND_128, a.num, a.den, -b.num, b.den);
        self.settled(found)
    }

    fn mul(&mut self, a: Frac128, b: Frac128) -> Result<Frac128, Wide> {
        let found = product_parts(BOUND_128, a.num, a.den, b.num, b.den);
        self.settled(found)
    }

    fn div(&mut self, a: Frac128, b: Frac128) -> Result<Frac128, Wide> {
        let found = quotient_parts(BOUND_128, a.num, a.den, b.num, b.den);
        self.settled(found)
    }

    fn common(&mut self, alloc: Global, list: &[Frac128]) -> Result<Common, CommonFault> {
        match over_one(alloc, COMMON_BOUND, list) {
            Ok(common) => Ok(common),
            Err(CommonFault::Memory) => Err(CommonFault::Memory),
            Err(CommonFault::Wide) => {
                self.wides = raised(self.wides);
                Err(CommonFault::Wide)
            }
        }
    }

    fn wide_count(&self) -> u64 {
        self.wides
    }
}

/// Arithmetic on fractions of 64-bit parts, where sizes up to 2^63 - 1 fit. Contracts see it as its
/// count of refusals.
#[derive(Drop)]
pub struct Exact64 {
    wides: u64,
}

impl Model for Exact64 {
    ghost use Rattle.std.specs.Prelude.{ℕ};

    ghost Value = { ℕ };

    ghost view = { λ e. e.wides };
}

impl Exact64 {
    /// With the count 0.
    pub fn new() -> Exact64
        ensures { result ≡ 0 }
    {
        Exact64 { wides: 0 }
    }

    /// The fraction with these parts; none is a refusal, which is counted.
    #[inline]
    fn settled(&mut self, parts: Option<(i128, i128)>) -> Result<Frac64, Wide>
        requires { IfSome parts (λ p. IsLow p.0 p.1 × (unsigned_abs p.0 < 2 ^ 63) × (unsigned_abs p.1 < 2 ^ 63)) }
        ensures { Settles value_64 parts self.old self.new result }
    {
        match parts {
            Some((num, den)) => Ok(Frac64::from_parts(num, den)),
            None => {
                self.wides = raised(self.wides);
                Err(Wide)
            }
        }
    }
}

impl Arith for Exact64 {
    type Num = Frac64;

    ghost fits = { below (2 ^ 63) };

    ghost wides = { λ e. e };

    fn from_int(&mut self, n: i128) -> Result<Frac64, Wide> {
        let found = int_parts(BOUND_64, n);
        self.settled(found)
    }

    fn add(&mut self, a: Frac64, b: Frac64) -> Result<Frac64, Wide> {
        let found = sum_parts(
            BOUND_64,
            i128::from(a.num),
            i128::from(a.den),
            i128::from(b.num),
            i128::from(b.den),
        );
        self.settled(found)
    }

    fn sub(&mut self, a: Frac64, b: Frac64) -> Result<Frac64, Wide> {
        let found = sum_parts(
            BOUND_64,
            i128::from(a.num),
            i128::from(a.den),
            -i128::from(b.num),
            i128::from(b.den),
        );
        self.settled(found)
    }

    fn mul(&mut self, a: Frac64, b: Frac64) -> Result<Frac64, Wide> {
        let found = product_parts(
            BOUND_64,
            i128::from(a.num),
            i128::from(a.den),
            i128::from(b.num),
            i128::from(b.den),
        );
        self.settled(found)
    }

    fn div(&mut self, a: Frac64, b: Frac64) -> Result<Frac64, Wide> {
        let found = quotient_parts(
            BOUND_64,
            i128::from(a.num),
            i128::from(a.den),
            i128::from(b.num),
            i128::from(b.den),
        );
        self.settled(found)
    }

    fn common(&mut self, alloc: Global, list: &[Frac64]) -> Result<Common, CommonFault> {
        match over_one(alloc, BOUND_64, list) {
            Ok(common) => Ok(common),
            Err(CommonFault::Memory) => Err(CommonFault::Memory),
            Err(CommonFault::Wide) => {
                self.wides = raised(self.wides);
                Err(CommonFault::Wide)
            }
        }
    }

    fn wide_count(&self) -> u64 {
        self.wides
    }
}

/// Arithmetic in which nothing fits: each call is refused and counted. A caller meets its own refusals
/// with it. Contracts see it as its count of refusals.
#[derive(Drop)]
pub struct Refusing {
    wides: u64,
}

impl Model for Refusing {
    ghost use Rattle.std.specs.Prelude.{ℕ};

    ghost Value = { ℕ };

    ghost view = { λ e. e.wides };
}

impl Refusing {
    /// With the count 0.
    pub fn new() -> Refusing
        ensures { result ≡ 0 }
    {
        Refusing { wides: 0 }
    }

    /// Counts a refusal.
    fn refused(&mut self) -> Result<Frac64, Wide>
        ensures { Settles value_64 None self.old self.new result }
    {
        self.wides = raised(self.wides);
        Err(Wide)
    }
}

impl Arith for Refusing {
    type Num = Frac64;

    ghost fits = { λ _. false };

    ghost wides = { λ e. e };

    fn from_int(&mut self, _n: i128) -> Result<Frac64, Wide> {
        self.refused()
    }

    fn add(&mut self, _a: Frac64, _b: Frac64) -> Result<Frac64, Wide> {
        self.refused()
    }

    fn sub(&mut self, _a: Frac64, _b: Frac64) -> Result<Frac64, Wide> {
        self.refused()
    }

    fn mul(&mut self, _a: Frac64, _b: Frac64) -> Result<Frac64, Wide> {
        self.refused()
    }

    fn div(&mut self, _a: Frac64, _b: Frac64) -> Result<Frac64, Wide> {
        self.refused()
    }

    fn common(&mut self, _alloc: Global, _list: &[Frac64]) -> Result<Common, CommonFault> {
        self.wides = raised(self.wides);
        Err(CommonFault::Wide)
    }

    fn wide_count(&self) -> u64 {
        self.wides
    }
}
