ghost use Rattle.std.specs.Prelude.{◌≡◌};

use exact_num::{Arith, Common, CommonFault, Exact128, Frac128, Wide};
use std::alloc::Global;
use std::io;
use std::marker::Model;
use std::time::Instant;

/// After so many operations the clock is asked, which is some tens of times a second.
const OPERATIONS_A_LOOK: u64 = 1_048_576;

/// `Exact128` that counts its operations, and prints at most once a second on standard error how long it has worked
/// and how many millions of operations it did. Contracts see it as its count of refusals: it is an `Arith` as
/// `Exact128` is, so what it prints changes no answer. Where the clock or the print fails, nothing is shown.
#[derive(Drop)]
pub struct Watched<'a> {
    rt: &'a HostRuntime,
    inner: Exact128,
    start: Option<Instant>,
    shown: u64,
    operations: u64,
}

impl<'a> Model for Watched<'a> {
    ghost use Rattle.std.specs.Prelude.{ℕ};

    ghost Value = { ℕ };

    ghost view = { λ w. w.inner };
}

impl<'a> Watched<'a> {
    /// With the count 0, from now on.
    pub fn new(rt: &'a HostRuntime) -> Watched<'a>
        ensures { result ≡ 0 }
    {
        Watched {
            rt,
            inner: Exact128::new(),
            start: Instant::now(rt).ok(),
            shown: 0,
            operations: 0,
        }
    }

    /// Takes the line away that was shown, if one was.
    pub fn finish(&mut self)
        ensures { self.new ≡ self.old }
    {
        if self.shown > 0 {
            let _ = eprint!(self.rt; "\r\x1b[K");
        }
    }

    /// Counts an operation, and now and then looks at the clock.
    #[inline]
    fn note(&mut self)
        ensures { self.new ≡ self.old }
    {
        self.operations = self.operations.wrapping_add(1);
        if self.operations % OPERATIONS_A_LOOK == 0 {
            self.look();
        }
    }

    /// Shows that it works, where a second went by since it last did.
    fn look(&mut self)
        ensures { self.new ≡ self.old }
    {
        let Some(start) = self.start else {
            return;
        };
        let Ok(worked) = start.elapsed(self.rt) else {
            return;
        };
        let seconds = worked.as_secs();
        if seconds > self.shown {
            self.shown = seconds;
            let _ = self.show(seconds, self.operations / 1_000_000);
        }
    }

    fn show(&self, seconds: u64, millions: u64) -> io::Result<()> {
        eprint!(self.rt; "\rworking: {seconds} s, {millions} million operations\x1b[K")
    }
}

impl<'a> Arith for Watched<'a> {
    ghost use Rattle.std.specs.Prelude.{◌^◌};
    ghost use Rattle.exact_num.specs.Work.{below};

    type Num = Frac128;

    ghost fits = { below (2 ^ 127) };

    ghost wides = { λ w. w };

    fn from_int(&mut self, n: i128) -> Result<Frac128, Wide> {
        self.note();
        self.inner.from_int(n)
    }

    fn add(&mut self, a: Frac128, b: Frac128) -> Result<Frac128, Wide> {
        self.note();
        self.inner.add(a, b)
    }

    fn sub(&mut self, a: Frac128, b: Frac128) -> Result<Frac128, Wide> {
        self.note();
        self.inner.sub(a, b)
    }

    fn mul(&mut self, a: Frac128, b: Frac128) -> Result<Frac128, Wide> {
        self.note();
        self.inner.mul(a, b)
    }

    fn div(&mut self, a: Frac128, b: Frac128) -> Result<Frac128, Wide> {
        self.note();
        self.inner.div(a, b)
    }

    fn common(&mut self, alloc: Global, list: &[Frac128]) -> Result<Common, CommonFault> {
        self.note();
        self.inner.common(alloc, list)
    }

    fn wide_count(&self) -> u64 {
        self.inner.wide_count()
    }
}
