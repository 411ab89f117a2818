ghost use Rattle.std.specs.Prelude.{ℕ, List, ◌≡◌, ◌<◌, ◌≤◌, ◌+◌, ◌^◌, ◌++◌, [], length, true, false, None, Some, IfOk, OnOk};
ghost use Rattle.problem_core.specs.Facts.{Facts};
ghost use Rattle.cert_text.specs.Text.{Standing, certificate_of, takes};
ghost use Rattle.cert_checker.specs.Verdicts.{verdict_of};
ghost use Rattle.cert_checker.specs.Progresses.{IsAt, IsSound, TakesLine};
ghost use Rattle.cert_checker.specs.Feeding.{IsFed, IsSoundFed};

use crate::reading::Reading;
use crate::verdict::{Reason, Verdict};
use cert_text::{LineRest, next_line};
use packing_model::Model;
use problem_core::Memory;
use std::alloc::Global;

/// What is kept between two pieces of a certificate: what was read of its whole lines, what is kept of the
/// rest of a line, and the number of the first faulty line, behind which nothing is read.
#[derive(Drop)]
pub struct Feeding {
    pub reading: Reading,
    pub rest: LineRest,
    pub faulty: Option<u64>,
}

impl Feeding {
    /// Before the first piece.
    pub fn new(alloc: Global) -> Feeding
        ensures fed { (f : Facts) → IsFed f result [] }
        ensures sound { (f : Facts) → IsSoundFed f result }
        ensures line { result.reading.progress.line ≡ 1 }
    {
        Feeding {
            reading: Reading::new(alloc),
            rest: LineRest::new(alloc),
            faulty: None,
        }
    }

    /// Takes a piece.
    pub fn feed(&mut self, alloc: Global, m: &Model, piece: &[u8]) -> Result<(), Memory>
        requires sound { IsSoundFed m.now self.old }
        requires few { self.old.reading.progress.line + length piece.now ≤ 2 ^ 63 }
        ensures fed { OnOk result ((bytes : List ℕ) → IsFed m.now self.old bytes → IsFed m.now self.new (bytes ++ piece.now)) }
        ensures sound { OnOk result (IsSoundFed m.now self.new) }
        ensures line { OnOk result (self.new.reading.progress.line ≤ self.old.reading.progress.line + length piece.now) }
    {
        if self.faulty.is_some() {
            return Ok(());
        }
        let mut left = piece;
        'lines: while let Some((line, after)) = next_line(left) {
            let number = self.reading.progress.line;
            if !self.take_line(alloc, m, line)? {
                self.reading = Reading::new(alloc);
                self.faulty = Some(number);
                return Ok(());
            }
            left = after;
        }
        self.rest.add(left)?;
        Ok(())
    }

    // Takes the line that the rest begins and these bytes end, and says whether it may come.
    fn take_line(&mut self, alloc: Global, m: &Model, line: &[u8]) -> Result<bool, Memory>
        requires sound { IsSound m.now self.old.reading }
        requires few { self.old.reading.progress.line < 2 ^ 63 }
        ensures at { IfOk result (λ ok. (t : Standing) → IsAt m.now self.old.reading t → TakesLine m.now (takes t (self.old.rest ++ line.now)) self.new.reading ok) }
        ensures sound { IfOk result (λ ok. ok ≡ true → IsSound m.now self.new.reading) }
        ensures line { IfOk result (λ ok. ok ≡ true → self.new.reading.progress.line ≡ self.old.reading.progress.line + 1) }
        ensures rest { OnOk result (self.new.rest ≡ []) }
        ensures faulty { OnOk result (self.new.faulty ≡ self.old.faulty) }
    {
        self.rest.add(line)?;
        let ok = self.reading.take_bytes(alloc, m, self.rest.as_slice())?;
        self.rest.clear();
        Ok(ok)
    }

    /// The verdict on the bytes that were fed.
    pub fn finish(&self) -> Verdict
        ensures { (f : Facts) (bytes : List ℕ) → IsFed f self.now bytes → result ≡ verdict_of f (certificate_of bytes) }
    {
        match self.faulty {
            Some(line) => Verdict::Not {
                line,
                reason: Reason::Text,
            },
            None => self.reading.finish(self.rest.as_slice()),
        }
    }
}
