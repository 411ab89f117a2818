ghost use Rattle.std.specs.Prelude.{ℕ, List, ◌≡◌, ◌<◌, ◌≤◌, ◌+◌, ◌^◌, ◌++◌, [], length, true, false, IfOk, OnOk, OnErr, IsErr};
ghost use Rattle.cert_text.specs.Text.{certificate_of};
ghost use Rattle.cert_checker.specs.Verdicts.{verdict_of};
ghost use Rattle.cert_checker.specs.Feeding.{StandsFor};

use crate::feeding::Feeding;
use crate::verdict::Verdict;
use input_core::Taker;
use packing_model::Model;
use problem_core::Memory;
use std::alloc::Global;

/// A checker of certificates that is fed their bytes in pieces. It stands for the bytes that it was fed: its
/// verdict is that of `check` on all of them, however they were cut. It keeps a line, the cuts, the path to
/// the next node, and in version 2 the leaf lines. After want of memory every later call answers it again.
#[derive(Drop)]
pub struct Checker<'a> {
    alloc: Global,
    model: &'a Model,
    feeding: Feeding,
    taken: u64,
    failed: bool,
}

impl<'a> std::marker::Model for Checker<'a> {
    ghost use Rattle.cert_checker.specs.Feeding.{Kept, IsSoundKept};

    ghost Value = { Kept };

    ghost view = { λ c. record { facts = c.model.now; feeding = c.feeding; taken = c.taken; failed = c.failed } };

    ghost invariant = { λ c. IsSoundKept (record { facts = c.model.now; feeding = c.feeding; taken = c.taken; failed = c.failed }) };
}

impl<'a> Checker<'a> {
    /// Before the first piece.
    pub fn new(alloc: Global, model: &'a Model) -> Checker<'a>
        ensures facts { result.facts ≡ model.now }
        ensures stands { StandsFor result [] }
    {
        Checker {
            alloc,
            model,
            feeding: Feeding::new(alloc),
            taken: 0,
            failed: false,
        }
    }

    /// How many bytes it took.
    pub fn taken(&self) -> u64
        ensures { result ≡ self.now.taken }
    {
        self.taken
    }

    /// Takes the next piece.
    pub fn feed(&mut self, piece: &[u8]) -> Result<(), Memory>
        requires { self.old.taken + length piece.now < 2 ^ 63 }
        ensures facts { self.new.facts ≡ self.old.facts }
        ensures stands { OnOk result ((bytes : List ℕ) → StandsFor self.old bytes → StandsFor self.new (bytes ++ piece.now)) }
        ensures taken { OnOk result (self.new.taken ≡ self.old.taken + length piece.now) }
        ensures failed { OnErr result (self.new.failed ≡ true) }
        ensures again { self.old.failed ≡ true → IsErr result }
    {
        if self.failed {
            return Err(Memory);
        }
        self.failed = true;
        self.feeding.feed(self.alloc, self.model, piece)?;
        self.taken += piece.len() as u64;
        self.failed = false;
        Ok(())
    }

    /// The verdict on the bytes that it was fed.
    pub fn finish(self) -> Result<Verdict, Memory>
        ensures verdict { (bytes : List ℕ) → StandsFor self.entry bytes → IfOk result (λ v. v ≡ verdict_of self.entry.facts (certificate_of bytes)) }
        ensures again { self.entry.failed ≡ true → IsErr result }
    {
        if self.failed {
            return Err(Memory);
        }
        Ok(self.feeding.finish())
    }
}

impl<'a> Taker for Checker<'a> {
    ghost use Rattle.problem_core.specs.Facts.{Facts};
    ghost use Rattle.cert_checker.specs.Feeding.{StandsFor};

    ghost Kept = { Facts };

    ghost stands = { λ c bytes. StandsFor c bytes };

    ghost bytes_taken = { λ c. c.taken };

    ghost kept = { λ c. c.facts };

    fn taken(&self) -> u64 {
        self.taken
    }

    fn take(&mut self, piece: &[u8]) -> Result<(), input_core::Memory> {
        match self.feed(piece) {
            Ok(()) => Ok(()),
            Err(_) => Err(input_core::Memory),
        }
    }
}
