ghost use Rattle.std.specs.Prelude.{ℕ, List, ◌≡◌, ◌<◌, ◌≤◌, ◌+◌, ◌^◌, ◌++◌, [], length, Some, None, Err, IfOk, OnOk, IfErr, MatchResult};
ghost use Rattle.input_core.specs.declared.faults.TextFault.{TextFault as Refusal};
ghost use Rattle.cert_text.specs.Pieces.{StandsFor, GivesLines, IsWholeFault, IsNoText, IsSomeText};

use crate::lines::CertLine;
use crate::pieces::Pieces;
use input_core::TextFault;
use std::alloc::Global;

/// A reader of the text of a certificate that is fed its bytes in pieces. It stands for the bytes that it was fed,
/// however they were cut. It keeps the place behind the whole lines, a line, and in version 2 the leaf lines.
/// After a refusal every later call answers the same refusal.
#[derive(Drop)]
pub struct CertReader {
    alloc: Global,
    pieces: Pieces,
    taken: u64,
    refused: Option<TextFault>,
}

impl std::marker::Model for CertReader {
    ghost use Rattle.cert_text.specs.Pieces.{KeptText, IsSoundText};

    ghost Value = { KeptText };

    ghost view = { λ r. record { pieces = r.pieces; taken = r.taken; refused = r.refused } };

    ghost invariant = { λ r. IsSoundText (record { pieces = r.pieces; taken = r.taken; refused = r.refused }) };
}

impl CertReader {
    /// Before the first piece.
    pub fn new(alloc: Global) -> CertReader
        ensures stands { StandsFor result [] }
    {
        CertReader {
            alloc,
            pieces: Pieces::new(alloc),
            taken: 0,
            refused: None,
        }
    }

    /// How many bytes it took: those of the calls of `feed` that were not refused.
    pub fn taken(&self) -> u64
        ensures { result ≡ self.now.taken }
    {
        self.taken
    }

    /// Takes the next piece, and gives the lines that it makes whole. `Line` comes exactly where a whole line of the
    /// bytes so far is faulty, and names the first such line.
    pub fn feed(&mut self, piece: &[u8]) -> Result<Vec<CertLine>, TextFault>
        requires { self.old.taken + length piece.now < 2 ^ 63 }
        ensures stands { OnOk result ((bytes : List ℕ) → StandsFor self.old bytes → StandsFor self.new (bytes ++ piece.now)) }
        ensures lines { IfOk result (λ lines. (bytes : List ℕ) → StandsFor self.old bytes → GivesLines bytes (bytes ++ piece.now) lines.items) }
        ensures fault { IfErr result (λ fault. (bytes : List ℕ) → StandsFor self.old bytes → IsWholeFault (bytes ++ piece.now) fault) }
        ensures taken { OnOk result (self.new.taken ≡ self.old.taken + length piece.now) }
        ensures kept { IfErr result (λ fault. self.new.taken ≡ self.old.taken) }
        ensures refused { IfErr result (λ fault. self.new.refused ≡ Some fault) }
        ensures again { (fault : Refusal) → self.old.refused ≡ Some fault → result ≡ Err fault }
    {
        if let Some(fault) = self.refused {
            return Err(fault);
        }
        match self.pieces.feed(self.alloc, piece) {
            Ok(lines) => {
                self.taken += piece.len() as u64;
                Ok(lines)
            }
            Err(fault) => {
                self.refused = Some(fault);
                Err(fault)
            }
        }
    }

    /// Whether the bytes that it was fed are a text; otherwise the first line such that the lines up to it begin no
    /// text.
    pub fn finish(self) -> Result<(), TextFault>
        ensures text { (bytes : List ℕ) → StandsFor self bytes → MatchResult result (λ _. IsSomeText bytes) (IsNoText bytes) }
        ensures again { (fault : Refusal) → self.refused ≡ Some fault → result ≡ Err fault }
    {
        match self.refused {
            Some(fault) => Err(fault),
            None => self.pieces.finish(),
        }
    }
}
