ghost use Rattle.std.specs.Prelude.{ℕ, List, ◌≡◌, ◌<◌, ◌≤◌, ◌+◌, ◌^◌, ◌++◌, ◌∷◌, [], length, Some, None, IfOk, OnOk, IfErr, IfSome, MatchResult};
ghost use Rattle.cert_text.specs.Spelling.{line_text, line_of};
ghost use Rattle.cert_text.specs.Sharing.{named};
ghost use Rattle.cert_text.specs.Places.{follows, wanted_of, count_of};
ghost use Rattle.cert_text.specs.Text.{Standing, takes};
ghost use Rattle.cert_text.specs.Pieces.{IsSoundPieces, IsPieces, KeepsStanding, TakesText, GivesLines, IsWholeFault, IsNoText, IsSomeText};

use crate::laws::line_laws;
use crate::line::read_line;
use crate::line_rest::LineRest;
use crate::lines::CertLine;
use crate::named::Named;
use crate::place::{Place, step};
use crate::reader::{fault_at, next_line};
use input_core::TextFault;
use std::alloc::{AllocError, Global};

/// What is kept between two pieces of a text: the place behind the whole lines, the leaf lines that may be named, what
/// is kept of the rest of a line, and the number of that line.
#[derive(Drop)]
pub struct Pieces {
    pub place: Place,
    pub named: Named,
    pub rest: LineRest,
    pub line: u64,
}

impl Pieces {
    /// Before the first piece.
    pub fn new(alloc: Global) -> Pieces
        ensures pieces { IsPieces result [] }
        ensures sound { IsSoundPieces result }
        ensures line { result.line ≡ 1 }
    {
        Pieces {
            place: Place::Head,
            named: Named::new(alloc),
            rest: LineRest::new(alloc),
            line: 1,
        }
    }

    /// Takes a piece, and gives the lines that it makes whole.
    pub fn feed(&mut self, alloc: Global, piece: &[u8]) -> Result<Vec<CertLine>, TextFault>
        requires sound { IsSoundPieces self.old }
        requires few { self.old.line + length piece.now ≤ 2 ^ 63 }
        ensures pieces { OnOk result ((bytes : List ℕ) → IsPieces self.old bytes → IsPieces self.new (bytes ++ piece.now)) }
        ensures lines { IfOk result (λ lines. (bytes : List ℕ) → IsPieces self.old bytes → GivesLines bytes (bytes ++ piece.now) lines.items) }
        ensures fault { IfErr result (λ fault. (bytes : List ℕ) → IsPieces self.old bytes → IsWholeFault (bytes ++ piece.now) fault) }
        ensures sound { OnOk result (IsSoundPieces self.new) }
        ensures line { OnOk result (self.new.line ≤ self.old.line + length piece.now) }
    {
        let mut lines = Vec::new(alloc);
        let mut left = piece;
        'lines: while let Some((line, after)) = next_line(left) {
            let Some(read) = self.take_line(alloc, line)? else {
                return Err(fault_at(self.line));
            };
            add_line(&mut lines, read)?;
            left = after;
        }
        self.rest.add(left)?;
        Ok(lines)
    }

    // Takes the line that the rest begins and these bytes end, and gives it where it may come.
    fn take_line(&mut self, alloc: Global, line: &[u8]) -> Result<Option<CertLine>, AllocError>
        requires sound { IsSoundPieces self.old }
        requires few { self.old.line < 2 ^ 63 }
        ensures took { IfOk result (λ read. (t : Standing) → KeepsStanding self.old t → TakesText (takes t (self.old.rest ++ line.now)) self.new read) }
        ensures spelled { IfOk result (λ read. IfSome read (λ l. line_of (self.old.rest ++ line.now) ≡ Some l)) }
        ensures sound { IfOk result (λ read. IfSome read (λ l. IsSoundPieces self.new)) }
        ensures rest { IfOk result (λ read. IfSome read (λ l. self.new.rest ≡ [])) }
        ensures next { IfOk result (λ read. IfSome read (λ l. self.new.line ≡ self.old.line + 1)) }
        ensures stays { IfOk result (λ read. read ≡ None → self.new.line ≡ self.old.line) }
    {
        self.rest.add(line)?;
        match read_line(alloc, self.rest.as_slice())? {
            Some(read) => self.take(alloc, read),
            None => Ok(None),
        }
    }

    // Takes a line that the rest spells, and gives it where it may come.
    fn take(&mut self, alloc: Global, line: CertLine) -> Result<Option<CertLine>, AllocError>
        requires sound { IsSoundPieces self.old }
        requires spelled { line_of self.old.rest ≡ Some line }
        requires few { self.old.line < 2 ^ 63 }
        ensures took { IfOk result (λ read. (t : Standing) → KeepsStanding self.old t → TakesText (takes t self.old.rest) self.new read) }
        ensures same { IfOk result (λ read. IfSome read (λ l. l ≡ line)) }
        ensures sound { IfOk result (λ read. IfSome read (λ l. IsSoundPieces self.new)) }
        ensures rest { IfOk result (λ read. IfSome read (λ l. self.new.rest ≡ [])) }
        ensures next { IfOk result (λ read. IfSome read (λ l. self.new.line ≡ self.old.line + 1)) }
        ensures stays { IfOk result (λ read. read ≡ None → self.new.line ≡ self.old.line) }
    {
        line_laws();
        let Some(place) = step(self.place, &line) else {
            return Ok(None);
        };
        if !self.named.take(alloc, &line, self.rest.as_slice())? {
            return Ok(None);
        }
        self.place = place;
        self.rest.clear();
        self.line += 1;
        Ok(Some(line))
    }

    /// Whether the bytes are a text.
    pub fn finish(&self) -> Result<(), TextFault>
        ensures { (bytes : List ℕ) → IsPieces self.now bytes → MatchResult result (λ _. IsSomeText bytes) (IsNoText bytes) }
    {
        if !self.rest.as_slice().is_empty() {
            return Err(fault_at(self.line));
        }
        match self.place {
            Place::Over { .. } => Ok(()),
            _ => Err(fault_at(self.line)),
        }
    }
}

fn add_line(lines: &mut Vec<CertLine>, line: CertLine) -> Result<(), AllocError>
    ensures { OnOk result (lines.new.items ≡ lines.old.items ++ line ∷ []) }
{
    lines.push(line)?;
    Ok(())
}
