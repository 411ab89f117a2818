ghost use Rattle.std.specs.Prelude.{◌≡◌, ◌<◌, ◌+◌, ◌^◌, true, IfOk};
ghost use Rattle.problem_core.specs.Facts.{Facts};
ghost use Rattle.cert_text.specs.Spelling.{in_bounds, line_text};
ghost use Rattle.cert_text.specs.Text.{Standing, begun, steps, takes, read_end};
ghost use Rattle.cert_checker.specs.Verdicts.{verdict_of};
ghost use Rattle.cert_checker.specs.Progresses.{IsAt, IsSound, TakesLine};

use crate::progress::Progress;
use crate::verdict::Verdict;
use cert_text::{CertLine, Named, line_laws, read_line};
use packing_model::Model;
use problem_core::Memory;
use std::alloc::Global;

/// What is kept of the lines of a certificate: the leaf lines that a later line may name, and the progress
/// of what the lines mean.
#[derive(Drop)]
pub struct Reading {
    pub named: Named,
    pub progress: Progress,
}

impl Reading {
    /// Before the first line.
    pub fn new(alloc: Global) -> Reading
        ensures at { (f : Facts) → IsAt f result begun }
        ensures sound { (f : Facts) → IsSound f result }
        ensures line { result.progress.line ≡ 1 }
    {
        Reading {
            named: Named::new(alloc),
            progress: Progress::new(alloc),
        }
    }

    /// Takes a line by its bytes, and says whether it may come. A line that names a leaf line is looked at as
    /// the leaf.
    pub fn take_bytes(&mut self, alloc: Global, m: &Model, line: &[u8]) -> Result<bool, Memory>
        requires sound { IsSound m.now self.old }
        requires few { self.old.progress.line < 2 ^ 63 }
        ensures at { IfOk result (λ ok. (t : Standing) → IsAt m.now self.old t → TakesLine m.now (takes t line.now) self.new ok) }
        ensures sound { IfOk result (λ ok. ok ≡ true → IsSound m.now self.new) }
        ensures line { IfOk result (λ ok. ok ≡ true → self.new.progress.line ≡ self.old.progress.line + 1) }
    {
        line_laws();
        match read_line(alloc, line)? {
            Some(read) => self.take(alloc, m, read, line),
            None => Ok(false),
        }
    }

    // Takes a line, which the bytes spell.
    fn take(
        &mut self,
        alloc: Global,
        m: &Model,
        line: CertLine,
        bytes: &[u8],
    ) -> Result<bool, Memory>
        requires sound { IsSound m.now self.old }
        requires bounds { in_bounds line ≡ true }
        requires spelled { bytes.now ≡ line_text line }
        requires few { self.old.progress.line < 2 ^ 63 }
        ensures at { IfOk result (λ ok. (t : Standing) → IsAt m.now self.old t → TakesLine m.now (steps t line) self.new ok) }
        ensures sound { IfOk result (λ ok. ok ≡ true → IsSound m.now self.new) }
        ensures line { IfOk result (λ ok. ok ≡ true → self.new.progress.line ≡ self.old.progress.line + 1) }
    {
        if !self.named.take(alloc, &line, bytes)? {
            return Ok(false);
        }
        let meant = self.named.meant(alloc, line)?;
        self.progress.take(alloc, m, meant)
    }

    /// The verdict behind the last whole line, where `rest` is what follows it.
    pub fn finish(&self, rest: &[u8]) -> Verdict
        ensures { (f : Facts) (t : Standing) → IsAt f self.now t → result ≡ verdict_of f (read_end t.state self.now.progress.line rest.now) }
    {
        self.progress.finish(rest)
    }
}
