ghost use Rattle.std.specs.Prelude.{◌≡◌, IfOk, IfErr};
ghost use Rattle.input_core.specs.Reading.{ReadFails, NoneFailed};
ghost use Rattle.input_core.specs.Shelf.{OnlyReads};
ghost use Rattle.cert_text.specs.Text.{certificate_of};
ghost use Rattle.cert_checker.specs.Verdicts.{verdict_of, Means};
ghost use Rattle.cert_checker.specs.Files.{IsVerdictOn, IsMeantVerdict};

use crate::checker::Checker;
use crate::laws::certificate_laws;
use crate::verdict::Verdict;
use cert_text::text_laws;
use input_core::{ReadRefusal, Shelf, read_into};
use packing_model::Model;
use problem_core::Memory;
use std::alloc::Global;

/// The verdict on the bytes of a certificate: `Verified` exactly where they are the text of a certificate that
/// is valid for its finished levels, with their number and the six values; then its choice is legal, has
/// these measures, and is best in those levels among all choices. Otherwise `Not` with the first faulty line
/// of the text, whatever else is wrong, or else with the first line that is at fault, and the reason.
pub fn check(alloc: Global, model: &Model, bytes: &[u8]) -> Result<Verdict, Memory>
    ensures exact { IfOk result (λ v. v ≡ verdict_of model.now (certificate_of bytes.now)) }
    ensures means { IfOk result (Means model.now bytes.now) }
{
    text_laws();
    certificate_laws();
    model.laws();
    judge(alloc, model, bytes)
}

// The verdict of a checker that is fed once.
fn judge(alloc: Global, model: &Model, bytes: &[u8]) -> Result<Verdict, Memory>
    ensures { IfOk result (λ v. v ≡ verdict_of model.now (certificate_of bytes.now)) }
{
    let mut checker = Checker::new(alloc, model);
    checker.feed(bytes)?;
    checker.finish()
}

/// The most bytes of a certificate that is read from a file.
const FILE_LIMIT: u64 = 9_223_372_036_854_775_807;

/// The verdict on what a name holds, as `check` gives it on the bytes, which are read and checked piece by piece.
/// The refusals are those of `read_all` with the limit 2^63 - 1, and `Memory` comes also where the check wanted it.
pub fn check_file<S: Shelf>(
    alloc: Global,
    shelf: &mut S,
    name: &str,
    model: &Model,
) -> Result<Verdict, ReadRefusal>
    ensures verdict { IfOk result (IsMeantVerdict (S.tells shelf.old) (S.held shelf.old name.now) model.now) }
    ensures cause { IfErr result (ReadFails (S.tells shelf.old) (S.held shelf.old name.now) (S.piece_faults shelf.old) (S.piece_faults shelf.new) 9223372036854775807) }
    ensures calls { NoneFailed (S.piece_faults shelf.old) (S.piece_faults shelf.new) result }
    ensures only { OnlyReads S.tells S.held S.piece_faults S.put_faults shelf.old shelf.new }
{
    text_laws();
    certificate_laws();
    model.laws();
    judge_file(alloc, shelf, name, model)
}

// The verdict of a checker that is handed what the name holds.
fn judge_file<S: Shelf>(
    alloc: Global,
    shelf: &mut S,
    name: &str,
    model: &Model,
) -> Result<Verdict, ReadRefusal>
    ensures verdict { IfOk result (IsVerdictOn (S.tells shelf.old) (S.held shelf.old name.now) model.now) }
    ensures cause { IfErr result (ReadFails (S.tells shelf.old) (S.held shelf.old name.now) (S.piece_faults shelf.old) (S.piece_faults shelf.new) 9223372036854775807) }
    ensures calls { NoneFailed (S.piece_faults shelf.old) (S.piece_faults shelf.new) result }
    ensures only { OnlyReads S.tells S.held S.piece_faults S.put_faults shelf.old shelf.new }
{
    let mut checker = Checker::new(alloc, model);
    read_into(alloc, shelf, name, FILE_LIMIT, &mut checker)?;
    match checker.finish() {
        Ok(verdict) => Ok(verdict),
        Err(_) => Err(ReadRefusal::Memory),
    }
}
