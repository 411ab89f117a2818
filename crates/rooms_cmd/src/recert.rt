ghost use Rattle.std.specs.Prelude.{◌≡◌, pos, true, IfOk};
ghost use Rattle.std.specs.List.{AllByRecursion};
ghost use Rattle.problem_core.specs.Kept.{IsWithin};
ghost use Rattle.cert_text.specs.Grammar.{is_writable};
ghost use Rattle.cert_text.specs.Text.{IsText};
ghost use Rattle.cert_text.specs.Sharing.{share, plain};
ghost use Rattle.run_core.specs.Calls.{NoReadFailed};
ghost use Rattle.run_core.specs.Outside.{shelved, KeepsBut};
ghost use Rattle.rooms_cmd.specs.Run.{AnswerIs, StatusIs, KeepsWhereRefused, NoPutFailed};
ghost use Rattle.rooms_cmd.specs.Checking.{RecertExplains};
ghost use Rattle.rooms_cmd.specs.Steps.{RecertFileExplains, BytesExplain, HasText, IsSharedText, IsSharedDraft};

use crate::answers::{not_verified, verified};
use crate::check::{CERTIFICATE_LIMIT, stop_of_refusal};
use crate::putting::{Draft, put};
use cert_checker::{Verdict, check as verdict_on};
use cert_text::{Certificate, plain, read_cert, share, share_laws, text_laws, write_cert};
use input_core::{Memory, Shelf, TextFault, read_all};
use packing_model::Model;
use run_core::{Answer, Stop, ToolStatus as Status};
use std::alloc::Global;
use tool_core::{Names, load, stop_of};

/// Checks a certificate for the problem of three files, and where it is valid puts the text of its shared form, in
/// which equal leaves are written once, under the new name.
pub fn recert<S: Shelf>(
    alloc: Global,
    names: &Names,
    certificate: &str,
    new: &str,
    shelf: &mut S,
) -> Result<Answer, Stop>
    ensures answers { AnswerIs (RecertExplains (shelved S.tells S.held S.piece_faults S.put_faults shelf.old shelf.new) names.now certificate.now new.now) result }
    ensures keeps { KeepsBut new.now (shelved S.tells S.held S.piece_faults S.put_faults shelf.old shelf.new) }
    ensures refused { StatusIs (KeepsWhereRefused (shelved S.tells S.held S.piece_faults S.put_faults shelf.old shelf.new)) result }
    ensures reads { StatusIs (NoReadFailed (S.piece_faults shelf.old) (S.piece_faults shelf.new)) result }
    ensures puts { StatusIs (NoPutFailed (S.put_faults shelf.old) (S.put_faults shelf.new)) result }
{
    match load(
        alloc,
        shelf,
        names.instance.as_str(),
        names.times.as_str(),
        names.measures.as_str(),
    ) {
        Ok(loaded) => recert_file(alloc, &loaded.model, certificate, new, shelf),
        Err(fault) => Err(stop_of(alloc, names, fault)),
    }
}

/// The verdict on the certificate that a file holds; its shared form is put where it is valid.
fn recert_file<S: Shelf>(
    alloc: Global,
    model: &Model,
    certificate: &str,
    new: &str,
    shelf: &mut S,
) -> Result<Answer, Stop>
    ensures answers { AnswerIs (RecertFileExplains (shelved S.tells S.held S.piece_faults S.put_faults shelf.old shelf.new) model.now certificate.now new.now) result }
    ensures keeps { KeepsBut new.now (shelved S.tells S.held S.piece_faults S.put_faults shelf.old shelf.new) }
    ensures refused { StatusIs (KeepsWhereRefused (shelved S.tells S.held S.piece_faults S.put_faults shelf.old shelf.new)) result }
    ensures reads { StatusIs (NoReadFailed (S.piece_faults shelf.old) (S.piece_faults shelf.new)) result }
    ensures puts { StatusIs (NoPutFailed (S.put_faults shelf.old) (S.put_faults shelf.new)) result }
{
    match read_all(alloc, shelf, certificate, CERTIFICATE_LIMIT) {
        Ok(bytes) => recert_bytes(alloc, model, bytes.as_slice(), new, shelf),
        Err(refusal) => Err(stop_of_refusal(alloc, certificate, refusal)),
    }
}

/// The verdict on the bytes of a certificate; its shared form is put where it is valid.
fn recert_bytes<S: Shelf>(
    alloc: Global,
    model: &Model,
    bytes: &[u8],
    new: &str,
    shelf: &mut S,
) -> Result<Answer, Stop>
    ensures answers { AnswerIs (BytesExplain (shelved S.tells S.held S.piece_faults S.put_faults shelf.old shelf.new) model.now bytes.now new.now) result }
    ensures keeps { KeepsBut new.now (shelved S.tells S.held S.piece_faults S.put_faults shelf.old shelf.new) }
    ensures refused { StatusIs (KeepsWhereRefused (shelved S.tells S.held S.piece_faults S.put_faults shelf.old shelf.new)) result }
    ensures reads { S.piece_faults shelf.new ≡ S.piece_faults shelf.old }
    ensures puts { StatusIs (NoPutFailed (S.put_faults shelf.old) (S.put_faults shelf.new)) result }
{
    share_laws();
    match verdict_on(alloc, model, bytes)? {
        Verdict::Verified { levels, values } => {
            put(shared_draft(alloc, bytes, levels, &values)?, new, shelf)
        }
        Verdict::Not { line, reason } => Ok(Answer {
            status: Status::No,
            text: not_verified(alloc, line, reason)?,
        }),
    }
}

/// The text of the shared form of a verified certificate, and the answer.
fn shared_draft(
    alloc: Global,
    bytes: &[u8],
    levels: u32,
    values: &[i64; 6],
) -> Result<Draft, Memory>
    requires text { HasText bytes.now }
    requires small { AllByRecursion (IsWithin (pos 1000000000000)) values.now }
    ensures { IfOk result (IsSharedDraft bytes.now levels values.now) }
{
    let shared = shared_text(alloc, bytes)?;
    let text = verified(alloc, levels, values)?;
    Ok(Draft {
        bytes: shared,
        answer: Answer {
            status: Status::Done,
            text,
        },
    })
}

/// The text of the shared form of the certificate that the bytes spell.
fn shared_text(alloc: Global, bytes: &[u8]) -> Result<Vec<u8>, Memory>
    requires { HasText bytes.now }
    ensures { IfOk result (λ v. IsSharedText bytes.now v.items) }
{
    text_laws();
    match read_cert(alloc, bytes) {
        Ok(certificate) => unshared_first(alloc, &certificate),
        Err(TextFault::Line(_)) => unreachable!(),
        Err(TextFault::Memory) => Err(Memory),
    }
}

/// The text of the shared form of a certificate, made from the form with each leaf where it stands.
fn unshared_first(alloc: Global, certificate: &Certificate) -> Result<Vec<u8>, Memory>
    requires { is_writable certificate.now ≡ true }
    ensures { IfOk result (λ v. IsText v.items (share (plain certificate.now))) }
{
    let unshared = plain(alloc, certificate)?;
    shared_form(alloc, &unshared)
}

/// The text of the shared form of a certificate.
fn shared_form(alloc: Global, certificate: &Certificate) -> Result<Vec<u8>, Memory>
    requires { is_writable certificate.now ≡ true }
    ensures { IfOk result (λ v. IsText v.items (share certificate.now)) }
{
    let shared = share(alloc, certificate)?;
    write_cert(alloc, &shared)
}
