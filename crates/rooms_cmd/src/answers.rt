ghost use Rattle.std.specs.Prelude.{◌≡◌, ◌++◌, pos, decimal, IfOk, OnOk};
ghost use Rattle.std.specs.List.{AllByRecursion};
ghost use Rattle.problem_core.specs.Kept.{IsWithin};
ghost use Rattle.cert_checker.specs.declared.verdict.Reason.TheVariants as reasons;
ghost use Rattle.rooms_cmd.specs.Answers.{answer_text, open_line, reason_text, verified_text, not_verified_text, long_certificate_text};
ghost use Rattle.rooms_cmd.specs.Steps.{IsPrintable};

use cert_checker::Reason;
use cert_text::Certificate;
use ctt_reader::Instance;
use input_core::Memory;
use itoa::Buffer;
use reports::{meeting_lines, value_lines};
use std::alloc::{AllocError, Global};
use timed_solution::Times;

/// A first line, the six values and the rooms of the certificate's choice.
pub fn answer_text(
    alloc: Global,
    first: &[u8],
    instance: &Instance,
    times: &Times,
    certificate: &Certificate,
) -> Result<Vec<u8>, Memory>
    requires { IsPrintable instance.now times.now certificate.now }
    ensures { IfOk result (λ v. v.items ≡ answer_text first.now instance.now times.now certificate.now) }
{
    let values = value_lines(alloc, &certificate.values)?;
    let rooms = meeting_lines(
        alloc,
        instance,
        times.meetings.as_slice(),
        certificate.choice.as_slice(),
    )?;
    let mut text = Vec::from_slice(alloc, first)?;
    text.extend_from_slice(values.as_slice())?;
    text.extend_from_slice(rooms.as_slice())?;
    Ok(text)
}

/// That the search stopped in this level.
pub fn open_line(alloc: Global, level: u32) -> Result<Vec<u8>, Memory>
    ensures { IfOk result (λ v. v.items ≡ open_line level) }
{
    let mut buffer = Buffer::new();
    let mut text = Vec::from_slice(alloc, b"Open at level ")?;
    text.extend_from_slice(buffer.format(level).as_bytes())?;
    text.extend_from_slice(b"\n")?;
    Ok(text)
}

/// That so many levels are proved, and the values.
pub fn verified(alloc: Global, levels: u32, values: &[i64; 6]) -> Result<Vec<u8>, Memory>
    requires { AllByRecursion (IsWithin (pos 1000000000000)) values.now }
    ensures { IfOk result (λ v. v.items ≡ verified_text levels values.now) }
{
    let mut buffer = Buffer::new();
    let lines = value_lines(alloc, values)?;
    let mut text = Vec::from_slice(alloc, b"verified ")?;
    text.extend_from_slice(buffer.format(levels).as_bytes())?;
    text.extend_from_slice(b"\n")?;
    text.extend_from_slice(lines.as_slice())?;
    Ok(text)
}

/// The line that is at fault, and why.
pub fn not_verified(alloc: Global, line: u64, reason: Reason) -> Result<Vec<u8>, Memory>
    ensures { IfOk result (λ v. v.items ≡ not_verified_text line reason) }
{
    let mut buffer = Buffer::new();
    let mut text = Vec::from_slice(alloc, b"not verified line ")?;
    text.extend_from_slice(buffer.format(line).as_bytes())?;
    text.extend_from_slice(b": ")?;
    push_reason(&mut text, reason)?;
    text.extend_from_slice(b"\n")?;
    Ok(text)
}

fn push_reason(text: &mut Vec<u8>, reason: Reason) -> Result<(), AllocError>
    ensures { OnOk result (text.new.items ≡ text.old.items ++ reason_text reason) }
{
    match reason {
        Reason::Text => text.extend_from_slice(b"text"),
        Reason::Model => text.extend_from_slice(b"model"),
        Reason::Choice => text.extend_from_slice(b"choice"),
        Reason::Values => text.extend_from_slice(b"values"),
        Reason::Cut { first, second } => push_cut(text, first, second),
        Reason::Row => text.extend_from_slice(b"row"),
        Reason::Sign => text.extend_from_slice(b"sign"),
        Reason::Pattern { pattern } => push_numbered(text, b"pattern ", pattern),
        Reason::NotFree { pattern } => push_numbered(text, b"not free ", pattern),
        Reason::Cost { pattern } => push_numbered(text, b"cost ", pattern),
        Reason::Bound => text.extend_from_slice(b"bound"),
    }
}

fn push_numbered(text: &mut Vec<u8>, word: &[u8], number: u32) -> Result<(), AllocError>
    ensures { OnOk result (text.new.items ≡ text.old.items ++ word.now ++ decimal number) }
{
    let mut buffer = Buffer::new();
    text.extend_from_slice(word)?;
    text.extend_from_slice(buffer.format(number).as_bytes())
}

fn push_cut(text: &mut Vec<u8>, first: u32, second: u32) -> Result<(), AllocError>
    ensures { OnOk result (text.new.items ≡ text.old.items ++ reason_text (reasons.Cut first second)) }
{
    push_numbered(text, b"cut ", first)?;
    push_numbered(text, b" ", second)
}

/// That the certificate of this name has too many bytes.
pub fn long_certificate(alloc: Global, name: &str) -> Result<Vec<u8>, Memory>
    ensures { IfOk result (λ v. v.items ≡ long_certificate_text name.now) }
{
    let mut text = Vec::from_slice(alloc, b"bad input ")?;
    text.extend_from_slice(name.as_bytes())?;
    text.extend_from_slice(b": bytes 9223372036854775808 over 9223372036854775807\n")?;
    Ok(text)
}
