ghost use Rattle.std.specs.Prelude.{◌≡◌, ◌≤◌, ◌++◌, length, true, IfOk, OnOk};
ghost use Rattle.cert_text.specs.Grammar.{is_writable};
ghost use Rattle.cert_checker.specs.Verdicts.{IsValid};
ghost use Rattle.demo_files.specs.Generator.{instance_of, times_of};
ghost use Rattle.reports.specs.Lines.{value_lines};
ghost use Rattle.rooms_cmd.specs.Answers.{counted_line, open_line, verified_line};
ghost use Rattle.rooms_cmd.specs.Demonstrating.{DemoExplains, counts_text, demo_problem};
ghost use Rattle.rooms_cmd.specs.Run.{AnswerIs};
ghost use Rattle.rooms_cmd.specs.Steps.{AreVerifiable, IsSummary};
ghost use Rattle.rooms_cmd.specs.Work.{work};

use crate::answers::open_line;
use cert_checker::{Verdict, certificate_laws, check};
use cert_text::{Certificate, text_laws, write_cert};
use demo_files::demo_model;
use exact_num::{Arith, Steps};
use input_core::Memory;
use itoa::Buffer;
use lex_driver::{Solved, solve_levels};
use packing_model::Model;
use reports::value_lines;
use run_core::{Answer, Stop, ToolStatus as Status};
use std::alloc::{AllocError, Global};
use std::sync::ledger::Ledger;
use tool_core::Loaded;

/// Makes the input of so many courses, finds its best rooms, checks the certificate, and answers with the counts of the
/// input, with what the check says, and with the values. No file is read, and none is put.
pub fn demo<A: Arith, L: Ledger>(
    alloc: Global,
    courses: u32,
    budget: u64,
    arith: &mut A,
    steps: &mut Steps<L>,
) -> Result<Answer, Stop>
    requires some { 1 ≤ courses }
    requires few { courses ≤ 300 }
    requires budget { budget ≤ 1000000 }
    ensures { AnswerIs (DemoExplains (work A.wides arith.old arith.new steps.old steps.new) courses budget) result }
{
    let loaded = demo_model(alloc, courses)?;
    solved(alloc, courses, &loaded, budget, arith, steps)
}

/// Finds the best rooms of the input.
fn solved<A: Arith, L: Ledger>(
    alloc: Global,
    courses: u32,
    loaded: &Loaded,
    budget: u64,
    arith: &mut A,
    steps: &mut Steps<L>,
) -> Result<Answer, Stop>
    requires instance { loaded.now.instance ≡ instance_of courses }
    requires times { loaded.now.times ≡ times_of courses }
    requires model { loaded.now.model ≡ demo_problem courses }
    requires budget { budget ≤ 1000000 }
    ensures { AnswerIs (DemoExplains (work A.wides arith.old arith.new steps.old steps.new) courses budget) result }
{
    match solve_levels(alloc, &loaded.model, budget, arith, steps) {
        Ok(solved) => told(alloc, courses, loaded, &solved),
        Err(_) => Err(Stop::Memory),
    }
}

/// What is answered with what was found.
fn told(alloc: Global, courses: u32, loaded: &Loaded, solved: &Solved) -> Result<Answer, Stop>
    requires { AreVerifiable loaded.now.model solved.now }
    ensures { AnswerIs (IsSummary courses loaded.now.instance loaded.now.times loaded.now.model solved.now) result }
{
    match solved {
        Solved::Optimal(certificate) => Ok(Answer {
            status: Status::Done,
            text: summary(alloc, courses, loaded, b"Optimal\n", certificate)?,
        }),
        Solved::Open {
            level,
            certificate,
            ..
        } => Ok(Answer {
            status: Status::Open,
            text: open_summary(alloc, courses, loaded, *level, certificate)?,
        }),
    }
}

/// The summary where the search stopped in this level.
fn open_summary(
    alloc: Global,
    courses: u32,
    loaded: &Loaded,
    level: u32,
    certificate: &Certificate,
) -> Result<Vec<u8>, Memory>
    requires writable { is_writable certificate.now ≡ true }
    requires valid { IsValid loaded.now.model (length certificate.now.levels) certificate.now }
    ensures { IfOk result (λ v. v.items ≡ counts_text courses loaded.now.instance loaded.now.times loaded.now.model ++ verified_line (length certificate.now.levels) ++ open_line level ++ value_lines certificate.now.values) }
{
    let first = open_line(alloc, level)?;
    summary(alloc, courses, loaded, first.as_slice(), certificate)
}

/// The counts of the input, what the check says of the certificate, a first line and the values.
fn summary(
    alloc: Global,
    courses: u32,
    loaded: &Loaded,
    first: &[u8],
    certificate: &Certificate,
) -> Result<Vec<u8>, Memory>
    requires writable { is_writable certificate.now ≡ true }
    requires valid { IsValid loaded.now.model (length certificate.now.levels) certificate.now }
    ensures { IfOk result (λ v. v.items ≡ counts_text courses loaded.now.instance loaded.now.times loaded.now.model ++ verified_line (length certificate.now.levels) ++ first.now ++ value_lines certificate.now.values) }
{
    let levels = checked_levels(alloc, &loaded.model, certificate)?;
    with_levels(alloc, courses, loaded, levels, first, certificate)
}

/// The counts of the input, that so many levels are verified, a first line and the values.
fn with_levels(
    alloc: Global,
    courses: u32,
    loaded: &Loaded,
    levels: u32,
    first: &[u8],
    certificate: &Certificate,
) -> Result<Vec<u8>, Memory>
    requires { is_writable certificate.now ≡ true }
    ensures { IfOk result (λ v. v.items ≡ counts_text courses loaded.now.instance loaded.now.times loaded.now.model ++ verified_line levels ++ first.now ++ value_lines certificate.now.values) }
{
    let values = value_lines(alloc, &certificate.values)?;
    let mut text = counts(alloc, courses, loaded)?;
    push_counted(&mut text, b"verified", u64::from(levels))?;
    text.extend_from_slice(first)?;
    text.extend_from_slice(values.as_slice())?;
    Ok(text)
}

/// How many levels the check of the certificate's text verifies.
fn checked_levels(alloc: Global, model: &Model, certificate: &Certificate) -> Result<u32, Memory>
    requires writable { is_writable certificate.now ≡ true }
    requires valid { IsValid model.now (length certificate.now.levels) certificate.now }
    ensures { IfOk result (λ n. n ≡ length certificate.now.levels) }
{
    text_laws();
    certificate_laws();
    let bytes = write_cert(alloc, certificate)?;
    match check(alloc, model, bytes.as_slice()) {
        Ok(Verdict::Verified { levels, values: _ }) => Ok(levels),
        Ok(Verdict::Not { line: _, reason: _ }) => unreachable!(),
        Err(_) => Err(Memory),
    }
}

/// The counts of the input.
fn counts(alloc: Global, courses: u32, loaded: &Loaded) -> Result<Vec<u8>, Memory>
    ensures { IfOk result (λ v. v.items ≡ counts_text courses loaded.now.instance loaded.now.times loaded.now.model) }
{
    let mut text = Vec::new(alloc);
    push_counted(&mut text, b"demo", u64::from(courses))?;
    push_counted(&mut text, b"courses", loaded.instance.courses.len() as u64)?;
    push_counted(&mut text, b"rooms", loaded.instance.rooms.len() as u64)?;
    push_counted(&mut text, b"meetings", loaded.times.meetings.len() as u64)?;
    push_counted(
        &mut text,
        b"patterns",
        u64::from(loaded.model.patterns().len()),
    )?;
    push_counted(&mut text, b"rows", u64::from(loaded.model.base_len()))?;
    Ok(text)
}

/// Adds a word and a number.
fn push_counted(text: &mut Vec<u8>, word: &[u8], count: u64) -> Result<(), AllocError>
    ensures { OnOk result (text.new.items ≡ text.old.items ++ counted_line word.now count) }
{
    let mut buffer = Buffer::new();
    text.extend_from_slice(word)?;
    text.extend_from_slice(b" ")?;
    text.extend_from_slice(buffer.format(count).as_bytes())?;
    text.extend_from_slice(b"\n")
}
