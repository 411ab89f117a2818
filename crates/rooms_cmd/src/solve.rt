ghost use Rattle.std.specs.Prelude.{◌≡◌, ◌≤◌, IfOk, length};
ghost use Rattle.timed_solution.specs.Times.{AreTimes};
ghost use Rattle.room_model.specs.ProblemOf.{problem_of};
ghost use Rattle.run_core.specs.Calls.{NoReadFailed};
ghost use Rattle.run_core.specs.Outside.{shelved, KeepsBut};
ghost use Rattle.run_core.specs.declared.status.ToolStatus.TheVariants as statuses;
ghost use Rattle.rooms_cmd.specs.Answers.{optimal_line, open_line};
ghost use Rattle.rooms_cmd.specs.Run.{AnswerIs, StatusIs, KeepsWhereRefused, NoPutFailed};
ghost use Rattle.rooms_cmd.specs.Solving.{SolveExplains};
ghost use Rattle.rooms_cmd.specs.Steps.{FoundExplains, IsFound, IsDraft, IsDraftOf, IsPrintable, ArePrintable};
ghost use Rattle.rooms_cmd.specs.Work.{work};

use crate::answers::{answer_text, open_line};
use crate::putting::{Draft, put};
use cert_text::{Certificate, write_cert};
use ctt_reader::Instance;
use exact_num::{Arith, Steps};
use input_core::{Memory, Shelf};
use lex_driver::{Solved, solve_levels};
use run_core::{Answer, Stop, ToolStatus as Status};
use std::alloc::Global;
use std::sync::ledger::Ledger;
use timed_solution::Times;
use tool_core::{Loaded, Names, load, stop_of};

/// Finds the best rooms in the six measures, puts the certificate under its name, and answers with the values and the
/// rooms.
pub fn solve<S: Shelf, A: Arith, L: Ledger>(
    alloc: Global,
    names: &Names,
    certificate: &str,
    budget: u64,
    shelf: &mut S,
    arith: &mut A,
    steps: &mut Steps<L>,
) -> Result<Answer, Stop>
    requires { budget ≤ 1000000 }
    ensures answers { AnswerIs (SolveExplains (shelved S.tells S.held S.piece_faults S.put_faults shelf.old shelf.new) (work A.wides arith.old arith.new steps.old steps.new) names.now certificate.now budget) result }
    ensures keeps { KeepsBut certificate.now (shelved S.tells S.held S.piece_faults S.put_faults shelf.old shelf.new) }
    ensures refused { StatusIs (KeepsWhereRefused (shelved S.tells S.held S.piece_faults S.put_faults shelf.old shelf.new)) result }
    ensures reads { StatusIs (NoReadFailed (S.piece_faults shelf.old) (S.piece_faults shelf.new)) result }
    ensures puts { StatusIs (NoPutFailed (S.put_faults shelf.old) (S.put_faults shelf.new)) result }
{
    match load(
        alloc,
        shelf,
        names.instance.as_str(),
        names.times.as_str(),
        names.measures.as_str(),
    ) {
        Ok(loaded) => solve_loaded(alloc, &loaded, certificate, budget, shelf, arith, steps),
        Err(fault) => Err(stop_of(alloc, names, fault)),
    }
}

/// Finds the best rooms for the model, and puts the certificate under its name. The answer is made before, so that no
/// want of memory comes after the put.
fn solve_loaded<S: Shelf, A: Arith, L: Ledger>(
    alloc: Global,
    loaded: &Loaded,
    certificate: &str,
    budget: u64,
    shelf: &mut S,
    arith: &mut A,
    steps: &mut Steps<L>,
) -> Result<Answer, Stop>
    requires budget { budget ≤ 1000000 }
    requires times { AreTimes loaded.now.instance loaded.now.times.meetings }
    requires model { loaded.now.model ≡ problem_of loaded.now.instance loaded.now.times loaded.now.measures }
    ensures answers { AnswerIs (FoundExplains (shelved S.tells S.held S.piece_faults S.put_faults shelf.old shelf.new) (work A.wides arith.old arith.new steps.old steps.new) loaded.now.model loaded.now.instance loaded.now.times budget certificate.now) result }
    ensures keeps { KeepsBut certificate.now (shelved S.tells S.held S.piece_faults S.put_faults shelf.old shelf.new) }
    ensures reads { S.piece_faults shelf.new ≡ S.piece_faults shelf.old }
    ensures puts { StatusIs (NoPutFailed (S.put_faults shelf.old) (S.put_faults shelf.new)) result }
{
    let draft = search(alloc, loaded, budget, arith, steps)?;
    put(draft, certificate, shelf)
}

/// Finds the best rooms for the model: the certificate's bytes and the answer.
fn search<A: Arith, L: Ledger>(
    alloc: Global,
    loaded: &Loaded,
    budget: u64,
    arith: &mut A,
    steps: &mut Steps<L>,
) -> Result<Draft, Memory>
    requires budget { budget ≤ 1000000 }
    requires times { AreTimes loaded.now.instance loaded.now.times.meetings }
    requires model { loaded.now.model ≡ problem_of loaded.now.instance loaded.now.times loaded.now.measures }
    ensures { IfOk result (IsFound loaded.now.model loaded.now.instance loaded.now.times budget (work A.wides arith.old arith.new steps.old steps.new)) }
{
    match solve_levels(alloc, &loaded.model, budget, arith, steps) {
        Ok(solved) => draft_of(alloc, &loaded.instance, &loaded.times, &solved),
        Err(_) => Err(Memory),
    }
}

/// The certificate's bytes and the answer of what the search found.
fn draft_of(
    alloc: Global,
    instance: &Instance,
    times: &Times,
    solved: &Solved,
) -> Result<Draft, Memory>
    requires { ArePrintable instance.now times.now solved.now }
    ensures { IfOk result (IsDraftOf instance.now times.now solved.now) }
{
    match solved {
        Solved::Optimal(certificate) => optimal(alloc, instance, times, certificate),
        Solved::Open {
            level,
            certificate,
            ..
        } => open(alloc, instance, times, *level, certificate),
    }
}

/// The certificate's bytes and the answer where all six levels are finished.
fn optimal(
    alloc: Global,
    instance: &Instance,
    times: &Times,
    certificate: &Certificate,
) -> Result<Draft, Memory>
    requires { IsPrintable instance.now times.now certificate.now }
    ensures { IfOk result (IsDraft instance.now times.now optimal_line statuses.Done certificate.now) }
{
    let bytes = write_cert(alloc, certificate)?;
    let text = answer_text(alloc, b"Optimal\n", instance, times, certificate)?;
    Ok(Draft {
        bytes,
        answer: Answer {
            status: Status::Done,
            text,
        },
    })
}

/// The certificate's bytes and the answer where the search stopped in this level.
fn open(
    alloc: Global,
    instance: &Instance,
    times: &Times,
    level: u32,
    certificate: &Certificate,
) -> Result<Draft, Memory>
    requires { IsPrintable instance.now times.now certificate.now }
    ensures { IfOk result (IsDraft instance.now times.now (open_line level) statuses.Open certificate.now) }
{
    let bytes = write_cert(alloc, certificate)?;
    let first = open_line(alloc, level)?;
    let text = answer_text(alloc, first.as_slice(), instance, times, certificate)?;
    Ok(Draft {
        bytes,
        answer: Answer {
            status: Status::Open,
            text,
        },
    })
}
