ghost use Rattle.std.specs.Prelude.{◌≡◌, ◌⊎◌, [], IsTrue, true, Some};
ghost use Rattle.input_core.specs.Causes.{Rose, next_count};
ghost use Rattle.run_core.specs.Calls.{NoReadFailed, NoWriteFailed};
ghost use Rattle.run_core.specs.Ends.{Prints, RunEnds, Grew};
ghost use Rattle.run_core.specs.Expected.{words_of, AnswersExpected};
ghost use Rattle.run_core.specs.Outside.{told, shelved, printed, IsQuiet};
ghost use Rattle.run_core.specs.declared.status.ToolStatus.TheVariants as statuses;
ghost use Rattle.command_words.specs.Words.{command, writes_apart, IsInRange};
ghost use Rattle.rooms_cmd.specs.Work.{work};
ghost use Rattle.rooms_cmd.specs.Run.{IsDone, IsNo, IsUsage, IsOpen, IsBadInput, IsUnread, Explains, Keeps, KeepsInputs, KeepsWhereRefused, LeavesShelf, WritesOnce, NoPutFailed, AnswerIs, StatusIs};
ghost use Rattle.rooms_cmd.specs.Expected.{expected, Accepted, AcceptedWith, Valid, Legal, Illegal, IsDemo, IsDemoWith, HoldsWhereAccepted};

use crate::check::check;
use crate::demo::demo;
use crate::measure::measure;
use crate::recert::recert;
use crate::report::report;
use crate::solve::solve;
use crate::texts::usage;
use cert_checker::certificate_laws;
use cert_text::text_laws;
use command_words::{Command, read_command};
use exact_num::{Arith, Steps};
use input_core::{Shelf, Sink};
use run_core::{Answer, Stop, ToolStatus as Status, print};
use std::alloc::Global;
use std::sync::ledger::Ledger;

/// Runs the command that the words give (see [`read_command`]); the words are those after the program's name. One
/// text is made whole and written by one call, after the file that the command writes was put. Unless the status is
/// `ReadFault`, `WriteFault` or `Memory`, no call of the shelf and none of the sink has failed; with `ReadFault` none
/// of the sink and no put.
///
/// `Done` and `Open` of `solve` say that the certificate was put under its name: with `Done` it is valid for all six
/// levels and has at most `--budget` branches (1,000 where the words don't say it), and no legal choice of rooms is
/// better; with `Open` exactly so many branches were made. Those of `demo` say that there is such a certificate for the
/// input that it makes; it makes no call of the shelf. `No` comes exactly where a certificate isn't valid or given
/// rooms aren't legal, `Usage` exactly where the words are no command, `BadInput` exactly where a file is too long or
/// not of its form or a limit is passed. Whatever the status, the files that the command reads hold what they held.
pub fn run<S: Shelf, O: Sink, A: Arith, L: Ledger>(
    alloc: Global,
    words: &[String],
    shelf: &mut S,
    out: &mut O,
    arith: &mut A,
    steps: &mut Steps<L>,
) -> Status
    ensures done { result ≡ statuses.Done → Prints (printed O.written O.faults O.calls out.old out.new) (IsDone (shelved S.tells S.held S.piece_faults S.put_faults shelf.old shelf.new) (command (words_of words.now))) }
    ensures no { result ≡ statuses.No → Prints (printed O.written O.faults O.calls out.old out.new) (IsNo (shelved S.tells S.held S.piece_faults S.put_faults shelf.old shelf.new) (command (words_of words.now))) }
    ensures usage { result ≡ statuses.Usage → Prints (printed O.written O.faults O.calls out.old out.new) (IsUsage (command (words_of words.now))) }
    ensures open { result ≡ statuses.Open → Prints (printed O.written O.faults O.calls out.old out.new) (IsOpen (shelved S.tells S.held S.piece_faults S.put_faults shelf.old shelf.new) (work A.wides arith.old arith.new steps.old steps.new) (command (words_of words.now))) }
    ensures bad_input { result ≡ statuses.BadInput → Prints (printed O.written O.faults O.calls out.old out.new) (IsBadInput (shelved S.tells S.held S.piece_faults S.put_faults shelf.old shelf.new) (command (words_of words.now))) }
    ensures read_fault { result ≡ statuses.ReadFault → Prints (printed O.written O.faults O.calls out.old out.new) (IsUnread (shelved S.tells S.held S.piece_faults S.put_faults shelf.old shelf.new) (command (words_of words.now))) }
    ensures write_fault { result ≡ statuses.WriteFault → RunEnds (printed O.written O.faults O.calls out.old out.new) (Explains (shelved S.tells S.held S.piece_faults S.put_faults shelf.old shelf.new) (work A.wides arith.old arith.new steps.old steps.new) (command (words_of words.now))) statuses.WriteFault }
    ensures memory { result ≡ statuses.Memory → Grew (O.written out.old) (O.written out.new) [] }
    ensures keeps { Keeps (shelved S.tells S.held S.piece_faults S.put_faults shelf.old shelf.new) (command (words_of words.now)) }
    ensures inputs { KeepsInputs (shelved S.tells S.held S.piece_faults S.put_faults shelf.old shelf.new) (command (words_of words.now)) }
    ensures leaves { LeavesShelf shelf.old shelf.new (command (words_of words.now)) }
    ensures refused { KeepsWhereRefused (shelved S.tells S.held S.piece_faults S.put_faults shelf.old shelf.new) result }
    ensures put { result ≡ statuses.WriteFault → IsTrue (S.tells shelf.old) → (Rose (S.piece_faults shelf.old) (S.piece_faults shelf.new) → ⊥) → (Rose (S.put_faults shelf.old) (S.put_faults shelf.new) → ⊥) → HoldsWhereAccepted (shelved S.tells S.held S.piece_faults S.put_faults shelf.old shelf.new) (command (words_of words.now)) }
    ensures quiet { IsQuiet (shelved S.tells S.held S.piece_faults S.put_faults shelf.old shelf.new) (printed O.written O.faults O.calls out.old out.new) → AnswersExpected (printed O.written O.faults O.calls out.old out.new) result (expected (S.held shelf.old) (command (words_of words.now))) }
    ensures accepted { IsQuiet (shelved S.tells S.held S.piece_faults S.put_faults shelf.old shelf.new) (printed O.written O.faults O.calls out.old out.new) → Accepted (told S.tells S.held shelf.old) (command (words_of words.now)) → (result ≡ statuses.Done) ⊎ ((result ≡ statuses.Open) ⊎ (result ≡ statuses.Memory)) }
    ensures enough { IsQuiet (shelved S.tells S.held S.piece_faults S.put_faults shelf.old shelf.new) (printed O.written O.faults O.calls out.old out.new) → AcceptedWith (told S.tells S.held shelf.old) (command (words_of words.now)) → (result ≡ statuses.Done) ⊎ (result ≡ statuses.Memory) }
    ensures valid { IsQuiet (shelved S.tells S.held S.piece_faults S.put_faults shelf.old shelf.new) (printed O.written O.faults O.calls out.old out.new) → Valid (told S.tells S.held shelf.old) (command (words_of words.now)) → (result ≡ statuses.Done) ⊎ (result ≡ statuses.Memory) }
    ensures legal { IsQuiet (shelved S.tells S.held S.piece_faults S.put_faults shelf.old shelf.new) (printed O.written O.faults O.calls out.old out.new) → Legal (told S.tells S.held shelf.old) (command (words_of words.now)) → (result ≡ statuses.Done) ⊎ (result ≡ statuses.Memory) }
    ensures illegal { IsQuiet (shelved S.tells S.held S.piece_faults S.put_faults shelf.old shelf.new) (printed O.written O.faults O.calls out.old out.new) → Illegal (told S.tells S.held shelf.old) (command (words_of words.now)) → (result ≡ statuses.No) ⊎ (result ≡ statuses.Memory) }
    ensures demo { (Rose (O.faults out.old) (O.faults out.new) → ⊥) → IsDemo (command (words_of words.now)) → (result ≡ statuses.Done) ⊎ ((result ≡ statuses.Open) ⊎ (result ≡ statuses.Memory)) }
    ensures demo_enough { (Rose (O.faults out.old) (O.faults out.new) → ⊥) → IsDemoWith (command (words_of words.now)) → (result ≡ statuses.Done) ⊎ (result ≡ statuses.Memory) }
    ensures no_read_failed { NoReadFailed (S.piece_faults shelf.old) (S.piece_faults shelf.new) result }
    ensures no_put_failed { NoPutFailed (S.put_faults shelf.old) (S.put_faults shelf.new) result }
    ensures no_write_failed { NoWriteFailed (O.faults out.old) (O.faults out.new) result }
    ensures one_write { WritesOnce (O.calls out.old) (O.calls out.new) result }
{
    text_laws();
    certificate_laws();
    respond(alloc, words, shelf, out, arith, steps)
}

/// Finds the answer and writes it. Its clause `ends` goes by the status; the clauses of `run` follow from it.
fn respond<S: Shelf, O: Sink, A: Arith, L: Ledger>(
    alloc: Global,
    words: &[String],
    shelf: &mut S,
    out: &mut O,
    arith: &mut A,
    steps: &mut Steps<L>,
) -> Status
    ensures ends { RunEnds (printed O.written O.faults O.calls out.old out.new) (Explains (shelved S.tells S.held S.piece_faults S.put_faults shelf.old shelf.new) (work A.wides arith.old arith.new steps.old steps.new) (command (words_of words.now))) result }
    ensures keeps { Keeps (shelved S.tells S.held S.piece_faults S.put_faults shelf.old shelf.new) (command (words_of words.now)) }
    ensures inputs { KeepsInputs (shelved S.tells S.held S.piece_faults S.put_faults shelf.old shelf.new) (command (words_of words.now)) }
    ensures leaves { LeavesShelf shelf.old shelf.new (command (words_of words.now)) }
    ensures refused { KeepsWhereRefused (shelved S.tells S.held S.piece_faults S.put_faults shelf.old shelf.new) result }
    ensures no_read_failed { NoReadFailed (S.piece_faults shelf.old) (S.piece_faults shelf.new) result }
    ensures no_put_failed { NoPutFailed (S.put_faults shelf.old) (S.put_faults shelf.new) result }
    ensures no_write_failed { NoWriteFailed (O.faults out.old) (O.faults out.new) result }
    ensures one_write { WritesOnce (O.calls out.old) (O.calls out.new) result }
{
    match decide(alloc, words, shelf, arith, steps) {
        Ok(answer) => print(out, answer),
        Err(Stop::Answer(answer)) => print(out, answer),
        Err(Stop::NotPut) => Status::WriteFault,
        Err(Stop::Memory) => Status::Memory,
    }
}

/// The answer to the words.
fn decide<S: Shelf, A: Arith, L: Ledger>(
    alloc: Global,
    words: &[String],
    shelf: &mut S,
    arith: &mut A,
    steps: &mut Steps<L>,
) -> Result<Answer, Stop>
    ensures answers { AnswerIs (Explains (shelved S.tells S.held S.piece_faults S.put_faults shelf.old shelf.new) (work A.wides arith.old arith.new steps.old steps.new) (command (words_of words.now))) result }
    ensures keeps { Keeps (shelved S.tells S.held S.piece_faults S.put_faults shelf.old shelf.new) (command (words_of words.now)) }
    ensures inputs { KeepsInputs (shelved S.tells S.held S.piece_faults S.put_faults shelf.old shelf.new) (command (words_of words.now)) }
    ensures leaves { LeavesShelf shelf.old shelf.new (command (words_of words.now)) }
    ensures refused { StatusIs (KeepsWhereRefused (shelved S.tells S.held S.piece_faults S.put_faults shelf.old shelf.new)) result }
    ensures reads { StatusIs (NoReadFailed (S.piece_faults shelf.old) (S.piece_faults shelf.new)) result }
    ensures puts { StatusIs (NoPutFailed (S.put_faults shelf.old) (S.put_faults shelf.new)) result }
{
    match read_command(alloc, words)? {
        Some(command) => carry_out(alloc, &command, shelf, arith, steps),
        None => Ok(Answer {
            status: Status::Usage,
            text: usage(alloc)?,
        }),
    }
}

/// The answer to a command.
fn carry_out<S: Shelf, A: Arith, L: Ledger>(
    alloc: Global,
    command: &Command,
    shelf: &mut S,
    arith: &mut A,
    steps: &mut Steps<L>,
) -> Result<Answer, Stop>
    requires apart { writes_apart command.now ≡ true }
    requires in_range { IsInRange command.now }
    ensures answers { AnswerIs (Explains (shelved S.tells S.held S.piece_faults S.put_faults shelf.old shelf.new) (work A.wides arith.old arith.new steps.old steps.new) (Some command.now)) result }
    ensures keeps { Keeps (shelved S.tells S.held S.piece_faults S.put_faults shelf.old shelf.new) (Some command.now) }
    ensures inputs { KeepsInputs (shelved S.tells S.held S.piece_faults S.put_faults shelf.old shelf.new) (Some command.now) }
    ensures leaves { LeavesShelf shelf.old shelf.new (Some command.now) }
    ensures refused { StatusIs (KeepsWhereRefused (shelved S.tells S.held S.piece_faults S.put_faults shelf.old shelf.new)) result }
    ensures reads { StatusIs (NoReadFailed (S.piece_faults shelf.old) (S.piece_faults shelf.new)) result }
    ensures puts { StatusIs (NoPutFailed (S.put_faults shelf.old) (S.put_faults shelf.new)) result }
{
    match command {
        Command::Solve {
            names,
            certificate,
            budget,
        } => solve(
            alloc,
            names,
            certificate.as_str(),
            *budget,
            shelf,
            arith,
            steps,
        ),
        Command::Check { names, certificate } => check(alloc, names, certificate.as_str(), shelf),
        Command::Recert {
            names,
            certificate,
            new,
        } => recert(alloc, names, certificate.as_str(), new.as_str(), shelf),
        Command::Measure { names } => measure(alloc, names, shelf),
        Command::Report { names, json } => report(alloc, names, *json, shelf),
        Command::Demo { courses, budget } => demo(alloc, *courses, *budget, arith, steps),
    }
}
