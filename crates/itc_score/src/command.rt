ghost use Rattle.std.specs.Prelude.{◌≡◌, ◌⊎◌, [], IfOk, IfErr};
ghost use Rattle.input_core.specs.Shelf.{OnlyReads};
ghost use Rattle.ctt_reader.specs.Promised.{IsInstance};
ghost use Rattle.timed_solution.specs.Times.{AreTimes};
ghost use Rattle.run_core.specs.Calls.{Stops, NoReadFailed, NoReadOfStepFailed, NoWriteFailed, WritesOnce};
ghost use Rattle.run_core.specs.Ends.{Grew, Prints, IsWriteFault, RunEnds};
ghost use Rattle.run_core.specs.Expected.{words_of, AnswersExpected};
ghost use Rattle.run_core.specs.Outside.{told, shelved, printed, IsQuiet};
ghost use Rattle.run_core.specs.declared.status.ToolStatus.TheVariants as tools;
ghost use Rattle.itc_score.specs.Score.{score_of};
ghost use Rattle.itc_score.specs.Texts.{score_text};
ghost use Rattle.itc_score.specs.Statuses.{tool_status};
ghost use Rattle.itc_score.specs.Run.{OfNames, IsUsage, IsScored, IsBadInput, IsReadFault, NamesExplain, Explains, TimesExplain};
ghost use Rattle.itc_score.specs.Expected.{expected, IsAccepted};
ghost use Rattle.itc_score.specs.declared.status.ScoreStatus.TheVariants as statuses;

use crate::scoring::score;
use crate::status::{ScoreStatus, score_status};
use crate::texts::{score_text, usage};
use ctt_reader::Instance;
use input_core::{Shelf, Sink};
use run_core::{Answer, Stop, ToolStatus, load_instance, load_times, print, stop_of};
use std::alloc::Global;
use timed_solution::Times;

/// Prints the score of the solution that the second word names, for the instance that the first word names. The
/// words are those after the program's name. One text is made whole and written by one call. Unless the status is
/// `ReadFault`, `WriteFault` or `Memory`, no call of the shelf and none of the sink has failed; with `ReadFault` none
/// of the sink.
pub fn run_score<S: Shelf, O: Sink>(
    alloc: Global,
    words: &[String],
    shelf: &mut S,
    out: &mut O,
) -> ScoreStatus
    ensures done { result ≡ statuses.Done → Prints (printed O.written O.faults O.calls out.old out.new) (λ text. OfNames (words_of words.now) (λ n m. IsScored (told S.tells S.held shelf.old) n m text)) }
    ensures usage { result ≡ statuses.Usage → Prints (printed O.written O.faults O.calls out.old out.new) (IsUsage (words_of words.now)) }
    ensures bad_input { result ≡ statuses.BadInput → Prints (printed O.written O.faults O.calls out.old out.new) (λ text. OfNames (words_of words.now) (λ n m. IsBadInput (told S.tells S.held shelf.old) n m text)) }
    ensures read_fault { result ≡ statuses.ReadFault → Prints (printed O.written O.faults O.calls out.old out.new) (λ text. OfNames (words_of words.now) (λ n m. IsReadFault (shelved S.tells S.held S.piece_faults S.put_faults shelf.old shelf.new) n m text)) }
    ensures write_fault { result ≡ statuses.WriteFault → IsWriteFault (printed O.written O.faults O.calls out.old out.new) (Explains (shelved S.tells S.held S.piece_faults S.put_faults shelf.old shelf.new) (words_of words.now)) }
    ensures memory { result ≡ statuses.Memory → Grew (O.written out.old) (O.written out.new) [] }
    ensures quiet { IsQuiet (shelved S.tells S.held S.piece_faults S.put_faults shelf.old shelf.new) (printed O.written O.faults O.calls out.old out.new) → AnswersExpected (printed O.written O.faults O.calls out.old out.new) (tool_status result) (expected (S.held shelf.old) (words_of words.now)) }
    ensures complete { IsQuiet (shelved S.tells S.held S.piece_faults S.put_faults shelf.old shelf.new) (printed O.written O.faults O.calls out.old out.new) → OfNames (words_of words.now) (IsAccepted (told S.tells S.held shelf.old)) → (result ≡ statuses.Done) ⊎ (result ≡ statuses.Memory) }
    ensures no_read_failed { NoReadFailed (S.piece_faults shelf.old) (S.piece_faults shelf.new) (tool_status result) }
    ensures no_write_failed { NoWriteFailed (O.faults out.old) (O.faults out.new) (tool_status result) }
    ensures one_write { WritesOnce (O.calls out.old) (O.calls out.new) (tool_status result) }
    ensures only { OnlyReads S.tells S.held S.piece_faults S.put_faults shelf.old shelf.new }
{
    respond(alloc, words, shelf, out)
}

/// The status of such a run. Its clause `ends` goes by the status; clauses of `run_score` follow from it.
fn respond<S: Shelf, O: Sink>(
    alloc: Global,
    words: &[String],
    shelf: &mut S,
    out: &mut O,
) -> ScoreStatus
    ensures ends { RunEnds (printed O.written O.faults O.calls out.old out.new) (Explains (shelved S.tells S.held S.piece_faults S.put_faults shelf.old shelf.new) (words_of words.now)) (tool_status result) }
    ensures no_read_failed { NoReadFailed (S.piece_faults shelf.old) (S.piece_faults shelf.new) (tool_status result) }
    ensures no_write_failed { NoWriteFailed (O.faults out.old) (O.faults out.new) (tool_status result) }
    ensures one_write { WritesOnce (O.calls out.old) (O.calls out.new) (tool_status result) }
    ensures only { OnlyReads S.tells S.held S.piece_faults S.put_faults shelf.old shelf.new }
{
    score_status(print_answer(alloc, words, shelf, out))
}

/// Finds the answer and writes it.
fn print_answer<S: Shelf, O: Sink>(
    alloc: Global,
    words: &[String],
    shelf: &mut S,
    out: &mut O,
) -> ToolStatus
    ensures ends { RunEnds (printed O.written O.faults O.calls out.old out.new) (Explains (shelved S.tells S.held S.piece_faults S.put_faults shelf.old shelf.new) (words_of words.now)) result }
    ensures no_read_failed { NoReadFailed (S.piece_faults shelf.old) (S.piece_faults shelf.new) result }
    ensures no_write_failed { NoWriteFailed (O.faults out.old) (O.faults out.new) result }
    ensures one_write { WritesOnce (O.calls out.old) (O.calls out.new) result }
    ensures only { OnlyReads S.tells S.held S.piece_faults S.put_faults shelf.old shelf.new }
{
    match decide(alloc, words, shelf) {
        Ok(answer) => print(out, answer),
        Err(Stop::Answer(answer)) => print(out, answer),
        Err(Stop::NotPut) => ToolStatus::WriteFault,
        Err(Stop::Memory) => ToolStatus::Memory,
    }
}

/// The answer to the words.
fn decide<S: Shelf>(alloc: Global, words: &[String], shelf: &mut S) -> Result<Answer, Stop>
    ensures answers { IfOk result (λ a. Explains (shelved S.tells S.held S.piece_faults S.put_faults shelf.old shelf.new) (words_of words.now) a.text.items a.status) }
    ensures stops { IfErr result (Stops (Explains (shelved S.tells S.held S.piece_faults S.put_faults shelf.old shelf.new) (words_of words.now))) }
    ensures calls { NoReadOfStepFailed (S.piece_faults shelf.old) (S.piece_faults shelf.new) result }
    ensures only { OnlyReads S.tells S.held S.piece_faults S.put_faults shelf.old shelf.new }
{
    if words.len() != 2 {
        return Ok(Answer {
            status: ToolStatus::Usage,
            text: usage(alloc)?,
        });
    }
    score_files(alloc, shelf, words[0].as_str(), words[1].as_str())
}

/// The score of the two files.
fn score_files<S: Shelf>(
    alloc: Global,
    shelf: &mut S,
    instance_name: &str,
    solution_name: &str,
) -> Result<Answer, Stop>
    ensures answers { IfOk result (λ a. NamesExplain (shelved S.tells S.held S.piece_faults S.put_faults shelf.old shelf.new) instance_name.now solution_name.now a.text.items a.status) }
    ensures stops { IfErr result (Stops (NamesExplain (shelved S.tells S.held S.piece_faults S.put_faults shelf.old shelf.new) instance_name.now solution_name.now)) }
    ensures calls { NoReadOfStepFailed (S.piece_faults shelf.old) (S.piece_faults shelf.new) result }
    ensures only { OnlyReads S.tells S.held S.piece_faults S.put_faults shelf.old shelf.new }
{
    match load_instance(alloc, shelf, instance_name) {
        Ok(instance) => score_solution(alloc, shelf, &instance, solution_name),
        Err(fault) => Err(stop_of(alloc, instance_name, fault)),
    }
}

/// The score of the solution in the file of this name.
fn score_solution<S: Shelf>(
    alloc: Global,
    shelf: &mut S,
    instance: &Instance,
    name: &str,
) -> Result<Answer, Stop>
    requires { IsInstance instance.now }
    ensures answers { IfOk result (λ a. TimesExplain (shelved S.tells S.held S.piece_faults S.put_faults shelf.old shelf.new) instance.now name.now a.text.items a.status) }
    ensures stops { IfErr result (Stops (TimesExplain (shelved S.tells S.held S.piece_faults S.put_faults shelf.old shelf.new) instance.now name.now)) }
    ensures calls { NoReadOfStepFailed (S.piece_faults shelf.old) (S.piece_faults shelf.new) result }
    ensures only { OnlyReads S.tells S.held S.piece_faults S.put_faults shelf.old shelf.new }
{
    match load_times(alloc, shelf, instance, name) {
        Ok(times) => answer_with_score(alloc, instance, &times),
        Err(fault) => Err(stop_of(alloc, name, fault)),
    }
}

/// The text of the score.
fn answer_with_score(alloc: Global, instance: &Instance, times: &Times) -> Result<Answer, Stop>
    requires instance { IsInstance instance.now }
    requires times { AreTimes instance.now times.now.meetings }
    ensures text { IfOk result (λ a. a.text.items ≡ score_text (score_of instance.now times.now.meetings)) }
    ensures status { IfOk result (λ a. a.status ≡ tools.Done) }
    ensures stops { IfErr result (Stops (λ text status. ⊥)) }
{
    let counts = score(alloc, instance, times)?;
    Ok(Answer {
        status: ToolStatus::Done,
        text: score_text(alloc, counts)?,
    })
}
