ghost use Rattle.std.specs.Prelude.{◌≡◌, IfOk};
ghost use Rattle.input_core.specs.Shelf.{OnlyReads};
ghost use Rattle.problem_core.specs.Choice.{IsLegal};
ghost use Rattle.ctt_reader.specs.Promised.{IsInstance};
ghost use Rattle.timed_solution.specs.Times.{AreTimes};
ghost use Rattle.room_model.specs.ProblemOf.{problem_of, given_rooms};
ghost use Rattle.run_core.specs.Calls.{NoReadFailed};
ghost use Rattle.run_core.specs.Outside.{shelved};
ghost use Rattle.rooms_cmd.specs.Run.{AnswerIs, StatusIs};
ghost use Rattle.rooms_cmd.specs.Reporting.{ReportExplains, report_on};
ghost use Rattle.rooms_cmd.specs.Steps.{ReportedRooms};

use input_core::{Memory, Shelf};
use problem_core::Choice;
use reports::{json_report, room_fault, text_report};
use room_model::given_choice;
use run_core::{Answer, Stop, ToolStatus as Status};
use std::alloc::Global;
use tool_core::{Inputs, Names, load_files, stop_of};

/// Reports who is where by the rooms that the timed solution gives, as a line of JSON or as a text.
pub fn report<S: Shelf>(
    alloc: Global,
    names: &Names,
    json: bool,
    shelf: &mut S,
) -> Result<Answer, Stop>
    ensures answers { AnswerIs (ReportExplains (shelved S.tells S.held S.piece_faults S.put_faults shelf.old shelf.new) names.now json) result }
    ensures reads { StatusIs (NoReadFailed (S.piece_faults shelf.old) (S.piece_faults shelf.new)) result }
    ensures only { OnlyReads S.tells S.held S.piece_faults S.put_faults shelf.old shelf.new }
{
    match load_files(
        alloc,
        shelf,
        names.instance.as_str(),
        names.times.as_str(),
        names.measures.as_str(),
    ) {
        Ok(inputs) => judge(alloc, &inputs, json),
        Err(fault) => Err(stop_of(alloc, names, fault)),
    }
}

/// The report on the given rooms, or their first fault.
fn judge(alloc: Global, inputs: &Inputs, json: bool) -> Result<Answer, Stop>
    requires instance { IsInstance inputs.now.instance }
    requires times { AreTimes inputs.now.instance inputs.now.times.meetings }
    requires same { inputs.now.problem ≡ problem_of inputs.now.instance inputs.now.times inputs.now.measures }
    ensures { AnswerIs (ReportedRooms json inputs.now.instance inputs.now.times inputs.now.measures) result }
{
    let choice = given_choice(alloc, &inputs.times)?;
    match inputs.problem.first_fault(&choice) {
        None => Ok(Answer {
            status: Status::Done,
            text: report_on(alloc, inputs, &choice, json)?,
        }),
        Some(fault) => Ok(Answer {
            status: Status::No,
            text: room_fault(alloc, &inputs.instance, &inputs.times, fault)?,
        }),
    }
}

/// The report on the given rooms, which are legal.
fn report_on(alloc: Global, inputs: &Inputs, choice: &Choice, json: bool) -> Result<Vec<u8>, Memory>
    requires instance { IsInstance inputs.now.instance }
    requires times { AreTimes inputs.now.instance inputs.now.times.meetings }
    requires same { inputs.now.problem ≡ problem_of inputs.now.instance inputs.now.times inputs.now.measures }
    requires given { choice.now.entries ≡ given_rooms inputs.now.times }
    requires legal { IsLegal inputs.now.problem choice.now.entries }
    ensures { IfOk result (λ v. v.items ≡ report_on json inputs.now.instance inputs.now.times inputs.now.measures) }
{
    if json {
        json_report(
            alloc,
            &inputs.instance,
            &inputs.times,
            &inputs.problem,
            choice,
        )
    } else {
        text_report(
            alloc,
            &inputs.instance,
            &inputs.times,
            &inputs.problem,
            choice,
        )
    }
}
