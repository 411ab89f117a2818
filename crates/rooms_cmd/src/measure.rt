ghost use Rattle.std.specs.Prelude.{◌≡◌};
ghost use Rattle.input_core.specs.Shelf.{OnlyReads};
ghost use Rattle.timed_solution.specs.Times.{AreTimes};
ghost use Rattle.room_model.specs.ProblemOf.{problem_of};
ghost use Rattle.run_core.specs.Calls.{NoReadFailed};
ghost use Rattle.run_core.specs.Outside.{shelved};
ghost use Rattle.rooms_cmd.specs.Run.{AnswerIs, StatusIs};
ghost use Rattle.rooms_cmd.specs.Measuring.{MeasureExplains};
ghost use Rattle.rooms_cmd.specs.Steps.{RoomsExplain};

use input_core::Shelf;
use reports::{room_fault, value_lines};
use room_model::given_choice;
use run_core::{Answer, Stop, ToolStatus as Status};
use std::alloc::Global;
use tool_core::{Inputs, Names, load_files, stop_of};

/// Measures the rooms that the timed solution gives.
pub fn measure<S: Shelf>(alloc: Global, names: &Names, shelf: &mut S) -> Result<Answer, Stop>
    ensures answers { AnswerIs (MeasureExplains (shelved S.tells S.held S.piece_faults S.put_faults shelf.old shelf.new) names.now) result }
    ensures reads { StatusIs (NoReadFailed (S.piece_faults shelf.old) (S.piece_faults shelf.new)) result }
    ensures only { OnlyReads S.tells S.held S.piece_faults S.put_faults shelf.old shelf.new }
{
    match load_files(
        alloc,
        shelf,
        names.instance.as_str(),
        names.times.as_str(),
        names.measures.as_str(),
    ) {
        Ok(inputs) => judge(alloc, &inputs),
        Err(fault) => Err(stop_of(alloc, names, fault)),
    }
}

/// The values of the given rooms, or their first fault.
fn judge(alloc: Global, inputs: &Inputs) -> Result<Answer, Stop>
    requires times { AreTimes inputs.now.instance inputs.now.times.meetings }
    requires same { inputs.now.problem ≡ problem_of inputs.now.instance inputs.now.times inputs.now.measures }
    ensures { AnswerIs (RoomsExplain inputs.now.instance inputs.now.times inputs.now.measures) result }
{
    let choice = given_choice(alloc, &inputs.times)?;
    match inputs.problem.first_fault(&choice) {
        None => Ok(Answer {
            status: Status::Done,
            text: value_lines(alloc, &inputs.problem.values(&choice))?,
        }),
        Some(fault) => Ok(Answer {
            status: Status::No,
            text: room_fault(alloc, &inputs.instance, &inputs.times, fault)?,
        }),
    }
}
