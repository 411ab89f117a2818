ghost use Rattle.std.specs.Prelude.{◌≡◌};
ghost use Rattle.input_core.specs.Causes.{next_count};
ghost use Rattle.run_core.specs.Calls.{NoWriteFailed};
ghost use Rattle.run_core.specs.Ends.{PrintEnds};
ghost use Rattle.run_core.specs.Outside.{printed};

use crate::answer::Answer;
use crate::status::ToolStatus;
use input_core::{PutFault, Sink};

/// Writes the text of the answer by one call, and gives the status that the run ends with: that of the answer where
/// the write went well.
pub fn print<O: Sink>(out: &mut O, answer: Answer) -> ToolStatus
    ensures ends { PrintEnds (printed O.written O.faults O.calls out.old out.new) answer.status answer.text.items result }
    ensures kept { NoWriteFailed (O.faults out.old) (O.faults out.new) result }
    ensures counted { O.calls out.new ≡ next_count (O.calls out.old) }
{
    match out.write(answer.text.as_slice()) {
        Ok(()) => answer.status,
        Err(PutFault::Fault) => ToolStatus::WriteFault,
        Err(PutFault::Memory) => ToolStatus::Memory,
    }
}
