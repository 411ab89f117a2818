ghost use Rattle.std.specs.Prelude.{◌≡◌, IfOk};
ghost use Rattle.room_model.specs.ProblemOf.{given_rooms};

use problem_core::{Choice, Memory};
use std::alloc::Global;
use timed_solution::Times;
use values::Items;

/// The rooms that the timed solution gives: one entry a meeting, in their order.
pub fn given_choice(alloc: Global, times: &Times) -> Result<Choice, Memory>
    ensures { IfOk result (λ a. a.entries ≡ given_rooms times.now) }
{
    let entries: Vec<u32> = times
        .meetings
        .as_slice()
        .iter()
        .map(|meeting| meeting.room)
        .collect(alloc)?;
    Ok(Choice {
        entries: Items::from(entries),
    })
}
