ghost use Rattle.std.specs.Prelude.{◌≡◌, ◌++◌, codes, length, IfOk, true};
ghost use Rattle.std.specs.List.{list_all};
ghost use Rattle.timed_solution.specs.Times.{is_meeting};
ghost use Rattle.reports.specs.Lines.{room_fault_within, long_fault_within, given_words, timed_words, room_fault_text, long_text};

use crate::meetings::{push_placed, push_timed};
use ctt_reader::Instance;
use input_core::Memory;
use problem_core::RoomFault;
use room_model::LongFault;
use std::alloc::Global;
use timed_solution::{Meeting, Times};

/// Why the given rooms aren't legal.
pub fn room_fault(
    alloc: Global,
    instance: &Instance,
    times: &Times,
    fault: RoomFault,
) -> Result<Vec<u8>, Memory>
    requires meetings { list_all (is_meeting instance.now) times.now.meetings ≡ true }
    requires known { room_fault_within (length times.now.meetings) fault ≡ true }
    ensures { IfOk result (λ v. v.items ≡ room_fault_text instance.now times.now fault) }
{
    let meetings = times.meetings.as_slice();
    match fault {
        RoomFault::Unsuitable { event } => unsuitable(alloc, instance, meetings[event as usize]),
        RoomFault::Clash { first, second } => clash(
            alloc,
            instance,
            meetings[first as usize],
            meetings[second as usize],
        ),
    }
}

fn unsuitable(alloc: Global, instance: &Instance, meeting: Meeting) -> Result<Vec<u8>, Memory>
    requires { is_meeting instance.now meeting ≡ true }
    ensures { IfOk result (λ v. v.items ≡ codes "not legal\nunsuitable " ++ given_words instance.now meeting ++ codes "\n") }
{
    let mut text = Vec::from_slice(alloc, b"not legal\nunsuitable ")?;
    push_placed(&mut text, instance, meeting, meeting.room)?;
    text.extend_from_slice(b"\n")?;
    Ok(text)
}

fn clash(
    alloc: Global,
    instance: &Instance,
    first: Meeting,
    second: Meeting,
) -> Result<Vec<u8>, Memory>
    requires first { is_meeting instance.now first ≡ true }
    requires second { is_meeting instance.now second ≡ true }
    ensures { IfOk result (λ v. v.items ≡ codes "not legal\nclash " ++ given_words instance.now first ++ codes " " ++ given_words instance.now second ++ codes "\n") }
{
    let mut text = Vec::from_slice(alloc, b"not legal\nclash ")?;
    push_placed(&mut text, instance, first, first.room)?;
    text.extend_from_slice(b" ")?;
    push_placed(&mut text, instance, second, second.room)?;
    text.extend_from_slice(b"\n")?;
    Ok(text)
}

/// Which meeting is too long for its day, or for an earlier one of its course.
pub fn long_fault(
    alloc: Global,
    instance: &Instance,
    times: &Times,
    fault: LongFault,
) -> Result<Vec<u8>, Memory>
    requires meetings { list_all (is_meeting instance.now) times.now.meetings ≡ true }
    requires known { long_fault_within (length times.now.meetings) fault ≡ true }
    ensures { IfOk result (λ v. v.items ≡ long_text instance.now times.now fault) }
{
    let meetings = times.meetings.as_slice();
    match fault {
        LongFault::PastDay { event } => past_day(alloc, instance, meetings[event as usize]),
        LongFault::Overlap { first, second } => overlap(
            alloc,
            instance,
            meetings[first as usize],
            meetings[second as usize],
        ),
    }
}

fn past_day(alloc: Global, instance: &Instance, meeting: Meeting) -> Result<Vec<u8>, Memory>
    requires { is_meeting instance.now meeting ≡ true }
    ensures { IfOk result (λ v. v.items ≡ codes "bad input: meeting " ++ timed_words instance.now meeting ++ codes " past the day\n") }
{
    let mut text = Vec::from_slice(alloc, b"bad input: meeting ")?;
    push_timed(&mut text, instance, meeting)?;
    text.extend_from_slice(b" past the day\n")?;
    Ok(text)
}

fn overlap(
    alloc: Global,
    instance: &Instance,
    first: Meeting,
    second: Meeting,
) -> Result<Vec<u8>, Memory>
    requires first { is_meeting instance.now first ≡ true }
    requires second { is_meeting instance.now second ≡ true }
    ensures { IfOk result (λ v. v.items ≡ codes "bad input: meetings overlap " ++ timed_words instance.now first ++ codes " " ++ timed_words instance.now second ++ codes "\n") }
{
    let mut text = Vec::from_slice(alloc, b"bad input: meetings overlap ")?;
    push_timed(&mut text, instance, first)?;
    text.extend_from_slice(b" ")?;
    push_timed(&mut text, instance, second)?;
    text.extend_from_slice(b"\n")?;
    Ok(text)
}
