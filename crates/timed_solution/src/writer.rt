ghost use Rattle.std.specs.Prelude.{◌≡◌, ◌++◌, ◌∷◌, [], length, true, IfOk, OnOk, Ok};
ghost use Rattle.std.specs.List.{list_all};
ghost use Rattle.text_lines.specs.Written.{written};
ghost use Rattle.ctt_reader.specs.Promised.{IsInstance};
ghost use Rattle.timed_solution.specs.Times.{times_of, is_meeting, AreTimes};
ghost use Rattle.timed_solution.specs.Writing.{meeting_fields, times_text, with_rooms, is_entry};

use crate::times::{Meeting, Times};
use ctt_reader::{Instance, course_name, room_name};
use problem_core::{Choice, Memory};
use std::alloc::Global;
use text_lines::{push_field, push_last_number, push_number};

/// The text of times that `read_times` can give, with the rooms of a choice that has one entry a meeting and names
/// known rooms: lines of four fields with single blanks, `-` for no room, a line feed after each line. Reading it
/// gives the times with these rooms.
pub fn write_solution(alloc: Global, i: &Instance, t: &Times, a: &Choice) -> Result<Vec<u8>, Memory>
    requires instance { IsInstance i.now }
    requires times { AreTimes i.now t.now.meetings }
    requires one_each { length a.now.entries ≡ length t.now.meetings }
    requires known { list_all (is_entry i.now) a.now.entries ≡ true }
    ensures text { IfOk result (λ v. v.items ≡ times_text i.now (with_rooms t.now.meetings a.now.entries)) }
    ensures read_back { IfOk result (λ v. times_of i.now v.items ≡ Ok (with_rooms t.now.meetings a.now.entries)) }
{
    let mut text = Vec::new(alloc);
    match push_meetings(&mut text, i, t.meetings.as_slice(), a.entries.as_slice()) {
        Ok(()) => Ok(text),
        Err(_) => Err(Memory),
    }
}

/// Adds the lines of the meetings.
fn push_meetings(
    text: &mut Vec<u8>,
    i: &Instance,
    meetings: &[Meeting],
    entries: &[u32],
) -> Result<(), input_core::Memory>
    requires one_each { length entries.now ≡ length meetings.now }
    requires meetings { list_all (is_meeting i.now) meetings.now ≡ true }
    requires known { list_all (is_entry i.now) entries.now ≡ true }
    ensures { OnOk result (text.new.items ≡ text.old.items ++ times_text i.now (with_rooms meetings.now entries.now)) }
{
    for event in 0..meetings.len() {
        let meeting = meetings[event];
        push_meeting(
            text,
            i,
            Meeting {
                course: meeting.course,
                room: entries[event],
                day: meeting.day,
                period: meeting.period,
            },
        )?;
    }
    Ok(())
}

fn push_meeting(
    text: &mut Vec<u8>,
    i: &Instance,
    meeting: Meeting,
) -> Result<(), input_core::Memory>
    requires { is_meeting i.now meeting ≡ true }
    ensures { OnOk result (text.new.items ≡ text.old.items ++ written (meeting_fields i.now meeting ∷ [])) }
{
    push_field(text, course_name(i, meeting.course).as_bytes())?;
    push_field(text, room_name(i, meeting.room).as_bytes())?;
    push_number(text, meeting.day)?;
    push_last_number(text, meeting.period)
}
