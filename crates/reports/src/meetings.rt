ghost use Rattle.std.specs.Prelude.{◌≡◌, ◌++◌, ◌<◌, ◌≤◌, length, IfOk, OnOk};
ghost use Rattle.reports.specs.Lines.{AreNamed, meeting_line, meeting_lines, placed_words, timed_words};

use ctt_reader::Instance;
use input_core::Memory;
use itoa::Buffer;
use room_model::{course_name, room_name};
use std::alloc::{AllocError, Global};
use timed_solution::Meeting;

/// The line `COURSE ROOM DAY PERIOD` of each meeting, with the room of its entry, or `-` where the entry is 0.
pub fn meeting_lines(
    alloc: Global,
    instance: &Instance,
    meetings: &[Meeting],
    entries: &[u32],
) -> Result<Vec<u8>, Memory>
    requires known { AreNamed instance.now meetings.now entries.now }
    ensures { IfOk result (λ v. v.items ≡ meeting_lines instance.now meetings.now entries.now) }
{
    let mut text = Vec::new(alloc);
    for event in 0..meetings.len() {
        push_meeting(&mut text, instance, meetings[event], entries[event])?;
    }
    Ok(text)
}

/// Adds the line of a meeting.
fn push_meeting(
    text: &mut Vec<u8>,
    instance: &Instance,
    meeting: Meeting,
    entry: u32,
) -> Result<(), AllocError>
    requires course { meeting.course < length instance.now.courses }
    requires room { entry ≤ length instance.now.rooms }
    ensures { OnOk result (text.new.items ≡ text.old.items ++ meeting_line instance.now meeting entry) }
{
    push_placed(text, instance, meeting, entry)?;
    text.extend_from_slice(b"\n")?;
    Ok(())
}

/// Adds the course of a meeting, the room of an entry, the day and the period.
pub fn push_placed(
    text: &mut Vec<u8>,
    instance: &Instance,
    meeting: Meeting,
    entry: u32,
) -> Result<(), AllocError>
    requires course { meeting.course < length instance.now.courses }
    requires room { entry ≤ length instance.now.rooms }
    ensures { OnOk result (text.new.items ≡ text.old.items ++ placed_words instance.now meeting entry) }
{
    let mut buffer = Buffer::new();
    text.extend_from_slice(course_name(instance, meeting.course).as_bytes())?;
    text.extend_from_slice(b" ")?;
    text.extend_from_slice(room_name(instance, entry).as_bytes())?;
    text.extend_from_slice(b" ")?;
    text.extend_from_slice(buffer.format(meeting.day).as_bytes())?;
    text.extend_from_slice(b" ")?;
    text.extend_from_slice(buffer.format(meeting.period).as_bytes())?;
    Ok(())
}

/// Adds the course of a meeting, the day and the period.
pub fn push_timed(
    text: &mut Vec<u8>,
    instance: &Instance,
    meeting: Meeting,
) -> Result<(), AllocError>
    requires { meeting.course < length instance.now.courses }
    ensures { OnOk result (text.new.items ≡ text.old.items ++ timed_words instance.now meeting) }
{
    let mut buffer = Buffer::new();
    text.extend_from_slice(course_name(instance, meeting.course).as_bytes())?;
    text.extend_from_slice(b" ")?;
    text.extend_from_slice(buffer.format(meeting.day).as_bytes())?;
    text.extend_from_slice(b" ")?;
    text.extend_from_slice(buffer.format(meeting.period).as_bytes())?;
    Ok(())
}
