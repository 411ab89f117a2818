ghost use Rattle.std.specs.Prelude.{◌≡◌, ◌<◌, ◌≤◌, ◌++◌, length, OnOk, true};
ghost use Rattle.std.specs.List.{flat_map};
ghost use Rattle.ctt_reader.specs.Promised.{IsInstance};
ghost use Rattle.week_page.specs.Lists.{each_below};
ghost use Rattle.week_page.specs.Cells.{group_in, are_known};
ghost use Rattle.week_page.specs.Page.{unroomed_line, unroomed_text, room_text, meeting_text, course_row, courses_head, courses_text, ArePrintable};

use crate::courses::push_text_of;
use crate::names::{push_decimal, push_escaped};
use crate::tables::Tables;
use ctt_reader::Instance;
use std::alloc::AllocError;
use timed_solution::Meeting;

/// Adds the list of the meetings without a room.
#[tactic(auto, unfolding(crate::specs::Page::unroomed_text))]
pub fn push_unroomed(text: &mut Vec<u8>, i: &Instance, lines: &[Meeting]) -> Result<(), AllocError>
    requires { are_known i.now lines.now ≡ true }
    ensures { OnOk result (text.new.items ≡ text.old.items ++ unroomed_text i.now lines.now) }
{
    text.extend_from_slice(b"<h2>Meetings without a room: ")?;
    push_decimal(text, lines.len() as u64)?;
    text.extend_from_slice(b"</h2>\n<ul>\n")?;
    push_unroomed_lines(text, i, lines)?;
    text.extend_from_slice(b"</ul>\n")?;
    Ok(())
}

fn push_unroomed_lines(
    text: &mut Vec<u8>,
    i: &Instance,
    lines: &[Meeting],
) -> Result<(), AllocError>
    requires { are_known i.now lines.now ≡ true }
    ensures { OnOk result (text.new.items ≡ text.old.items ++ flat_map (unroomed_line i.now) lines.now) }
{
    for line in lines {
        push_unroomed_line(text, i, line)?;
    }
    Ok(())
}

#[tactic(auto, unfolding(crate::specs::Page::unroomed_line))]
fn push_unroomed_line(text: &mut Vec<u8>, i: &Instance, line: &Meeting) -> Result<(), AllocError>
    requires { line.now.course < length i.now.courses }
    ensures { OnOk result (text.new.items ≡ text.old.items ++ unroomed_line i.now line.now) }
{
    text.extend_from_slice(b"<li>")?;
    push_escaped(
        text,
        i.courses.as_slice()[line.course as usize].name.as_bytes(),
    )?;
    text.extend_from_slice(b": day ")?;
    push_decimal(text, u64::from(line.day))?;
    text.extend_from_slice(b", period ")?;
    push_decimal(text, u64::from(line.period))?;
    text.extend_from_slice(b"</li>\n")?;
    Ok(())
}

/// Adds the table of the courses and their meetings.
#[tactic(auto, unfolding(crate::specs::Page::courses_text))]
pub fn push_courses(text: &mut Vec<u8>, i: &Instance, t: &Tables) -> Result<(), AllocError>
    requires { ArePrintable i.now t.now }
    ensures { OnOk result (text.new.items ≡ text.old.items ++ courses_text i.now (group_in t.now.courses.items)) }
{
    push_courses_head(text)?;
    push_course_rows(text, i, t)?;
    text.extend_from_slice(b"</tbody>\n</table>\n</div>\n")?;
    Ok(())
}

#[tactic(auto, unfolding(crate::specs::Page::courses_head))]
fn push_courses_head(text: &mut Vec<u8>) -> Result<(), AllocError>
    ensures { OnOk result (text.new.items ≡ text.old.items ++ courses_head) }
{
    text.extend_from_slice(
        b"<h2>Courses</h2>\n<div>\n<table>\n<thead>\n<tr><th>Course</th><th>Meetings</th></tr>\n</thead>\n<tbody>\n",
    )?;
    Ok(())
}

#[tactic(auto, using(crate::proofs::ListLemmas::each_below_more))]
fn push_course_rows(text: &mut Vec<u8>, i: &Instance, t: &Tables) -> Result<(), AllocError>
    requires { ArePrintable i.now t.now }
    ensures { OnOk result (text.new.items ≡ text.old.items ++ each_below (course_row i.now (group_in t.now.courses.items)) (length i.now.courses)) }
{
    for course in 0..i.courses.len() {
        push_course_row(text, i, t, course)?;
    }
    Ok(())
}

#[tactic(auto, unfolding(crate::specs::Page::course_row))]
fn push_course_row(
    text: &mut Vec<u8>,
    i: &Instance,
    t: &Tables,
    course: usize,
) -> Result<(), AllocError>
    requires tables { ArePrintable i.now t.now }
    requires course { course < length i.now.courses }
    ensures { OnOk result (text.new.items ≡ text.old.items ++ course_row i.now (group_in t.now.courses.items) course) }
{
    text.extend_from_slice(b"<tr><td>")?;
    push_text_of(text, i, t.texts.as_slice(), course)?;
    text.extend_from_slice(b"</p></td><td>")?;
    push_meetings_of(text, i, t, course)?;
    text.extend_from_slice(b"</td></tr>\n")?;
    Ok(())
}

/// Adds the meetings of the course.
fn push_meetings_of(
    text: &mut Vec<u8>,
    i: &Instance,
    t: &Tables,
    course: usize,
) -> Result<(), AllocError>
    requires tables { ArePrintable i.now t.now }
    requires course { course < length i.now.courses }
    ensures { OnOk result (text.new.items ≡ text.old.items ++ flat_map (meeting_text i.now) (group_in t.now.courses.items course)) }
{
    push_meetings(text, i, t.courses[course].as_slice())
}

fn push_meetings(text: &mut Vec<u8>, i: &Instance, lines: &[Meeting]) -> Result<(), AllocError>
    requires { are_known i.now lines.now ≡ true }
    ensures { OnOk result (text.new.items ≡ text.old.items ++ flat_map (meeting_text i.now) lines.now) }
{
    for line in lines {
        push_meeting(text, i, line)?;
    }
    Ok(())
}

#[tactic(auto, unfolding(crate::specs::Page::meeting_text))]
fn push_meeting(text: &mut Vec<u8>, i: &Instance, line: &Meeting) -> Result<(), AllocError>
    requires { line.now.room ≤ length i.now.rooms }
    ensures { OnOk result (text.new.items ≡ text.old.items ++ meeting_text i.now line.now) }
{
    text.extend_from_slice(b"<span>day ")?;
    push_decimal(text, u64::from(line.day))?;
    text.extend_from_slice(b", period ")?;
    push_decimal(text, u64::from(line.period))?;
    text.extend_from_slice(b", ")?;
    push_room(text, i, line.room)?;
    text.extend_from_slice(b"</span>")?;
    Ok(())
}

/// Adds the name of the room of a line's entry.
#[tactic(auto, unfolding(crate::specs::Page::room_text))]
fn push_room(text: &mut Vec<u8>, i: &Instance, entry: u32) -> Result<(), AllocError>
    requires { entry ≤ length i.now.rooms }
    ensures { OnOk result (text.new.items ≡ text.old.items ++ room_text i.now entry) }
{
    if entry == 0 {
        text.extend_from_slice(b"no room")?;
        Ok(())
    } else {
        push_escaped(text, i.rooms.as_slice()[entry as usize - 1].name.as_bytes())
    }
}
