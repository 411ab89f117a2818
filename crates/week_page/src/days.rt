ghost use Rattle.std.specs.Prelude.{◌≡◌, ◌<◌, ◌++◌, ℕ, length, slice_index_or, OnOk, true};
ghost use Rattle.std.specs.List.{flat_map};
ghost use Rattle.ctt_reader.specs.Promised.{IsInstance};
ghost use Rattle.week_page.specs.Lists.{each_below};
ghost use Rattle.week_page.specs.Cells.{cell_in, are_known};
ghost use Rattle.week_page.specs.Page.{over_mark, over_text, clash_mark, entry_text, clash_text, cell_text, room_head, row_text, period_text, day_head, day_text, AreCourseTexts, ArePrintable};

use crate::courses::push_text_of;
use crate::names::{push_decimal, push_escaped};
use crate::tables::Tables;
use ctt_reader::{Instance, Room};
use std::alloc::AllocError;
use timed_solution::Meeting;
use values::Items;

/// Adds the table of each day.
#[tactic(auto, using(crate::proofs::ListLemmas::each_below_more))]
pub fn push_days(text: &mut Vec<u8>, i: &Instance, t: &Tables) -> Result<(), AllocError>
    requires instance { IsInstance i.now }
    requires tables { ArePrintable i.now t.now }
    ensures { OnOk result (text.new.items ≡ text.old.items ++ each_below (day_text i.now (cell_in t.now.cells.items)) i.now.days) }
{
    for day in 0..i.days as usize {
        push_day(text, i, t, day)?;
    }
    Ok(())
}

#[tactic(auto, unfolding(crate::specs::Page::day_text))]
fn push_day(text: &mut Vec<u8>, i: &Instance, t: &Tables, day: usize) -> Result<(), AllocError>
    requires instance { IsInstance i.now }
    requires tables { ArePrintable i.now t.now }
    requires day { day < i.now.days }
    ensures { OnOk result (text.new.items ≡ text.old.items ++ day_text i.now (cell_in t.now.cells.items) day) }
{
    push_day_head(text, i, day)?;
    push_rows(text, i, t, day)?;
    text.extend_from_slice(b"</tbody>\n</table>\n</div>\n</section>\n")?;
    Ok(())
}

#[tactic(auto, unfolding(crate::specs::Page::day_head))]
fn push_day_head(text: &mut Vec<u8>, i: &Instance, day: usize) -> Result<(), AllocError>
    ensures { OnOk result (text.new.items ≡ text.old.items ++ day_head i.now day) }
{
    text.extend_from_slice(b"<section>\n<h2>Day ")?;
    push_decimal(text, day as u64)?;
    text.extend_from_slice(b"</h2>\n<div>\n<table>\n<thead>\n<tr><th>Room</th>")?;
    push_periods(text, i.periods)?;
    text.extend_from_slice(b"</tr>\n</thead>\n<tbody>\n")?;
    Ok(())
}

#[tactic(auto, using(crate::proofs::ListLemmas::each_below_more))]
fn push_periods(text: &mut Vec<u8>, periods: u32) -> Result<(), AllocError>
    ensures { OnOk result (text.new.items ≡ text.old.items ++ each_below period_text periods) }
{
    for period in 0..periods {
        push_period(text, period)?;
    }
    Ok(())
}

#[tactic(auto, unfolding(crate::specs::Page::period_text))]
fn push_period(text: &mut Vec<u8>, period: u32) -> Result<(), AllocError>
    ensures { OnOk result (text.new.items ≡ text.old.items ++ period_text period) }
{
    text.extend_from_slice(b"<th>Period ")?;
    push_decimal(text, u64::from(period))?;
    text.extend_from_slice(b"</th>")?;
    Ok(())
}

/// Adds the rows of the day.
#[tactic(auto, using(crate::proofs::ListLemmas::each_below_more))]
fn push_rows(text: &mut Vec<u8>, i: &Instance, t: &Tables, day: usize) -> Result<(), AllocError>
    requires instance { IsInstance i.now }
    requires tables { ArePrintable i.now t.now }
    requires day { day < i.now.days }
    ensures { OnOk result (text.new.items ≡ text.old.items ++ each_below (row_text i.now (cell_in t.now.cells.items) day) (length i.now.rooms)) }
{
    for room in 0..i.rooms.len() {
        push_row(text, i, t, day, room)?;
    }
    Ok(())
}

#[tactic(auto, unfolding(crate::specs::Page::row_text))]
fn push_row(
    text: &mut Vec<u8>,
    i: &Instance,
    t: &Tables,
    day: usize,
    room: usize,
) -> Result<(), AllocError>
    requires instance { IsInstance i.now }
    requires tables { ArePrintable i.now t.now }
    requires day { day < i.now.days }
    requires room { room < length i.now.rooms }
    ensures { OnOk result (text.new.items ≡ text.old.items ++ row_text i.now (cell_in t.now.cells.items) day room) }
{
    let found = &i.rooms.as_slice()[room];
    push_room_head(text, found)?;
    push_cells(text, i, t, day, room, found.capacity)?;
    text.extend_from_slice(b"</tr>\n")?;
    Ok(())
}

#[tactic(auto, unfolding(crate::specs::Page::room_head))]
fn push_room_head(text: &mut Vec<u8>, room: &Room) -> Result<(), AllocError>
    ensures { OnOk result (text.new.items ≡ text.old.items ++ room_head room.now) }
{
    text.extend_from_slice(b"<tr><th>")?;
    push_escaped(text, room.name.as_bytes())?;
    text.extend_from_slice(b"<small>")?;
    push_decimal(text, u64::from(room.capacity))?;
    text.extend_from_slice(b" seats</small></th>")?;
    Ok(())
}

/// Adds the cells of a row.
#[tactic(auto, using(crate::proofs::ListLemmas::each_below_more))]
fn push_cells(
    text: &mut Vec<u8>,
    i: &Instance,
    t: &Tables,
    day: usize,
    room: usize,
    seats: u32,
) -> Result<(), AllocError>
    requires instance { IsInstance i.now }
    requires tables { ArePrintable i.now t.now }
    requires day { day < i.now.days }
    requires room { room < length i.now.rooms }
    ensures { OnOk result (text.new.items ≡ text.old.items ++ each_below (λ period. cell_text i.now seats (cell_in t.now.cells.items day room period)) i.now.periods) }
{
    for period in 0..i.periods as usize {
        let lines = t.cells[day * 9648 + (room + 1) * 48 + period].as_slice();
        push_cell(text, i, t.texts.as_slice(), seats, lines)?;
    }
    Ok(())
}

#[tactic(auto, unfolding(crate::specs::Page::cell_text))]
fn push_cell(
    text: &mut Vec<u8>,
    i: &Instance,
    texts: &[Items<u8>],
    seats: u32,
    lines: &[Meeting],
) -> Result<(), AllocError>
    requires texts { AreCourseTexts i.now texts.now }
    requires lines { are_known i.now lines.now ≡ true }
    ensures { OnOk result (text.new.items ≡ text.old.items ++ cell_text i.now seats lines.now) }
{
    push_clash(text, lines.len())?;
    push_entries(text, i, texts, seats, lines)?;
    text.extend_from_slice(b"</td>")?;
    Ok(())
}

/// Adds the beginning of a cell with so many lines.
#[tactic(auto, unfolding(crate::specs::Page::clash_text))]
fn push_clash(text: &mut Vec<u8>, lines: usize) -> Result<(), AllocError>
    ensures { OnOk result (text.new.items ≡ text.old.items ++ clash_text lines) }
{
    if lines > 1 {
        push_clash_mark(text, lines)
    } else {
        text.extend_from_slice(b"<td>")?;
        Ok(())
    }
}

#[tactic(auto, unfolding(crate::specs::Page::clash_mark))]
fn push_clash_mark(text: &mut Vec<u8>, lines: usize) -> Result<(), AllocError>
    ensures { OnOk result (text.new.items ≡ text.old.items ++ clash_mark lines) }
{
    text.extend_from_slice(b"<td class=\"x\"><em>Clash of ")?;
    push_decimal(text, lines as u64)?;
    text.extend_from_slice(b" courses</em>")?;
    Ok(())
}

fn push_entries(
    text: &mut Vec<u8>,
    i: &Instance,
    texts: &[Items<u8>],
    seats: u32,
    lines: &[Meeting],
) -> Result<(), AllocError>
    requires texts { AreCourseTexts i.now texts.now }
    requires lines { are_known i.now lines.now ≡ true }
    ensures { OnOk result (text.new.items ≡ text.old.items ++ flat_map (entry_text i.now seats) lines.now) }
{
    for line in lines {
        push_entry(text, i, texts, seats, line)?;
    }
    Ok(())
}

#[tactic(auto, unfolding(crate::specs::Page::entry_text))]
fn push_entry(
    text: &mut Vec<u8>,
    i: &Instance,
    texts: &[Items<u8>],
    seats: u32,
    line: &Meeting,
) -> Result<(), AllocError>
    requires texts { AreCourseTexts i.now texts.now }
    requires line { line.now.course < length i.now.courses }
    ensures { OnOk result (text.new.items ≡ text.old.items ++ entry_text i.now seats line.now) }
{
    push_text_of(text, i, texts, line.course as usize)?;
    push_over(
        text,
        seats,
        i.courses.as_slice()[line.course as usize].students,
    )?;
    text.extend_from_slice(b"</p>")?;
    Ok(())
}

/// Adds the mark of a room with too few seats, where it has.
#[tactic(auto, unfolding(crate::specs::Page::over_text))]
fn push_over(text: &mut Vec<u8>, seats: u32, students: u32) -> Result<(), AllocError>
    ensures { OnOk result (text.new.items ≡ text.old.items ++ over_text seats students) }
{
    if seats < students {
        push_over_mark(text, seats)
    } else {
        Ok(())
    }
}

#[tactic(auto, unfolding(crate::specs::Page::over_mark))]
fn push_over_mark(text: &mut Vec<u8>, seats: u32) -> Result<(), AllocError>
    ensures { OnOk result (text.new.items ≡ text.old.items ++ over_mark seats) }
{
    text.extend_from_slice(b"<em>Over the ")?;
    push_decimal(text, u64::from(seats))?;
    text.extend_from_slice(b" seats</em>")?;
    Ok(())
}
