ghost use Rattle.std.specs.Prelude.{◌≡◌, ◌++◌, ◌∷◌, [], IfOk, Ok, Err, MatchResult};
ghost use Rattle.input_core.specs.Fields.{Gives, in_line};
ghost use Rattle.ctt_reader.specs.Entries.{title_of, words_of, number_after, only_word};
ghost use Rattle.ctt_reader.specs.Grammar.{line_as, sizes_of};
ghost use Rattle.ctt_reader.specs.Steps.{Reads, Steps};

use input_core::{
    Fields, LineFault, LineKind, Memory, Row, Rows, TextFault, read_name, read_number_in,
    text_of_field,
};
use std::alloc::Global;
use values::{Items, Text};

/// The numbers of the header: how many lines each section has, and the days and their periods.
#[derive(Clone, Copy)]
pub struct Sizes {
    pub courses: u32,
    pub rooms: u32,
    pub days: u32,
    pub periods: u32,
    pub curricula: u32,
    pub constraints: u32,
}

/// The six lines with the sizes.
pub fn read_sizes(rows: &mut Rows) -> Result<Sizes, LineFault>
    ensures { Steps result (sizes_of rows.old) rows.new }
{
    let courses = read_number_after(rows, b"Courses:", 0, 1_000)?;
    let rooms = read_number_after(rows, b"Rooms:", 0, 200)?;
    let days = read_number_after(rows, b"Days:", 1, 14)?;
    let periods = read_number_after(rows, b"Periods_per_day:", 1, 48)?;
    let curricula = read_number_after(rows, b"Curricula:", 0, 1_000)?;
    let constraints = read_number_after(rows, b"Constraints:", 0, 100_000)?;
    Ok(Sizes {
        courses,
        rooms,
        days,
        periods,
        curricula,
        constraints,
    })
}

/// A line with a word and a number.
fn read_number_after(rows: &mut Rows, word: &[u8], low: u32, high: u32) -> Result<u32, LineFault>
    ensures { Steps result (line_as (number_after word.now low high) rows.old) rows.new }
{
    let mut row = rows.expect()?;
    let number = number_after(&mut row.fields, word, low, high);
    number.map_err(|kind| LineFault {
        line: row.line,
        kind,
    })
}

fn number_after(fields: &mut Fields, word: &[u8], low: u32, high: u32) -> Result<u32, LineKind>
    ensures { result ≡ number_after word.now low high fields.old }
{
    match fields.next() {
        Some(first) if first == word => {}
        _ => return Err(LineKind::Keyword),
    }
    let Some(number) = fields.next() else {
        return Err(LineKind::Fields);
    };
    if fields.next().is_some() {
        return Err(LineKind::Fields);
    }
    read_number_in(low, high, number)
}

/// A line with a word alone.
pub fn read_word(rows: &mut Rows, word: &[u8]) -> Result<(), LineFault>
    ensures { Steps result (line_as (only_word word.now) rows.old) rows.new }
{
    let mut row = rows.expect()?;
    let found = only_word(&mut row.fields, word);
    found.map_err(|kind| LineFault {
        line: row.line,
        kind,
    })
}

fn only_word(fields: &mut Fields, word: &[u8]) -> Result<(), LineKind>
    ensures { result ≡ only_word word.now fields.old }
{
    match fields.next() {
        Some(first) if first == word => {}
        _ => return Err(LineKind::Keyword),
    }
    if fields.next().is_some() {
        return Err(LineKind::Fields);
    }
    Ok(())
}

/// The line with the title.
pub fn read_title(alloc: Global, rows: &mut Rows) -> Result<Items<Text>, TextFault>
    ensures { Reads (λ title. title) result (line_as title_of rows.old) rows.new }
{
    let mut row = rows.expect()?;
    match row.fields.next() {
        Some(first) if first == b"Name:".as_slice() => read_words(alloc, row.line, &mut row.fields),
        _ => Err(TextFault::Line(LineFault {
            line: row.line,
            kind: LineKind::Keyword,
        })),
    }
}

/// The fields that are left, each of at most 64 bytes.
fn read_words(alloc: Global, line: u64, fields: &mut Fields) -> Result<Items<Text>, TextFault>
    ensures { Gives (λ words. words) result (in_line line (words_of fields.old)) }
{
    let mut words = Items::new(alloc);
    while let Some(field) = fields.next() {
        if read_name(field).is_err() {
            return Err(TextFault::Line(LineFault {
                line,
                kind: LineKind::NameLength,
            }));
        }
        words.push(text_of_field(alloc, field)?)?;
    }
    Ok(words)
}
