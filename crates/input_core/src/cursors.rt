ghost use Rattle.std.specs.Prelude.{◌≡◌, ◌≤◌, ◌<◌, ◌+◌, ◌-◌, ◌^◌, [], ◌∷◌, length, take, drop, MatchOption, IfSome, IfOk, true, not, None};
ghost use Rattle.std.specs.List.{list_all};
ghost use Rattle.input_core.specs.Lines.{lines_of, fields_of, is_allowed, is_alone, is_graphic};
ghost use Rattle.input_core.specs.Rows.{NextRow, TakesRow, first_row, list_is_empty, unread, unread_from};

use crate::faults::{LineFault, LineKind};
use crate::lines::{is_allowed_line, next_field, next_line};
use std::marker::Model;

/// The fields of a line that are left. Contracts see the list of them.
#[derive(Drop)]
pub struct Fields<'a> {
    line: &'a [u8],
    at: usize,
}

impl<'a> Model for Fields<'a> {
    ghost use Rattle.std.specs.Prelude.{List, ℕ, ◌≤◌, ◌≡◌, length, drop, true};
    ghost use Rattle.std.specs.List.{list_all};
    ghost use Rattle.input_core.specs.Lines.{fields_of, is_allowed};

    ghost Value = { List (List ℕ) };

    ghost view = { λ f. fields_of (drop f.at f.line.now) };

    ghost invariant = { λ f. (f.at ≤ length f.line.now) × (list_all is_allowed f.line.now ≡ true) };
}

impl<'a> Fields<'a> {
    /// The fields of a line of which each byte is allowed.
    pub fn new(line: &'a [u8]) -> Fields<'a>
        requires { list_all is_allowed line.now ≡ true }
        ensures { result ≡ fields_of line.now }
    {
        Fields { line, at: 0 }
    }

    /// The next field. Its bytes are from 33 to 126.
    pub fn next(&mut self) -> Option<&'a [u8]>
        ensures next { MatchOption result ((self.old ≡ []) × (self.new ≡ [])) (λ field. self.old ≡ field.now ∷ self.new) }
        ensures graphic { IfSome result (λ field. list_all is_graphic field.now ≡ true) }
    {
        let (from, to) = next_field(self.line, self.at)?;
        self.at = to;
        Some(part(self.line, from, to))
    }

    /// Whether this word is the only field that is left.
    pub fn is_alone(&self, word: &[u8]) -> bool
        ensures { result ≡ is_alone word.now self.now }
    {
        let Some((from, to)) = next_field(self.line, self.at) else {
            return false;
        };
        let ends = next_field(self.line, to).is_none();
        part(self.line, from, to) == word && ends
    }

    /// How many fields are left.
    pub fn count(&self) -> usize
        ensures { result ≡ length self.now }
    {
        let mut count = 0;
        let mut at = self.at;
        while let Some((_, to)) = next_field(self.line, at) {
            count += 1;
            at = to;
        }
        count
    }
}

/// The lines of a text that are left. Contracts see the list of them.
#[derive(Drop)]
pub struct Lines<'a> {
    bytes: &'a [u8],
    at: usize,
}

impl<'a> Model for Lines<'a> {
    ghost use Rattle.std.specs.Prelude.{List, ℕ, ◌≤◌, length, drop};
    ghost use Rattle.input_core.specs.Lines.{lines_of};

    ghost Value = { List (List ℕ) };

    ghost view = { λ f. lines_of (drop f.at f.bytes.now) };

    ghost invariant = { λ f. f.at ≤ length f.bytes.now };
}

impl<'a> Lines<'a> {
    /// The lines of a text.
    pub fn new(bytes: &'a [u8]) -> Lines<'a>
        ensures lines { result ≡ lines_of bytes.now }
        ensures fits { length result ≤ length bytes.now }
    {
        Lines { bytes, at: 0 }
    }

    /// The next line.
    pub fn next(&mut self) -> Option<&'a [u8]>
        ensures { MatchOption result ((self.old ≡ []) × (self.new ≡ [])) (λ line. self.old ≡ line.now ∷ self.new) }
    {
        let (end, next) = next_line(self.bytes, self.at)?;
        let line = part(self.bytes, self.at, end);
        self.at = next;
        Some(line)
    }
}

fn part(bytes: &[u8], from: usize, to: usize) -> &[u8]
    requires ordered { from ≤ to }
    requires within { to ≤ length bytes.now }
    ensures { result.now ≡ take (to - from) (drop from bytes.now) }
{
    let (_, rest) = bytes.split_at(from);
    let (front, _) = rest.split_at(to - from);
    front
}

/// A line that has fields, with its number in the text.
#[derive(Drop)]
pub struct Row<'a> {
    pub line: u64,
    pub fields: Fields<'a>,
}

/// The lines with fields that are left in a text, and the number of the line past its end.
#[derive(Drop)]
pub struct Rows<'a> {
    lines: Lines<'a>,
    next: u64,
}

impl<'a> Model for Rows<'a> {
    ghost use Rattle.std.specs.Prelude.{◌+◌, ◌<◌, ◌^◌, length};
    ghost use Rattle.input_core.specs.Rows.{Unread, unread_from};

    ghost Value = { Unread };

    ghost view = { λ r. unread_from r.next r.lines };

    ghost invariant = { λ r. r.next + length r.lines < 2 ^ 64 };
}

impl<'a> Rows<'a> {
    /// The lines with fields of a text.
    pub fn new(bytes: &'a [u8]) -> Rows<'a>
        ensures { result ≡ unread bytes.now }
    {
        Rows {
            lines: Lines::new(bytes),
            next: 1,
        }
    }

    /// The next line with fields; `None` where there is none; or the fault of a line with a byte that is not
    /// allowed, where that line comes first. That line is then taken.
    pub fn next(&mut self) -> Result<Option<Row<'a>>, LineFault>
        ensures { NextRow self.old result self.new }
    {
        take_row(&mut self.lines, &mut self.next)
    }

    /// As `next`, where a line has to come: at the end of the text the fault is that the file ends, in the line
    /// past the last one.
    pub fn expect(&mut self) -> Result<Row<'a>, LineFault>
        ensures { TakesRow (first_row self.old) result self.new }
    {
        match take_row(&mut self.lines, &mut self.next)? {
            Some(row) => Ok(row),
            None => Err(LineFault {
                line: self.next,
                kind: LineKind::Missing,
            }),
        }
    }
}

/// Takes lines up to the first one with fields.
fn take_row<'a>(lines: &mut Lines<'a>, next: &mut u64) -> Result<Option<Row<'a>>, LineFault>
    requires { next.old + length lines.old < 2 ^ 64 }
    ensures row { NextRow (unread_from next.old lines.old) result (unread_from next.new lines.new) }
    ensures end { IfOk result (λ row. row ≡ None → lines.new ≡ []) }
    ensures fits { next.new + length lines.new ≡ next.old + length lines.old }
{
    while let Some(line) = lines.next() {
        let number = *next;
        *next += 1;
        if !is_allowed_line(line) {
            return Err(LineFault {
                line: number,
                kind: LineKind::Byte,
            });
        }
        if has_fields(line) {
            return Ok(Some(Row {
                line: number,
                fields: Fields::new(line),
            }));
        }
    }
    Ok(None)
}

fn has_fields(line: &[u8]) -> bool
    requires { list_all is_allowed line.now ≡ true }
    ensures { result ≡ not (list_is_empty (fields_of line.now)) }
{
    next_field(line, 0).is_some()
}
