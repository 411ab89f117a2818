ghost use Rattle.std.specs.Prelude.{◌≡◌, IfOk, Result};
ghost use Rattle.input_core.specs.Fields.{Gives};
ghost use Rattle.input_core.specs.Rows.{unread};
ghost use Rattle.ctt_reader.specs.Promised.{IsInstance};
ghost use Rattle.measure_file.specs.Grammar.{measures_of, file_of, lines_from, line_of};
ghost use Rattle.measure_file.specs.Promised.{AreMeasures};
ghost use Rattle.measure_file.specs.Steps.{Adds, AddsLines, AreFew, listed_in};

use crate::faults::EntryFault;
use crate::known::Known;
use crate::listed::{Listed, add_entry};
use crate::measures::Measures;
use crate::words::{FileVersion, read_version, read_word};
use ctt_reader::Instance;
use input_core::{Fields, LineFault, LineKind, Rows, TextFault};
use std::alloc::Global;

/// The measures that the text of a measures file lists for the instance. `Line` comes exactly where the text is
/// outside the grammar of versions 1 and 2, with the first faulty line and its first kind of fault. Whatever is read
/// keeps to `AreMeasures`: known courses, rooms and features, days and periods of the instance, points of at most a
/// million, one preference for a course and a room, thresholds that rise, one length for a course, and at most 100
/// features and thresholds.
pub fn read_measures(alloc: Global, i: &Instance, bytes: &[u8]) -> Result<Measures, TextFault>
    requires { IsInstance i.now }
    ensures exact { Gives (λ m. m) result (measures_of i.now bytes.now) }
    ensures promised { IfOk result (AreMeasures i.now) }
{
    let known = Known::new(alloc, i)?;
    let listed = read_file(alloc, &known, bytes)?;
    Ok(listed.into_measures())
}

/// The lines, each read once.
fn read_file<'a>(alloc: Global, known: &Known, bytes: &'a [u8]) -> Result<Listed<'a>, TextFault>
    requires { AreFew known.now }
    ensures { Gives listed_in result (file_of known.now (unread bytes.entry.now).rows) }
{
    let mut rows = Rows::new(bytes);
    let mut listed = Listed::new(alloc)?;
    let Some(row) = rows.next()? else {
        return Ok(listed);
    };
    let mut fields = row.fields;
    let version = match read_version(&mut fields) {
        Ok(version) => version,
        Err(kind) => return Err(TextFault::Line(LineFault {
            line: row.line,
            kind,
        })),
    };
    add_lines(known, version, &mut rows, &mut listed)?;
    Ok(listed)
}

/// Adds the lines after the first one.
fn add_lines<'a>(
    known: &Known,
    version: FileVersion,
    rows: &mut Rows<'a>,
    listed: &mut Listed<'a>,
) -> Result<(), TextFault>
    requires { AreFew known.now }
    ensures { AddsLines (lines_from known.now version (listed_in listed.old) rows.old.rows) result (listed_in listed.new) }
{
    while let Some(row) = rows.next()? {
        let mut fields = row.fields;
        if let Err(fault) = add_line(known, version, &mut fields, listed) {
            return Err(fault.in_line(row.line));
        }
    }
    Ok(())
}

/// Adds a line.
fn add_line<'a>(
    known: &Known,
    version: FileVersion,
    fields: &mut Fields<'a>,
    listed: &mut Listed<'a>,
) -> Result<(), EntryFault>
    requires { AreFew known.now }
    ensures { Adds (line_of known.now version (listed_in listed.old) fields.old) result (listed_in listed.new) }
{
    let Some(word) = fields.next() else {
        return Err(EntryFault::Kind(LineKind::Keyword));
    };
    let word = read_word(version, word)?;
    add_entry(known, word, fields, listed)
}
