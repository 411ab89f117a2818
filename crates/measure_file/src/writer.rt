ghost use Rattle.std.specs.Prelude.{◌≡◌, ◌≤◌, ◌^◌, ◌++◌, IfOk, IfSome, OnOk, Ok};
ghost use Rattle.text_lines.specs.Written.{written};
ghost use Rattle.ctt_reader.specs.Entries.{course_names, room_names};
ghost use Rattle.ctt_reader.specs.Promised.{IsInstance};
ghost use Rattle.measure_file.specs.Grammar.{measures_of};
ghost use Rattle.measure_file.specs.Promised.{AreMeasures};
ghost use Rattle.measure_file.specs.Writing.{entry_lines, lists_nothing, text_of, counted, numbered_as_written, AreNumberedAsWritten};

use crate::lines::{
    push_all_closures, push_all_denied, push_all_has, push_all_lengths, push_all_needs,
    push_all_preferences, push_all_thresholds, push_version,
};
use crate::measures::Measures;
use ctt_reader::Instance;
use input_core::Memory;
use std::alloc::Global;

/// The text of a measures file that lists the measures: empty where nothing is listed; else `measures 1`, or
/// `measures 2` exactly where there are lengths, and the lines by kind, each kind in the order of its list. Features
/// have to be numbered by first appearance in that order. Reading the text gives the measures back.
pub fn write_measures(alloc: Global, i: &Instance, m: &Measures) -> Result<Vec<u8>, Memory>
    requires instance { IsInstance i.now }
    requires measures { AreMeasures i.now m.now }
    requires numbered { AreNumberedAsWritten m.now }
    ensures text { IfOk result (λ text. text.items ≡ text_of i.now m.now) }
    ensures read_back { IfOk result (λ text. measures_of i.now text.items ≡ Ok m.now) }
{
    let text = lines(alloc, i, m)?;
    Ok(text)
}

/// The lines of the text.
fn lines(alloc: Global, i: &Instance, m: &Measures) -> Result<Vec<u8>, Memory>
    requires { AreMeasures i.now m.now }
    ensures { IfOk result (λ text. text.items ≡ text_of i.now m.now) }
{
    let mut text = Vec::new(alloc);
    if !lists_nothing(m) {
        push_version(&mut text, m)?;
        push_entries(&mut text, i, m)?;
    }
    Ok(text)
}

/// Whether no line is listed.
fn lists_nothing(m: &Measures) -> bool
    ensures { result ≡ lists_nothing m.now }
{
    m.has.len() == 0
        && m.needs.len() == 0
        && m.denied.len() == 0
        && m.closed.len() == 0
        && m.prefer.len() == 0
        && m.robust.len() == 0
        && m.lengths.len() == 0
}

/// Adds the lines after the first one.
fn push_entries(text: &mut Vec<u8>, i: &Instance, m: &Measures) -> Result<(), Memory>
    requires { AreMeasures i.now m.now }
    ensures { OnOk result (text.new.items ≡ text.old.items ++ written (entry_lines (course_names i.now.courses) (room_names i.now.rooms) m.now)) }
{
    push_all_has(text, i, m)?;
    push_all_needs(text, i, m)?;
    push_all_denied(text, i, m)?;
    push_all_closures(text, i, m)?;
    push_all_preferences(text, i, m)?;
    push_all_thresholds(text, m)?;
    push_all_lengths(text, i, m)?;
    Ok(())
}

/// Whether features are numbered by first appearance in the order in which the lines are written, as
/// `write_measures` asks.
pub fn is_numbered_as_written(m: &Measures) -> bool
    ensures { result ≡ numbered_as_written m.now }
{
    let Some(count) = count_up(0, m.has.as_slice()) else {
        return false;
    };
    let Some(count) = count_up(count, m.needs.as_slice()) else {
        return false;
    };
    count == m.features.len()
}

/// How many features have appeared after these rows, where `count` had before; `None` where one of them is neither
/// one of those that have appeared nor the next.
fn count_up(count: usize, rows: &[(u32, u32)]) -> Option<usize>
    requires { count ≤ 2 ^ 32 }
    ensures count { result ≡ counted count rows.now }
    ensures few { IfSome result (λ n. n ≤ 2 ^ 32) }
{
    let mut found = count;
    for row in rows {
        let feature = row.1 as usize;
        if feature > found {
            return None;
        }
        found = found.max(feature + 1);
    }
    Some(found)
}
