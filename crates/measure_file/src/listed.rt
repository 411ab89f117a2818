ghost use Rattle.std.specs.Prelude.{◌≡◌, ◌-◌, length, slice_get, IfOk};
ghost use Rattle.measure_file.specs.Grammar.{no_measures, entry, threshold_entry, is_above};
ghost use Rattle.measure_file.specs.declared.words.Word.TheVariants.{Has, Need, Deny, Closed, Prefer, Length};
ghost use Rattle.measure_file.specs.Steps.{Adds, AreFew, listed_in};

use crate::entries::{
    read_closure, read_course_feature, read_course_room, read_length, read_preference,
    read_room_feature, read_threshold,
};
use crate::faults::EntryFault;
use crate::features::Features;
use crate::known::Known;
use crate::measures::Measures;
use crate::once::{Lengths, Preferences};
use crate::words::Word;
use input_core::{Fields, LineKind, Memory};
use std::alloc::Global;
use values::Items;

/// The most thresholds.
const THRESHOLDS: usize = 100;

/// What the lines so far list.
#[derive(Drop)]
pub struct Listed<'a> {
    pub features: Features<'a>,
    pub has: Items<(u32, u32)>,
    pub needs: Items<(u32, u32)>,
    pub denied: Items<(u32, u32)>,
    pub closed: Items<(u32, u32, u32)>,
    pub prefer: Preferences,
    pub robust: Items<(u32, i32)>,
    pub lengths: Lengths,
}

impl<'a> Listed<'a> {
    /// Nothing.
    pub fn new(alloc: Global) -> Result<Listed<'a>, Memory>
        ensures { IfOk result (λ listed. listed_in listed ≡ no_measures) }
    {
        let prefer = Preferences::new(alloc)?;
        let lengths = Lengths::new(alloc)?;
        Ok(Listed {
            features: Features::new(alloc),
            has: Items::new(alloc),
            needs: Items::new(alloc),
            denied: Items::new(alloc),
            closed: Items::new(alloc),
            prefer,
            robust: Items::new(alloc),
            lengths,
        })
    }

    /// What is listed, without the tables.
    pub fn into_measures(self) -> Measures
        ensures { result ≡ listed_in self.entry }
    {
        let Listed {
            features,
            has,
            needs,
            denied,
            closed,
            prefer,
            robust,
            lengths,
        } = self;
        Measures {
            features: features.into_texts(),
            has,
            needs,
            denied,
            closed,
            prefer: prefer.into_rows(),
            robust,
            lengths: lengths.into_rows(),
        }
    }
}

/// Adds the line that begins with this word and has these fields after it.
pub fn add_entry<'a>(
    known: &Known,
    word: Word,
    fields: &mut Fields<'a>,
    listed: &mut Listed<'a>,
) -> Result<(), EntryFault>
    requires { AreFew known.now }
    ensures { Adds (entry known.now (listed_in listed.old) word fields.old) result (listed_in listed.new) }
{
    match word {
        Word::Has => add_has(known, fields, listed),
        Word::Need => add_need(known, fields, listed),
        Word::Deny => add_denied(known, fields, listed),
        Word::Closed => add_closure(known, fields, listed),
        Word::Prefer => add_preference(known, fields, listed),
        Word::Robust => add_threshold(fields, listed),
        Word::Length => add_length(known, fields, listed),
    }
}

fn add_has<'a>(
    known: &Known,
    fields: &mut Fields<'a>,
    listed: &mut Listed<'a>,
) -> Result<(), EntryFault>
    requires { AreFew known.now }
    ensures { Adds (entry known.now (listed_in listed.old) Has fields.old) result (listed_in listed.new) }
{
    let (room, feature) = read_room_feature(known, fields)?;
    let feature = listed.features.number(feature)?;
    listed.has.push((room, feature))?;
    Ok(())
}

fn add_need<'a>(
    known: &Known,
    fields: &mut Fields<'a>,
    listed: &mut Listed<'a>,
) -> Result<(), EntryFault>
    requires { AreFew known.now }
    ensures { Adds (entry known.now (listed_in listed.old) Need fields.old) result (listed_in listed.new) }
{
    let (course, feature) = read_course_feature(known, fields)?;
    let feature = listed.features.number(feature)?;
    listed.needs.push((course, feature))?;
    Ok(())
}

fn add_denied(known: &Known, fields: &mut Fields, listed: &mut Listed) -> Result<(), EntryFault>
    requires { AreFew known.now }
    ensures { Adds (entry known.now (listed_in listed.old) Deny fields.old) result (listed_in listed.new) }
{
    let pair = read_course_room(known, fields)?;
    listed.denied.push(pair)?;
    Ok(())
}

fn add_closure(known: &Known, fields: &mut Fields, listed: &mut Listed) -> Result<(), EntryFault>
    requires { AreFew known.now }
    ensures { Adds (entry known.now (listed_in listed.old) Closed fields.old) result (listed_in listed.new) }
{
    let closure = read_closure(known, fields)?;
    listed.closed.push(closure)?;
    Ok(())
}

fn add_preference(known: &Known, fields: &mut Fields, listed: &mut Listed) -> Result<(), EntryFault>
    requires { AreFew known.now }
    ensures { Adds (entry known.now (listed_in listed.old) Prefer fields.old) result (listed_in listed.new) }
{
    let row = read_preference(known, fields)?;
    listed.prefer.add(row)
}

fn add_threshold(fields: &mut Fields, listed: &mut Listed) -> Result<(), EntryFault>
    ensures { Adds (threshold_entry (listed_in listed.old) fields.old) result (listed_in listed.new) }
{
    let row = read_threshold(fields)?;
    if listed.robust.len() >= THRESHOLDS {
        return Err(EntryFault::Kind(LineKind::TooMany { limit: 100 }));
    }
    if !is_above(listed.robust.as_slice(), row.0) {
        return Err(EntryFault::Kind(LineKind::Order));
    }
    listed.robust.push(row)?;
    Ok(())
}

/// Whether the threshold is above the last of these.
fn is_above(rows: &[(u32, i32)], threshold: u32) -> bool
    ensures { result ≡ is_above (slice_get rows.now (length rows.now - 1)) threshold }
{
    match rows.last() {
        Some(last) => last.0 < threshold,
        None => true,
    }
}

fn add_length(known: &Known, fields: &mut Fields, listed: &mut Listed) -> Result<(), EntryFault>
    requires { AreFew known.now }
    ensures { Adds (entry known.now (listed_in listed.old) Length fields.old) result (listed_in listed.new) }
{
    let row = read_length(known, fields)?;
    listed.lengths.add(row)
}
