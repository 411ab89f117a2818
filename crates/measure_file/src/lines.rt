ghost use Rattle.std.specs.Prelude.{◌≡◌, ◌<◌, ◌++◌, ◌∷◌, [], length, map, true, IfOk, OnOk, Ok};
ghost use Rattle.std.specs.Fmt.{signed_decimal};
ghost use Rattle.std.specs.List.{list_all};
ghost use Rattle.text_lines.specs.Written.{written};
ghost use Rattle.ctt_reader.specs.Entries.{course_names, room_names};
ghost use Rattle.measure_file.specs.Promised.{is_pair, is_triple, is_preference, is_length};
ghost use Rattle.measure_file.specs.Writing.{name_at, version, has_line, need_line, deny_line, closed_line, prefer_line, robust_line, length_line, version_line};

use crate::measures::Measures;
use ctt_reader::Instance;
use input_core::Memory;
use itoa::Buffer;
use text_lines::{push_field, push_last, push_last_number, push_number};

/// Adds a `has` line.
fn push_has(text: &mut Vec<u8>, i: &Instance, m: &Measures, row: (u32, u32)) -> Result<(), Memory>
    requires { is_pair (length i.now.rooms) (length m.now.features) row ≡ true }
    ensures { OnOk result (text.new.items ≡ text.old.items ++ written (has_line (room_names i.now.rooms) m.now.features row ∷ [])) }
{
    push_field(text, b"has")?;
    push_field(text, room_name(i, row.0))?;
    push_last(text, feature_name(m, row.1))
}

/// Adds the `has` lines.
pub fn push_all_has(text: &mut Vec<u8>, i: &Instance, m: &Measures) -> Result<(), Memory>
    requires { list_all (is_pair (length i.now.rooms) (length m.now.features)) m.now.has ≡ true }
    ensures { OnOk result (text.new.items ≡ text.old.items ++ written (map (has_line (room_names i.now.rooms) m.now.features) m.now.has)) }
{
    for row in m.has.as_slice() {
        push_has(text, i, m, *row)?;
    }
    Ok(())
}

/// Adds a `need` line.
fn push_need(text: &mut Vec<u8>, i: &Instance, m: &Measures, row: (u32, u32)) -> Result<(), Memory>
    requires { is_pair (length i.now.courses) (length m.now.features) row ≡ true }
    ensures { OnOk result (text.new.items ≡ text.old.items ++ written (need_line (course_names i.now.courses) m.now.features row ∷ [])) }
{
    push_field(text, b"need")?;
    push_field(text, course_name(i, row.0))?;
    push_last(text, feature_name(m, row.1))
}

/// Adds the `need` lines.
pub fn push_all_needs(text: &mut Vec<u8>, i: &Instance, m: &Measures) -> Result<(), Memory>
    requires { list_all (is_pair (length i.now.courses) (length m.now.features)) m.now.needs ≡ true }
    ensures { OnOk result (text.new.items ≡ text.old.items ++ written (map (need_line (course_names i.now.courses) m.now.features) m.now.needs)) }
{
    for row in m.needs.as_slice() {
        push_need(text, i, m, *row)?;
    }
    Ok(())
}

/// Adds a `deny` line.
fn push_denied(text: &mut Vec<u8>, i: &Instance, row: (u32, u32)) -> Result<(), Memory>
    requires { is_pair (length i.now.courses) (length i.now.rooms) row ≡ true }
    ensures { OnOk result (text.new.items ≡ text.old.items ++ written (deny_line (course_names i.now.courses) (room_names i.now.rooms) row ∷ [])) }
{
    push_field(text, b"deny")?;
    push_field(text, course_name(i, row.0))?;
    push_last(text, room_name(i, row.1))
}

/// Adds the `deny` lines.
pub fn push_all_denied(text: &mut Vec<u8>, i: &Instance, m: &Measures) -> Result<(), Memory>
    requires { list_all (is_pair (length i.now.courses) (length i.now.rooms)) m.now.denied ≡ true }
    ensures { OnOk result (text.new.items ≡ text.old.items ++ written (map (deny_line (course_names i.now.courses) (room_names i.now.rooms)) m.now.denied)) }
{
    for row in m.denied.as_slice() {
        push_denied(text, i, *row)?;
    }
    Ok(())
}

/// Adds a `closed` line.
fn push_closure(text: &mut Vec<u8>, i: &Instance, row: (u32, u32, u32)) -> Result<(), Memory>
    requires { is_triple (length i.now.rooms) i.now.days i.now.periods row ≡ true }
    ensures { OnOk result (text.new.items ≡ text.old.items ++ written (closed_line (room_names i.now.rooms) row ∷ [])) }
{
    push_field(text, b"closed")?;
    push_field(text, room_name(i, row.0))?;
    push_number(text, row.1)?;
    push_last_number(text, row.2)
}

/// Adds the `closed` lines.
pub fn push_all_closures(text: &mut Vec<u8>, i: &Instance, m: &Measures) -> Result<(), Memory>
    requires { list_all (is_triple (length i.now.rooms) i.now.days i.now.periods) m.now.closed ≡ true }
    ensures { OnOk result (text.new.items ≡ text.old.items ++ written (map (closed_line (room_names i.now.rooms)) m.now.closed)) }
{
    for row in m.closed.as_slice() {
        push_closure(text, i, *row)?;
    }
    Ok(())
}

/// Adds a `prefer` line.
fn push_preference(text: &mut Vec<u8>, i: &Instance, row: (u32, u32, i32)) -> Result<(), Memory>
    requires { is_preference (length i.now.courses) (length i.now.rooms) row ≡ true }
    ensures { OnOk result (text.new.items ≡ text.old.items ++ written (prefer_line (course_names i.now.courses) (room_names i.now.rooms) row ∷ [])) }
{
    push_field(text, b"prefer")?;
    push_field(text, course_name(i, row.0))?;
    push_field(text, room_name(i, row.1))?;
    push_points(text, row.2)
}

/// Adds the `prefer` lines.
pub fn push_all_preferences(text: &mut Vec<u8>, i: &Instance, m: &Measures) -> Result<(), Memory>
    requires { list_all (is_preference (length i.now.courses) (length i.now.rooms)) m.now.prefer ≡ true }
    ensures { OnOk result (text.new.items ≡ text.old.items ++ written (map (prefer_line (course_names i.now.courses) (room_names i.now.rooms)) m.now.prefer)) }
{
    for row in m.prefer.as_slice() {
        push_preference(text, i, *row)?;
    }
    Ok(())
}

/// Adds a `robust` line.
fn push_threshold(text: &mut Vec<u8>, row: (u32, i32)) -> Result<(), Memory>
    ensures { OnOk result (text.new.items ≡ text.old.items ++ written (robust_line row ∷ [])) }
{
    push_field(text, b"robust")?;
    push_number(text, row.0)?;
    push_points(text, row.1)
}

/// Adds the `robust` lines.
pub fn push_all_thresholds(text: &mut Vec<u8>, m: &Measures) -> Result<(), Memory>
    ensures { OnOk result (text.new.items ≡ text.old.items ++ written (map (robust_line) m.now.robust)) }
{
    for row in m.robust.as_slice() {
        push_threshold(text, *row)?;
    }
    Ok(())
}

/// Adds a `length` line.
fn push_length(text: &mut Vec<u8>, i: &Instance, row: (u32, u32)) -> Result<(), Memory>
    requires { is_length (length i.now.courses) row ≡ true }
    ensures { OnOk result (text.new.items ≡ text.old.items ++ written (length_line (course_names i.now.courses) row ∷ [])) }
{
    push_field(text, b"length")?;
    push_field(text, course_name(i, row.0))?;
    push_last_number(text, row.1)
}

/// Adds the `length` lines.
pub fn push_all_lengths(text: &mut Vec<u8>, i: &Instance, m: &Measures) -> Result<(), Memory>
    requires { list_all (is_length (length i.now.courses)) m.now.lengths ≡ true }
    ensures { OnOk result (text.new.items ≡ text.old.items ++ written (map (length_line (course_names i.now.courses)) m.now.lengths)) }
{
    for row in m.lengths.as_slice() {
        push_length(text, i, *row)?;
    }
    Ok(())
}

/// Adds points as the last field of a line, and the line feed.
fn push_points(text: &mut Vec<u8>, points: i32) -> Result<(), Memory>
    ensures { OnOk result (text.new.items ≡ text.old.items ++ (signed_decimal points ++ 10 ∷ [])) }
{
    let mut buffer = Buffer::new();
    push_last(text, buffer.format(points).as_bytes())
}

/// Adds the line that names the version.
pub fn push_version(text: &mut Vec<u8>, m: &Measures) -> Result<(), Memory>
    ensures { OnOk result (text.new.items ≡ text.old.items ++ written (version_line m.now ∷ [])) }
{
    push_field(text, b"measures")?;
    push_last(text, version(m))
}

/// The version: 2 exactly where there are lengths.
fn version(m: &Measures) -> &[u8]
    ensures { result.now ≡ version m.now }
{
    if m.lengths.len() == 0 { b"1" } else { b"2" }
}

/// The name of a course.
fn course_name(i: &Instance, course: u32) -> &[u8]
    requires { course < length i.now.courses }
    ensures { result.now ≡ name_at (course_names i.now.courses) course }
{
    i.courses.as_slice()[course as usize].name.as_bytes()
}

/// The name of a room.
fn room_name(i: &Instance, room: u32) -> &[u8]
    requires { room < length i.now.rooms }
    ensures { result.now ≡ name_at (room_names i.now.rooms) room }
{
    i.rooms.as_slice()[room as usize].name.as_bytes()
}

/// The name of a feature.
fn feature_name(m: &Measures, feature: u32) -> &[u8]
    requires { feature < length m.now.features }
    ensures { result.now ≡ name_at m.now.features feature }
{
    m.features.as_slice()[feature as usize].as_bytes()
}
