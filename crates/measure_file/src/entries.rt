ghost use Rattle.std.specs.Prelude.{◌≡◌, ◌≤◌, length, IfOk, MatchResult, Ok, Err, true};
ghost use Rattle.std.specs.List.{list_all};
ghost use Rattle.input_core.specs.Lines.{is_graphic};
ghost use Rattle.measure_file.specs.Grammar.{two_fields, three_fields, points_of, room_feature, course_feature, course_room, closure_of, preference_of, threshold_of, length_of};
ghost use Rattle.measure_file.specs.Steps.{AreFew};

use crate::known::Known;
use ctt_reader::{read_course, read_room};
use input_core::{Fields, LineKind, read_name, read_number_below, read_number_in};

/// The only two fields that are left.
fn two_fields<'a>(fields: &mut Fields<'a>) -> Result<(&'a [u8], &'a [u8]), LineKind>
    ensures value { MatchResult result (λ f. two_fields fields.old ≡ Ok (f.0.now, f.1.now)) (λ kind. two_fields fields.old ≡ Err kind) }
    ensures graphic { IfOk result (λ f. list_all is_graphic f.1.now ≡ true) }
{
    let Some(first) = fields.next() else {
        return Err(LineKind::Fields);
    };
    let Some(second) = fields.next() else {
        return Err(LineKind::Fields);
    };
    if fields.next().is_some() {
        return Err(LineKind::Fields);
    }
    Ok((first, second))
}

/// The only three fields that are left.
fn three_fields<'a>(fields: &mut Fields<'a>) -> Result<(&'a [u8], &'a [u8], &'a [u8]), LineKind>
    ensures { MatchResult result (λ f. three_fields fields.old ≡ Ok (f.0.now, f.1.now, f.2.now)) (λ kind. three_fields fields.old ≡ Err kind) }
{
    let Some(first) = fields.next() else {
        return Err(LineKind::Fields);
    };
    let Some(second) = fields.next() else {
        return Err(LineKind::Fields);
    };
    let Some(third) = fields.next() else {
        return Err(LineKind::Fields);
    };
    if fields.next().is_some() {
        return Err(LineKind::Fields);
    }
    Ok((first, second, third))
}

/// A number or `-` and a number, of at most a million.
fn read_points(field: &[u8]) -> Result<i32, LineKind>
    ensures { result ≡ points_of field.now }
{
    if let Some(b'-') = field.first() {
        let (_, digits) = field.split_at(1);
        Ok(-(read_number_in(0, 1_000_000, digits)? as i32))
    } else {
        Ok(read_number_in(0, 1_000_000, field)? as i32)
    }
}

/// After `has`: a room and the name of a feature.
pub fn read_room_feature<'a>(
    known: &Known,
    fields: &mut Fields<'a>,
) -> Result<(u32, &'a [u8]), LineKind>
    requires { AreFew known.now }
    ensures value { MatchResult result (λ x. room_feature known.now fields.old ≡ Ok (x.0, x.1.now)) (λ kind. room_feature known.now fields.old ≡ Err kind) }
    ensures graphic { IfOk result (λ x. list_all is_graphic x.1.now ≡ true) }
{
    let (room, feature) = two_fields(fields)?;
    let room = read_room(&known.rooms, room)?;
    read_name(feature)?;
    Ok((room, feature))
}

/// After `need`: a course and the name of a feature.
pub fn read_course_feature<'a>(
    known: &Known,
    fields: &mut Fields<'a>,
) -> Result<(u32, &'a [u8]), LineKind>
    requires { AreFew known.now }
    ensures value { MatchResult result (λ x. course_feature known.now fields.old ≡ Ok (x.0, x.1.now)) (λ kind. course_feature known.now fields.old ≡ Err kind) }
    ensures graphic { IfOk result (λ x. list_all is_graphic x.1.now ≡ true) }
{
    let (course, feature) = two_fields(fields)?;
    let course = read_course(&known.courses, course)?;
    read_name(feature)?;
    Ok((course, feature))
}

/// After `deny`: a course and a room.
pub fn read_course_room(known: &Known, fields: &mut Fields) -> Result<(u32, u32), LineKind>
    requires { AreFew known.now }
    ensures { result ≡ course_room known.now fields.old }
{
    let (course, room) = two_fields(fields)?;
    let course = read_course(&known.courses, course)?;
    let room = read_room(&known.rooms, room)?;
    Ok((course, room))
}

/// After `closed`: a room, a day and a period.
pub fn read_closure(known: &Known, fields: &mut Fields) -> Result<(u32, u32, u32), LineKind>
    requires { AreFew known.now }
    ensures { result ≡ closure_of known.now fields.old }
{
    let (room, day, period) = three_fields(fields)?;
    let room = read_room(&known.rooms, room)?;
    let day = read_number_below(known.days, day)?;
    let period = read_number_below(known.periods, period)?;
    Ok((room, day, period))
}

/// After `prefer`: a course, a room and points.
pub fn read_preference(known: &Known, fields: &mut Fields) -> Result<(u32, u32, i32), LineKind>
    requires { AreFew known.now }
    ensures { result ≡ preference_of known.now fields.old }
{
    let (course, room, points) = three_fields(fields)?;
    let course = read_course(&known.courses, course)?;
    let room = read_room(&known.rooms, room)?;
    let points = read_points(points)?;
    Ok((course, room, points))
}

/// After `robust`: a threshold and points.
pub fn read_threshold(fields: &mut Fields) -> Result<(u32, i32), LineKind>
    ensures { result ≡ threshold_of fields.old }
{
    let (threshold, points) = two_fields(fields)?;
    let threshold = read_number_in(0, 1_000, threshold)?;
    let points = read_points(points)?;
    Ok((threshold, points))
}

/// After `length`: a course and a number of periods.
pub fn read_length(known: &Known, fields: &mut Fields) -> Result<(u32, u32), LineKind>
    requires { AreFew known.now }
    ensures { result ≡ length_of known.now fields.old }
{
    let (course, periods) = two_fields(fields)?;
    let course = read_course(&known.courses, course)?;
    let periods = read_number_in(1, 48, periods)?;
    Ok((course, periods))
}
