ghost use Rattle.std.specs.Prelude.{◌≡◌, ◌≤◌, ◌<◌, ◌^◌, ◌++◌, ◌∷◌, [], length, map, IfOk, IfSome, Ok, Err, MatchResult, true};
ghost use Rattle.std.specs.List.{list_all};
ghost use Rattle.input_core.specs.Lines.{is_graphic};
ghost use Rattle.input_core.specs.Fields.{Gives, in_line};
ghost use Rattle.ctt_reader.specs.Entries.{course_of, course_in, fresh_course, room_of, room_in, fresh_room, members_of, curriculum_of, curriculum_head, checked_head, is_other_count, constraint_of, constraint_in};
ghost use Rattle.ctt_reader.specs.Steps.{AddsName};

use crate::instance::{Course, Curriculum, Room};
use crate::names::{Names, read_course};
use input_core::{
    Fields, LineFault, LineKind, Memory, Row, TextFault, read_name, read_number_below,
    read_number_in, text_of_field,
};
use std::alloc::Global;
use values::Items;

/// A course line as it stands in the text.
#[derive(Clone, Copy)]
struct CourseLine<'a> {
    name: &'a [u8],
    teacher: &'a [u8],
    lectures: u32,
    min_days: u32,
    students: u32,
}

/// A room line as it stands in the text.
#[derive(Clone, Copy)]
struct RoomLine<'a> {
    name: &'a [u8],
    capacity: u32,
}

/// The course of a line; its name is added to those before it.
pub fn read_course_entry<'a>(
    alloc: Global,
    names: &mut Names<'a>,
    line: u64,
    fields: &mut Fields<'a>,
) -> Result<Course, TextFault>
    ensures course { Gives (λ c. c) result (in_line line (fresh_course names.old fields.old)) }
    ensures names { IfOk result (λ c. names.new ≡ names.old ++ c.name ∷ []) }
{
    let course = match course_line(fields) {
        Ok(course) => course,
        Err(kind) => return Err(TextFault::Line(LineFault { line, kind })),
    };
    add_name(names, line, course.name)?;
    let name = text_of_field(alloc, course.name)?;
    let teacher = text_of_field(alloc, course.teacher)?;
    Ok(Course {
        name,
        teacher,
        lectures: course.lectures,
        min_days: course.min_days,
        students: course.students,
    })
}

/// Adds a name, which has to be a new one.
fn add_name<'a>(names: &mut Names<'a>, line: u64, name: &'a [u8]) -> Result<(), TextFault>
    ensures { AddsName names.old name.entry.now line result names.new }
{
    if names.add(name)? {
        Ok(())
    } else {
        Err(TextFault::Line(LineFault {
            line,
            kind: LineKind::Repeated,
        }))
    }
}

fn course_line<'a>(fields: &mut Fields<'a>) -> Result<CourseLine<'a>, LineKind>
    ensures value { MatchResult result (λ l. course_of fields.old ≡ Ok (record { name = l.name.now; teacher = l.teacher.now; lectures = l.lectures; min_days = l.min_days; students = l.students })) (λ kind. course_of fields.old ≡ Err kind) }
    ensures graphic { IfOk result (λ l. (list_all is_graphic l.name.now ≡ true) × (list_all is_graphic l.teacher.now ≡ true)) }
{
    let Some(name) = fields.next() else {
        return Err(LineKind::Fields);
    };
    let Some(teacher) = fields.next() else {
        return Err(LineKind::Fields);
    };
    let Some(lectures) = fields.next() else {
        return Err(LineKind::Fields);
    };
    let Some(min_days) = fields.next() else {
        return Err(LineKind::Fields);
    };
    let Some(students) = fields.next() else {
        return Err(LineKind::Fields);
    };
    if fields.next().is_some() {
        return Err(LineKind::Fields);
    }
    let (lectures, min_days, students) = course_numbers(
        name, teacher, lectures, min_days, students,
    )?;
    Ok(CourseLine {
        name,
        teacher,
        lectures,
        min_days,
        students,
    })
}

/// The three numbers of a course, after its two names.
fn course_numbers(
    name: &[u8],
    teacher: &[u8],
    lectures: &[u8],
    min_days: &[u8],
    students: &[u8],
) -> Result<(u32, u32, u32), LineKind>
    ensures { MatchResult result (λ n. course_in name.now teacher.now lectures.now min_days.now students.now ≡ Ok (record { name = name.now; teacher = teacher.now; lectures = n.0; min_days = n.1; students = n.2 })) (λ kind. course_in name.now teacher.now lectures.now min_days.now students.now ≡ Err kind) }
{
    read_name(name)?;
    read_name(teacher)?;
    let lectures = read_number_in(0, 1_000, lectures)?;
    let min_days = read_number_in(0, 1_000, min_days)?;
    let students = read_number_in(0, 1_000_000, students)?;
    Ok((lectures, min_days, students))
}

/// The room of a line; its name is added to those before it.
pub fn read_room_entry<'a>(
    alloc: Global,
    names: &mut Names<'a>,
    line: u64,
    fields: &mut Fields<'a>,
) -> Result<Room, TextFault>
    ensures room { Gives (λ r. r) result (in_line line (fresh_room names.old fields.old)) }
    ensures names { IfOk result (λ r. names.new ≡ names.old ++ r.name ∷ []) }
{
    let room = match room_line(fields) {
        Ok(room) => room,
        Err(kind) => return Err(TextFault::Line(LineFault { line, kind })),
    };
    add_name(names, line, room.name)?;
    let name = text_of_field(alloc, room.name)?;
    Ok(Room {
        name,
        capacity: room.capacity,
    })
}

fn room_line<'a>(fields: &mut Fields<'a>) -> Result<RoomLine<'a>, LineKind>
    ensures value { MatchResult result (λ l. room_of fields.old ≡ Ok (record { name = l.name.now; capacity = l.capacity })) (λ kind. room_of fields.old ≡ Err kind) }
    ensures graphic { IfOk result (λ l. list_all is_graphic l.name.now ≡ true) }
{
    let Some(name) = fields.next() else {
        return Err(LineKind::Fields);
    };
    let Some(capacity) = fields.next() else {
        return Err(LineKind::Fields);
    };
    if fields.next().is_some() {
        return Err(LineKind::Fields);
    }
    let capacity = room_capacity(name, capacity)?;
    Ok(RoomLine { name, capacity })
}

/// The capacity of a room, after its name.
fn room_capacity(name: &[u8], capacity: &[u8]) -> Result<u32, LineKind>
    ensures { MatchResult result (λ n. room_in name.now capacity.now ≡ Ok (record { name = name.now; capacity = n })) (λ kind. room_in name.now capacity.now ≡ Err kind) }
{
    read_name(name)?;
    if name == b"-".as_slice() {
        return Err(LineKind::Dash);
    }
    read_number_in(0, 1_000_000, capacity)
}

/// The curriculum of a line.
pub fn read_curriculum_entry(
    alloc: Global,
    courses: &Names,
    line: u64,
    fields: &mut Fields,
) -> Result<Curriculum, TextFault>
    requires { length courses.now < 2 ^ 32 }
    ensures { Gives (λ c. c) result (in_line line (curriculum_of courses.now fields.old)) }
{
    let name = match curriculum_head(fields) {
        Ok(name) => name,
        Err(kind) => return Err(TextFault::Line(LineFault { line, kind })),
    };
    let members = read_members(alloc, courses, line, fields)?;
    let name = text_of_field(alloc, name)?;
    Ok(Curriculum { name, members })
}

/// Takes the name and the number of members, which has to be that of the fields after it.
fn curriculum_head<'a>(fields: &mut Fields<'a>) -> Result<&'a [u8], LineKind>
    ensures head { MatchResult result (λ name. curriculum_head fields.old ≡ Ok (name.now, fields.new)) (λ kind. curriculum_head fields.old ≡ Err kind) }
    ensures graphic { IfOk result (λ name. list_all is_graphic name.now ≡ true) }
{
    let Some(name) = fields.next() else {
        return Err(LineKind::Fields);
    };
    let Some(count) = fields.next() else {
        return Err(LineKind::Fields);
    };
    check_head(name, count, fields.count())?;
    Ok(name)
}

fn check_head(name: &[u8], count: &[u8], found: usize) -> Result<(), LineKind>
    ensures { result ≡ checked_head name.now count.now found }
{
    let count = read_number_in(0, 100, count);
    if is_other_count(&count, found) {
        return Err(LineKind::Fields);
    }
    read_name(name)?;
    count?;
    Ok(())
}

fn is_other_count(count: &Result<u32, LineKind>, found: usize) -> bool
    ensures { result ≡ is_other_count count.now found }
{
    match count {
        Ok(wanted) => *wanted as usize != found,
        Err(_) => false,
    }
}

/// The courses that the fields name.
fn read_members(
    alloc: Global,
    courses: &Names,
    line: u64,
    fields: &mut Fields,
) -> Result<Items<u32>, TextFault>
    requires { length courses.now < 2 ^ 32 }
    ensures { Gives (λ members. members) result (in_line line (members_of courses.now fields.old)) }
{
    let mut members = Items::new(alloc);
    while let Some(field) = fields.next() {
        match read_course(courses, field) {
            Ok(member) => members.push(member)?,
            Err(kind) => return Err(TextFault::Line(LineFault { line, kind })),
        }
    }
    Ok(members)
}

/// The constraint of a line: a course, a day and a period.
pub fn read_constraint(
    courses: &Names,
    days: u32,
    periods: u32,
    fields: &mut Fields,
) -> Result<(u32, u32, u32), LineKind>
    requires { length courses.now < 2 ^ 32 }
    ensures { result ≡ constraint_of courses.now days periods fields.old }
{
    let Some(course) = fields.next() else {
        return Err(LineKind::Fields);
    };
    let Some(day) = fields.next() else {
        return Err(LineKind::Fields);
    };
    let Some(period) = fields.next() else {
        return Err(LineKind::Fields);
    };
    if fields.next().is_some() {
        return Err(LineKind::Fields);
    }
    constraint_in(courses, days, periods, course, day, period)
}

fn constraint_in(
    courses: &Names,
    days: u32,
    periods: u32,
    course: &[u8],
    day: &[u8],
    period: &[u8],
) -> Result<(u32, u32, u32), LineKind>
    requires { length courses.now < 2 ^ 32 }
    ensures { result ≡ constraint_in courses.now days periods course.now day.now period.now }
{
    let course = read_course(courses, course)?;
    let day = read_number_below(days, day)?;
    let period = read_number_below(periods, period)?;
    Ok((course, day, period))
}
