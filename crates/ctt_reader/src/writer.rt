ghost use Rattle.std.specs.Prelude.{◌≡◌, ◌≤◌, ◌<◌, ◌++◌, ◌∷◌, [], length, map, codes, decimal, true, IfOk, OnOk, Ok};
ghost use Rattle.text_lines.specs.Written.{written, behind_blanks};
ghost use Rattle.ctt_reader.specs.Grammar.{ctt_of};
ghost use Rattle.ctt_reader.specs.Naming.{course_name};
ghost use Rattle.ctt_reader.specs.Promised.{IsInstance, is_curriculum, is_constraint, are_members};
ghost use Rattle.ctt_reader.specs.Writing.{text_of, header_lines, section_lines, course_line, room_line, curriculum_line, constraint_line};

use crate::instance::{Course, Curriculum, Instance, Room};
use crate::names::course_name;
use input_core::Memory;
use std::alloc::Global;
use text_lines::{
    push_field, push_last, push_last_number, push_next, push_next_number, push_number,
};
use values::Text;

/// The text of an instance that `read_ctt` can give: single blanks between fields, an empty line before the first
/// line of each section and before the last line, a line feed after each line. Reading it gives the instance back.
pub fn write_ctt(alloc: Global, i: &Instance) -> Result<Vec<u8>, Memory>
    requires { IsInstance i.now }
    ensures text { IfOk result (λ v. v.items ≡ text_of i.now) }
    ensures read_back { IfOk result (λ v. ctt_of v.items ≡ Ok i.now) }
{
    let mut text = Vec::new(alloc);
    push_header(&mut text, i)?;
    push_courses(&mut text, i)?;
    push_rooms(&mut text, i)?;
    push_curricula(&mut text, i)?;
    push_constraints(&mut text, i)?;
    push_section(&mut text, b"END.")?;
    Ok(text)
}

/// Adds the lines before the sections.
fn push_header(text: &mut Vec<u8>, i: &Instance) -> Result<(), Memory>
    requires { IsInstance i.now }
    ensures { OnOk result (text.new.items ≡ text.old.items ++ written (header_lines i.now)) }
{
    push_title(text, i.title.as_slice())?;
    push_count(text, b"Courses:", i.courses.len() as u32)?;
    push_count(text, b"Rooms:", i.rooms.len() as u32)?;
    push_count(text, b"Days:", i.days)?;
    push_count(text, b"Periods_per_day:", i.periods)?;
    push_count(text, b"Curricula:", i.curricula.len() as u32)?;
    push_count(text, b"Constraints:", i.constraints.len() as u32)?;
    Ok(())
}

/// Adds the line of the title.
fn push_title(text: &mut Vec<u8>, title: &[Text]) -> Result<(), Memory>
    ensures { OnOk result (text.new.items ≡ text.old.items ++ written ((codes "Name:" ∷ title.now) ∷ [])) }
{
    text.extend_from_slice(b"Name:")?;
    for word in title {
        push_next(text, word.as_bytes())?;
    }
    text.extend_from_slice(b"\n")?;
    Ok(())
}

/// Adds a line of a word and a number.
fn push_count(text: &mut Vec<u8>, word: &[u8], number: u32) -> Result<(), Memory>
    ensures { OnOk result (text.new.items ≡ text.old.items ++ written ((word.now ∷ decimal number ∷ []) ∷ [])) }
{
    push_field(text, word)?;
    push_last_number(text, number)
}

/// Adds an empty line and the first line of a section.
fn push_section(text: &mut Vec<u8>, word: &[u8]) -> Result<(), Memory>
    ensures { OnOk result (text.new.items ≡ text.old.items ++ written (section_lines word.now [])) }
{
    push_last(text, b"")?;
    push_last(text, word)
}

/// Adds the section of the courses.
fn push_courses(text: &mut Vec<u8>, i: &Instance) -> Result<(), Memory>
    ensures { OnOk result (text.new.items ≡ text.old.items ++ written (section_lines (codes "COURSES:") (map course_line i.now.courses))) }
{
    push_section(text, b"COURSES:")?;
    for course in i.courses.as_slice() {
        push_course(text, course)?;
    }
    Ok(())
}

fn push_course(text: &mut Vec<u8>, course: &Course) -> Result<(), Memory>
    ensures { OnOk result (text.new.items ≡ text.old.items ++ written (course_line course.now ∷ [])) }
{
    push_field(text, course.name.as_bytes())?;
    push_field(text, course.teacher.as_bytes())?;
    push_number(text, course.lectures)?;
    push_number(text, course.min_days)?;
    push_last_number(text, course.students)
}

/// Adds the section of the rooms.
fn push_rooms(text: &mut Vec<u8>, i: &Instance) -> Result<(), Memory>
    ensures { OnOk result (text.new.items ≡ text.old.items ++ written (section_lines (codes "ROOMS:") (map room_line i.now.rooms))) }
{
    push_section(text, b"ROOMS:")?;
    for room in i.rooms.as_slice() {
        push_room(text, room)?;
    }
    Ok(())
}

fn push_room(text: &mut Vec<u8>, room: &Room) -> Result<(), Memory>
    ensures { OnOk result (text.new.items ≡ text.old.items ++ written (room_line room.now ∷ [])) }
{
    push_field(text, room.name.as_bytes())?;
    push_last_number(text, room.capacity)
}

/// Adds the section of the curricula.
fn push_curricula(text: &mut Vec<u8>, i: &Instance) -> Result<(), Memory>
    requires { IsInstance i.now }
    ensures { OnOk result (text.new.items ≡ text.old.items ++ written (section_lines (codes "CURRICULA:") (map (curriculum_line i.now) i.now.curricula))) }
{
    push_section(text, b"CURRICULA:")?;
    for curriculum in i.curricula.as_slice() {
        push_curriculum(text, i, curriculum)?;
    }
    Ok(())
}

fn push_curriculum(text: &mut Vec<u8>, i: &Instance, curriculum: &Curriculum) -> Result<(), Memory>
    requires { is_curriculum (length i.now.courses) curriculum.now ≡ true }
    ensures { OnOk result (text.new.items ≡ text.old.items ++ written (curriculum_line i.now curriculum.now ∷ [])) }
{
    text.extend_from_slice(curriculum.name.as_bytes())?;
    push_next_number(text, curriculum.members.len() as u32)?;
    push_members(text, i, curriculum.members.as_slice())?;
    text.extend_from_slice(b"\n")?;
    Ok(())
}

/// Adds the names of the courses, each after a blank.
fn push_members(text: &mut Vec<u8>, i: &Instance, members: &[u32]) -> Result<(), Memory>
    requires { are_members (length i.now.courses) members.now ≡ true }
    ensures { OnOk result (text.new.items ≡ text.old.items ++ behind_blanks (map (course_name i.now) members.now)) }
{
    for member in members {
        push_next(text, course_name(i, *member).as_bytes())?;
    }
    Ok(())
}

/// Adds the section of the constraints.
fn push_constraints(text: &mut Vec<u8>, i: &Instance) -> Result<(), Memory>
    requires { IsInstance i.now }
    ensures { OnOk result (text.new.items ≡ text.old.items ++ written (section_lines (codes "UNAVAILABILITY_CONSTRAINTS:") (map (constraint_line i.now) i.now.constraints))) }
{
    push_section(text, b"UNAVAILABILITY_CONSTRAINTS:")?;
    for constraint in i.constraints.as_slice() {
        push_constraint(text, i, *constraint)?;
    }
    Ok(())
}

fn push_constraint(
    text: &mut Vec<u8>,
    i: &Instance,
    constraint: (u32, u32, u32),
) -> Result<(), Memory>
    requires { is_constraint (length i.now.courses) i.now.days i.now.periods constraint ≡ true }
    ensures { OnOk result (text.new.items ≡ text.old.items ++ written (constraint_line i.now constraint ∷ [])) }
{
    let (course, day, period) = constraint;
    push_field(text, course_name(i, course).as_bytes())?;
    push_number(text, day)?;
    push_last_number(text, period)
}
