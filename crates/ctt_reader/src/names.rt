ghost use Rattle.std.specs.Prelude.{◌≡◌, true, ◌<◌, ◌≤◌, ◌^◌, [], ◌++◌, ◌∷◌, length, not, IfOk, OnOk, OnErr};
ghost use Rattle.ctt_reader.specs.Entries.{course_names, room_names};
ghost use Rattle.ctt_reader.specs.Promised.{are_different};
ghost use Rattle.ctt_reader.specs.Naming.{course_name, room_name};
ghost use Rattle.ctt_reader.specs.Names.{place_of, has_name, with_name, course_at, room_at};

use crate::instance::Instance;
use indexmap::IndexSet;
use input_core::{LineKind, Memory, read_name};
use std::alloc::Global;
use std::marker::Model;

/// Different names in their order, each found by a look-up. Contracts see the list of them.
#[derive(Drop)]
pub struct Names<'a> {
    set: IndexSet<&'a [u8]>,
}

impl<'a> Model for Names<'a> {
    ghost use Rattle.std.specs.Prelude.{List, ℕ, map};

    ghost Value = { List (List ℕ) };

    ghost view = { λ n. map (λ key. key.now) n.set.keys };
}

impl<'a> Names<'a> {
    /// No names.
    pub fn new(alloc: Global) -> Names<'a>
        ensures { result ≡ [] }
    {
        Names {
            set: IndexSet::new(alloc),
        }
    }

    /// Adds a name at the end, where it is a new one, and says whether it is.
    pub fn add(&mut self, name: &'a [u8]) -> Result<bool, Memory>
        ensures fresh { IfOk result (λ fresh. fresh ≡ not (has_name name.entry.now self.old)) }
        ensures names { OnOk result (self.new ≡ with_name self.old name.entry.now) }
        ensures kept { OnErr result (self.new ≡ self.old) }
    {
        let Ok(fresh) = self.set.insert(name) else {
            return Err(Memory);
        };
        Ok(fresh)
    }

    /// The number of a name, from 0.
    pub fn find(&self, name: &[u8]) -> Option<u32>
        requires { length self.now < 2 ^ 32 }
        ensures { result ≡ place_of name.now self.now }
    {
        let place = self.set.get_index_of(name)?;
        Some(place as u32)
    }
}

/// The name of the course with this number.
pub fn course_name(instance: &Instance, course: u32) -> &str
    requires { course < length instance.now.courses }
    ensures { result.now ≡ course_name instance.now course }
{
    instance.courses.as_slice()[course as usize].name.as_str()
}

/// The name of the room of a choice's entry: 0 is no room, written `-`, else the room's number + 1.
pub fn room_name(instance: &Instance, entry: u32) -> &str
    requires { entry ≤ length instance.now.rooms }
    ensures { result.now ≡ room_name instance.now entry }
{
    if entry == 0 {
        "-"
    } else {
        instance.rooms.as_slice()[(entry - 1) as usize]
            .name
            .as_str()
    }
}

/// The names of the courses of an instance, which differ.
pub fn names_of_courses<'a>(alloc: Global, i: &'a Instance) -> Result<Names<'a>, Memory>
    requires { are_different (course_names i.now.courses) ≡ true }
    ensures { IfOk result (λ names. names ≡ course_names i.now.courses) }
{
    let mut names = Names::new(alloc);
    for course in i.courses.as_slice() {
        names.add(course.name.as_bytes())?;
    }
    Ok(names)
}

/// The names of the rooms of an instance, which differ.
pub fn names_of_rooms<'a>(alloc: Global, i: &'a Instance) -> Result<Names<'a>, Memory>
    requires { are_different (room_names i.now.rooms) ≡ true }
    ensures { IfOk result (λ names. names ≡ room_names i.now.rooms) }
{
    let mut names = Names::new(alloc);
    for room in i.rooms.as_slice() {
        names.add(room.name.as_bytes())?;
    }
    Ok(names)
}

/// The number of the course that the field names: `NameLength`, else `UnknownCourse`.
pub fn read_course(courses: &Names, field: &[u8]) -> Result<u32, LineKind>
    requires { length courses.now < 2 ^ 32 }
    ensures { result ≡ course_at courses.now field.now }
{
    read_name(field)?;
    courses.find(field).ok_or(LineKind::UnknownCourse)
}

/// The number of the room that the field names: `NameLength`, else `UnknownRoom`.
pub fn read_room(rooms: &Names, field: &[u8]) -> Result<u32, LineKind>
    requires { length rooms.now < 2 ^ 32 }
    ensures { result ≡ room_at rooms.now field.now }
{
    read_name(field)?;
    rooms.find(field).ok_or(LineKind::UnknownRoom)
}
