ghost use Rattle.std.specs.Prelude.{◌≡◌, ◌≤◌, ◌<◌, ◌^◌, length, codes, IfOk, Ok, Err, true};
ghost use Rattle.input_core.specs.Fields.{Gives};
ghost use Rattle.ctt_reader.specs.Entries.{course_names, room_names};
ghost use Rattle.ctt_reader.specs.Promised.{IsInstance};
ghost use Rattle.timed_solution.specs.Times.{times_of, meeting_of, admitted_in, meeting_in, room_entry, admitted, is_meeting, AreTimes};

use crate::placed::Placed;
use ctt_reader::{Instance, Names, names_of_courses, names_of_rooms, read_course, read_room};
use input_core::{Fields, LineFault, LineKind, Rows, TextFault, read_number_below};
use std::alloc::Global;
use values::Items;

/// A course in a slot, and its room: 0 for none, else the room's number + 1.
#[derive(Clone, Copy, PartialEq, Eq)]
pub struct Meeting {
    pub course: u32,
    pub room: u32,
    pub day: u32,
    pub period: u32,
}

/// The meetings of a timed solution, in the order of its lines.
#[derive(Drop)]
pub struct Times {
    pub meetings: Items<Meeting>,
}

/// The meetings that the text of a timed solution lists. `Line` comes exactly where the text is outside the
/// grammar, with the first faulty line and its first kind of fault. Whatever is read keeps to `AreTimes`: known
/// courses and rooms, days and periods of the instance, no second meeting of a course in one slot, and no more
/// meetings than a course has lectures.
pub fn read_times(alloc: Global, i: &Instance, bytes: &[u8]) -> Result<Times, TextFault>
    requires { IsInstance i.now }
    ensures exact { Gives (λ t. t.meetings) result (times_of i.now bytes.now) }
    ensures promised { IfOk result (λ t. AreTimes i.now t.meetings) }
{
    let courses = names_of_courses(alloc, i)?;
    let rooms = names_of_rooms(alloc, i)?;
    let meetings = read_meetings(alloc, i, &courses, &rooms, bytes)?;
    Ok(Times { meetings })
}

/// The lines, each read once.
fn read_meetings(
    alloc: Global,
    i: &Instance,
    courses: &Names,
    rooms: &Names,
    bytes: &[u8],
) -> Result<Items<Meeting>, TextFault>
    requires instance { IsInstance i.now }
    requires courses { courses.now ≡ course_names i.now.courses }
    requires rooms { rooms.now ≡ room_names i.now.rooms }
    ensures { Gives (λ meetings. meetings) result (times_of i.now bytes.now) }
{
    let mut rows = Rows::new(bytes);
    let mut placed = Placed::new(alloc, i.courses.len())?;
    while let Some(row) = rows.next()? {
        let mut fields = row.fields;
        let meeting = match meeting_of(i, courses, rooms, &placed, &mut fields) {
            Ok(meeting) => meeting,
            Err(kind) => return Err(TextFault::Line(LineFault {
                line: row.line,
                kind,
            })),
        };
        placed.push(meeting)?;
    }
    Ok(placed.into_meetings())
}

/// The meeting of a line, which has three or four fields.
fn meeting_of(
    i: &Instance,
    courses: &Names,
    rooms: &Names,
    placed: &Placed,
    fields: &mut Fields,
) -> Result<Meeting, LineKind>
    requires instance { IsInstance i.now }
    requires courses { courses.now ≡ course_names i.now.courses }
    requires rooms { rooms.now ≡ room_names i.now.rooms }
    requires placed { placed.now.courses ≡ length i.now.courses }
    ensures { result ≡ meeting_of i.now placed.now.meetings fields.old }
{
    let Some(course) = fields.next() else {
        return Err(LineKind::Fields);
    };
    let Some(second) = fields.next() else {
        return Err(LineKind::Fields);
    };
    let Some(third) = fields.next() else {
        return Err(LineKind::Fields);
    };
    let Some(fourth) = fields.next() else {
        return admitted_meeting(i, courses, rooms, placed, course, b"-", second, third);
    };
    if fields.next().is_some() {
        return Err(LineKind::Fields);
    }
    admitted_meeting(i, courses, rooms, placed, course, second, third, fourth)
}

/// The meeting of the fields of a line: its course, room, day and period, and whether the course may have it.
fn admitted_meeting(
    i: &Instance,
    courses: &Names,
    rooms: &Names,
    placed: &Placed,
    course: &[u8],
    room: &[u8],
    day: &[u8],
    period: &[u8],
) -> Result<Meeting, LineKind>
    requires instance { IsInstance i.now }
    requires courses { courses.now ≡ course_names i.now.courses }
    requires rooms { rooms.now ≡ room_names i.now.rooms }
    requires placed { placed.now.courses ≡ length i.now.courses }
    ensures { result ≡ admitted_in i.now placed.now.meetings course.now room.now day.now period.now }
{
    let meeting = meeting_in(i, courses, rooms, course, room, day, period)?;
    admitted(i, placed, meeting)
}

fn meeting_in(
    i: &Instance,
    courses: &Names,
    rooms: &Names,
    course: &[u8],
    room: &[u8],
    day: &[u8],
    period: &[u8],
) -> Result<Meeting, LineKind>
    requires instance { IsInstance i.now }
    requires courses { courses.now ≡ course_names i.now.courses }
    requires rooms { rooms.now ≡ room_names i.now.rooms }
    ensures value { result ≡ meeting_in i.now course.now room.now day.now period.now }
    ensures known { IfOk result (λ m. is_meeting i.now m ≡ true) }
{
    let course = read_course(courses, course)?;
    let room = room_entry(rooms, room)?;
    let day = read_number_below(i.days, day)?;
    let period = read_number_below(i.periods, period)?;
    Ok(Meeting {
        course,
        room,
        day,
        period,
    })
}

/// 0 for `-`, else the room's number + 1.
fn room_entry(rooms: &Names, field: &[u8]) -> Result<u32, LineKind>
    requires { length rooms.now ≤ 200 }
    ensures { result ≡ room_entry rooms.now field.now }
{
    if field == b"-".as_slice() {
        return Ok(0);
    }
    let room = read_room(rooms, field)?;
    Ok(room + 1)
}

/// The meeting, where its course has none in that slot and fewer than its lectures.
fn admitted(i: &Instance, placed: &Placed, meeting: Meeting) -> Result<Meeting, LineKind>
    requires instance { IsInstance i.now }
    requires placed { placed.now.courses ≡ length i.now.courses }
    requires known { is_meeting i.now meeting ≡ true }
    ensures { result ≡ admitted i.now placed.now.meetings meeting }
{
    if placed.is_taken(&meeting) {
        return Err(LineKind::RepeatedMeeting);
    }
    let limit = i.courses.as_slice()[meeting.course as usize].lectures;
    if placed.held(meeting.course) >= limit {
        return Err(LineKind::TooMany { limit });
    }
    Ok(meeting)
}
