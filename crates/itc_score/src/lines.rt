ghost use Rattle.std.specs.Prelude.{◌≡◌, ◌<◌, true, IfOk, map};
ghost use Rattle.std.specs.List.{list_all};
ghost use Rattle.itc_score.specs.Places.{place, fits, are_known, course_place, place_course, course_day, course_room, closed_place};

use std::alloc::{AllocError, Global};
use timed_solution::Meeting;

/// The places of a week, 50 for each of 14 days. The first and the last place of a day are never taken, so that
/// neighbours that are taken are of one day.
pub const PLACES: usize = 700;

/// The place of a slot.
pub fn place(day: u32, period: u32) -> u32
    requires day { day < 14 }
    requires period { period < 48 }
    ensures { result ≡ place day period }
{
    day * 50 + period + 1
}

/// The course and the place of each lecture.
pub fn course_places(alloc: Global, lines: &[Meeting]) -> Result<Vec<(u32, u32)>, AllocError>
    requires { list_all (fits 1000 200) lines.now ≡ true }
    ensures { IfOk result (λ v. v.items ≡ map course_place lines.now) }
{
    let mut pairs = Vec::new(alloc);
    for line in lines {
        pairs.push((line.course, place(line.day, line.period)))?;
    }
    Ok(pairs)
}

/// The place and the course of each lecture.
pub fn place_courses(alloc: Global, lines: &[Meeting]) -> Result<Vec<(u32, u32)>, AllocError>
    requires { list_all (fits 1000 200) lines.now ≡ true }
    ensures { IfOk result (λ v. v.items ≡ map place_course lines.now) }
{
    let mut pairs = Vec::new(alloc);
    for line in lines {
        pairs.push((place(line.day, line.period), line.course))?;
    }
    Ok(pairs)
}

/// The course and the day of each lecture.
pub fn course_days(alloc: Global, lines: &[Meeting]) -> Result<Vec<(u32, u32)>, AllocError>
    ensures { IfOk result (λ v. v.items ≡ map course_day lines.now) }
{
    let mut pairs = Vec::new(alloc);
    for line in lines {
        pairs.push((line.course, line.day))?;
    }
    Ok(pairs)
}

/// The course and the room of each lecture, 0 for no room.
pub fn course_rooms(alloc: Global, lines: &[Meeting]) -> Result<Vec<(u32, u32)>, AllocError>
    ensures { IfOk result (λ v. v.items ≡ map course_room lines.now) }
{
    let mut pairs = Vec::new(alloc);
    for line in lines {
        pairs.push((line.course, line.room))?;
    }
    Ok(pairs)
}

/// The course and the place of each constraint.
pub fn closed_places(
    alloc: Global,
    constraints: &[(u32, u32, u32)],
) -> Result<Vec<(u32, u32)>, AllocError>
    requires { list_all are_known constraints.now ≡ true }
    ensures { IfOk result (λ v. v.items ≡ map closed_place constraints.now) }
{
    let mut pairs = Vec::new(alloc);
    for (course, day, period) in constraints {
        pairs.push((*course, place(*day, *period)))?;
    }
    Ok(pairs)
}
