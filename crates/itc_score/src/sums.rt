ghost use Rattle.std.specs.Prelude.{◌≡◌, ◌≤◌, ◌+◌, ◌*◌, ◌-◌, ◌==◌, true, false, length, slice_index_or, map};
ghost use Rattle.std.specs.List.{list_all, list_any, count_by, sum_by};
ghost use Rattle.problem_core.specs.Facts.{is_pair};
ghost use Rattle.problem_core.specs.Tables.{IsGrid};
ghost use Rattle.ctt_reader.specs.Naming.{no_course};
ghost use Rattle.ctt_reader.specs.Promised.{IsInstance, is_course};
ghost use Rattle.itc_score.specs.Sums.{sum_below, count_below};
ghost use Rattle.itc_score.specs.Score.{is_unavailable, students_above};
ghost use Rattle.itc_score.specs.Places.{fits, closed_place};

use crate::lines::{PLACES, place};
use crate::tables::count_true;
use ctt_reader::{Course, Instance};
use timed_solution::Meeting;

/// The lectures of all courses.
pub fn lectures(courses: &[Course]) -> u64
    requires few { length courses.now ≤ 1000 }
    requires courses { list_all is_course courses.now ≡ true }
    ensures { result ≡ sum_below (λ c. (slice_index_or courses.now c no_course).lectures) (length courses.now) }
{
    let mut total = 0;
    for k in 0..courses.len() {
        total += u64::from(courses[k].lectures);
    }
    total
}

/// The lectures without a room.
pub fn unroomed(lines: &[Meeting]) -> u64
    ensures { result ≡ count_by (λ line. line.room == 0) lines.now }
{
    lines.iter().filter(|line| line.room == 0).count() as u64
}

/// The lectures in a slot that is closed to their course, by the table of courses and places.
pub fn unavailable(i: &Instance, lines: &[Meeting], closed: &[bool]) -> u64
    requires instance { IsInstance i.now }
    requires lines { list_all (fits (length i.now.courses) (length i.now.rooms)) lines.now ≡ true }
    requires closed { IsGrid closed.now (length i.now.courses) 700 (λ c p. list_any (is_pair c p) (map closed_place i.now.constraints)) }
    ensures { result ≡ count_by (is_unavailable i.now) lines.now }
{
    let mut found = 0;
    for line in lines {
        if is_unavailable(i, *line, closed) {
            found += 1;
        }
    }
    found
}

/// Whether the lecture is in a slot that is closed to its course.
fn is_unavailable(i: &Instance, line: Meeting, closed: &[bool]) -> bool
    requires instance { IsInstance i.now }
    requires line { fits (length i.now.courses) (length i.now.rooms) line ≡ true }
    requires closed { IsGrid closed.now (length i.now.courses) 700 (λ c p. list_any (is_pair c p) (map closed_place i.now.constraints)) }
    ensures { result ≡ is_unavailable i.now line }
{
    closed[line.course as usize * PLACES + place(line.day, line.period) as usize]
}

/// The students above the capacities of the rooms.
pub fn over_capacity(i: &Instance, lines: &[Meeting]) -> u64
    requires instance { IsInstance i.now }
    requires lines { list_all (fits (length i.now.courses) (length i.now.rooms)) lines.now ≡ true }
    requires few { length lines.now ≤ 1000000 }
    ensures value { result ≡ sum_by (students_above i.now) lines.now }
    ensures small { result ≤ 1000000000000 }
{
    let mut total = 0;
    for line in lines {
        total += u64::from(over_in_line(i, *line));
    }
    total
}

/// The students above the capacity of the lecture's room.
fn over_in_line(i: &Instance, line: Meeting) -> u32
    requires instance { IsInstance i.now }
    requires line { fits (length i.now.courses) (length i.now.rooms) line ≡ true }
    ensures value { result ≡ students_above i.now line }
    ensures small { result ≤ 1000000 }
{
    if line.room == 0 {
        return 0;
    }
    let students = i.courses.as_slice()[line.course as usize].students;
    let capacity = i.rooms.as_slice()[line.room as usize - 1].capacity;
    students.saturating_sub(capacity)
}

/// The days that courses are short of, by the table of courses and days.
pub fn missing_days(courses: &[Course], days: u32, taught: &[bool]) -> u64
    requires few { length courses.now ≤ 1000 }
    requires courses { list_all is_course courses.now ≡ true }
    requires days { days ≤ 14 }
    requires taught { length taught.now ≡ length courses.now * 14 }
    ensures value { result ≡ sum_below (λ c. (slice_index_or courses.now c no_course).min_days - count_below (λ d. slice_index_or taught.now (c * 14 + d) false) days) (length courses.now) }
    ensures small { result ≤ 1000000 }
{
    let mut total = 0;
    for k in 0..courses.len() {
        let held = count_true(taught, k * 14, days as usize);
        total += u64::from(courses[k].min_days).saturating_sub(held);
    }
    total
}

/// The rooms of courses beyond the first, by the table of courses and rooms.
pub fn further_rooms(courses: usize, rooms: usize, used: &[bool]) -> u64
    requires few { courses ≤ 1000 }
    requires few_rooms { rooms ≤ 200 }
    requires used { length used.now ≡ courses * (rooms + 1) }
    ensures small { result ≤ 200000 }
    ensures value { result ≡ sum_below (λ c. count_below (λ r. slice_index_or used.now (c * (rooms + 1) + 1 + r) false) rooms - 1) courses }
{
    let mut total = 0;
    for k in 0..courses {
        total += count_true(used, k * (rooms + 1) + 1, rooms).saturating_sub(1);
    }
    total
}
