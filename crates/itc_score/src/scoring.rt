ghost use Rattle.std.specs.Prelude.{◌≡◌, ◌*◌, ◌≤◌, ◌<◌, ◌^◌, ◌-◌, true, IfOk, length};
ghost use Rattle.std.specs.List.{list_all, count_by, sum_by};
ghost use Rattle.ctt_reader.specs.Promised.{IsInstance};
ghost use Rattle.timed_solution.specs.Times.{AreTimes, are_apart};
ghost use Rattle.itc_score.specs.Sums.{sum_below};
ghost use Rattle.itc_score.specs.Score.{score_of, soft_total, is_unavailable, missing_days, alone_in, rooms_used};
ghost use Rattle.itc_score.specs.Places.{fits};

use crate::compactness::alone;
use crate::conflicts::conflicts;
use crate::counts::ScoreCounts;
use crate::lines::{PLACES, closed_places, course_days, course_places, course_rooms};
use crate::occupancy::occupancy;
use crate::sums::{further_rooms, lectures, missing_days, over_capacity, unavailable, unroomed};
use crate::tables::marked;
use ctt_reader::Instance;
use input_core::Memory;
use std::alloc::Global;
use timed_solution::{Meeting, Times};

/// The score of a timed solution of the instance: nine counts over its lines and the pairs of its lines. `Memory`
/// comes only where memory runs out.
pub fn score(alloc: Global, i: &Instance, t: &Times) -> Result<ScoreCounts, Memory>
    requires instance { IsInstance i.now }
    requires times { AreTimes i.now t.now.meetings }
    ensures counts { IfOk result (λ s. s ≡ score_of i.now t.now.meetings) }
    ensures small { IfOk result (λ s. soft_total s < 2 ^ 63) }
{
    score_lines(alloc, i, t.meetings.as_slice())
}

/// The score of the lines.
fn score_lines(alloc: Global, i: &Instance, lines: &[Meeting]) -> Result<ScoreCounts, Memory>
    requires instance { IsInstance i.now }
    requires times { AreTimes i.now lines.now }
    requires lines { list_all (fits (length i.now.courses) (length i.now.rooms)) lines.now ≡ true }
    requires few { length lines.now ≤ 1000000 }
    ensures counts { IfOk result (λ s. s ≡ score_of i.now lines.now) }
    ensures small { IfOk result (λ s. soft_total s < 2 ^ 63) }
{
    let courses = i.courses.as_slice();
    Ok(ScoreCounts {
        missing: lectures(courses) - lines.len() as u64,
        unroomed: unroomed(lines),
        occupancy: occupancy(alloc, i.rooms.len(), lines)?,
        conflicts: conflicts(alloc, i, lines)?,
        availability: availability(alloc, i, lines)?,
        capacity: over_capacity(i, lines),
        days: working_days(alloc, i, lines)?,
        compactness: compactness(alloc, i, lines)?,
        stability: stability(alloc, i, lines)?,
    })
}

/// The lectures in slots at which their courses are unavailable.
fn availability(alloc: Global, i: &Instance, lines: &[Meeting]) -> Result<u64, Memory>
    requires instance { IsInstance i.now }
    requires lines { list_all (fits (length i.now.courses) (length i.now.rooms)) lines.now ≡ true }
    ensures { IfOk result (λ n. n ≡ count_by (is_unavailable i.now) lines.now) }
{
    let pairs = closed_places(alloc, i.constraints.as_slice())?;
    let closed = marked(alloc, i.courses.len(), PLACES, pairs.as_slice())?;
    Ok(unavailable(i, lines, &closed))
}

/// Five times the days that courses are short of their minimum working days.
fn working_days(alloc: Global, i: &Instance, lines: &[Meeting]) -> Result<u64, Memory>
    requires instance { IsInstance i.now }
    requires lines { list_all (fits (length i.now.courses) (length i.now.rooms)) lines.now ≡ true }
    ensures small { IfOk result (λ n. n ≤ 5000000) }
    ensures value { IfOk result (λ n. n ≡ 5 * sum_below (missing_days i.now lines.now) (length i.now.courses)) }
{
    let pairs = course_days(alloc, lines)?;
    let taught = marked(alloc, i.courses.len(), 14, pairs.as_slice())?;
    Ok(5 * missing_days(i.courses.as_slice(), i.days, &taught))
}

/// Twice the lectures that stand alone in a curriculum, counted for each curriculum.
fn compactness(alloc: Global, i: &Instance, lines: &[Meeting]) -> Result<u64, Memory>
    requires instance { IsInstance i.now }
    requires lines { list_all (fits (length i.now.courses) (length i.now.rooms)) lines.now ≡ true }
    requires apart { are_apart lines.now ≡ true }
    ensures small { IfOk result (λ n. n ≤ 2000000000) }
    ensures value { IfOk result (λ n. n ≡ 2 * sum_by (alone_in lines.now) i.now.curricula) }
{
    let pairs = course_places(alloc, lines)?;
    let held = marked(alloc, i.courses.len(), PLACES, pairs.as_slice())?;
    let alone = alone(alloc, i.courses.len(), i.curricula.as_slice(), &held)?;
    Ok(2 * alone)
}

/// The rooms of each course beyond its first.
fn stability(alloc: Global, i: &Instance, lines: &[Meeting]) -> Result<u64, Memory>
    requires instance { IsInstance i.now }
    requires lines { list_all (fits (length i.now.courses) (length i.now.rooms)) lines.now ≡ true }
    ensures small { IfOk result (λ n. n ≤ 200000) }
    ensures value { IfOk result (λ n. n ≡ sum_below (λ c. rooms_used i.now lines.now c - 1) (length i.now.courses)) }
{
    let pairs = course_rooms(alloc, lines)?;
    let used = marked(alloc, i.courses.len(), i.rooms.len() + 1, pairs.as_slice())?;
    Ok(further_rooms(i.courses.len(), i.rooms.len(), &used))
}
