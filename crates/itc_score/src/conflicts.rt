ghost use Rattle.std.specs.Prelude.{◌≡◌, ◌≤◌, ◌<◌, ◌+◌, ◌*◌, ◌&&◌, ◌||◌, ◌==◌, ℕ, Bool, true, false, IfOk, length};
ghost use Rattle.std.specs.List.{list_all, list_any, count_by, sum_by};
ghost use Rattle.problem_core.specs.Tables.{IsGrid};
ghost use Rattle.ctt_reader.specs.Promised.{IsInstance, is_curriculum, are_members};
ghost use Rattle.timed_solution.specs.Times.{are_apart};
ghost use Rattle.itc_score.specs.Sums.{count_pairs};
ghost use Rattle.itc_score.specs.Score.{are_in_conflict, are_in_one_curriculum, is_member};
ghost use Rattle.itc_score.specs.Places.{fits, is_at, known_related};
ghost use Rattle.itc_score.specs.Packed.{IsPacked};

use crate::lines::{PLACES, place, place_courses};
use crate::tables::{WORDS, count_both, marked, packed};
use ctt_reader::{Curriculum, Instance};
use std::alloc::{AllocError, Global};
use timed_solution::Meeting;

/// The columns of the tables of conflicts: no instance has more courses.
const COURSES: usize = 1000;

/// The pairs of lectures in one slot, of different courses with one teacher or in one curriculum.
pub fn conflicts(alloc: Global, i: &Instance, lines: &[Meeting]) -> Result<u64, AllocError>
    requires instance { IsInstance i.now }
    requires lines { list_all (fits (length i.now.courses) (length i.now.rooms)) lines.now ≡ true }
    requires apart { are_apart lines.now ≡ true }
    requires few { length lines.now ≤ 1000000 }
    ensures { IfOk result (λ n. n ≡ count_pairs (are_in_conflict i.now) lines.now) }
{
    let courses = i.courses.len();
    let related = related(alloc, i)?;
    let pairs = place_courses(alloc, lines)?;
    let busy = marked(alloc, PLACES, COURSES, pairs.as_slice())?;
    let related_words = packed(alloc, courses, &related)?;
    let busy_words = packed(alloc, PLACES, &busy)?;
    Ok(clashing(i, &related_words, &busy_words, lines) / 2)
}

/// For each lecture, the lectures in its slot that it is in conflict with; so each pair is counted twice.
fn clashing(i: &Instance, related: &[u64], busy: &[u64], lines: &[Meeting]) -> u64
    requires instance { IsInstance i.now }
    requires lines { list_all (fits (length i.now.courses) (length i.now.rooms)) lines.now ≡ true }
    requires apart { are_apart lines.now ≡ true }
    requires few { length lines.now ≤ 1000000 }
    requires related { IsPacked related.now (length i.now.courses) (known_related i.now) }
    requires busy { IsPacked busy.now 700 (λ p c. list_any (is_at c p) lines.now) }
    ensures { result ≡ sum_by (λ line. count_by (are_in_conflict i.now line) lines.now) lines.now }
{
    let mut twice = 0;
    for line in lines {
        let course = line.course as usize * WORDS;
        let slot = place(line.day, line.period) as usize * WORDS;
        twice += count_both(related, course, busy, slot, WORDS);
    }
    twice
}

/// By course and number, whether the number is that of a different course with one teacher or in one curriculum.
fn related(alloc: Global, i: &Instance) -> Result<Vec<bool>, AllocError>
    requires { IsInstance i.now }
    ensures { IfOk result (λ v. IsGrid v.items (length i.now.courses) 1000 (known_related i.now)) }
{
    let courses = i.courses.len();
    let joined = joined(alloc, courses, i.curricula.as_slice())?;
    let mut cells = Vec::new(alloc);
    for k in 0..courses * COURSES {
        cells.push(is_related(i, &joined, k / COURSES, k % COURSES))?;
    }
    Ok(cells)
}

/// Whether the second number is that of a different course with the first's teacher, or in a curriculum with it.
fn is_related(i: &Instance, joined: &[bool], first: usize, second: usize) -> bool
    requires few { length i.now.courses ≤ 1000 }
    requires first { first < length i.now.courses }
    requires joined { IsGrid joined.now (length i.now.courses) (length i.now.courses) (are_in_one_curriculum i.now) }
    ensures { result ≡ known_related i.now first second }
{
    if second >= i.courses.len() {
        return false;
    }
    let courses = i.courses.as_slice();
    let teacher = courses[first].teacher.as_bytes() == courses[second].teacher.as_bytes();
    let curriculum = joined[first * courses.len() + second];
    first != second && (teacher || curriculum)
}

/// By course and course, whether a curriculum has both.
fn joined(alloc: Global, courses: usize, curricula: &[Curriculum]) -> Result<Vec<bool>, AllocError>
    requires few { courses ≤ 1000 }
    requires curricula { list_all (is_curriculum courses) curricula.now ≡ true }
    ensures { IfOk result (λ v. IsGrid v.items courses courses (λ c d. list_any (λ q. is_member q c && is_member q d) curricula.now)) }
{
    let mut cells = vec![in alloc; false; courses * courses]?;
    let mut left = curricula.len();
    while 0 < left {
        left -= 1;
        join(&mut cells, courses, curricula[left].members.as_slice());
    }
    Ok(cells)
}

/// Marks each member beside each.
fn join(cells: &mut Vec<bool>, courses: usize, members: &[u32])
    requires few { courses ≤ 1000 }
    requires members { are_members courses members.now ≡ true }
    requires whole { length cells.old.items ≡ courses * courses }
    ensures whole { length cells.new.items ≡ length cells.old.items }
    ensures joined { (f : ℕ → ℕ → Bool) → IsGrid cells.old.items courses courses f → IsGrid cells.new.items courses courses (λ c d. (list_any (λ m. m == c) members.now && list_any (λ m. m == d) members.now) || f c d) }
{
    let mut left = members.len();
    while 0 < left {
        left -= 1;
        join_one(cells, courses, members[left] as usize, members);
    }
}

/// Marks each member in the row.
fn join_one(cells: &mut Vec<bool>, courses: usize, row: usize, members: &[u32])
    requires few { courses ≤ 1000 }
    requires row { row < courses }
    requires members { are_members courses members.now ≡ true }
    requires whole { length cells.old.items ≡ courses * courses }
    ensures whole { length cells.new.items ≡ length cells.old.items }
    ensures joined { (f : ℕ → ℕ → Bool) → IsGrid cells.old.items courses courses f → IsGrid cells.new.items courses courses (λ c d. ((row == c) && list_any (λ m. m == d) members.now) || f c d) }
{
    let mut left = members.len();
    while 0 < left {
        left -= 1;
        cells[row * courses + members[left] as usize] = true;
    }
}
