ghost use Rattle.std.specs.Prelude.{◌≡◌, ◌≤◌, ◌<◌, ◌+◌, ◌*◌, ◌==◌, ℕ, true, false, cond, IfOk, length, slice_index_or};
ghost use Rattle.std.specs.List.{list_all, list_any, sum_by};
ghost use Rattle.ctt_reader.specs.Promised.{is_curriculum, are_members};
ghost use Rattle.itc_score.specs.Score.{is_member};
ghost use Rattle.itc_score.specs.Places.{held_at, alone_among};

use crate::lines::PLACES;
use crate::tables::marked;
use ctt_reader::Curriculum;
use std::alloc::{AllocError, Global};

/// The lectures that stand alone in a curriculum, summed over the curricula, where the table says by course and
/// place whether the course has a lecture there.
pub fn alone(
    alloc: Global,
    courses: usize,
    curricula: &[Curriculum],
    held: &[bool],
) -> Result<u64, AllocError>
    requires few { courses ≤ 1000 }
    requires few_curricula { length curricula.now ≤ 1000 }
    requires curricula { list_all (is_curriculum courses) curricula.now ≡ true }
    requires held { length held.now ≡ courses * 700 }
    ensures value { IfOk result (λ n. n ≡ sum_by (λ q. alone_among (held_at (is_member q) held.now courses)) curricula.now) }
    ensures small { IfOk result (λ n. n ≤ 1000000000) }
{
    let mut total = 0;
    for curriculum in curricula {
        total += alone_in(alloc, courses, curriculum.members.as_slice(), held)?;
    }
    Ok(total)
}

/// The lectures of members that stand alone among the lectures of members.
fn alone_in(
    alloc: Global,
    courses: usize,
    members: &[u32],
    held: &[bool],
) -> Result<u64, AllocError>
    requires few { courses ≤ 1000 }
    requires members { are_members courses members.now ≡ true }
    requires held { length held.now ≡ courses * 700 }
    ensures value { IfOk result (λ n. n ≡ alone_among (held_at (λ c. list_any (λ m. m == c) members.now) held.now courses)) }
    ensures small { IfOk result (λ n. n ≤ 1000000) }
{
    let mut counts = vec![in alloc; 0u32; PLACES]?;
    let are_members = flags(alloc, courses, members)?;
    add_members(&mut counts, &are_members, held);
    Ok(count_alone(&counts))
}

/// For each course whether it is a member.
fn flags(alloc: Global, courses: usize, members: &[u32]) -> Result<Vec<bool>, AllocError>
    requires { are_members courses members.now ≡ true }
    ensures whole { IfOk result (λ v. length v.items ≡ courses) }
    ensures flags { IfOk result (λ v. (c : ℕ) → c < courses → slice_index_or v.items c false ≡ list_any (λ m. m == c) members.now) }
{
    let mut flags = vec![in alloc; false; courses]?;
    let mut left = members.len();
    while 0 < left {
        left -= 1;
        flags[members[left] as usize] = true;
    }
    Ok(flags)
}

/// Adds the lectures of all members, by place.
fn add_members(counts: &mut Vec<u32>, are_members: &[bool], held: &[bool])
    requires few { length are_members.now ≤ 1000 }
    requires held { length held.now ≡ length are_members.now * 700 }
    requires whole { length counts.old.items ≡ 700 }
    requires none { (p : ℕ) → p < 700 → slice_index_or counts.old.items p 0 ≡ 0 }
    ensures whole { length counts.new.items ≡ 700 }
    ensures counts { (p : ℕ) → p < 700 → slice_index_or counts.new.items p 0 ≡ held_at (λ c. slice_index_or are_members.now c false) held.now (length are_members.now) p }
{
    for course in 0..are_members.len() {
        if are_members[course] {
            add_row(counts, held, course * PLACES);
        }
    }
}

/// Adds the lectures of a course, by place, from the row that begins at the cell.
fn add_row(counts: &mut Vec<u32>, held: &[bool], first: usize)
    requires there { first + length counts.old.items ≤ length held.now }
    requires small { (p : ℕ) → p < length counts.old.items → slice_index_or counts.old.items p 0 ≤ 1000 }
    ensures whole { length counts.new.items ≡ length counts.old.items }
    ensures added { (p : ℕ) → p < length counts.old.items → slice_index_or counts.new.items p 0 ≡ slice_index_or counts.old.items p 0 + cond (slice_index_or held.now (first + p) false) 1 0 }
{
    for k in 0..counts.len() {
        if held[first + k] {
            counts[k] += 1;
        }
    }
}

/// The lectures at places beside which there is none.
fn count_alone(counts: &[u32]) -> u64
    requires whole { length counts.now ≡ 700 }
    requires small { (p : ℕ) → p < 700 → slice_index_or counts.now p 0 ≤ 1000 }
    ensures value { result ≡ alone_among (λ p. slice_index_or counts.now p 0) }
    ensures small { result ≤ 1000000 }
{
    let mut found = 0;
    for k in 0..PLACES - 2 {
        if counts[k] == 0 && counts[k + 2] == 0 {
            found += u64::from(counts[k + 1]);
        }
    }
    found
}
