ghost use Rattle.std.specs.Prelude.{◌≡◌, ◌≢◌, ◌<◌, ◌≤◌, ◌+◌, ◌++◌, [], ℕ, length, slice_index, slice_index_or, true, IfOk, OnOk};
ghost use Rattle.reports.specs.Rooms.{if_used};
ghost use Rattle.reports.specs.Groups.{are_of, count_of, counted, EachIsOf};

use crate::session::Session;
use input_core::Memory;
use std::alloc::Global;
use values::Items;

/// By course, each room that it uses, by the room's number, and how many of its meetings are there. The meetings are
/// given by room.
pub(crate) fn by_course(
    alloc: Global,
    courses: usize,
    rooms: &[Items<Session>],
) -> Result<Vec<Items<(u32, u32)>>, Memory>
    requires known { EachIsOf courses rooms.now }
    requires few { length rooms.now ≤ 200 }
    ensures whole { IfOk result (λ uses. length uses.items ≡ courses) }
    ensures each { IfOk result (λ uses. (c : ℕ) → c < courses → slice_index_or uses.items c [] ≡ counted rooms.now c (length rooms.now)) }
{
    let mut uses = no_uses(alloc, courses)?;
    let mut counts = vec![in alloc; 0u32; courses]?;
    for room in 0..rooms.len() {
        let sessions = rooms[room].as_slice();
        count(&mut counts, sessions);
        add_uses(&mut uses, &mut counts, room as u32, sessions)?;
    }
    Ok(uses)
}

/// For each course no room.
fn no_uses(alloc: Global, courses: usize) -> Result<Vec<Items<(u32, u32)>>, Memory>
    ensures whole { IfOk result (λ uses. length uses.items ≡ courses) }
    ensures empty { IfOk result (λ uses. (c : ℕ) → slice_index_or uses.items c [] ≡ []) }
{
    let mut uses = Vec::new(alloc);
    'more: while uses.len() < courses {
        if uses.push(Items::new(alloc)).is_err() {
            return Err(Memory);
        }
    }
    Ok(uses)
}

/// Counts the meetings by course, where all counts were 0.
fn count(counts: &mut [u32], sessions: &[Session])
    requires known { are_of (length counts.old) sessions.now ≡ true }
    requires few { length sessions.now ≤ 4000 }
    requires clear { (c : ℕ) → c < length counts.old → slice_index counts.old c ≡ 0 }
    ensures whole { length counts.new ≡ length counts.old }
    ensures each { (c : ℕ) → c < length counts.old → slice_index counts.new c ≡ count_of c sessions.now }
{
    for session in sessions {
        counts[session.course as usize] += 1;
    }
}

/// Adds the room with its count to the uses of each course that has meetings there, and sets these counts to 0.
fn add_uses(
    uses: &mut Vec<Items<(u32, u32)>>,
    counts: &mut [u32],
    room: u32,
    sessions: &[Session],
) -> Result<(), Memory>
    requires same { length uses.old.items ≡ length counts.old }
    requires known { are_of (length counts.old) sessions.now ≡ true }
    requires counts { (c : ℕ) → c < length counts.old → slice_index counts.old c ≡ count_of c sessions.now }
    ensures whole { length uses.new.items ≡ length uses.old.items }
    ensures counts_whole { length counts.new ≡ length counts.old }
    ensures each { OnOk result ((c : ℕ) → c < length counts.old → slice_index_or uses.new.items c [] ≡ slice_index_or uses.old.items c [] ++ if_used room (count_of c sessions.now)) }
    ensures clear { OnOk result ((c : ℕ) → c < length counts.old → slice_index counts.new c ≡ 0) }
{
    for session in sessions {
        add_use(uses, counts, room, session.course as usize)?;
    }
    Ok(())
}

/// Adds the room with the count to the uses of the course, unless the count is 0, and sets it to 0.
fn add_use(
    uses: &mut Vec<Items<(u32, u32)>>,
    counts: &mut [u32],
    room: u32,
    course: usize,
) -> Result<(), Memory>
    requires known { course < length counts.old }
    requires same { length uses.old.items ≡ length counts.old }
    ensures whole { length uses.new.items ≡ length uses.old.items }
    ensures counts_whole { length counts.new ≡ length counts.old }
    ensures here { OnOk result (slice_index_or uses.new.items course [] ≡ slice_index_or uses.old.items course [] ++ if_used room (slice_index counts.old course)) }
    ensures others { OnOk result ((c : ℕ) → c ≢ course → slice_index_or uses.new.items c [] ≡ slice_index_or uses.old.items c []) }
    ensures clear { OnOk result (slice_index counts.new course ≡ 0) }
    ensures other_counts { OnOk result ((c : ℕ) → c ≢ course → slice_index counts.new c ≡ slice_index counts.old c) }
{
    let n = counts[course];
    counts[course] = 0;
    if n != 0 {
        uses[course].push((room, n))?;
    }
    Ok(())
}
