ghost use Rattle.std.specs.Prelude.{◌≡◌, ◌≤◌, ◌<◌, ◌+◌, ◌*◌, true, IfOk, length, slice_index_or, slice_set, if◌then◌else◌, ◌==◌};
ghost use Rattle.std.specs.List.{list_all};
ghost use Rattle.problem_core.specs.Tables.{IsGrid};
ghost use Rattle.itc_score.specs.Sums.{count_pairs};
ghost use Rattle.itc_score.specs.Score.{in_one_room};
ghost use Rattle.itc_score.specs.Places.{fits, place_of};

use crate::lines::{PLACES, place};
use std::alloc::{AllocError, Global};
use timed_solution::Meeting;

/// The pairs of lectures in one room and slot.
pub fn occupancy(alloc: Global, rooms: usize, lines: &[Meeting]) -> Result<u64, AllocError>
    requires rooms { rooms ≤ 200 }
    requires lines { list_all (fits 1000 rooms) lines.now ≡ true }
    requires few { length lines.now ≤ 1000000 }
    ensures { IfOk result (λ n. n ≡ count_pairs in_one_room lines.now) }
{
    let mut counts = vec![in alloc; 0u32; (rooms + 1) * PLACES]?;
    Ok(room_pairs(rooms, lines, &mut counts))
}

/// The same, with a table by room and place of the lectures so far.
fn room_pairs(rooms: usize, lines: &[Meeting], counts: &mut [u32]) -> u64
    requires rooms { rooms ≤ 200 }
    requires lines { list_all (fits 1000 rooms) lines.now ≡ true }
    requires few { length lines.now ≤ 1000000 }
    requires none { IsGrid counts.old (rooms + 1) 700 (λ r p. 0) }
    ensures { result ≡ count_pairs in_one_room lines.now }
{
    let mut pairs = 0;
    for k in 0..lines.len() {
        pairs += u64::from(add_line(counts, lines[k]));
    }
    pairs
}

/// Counts a lecture in its room and place, and answers how many were counted in that room and place before.
fn add_line(counts: &mut [u32], line: Meeting) -> u32
    requires day { line.day < 14 }
    requires period { line.period < 48 }
    requires room { line.room ≤ 200 }
    requires there { line.room * 700 + place_of line < length counts.old }
    requires small { slice_index_or counts.old (line.room * 700 + place_of line) 0 ≤ 1000000 }
    ensures earlier { result ≡ (if line.room == 0 then 0 else slice_index_or counts.old (line.room * 700 + place_of line) 0) }
    ensures counted { counts.new ≡ slice_set counts.old (line.room * 700 + place_of line) (slice_index_or counts.old (line.room * 700 + place_of line) 0 + 1) }
{
    let cell = line.room as usize * PLACES + place(line.day, line.period) as usize;
    let earlier = counts[cell];
    counts[cell] = earlier + 1;
    if line.room == 0 { 0 } else { earlier }
}
