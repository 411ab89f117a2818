ghost use Rattle.std.specs.Prelude.{◌≡◌, ◌≢◌, ◌<◌, ◌≤◌, ◌+◌, ◌*◌, ◌&&◌, ◌||◌, ◌==◌, not, nat_le, nat_lt, ◌++◌, ◌∷◌, [], Bool, false, IfOk, length, slice_index_or, ℕ, List};
ghost use Rattle.std.specs.List.{list_any};
ghost use Rattle.problem_core.specs.Choice.{IsLegal, entry};
ghost use Rattle.problem_core.specs.Facts.{Facts, event_at, run_of};
ghost use Rattle.problem_core.specs.Measures.{IsBest};
ghost use Rattle.numbers.specs.Below.{first_from};
ghost use Rattle.problem_core.specs.FirstChoice.{IsFirstChoice, can_take};
ghost use Rattle.problem_core.specs.Taken.{IsTaken};
ghost use Rattle.problem_core.specs.Tables.{IsGrid};

use crate::choice::{Choice, Memory};
use crate::grid::cell;
use crate::problem::Problem;
use std::alloc::Global;
use values::Items;

/// The first choice: events in order, each takes the lowest-numbered room that suits it and that no
/// earlier event with a slot in common took, else none. It is legal.
pub fn first_choice(alloc: Global, p: &Problem) -> Result<Choice, Memory>
    ensures exact { IfOk result (λ a. IsFirstChoice p.now a.entries) }
    ensures legal { IfOk result (λ a. IsLegal p.now a.entries) }
{
    let mut entries = Items::new(alloc);
    let cells = p.room_count() as usize * p.slot_count() as usize;
    let mut table = vec![in alloc; false; cells]?;
    let taken = table.as_mut_slice();
    for event in 0..p.event_count() {
        let entry = lowest_room(p, taken, event);
        take_room(p, taken, event, entry);
        entries.push(entry)?;
    }
    Ok(Choice { entries })
}

/// The lowest room that suits the event and isn't taken in its slots, + 1; 0 where there is none.
fn lowest_room(p: &Problem, taken: &[bool], event: u32) -> u32
    requires known { event < length p.now.events }
    requires whole { length taken.now ≡ length p.now.capacity * p.now.slots }
    ensures lowest { (a : List ℕ) → IsTaken p.now a event taken.now → result ≡ first_from (can_take p.now a event) 0 (length p.now.capacity) }
    ensures known { result ≤ length p.now.capacity }
{
    for room in 0..p.room_count() {
        if can_take(p, taken, event, room) {
            return room + 1;
        }
    }
    0
}

/// Whether the room suits the event and isn't taken in its slots.
pub fn can_take(p: &Problem, taken: &[bool], event: u32, room: u32) -> bool
    requires known { event < length p.now.events }
    requires known_room { room < length p.now.capacity }
    requires whole { length taken.now ≡ length p.now.capacity * p.now.slots }
    ensures { (a : List ℕ) → IsTaken p.now a event taken.now → result ≡ can_take p.now a event room }
{
    let (slot, count) = p.takes(event);
    let slots = p.slot_count() as usize;
    p.suits(event, room) && !is_taken(taken, slots, room as usize, slot as usize, count as usize)
}

/// Whether one of the row's cells is set, of those of `count` columns from `from` on.
fn is_taken(taken: &[bool], columns: usize, row: usize, from: usize, count: usize) -> bool
    requires there { row * columns + columns ≤ length taken.now }
    requires within { from + count ≤ columns }
    ensures { result ≡ list_any (λ t. slice_index_or taken.now (row * columns + t) false) (run_of from count) }
{
    for t in from..from + count {
        if cell(taken, columns, row, t) {
            return true;
        }
    }
    false
}

/// Marks the room of the entry as taken in the event's slots.
pub fn take_room(p: &Problem, taken: &mut [bool], event: u32, entry: u32)
    requires known { event < length p.now.events }
    requires known_room { entry ≤ length p.now.capacity }
    requires whole { length taken.old ≡ length p.now.capacity * p.now.slots }
    ensures whole { length taken.new ≡ length taken.old }
    ensures taken { (a b : List ℕ) → IsTaken p.now a event taken.old → b ≡ a ++ entry ∷ [] → length a ≡ event → IsTaken p.now b (event + 1) taken.new }
{
    if entry != 0 {
        let (slot, count) = p.takes(event);
        let slots = p.slot_count() as usize;
        mark(
            taken,
            slots,
            entry as usize - 1,
            slot as usize,
            count as usize,
        );
    }
}

/// Sets the row's cells of `count` columns from `from` on.
fn mark(taken: &mut [bool], columns: usize, row: usize, from: usize, count: usize)
    requires there { row * columns + columns ≤ length taken.old }
    requires within { from + count ≤ columns }
    ensures whole { length taken.new ≡ length taken.old }
    ensures grid { (rows : ℕ) (f : ℕ → ℕ → Bool) → row < rows → IsGrid taken.old rows columns f
        → IsGrid taken.new rows columns (λ r t. ((row == r) && (nat_le from t && nat_lt t (from + count))) || f r t) }
{
    for t in from..from + count {
        taken[row * columns + t] = true;
    }
}

/// A first choice is legal, and where every event has a room in it no legal choice has more event hours.
pub fn first_choice_laws()
    ensures legal { (p : Facts) (a : List ℕ) → IsFirstChoice p a → IsLegal p a }
    ensures best { (p : Facts) (a : List ℕ) → IsFirstChoice p a → ((e : ℕ) → e < length a → entry a e ≢ 0) → IsBest p 1 a }
{}
