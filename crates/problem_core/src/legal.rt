ghost use Rattle.std.specs.Prelude.{◌≡◌, ◌≢◌, ◌<◌, ◌≤◌, ◌+◌, ◌*◌, ◌↔◌, ◌==◌, IsTrue, length, ℕ, Bool, false, nat_le, slice_index_or, ◌&&◌};
ghost use Rattle.std.specs.List.{list_all};
ghost use Rattle.problem_core.specs.Choice.{IsLegal, IsChoice, entry, holds};
ghost use Rattle.problem_core.specs.Facts.{share_slot};
ghost use Rattle.problem_core.specs.Taken.{IsTaken};
ghost use Rattle.problem_core.specs.Faults.{first_fault, fault_of, clash_of};
ghost use Rattle.numbers.specs.Below.{any_below, first_from};

use crate::choice::{Choice, RoomFault};
use crate::greedy::{can_take, take_room};
use crate::problem::Problem;

impl Problem {
    /// Whether the choice is legal: it has one entry an event, each room that it names is a room and
    /// suits its event, and no two events with a slot in common have one room.
    pub fn is_legal(&self, a: &Choice) -> bool
        ensures { IsTrue result ↔ IsLegal self.now a.now.entries }
    {
        self.is_choice(a) && self.first_fault(a).is_none()
    }

    /// Whether the choice has one entry an event, and each room that it names is a room.
    pub fn is_choice(&self, a: &Choice) -> bool
        ensures { IsTrue result ↔ IsChoice self.now a.now.entries }
    {
        let entries = a.entries.as_slice();
        let one_each = entries.len() == self.event_count() as usize;
        let known = are_known(entries, self.room_count());
        one_each && known
    }

    /// What keeps the choice from being legal, at the least event with a room that doesn't suit it
    /// or that an earlier event with a slot in common has too: `Unsuitable` where the room doesn't
    /// suit, else `Clash` with the least such earlier event. `None` comes exactly where the choice is legal.
    /// It takes no memory; its time grows with the events and the slots that they take.
    pub fn first_fault(&self, a: &Choice) -> Option<RoomFault>
        requires { IsChoice self.now a.now.entries }
        ensures fault { result ≡ first_fault self.now a.now.entries }
        ensures none { (result ≡ None) ↔ IsLegal self.now a.now.entries }
    {
        let mut table = unmarked();
        let cells = self.room_count() as usize * self.slot_count() as usize;
        fault_by_table(self, a.entries.as_slice(), &mut table[..cells])
    }
}

/// As many cells as the most rooms (200) and the most slots (672) have.
const CELLS: usize = 134_400;

/// A table of which no cell is marked. It stands on the stack.
fn unmarked() -> [bool; CELLS]
    ensures { (k : ℕ) (d : Bool) → k < CELLS → slice_index_or result k d ≡ false }
{
    [false; CELLS]
}

/// The first fault of the choice. The table marks, by room and slot, which rooms the events so far have.
fn fault_by_table(p: &Problem, entries: &[u32], taken: &mut [bool]) -> Option<RoomFault>
    requires choice { IsChoice p.now entries.now }
    requires whole { length taken.old ≡ length p.now.capacity * p.now.slots }
    requires unmarked { (k : ℕ) (d : Bool) → k < length taken.old → slice_index_or taken.old k d ≡ false }
    ensures { result ≡ first_fault p.now entries.now }
{
    for event in 0..p.event_count() {
        match fault_of(p, entries, taken, event) {
            Some(fault) => return Some(fault),
            None => take_room(p, taken, event, entries[event as usize]),
        }
    }
    None
}

fn are_known(entries: &[u32], rooms: u32) -> bool
    ensures { result ≡ list_all (λ x. nat_le x rooms) entries.now }
{
    entries.iter().all(|x| *x <= rooms)
}

/// What is wrong with the event. Only where the table says that something is are the earlier events read.
fn fault_of(p: &Problem, entries: &[u32], taken: &[bool], event: u32) -> Option<RoomFault>
    requires choice { IsChoice p.now entries.now }
    requires known { event < length p.now.events }
    requires taken { IsTaken p.now entries.now event taken.now }
    ensures { result ≡ fault_of p.now entries.now event }
{
    let entry = entries[event as usize];
    if entry == 0 {
        None
    } else if can_take(p, taken, event, entry - 1) {
        None
    } else if p.suits(event, entry - 1) {
        clash_of(first_holder(p, entries, event, entry), event)
    } else {
        Some(RoomFault::Unsuitable { event })
    }
}

fn clash_of(found: u32, event: u32) -> Option<RoomFault>
    ensures { result ≡ clash_of found event }
{
    if found == 0 {
        None
    } else {
        Some(RoomFault::Clash {
            first: found - 1,
            second: event,
        })
    }
}

/// The least earlier event with the entry and a slot in common with the event, + 1; else 0.
pub fn first_holder(p: &Problem, entries: &[u32], event: u32, entry: u32) -> u32
    requires known { event < length p.now.events }
    requires all_earlier { event ≤ length entries.now }
    ensures { result ≡ first_from (holds p.now entries.now event entry) 0 event }
{
    for other in 0..event {
        if holds(p, entries[other as usize], entry, other, event) {
            return other + 1;
        }
    }
    0
}

fn holds(p: &Problem, found: u32, entry: u32, other: u32, event: u32) -> bool
    requires known { event < length p.now.events }
    requires known_other { other < length p.now.events }
    ensures { result ≡ ((found == entry) && share_slot p.now other event) }
{
    found == entry && p.share_slot(other, event)
}
