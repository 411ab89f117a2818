use std::alloc::AllocError;
use values::Items;

/// Memory ran out.
#[derive(Clone, Copy, Debug)]
pub struct Memory;

impl From<AllocError> for Memory {
    ghost from_gives = { λ _ _. Unit {0} };

    fn from(_: AllocError) -> Memory {
        Memory
    }
}

/// Rooms for the events of a problem: one entry an event, 0 for no room, else the room's number + 1.
#[derive(Drop)]
pub struct Choice {
    pub entries: Items<u32>,
}

/// What keeps a choice from being legal.
#[derive(Clone, Copy, PartialEq, Eq)]
pub enum RoomFault {
    /// The event's room doesn't suit it.
    Unsuitable { event: u32 },
    /// Two events with a slot in common have one room; the earlier one first.
    Clash { first: u32, second: u32 },
}
