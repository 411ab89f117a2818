/// A row over patterns. All but the level rows say "at most one of these patterns".
#[derive(Clone, Copy, PartialEq, Eq)]
pub enum Row {
    /// The patterns that hold the event.
    Event(u32),
    /// The patterns in the room that take the slot.
    RoomSlot { room: u32, slot: u32 },
    /// The patterns of the course in the room.
    CourseRoom { course: u32, room: u32 },
    /// The patterns of the cut.
    Cut(u32),
    /// The weights at the level.
    Level(u32),
}
