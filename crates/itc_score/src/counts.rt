/// The hard violations and the soft costs of a timed solution. Each soft cost has its weight in it.
#[derive(Clone, Copy)]
pub struct ScoreCounts {
    /// Lectures of the instance that are not held.
    pub missing: u64,
    /// Lectures that are held without a room.
    pub unroomed: u64,
    /// Pairs of lectures in one room and slot.
    pub occupancy: u64,
    /// Pairs of lectures in one slot, of different courses with one teacher or in one curriculum.
    pub conflicts: u64,
    /// Lectures in a slot at which their course is unavailable.
    pub availability: u64,
    /// Students above the capacity of the room of their lecture.
    pub capacity: u64,
    /// Five times the days that courses are short of their minimum working days.
    pub days: u64,
    /// Twice the lectures that stand alone in a curriculum, counted for each curriculum.
    pub compactness: u64,
    /// The rooms of each course beyond its first.
    pub stability: u64,
}
