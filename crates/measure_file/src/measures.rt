use values::{Items, Text};

/// What a measures file says. Courses and rooms are those of the instance, by number; features are numbered from 0
/// in the order of first appearance in the file. Each list has its lines in the order of the file.
#[derive(Drop)]
pub struct Measures {
    /// The names of the features.
    pub features: Items<Text>,
    /// Room and feature: the room has the feature.
    pub has: Items<(u32, u32)>,
    /// Course and feature: the course needs the feature.
    pub needs: Items<(u32, u32)>,
    /// Course and room: the course is not to be in the room.
    pub denied: Items<(u32, u32)>,
    /// Room, day and period at which the room is closed.
    pub closed: Items<(u32, u32, u32)>,
    /// Course, room and the points of a meeting of the course in the room.
    pub prefer: Items<(u32, u32, i32)>,
    /// Threshold of spare room and points; the thresholds rise.
    pub robust: Items<(u32, i32)>,
    /// Course and the number of periods that each of its meetings takes.
    pub lengths: Items<(u32, u32)>,
}
