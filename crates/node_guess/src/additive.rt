use crate::lists::{item_at, put};
use crate::reading::{pattern_of, weight_of};
use duality::Objective;
use meeting_patterns::Pattern;
use packing_model::ObjectiveAt;

/// The most meetings of a course.
const MEETINGS: u32 = 12;

/// What patterns of one meeting weigh, of the course and room that are looked at.
#[derive(Drop)]
struct Meetings {
    course: u32,
    room: u32,
    weights: [i64; 12],
}

/// Whether each pattern weighs at the level what its meetings weigh there one by one.
pub fn adds_up<O: Objective>(at: &ObjectiveAt<O>, level: u32) -> bool {
    let mut meetings = Meetings {
        course: 0,
        room: 0,
        weights: [0; 12],
    };
    for number in 0..at.model.patterns().len() {
        let pattern = pattern_of(at.model, number);
        if !meetings.adds_up(pattern, weight_of(at, level, number)) {
            return false;
        }
    }
    true
}

impl Meetings {
    /// Whether the pattern weighs what its meetings do; one of a single meeting says what that weighs. The
    /// patterns of a course and room stand together, those of a single meeting before others that have it.
    fn adds_up(&mut self, pattern: Pattern, weight: i64) -> bool {
        if pattern.course != self.course || pattern.room != self.room {
            self.course = pattern.course;
            self.room = pattern.room;
            self.weights = [0; 12];
        }
        if pattern.mask.count_ones() == 1 {
            put(&mut self.weights, pattern.mask.trailing_zeros(), weight);
            return true;
        }
        self.sum(pattern.mask) == weight
    }

    /// What the meetings of the mask weigh together.
    fn sum(&self, mask: u16) -> i64 {
        let mut sum: i64 = 0;
        for meeting in 0..MEETINGS {
            if (mask >> meeting) & 1 == 1 {
                sum = sum.wrapping_add(item_at(&self.weights, meeting, 0));
            }
        }
        sum
    }
}
