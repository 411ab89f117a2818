ghost use Rattle.std.specs.Prelude.{◌≡◌, ◌<◌, ◌≤◌, ◌+◌, ◌*◌, ◌++◌, ◌∷◌, [], ℕ, IfOk, OnOk, length, slice_index, slice_set, nat_lt, if◌then◌else◌};
ghost use Rattle.problem_core.specs.OfParts.{facts_of};
ghost use Rattle.problem_core.specs.Kept.{EventFits};
ghost use Rattle.problem_core.specs.Courses.{IsCourseTable, meetings_of};
ghost use Rattle.std.specs.List.{All};

use crate::parts::Parts;
use std::alloc::{AllocError, Global};

/// The most events of a course that have a place in its row.
pub const ROW: usize = 12;

/// The events of each course, in order: by course how many it has, and a row of the first twelve of
/// them; by event how many earlier ones its course has.
#[derive(Drop)]
pub struct CourseTable {
    pub sizes: Vec<u32>,
    pub order: Vec<u32>,
    pub places: Vec<u32>,
}

/// The table of the parts' events.
pub fn course_table(alloc: Global, parts: &Parts) -> Result<CourseTable, AllocError>
    requires few { length parts.now.events ≤ 4000 }
    requires few_courses { length parts.now.students ≤ 1000 }
    requires known { All (EventFits (length parts.now.students) parts.now.slots) parts.now.events }
    ensures { IfOk result (λ t. IsCourseTable (facts_of parts.now) (length parts.now.events) t.sizes.items t.order.items t.places.items) }
{
    let courses = parts.students.len();
    let events = parts.events.as_slice();
    let mut table = CourseTable {
        sizes: vec![in alloc; 0; courses]?,
        order: vec![in alloc; 0; courses * ROW]?,
        places: Vec::new(alloc),
    };
    for event in 0..events.len() {
        table.add(event as u32, events[event].course as usize)?;
    }
    Ok(table)
}

impl CourseTable {
    /// Adds the next event to its course.
    fn add(&mut self, event: u32, course: usize) -> Result<(), AllocError>
        requires known { course < length self.old.sizes.items }
        requires full { length self.old.order.items ≡ length self.old.sizes.items * 12 }
        requires few { slice_index self.old.sizes.items course < 4000 }
        requires few_courses { length self.old.sizes.items ≤ 1000 }
        ensures places { OnOk result (self.new.places.items ≡ self.old.places.items ++ slice_index self.old.sizes.items course ∷ []) }
        ensures order { OnOk result (self.new.order.items ≡ (if nat_lt (slice_index self.old.sizes.items course) 12
            then slice_set self.old.order.items (course * 12 + slice_index self.old.sizes.items course) event
            else self.old.order.items)) }
        ensures sizes { OnOk result (self.new.sizes.items ≡ slice_set self.old.sizes.items course (slice_index self.old.sizes.items course + 1)) }
    {
        let place = self.sizes[course];
        self.places.push(place)?;
        self.put(event, course, place as usize);
        self.sizes[course] = place + 1;
        Ok(())
    }

    /// Writes the event into its course's row where its place is in the row.
    fn put(&mut self, event: u32, course: usize, place: usize)
        requires known { course < length self.old.sizes.items }
        requires full { length self.old.order.items ≡ length self.old.sizes.items * 12 }
        requires few_courses { length self.old.sizes.items ≤ 1000 }
        ensures order { self.new.order.items ≡ (if nat_lt place 12 then slice_set self.old.order.items (course * 12 + place) event
            else self.old.order.items) }
        ensures sizes { self.new.sizes.items ≡ self.old.sizes.items }
        ensures places { self.new.places.items ≡ self.old.places.items }
    {
        if place < ROW {
            self.order[course * ROW + place] = event;
        }
    }
}
