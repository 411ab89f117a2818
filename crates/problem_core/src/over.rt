ghost use Rattle.std.specs.Prelude.{◌≡◌, length};
ghost use Rattle.problem_core.specs.OfParts.{facts_of};
ghost use Rattle.problem_core.specs.Limits.{crowded_course, course_limit};
ghost use Rattle.problem_core.specs.Courses.{IsCourseTable};

use crate::courses::CourseTable;
use crate::limit::{Limit, LimitKind};
use crate::parts::Parts;

/// The limit on the meetings of a course that is passed. The table is of the parts' events.
pub fn course_limit(parts: &Parts, table: &CourseTable) -> Option<Limit>
    requires { IsCourseTable (facts_of parts.now) (length parts.now.events) table.now.sizes.items table.now.order.items table.now.places.items }
    ensures { result ≡ course_limit (facts_of parts.now) (crowded_course (facts_of parts.now)) }
{
    for course in 0..parts.students.len() {
        let count = table.sizes[course];
        if 12 < count {
            return Some(Limit {
                kind: LimitKind::CourseMeetings,
                count: u64::from(count),
                limit: 12,
            });
        }
    }
    None
}
