ghost use Rattle.std.specs.Prelude.{◌≡◌, ◌≤◌, ◌<◌, ◌++◌, IfOk, OnOk};
ghost use Rattle.demo_files.specs.Generator.{meeting_at, meetings_of, times_of};

use std::alloc::{AllocError, Global};
use timed_solution::{Meeting, Times};
use values::Items;

/// The meetings of `n` courses, course after course.
#[tactic(auto, using(crate::proofs::IndexLemmas::joined_more))]
pub fn demo_times(alloc: Global, n: u32) -> Result<Times, AllocError>
    requires { n ≤ 300 }
    ensures { IfOk result (λ times. times ≡ times_of n) }
{
    let mut meetings = Items::new(alloc);
    for course in 0..n {
        add_meetings(&mut meetings, course)?;
    }
    Ok(Times { meetings })
}

/// Adds the meetings of the course.
#[tactic(auto, using(crate::proofs::IndexLemmas::appended_more))]
fn add_meetings(meetings: &mut Items<Meeting>, course: u32) -> Result<(), AllocError>
    requires { course < 300 }
    ensures { OnOk result (meetings.new ≡ meetings.old ++ meetings_of course) }
{
    for place in 0..1 + course % 3 {
        meetings.push(meeting(course, place))?;
    }
    Ok(())
}

/// The meeting of this place among those of its course.
fn meeting(course: u32, place: u32) -> Meeting
    requires course { course < 300 }
    requires place { place < 3 }
    ensures { result ≡ meeting_at course place }
{
    let slot = (course * 7 + place * 11) % 40;
    Meeting {
        course,
        room: 0,
        day: slot / 8,
        period: slot % 8,
    }
}
