ghost use Rattle.std.specs.Prelude.{◌≡◌, IfOk, map, true, length, None, ℕ};
ghost use Rattle.ctt_reader.specs.Promised.{IsInstance};
ghost use Rattle.timed_solution.specs.Times.{AreTimes};
ghost use Rattle.measure_file.specs.Promised.{AreMeasures};
ghost use Rattle.room_model.specs.ProblemOf.{parts_of, closed_slot, sets_of};
ghost use Rattle.ctt_reader.specs.declared.instance.Course.{Course};
ghost use Rattle.ctt_reader.specs.declared.instance.Room.{Room};
ghost use Rattle.room_model.specs.Long.{Converts, long_fault};
ghost use Rattle.room_model.specs.declared.problem.ProblemFault.TheVariants.{Memory as OutOfMemory};

use crate::calendar::Calendar;
use crate::long::{LongFault, long_fault};
use crate::sets::feature_sets;
use ctt_reader::Instance;
use measure_file::Measures;
use problem_core::{BuildFault, Limit, Parts, Problem};
use std::alloc::{AllocError, Global};
use timed_solution::Times;
use values::Items;

/// Why the files give no problem.
#[derive(Clone, Copy, Debug)]
pub enum ProblemFault {
    /// A meeting is too long for its day, or for another one of its course.
    Long(LongFault),
    /// There are too many meetings.
    Limit(Limit),
    /// Memory ran out.
    Memory,
}

impl From<AllocError> for ProblemFault {
    ghost from_gives = { λ _ f. f ≡ OutOfMemory };

    fn from(_: AllocError) -> ProblemFault {
        ProblemFault::Memory
    }
}

/// The problem of an instance, its times and its measures. The events are the meetings in their order; each takes
/// as many slots as its course's length says, from the one of its day and period on. `Long` comes exactly where a
/// meeting goes on past its day's last period or shares a slot with an earlier meeting of its course, and names the
/// least such meeting: `PastDay` where it passes the day, else `Overlap` with the least such earlier one. `Limit`
/// comes only where no `Long` does, exactly where there are more than 4,000 meetings, else where a course has more
/// than 12 (the lowest such course).
pub fn to_problem(
    alloc: Global,
    instance: &Instance,
    times: &Times,
    measures: &Measures,
) -> Result<Problem, ProblemFault>
    requires instance { IsInstance instance.now }
    requires times { AreTimes instance.now times.now.meetings }
    requires measures { AreMeasures instance.now measures.now }
    ensures { Converts instance.now times.now measures.now result }
{
    let calendar = Calendar::new(alloc, instance, measures)?;
    match long_fault(alloc, &calendar, times.meetings.as_slice())? {
        Some(fault) => return Err(ProblemFault::Long(fault)),
        None => {}
    }
    let parts = parts(alloc, &calendar, instance, times, measures)?;
    match Problem::build(alloc, parts) {
        Ok(problem) => Ok(problem),
        Err(BuildFault::Limit(limit)) => Err(ProblemFault::Limit(limit)),
        Err(BuildFault::Memory) => Err(ProblemFault::Memory),
    }
}

/// The parts of the problem.
fn parts(
    alloc: Global,
    calendar: &Calendar,
    instance: &Instance,
    times: &Times,
    measures: &Measures,
) -> Result<Parts, AllocError>
    requires same { calendar.now ≡ record { instance = instance.now; measures = measures.now } }
    requires instance { IsInstance instance.now }
    requires times { AreTimes instance.now times.now.meetings }
    requires measures { AreMeasures instance.now measures.now }
    ensures { IfOk result (λ p. p ≡ parts_of instance.now times.now measures.now) }
{
    let courses = course_parts(alloc, instance, measures)?;
    let rooms = room_parts(alloc, instance, measures)?;
    let wishes = wish_parts(alloc, calendar, measures)?;
    Ok(Parts {
        students: courses.students,
        needs: courses.needs,
        capacity: rooms.capacity,
        features: rooms.features,
        slots: calendar.slots(),
        events: calendar.events(alloc, times.meetings.as_slice())?,
        denied: wishes.denied,
        closed: wishes.closed,
        prefer: wishes.prefer,
        robust: wishes.robust,
    })
}

/// By course, its students and the features that it needs.
#[derive(Drop)]
struct CourseParts {
    students: Items<u32>,
    needs: Items<u128>,
}

/// What the files say of courses.
fn course_parts(
    alloc: Global,
    instance: &Instance,
    measures: &Measures,
) -> Result<CourseParts, AllocError>
    requires instance { IsInstance instance.now }
    requires measures { AreMeasures instance.now measures.now }
    ensures students { IfOk result (λ c. c.students ≡ map (λ (x : Course). x.students) instance.now.courses) }
    ensures needs { IfOk result (λ c. c.needs ≡ sets_of (length instance.now.courses) measures.now.needs) }
{
    let courses = instance.courses.as_slice();
    let students: Vec<u32> = courses.iter().map(|c| c.students).collect(alloc)?;
    Ok(CourseParts {
        students: Items::from(students),
        needs: feature_sets(
            alloc,
            courses.len(),
            measures.features.len(),
            measures.needs.as_slice(),
        )?,
    })
}

/// By room, its capacity and the features that it has.
#[derive(Drop)]
struct RoomParts {
    capacity: Items<u32>,
    features: Items<u128>,
}

/// What the files say of rooms.
fn room_parts(
    alloc: Global,
    instance: &Instance,
    measures: &Measures,
) -> Result<RoomParts, AllocError>
    requires instance { IsInstance instance.now }
    requires measures { AreMeasures instance.now measures.now }
    ensures capacity { IfOk result (λ r. r.capacity ≡ map (λ (x : Room). x.capacity) instance.now.rooms) }
    ensures features { IfOk result (λ r. r.features ≡ sets_of (length instance.now.rooms) measures.now.has) }
{
    let rooms = instance.rooms.as_slice();
    let capacity: Vec<u32> = rooms.iter().map(|r| r.capacity).collect(alloc)?;
    Ok(RoomParts {
        capacity: Items::from(capacity),
        features: feature_sets(
            alloc,
            rooms.len(),
            measures.features.len(),
            measures.has.as_slice(),
        )?,
    })
}

/// What an office wishes of rooms: denials, closures, preferences and the points of spare seats.
#[derive(Drop)]
struct WishParts {
    denied: Items<(u32, u32)>,
    closed: Items<(u32, u32)>,
    prefer: Items<(u32, u32, i32)>,
    robust: Items<(u32, i32)>,
}

/// What the measures wish of rooms.
fn wish_parts(
    alloc: Global,
    calendar: &Calendar,
    measures: &Measures,
) -> Result<WishParts, AllocError>
    requires instance { IsInstance calendar.now.instance }
    requires measures { AreMeasures calendar.now.instance measures.now }
    ensures denied { IfOk result (λ w. w.denied ≡ measures.now.denied) }
    ensures closed { IfOk result (λ w. w.closed ≡ map (closed_slot calendar.now.instance.periods) measures.now.closed) }
    ensures prefer { IfOk result (λ w. w.prefer ≡ measures.now.prefer) }
    ensures robust { IfOk result (λ w. w.robust ≡ measures.now.robust) }
{
    Ok(WishParts {
        denied: Items::from_slice(alloc, measures.denied.as_slice())?,
        closed: calendar.closed_slots(alloc, measures.closed.as_slice())?,
        prefer: Items::from_slice(alloc, measures.prefer.as_slice())?,
        robust: Items::from_slice(alloc, measures.robust.as_slice())?,
    })
}
