ghost use Rattle.std.specs.Prelude.{IsTrue};
ghost use Rattle.problem_core.specs.OfParts.{well_formed};
ghost use Rattle.problem_core.specs.MadeTables.{MakesTables};

use crate::courses::{CourseTable, course_table};
use crate::grid::{admitted, closed, points};
use crate::limit::{BuildFault, Limit, LimitKind};
use crate::over::course_limit;
use crate::parts::Parts;
use std::alloc::Global;

/// What a problem keeps beside its parts, so that what is asked of it is looked up.
#[derive(Drop)]
pub struct ProblemTables {
    pub courses: CourseTable,
    pub admitted: Vec<bool>,
    pub closed: Vec<bool>,
    pub points: Vec<i32>,
}

/// The tables of the parts, or the limit on meetings that they pass.
pub fn problem_tables(alloc: Global, parts: &Parts) -> Result<ProblemTables, BuildFault>
    requires { IsTrue (well_formed parts.now) }
    ensures { MakesTables parts.now result }
{
    let count = parts.events.len();
    if 4000 < count {
        return Err(BuildFault::Limit(Limit {
            kind: LimitKind::Meetings,
            count: count as u64,
            limit: 4000,
        }));
    }
    let courses = course_table(alloc, parts)?;
    match course_limit(parts, &courses) {
        Some(limit) => return Err(BuildFault::Limit(limit)),
        None => {}
    }
    let admitted = admitted(alloc, parts)?;
    let closed = closed(alloc, parts)?;
    let points = points(alloc, parts)?;
    Ok(ProblemTables {
        courses,
        admitted,
        closed,
        points,
    })
}
