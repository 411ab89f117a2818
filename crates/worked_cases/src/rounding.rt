ghost use Rattle.std.specs.Prelude.{IfOk};
ghost use Rattle.packing_model.specs.Built.{packing};
ghost use Rattle.search_nodes.specs.Points.{IsPointOf};

use crate::model::{Task, judge};
use crate::points::{Case, point_of};
use clique_cuts::rounded;
use packing_model::{Fixing, Measured, Model, ObjectiveAt, Point, Pool};
use problem_core::Choice;
use std::alloc::Global;
use std::process::Abort;
use std::test::Fail;
use worked_shapes::{are_values, two_courses};

/// A point at a level of the measures with the targets of those below and a best value, and the rooms that
/// are better, where there are such.
#[derive(Clone, Copy)]
struct Rounding {
    point: Case,
    targets: &'static [i64],
    best: i64,
    rooms: &'static [u32],
}

/// Points of the two courses with three rooms each. The patterns 2 and 4 are the first room for two meetings
/// of the first course and the second room for the third, and so are 11 and 13 for the second course; the
/// measures of these rooms are 6, 60, 3000, 0, -4, 0.
fn roundings() -> [Rounding; 7] {
    let whole = Rounding {
        point: Case {
            den: 1,
            entries: &[(2, 1), (4, 1), (11, 1), (13, 1)],
            broken: &[],
        },
        targets: &[6, 60, 3000, 0],
        best: -5,
        rooms: &[1, 1, 2, 4, 4, 5],
    };
    let halves = Case {
        den: 3,
        entries: &[(2, 2), (5, 1), (8, 1), (11, 2), (14, 1), (17, 1)],
        broken: &[],
    };
    [
        whole,
        // no better, and another target
        Rounding {
            best: -4,
            rooms: &[],
            ..whole
        },
        Rounding {
            targets: &[6, 60, 3000, 1],
            rooms: &[],
            ..whole
        },
        // by falling entry two meetings of each course have a room, and one none
        Rounding {
            point: halves,
            targets: &[],
            best: 3,
            rooms: &[1, 1, 0, 4, 4, 0],
        },
        // slot by slot each meeting has a room: two in that of its course's largest pattern, the third in another
        Rounding {
            point: halves,
            ..whole
        },
        Rounding {
            point: Case {
                den: 2,
                entries: &[(2, 1), (5, 1), (8, 1), (11, 1), (14, 1), (17, 1)],
                broken: &[],
            },
            ..whole
        },
        Rounding {
            point: halves,
            best: -4,
            rooms: &[],
            ..whole
        },
    ]
}

/// The better rooms, where some are found.
fn rooms_of(
    alloc: Global,
    model: &Model,
    point: &Point,
    targets: &[i64],
    best: i64,
) -> Result<Option<Choice>, Fail>
    requires { IsPointOf (packing model.now) point.now }
{
    if targets.len() > 5 || !are_values(targets) {
        return Err(Fail::new("a target is out of bounds"));
    }
    let pool = Pool::new(alloc);
    let fixing = Fixing::empty(alloc);
    let objective = Measured::new(model);
    let at = ObjectiveAt {
        model,
        pool: &pool,
        fixing: &fixing,
        objective: &objective,
        level: targets.len() as u32 + 1,
        targets,
        best: Some(best),
    };
    Ok(rounded(alloc, &at, point)?)
}

/// That each of the points is rounded as it says.
pub fn judge_rounding(rt: &impl Abort, alloc: Global, model: &Model) -> Result<(), Fail> {
    for rounding in roundings() {
        let point = point_of(alloc, model, rounding.point)?;
        let found = rooms_of(alloc, model, &point, rounding.targets, rounding.best)?;
        assert!(rt; found.is_some() != rounding.rooms.is_empty());
        if let Some(choice) = &found {
            assert!(rt; choice.entries.as_slice() == rounding.rooms);
        }
    }
    Ok(())
}

#[test]
fn rounds_points_of_two_courses(rt: HostRuntime) -> Result<(), Fail> {
    judge(&rt, rt.alloc(), &two_courses(), Task::Rounding)
}
