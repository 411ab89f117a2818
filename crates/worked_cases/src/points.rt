ghost use Rattle.std.specs.Prelude.{◌≡◌, ◌<◌, ℕ, ℤ, nat_lt, length, map, IfOk};
ghost use Rattle.std.specs.List.{list_all};
ghost use Rattle.meeting_patterns.specs.Pattern.{patterns_of};
ghost use Rattle.packing_model.specs.Built.{packing};
ghost use Rattle.packing_model.specs.Rising.{is_rising, rises_from};
ghost use Rattle.search_nodes.specs.Points.{IsPointOf, is_part};

use crate::model::{Task, judge};
use clique_cuts::separate;
use packing_model::{Model, Point};
use std::alloc::Global;
use std::process::Abort;
use std::test::Fail;
use values::Items;
use worked_shapes::{Shape, one_meeting, two_courses};

/// A point, and lists of patterns one of which is in the cut that it breaks; where there is no list, it
/// breaks none.
#[derive(Clone, Copy)]
pub struct Case {
    pub den: i128,
    pub entries: &'static [(u32, i128)],
    pub broken: &'static [&'static [u32]],
}

/// Points of the two courses with three rooms each. Each course has three patterns of two meetings in three
/// rooms that clash in pairs: 2, 5 and 8, and 11, 14 and 17.
fn points_of_two_courses() -> [Case; 10] {
    [
        // each course in halves
        Case {
            den: 2,
            entries: &[(2, 1), (5, 1), (8, 1), (11, 1), (14, 1), (17, 1)],
            broken: &[&[2, 5, 8], &[11, 14, 17]],
        },
        // a clique in the one course, and in the other
        Case {
            den: 2,
            entries: &[(2, 1), (5, 1), (8, 1), (9, 2)],
            broken: &[&[2, 5, 8]],
        },
        Case {
            den: 1_000,
            entries: &[
                (0, 1),
                (2, 333),
                (5, 333),
                (8, 333),
                (11, 334),
                (14, 333),
                (17, 334),
            ],
            broken: &[&[11, 14, 17]],
        },
        // a pair
        Case {
            den: 3,
            entries: &[(2, 2), (5, 2)],
            broken: &[&[2, 5]],
        },
        // three of which two don't clash
        Case {
            den: 1,
            entries: &[(0, 1), (4, 1), (8, 1)],
            broken: &[&[0, 8], &[4, 8]],
        },
        // nothing is broken: exactly the denominator, and patterns of different courses
        Case {
            den: 3,
            entries: &[(2, 1), (5, 1), (8, 1)],
            broken: &[],
        },
        Case {
            den: 2,
            entries: &[(2, 1), (5, 1), (11, 1), (14, 1)],
            broken: &[],
        },
        Case {
            den: 1,
            entries: &[(2, 1), (4, 1), (11, 1), (13, 1)],
            broken: &[],
        },
        Case {
            den: 1,
            entries: &[],
            broken: &[],
        },
        // large numbers
        Case {
            den: 1_000_000_000_000_000_000_000_000,
            entries: &[
                (2, 500_000_000_000_000_000_000_000),
                (5, 500_000_000_000_000_000_000_000),
                (8, 1),
            ],
            broken: &[&[2, 5, 8]],
        },
    ]
}

/// Three courses with two meetings each in one room: each two have a slot in common, and no slot is common
/// to all.
fn one_room() -> Shape<'static> {
    Shape {
        students: &[10, 10, 10],
        needs: &[0, 0, 0],
        meetings: &[
            (0, 0, 1),
            (0, 1, 1),
            (1, 1, 1),
            (1, 2, 1),
            (2, 0, 1),
            (2, 2, 1),
        ],
        slots: 3,
        ..one_meeting()
    }
}

/// Points of the three courses: the patterns 2, 5 and 8 have both meetings of a course.
fn points_of_one_room() -> [Case; 2] {
    [
        Case {
            den: 2,
            entries: &[(2, 1), (5, 1), (8, 1)],
            broken: &[&[2, 5, 8]],
        },
        // the three halves of different meetings have no clique in them
        Case {
            den: 2,
            entries: &[(0, 1), (1, 1), (3, 1), (4, 1), (6, 1), (7, 1)],
            broken: &[],
        },
    ]
}

/// Whether the entries stand by rising pattern.
fn are_rising(entries: &[(u32, i128)]) -> bool
    ensures { result ≡ is_rising (map (λ (e : ℕ × ℤ). e.0) entries.now) }
{
    let Some((first, rest)) = entries.split_first() else {
        return true;
    };
    let mut last = first.0;
    for entry in rest {
        if entry.0 <= last {
            return false;
        }
        last = entry.0;
    }
    true
}

/// Whether the entries are of patterns of the model.
fn are_known(model: &Model, entries: &[(u32, i128)]) -> bool
    ensures { result ≡ list_all (λ (e : ℕ × ℤ). nat_lt e.0 (packing model.now).count) entries.now }
{
    let count = model.patterns().len();
    for entry in entries {
        if entry.0 >= count {
            return false;
        }
    }
    true
}

/// Whether the entries are more than nothing and at most the denominator.
fn are_parts(den: i128, entries: &[(u32, i128)]) -> bool
    ensures { result ≡ list_all (is_part den) entries.now }
{
    for entry in entries {
        if !is_part(den, *entry) {
            return false;
        }
    }
    true
}

fn is_part(den: i128, entry: (u32, i128)) -> bool
    ensures { result ≡ is_part den entry }
{
    0 < entry.1 && entry.1 <= den
}

/// The point of the case.
pub fn point_of(alloc: Global, model: &Model, case: Case) -> Result<Point, Fail>
    ensures { IfOk result (λ x. IsPointOf (packing model.now) x) }
{
    if case.den <= 0 || case.den > 1_000_000_000_000_000_000_000_000 {
        return Err(Fail::new("the denominator is out of bounds"));
    }
    if !are_rising(case.entries) || !are_known(model, case.entries) {
        return Err(Fail::new("the patterns are not rising, or not known"));
    }
    if !are_parts(case.den, case.entries) {
        return Err(Fail::new("an entry is out of bounds"));
    }
    Ok(Point {
        den: case.den,
        entries: Items::from_slice(alloc, case.entries)?,
    })
}

/// Whether the list holds all of the patterns.
fn holds_all(list: &[u32], patterns: &[u32]) -> bool {
    patterns.iter().all(|pattern| list.contains(pattern))
}

/// Whether the cut is as large as can be: each other pattern doesn't clash with one of it.
fn is_largest(model: &Model, cut: &[u32]) -> bool {
    for pattern in 0..model.patterns().len() {
        if !cut.contains(&pattern) && clashes_with_all(model, pattern, cut) {
            return false;
        }
    }
    true
}

fn clashes_with_all(model: &Model, pattern: u32, cut: &[u32]) -> bool
    requires { pattern < length (patterns_of model.now) }
{
    for other in cut {
        if *other >= model.patterns().len() || !model.clash(pattern, *other) {
            return false;
        }
    }
    true
}

fn judge_case(rt: &impl Abort, alloc: Global, model: &Model, case: Case) -> Result<(), Fail> {
    let point = point_of(alloc, model, case)?;
    let found = separate(alloc, model, &point)?;
    let cut = match &found {
        Some(cut) => cut.patterns(),
        None => &[],
    };
    assert!(rt; found.is_some() != case.broken.is_empty());
    assert!(rt; case.broken.is_empty() || case.broken.iter().any(|list| holds_all(cut, list)));
    assert!(rt; is_largest(model, cut) || case.broken.is_empty());
    Ok(())
}

/// That each of the points is cut as the case says.
pub fn judge_points(
    rt: &impl Abort,
    alloc: Global,
    model: &Model,
    cases: &[Case],
) -> Result<(), Fail> {
    for case in cases {
        judge_case(rt, alloc, model, *case)?;
    }
    Ok(())
}

#[test]
fn separates_points_of_two_courses(rt: HostRuntime) -> Result<(), Fail> {
    judge(
        &rt,
        rt.alloc(),
        &two_courses(),
        Task::Points(&points_of_two_courses()),
    )
}

#[test]
fn separates_points_of_one_room(rt: HostRuntime) -> Result<(), Fail> {
    judge(
        &rt,
        rt.alloc(),
        &one_room(),
        Task::Points(&points_of_one_room()),
    )
}
