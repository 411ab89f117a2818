use crate::tasks::{answer_by_plan, at_most, equal};
use exact_num::{Arith, Exact64, Exact128, Refusing};
use exact_simplex::{LpAnswer, LpRow, Plan};
use std::alloc::Global;
use std::test::Fail;

/// What an answer is, with the gain of the best point.
#[derive(Clone, Copy, PartialEq, Eq)]
enum Want {
    Best(i64),
    Empty,
    Ray,
}

/// A row: whether it fixes its sum, its entries, and its side.
type Line = (bool, &'static [(u32, i64)], i64);

/// A task: the gains, the rows, and the answer.
type Task = (&'static [i64], &'static [Line], Want);

/// Tasks without columns, without rows, with rows without entries, with equations that contradict each other,
/// with gains that are all 0, with negative sides, with equations at their extremes, and with numbers at the
/// limits of 64 bits. The answers were found by hand.
const TASKS: &[Task] = &[
    (&[], &[], Want::Best(0)),
    (&[], &[(true, &[], 1)], Want::Empty),
    (&[], &[(true, &[], -1)], Want::Empty),
    (&[], &[(true, &[], 0), (false, &[], 0)], Want::Best(0)),
    (&[], &[(false, &[], -1)], Want::Empty),
    (&[1], &[], Want::Ray),
    (&[0], &[], Want::Best(0)),
    (&[-1], &[], Want::Best(0)),
    (&[i64::MIN], &[], Want::Best(0)),
    (&[1], &[(false, &[], 5)], Want::Ray),
    (
        &[0, 0],
        &[(false, &[(0, 1), (1, 1)], 1), (true, &[(0, 1), (1, 1)], 2)],
        Want::Empty,
    ),
    (
        &[1],
        &[(true, &[(0, 1)], 1), (true, &[(0, 1)], 2)],
        Want::Empty,
    ),
    (
        &[0, 0, 0],
        &[(false, &[(0, 1), (1, 1)], 1), (false, &[(1, 1), (2, 1)], 1)],
        Want::Best(0),
    ),
    (&[1], &[(false, &[(0, 1)], -1)], Want::Empty),
    (&[1], &[(false, &[(0, -1)], -1)], Want::Ray),
    (&[-1], &[(false, &[(0, -1)], -1)], Want::Best(-1)),
    (&[-1], &[(true, &[(0, -1)], -3)], Want::Best(-3)),
    (&[1], &[(true, &[(0, -1)], 1)], Want::Empty),
    (
        &[1, 2],
        &[(true, &[(0, 1), (1, 1)], 1), (true, &[(0, 2), (1, 2)], 2)],
        Want::Best(2),
    ),
    (
        &[-5, -3],
        &[(false, &[(0, 1), (1, 1)], 1), (true, &[(0, 1), (1, 1)], 1)],
        Want::Best(-3),
    ),
    (
        &[0, 0],
        &[
            (false, &[(0, 1), (1, 1)], 1),
            (true, &[(0, 1), (1, 1)], 1),
            (true, &[(0, 1), (1, -1)], 3),
        ],
        Want::Empty,
    ),
    (
        &[1, 0],
        &[
            (false, &[(0, 1), (1, 2)], 4),
            (true, &[(0, 3), (1, 6)], 12),
            (false, &[(0, 1)], 1),
        ],
        Want::Best(1),
    ),
    (
        &[i64::MAX],
        &[(false, &[(0, i64::MAX)], i64::MAX)],
        Want::Best(i64::MAX),
    ),
    (
        &[-1],
        &[(false, &[(0, i64::MIN)], i64::MIN)],
        Want::Best(-1),
    ),
];

/// No row leads and the gain is not driven before; all rows lead; the gain is driven before the first, the
/// second or no row.
const PLANS: &[(u32, Option<u32>)] = &[
    (0, None),
    (9, None),
    (0, Some(0)),
    (1, Some(1)),
    (9, Some(2)),
    (0, Some(9)),
];

/// The rows of a task.
fn rows(alloc: Global, lines: &[Line]) -> Result<Vec<LpRow>, Fail> {
    let mut rows = Vec::new(alloc);
    for line in lines {
        let row = if line.0 {
            equal(alloc, line.1, line.2)?
        } else {
            at_most(alloc, line.1, line.2)?
        };
        rows.push(row)?;
    }
    Ok(rows)
}

/// The sum of the gains of a point.
fn gain_of(gains: &[i64], x: &[i128]) -> i128 {
    let mut sum: i128 = 0;
    for (gain, number) in gains.iter().zip(x.iter()) {
        sum = sum.wrapping_add(i128::from(*gain).wrapping_mul(*number));
    }
    sum
}

/// Whether an answer is the one that is wanted.
fn is_wanted(answer: &LpAnswer, gains: &[i64], want: Want) -> bool {
    match (answer, want) {
        (LpAnswer::Best { x, xden, .. }, Want::Best(gain)) => {
            gain_of(gains, x.as_slice()) == i128::from(gain).wrapping_mul(*xden)
        }
        (LpAnswer::Empty { .. }, Want::Empty) => true,
        (LpAnswer::Ray { .. }, Want::Ray) => true,
        _ => false,
    }
}

/// Whether a task is answered as wanted, or with a refusal that was counted where one may come.
fn is_answered<A: Arith>(
    alloc: Global,
    arith: &mut A,
    task: &Task,
    plan: (u32, Option<u32>),
    may_refuse: bool,
) -> Result<bool, Fail> {
    let plan = Plan {
        leading: plan.0,
        ascent: plan.1,
    };
    let answer = answer_by_plan(alloc, arith, task.0, rows(alloc, task.1)?, plan)?;
    match answer {
        LpAnswer::Wide => Ok(may_refuse && arith.wide_count() > 0),
        _ => Ok(is_wanted(&answer, task.0, task.2)),
    }
}

#[test]
fn tasks_at_the_limits_by_each_plan(rt: HostRuntime) -> Result<(), Fail> {
    for task in TASKS {
        for plan in PLANS {
            assert!(rt; is_answered(rt.alloc(), &mut Exact128::new(), task, *plan, false)?);
            assert!(rt; is_answered(rt.alloc(), &mut Exact64::new(), task, *plan, true)?);
        }
    }
    Ok(())
}

#[test]
fn tasks_where_each_number_is_refused(rt: HostRuntime) -> Result<(), Fail> {
    for task in TASKS {
        let mut arith = Refusing::new();
        let plan = Plan {
            leading: 1,
            ascent: Some(0),
        };
        let answer = answer_by_plan(
            rt.alloc(),
            &mut arith,
            task.0,
            rows(rt.alloc(), task.1)?,
            plan,
        )?;
        assert!(rt; matches!(answer, LpAnswer::Wide));
        assert!(rt; arith.wide_count() > 0);
    }
    Ok(())
}
