ghost use Rattle.std.specs.Prelude.{◌≡◌, ◌<◌, ◌≤◌, ◌≤ℤ◌, ◌^◌, pos, true, length, nat_lt, IfOk};
ghost use Rattle.std.specs.List.{list_all};
ghost use Rattle.duality.specs.Sums.{rises, rises_from, are_small, is_small, IsWithin};
ghost use Rattle.meeting_patterns.specs.Pattern.{patterns_of};
ghost use Rattle.packing_model.specs.Built.{packing};
ghost use Rattle.packing_model.specs.Rising.{is_rising};
ghost use Rattle.packing_model.specs.Nodes.{IsValidFixing};

use crate::model::{Task, judge};
use packing_model::{
    At, Cut, CutFault, Fixing, Leaf, LeafFault, Model, Pool, PoolFault, RowName, Term, leaf_closes,
};
use std::alloc::{AllocError, Global};
use std::process::Abort;
use std::test::Fail;
use values::Items;
use worked_shapes::{
    are_multipliers, are_rising, are_values, closed_once, is_multiplier, is_value, one_meeting,
    week,
};

/// What is done with the first pattern.
#[derive(Clone, Copy)]
enum First {
    Free,
    LeftOut,
    Taken,
}

/// A fixing of the first pattern at most.
fn fixing_of(alloc: Global, model: &Model, first: First) -> Result<Fixing, Fail>
    ensures { IfOk result (λ f. IsValidFixing (packing model.now) f) }
{
    if model.patterns().len() == 0 {
        return Err(Fail::new("no pattern"));
    }
    let mut fixing = Fixing::empty(alloc);
    match first {
        First::Free => {}
        First::LeftOut => fixing.add_zero(0)?,
        First::Taken => fixing.add_one(0)?,
    }
    Ok(fixing)
}

/// The verdict on the leaf at the level after the targets, without cuts.
fn verdict(
    alloc: Global,
    model: &Model,
    first: First,
    targets: &[i64],
    best: i64,
    leaf: &Leaf,
) -> Result<Result<(), LeafFault>, Fail> {
    if targets.len() > 5 {
        return Err(Fail::new("too many targets"));
    }
    if !are_values(targets) {
        return Err(Fail::new("a target is out of bounds"));
    }
    if !is_value(best) {
        return Err(Fail::new("the best value is out of bounds"));
    }
    if leaf.scale < 0 {
        return Err(Fail::new("the scale is negative"));
    }
    if !is_multiplier(leaf.scale) {
        return Err(Fail::new("the scale is out of bounds"));
    }
    let fixing = fixing_of(alloc, model, first)?;
    close(alloc, model, &fixing, targets, best, leaf)
}

fn close(
    alloc: Global,
    model: &Model,
    fixing: &Fixing,
    targets: &[i64],
    best: i64,
    leaf: &Leaf,
) -> Result<Result<(), LeafFault>, Fail>
    requires fixing { IsValidFixing (packing model.now) fixing.now }
    requires few { length targets.now ≤ 5 }
    requires targets { list_all (is_small (10 ^ 12)) targets.now ≡ true }
    requires best { is_small (10 ^ 12) best ≡ true }
    requires scale { pos 0 ≤ℤ leaf.now.scale }
    requires small_scale { is_small (10 ^ 24) leaf.now.scale ≡ true }
{
    let terms = leaf.terms.as_slice();
    if !are_multipliers(terms) {
        return Err(Fail::new("a multiplier is out of bounds"));
    }
    if !are_rising(terms) {
        return Err(Fail::new("the rows are not in order"));
    }
    let pool = Pool::new(alloc);
    let at = At {
        model,
        pool: &pool,
        fixing,
        level: targets.len() as u32 + 1,
        targets,
        best,
    };
    Ok(leaf_closes(&at, leaf))
}

/// A leaf of one term at most at the level after the targets, and what is said of it.
#[derive(Clone, Copy)]
struct SmallLeaf {
    targets: &'static [i64],
    best: i64,
    first: First,
    scale: i128,
    term: Option<(RowName, i128)>,
    verdict: Result<(), LeafFault>,
}

/// Leaves at the levels of the model of one meeting that say something of its pattern.
fn small_leaves() -> [SmallLeaf; 17] {
    let most = 1_000_000_000_000_000_000_000_000;
    let base = RowName::Base(0);
    let cost = Err(LeafFault::Cost { pattern: 0 });
    let sign = Err(LeafFault::Sign { at: 0 });
    let row = Err(LeafFault::Row { at: 0 });
    let first_level = SmallLeaf {
        targets: &[],
        best: 1,
        first: First::Free,
        scale: 1,
        term: None,
        verdict: Ok(()),
    };
    let second = SmallLeaf {
        targets: &[1],
        best: 10,
        ..first_level
    };
    let fourth = SmallLeaf {
        targets: &[1, 10, 500],
        best: 0,
        ..first_level
    };
    let fifth = SmallLeaf {
        targets: &[1, 10, 500, 0],
        best: -1,
        ..first_level
    };
    [
        SmallLeaf {
            term: Some((base, 1)),
            ..first_level
        },
        SmallLeaf {
            term: Some((RowName::Base(1), 1)),
            ..first_level
        },
        SmallLeaf {
            scale: most,
            term: Some((base, most)),
            ..first_level
        },
        SmallLeaf {
            verdict: cost,
            ..first_level
        },
        SmallLeaf {
            first: First::LeftOut,
            ..first_level
        },
        SmallLeaf {
            first: First::Taken,
            ..first_level
        },
        SmallLeaf {
            term: Some((base, 10)),
            ..second
        },
        SmallLeaf {
            term: Some((base, 9)),
            verdict: cost,
            ..second
        },
        SmallLeaf {
            term: Some((base, 11)),
            verdict: Err(LeafFault::Bound),
            ..second
        },
        SmallLeaf {
            term: Some((base, -1)),
            verdict: sign,
            ..second
        },
        SmallLeaf {
            targets: &[1, 10],
            best: 500,
            term: Some((base, 500)),
            ..first_level
        },
        fourth,
        SmallLeaf {
            scale: 0,
            verdict: Err(LeafFault::Bound),
            ..fourth
        },
        SmallLeaf {
            term: Some((RowName::Level(1), -1)),
            ..fifth
        },
        SmallLeaf {
            term: Some((RowName::Level(2), -1)),
            verdict: cost,
            ..fifth
        },
        SmallLeaf {
            term: Some((RowName::Level(5), -1)),
            verdict: row,
            ..fifth
        },
        SmallLeaf {
            targets: &[1, 10, 500, 0, -1],
            best: 0,
            ..first_level
        },
    ]
}

/// The leaf of one term at most.
fn leaf_of(alloc: Global, case: &SmallLeaf) -> Result<Leaf, AllocError> {
    let mut terms = Items::new(alloc);
    if let Some((row, times)) = case.term {
        terms.push(Term { row, times })?;
    }
    Ok(Leaf {
        scale: case.scale,
        terms,
    })
}

/// What is said of each of the small leaves.
pub fn judge_small_leaves(rt: &impl Abort, alloc: Global, model: &Model) -> Result<(), Fail> {
    for case in small_leaves() {
        let leaf = leaf_of(alloc, &case)?;
        let found = verdict(alloc, model, case.first, case.targets, case.best, &leaf)?;
        assert!(rt; found == case.verdict);
    }
    Ok(())
}

#[test]
fn judges_leaves_of_one_pattern(rt: HostRuntime) -> Result<(), Fail> {
    judge(&rt, rt.alloc(), &one_meeting(), Task::SmallLeaves)
}

/// A leaf of scale 1 at a level of the week: the multiplier of each meeting's row by its course, what is
/// added to it at the first meeting of the course, and whether the utilisation's row stands there with -1.
#[derive(Clone, Copy)]
struct WeekLeaf {
    targets: &'static [i64],
    best: i64,
    each: [i64; 12],
    first: i64,
    utilisation: bool,
}

/// Leaves that close the levels of the week.
fn week_leaves() -> [WeekLeaf; 6] {
    let hours = [1; 12];
    let students = [18, 15, 35, 38, 30, 55, 50, 90, 100, 150, 180, 36];
    let utilisation = [900, 375, 875, 950, 750, 916, 833, 900, 1_000, 750, 900, 600];
    let preference = [905, 375, 875, 950, 750, 919, 833, 900, 1_000, 750, 900, 599];
    let robustness = [902, 380, 877, 950, 755, 916, 835, 902, 1_000, 755, 902, 605];
    [
        WeekLeaf {
            targets: &[],
            best: 40,
            each: hours,
            first: 0,
            utilisation: false,
        },
        WeekLeaf {
            targets: &[40],
            best: 2_649,
            each: students,
            first: 0,
            utilisation: false,
        },
        WeekLeaf {
            targets: &[40, 2_649],
            best: 32_688,
            each: utilisation,
            first: 0,
            utilisation: false,
        },
        WeekLeaf {
            targets: &[40, 2_649, 32_688],
            best: 29,
            each: preference,
            first: 0,
            utilisation: true,
        },
        WeekLeaf {
            targets: &[40, 2_649, 32_688, 29],
            best: -12,
            each: utilisation,
            first: -1,
            utilisation: true,
        },
        WeekLeaf {
            targets: &[40, 2_649, 32_688, 29, -12],
            best: 99,
            each: robustness,
            first: 0,
            utilisation: true,
        },
    ]
}

/// The leaf over the rows of the meetings, given by course, slot and length, which are the first base rows.
fn week_leaf(
    alloc: Global,
    meetings: &[(u32, u32, u32)],
    case: &WeekLeaf,
) -> Result<Leaf, AllocError> {
    let mut terms = Items::new(alloc);
    let mut row: u32 = 0;
    let mut last = u32::MAX;
    for meeting in meetings {
        terms.push(Term {
            row: RowName::Base(row),
            times: multiplier(case, meeting.0, last),
        })?;
        row = row.wrapping_add(1);
        last = meeting.0;
    }
    if case.utilisation {
        terms.push(Term {
            row: RowName::Level(3),
            times: -1,
        })?;
    }
    Ok(Leaf { scale: 1, terms })
}

/// The multiplier of a meeting of the course, where the meeting before it is of the course `last`.
fn multiplier(case: &WeekLeaf, course: u32, last: u32) -> i128 {
    let more = if course == last { 0 } else { case.first };
    match case.each.get(course as usize) {
        Some(each) => i128::from(each.wrapping_add(more)),
        None => 0,
    }
}

/// Each of the week's leaves closes, and does not close against one less than its best value.
pub fn judge_week(rt: &impl Abort, alloc: Global, model: &Model) -> Result<(), Fail> {
    for case in week_leaves() {
        let leaf = week_leaf(alloc, week().meetings, &case)?;
        let closed = verdict(alloc, model, First::Free, case.targets, case.best, &leaf)?;
        assert!(rt; closed == Ok(()));
        let less = case.best.wrapping_sub(1);
        let above = verdict(alloc, model, First::Free, case.targets, less, &leaf)?;
        assert!(rt; above == Err(LeafFault::Bound));
    }
    Ok(())
}

#[test]
fn closes_the_levels_of_a_week(rt: HostRuntime) -> Result<(), Fail> {
    judge(&rt, rt.alloc(), &week(), Task::Week)
}

/// The cut of the patterns, which are below 4, where the model has so many.
fn cut_of(alloc: Global, model: &Model, patterns: &[u32]) -> Result<Result<Cut, CutFault>, Fail>
    requires some { 2 ≤ length patterns.now }
    requires few { length patterns.now ≤ 1000 }
    requires rising { is_rising patterns.now ≡ true }
    requires known { list_all (λ p. nat_lt p 4) patterns.now ≡ true }
{
    if model.patterns().len() < 4 {
        return Err(Fail::new("less than four patterns"));
    }
    Ok(Cut::new(alloc, model, patterns))
}

/// Why the patterns, which are below 4, are no cut, where they are none.
fn fault_of(alloc: Global, model: &Model, patterns: &[u32]) -> Result<Option<CutFault>, Fail>
    requires some { 2 ≤ length patterns.now }
    requires few { length patterns.now ≤ 1000 }
    requires rising { is_rising patterns.now ≡ true }
    requires known { list_all (λ p. nat_lt p 4) patterns.now ≡ true }
{
    Ok(cut_of(alloc, model, patterns)?.err())
}

/// The last three of four patterns are a cut.
fn judge_cut(rt: &impl Abort, alloc: Global, model: &Model) -> Result<(), Fail> {
    let cut = cut_of(alloc, model, &[1, 2, 3])??;
    assert!(rt; cut.patterns() == [1, 2, 3].as_slice());
    Ok(())
}

/// Adds that cut so many times, and gives the last answer.
fn add_times(
    alloc: Global,
    model: &Model,
    pool: &mut Pool,
    count: u32,
) -> Result<Result<u32, PoolFault>, Fail> {
    let mut answer = Ok(0);
    for _ in 0..count {
        answer = pool.add(cut_of(alloc, model, &[1, 2, 3])??);
    }
    Ok(answer)
}

/// The cuts of a pattern are listed, and a pool takes a thousand and no more.
fn judge_pool(rt: &impl Abort, alloc: Global, model: &Model, pool: &mut Pool) -> Result<(), Fail> {
    assert!(rt; add_times(alloc, model, pool, 2)? == Ok(1));
    assert!(rt; pool.cut_rows(3) == [RowName::Cut(0), RowName::Cut(1)].as_slice());
    assert!(rt; pool.cut_rows(0).is_empty());
    assert!(rt; add_times(alloc, model, pool, 999)? == Err(PoolFault::Full));
    assert!(rt; pool.len() == 1_000);
    assert!(rt; pool.cut_rows(1).len() == 1_000);
    Ok(())
}

/// What is said of cuts of the model of four patterns, of which the first and the third don't clash.
pub fn judge_cuts(rt: &impl Abort, alloc: Global, model: &Model) -> Result<(), Fail> {
    let apart = CutFault::NotClique {
        first: 0,
        second: 2,
    };
    assert!(rt; fault_of(alloc, model, &[0, 1, 2])? == Some(apart));
    judge_cut(rt, alloc, model)?;
    let mut pool = Pool::new(alloc);
    judge_pool(rt, alloc, model, &mut pool)
}

#[test]
fn adds_cuts_to_a_pool(rt: HostRuntime) -> Result<(), Fail> {
    judge(&rt, rt.alloc(), &closed_once(), Task::Cuts)
}
