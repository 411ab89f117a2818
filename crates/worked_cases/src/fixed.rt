ghost use Rattle.std.specs.Prelude.{◌≡◌, ◌≤◌, ◌^◌, true, false, length, IfOk};
ghost use Rattle.std.specs.List.{list_all};
ghost use Rattle.duality.specs.Sums.{is_small};
ghost use Rattle.packing_model.specs.Built.{packing};
ghost use Rattle.packing_model.specs.Nodes.{IsValidFixing, fixed_of};
ghost use Rattle.search_nodes.specs.Paths.{IsWalk};
ghost use Rattle.node_bound.specs.Bounds.{has_free};

use crate::model::{Task, judge};
use duality::FLOOR_LEVEL;
use node_bound::{Bounded, close_fixed, close_fixed_at, lowest_free};
use packing_model::{At, Fixing, Leaf, Model, ObjectiveAt, Pool, RowName, is_free};
use problem_core::Choice;
use search_nodes::{Walk, walk_laws, weigh_choice};
use std::alloc::Global;
use std::process::Abort;
use std::test::Fail;
use values::Items;
use worked_shapes::{SomePatterns, are_values, closed_once, is_value};

/// What is counted at a node.
#[derive(Clone, Copy)]
enum Counted {
    /// The measures, with targets and a best value.
    Measures(&'static [i64], i64),
    /// The patterns, two at least, with perhaps a best value.
    Patterns(Option<i64>),
}

/// What is known of a node, where it is decided.
#[derive(Clone, Copy, PartialEq)]
enum Found {
    /// A leaf of a scale, and its one term, where it has one.
    Closed(i128, Option<(RowName, i128)>),
    /// The entries of a better choice for two meetings.
    Better([u32; 2]),
    Undecided,
}

/// A node where no pattern is free: patterns that are left out, patterns that are taken, and what is known there.
#[derive(Clone, Copy)]
struct FixedNode {
    left_out: &'static [u32],
    taken: &'static [u32],
    counted: Counted,
    found: Found,
}

/// Nodes of the model of two meetings. The patterns 0 and 2 are different rooms for the two meetings, the pattern 3
/// is the second room for both; their measures are 2, 20, 1500, 0, -2, 0 and 2, 20, 1000, 0, -1, 0.
fn fixed_nodes() -> [FixedNode; 14] {
    let both = FixedNode {
        left_out: &[],
        taken: &[3],
        counted: Counted::Patterns(None),
        found: Found::Closed(0, Some((RowName::Level(FLOOR_LEVEL), 1))),
    };
    let apart = FixedNode {
        taken: &[0, 2],
        found: Found::Better([1, 2]),
        ..both
    };
    let none = FixedNode {
        left_out: &[0, 1, 2, 3],
        taken: &[],
        ..both
    };
    let no_better = Found::Closed(1, None);
    [
        // a target missed below, and above
        FixedNode {
            counted: Counted::Measures(&[2, 20, 1500], 0),
            found: Found::Closed(0, Some((RowName::Level(3), -1))),
            ..both
        },
        FixedNode {
            counted: Counted::Measures(&[2, 20, 1000], 0),
            found: Found::Closed(0, Some((RowName::Level(3), 1))),
            ..apart
        },
        // the first that is missed
        FixedNode {
            counted: Counted::Measures(&[2, 19, 1500, 0, -2], 0),
            found: Found::Closed(0, Some((RowName::Level(2), 1))),
            ..both
        },
        FixedNode {
            counted: Counted::Measures(&[1], 20),
            found: Found::Closed(0, Some((RowName::Level(1), -1))),
            ..none
        },
        // a value no better, and a value better
        FixedNode {
            counted: Counted::Measures(&[2, 20], 1000),
            found: no_better,
            ..both
        },
        FixedNode {
            counted: Counted::Measures(&[2, 20], 999),
            found: Found::Better([2, 2]),
            ..both
        },
        FixedNode {
            counted: Counted::Measures(&[2, 20], 1000),
            ..apart
        },
        FixedNode {
            counted: Counted::Measures(&[], 0),
            found: no_better,
            ..none
        },
        FixedNode {
            counted: Counted::Measures(&[], -1),
            found: Found::Better([0, 0]),
            ..none
        },
        // a floor missed, whatever the best value is
        both,
        FixedNode {
            counted: Counted::Patterns(Some(0)),
            ..both
        },
        // a floor that is reached
        apart,
        FixedNode {
            counted: Counted::Patterns(Some(1)),
            ..apart
        },
        FixedNode {
            counted: Counted::Patterns(Some(2)),
            found: no_better,
            ..apart
        },
    ]
}

/// Leaves the pattern out where it is free, or takes it.
fn fix(model: &Model, walk: &mut Walk, pattern: u32, taken: bool) -> Result<(), Fail>
    requires { IsWalk (packing model.now) walk.old }
    ensures { IfOk result (λ _. IsWalk (packing model.now) walk.new) }
{
    walk_laws();
    if pattern >= model.patterns().len() {
        return Err(Fail::new("no such pattern"));
    }
    if !is_free(model, &walk.fixing, pattern) {
        return Err(Fail::new("the pattern is not free"));
    }
    walk.branch(pattern)?;
    if taken {
        walk.turn()?;
    }
    Ok(())
}

/// Leaves the patterns out, or takes them, one after the other.
fn fix_each(model: &Model, walk: &mut Walk, patterns: &[u32], taken: bool) -> Result<(), Fail>
    requires { IsWalk (packing model.now) walk.old }
    ensures { IfOk result (λ _. IsWalk (packing model.now) walk.new) }
{
    for pattern in patterns {
        fix(model, walk, *pattern, taken)?;
    }
    Ok(())
}

/// What is known at the node.
fn known_at(alloc: Global, model: &Model, node: &FixedNode) -> Result<Bounded, Fail> {
    walk_laws();
    let mut walk = Walk::new(alloc);
    fix_each(model, &mut walk, node.left_out, false)?;
    fix_each(model, &mut walk, node.taken, true)?;
    if lowest_free(model, &walk.fixing).is_some() {
        return Err(Fail::new("a pattern is free"));
    }
    decide(alloc, model, &walk.fixing, node.counted)
}

fn decide(alloc: Global, model: &Model, fixing: &Fixing, counted: Counted) -> Result<Bounded, Fail>
    requires fixing { IsValidFixing (packing model.now) fixing.now }
    requires none { has_free (packing model.now) (fixed_of fixing.now) ≡ false }
{
    match counted {
        Counted::Measures(targets, best) => by_measures(alloc, model, fixing, targets, best),
        Counted::Patterns(best) => by_patterns(alloc, model, fixing, best),
    }
}

fn by_measures(
    alloc: Global,
    model: &Model,
    fixing: &Fixing,
    targets: &[i64],
    best: i64,
) -> Result<Bounded, Fail>
    requires fixing { IsValidFixing (packing model.now) fixing.now }
    requires none { has_free (packing model.now) (fixed_of fixing.now) ≡ false }
{
    if targets.len() > 5 || !are_values(targets) || !is_value(best) {
        return Err(Fail::new("a value is out of bounds"));
    }
    let pool = Pool::new(alloc);
    let at = At {
        model,
        pool: &pool,
        fixing,
        level: targets.len() as u32 + 1,
        targets,
        best,
    };
    Ok(close_fixed(alloc, &at)?)
}

fn by_patterns(
    alloc: Global,
    model: &Model,
    fixing: &Fixing,
    best: Option<i64>,
) -> Result<Bounded, Fail>
    requires fixing { IsValidFixing (packing model.now) fixing.now }
    requires none { has_free (packing model.now) (fixed_of fixing.now) ≡ false }
{
    if !is_value(best.unwrap_or(0)) {
        return Err(Fail::new("the best value is out of bounds"));
    }
    let pool = Pool::new(alloc);
    let objective = SomePatterns::new(model.patterns().len(), 2);
    let at = ObjectiveAt {
        model,
        pool: &pool,
        fixing,
        objective: &objective,
        level: 1,
        targets: &[],
        best,
    };
    Ok(close_fixed_at(alloc, &at)?)
}

fn found_of(bounded: &Bounded) -> Found {
    match bounded {
        Bounded::Closed(leaf) => closed_by(leaf),
        Bounded::Better(choice) => match choice.entries.as_slice() {
            [first, second] => Found::Better([*first, *second]),
            _ => Found::Undecided,
        },
        _ => Found::Undecided,
    }
}

fn closed_by(leaf: &Leaf) -> Found {
    match leaf.terms.as_slice() {
        [] => Found::Closed(leaf.scale, None),
        [term] => Found::Closed(leaf.scale, Some((term.row, term.times))),
        _ => Found::Undecided,
    }
}

/// What two rooms for the two meetings weigh at the level of the objective.
fn weight_of(alloc: Global, model: &Model) -> Result<i64, Fail> {
    let choice = Choice {
        entries: Items::from_slice(alloc, &[1, 2])?,
    };
    if !model.problem().is_legal(&choice) {
        return Err(Fail::new("not legal"));
    }
    let objective = SomePatterns::new(model.patterns().len(), 2);
    Ok(weigh_choice(alloc, model, &objective, 1, &choice)?)
}

/// What is known at each of the nodes, and that two rooms are two patterns.
pub fn judge_fixed(rt: &impl Abort, alloc: Global, model: &Model) -> Result<(), Fail> {
    for node in fixed_nodes() {
        let known = known_at(alloc, model, &node)?;
        assert!(rt; found_of(&known) == node.found);
    }
    assert!(rt; weight_of(alloc, model)? == 2);
    Ok(())
}

#[test]
fn decides_nodes_where_nothing_is_free(rt: HostRuntime) -> Result<(), Fail> {
    judge(&rt, rt.alloc(), &closed_once(), Task::Fixed)
}
