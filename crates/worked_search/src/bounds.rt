ghost use Rattle.std.specs.Prelude.{◌≡◌, ◌<◌, ◌≤ℤ◌, ◌^◌, pos, true, IfOk};
ghost use Rattle.duality.specs.Sums.{rises, are_small, is_small};
ghost use Rattle.packing_model.specs.Built.{packing};
ghost use Rattle.packing_model.specs.Cuts.{IsCutOf, IsPoolOf};
ghost use Rattle.packing_model.specs.Nodes.{IsValidFixing};
ghost use Rattle.search_nodes.specs.Paths.{IsWalk};

use exact_num::{Arith, Exact64, Exact128, Refusing, Steps};
use node_bound::{Bounded, bound};
use packing_model::{At, Cut, Fixing, Leaf, Model, Point, Pool, is_free, leaf_closes};
use problem_core::{BuildFault, Choice};
use search_nodes::{Walk, walk_laws};
use std::alloc::Global;
use std::marker::Brand;
use std::process::Abort;
use std::sync::ledger::{Blank, Ledger};
use std::test::Fail;
use worked_shapes::{
    Shape, are_multipliers, are_rising, are_values, closed_once, is_multiplier, is_value,
    one_meeting, problem_of, two_courses, week,
};

/// What is known at a node.
#[derive(Clone, Copy)]
enum Known {
    /// A leaf that closes there.
    Closed,
    /// A better choice, of these values at least at the first levels.
    Better(&'static [i64]),
    /// A point: its denominator and its entries.
    Gap(i128, &'static [(u32, i128)]),
}

/// A node: patterns that are left out and that are taken, the patterns of a cut where there is one, the
/// targets of the levels below, the best value, and what is known.
#[derive(Clone, Copy)]
struct Node {
    left_out: &'static [u32],
    taken: &'static [u32],
    cut: &'static [u32],
    targets: &'static [i64],
    best: i64,
    known: Known,
}

/// A root where nothing is better than the best value.
fn closed_root(targets: &'static [i64], best: i64) -> Node {
    Node {
        left_out: &[],
        taken: &[],
        cut: &[],
        targets,
        best,
        known: Known::Closed,
    }
}

/// One meeting and one room, of the values 1, 10, 500, 0, -1, 0.
fn nodes_of_one_meeting() -> [Node; 8] {
    [
        closed_root(&[], 1),
        closed_root(&[1], 10),
        closed_root(&[1, 10], 500),
        closed_root(&[1, 10, 500], 0),
        closed_root(&[1, 10, 500, 0], -1),
        closed_root(&[1, 10, 500, 0, -1], 0),
        Node {
            known: Known::Better(&[1]),
            ..closed_root(&[], 0)
        },
        // no choice has the target
        closed_root(&[2], 0),
    ]
}

/// Two meetings; the first room, of 10 seats, can take the first one, the second room, of 20, both. The values
/// of two rooms are 2, 20, 1500, 0, -2, 0, those of one are 2, 20, 1000, 0, -1, 0.
fn nodes_of_two_meetings() -> [Node; 13] {
    [
        closed_root(&[], 2),
        closed_root(&[2], 20),
        closed_root(&[2, 20], 1500),
        closed_root(&[2, 20, 1500], 0),
        closed_root(&[2, 20, 1500, 0], -2),
        closed_root(&[2, 20, 1500, 0, -2], 0),
        Node {
            known: Known::Better(&[2, 20, 1500]),
            ..closed_root(&[2, 20], 1000)
        },
        Node {
            known: Known::Better(&[2, 20, 1000, 0, -1]),
            ..closed_root(&[2, 20, 1000, 0], -2)
        },
        // the first room is left out
        Node {
            left_out: &[0],
            ..closed_root(&[2, 20], 1000)
        },
        Node {
            left_out: &[0],
            known: Known::Better(&[2, 20, 1000]),
            ..closed_root(&[2, 20], 999)
        },
        // it is left out, and the target asks for it
        Node {
            left_out: &[0],
            ..closed_root(&[2, 20, 1500], -1)
        },
        // it is taken
        Node {
            taken: &[0],
            ..closed_root(&[2, 20, 1500, 0], -2)
        },
        Node {
            taken: &[0],
            known: Known::Better(&[2, 20, 1500, 0, -2]),
            ..closed_root(&[2, 20, 1500, 0], -3)
        },
    ]
}

/// The point of the two courses that gives half of each pattern of two meetings: it covers each meeting, and
/// counts three rooms.
const HALVES: &[(u32, i128)] = &[(2, 1), (5, 1), (8, 1), (11, 1), (14, 1), (17, 1)];

/// Two courses of three meetings and three rooms each, each of which can take two of them. Each course needs
/// two rooms; the base rows alone ask for one and a half.
fn nodes_of_two_courses() -> [Node; 12] {
    [
        closed_root(&[], 6),
        closed_root(&[6], 60),
        closed_root(&[6, 60], 3000),
        closed_root(&[6, 60, 3000], 0),
        Node {
            known: Known::Gap(2, HALVES),
            ..closed_root(&[6, 60, 3000, 0], -4)
        },
        // a cut, of the one course or of the other
        Node {
            cut: &[2, 5, 8],
            ..closed_root(&[6, 60, 3000, 0], -4)
        },
        Node {
            cut: &[11, 14, 17],
            ..closed_root(&[6, 60, 3000, 0], -4)
        },
        closed_root(&[6, 60, 3000, 0, -4], 0),
        // the rounded point is better
        Node {
            known: Known::Better(&[6, 60, 3000, 0, -4]),
            ..closed_root(&[6, 60, 3000, 0], -5)
        },
        // the one course is fixed, the other in halves: no whole number is above three and a half rooms
        Node {
            taken: &[2, 4],
            ..closed_root(&[6, 60, 3000, 0], -4)
        },
        // the one course takes three rooms
        Node {
            taken: &[0, 4],
            left_out: &[2, 8],
            ..closed_root(&[6, 60, 3000, 0], -4)
        },
        Node {
            left_out: &[2, 11],
            ..closed_root(&[6, 60, 3000, 0], -4)
        },
    ]
}

/// The roots of the week, whose best values are these.
fn nodes_of_week() -> [Node; 6] {
    [
        closed_root(&[], 40),
        closed_root(&[40], 2649),
        closed_root(&[40, 2649], 32688),
        closed_root(&[40, 2649, 32688], 29),
        closed_root(&[40, 2649, 32688, 29], -12),
        closed_root(&[40, 2649, 32688, 29, -12], 99),
    ]
}

/// Leaves the patterns out, or takes them, one after the other.
pub fn fix_each(model: &Model, walk: &mut Walk, patterns: &[u32], taken: bool) -> Result<(), Fail>
    requires { IsWalk (packing model.now) walk.old }
    ensures { IfOk result (λ _. IsWalk (packing model.now) walk.new) }
{
    for pattern in patterns {
        fix(model, walk, *pattern, taken)?;
    }
    Ok(())
}

/// Leaves the pattern out where it is free, or takes it.
fn fix(model: &Model, walk: &mut Walk, pattern: u32, taken: bool) -> Result<(), Fail>
    requires { IsWalk (packing model.now) walk.old }
    ensures { IfOk result (λ _. IsWalk (packing model.now) walk.new) }
{
    walk_laws();
    if pattern >= model.patterns().len() {
        return Err(Fail::new("no such pattern"));
    }
    if !is_free(model, &walk.fixing, pattern) {
        return Err(Fail::new("the pattern is not free"));
    }
    walk.branch(pattern)?;
    if taken {
        walk.turn()?;
    }
    Ok(())
}

/// The cut of three patterns.
fn cut_of(alloc: Global, model: &Model, patterns: &[u32]) -> Result<Cut, Fail>
    ensures { IfOk result (IsCutOf (packing model.now)) }
{
    let [first, second, third] = patterns else {
        return Err(Fail::new("not three patterns"));
    };
    if *first >= *second || *second >= *third || *third >= model.patterns().len() {
        return Err(Fail::new("the patterns are not rising"));
    }
    Ok(Cut::new(alloc, model, patterns)?)
}

/// The cut as a pool, where there is one.
pub fn pool_of(alloc: Global, model: &Model, cut: &[u32]) -> Result<Pool, Fail>
    ensures { IfOk result (IsPoolOf (packing model.now)) }
{
    if cut.is_empty() {
        return Ok(Pool::new(alloc));
    }
    let cut = cut_of(alloc, model, cut)?;
    let mut pool = Pool::new(alloc);
    pool.add(cut)?;
    Ok(pool)
}

/// What is known at the node.
fn known_at<A: Arith, L: Ledger>(
    alloc: Global,
    model: &Model,
    pool: &Pool,
    fixing: &Fixing,
    node: &Node,
    arith: &mut A,
    blank: Blank,
) -> Result<Bounded, Fail>
    requires pool { IsPoolOf (packing model.now) pool.now }
    requires fixing { IsValidFixing (packing model.now) fixing.now }
    requires name { blank.name ≡ L.name }
    requires parts { blank.parts ≡ L.parts }
    requires some { 0 < blank.parts }
{
    if node.targets.len() > 5 || !are_values(node.targets) || !is_value(node.best) {
        return Err(Fail::new("a value is out of bounds"));
    }
    let at = At {
        model,
        pool,
        fixing,
        level: node.targets.len() as u32 + 1,
        targets: node.targets,
        best: node.best,
    };
    let mut steps: Steps<L> = Steps::new(blank);
    Ok(bound(alloc, &at, arith, &mut steps)?)
}

/// Whether the choice is legal, has the values at the first levels, and more than the best one at the node's.
fn is_better(model: &Model, node: &Node, choice: &Choice, values: &[i64]) -> bool {
    if !model.problem().is_legal(choice) {
        return false;
    }
    let found = model.problem().values(choice);
    let level = node.targets.len();
    found.starts_with(node.targets)
        && found.get(level).is_some_and(|value| *value > node.best)
        && found.starts_with(values)
}

/// Whether the leaf closes at the node.
fn closes(model: &Model, pool: &Pool, fixing: &Fixing, node: &Node, leaf: &Leaf) -> bool
    requires pool { IsPoolOf (packing model.now) pool.now }
    requires fixing { IsValidFixing (packing model.now) fixing.now }
{
    if leaf.scale < 0 || !is_multiplier(leaf.scale) {
        return false;
    }
    if !are_rising(leaf.terms.as_slice()) || !are_multipliers(leaf.terms.as_slice()) {
        return false;
    }
    closes_at(model, pool, fixing, node, leaf)
}

fn closes_at(model: &Model, pool: &Pool, fixing: &Fixing, node: &Node, leaf: &Leaf) -> bool
    requires pool { IsPoolOf (packing model.now) pool.now }
    requires fixing { IsValidFixing (packing model.now) fixing.now }
    requires scale { pos 0 ≤ℤ leaf.now.scale }
    requires small_scale { is_small (10 ^ 24) leaf.now.scale ≡ true }
    requires rising { rises leaf.now.terms ≡ true }
    requires small { are_small leaf.now.terms ≡ true }
{
    if node.targets.len() > 5 || !are_values(node.targets) || !is_value(node.best) {
        return false;
    }
    let at = At {
        model,
        pool,
        fixing,
        level: node.targets.len() as u32 + 1,
        targets: node.targets,
        best: node.best,
    };
    leaf_closes(&at, leaf).is_ok()
}

fn is_point(point: &Point, den: i128, entries: &[(u32, i128)]) -> bool {
    point.den == den && point.entries.as_slice() == entries
}

/// Whether what is known is what the node says.
fn is_known(model: &Model, pool: &Pool, fixing: &Fixing, node: &Node, bounded: &Bounded) -> bool
    requires pool { IsPoolOf (packing model.now) pool.now }
    requires fixing { IsValidFixing (packing model.now) fixing.now }
{
    match (bounded, node.known) {
        (Bounded::Closed(leaf), Known::Closed) => closes(model, pool, fixing, node, leaf),
        (Bounded::Better(choice), Known::Better(values)) => is_better(model, node, choice, values),
        (Bounded::Gap(point), Known::Gap(den, entries)) => is_point(point, den, entries),
        _ => false,
    }
}

/// What is known at the node by the arithmetic is what the node says.
fn judge_by<A: Arith>(
    rt: &impl Abort,
    alloc: Global,
    model: &Model,
    pool: &Pool,
    fixing: &Fixing,
    node: &Node,
    arith: &mut A,
) -> Result<(), Fail>
    requires pool { IsPoolOf (packing model.now) pool.now }
    requires fixing { IsValidFixing (packing model.now) fixing.now }
{
    let known = known_at::<A, Brand>(alloc, model, pool, fixing, node, arith, Blank::new(1))?;
    assert!(rt; is_known(model, pool, fixing, node, &known));
    Ok(())
}

/// An arithmetic that refuses all numbers leaves the node undecided at its first number.
fn judge_refused(
    rt: &impl Abort,
    alloc: Global,
    model: &Model,
    pool: &Pool,
    fixing: &Fixing,
    node: &Node,
) -> Result<(), Fail>
    requires pool { IsPoolOf (packing model.now) pool.now }
    requires fixing { IsValidFixing (packing model.now) fixing.now }
{
    let mut arith = Refusing::new();
    let known = known_at::<Refusing, Brand>(
        alloc,
        model,
        pool,
        fixing,
        node,
        &mut arith,
        Blank::new(1),
    )?;
    assert!(rt; is_first_wide(&known));
    Ok(())
}

fn is_first_wide(bounded: &Bounded) -> bool {
    matches!(
        bounded,
        Bounded::Wide {
            before: 0,
            after: 1
        }
    )
}

fn judge_fixed(
    rt: &impl Abort,
    alloc: Global,
    model: &Model,
    fixing: &Fixing,
    node: &Node,
) -> Result<(), Fail>
    requires { IsValidFixing (packing model.now) fixing.now }
{
    let pool = pool_of(alloc, model, node.cut)?;
    judge_by(rt, alloc, model, &pool, fixing, node, &mut Exact128::new())?;
    judge_by(rt, alloc, model, &pool, fixing, node, &mut Exact64::new())?;
    judge_refused(rt, alloc, model, &pool, fixing, node)
}

fn judge_node(rt: &impl Abort, alloc: Global, model: &Model, node: &Node) -> Result<(), Fail> {
    walk_laws();
    let mut walk = Walk::new(alloc);
    fix_each(model, &mut walk, node.left_out, false)?;
    fix_each(model, &mut walk, node.taken, true)?;
    judge_fixed(rt, alloc, model, &walk.fixing, node)
}

/// Builds the model of the shape, and judges the nodes. It alone owns a model.
fn judge(rt: &impl Abort, alloc: Global, shape: &Shape, nodes: &[Node]) -> Result<(), Fail> {
    let model = model_of(alloc, shape)?;
    judge_nodes(rt, alloc, &model, nodes)
}

fn judge_nodes(rt: &impl Abort, alloc: Global, model: &Model, nodes: &[Node]) -> Result<(), Fail> {
    for node in nodes {
        judge_node(rt, alloc, model, node)?;
    }
    Ok(())
}

/// The model of the shape.
pub fn model_of(alloc: Global, shape: &Shape) -> Result<Model, BuildFault> {
    Model::build(alloc, problem_of(alloc, shape)?)
}

#[test]
fn bounds_one_meeting(rt: HostRuntime) -> Result<(), Fail> {
    judge(&rt, rt.alloc(), &one_meeting(), &nodes_of_one_meeting())
}

#[test]
fn bounds_two_meetings(rt: HostRuntime) -> Result<(), Fail> {
    judge(&rt, rt.alloc(), &closed_once(), &nodes_of_two_meetings())
}

#[test]
fn bounds_two_courses(rt: HostRuntime) -> Result<(), Fail> {
    judge(&rt, rt.alloc(), &two_courses(), &nodes_of_two_courses())
}

#[test]
fn bounds_week(rt: HostRuntime) -> Result<(), Fail> {
    judge(&rt, rt.alloc(), &week(), &nodes_of_week())
}
