ghost use Rattle.std.specs.Prelude.{◌≤◌, IfOk};
ghost use Rattle.cert_checker.specs.Trees.{IsNodeWithin};

use crate::model::{Task, judge};
use cert_checker::{Reason, TreeAt, Verdict, Walk, check};
use cert_text::Node;
use duality::FLOOR_LEVEL;
use packing_model::{Leaf, Model, Pool, RowName, Term};
use std::alloc::{AllocError, Global};
use std::process::Abort;
use std::test::Fail;
use values::Items;
use worked_shapes::{SomePatterns, one_meeting};

/// The lines before the first tree of a certificate of one meeting in one room: one pattern and two base rows.
const FRONT: &str =
    "rooms-certificate 1\nmodel 1 2\nchoice 1 1\nvalues 1 10 500 0 -1 0\ncuts 0\nlevel 1\n";

/// Six levels that close at their root, from the first tree on.
const LEVELS: &str =
    "leaf 1 1 b0 1\nlevel 2\nleaf 1 1 b0 10\nlevel 3\nleaf 1 1 b0 500\nlevel 4\nleaf 1 0\nlevel 5\nleaf 1 1 l1 -1\nlevel 6\nleaf 1 0\nend 6\n";

/// That the text is refused at the line with the reason.
pub fn judge_text(
    rt: &impl Abort,
    alloc: Global,
    model: &Model,
    text: &[u8],
    line: u64,
    reason: Reason,
) -> Result<(), Fail> {
    assert!(rt; check(alloc, model, text)? == (Verdict::Not { line, reason }));
    Ok(())
}

/// That each proper front of the text is refused at the line behind its line feeds.
pub fn judge_fronts(
    rt: &impl Abort,
    alloc: Global,
    model: &Model,
    text: &[u8],
) -> Result<(), Fail> {
    let mut line: u64 = 1;
    for (size, byte) in text.iter().enumerate() {
        judge_text(rt, alloc, model, &text[..size], line, Reason::Text)?;
        if *byte == b'\n' {
            line = line.saturating_add(1);
        }
    }
    Ok(())
}

#[test]
fn refuses_each_front_of_a_text(rt: HostRuntime) -> Result<(), Fail> {
    let alloc = rt.alloc();
    let mut text = String::from_str(alloc, FRONT)?;
    text.push_str(LEVELS)?;
    judge(&rt, alloc, &one_meeting(), Task::Fronts(text.as_bytes()))
}

fn add_times(bytes: &mut Vec<u8>, line: &str, times: u32) -> Result<(), AllocError> {
    for _ in 0..times {
        bytes.extend_from_slice(line.as_bytes())?;
    }
    Ok(())
}

#[test]
fn judges_large_trees(rt: HostRuntime) -> Result<(), Fail> {
    let alloc = rt.alloc();
    let mut endless = Vec::from_slice(alloc, FRONT.as_bytes())?;
    add_times(&mut endless, "branch 0\n", 1_000_000)?;
    let unended = Task::Text(endless.as_slice(), 1_000_007, Reason::Text);
    judge(&rt, alloc, &one_meeting(), unended)?;
    let mut deep = Vec::from_slice(alloc, FRONT.as_bytes())?;
    add_times(&mut deep, "branch 0\n", 100_000)?;
    add_times(&mut deep, "leaf 1 0\n", 100_001)?;
    deep.extend_from_slice(b"end 1\n")?;
    let again = Task::Text(deep.as_slice(), 8, Reason::NotFree { pattern: 0 });
    judge(&rt, alloc, &one_meeting(), again)
}

/// The leaf of scale 0 whose one term is the floor's row.
fn floor_leaf(alloc: Global) -> Result<Node, AllocError>
    ensures { IfOk result IsNodeWithin }
{
    let mut terms = Items::new(alloc);
    terms.push(Term {
        row: RowName::Level(FLOOR_LEVEL),
        times: 1,
    })?;
    Ok(Node::Leaf(Leaf { scale: 0, terms }))
}

/// What is said of a branch on the first pattern, and of the floor's leaf in both parts behind it.
fn floor_reasons(alloc: Global, model: &Model) -> Result<[Option<Reason>; 3], Fail> {
    let pool = Pool::new(alloc);
    let objective = SomePatterns::new(model.patterns().len(), 1);
    let tree = TreeAt {
        model,
        pool: &pool,
        objective: &objective,
        level: 1,
        targets: &[],
        best: None,
    };
    let leaf = floor_leaf(alloc)?;
    let mut walk = Walk::new(alloc);
    let branch = tree.judge_node(&mut walk, &Node::Branch(0))?;
    let left_out = tree.judge_node(&mut walk, &leaf)?;
    let taken = tree.judge_node(&mut walk, &leaf)?;
    Ok([branch, left_out, taken])
}

/// Without its one pattern the floor is not met, and with it it is.
pub fn judge_floor_tree(rt: &impl Abort, alloc: Global, model: &Model) -> Result<(), Fail> {
    let reasons = floor_reasons(alloc, model)?;
    assert!(rt; reasons == [None, None, Some(Reason::Bound)]);
    Ok(())
}

#[test]
fn judges_a_tree_of_another_objective(rt: HostRuntime) -> Result<(), Fail> {
    judge(&rt, rt.alloc(), &one_meeting(), Task::FloorTree)
}
