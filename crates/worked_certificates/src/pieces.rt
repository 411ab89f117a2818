use cert_checker::{Checker, Reason, Verdict, check};
use packing_model::Model;
use problem_core::{BuildFault, Memory};
use std::alloc::Global;
use std::process::Abort;
use std::test::Fail;
use worked_shapes::{Shape, one_meeting, problem_of};

/// Six levels that close at their root, the last by the leaf of the fourth.
pub const SHARED: &[u8] =
    b"rooms-certificate 2\nmodel 1 2\nchoice 1 1\nvalues 1 10 500 0 -1 0\ncuts 0\nlevel 1\nleaf 1 1 b0 1\nlevel 2\nleaf 1 1 b0 10\nlevel 3\nleaf 1 1 b0 500\nlevel 4\nleaf 1 0\nlevel 5\nleaf 1 1 l1 -1\nlevel 6\nsame 3\nend 6\n";

/// The same in version 1, where the last leaf stands again.
pub const PLAIN: &[u8] =
    b"rooms-certificate 1\nmodel 1 2\nchoice 1 1\nvalues 1 10 500 0 -1 0\ncuts 0\nlevel 1\nleaf 1 1 b0 1\nlevel 2\nleaf 1 1 b0 10\nlevel 3\nleaf 1 1 b0 500\nlevel 4\nleaf 1 0\nlevel 5\nleaf 1 1 l1 -1\nlevel 6\nleaf 1 0\nend 6\n";

/// The same with a tree in the first level that branches on a pattern twice.
pub const BRANCHED: &[u8] =
    b"rooms-certificate 1\nmodel 1 2\nchoice 1 1\nvalues 1 10 500 0 -1 0\ncuts 0\nlevel 1\nbranch 0\nbranch 0\nleaf 1 0\nleaf 1 0\nleaf 1 1 b0 1\nlevel 2\nleaf 1 1 b0 10\nlevel 3\nleaf 1 1 b0 500\nlevel 4\nleaf 1 0\nlevel 5\nleaf 1 1 l1 -1\nlevel 6\nleaf 1 0\nend 6\n";

/// A pattern is branched on twice.
const TWICE: &[u8] =
    b"rooms-certificate 1\nmodel 1 2\nchoice 1 1\nvalues 1 10 500 0 -1 0\ncuts 0\nlevel 1\nbranch 0\nbranch 0\nleaf 1 0\nleaf 1 0\nleaf 1 1 b0 1\nend 1\n";

/// A leaf that does not close is named before a line that is none.
const NO_TEXT: &[u8] =
    b"rooms-certificate 2\nmodel 1 2\nchoice 1 1\nvalues 1 10 500 0 -1 0\ncuts 0\nlevel 1\nleaf 1 1 b0 1\nlevel 2\nsame 0\nlevel 4\nend 2\n";

fn verdict_of_two(
    alloc: Global,
    model: &Model,
    first: &[u8],
    second: &[u8],
) -> Result<Verdict, Memory> {
    if first.len() > 1_000_000 {
        return Err(Memory);
    }
    if second.len() > 1_000_000 {
        return Err(Memory);
    }
    let mut checker = Checker::new(alloc, model);
    checker.feed(first)?;
    checker.feed(second)?;
    checker.finish()
}

fn verdict_of_bytes(alloc: Global, model: &Model, text: &[u8]) -> Result<Verdict, Memory> {
    let mut checker = Checker::new(alloc, model);
    for byte in text.chunks(1) {
        if checker.taken() > 1_000_000 {
            return Err(Memory);
        }
        checker.feed(byte)?;
    }
    checker.finish()
}

/// That the text has the verdict at once, a byte at a time, and cut in two at each of its places.
fn judge_pieces(
    rt: &impl Abort,
    alloc: Global,
    model: &Model,
    text: &[u8],
    verdict: Verdict,
) -> Result<(), Fail> {
    assert!(rt; check(alloc, model, text)? == verdict);
    assert!(rt; verdict_of_bytes(alloc, model, text)? == verdict);
    for size in 0..=text.len() {
        let (first, second) = text.split_at(size);
        assert!(rt; verdict_of_two(alloc, model, first, second)? == verdict);
    }
    Ok(())
}

fn judge_texts(rt: &impl Abort, alloc: Global, model: &Model) -> Result<(), Fail> {
    let values = [1, 10, 500, 0, -1, 0];
    judge_pieces(
        rt,
        alloc,
        model,
        SHARED,
        Verdict::Verified { levels: 6, values },
    )?;
    judge_pieces(
        rt,
        alloc,
        model,
        PLAIN,
        Verdict::Verified { levels: 6, values },
    )?;
    let reason = Reason::NotFree { pattern: 0 };
    judge_pieces(rt, alloc, model, BRANCHED, Verdict::Not { line: 8, reason })?;
    let reason = Reason::NotFree { pattern: 0 };
    judge_pieces(rt, alloc, model, TWICE, Verdict::Not { line: 8, reason })?;
    let reason = Reason::Text;
    judge_pieces(rt, alloc, model, NO_TEXT, Verdict::Not { line: 10, reason })
}

fn model_of(alloc: Global, shape: &Shape) -> Result<Model, BuildFault> {
    Model::build(alloc, problem_of(alloc, shape)?)
}

#[test]
fn checks_in_pieces(rt: HostRuntime) -> Result<(), Fail> {
    let alloc = rt.alloc();
    let model = model_of(alloc, &one_meeting())?;
    judge_texts(&rt, alloc, &model)
}
