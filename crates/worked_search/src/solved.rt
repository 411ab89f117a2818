ghost use Rattle.std.specs.Prelude.{◌≡◌, ◌≤◌, ◌<◌};

use crate::model::{Task, judge};
use cert_checker::{Verdict, check};
use cert_text::write_cert;
use exact_num::{Arith, Exact128, Refusing, Steps};
use lex_driver::{Solved, solve_levels};
use packing_model::Model;
use std::alloc::Global;
use std::marker::Brand;
use std::process::Abort;
use std::sync::ledger::{Blank, Ledger};
use std::test::Fail;
use worked_shapes::{closed_once, one_meeting, two_courses};

/// The text of the certificate.
fn text_of(alloc: Global, solved: &Solved) -> Result<Vec<u8>, Fail> {
    match solved {
        Solved::Optimal(certificate) => Ok(write_cert(alloc, certificate)?),
        Solved::Open { certificate, .. } => Ok(write_cert(alloc, certificate)?),
    }
}

/// What the checker says of the text of the certificate.
fn verdict_of(alloc: Global, model: &Model, solved: &Solved) -> Result<Verdict, Fail> {
    let text = text_of(alloc, solved)?;
    Ok(check(alloc, model, text.as_slice())?)
}

/// What the checker says of the certificate that the search comes to.
fn verdict<A: Arith, L: Ledger>(
    alloc: Global,
    model: &Model,
    budget: u64,
    arith: &mut A,
    blank: Blank,
) -> Result<Verdict, Fail>
    requires few { budget ≤ 1000000 }
    requires name { blank.name ≡ L.name }
    requires parts { blank.parts ≡ L.parts }
    requires some { 0 < blank.parts }
{
    let mut steps: Steps<L> = Steps::new(blank);
    let solved = solve_levels(alloc, model, budget, arith, &mut steps)?;
    verdict_of(alloc, model, &solved)
}

/// That the certificate is verified for six levels of these values, without a branch.
pub fn judge_exact_certificate(
    rt: &impl Abort,
    alloc: Global,
    model: &Model,
    values: [i64; 6],
) -> Result<(), Fail> {
    let mut arith = Exact128::new();
    let found = verdict::<Exact128, Brand>(alloc, model, 0, &mut arith, Blank::new(1))?;
    assert!(rt; found == (Verdict::Verified { levels: 6, values }));
    Ok(())
}

/// That the certificate under the budget is verified for these levels and values, over an arithmetic that
/// refuses each number.
pub fn judge_refused_certificate(
    rt: &impl Abort,
    alloc: Global,
    model: &Model,
    budget: u64,
    levels: u32,
    values: [i64; 6],
) -> Result<(), Fail> {
    if budget > 1_000_000 {
        return Err(Fail::new("the budget is out of bounds"));
    }
    let mut arith = Refusing::new();
    let found = verdict::<Refusing, Brand>(alloc, model, budget, &mut arith, Blank::new(1))?;
    assert!(rt; found == (Verdict::Verified { levels, values }));
    Ok(())
}

#[test]
fn certificates_are_verified(rt: HostRuntime) -> Result<(), Fail> {
    let alloc = rt.alloc();
    let one = Task::ExactCertificate([1, 10, 500, 0, -1, 0]);
    judge(&rt, alloc, &one_meeting(), one)?;
    let two = Task::ExactCertificate([6, 60, 3000, 0, -4, 0]);
    judge(&rt, alloc, &two_courses(), two)?;
    let values = [2, 20, 1500, 0, -2, 0];
    let whole = Task::RefusedCertificate(30, 6, values);
    judge(&rt, alloc, &closed_once(), whole)?;
    let open = Task::RefusedCertificate(29, 5, values);
    judge(&rt, alloc, &closed_once(), open)
}
