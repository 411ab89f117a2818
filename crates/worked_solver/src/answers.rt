use crate::tasks::{answer, answer_by_plan, at_most, equal};
use exact_num::{Arith, Exact64, Exact128, Refusing};
use exact_simplex::{LpAnswer, LpRow, Plan};
use std::alloc::Global;
use std::test::Fail;

/// What an answer is, apart from its numbers.
#[derive(Clone, Copy, Debug, PartialEq, Eq)]
enum Kind {
    Best,
    Empty,
    Ray,
    Wide,
    Stalled,
}

/// What an answer is.
fn kind_of(answer: &LpAnswer) -> Kind {
    match answer {
        LpAnswer::Best { .. } => Kind::Best,
        LpAnswer::Empty { .. } => Kind::Empty,
        LpAnswer::Ray { .. } => Kind::Ray,
        LpAnswer::Wide => Kind::Wide,
        LpAnswer::Stalled { .. } => Kind::Stalled,
    }
}

/// The answer over 128 bits.
fn answer_128(alloc: Global, gain: &[i64], rows: Vec<LpRow>) -> Result<LpAnswer, Fail> {
    answer(alloc, &mut Exact128::new(), gain, rows)
}

/// What the answer over 128 bits is.
fn kind_128(alloc: Global, gain: &[i64], rows: Vec<LpRow>) -> Result<Kind, Fail> {
    let found = answer_128(alloc, gain, rows)?;
    Ok(kind_of(&found))
}

/// The numbers of a best point and of its multipliers, with their denominators.
fn best(answer: &LpAnswer) -> Option<(&[i128], i128, &[i128], i128)> {
    match answer {
        LpAnswer::Best { x, xden, y, yden } => Some((x.as_slice(), *xden, y.as_slice(), *yden)),
        LpAnswer::Empty { .. } | LpAnswer::Ray { .. } | LpAnswer::Wide | LpAnswer::Stalled { .. } =>
            None,
    }
}

/// The row `x0 <= 1`.
fn one_row(alloc: Global) -> Result<Vec<LpRow>, Fail> {
    Ok(vec![in alloc; at_most(alloc, &[(0, 1)], 1)?]?)
}

/// Three rows, in which each two of three columns sum to at most 1.
fn pairs(alloc: Global) -> Result<Vec<LpRow>, Fail> {
    let first = at_most(alloc, &[(0, 1), (1, 1)], 1)?;
    let second = at_most(alloc, &[(0, 1), (2, 1)], 1)?;
    let third = at_most(alloc, &[(1, 1), (2, 1)], 1)?;
    Ok(vec![in alloc; first, second, third]?)
}

#[test]
fn one_column_under_one_row(rt: HostRuntime) -> Result<(), Fail> {
    let found = answer_128(rt.alloc(), &[1], one_row(rt.alloc())?)?;
    assert_eq!(rt; best(&found), Some((&[1i128][..], 1, &[1i128][..], 1)));
    Ok(())
}

#[test]
fn one_column_over_64_bits(rt: HostRuntime) -> Result<(), Fail> {
    let rows = one_row(rt.alloc())?;
    let found = answer(rt.alloc(), &mut Exact64::new(), &[1], rows)?;
    assert_eq!(rt; best(&found), Some((&[1i128][..], 1, &[1i128][..], 1)));
    Ok(())
}

#[test]
fn one_column_refused(rt: HostRuntime) -> Result<(), Fail> {
    let rows = one_row(rt.alloc())?;
    let mut arith = Refusing::new();
    let found = answer(rt.alloc(), &mut arith, &[1], rows)?;
    assert_eq!(rt; kind_of(&found), Kind::Wide);
    assert!(rt; arith.wide_count() > 0);
    Ok(())
}

#[test]
fn three_columns_in_pairs(rt: HostRuntime) -> Result<(), Fail> {
    let found = answer_128(rt.alloc(), &[1, 1, 1], pairs(rt.alloc())?)?;
    assert_eq!(rt;
        best(&found),
        Some((&[1i128, 1, 1][..], 2, &[1i128, 1, 1][..], 2))
    );
    Ok(())
}

#[test]
fn three_columns_in_pairs_by_a_plan(rt: HostRuntime) -> Result<(), Fail> {
    let plan = Plan {
        leading: 1,
        ascent: Some(1),
    };
    let rows = pairs(rt.alloc())?;
    let found = answer_by_plan(rt.alloc(), &mut Exact128::new(), &[1, 1, 1], rows, plan)?;
    assert_eq!(rt;
        best(&found),
        Some((&[1i128, 1, 1][..], 2, &[1i128, 1, 1][..], 2))
    );
    Ok(())
}

#[test]
fn three_columns_in_pairs_over_64_bits(rt: HostRuntime) -> Result<(), Fail> {
    let rows = pairs(rt.alloc())?;
    let found = answer(rt.alloc(), &mut Exact64::new(), &[1, 1, 1], rows)?;
    assert_eq!(rt;
        best(&found),
        Some((&[1i128, 1, 1][..], 2, &[1i128, 1, 1][..], 2))
    );
    Ok(())
}

#[test]
fn a_bound_and_an_equation_that_contradict(rt: HostRuntime) -> Result<(), Fail> {
    let bound = at_most(rt.alloc(), &[(0, 1), (1, 1)], 1)?;
    let equation = equal(rt.alloc(), &[(0, 1), (1, 1)], 2)?;
    let rows = vec![in rt.alloc(); bound, equation]?;
    assert_eq!(rt; kind_128(rt.alloc(), &[0, 0], rows)?, Kind::Empty);
    Ok(())
}

#[test]
fn a_column_without_rows(rt: HostRuntime) -> Result<(), Fail> {
    assert_eq!(rt;
        kind_128(rt.alloc(), &[1], vec![in rt.alloc()]?)?,
        Kind::Ray
    );
    assert_eq!(rt;
        kind_128(rt.alloc(), &[0], vec![in rt.alloc()]?)?,
        Kind::Best
    );
    assert_eq!(rt;
        kind_128(rt.alloc(), &[i64::MIN], vec![in rt.alloc()]?)?,
        Kind::Best
    );
    Ok(())
}

#[test]
fn rows_without_columns(rt: HostRuntime) -> Result<(), Fail> {
    let alloc = rt.alloc();
    assert_eq!(rt; kind_128(alloc, &[], vec![in alloc]?)?, Kind::Best);
    assert_eq!(rt;
        kind_128(alloc, &[], vec![in alloc; equal(alloc, &[], 1)?]?)?,
        Kind::Empty
    );
    assert_eq!(rt;
        kind_128(alloc, &[], vec![in alloc; equal(alloc, &[], -1)?]?)?,
        Kind::Empty
    );
    assert_eq!(rt;
        kind_128(alloc, &[], vec![in alloc; at_most(alloc, &[], -1)?]?)?,
        Kind::Empty
    );
    Ok(())
}

#[test]
fn a_bound_of_nothing(rt: HostRuntime) -> Result<(), Fail> {
    let rows = vec![in rt.alloc(); at_most(rt.alloc(), &[], 0)?]?;
    let found = answer_128(rt.alloc(), &[], rows)?;
    assert_eq!(rt; best(&found), Some((&[][..], 1, &[0i128][..], 1)));
    Ok(())
}

/// What the answer is for one column with a gain and one row with an entry.
fn kind_of_one(alloc: Global, gain: i64, row: LpRow) -> Result<Kind, Fail> {
    kind_128(alloc, &[gain], vec![in alloc; row]?)
}

#[test]
fn one_row_at_its_limits(rt: HostRuntime) -> Result<(), Fail> {
    let alloc = rt.alloc();
    assert_eq!(rt;
        kind_of_one(alloc, 1, at_most(alloc, &[(0, 1)], -1)?)?,
        Kind::Empty
    );
    assert_eq!(rt;
        kind_of_one(alloc, 1, at_most(alloc, &[(0, -1)], -1)?)?,
        Kind::Ray
    );
    assert_eq!(rt;
        kind_of_one(alloc, -1, at_most(alloc, &[(0, -1)], -1)?)?,
        Kind::Best
    );
    assert_eq!(rt;
        kind_of_one(alloc, -1, equal(alloc, &[(0, -1)], -3)?)?,
        Kind::Best
    );
    assert_eq!(rt;
        kind_of_one(alloc, 1, equal(alloc, &[(0, -1)], 1)?)?,
        Kind::Empty
    );
    assert_eq!(rt;
        kind_of_one(alloc, i64::MAX, at_most(alloc, &[(0, i64::MAX)], i64::MAX)?)?,
        Kind::Best
    );
    assert_eq!(rt;
        kind_of_one(alloc, -1, at_most(alloc, &[(0, i64::MIN)], i64::MIN)?)?,
        Kind::Best
    );
    Ok(())
}
