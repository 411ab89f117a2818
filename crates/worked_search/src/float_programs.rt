use float_simplex::{Ended, FloatSimplex};
use std::alloc::{AllocError, Global};
use std::process::Abort;
use std::test::Fail;

/// Whether two numbers are nearly the same.
fn is_near(number: f64, want: f64) -> bool {
    (number - want).abs() < 1e-9
}

/// Whether numbers are nearly these.
fn are_near(numbers: &[f64], want: &[f64]) -> bool {
    numbers.len() == want.len()
        && numbers
            .iter()
            .zip(want.iter())
            .all(|(number, want)| is_near(*number, *want))
}

/// Whether a point has these columns, nearly with these amounts.
fn is_point(point: &[(u32, f64)], want: &[(u32, f64)]) -> bool {
    point.len() == want.len()
        && point
            .iter()
            .zip(want.iter())
            .all(|(one, other)| one.0 == other.0 && is_near(one.1, other.1))
}

/// Three meetings, columns 0 to 2, of which every two clash, and by meeting a column that leaves it out at cost 1
/// (3 to 5). Half of each meeting can be held: the cost is 1.5. Of the multipliers, those of the meetings are 1 by
/// columns 3 to 5, and those of any two clashes sum to -1 by columns 0 to 2.
fn triangle(alloc: Global) -> Result<FloatSimplex, AllocError> {
    let cost = [0.0, 0.0, 0.0, 1.0, 1.0, 1.0];
    let mut program = FloatSimplex::new(alloc, &cost, &[3.0, 1.0, 2.0, 6.0, 5.0, 4.0])?;
    add_triangle(&mut program)?;
    Ok(program)
}

fn add_triangle(program: &mut FloatSimplex) -> Result<(), AllocError> {
    program.add_row(&[0, 3], true, 1.0)?;
    program.add_row(&[1, 4], true, 1.0)?;
    program.add_row(&[2, 5], true, 1.0)?;
    program.add_row(&[0, 1], false, 1.0)?;
    program.add_row(&[1, 2], false, 1.0)?;
    program.add_row(&[0, 2], false, 1.0)?;
    Ok(())
}

/// Before the first solution.
fn judge_rows(rt: &impl Abort, program: &FloatSimplex) {
    assert!(rt; program.column_count() == 6);
    assert!(rt; program.row_count() == 6);
    assert!(rt; program.force_count() == 3);
    assert!(rt; program.is_equation(2) && !program.is_equation(3));
    assert!(rt; program.is_in_force(2) && !program.is_in_force(3));
    assert!(rt; program.columns_of(3) == [0, 1].as_slice());
    assert!(rt; program.rows_of(0) == [0, 3, 5].as_slice());
    assert!(rt; program.side(3) == 1.0);
    assert!(rt; !program.is_held(0));
}

/// Ends before the best point.
fn judge_ends(rt: &impl Abort, program: &mut FloatSimplex) -> Result<(), Fail> {
    assert!(rt; program.solve(0, 100.0)? == Ended::Limit);
    assert!(rt; program.pivots() == 0);
    assert!(rt; program.solve(100, 0.5)? == Ended::Above);
    assert!(rt; program.solve(100, 100.0)? == Ended::Best);
    Ok(())
}

/// The best point.
fn judge_best(rt: &impl Abort, alloc: Global, program: &FloatSimplex) -> Result<(), Fail> {
    assert!(rt; is_near(program.value(), 1.5));
    let point = program.point(alloc)?;
    let want = [(0, 0.5), (1, 0.5), (2, 0.5), (3, 0.5), (4, 0.5), (5, 0.5)];
    assert!(rt; is_point(point.as_slice(), &want));
    let multipliers = program.multipliers(alloc)?;
    let want = [1.0, 1.0, 1.0, -0.5, -0.5, -0.5];
    assert!(rt; are_near(multipliers.as_slice(), &want));
    let tight = program.tight_rows(alloc)?;
    assert!(rt; tight.as_slice() == [0, 1, 2, 3, 4, 5].as_slice());
    Ok(())
}

/// With the three meetings in one clash, one can be held; then none; then the first has to be left out twice, and
/// may not, which no multipliers show but some with one over 0 for the first meeting.
fn judge_cut(rt: &impl Abort, alloc: Global, mut program: FloatSimplex) -> Result<(), Fail> {
    let row = program.add_row(&[0, 1, 2], false, 1.0)?;
    assert!(rt; program.solve(100, 100.0)? == Ended::Best);
    assert!(rt; row == 6 && program.is_in_force(6) && is_near(program.value(), 2.0));
    program.hold(0);
    program.hold(1);
    program.hold(2);
    assert!(rt; program.is_held(2));
    assert!(rt; program.solve(100, 100.0)? == Ended::Best);
    assert!(rt; is_near(program.value(), 3.0));
    program.set_side(0, 2.0);
    assert!(rt; program.solve(100, 100.0)? == Ended::Best);
    assert!(rt; is_near(program.value(), 4.0));
    program.hold(3);
    assert!(rt; program.solve(100, 100.0)? == Ended::Empty);
    let farkas = program.farkas(alloc)?;
    assert!(rt; matches!(farkas.as_slice().first(), Some(first) if *first > 0.0));
    Ok(())
}

/// A triangle, solved; then a copy of it with a cut; then itself as it was, with its inverse made anew.
fn judge_triangle(rt: &impl Abort, alloc: Global, program: &mut FloatSimplex) -> Result<(), Fail> {
    judge_rows(rt, program);
    judge_ends(rt, program)?;
    judge_best(rt, alloc, program)?;
    judge_cut(rt, alloc, program.copy(alloc)?)?;
    assert!(rt; program.row_count() == 6 && program.pivots_since_refresh() > 0);
    program.refresh()?;
    assert!(rt; program.pivots_since_refresh() == 0);
    judge_best(rt, alloc, program)
}

/// Two columns of equal cost in one equation: the one of lesser twin cost.
fn twins(alloc: Global) -> Result<FloatSimplex, AllocError> {
    FloatSimplex::new(alloc, &[1.0, 1.0], &[5.0, 3.0])
}

fn judge_twins(rt: &impl Abort, alloc: Global, program: &mut FloatSimplex) -> Result<(), Fail> {
    program.add_row(&[0, 1], true, 1.0)?;
    let other = program.add_row(&[1], false, 1.0)?;
    program.enforce(other)?;
    assert!(rt; program.force_count() == 2);
    assert!(rt; program.solve(100, 100.0)? == Ended::Best);
    assert!(rt; is_near(program.value(), 1.0));
    let point = program.point(alloc)?;
    assert!(rt; is_point(point.as_slice(), &[(1, 1.0)]));
    let multipliers = program.multipliers(alloc)?;
    assert!(rt; are_near(multipliers.as_slice(), &[1.0, 0.0]));
    let tight = program.tight_rows(alloc)?;
    assert!(rt; tight.as_slice() == [0].as_slice());
    Ok(())
}

#[test]
fn solves_in_floating_point(rt: HostRuntime) -> Result<(), Fail> {
    let alloc = rt.alloc();
    let mut first = triangle(alloc)?;
    judge_triangle(&rt, alloc, &mut first)
}

#[test]
fn twin_costs_decide(rt: HostRuntime) -> Result<(), Fail> {
    let alloc = rt.alloc();
    let mut first = twins(alloc)?;
    judge_twins(&rt, alloc, &mut first)
}
