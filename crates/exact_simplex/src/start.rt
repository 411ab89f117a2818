ghost use Rattle.std.specs.Prelude.{◌≡◌, ◌≤◌, ◌<◌, ◌+◌, ◌^◌, length, IfOk, IfErr};
ghost use Rattle.simplex_tableau.specs.Ends.{Ends};
ghost use Rattle.exact_simplex.specs.Point.{HasSlacks};
ghost use Rattle.exact_simplex.specs.Progress.{column_of, size_of};
ghost use Rattle.exact_simplex.specs.Start.{AreSlacks, Starts};
ghost use Rattle.simplex_tableau.specs.declared.fault.Fault.TheVariants as fault;

use crate::build::append_units;
use crate::progress::{Progress, Task};
use exact_num::Arith;
use simplex_tableau::{Fault, RowState, Tableau, append_number, repeated};
use std::alloc::Global;

/// The slacks of the rows, the first of which is variable `first`.
fn slacks(alloc: Global, first: usize, rows: usize) -> Result<Vec<usize>, Fault>
    requires { first + rows < 2 ^ 64 }
    ensures ok { IfOk result (λ v. AreSlacks first rows v.items) }
    ensures err { IfErr result (λ e. e ≡ fault.Memory) }
{
    let mut basis = Vec::new(alloc);
    for i in 0..rows {
        append_number(&mut basis, first + i)?;
    }
    Ok(basis)
}

/// Sides that break ties: whole numbers from 1 to 1,024 in no order that the task knows.
fn tie_sides<A: Arith>(alloc: Global, arith: &mut A, rows: usize) -> Result<Vec<A::Num>, Fault>
    requires { rows ≤ 2 ^ 32 }
    ensures { Ends (A.wides arith.old) (A.wides arith.new) (λ v. length v.items ≡ rows) result }
{
    let mut ties = Vec::new(alloc);
    for i in 0..rows {
        let mixed = (i as u64 + 1) * 2_654_435_761 % 4_294_967_296;
        let side = arith.from_int(i128::from(mixed / 4_194_304 + 1))?;
        append_number(&mut ties, side)?;
    }
    Ok(ties)
}

/// The first basis: the slacks, each at the place of its row; no row is in force.
pub(crate) fn start<A: Arith>(
    alloc: Global,
    arith: &mut A,
    task: &Task<A::Num>,
) -> Result<Progress<A::Num>, Fault>
    requires few { size_of task.now ≤ 2 ^ 32 }
    requires variables { task.now.columns + size_of task.now < 2 ^ 64 }
    requires slacks { HasSlacks (size_of task.now) task.now.columns (column_of A.Num.value task.now) }
    ensures { Ends (A.wides arith.old) (A.wides arith.new) (Starts A.Num.value task.now) result }
{
    let rows = task.sides.len();
    let one = arith.from_int(1)?;
    let basis = slacks(alloc, task.columns, rows)?;
    let mut inverse = Vec::new(alloc);
    append_units(alloc, &mut inverse, one, rows)?;
    let point = Vec::from_slice(alloc, &task.sides)?;
    let tie = tie_sides(alloc, arith, rows)?;
    let states = repeated(alloc, RowState::Waiting, rows)?;
    let tableau = Tableau {
        basis,
        inverse,
        point,
        tie,
    };
    Ok(Progress {
        tableau,
        states,
        pivots: 0,
    })
}
