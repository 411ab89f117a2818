use crate::basis::Basis;
use crate::entries::{
    divided, entries_above, number_at, set_number, subtract_entries, sum_at, zeros,
};
use crate::task::{Task, Variable};
use std::alloc::{AllocError, Global};

/// The column, over the basis of an inverse, that has an entry 1 at each of these positions.
pub(crate) fn column_of(
    alloc: Global,
    inverse: &[Vec<f64>],
    positions: &[usize],
) -> Result<Vec<f64>, AllocError> {
    let mut column = Vec::with_capacity(alloc, inverse.len())?;
    for row in inverse {
        column.push(sum_at(row.as_slice(), positions))?;
    }
    Ok(column)
}

/// Turns an inverse into that of the basis in which a variable with this column stands at the place. Numbers of
/// at most the absolute value `least` are taken as 0 in what is subtracted from the other rows.
pub(crate) fn eliminate(
    alloc: Global,
    inverse: &mut [Vec<f64>],
    place: usize,
    column: &[f64],
    least: f64,
) -> Result<(), AllocError> {
    let Some(row) = inverse.get(place) else {
        return Ok(());
    };
    let quotients = divided(alloc, row.as_slice(), number_at(column, place))?;
    let entries = entries_above(alloc, quotients.as_slice(), least)?;
    for (row, factor) in inverse.iter_mut().zip(column.iter()) {
        if factor.abs() > least {
            subtract_entries(row.as_mut_slice(), *factor, entries.as_slice());
        }
    }
    if let Some(row) = inverse.get_mut(place) {
        *row = quotients;
    }
    Ok(())
}

/// An inverse that is made anew, one variable after the other, out of that of the slacks.
#[derive(Drop)]
pub(crate) struct Elimination {
    inverse: Vec<Vec<f64>>,
    variables: Vec<Variable>,
    free: Vec<bool>,
}

impl Elimination {
    /// The basis of the slacks of all rows in force. The place of a slack that is to stay is not free.
    pub(crate) fn new(alloc: Global, basis: &Basis) -> Result<Elimination, AllocError> {
        let inverse = unit_rows(alloc, basis.rows.len())?;
        let mut variables = Vec::new(alloc);
        let mut free = Vec::new(alloc);
        for row in &basis.rows {
            let slack = Variable::Slack(*row);
            variables.push(slack)?;
            free.push(basis.place(slack).is_none())?;
        }
        Ok(Elimination {
            inverse,
            variables,
            free,
        })
    }

    /// The free place with the entry of greatest absolute value, if that is 1e-7 at least.
    fn best_place(&self, column: &[f64]) -> Option<usize> {
        let mut best = None;
        let mut greatest = 0.0;
        for (place, free) in self.free.iter().enumerate() {
            let size = number_at(column, place).abs();
            if *free && size > greatest {
                greatest = size;
                best = Some(place);
            }
        }
        if greatest < 1e-7 { None } else { best }
    }

    /// Puts a column in the basis, at the free place that suits best; it is left out where none does.
    pub(crate) fn add(
        &mut self,
        alloc: Global,
        variable: Variable,
        positions: &[usize],
    ) -> Result<(), AllocError> {
        let column = column_of(alloc, self.inverse.as_slice(), positions)?;
        let Some(place) = self.best_place(column.as_slice()) else {
            return Ok(());
        };
        eliminate(
            alloc,
            self.inverse.as_mut_slice(),
            place,
            column.as_slice(),
            0.0,
        )?;
        if let Some(entry) = self.variables.get_mut(place) {
            *entry = variable;
        }
        if let Some(free) = self.free.get_mut(place) {
            *free = false;
        }
        Ok(())
    }

    /// Gives the inverse and the variables to the basis.
    pub(crate) fn finish(self, basis: &mut Basis) {
        let Elimination {
            inverse,
            variables,
            free: _,
        } = self;
        for place in 0..basis.variables.len() {
            if let Some(variable) = basis.variables.get(place).copied() {
                basis.set_place(variable, None);
            }
        }
        for (place, variable) in variables.iter().enumerate() {
            basis.set_place(*variable, Some(place));
        }
        basis.variables = variables;
        basis.inverse = inverse;
    }
}

/// The rows of a unit matrix.
fn unit_rows(alloc: Global, count: usize) -> Result<Vec<Vec<f64>>, AllocError> {
    let mut rows = Vec::new(alloc);
    for place in 0..count {
        let mut row = zeros(alloc, count)?;
        set_number(row.as_mut_slice(), place, 1.0);
        rows.push(row)?;
    }
    Ok(rows)
}

/// The inverse of the basis anew, by Gauss-Jordan elimination of its columns in the order of their places.
pub(crate) fn invert(alloc: Global, task: &Task, basis: &mut Basis) -> Result<(), AllocError> {
    let mut elimination = Elimination::new(alloc, basis)?;
    add_columns(alloc, task, basis, &mut elimination)?;
    elimination.finish(basis);
    basis.forget_all_squares();
    Ok(())
}

/// Puts the columns of the basis into the new one.
fn add_columns(
    alloc: Global,
    task: &Task,
    basis: &Basis,
    elimination: &mut Elimination,
) -> Result<(), AllocError> {
    for variable in &basis.variables {
        if let Variable::Column(_) = *variable {
            let positions = basis.positions_of(alloc, task, *variable)?;
            elimination.add(alloc, *variable, positions.as_slice())?;
        }
    }
    Ok(())
}
