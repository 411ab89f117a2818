use crate::elimination::{column_of, eliminate};
use crate::entries::{
    add_number, number_at, product_sum, set_number, square_sum, subtract_multiple, zeros,
};
use crate::task::{Task, Variable};
use std::alloc::{AllocError, Global};

/// The rows in force, each at its position, and a basis of as many variables, each at its place, with the
/// inverse of the basis and the values of its variables.
#[derive(Drop)]
pub(crate) struct Basis {
    /// The rows in force, by position.
    pub rows: Vec<usize>,
    /// By row, its position, where it is in force.
    pub positions: Vec<Option<usize>>,
    /// The variables of the basis, by place.
    pub variables: Vec<Variable>,
    /// By column, its place, where it is in the basis.
    pub column_places: Vec<Option<usize>>,
    /// By row, the place of its slack, where that is in the basis.
    pub slack_places: Vec<Option<usize>>,
    /// The inverse: by place, over the positions.
    pub inverse: Vec<Vec<f64>>,
    /// The values of the basis's variables, by place.
    pub values: Vec<f64>,
    /// The sums of the squares of the inverse's rows, by place, where they are known.
    squares: Vec<Option<f64>>,
}

/// The entry of a list of places; none beyond its end.
fn place_in(places: &[Option<usize>], at: usize) -> Option<usize> {
    match places.get(at) {
        Some(place) => *place,
        None => None,
    }
}

/// Writes an entry of a list of places, where there is one.
fn set_place_in(places: &mut [Option<usize>], at: usize, place: Option<usize>) {
    if let Some(entry) = places.get_mut(at) {
        *entry = place;
    }
}

/// A copy of the rows of an inverse.
fn copy_inverse(alloc: Global, inverse: &[Vec<f64>]) -> Result<Vec<Vec<f64>>, AllocError> {
    let mut copies = Vec::new(alloc);
    for row in inverse {
        let copy = Vec::from_slice(alloc, row.as_slice())?;
        copies.push(copy)?;
    }
    Ok(copies)
}

impl Basis {
    /// The empty basis, over so many columns and no rows.
    pub(crate) fn new(alloc: Global, columns: usize) -> Result<Basis, AllocError> {
        let column_places = vec![in alloc; None; columns]?;
        Ok(Basis {
            rows: Vec::new(alloc),
            positions: Vec::new(alloc),
            variables: Vec::new(alloc),
            column_places,
            slack_places: Vec::new(alloc),
            inverse: Vec::new(alloc),
            values: Vec::new(alloc),
            squares: Vec::new(alloc),
        })
    }

    /// A copy.
    pub(crate) fn copy(&self, alloc: Global) -> Result<Basis, AllocError> {
        let rows = Vec::from_slice(alloc, self.rows.as_slice())?;
        let positions = Vec::from_slice(alloc, self.positions.as_slice())?;
        let variables = Vec::from_slice(alloc, self.variables.as_slice())?;
        let column_places = Vec::from_slice(alloc, self.column_places.as_slice())?;
        let slack_places = Vec::from_slice(alloc, self.slack_places.as_slice())?;
        let inverse = copy_inverse(alloc, self.inverse.as_slice())?;
        let values = Vec::from_slice(alloc, self.values.as_slice())?;
        let squares = Vec::from_slice(alloc, self.squares.as_slice())?;
        Ok(Basis {
            rows,
            positions,
            variables,
            column_places,
            slack_places,
            inverse,
            values,
            squares,
        })
    }

    /// The position of a row, where it is in force.
    pub(crate) fn position(&self, row: usize) -> Option<usize> {
        place_in(self.positions.as_slice(), row)
    }

    /// The place of a variable, where it is in the basis.
    pub(crate) fn place(&self, variable: Variable) -> Option<usize> {
        match variable {
            Variable::Column(column) => place_in(self.column_places.as_slice(), column),
            Variable::Slack(row) => place_in(self.slack_places.as_slice(), row),
        }
    }

    /// Notes the place of a variable, or that it is not in the basis.
    pub(crate) fn set_place(&mut self, variable: Variable, place: Option<usize>) {
        match variable {
            Variable::Column(column) => {
                set_place_in(self.column_places.as_mut_slice(), column, place)
            }
            Variable::Slack(row) => set_place_in(self.slack_places.as_mut_slice(), row, place),
        }
    }

    /// The row of the inverse at a place.
    pub(crate) fn inverse_row(&self, place: usize) -> &[f64] {
        match self.inverse.get(place) {
            Some(row) => row.as_slice(),
            None => &[],
        }
    }

    /// The sum of the squares of the inverse's row at a place, which is kept until the row changes.
    pub(crate) fn square(&mut self, place: usize) -> f64 {
        if let Some(Some(square)) = self.squares.get(place) {
            return *square;
        }
        let square = square_sum(self.inverse_row(place));
        if let Some(entry) = self.squares.get_mut(place) {
            *entry = Some(square);
        }
        square
    }

    /// Forgets the sums of squares of the rows that have an entry in a column.
    fn forget_squares(&mut self, column: &[f64]) {
        for (square, entry) in self.squares.iter_mut().zip(column.iter()) {
            if *entry != 0.0 {
                *square = None;
            }
        }
    }

    /// Forgets all sums of squares.
    pub(crate) fn forget_all_squares(&mut self) {
        for square in self.squares.iter_mut() {
            *square = None;
        }
    }

    /// The value at a place.
    pub(crate) fn value(&self, place: usize) -> f64 {
        number_at(self.values.as_slice(), place)
    }

    /// Makes room for one more row, which is not in force.
    pub(crate) fn add_row(&mut self) -> Result<(), AllocError> {
        self.positions.push(None)?;
        self.slack_places.push(None)?;
        Ok(())
    }

    /// Puts a row in force, with its slack in the basis, where it is not yet.
    pub(crate) fn enforce(
        &mut self,
        alloc: Global,
        task: &Task,
        row: usize,
    ) -> Result<(), AllocError> {
        if self.position(row).is_some() {
            return Ok(());
        }
        let count = self.rows.len();
        let (numbers, value) = self.slack_of(alloc, task, row)?;
        for other in self.inverse.iter_mut() {
            other.push(0.0)?;
        }
        self.inverse.push(numbers)?;
        self.values.push(value)?;
        self.squares.push(None)?;
        self.rows.push(row)?;
        self.variables.push(Variable::Slack(row))?;
        set_place_in(self.positions.as_mut_slice(), row, Some(count));
        self.set_place(Variable::Slack(row), Some(count));
        Ok(())
    }

    /// The row of the inverse for the slack of a row that comes in force, and the slack's value.
    fn slack_of(
        &self,
        alloc: Global,
        task: &Task,
        row: usize,
    ) -> Result<(Vec<f64>, f64), AllocError> {
        let mut numbers = zeros(alloc, self.rows.len())?;
        let mut value = task.side(row);
        for column in task.columns_of(row) {
            if let Some(place) = self.place(Variable::Column(*column as usize)) {
                value -= self.value(place);
                subtract_multiple(numbers.as_mut_slice(), 1.0, self.inverse_row(place));
            }
        }
        numbers.push(1.0)?;
        Ok((numbers, value))
    }

    /// The positions of the rows in force in which a variable has an entry.
    pub(crate) fn positions_of(
        &self,
        alloc: Global,
        task: &Task,
        variable: Variable,
    ) -> Result<Vec<usize>, AllocError> {
        let mut positions = Vec::new(alloc);
        match variable {
            Variable::Column(column) => {
                for row in task.rows_of(column) {
                    if let Some(position) = self.position(*row as usize) {
                        positions.push(position)?;
                    }
                }
            }
            Variable::Slack(row) => {
                if let Some(position) = self.position(row) {
                    positions.push(position)?;
                }
            }
        }
        Ok(positions)
    }

    /// A variable's column over the basis, by place.
    pub(crate) fn column(
        &self,
        alloc: Global,
        task: &Task,
        variable: Variable,
    ) -> Result<Vec<f64>, AllocError> {
        let positions = self.positions_of(alloc, task, variable)?;
        column_of(alloc, self.inverse.as_slice(), positions.as_slice())
    }

    /// Puts a variable in the basis at a place, in exchange for the one there. `column` is its column over the
    /// basis.
    pub(crate) fn exchange(
        &mut self,
        alloc: Global,
        place: usize,
        variable: Variable,
        column: &[f64],
    ) -> Result<(), AllocError> {
        let value = self.value(place) / number_at(column, place);
        subtract_multiple(self.values.as_mut_slice(), value, column);
        set_number(self.values.as_mut_slice(), place, value);
        if let Some(leaving) = self.variables.get(place).copied() {
            self.set_place(leaving, None);
        }
        if let Some(entry) = self.variables.get_mut(place) {
            *entry = variable;
        }
        self.set_place(variable, Some(place));
        self.forget_squares(column);
        eliminate(alloc, self.inverse.as_mut_slice(), place, column, 1e-12)
    }

    /// The values anew, from the inverse and the sides.
    pub(crate) fn recompute_values(
        &mut self,
        alloc: Global,
        task: &Task,
    ) -> Result<(), AllocError> {
        let mut sides = Vec::new(alloc);
        for row in &self.rows {
            sides.push(task.side(*row))?;
        }
        for (value, row) in self.values.iter_mut().zip(self.inverse.iter()) {
            *value = product_sum(row.as_slice(), sides.as_slice());
        }
        Ok(())
    }

    /// By row, the sum of the columns' values.
    pub(crate) fn row_sums(&self, alloc: Global, task: &Task) -> Result<Vec<f64>, AllocError> {
        let mut sums = zeros(alloc, task.rows.len())?;
        for (variable, value) in self.variables.iter().zip(self.values.iter()) {
            if let Variable::Column(column) = *variable {
                for row in task.rows_of(column) {
                    add_number(sums.as_mut_slice(), *row as usize, *value);
                }
            }
        }
        Ok(sums)
    }
}
