use crate::basis::Basis;
use crate::choose::{entering, leaving, row_entries};
use crate::elimination::invert;
use crate::entries::{number_at, set_number, zeros};
use crate::reduced::{Reduced, multipliers};
use crate::task::{Cost, Task, Variable, empty_columns};
use std::alloc::{AllocError, Global};

/// After so many pivots the inverse is made anew.
const REFRESH: u32 = 300;

/// How far a row that is not in force may be broken.
const BROKEN: f64 = 1e-6;

/// How a solution ended.
#[derive(Clone, Copy, PartialEq, Eq)]
pub enum Ended {
    /// The point is of least cost among those that meet the rows.
    Best,
    /// No point meets the rows.
    Empty,
    /// The cost of each point that meets the rows is over the one that was given.
    Above,
    /// The pivots gave out.
    Limit,
}

/// A linear program whose entries are all 0 or 1, in floating point: the least cost of a point, not negative,
/// that meets the rows. Rows that no point has broken yet are not in force. Its state is a basis that stays from
/// one solution to the next, with a dense inverse. After a refusal for want of memory it is of no use any more.
///
/// The method is the dual simplex method (C. E. Lemke, 1954, "The dual method of solving the linear programming
/// problem"). The variable that leaves is chosen as by the dual steepest edge (J. J. Forrest and D. Goldfarb,
/// 1992, "Steepest-edge simplex algorithms for linear programming"), with the lengths of the inverse's rows
/// computed anew in place of being kept up to date.
#[derive(Drop)]
pub struct FloatSimplex {
    alloc: Global,
    task: Task,
    basis: Basis,
    reduced: Reduced,
    pivots: u64,
    since: u32,
    stale: bool,
}

impl FloatSimplex {
    /// A program without rows over columns of these costs, at least 0, whose sum is to be made least. Where points
    /// cost the same, the sum of their twin costs decides, of any sign. There are as many columns as in the shorter
    /// list.
    pub fn new(alloc: Global, cost: &[f64], twin: &[f64]) -> Result<FloatSimplex, AllocError> {
        let task = Task {
            columns: empty_columns(alloc, cost, twin)?,
            rows: Vec::new(alloc),
        };
        first_state(alloc, task)
    }

    /// Adds a row and gives its number: the sum of these columns is at most `side`, or equal to it. Each column is
    /// named once; one that does not exist counts as 0. An equation is in force at once; another row where a
    /// point breaks it, or by `enforce`.
    pub fn add_row(&mut self, columns: &[u32], equal: bool, side: f64) -> Result<u32, AllocError> {
        let number = self.row_count();
        self.task.add_row(self.alloc, number, columns, equal, side)?;
        self.basis.add_row()?;
        self.reduced.slacks.push(Cost::zero())?;
        if equal {
            self.enforce(number)?;
        }
        Ok(number)
    }

    /// Puts a row in force.
    pub fn enforce(&mut self, row: u32) -> Result<(), AllocError> {
        if row < self.row_count() {
            self.basis.enforce(self.alloc, &self.task, row as usize)?;
        }
        Ok(())
    }

    /// Holds a column at 0 from the next `solve` on.
    pub fn hold(&mut self, column: u32) {
        if let Some(column) = self.task.columns.get_mut(column as usize) {
            column.held = true;
        }
    }

    /// Gives a row another side, from the next `solve` on.
    pub fn set_side(&mut self, row: u32, side: f64) {
        if let Some(row) = self.task.rows.get_mut(row as usize) {
            row.side = side;
            self.stale = true;
        }
    }

    /// Looks for the point of least cost, from the basis where the last solution ended, in at most `limit` pivots.
    /// It ends where the cost passes `most`.
    pub fn solve(&mut self, limit: u32, most: f64) -> Result<Ended, AllocError> {
        if self.stale {
            self.recompute()?;
        }
        let passes = u64::from(limit).saturating_add(u64::from(self.row_count()));
        let mut left = limit;
        for _ in 0..=passes {
            if self.since >= REFRESH {
                self.refresh()?;
            }
            let Some(place) = leaving(&self.task, &mut self.basis) else {
                if self.enforce_broken()? {
                    continue;
                }
                return Ok(Ended::Best);
            };
            if self.value() > most {
                return Ok(Ended::Above);
            }
            if left == 0 {
                return Ok(Ended::Limit);
            }
            left -= 1;
            if !self.step(place)? {
                return Ok(Ended::Empty);
            }
        }
        Ok(Ended::Limit)
    }

    /// -1 where the value at a place is below 0, else 1.
    fn sign(&self, place: usize) -> f64 {
        if self.basis.value(place) < 0.0 {
            -1.0
        } else {
            1.0
        }
    }

    /// One pivot for the variable at a place that breaks its bounds. Where no variable may enter, or the pivot is
    /// not safe, the inverse is made anew instead. False where it was new, and no variable may enter.
    fn step(&mut self, place: usize) -> Result<bool, AllocError> {
        let sign = self.sign(place);
        let row = self.basis.inverse_row(place);
        let entries = row_entries(self.alloc, &self.task, &self.basis, row)?;
        let entries = entries.as_slice();
        match entering(&self.task, &self.basis, &self.reduced, entries, row, sign) {
            Some(variable) => {
                if !self.pivot(place, variable, entries)? {
                    self.refresh()?;
                }
                Ok(true)
            }
            None => {
                let goes_on = self.since > 0;
                if goes_on {
                    self.refresh()?;
                }
                Ok(goes_on)
            }
        }
    }

    /// The entry of a variable in the row of the tableau at a place, by the columns' entries there.
    fn entry(&self, place: usize, variable: Variable, entries: &[f64]) -> f64 {
        match variable {
            Variable::Column(column) => number_at(entries, column),
            Variable::Slack(row) => match self.basis.position(row) {
                Some(position) => number_at(self.basis.inverse_row(place), position),
                None => 0.0,
            },
        }
    }

    /// Exchanges the variable at a place for another one. False, and nothing has changed, where the inverse is not
    /// new and the two computations of the entry differ.
    fn pivot(
        &mut self,
        place: usize,
        variable: Variable,
        entries: &[f64],
    ) -> Result<bool, AllocError> {
        let column = self.basis.column(self.alloc, &self.task, variable)?;
        let entry = number_at(column.as_slice(), place);
        let error = entry - self.entry(place, variable, entries);
        if error.abs() > 1e-7 * (1.0 + entry.abs()) && self.since > 0 {
            return Ok(false);
        }
        let cost = self.reduced.cost(variable);
        let step = Cost {
            main: cost.main / entry,
            twin: cost.twin / entry,
        };
        let row = self.basis.inverse_row(place);
        self.reduced.subtract(&self.basis, step, entries, row);
        self.reduced.set_cost(variable, Cost::zero());
        self.basis
            .exchange(self.alloc, place, variable, column.as_slice())?;
        self.pivots = self.pivots.wrapping_add(1);
        self.since = self.since.wrapping_add(1);
        Ok(true)
    }

    /// Puts each row that the point breaks in force, and says whether there was one.
    fn enforce_broken(&mut self) -> Result<bool, AllocError> {
        let sums = self.basis.row_sums(self.alloc, &self.task)?;
        let mut any = false;
        for (row, sum) in sums.iter().enumerate() {
            if self.basis.position(row).is_none() && *sum > self.task.side(row) + BROKEN {
                self.basis.enforce(self.alloc, &self.task, row)?;
                any = true;
            }
        }
        Ok(any)
    }

    /// The inverse anew from the basis, and all numbers from it.
    pub fn refresh(&mut self) -> Result<(), AllocError> {
        self.since = 0;
        invert(self.alloc, &self.task, &mut self.basis)?;
        self.recompute()
    }

    /// The values and the reduced costs anew, from the inverse.
    fn recompute(&mut self) -> Result<(), AllocError> {
        self.stale = false;
        self.basis.recompute_values(self.alloc, &self.task)?;
        self.reduced.recompute(self.alloc, &self.task, &self.basis)
    }

    /// The cost of the point.
    pub fn value(&self) -> f64 {
        let mut sum = 0.0;
        for (variable, value) in self.basis.variables.iter().zip(self.basis.values.iter()) {
            if let Variable::Column(_) = *variable {
                sum += self.task.cost(*variable).main * *value;
            }
        }
        sum
    }

    /// The columns of the point that have more than 1e-6, with what they have, by rising number.
    pub fn point(&self, alloc: Global) -> Result<Vec<(u32, f64)>, AllocError> {
        let mut point = Vec::new(alloc);
        for (column, place) in self.basis.column_places.iter().enumerate() {
            if let Some(place) = *place {
                let value = self.basis.value(place);
                if value > 1e-6 {
                    point.push((number_of(column), value))?;
                }
            }
        }
        Ok(point)
    }

    /// After `Best`, the multiplier of each row, 0 where it is not in force. The cost of the point is the sum of
    /// multipliers times sides. Those of the rows of a column that is not held sum to its cost at most, and only
    /// equations have any over 0.
    pub fn multipliers(&self, alloc: Global) -> Result<Vec<f64>, AllocError> {
        let mut by_row = zeros(alloc, self.task.rows.len())?;
        let by_position = multipliers(alloc, &self.task, &self.basis)?;
        for (row, multiplier) in self.basis.rows.iter().zip(by_position.iter()) {
            set_number(by_row.as_mut_slice(), *row, multiplier.main);
        }
        Ok(by_row)
    }

    /// After `Empty`, the multipliers of the rows that show it, 0 where a row is not in force. The sum of
    /// multipliers times sides is over 0. Those of the rows of a column that is not held sum to 0 at most, and only
    /// equations have any over 0.
    pub fn farkas(&mut self, alloc: Global) -> Result<Vec<f64>, AllocError> {
        let place = leaving(&self.task, &mut self.basis);
        self.row_at(alloc, place)
    }

    /// By row, its number in the inverse's row at a place, negated where the value there is below 0; 0 where the row
    /// is not in force.
    fn row_at(&self, alloc: Global, place: Option<usize>) -> Result<Vec<f64>, AllocError> {
        let mut by_row = zeros(alloc, self.task.rows.len())?;
        let Some(place) = place else {
            return Ok(by_row);
        };
        let sign = self.sign(place);
        let numbers = self.basis.inverse_row(place);
        for (row, number) in self.basis.rows.iter().zip(numbers.iter()) {
            set_number(by_row.as_mut_slice(), *row, sign * *number);
        }
        Ok(by_row)
    }

    /// The rows in force that the point meets with equality because their slacks are not in the basis, by rising
    /// number.
    pub fn tight_rows(&self, alloc: Global) -> Result<Vec<u32>, AllocError> {
        let mut tight = Vec::new(alloc);
        for row in 0..self.task.rows.len() {
            let slack = self.basis.place(Variable::Slack(row));
            if self.basis.position(row).is_some() && slack.is_none() {
                tight.push(number_of(row))?;
            }
        }
        Ok(tight)
    }

    /// The columns of a row.
    pub fn columns_of(&self, row: u32) -> &[u32] {
        self.task.columns_of(row as usize)
    }

    /// The rows of a column.
    pub fn rows_of(&self, column: u32) -> &[u32] {
        self.task.rows_of(column as usize)
    }

    /// The side of a row.
    pub fn side(&self, row: u32) -> f64 {
        self.task.side(row as usize)
    }

    /// Whether a row is an equation.
    pub fn is_equation(&self, row: u32) -> bool {
        match self.task.rows.get(row as usize) {
            Some(row) => row.equal,
            None => false,
        }
    }

    /// Whether a row is in force.
    pub fn is_in_force(&self, row: u32) -> bool {
        self.basis.position(row as usize).is_some()
    }

    /// Whether a column is held at 0.
    pub fn is_held(&self, column: u32) -> bool {
        match self.task.columns.get(column as usize) {
            Some(column) => column.held,
            None => false,
        }
    }

    /// The number of columns.
    pub fn column_count(&self) -> u32 {
        number_of(self.task.columns.len())
    }

    /// The number of rows.
    pub fn row_count(&self) -> u32 {
        number_of(self.task.rows.len())
    }

    /// The number of rows in force.
    pub fn force_count(&self) -> u32 {
        number_of(self.basis.rows.len())
    }

    /// How many pivots were made in all.
    pub fn pivots(&self) -> u64 {
        self.pivots
    }

    /// How many pivots were made since the inverse was made anew.
    pub fn pivots_since_refresh(&self) -> u32 {
        self.since
    }

    /// A copy, which goes on by itself.
    pub fn copy(&self, alloc: Global) -> Result<FloatSimplex, AllocError> {
        let task = self.task.copy(alloc)?;
        let reduced = self.reduced.copy(alloc)?;
        let basis = self.basis.copy(alloc)?;
        Ok(FloatSimplex {
            alloc,
            task,
            basis,
            reduced,
            pivots: self.pivots,
            since: self.since,
            stale: self.stale,
        })
    }
}

/// A place in a list as a number of 32 bits; there are never as many rows or columns that it does not fit.
fn number_of(place: usize) -> u32 {
    match u32::try_from(place) {
        Ok(number) => number,
        Err(_) => u32::MAX,
    }
}

/// The state of a program without rows.
fn first_state(alloc: Global, task: Task) -> Result<FloatSimplex, AllocError> {
    let columns = task.columns.len();
    let basis = Basis::new(alloc, columns)?;
    let mut reduced = Reduced::new(alloc);
    for column in &task.columns {
        reduced.columns.push(column.cost)?;
    }
    Ok(FloatSimplex {
        alloc,
        task,
        basis,
        reduced,
        pivots: 0,
        since: 0,
        stale: false,
    })
}
