use crate::basis::Basis;
use crate::task::{Cost, Task, Variable};
use std::alloc::{AllocError, Global};

/// The reduced costs of the columns and of the slacks of rows: 0 in the basis.
#[derive(Drop)]
pub(crate) struct Reduced {
    pub columns: Vec<Cost>,
    pub slacks: Vec<Cost>,
}

/// The cost at a place; none beyond the end.
fn cost_at(costs: &[Cost], at: usize) -> Cost {
    match costs.get(at) {
        Some(cost) => *cost,
        None => Cost::zero(),
    }
}

/// Writes the cost at a place, where there is one.
fn set_cost(costs: &mut [Cost], at: usize, cost: Cost) {
    if let Some(place) = costs.get_mut(at) {
        *place = cost;
    }
}

impl Reduced {
    /// No costs.
    pub(crate) fn new(alloc: Global) -> Reduced {
        Reduced {
            columns: Vec::new(alloc),
            slacks: Vec::new(alloc),
        }
    }

    /// The reduced costs of a variable.
    pub(crate) fn cost(&self, variable: Variable) -> Cost {
        match variable {
            Variable::Column(column) => cost_at(self.columns.as_slice(), column),
            Variable::Slack(row) => cost_at(self.slacks.as_slice(), row),
        }
    }

    /// Writes the reduced costs of a variable.
    pub(crate) fn set_cost(&mut self, variable: Variable, cost: Cost) {
        match variable {
            Variable::Column(column) => set_cost(self.columns.as_mut_slice(), column, cost),
            Variable::Slack(row) => set_cost(self.slacks.as_mut_slice(), row, cost),
        }
    }

    /// Takes multiples of a step from the reduced costs: for the columns those of `entries`, for the slacks of
    /// the rows in force those of `row`.
    pub(crate) fn subtract(&mut self, basis: &Basis, step: Cost, entries: &[f64], row: &[f64]) {
        for (cost, entry) in self.columns.iter_mut().zip(entries.iter()) {
            if *entry != 0.0 {
                cost.subtract(*entry, step);
            }
        }
        for (number, entry) in basis.rows.iter().zip(row.iter()) {
            if *entry != 0.0 {
                if let Some(cost) = self.slacks.get_mut(*number) {
                    cost.subtract(*entry, step);
                }
            }
        }
    }

    /// The reduced costs anew, from the multipliers of the rows in force.
    pub(crate) fn recompute(
        &mut self,
        alloc: Global,
        task: &Task,
        basis: &Basis,
    ) -> Result<(), AllocError> {
        let multipliers = multipliers(alloc, task, basis)?;
        for column in 0..task.columns.len() {
            let cost = column_cost(task, basis, multipliers.as_slice(), column);
            set_cost(self.columns.as_mut_slice(), column, cost);
        }
        for (row, multiplier) in basis.rows.iter().zip(multipliers.iter()) {
            let mut cost = Cost::zero();
            if basis.place(Variable::Slack(*row)).is_none() {
                cost.subtract(1.0, *multiplier);
            }
            set_cost(self.slacks.as_mut_slice(), *row, cost);
        }
        Ok(())
    }

    /// A copy.
    pub(crate) fn copy(&self, alloc: Global) -> Result<Reduced, AllocError> {
        let columns = Vec::from_slice(alloc, self.columns.as_slice())?;
        let slacks = Vec::from_slice(alloc, self.slacks.as_slice())?;
        Ok(Reduced { columns, slacks })
    }
}

/// The reduced costs of a column.
fn column_cost(task: &Task, basis: &Basis, multipliers: &[Cost], column: usize) -> Cost {
    let variable = Variable::Column(column);
    if basis.place(variable).is_some() {
        return Cost::zero();
    }
    let mut cost = task.cost(variable);
    for row in task.rows_of(column) {
        if let Some(position) = basis.position(*row as usize) {
            cost.subtract(1.0, cost_at(multipliers, position));
        }
    }
    cost
}

/// Adds a multiple of numbers to costs, place by place.
fn add_multiple(costs: &mut [Cost], factor: Cost, numbers: &[f64]) {
    for (cost, number) in costs.iter_mut().zip(numbers.iter()) {
        cost.main += factor.main * *number;
        cost.twin += factor.twin * *number;
    }
}

/// The multipliers of the rows in force, by position.
pub(crate) fn multipliers(
    alloc: Global,
    task: &Task,
    basis: &Basis,
) -> Result<Vec<Cost>, AllocError> {
    let mut sums = vec![in alloc; Cost::zero(); basis.rows.len()]?;
    for (variable, row) in basis.variables.iter().zip(basis.inverse.iter()) {
        if let Variable::Column(_) = *variable {
            add_multiple(sums.as_mut_slice(), task.cost(*variable), row.as_slice());
        }
    }
    Ok(sums)
}
