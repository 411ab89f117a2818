use crate::basis::Basis;
use crate::entries::{add_number, zeros};
use crate::reduced::Reduced;
use crate::task::{Task, Variable};
use std::alloc::{AllocError, Global};

/// By how much a value may be outside of its bounds.
const TOLERANCE: f64 = 1e-7;

/// The least entry on which a variable may enter.
const LEAST_ENTRY: f64 = 1e-5;

/// By how much ratios have to differ.
const CLOSE: f64 = 1e-9;

/// By how much the value of a variable is below 0, or off 0 where it has to be 0.
fn violation(fixed: bool, value: f64) -> f64 {
    if value < 0.0 {
        -value
    } else if fixed {
        value
    } else {
        0.0
    }
}

/// The place of the variable that leaves: the one whose value breaks its bounds by most, in proportion to the
/// length of its row of the inverse. None where no bound is broken.
pub(crate) fn leaving(task: &Task, basis: &mut Basis) -> Option<usize> {
    let mut best = None;
    let mut greatest = 0.0;
    for place in 0..basis.variables.len() {
        let broken = broken_by(task, basis, place);
        if broken > TOLERANCE {
            let score = broken * broken / basis.square(place);
            if score > greatest {
                greatest = score;
                best = Some(place);
            }
        }
    }
    best
}

/// By how much the value at a place breaks its bounds.
fn broken_by(task: &Task, basis: &Basis, place: usize) -> f64 {
    match basis.variables.get(place) {
        Some(variable) => violation(task.is_fixed(*variable), basis.value(place)),
        None => 0.0,
    }
}

/// By column, its entry in the row of the tableau that belongs to this row of the inverse.
pub(crate) fn row_entries(
    alloc: Global,
    task: &Task,
    basis: &Basis,
    row: &[f64],
) -> Result<Vec<f64>, AllocError> {
    let mut entries = zeros(alloc, task.columns.len())?;
    for (number, factor) in basis.rows.iter().zip(row.iter()) {
        if *factor != 0.0 {
            for column in task.columns_of(*number) {
                add_number(entries.as_mut_slice(), *column as usize, *factor);
            }
        }
    }
    Ok(entries)
}

/// A variable that may enter, with the ratios of its reduced costs to its entry.
#[derive(Clone, Copy)]
struct Candidate {
    variable: Variable,
    ratio: f64,
    twin: f64,
    entry: f64,
}

impl Candidate {
    /// Whether this one enters rather than the other: the lower ratio, then the lower ratio of the twin, then the
    /// greater entry.
    fn is_before(&self, other: &Candidate) -> bool {
        if self.ratio < other.ratio - CLOSE {
            return true;
        }
        if !(self.ratio < other.ratio + CLOSE) {
            return false;
        }
        if self.twin < other.twin - CLOSE {
            return true;
        }
        self.twin < other.twin + CLOSE && self.entry > other.entry
    }
}

/// The choice of the variable that enters.
#[derive(Clone, Copy)]
struct Choosing<'a> {
    task: &'a Task,
    basis: &'a Basis,
    reduced: &'a Reduced,
}

impl Choosing<'_> {
    /// The better one of the best candidate so far and a variable with this entry.
    fn better(&self, best: Option<Candidate>, variable: Variable, entry: f64) -> Option<Candidate> {
        if self.basis.place(variable).is_some() || self.task.is_fixed(variable) {
            return best;
        }
        let cost = self.reduced.cost(variable);
        let main = if cost.main > 0.0 { cost.main } else { 0.0 };
        let candidate = Candidate {
            variable,
            ratio: main / entry,
            twin: cost.twin / entry,
            entry,
        };
        match best {
            Some(other) if !candidate.is_before(&other) => best,
            _ => Some(candidate),
        }
    }
}

/// The variable that enters for one whose value is below 0 (`sign` -1) or over 0 (`sign` 1), by the ratio test
/// of the dual simplex method. `entries` and `row` are the entries of the columns and of the slacks of the rows
/// in force in the row of the tableau. None where no entry lets one enter.
pub(crate) fn entering(
    task: &Task,
    basis: &Basis,
    reduced: &Reduced,
    entries: &[f64],
    row: &[f64],
    sign: f64,
) -> Option<Variable> {
    let choosing = Choosing {
        task,
        basis,
        reduced,
    };
    let mut best = None;
    for (column, entry) in entries.iter().enumerate() {
        let entry = sign * *entry;
        if entry >= LEAST_ENTRY {
            best = choosing.better(best, Variable::Column(column), entry);
        }
    }
    for (number, entry) in basis.rows.iter().zip(row.iter()) {
        let entry = sign * *entry;
        if entry >= LEAST_ENTRY {
            best = choosing.better(best, Variable::Slack(*number), entry);
        }
    }
    best.map(|candidate| candidate.variable)
}
