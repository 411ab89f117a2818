use std::alloc::{AllocError, Global};

/// A variable: a column, or the slack of a row.
#[derive(Clone, Copy)]
pub(crate) enum Variable {
    Column(usize),
    Slack(usize),
}

/// A cost, and its twin, which decides between equal costs.
#[derive(Clone, Copy)]
pub(crate) struct Cost {
    pub main: f64,
    pub twin: f64,
}

impl Cost {
    /// No cost.
    pub(crate) fn zero() -> Cost {
        Cost {
            main: 0.0,
            twin: 0.0,
        }
    }

    /// Takes a multiple of another cost from this one.
    pub(crate) fn subtract(&mut self, factor: f64, other: Cost) {
        self.main -= factor * other.main;
        self.twin -= factor * other.twin;
    }
}

/// A column: the rows in which it has an entry, its costs, and whether it is held at 0.
#[derive(Drop)]
pub(crate) struct Column {
    pub rows: Vec<u32>,
    pub cost: Cost,
    pub held: bool,
}

/// A row: the columns whose sum it bounds, whether it is an equation, and its side.
#[derive(Drop)]
pub(crate) struct Row {
    pub columns: Vec<u32>,
    pub equal: bool,
    pub side: f64,
}

/// The columns and the rows of a linear program.
#[derive(Drop)]
pub(crate) struct Task {
    pub columns: Vec<Column>,
    pub rows: Vec<Row>,
}

impl Task {
    /// The rows in which a column has an entry.
    pub(crate) fn rows_of(&self, column: usize) -> &[u32] {
        match self.columns.get(column) {
            Some(column) => column.rows.as_slice(),
            None => &[],
        }
    }

    /// The columns whose sum a row bounds.
    pub(crate) fn columns_of(&self, row: usize) -> &[u32] {
        match self.rows.get(row) {
            Some(row) => row.columns.as_slice(),
            None => &[],
        }
    }

    /// The side of a row.
    pub(crate) fn side(&self, row: usize) -> f64 {
        match self.rows.get(row) {
            Some(row) => row.side,
            None => 0.0,
        }
    }

    /// The costs of a variable; a slack has none.
    pub(crate) fn cost(&self, variable: Variable) -> Cost {
        match variable {
            Variable::Column(column) => match self.columns.get(column) {
                Some(column) => column.cost,
                None => Cost::zero(),
            },
            Variable::Slack(_) => Cost::zero(),
        }
    }

    /// Whether a variable has to be 0: a column that is held, or the slack of an equation.
    pub(crate) fn is_fixed(&self, variable: Variable) -> bool {
        match variable {
            Variable::Column(column) => match self.columns.get(column) {
                Some(column) => column.held,
                None => true,
            },
            Variable::Slack(row) => match self.rows.get(row) {
                Some(row) => row.equal,
                None => true,
            },
        }
    }

    /// Adds a row behind the others.
    pub(crate) fn add_row(
        &mut self,
        alloc: Global,
        number: u32,
        columns: &[u32],
        equal: bool,
        side: f64,
    ) -> Result<(), AllocError> {
        let kept = Vec::from_slice(alloc, columns)?;
        self.rows.push(Row {
            columns: kept,
            equal,
            side,
        })?;
        for column in columns {
            if let Some(column) = self.columns.get_mut(*column as usize) {
                column.rows.push(number)?;
            }
        }
        Ok(())
    }

    /// A copy.
    pub(crate) fn copy(&self, alloc: Global) -> Result<Task, AllocError> {
        let columns = copy_columns(alloc, self.columns.as_slice())?;
        let rows = copy_rows(alloc, self.rows.as_slice())?;
        Ok(Task { columns, rows })
    }
}

/// Columns without rows, of these costs.
pub(crate) fn empty_columns(
    alloc: Global,
    cost: &[f64],
    twin: &[f64],
) -> Result<Vec<Column>, AllocError> {
    let mut columns = Vec::new(alloc);
    for (main, twin) in cost.iter().zip(twin.iter()) {
        let cost = Cost {
            main: *main,
            twin: *twin,
        };
        columns.push(Column {
            rows: Vec::new(alloc),
            cost,
            held: false,
        })?;
    }
    Ok(columns)
}

/// A copy of columns.
fn copy_columns(alloc: Global, columns: &[Column]) -> Result<Vec<Column>, AllocError> {
    let mut copies = Vec::new(alloc);
    for column in columns {
        let rows = Vec::from_slice(alloc, column.rows.as_slice())?;
        copies.push(Column {
            rows,
            cost: column.cost,
            held: column.held,
        })?;
    }
    Ok(copies)
}

/// A copy of rows.
fn copy_rows(alloc: Global, rows: &[Row]) -> Result<Vec<Row>, AllocError> {
    let mut copies = Vec::new(alloc);
    for row in rows {
        let columns = Vec::from_slice(alloc, row.columns.as_slice())?;
        copies.push(Row {
            columns,
            equal: row.equal,
            side: row.side,
        })?;
    }
    Ok(copies)
}
