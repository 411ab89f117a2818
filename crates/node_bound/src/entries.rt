ghost use Rattle.std.specs.Prelude.{◌≡◌, ◌≢◌, ◌<◌, ◌≤◌, ◌==◌, ◌++◌, ◌∷◌, [], ℕ, IfOk, OnOk, length, nat_lt, true};
ghost use Rattle.std.specs.List.{list_all};
ghost use Rattle.numbers.specs.Sums.{picked};
ghost use Rattle.duality.specs.Packing.{coefficient, floor_level, level_coefficient};
ghost use Rattle.duality.specs.declared.row.RowName.TheVariants.{Level};
ghost use Rattle.meeting_patterns.specs.Pattern.{patterns_of};
ghost use Rattle.packing_model.specs.Built.{packing};
ghost use Rattle.packing_model.specs.Closing.{counted};
ghost use Rattle.packing_model.specs.Nodes.{fixed_of, stage_at};
ghost use Rattle.node_bound.specs.Entries.{AreEmptyRows, AreFilled, AreTaskRows, Gives, empty_row, lp_row, nothing};
ghost use Rattle.node_bound.specs.Fixed.{IsNode};
ghost use Rattle.node_bound.specs.Places.{AreOf, hits, level_names, names_in, put_total, row_count, row_number};
ghost use Rattle.node_bound.specs.Taken.{AreCounts};
ghost use Rattle.node_bound.specs.Tasks.{kind_of, name_at};

use crate::places::Places;
use crate::standing::rows_of;
use crate::taken::left_of_side;
use duality::{FLOOR_LEVEL, Objective, RowName};
use exact_simplex::{LpRow, RowKind};
use packing_model::ObjectiveAt;
use problem_core::Memory;
use std::alloc::Global;
use values::Items;

/// The rows of the task.
pub(crate) fn task_rows<O: Objective>(
    alloc: Global,
    at: &ObjectiveAt<O>,
    places: &Places,
    names: &[RowName],
    counts: &[u32],
    columns: &[u32],
) -> Result<Vec<LpRow>, Memory>
    requires node { IsNode at.now.model.now (O.count at.now.objective.now) (O.levels at.now.objective.now) at.now.level at.now.targets.now at.now.fixing.now }
    requires places { AreOf (packing at.now.model.now) (counted (O.weight at.now.objective.now) (O.floor at.now.objective.now)) (stage_at at.now.level at.now.targets.now at.now.best at.now.pool.now) places.now }
    requires counts { AreCounts (packing at.now.model.now) (counted (O.weight at.now.objective.now) (O.floor at.now.objective.now)) (stage_at at.now.level at.now.targets.now at.now.best at.now.pool.now) places.now at.now.fixing.now.one [] counts.now }
    requires names { names.now ≡ names_in places.now }
    requires columns { list_all (λ p. nat_lt p (length (patterns_of at.now.model.now))) columns.now ≡ true }
    requires few { length columns.now ≤ 200000 }
    ensures { IfOk result (λ v. AreTaskRows (packing at.now.model.now) (counted (O.weight at.now.objective.now) (O.floor at.now.objective.now)) (stage_at at.now.level at.now.targets.now at.now.best at.now.pool.now) (fixed_of at.now.fixing.now) names.now columns.now v.items) }
{
    let levels = places.levels(alloc)?;
    let mut rows = empty_rows(alloc, at, places, names, counts)?;
    fill_rows(alloc, at, places, levels.as_slice(), columns, &mut rows)?;
    Ok(rows)
}

/// The rows of the names, without numbers.
fn empty_rows<O: Objective>(
    alloc: Global,
    at: &ObjectiveAt<O>,
    places: &Places,
    names: &[RowName],
    counts: &[u32],
) -> Result<Vec<LpRow>, Memory>
    requires node { IsNode at.now.model.now (O.count at.now.objective.now) (O.levels at.now.objective.now) at.now.level at.now.targets.now at.now.fixing.now }
    requires places { AreOf (packing at.now.model.now) (counted (O.weight at.now.objective.now) (O.floor at.now.objective.now)) (stage_at at.now.level at.now.targets.now at.now.best at.now.pool.now) places.now }
    requires counts { AreCounts (packing at.now.model.now) (counted (O.weight at.now.objective.now) (O.floor at.now.objective.now)) (stage_at at.now.level at.now.targets.now at.now.best at.now.pool.now) places.now at.now.fixing.now.one [] counts.now }
    requires names { names.now ≡ names_in places.now }
    ensures { IfOk result (λ v. AreEmptyRows (packing at.now.model.now) (counted (O.weight at.now.objective.now) (O.floor at.now.objective.now)) (stage_at at.now.level at.now.targets.now at.now.best at.now.pool.now) (fixed_of at.now.fixing.now) names.now (length names.now) v.items) }
{
    let mut rows = Vec::new(alloc);
    for name in names {
        let side = left_of_side(at, places, counts, *name);
        push_row(alloc, &mut rows, kind_of(*name), side)?;
    }
    Ok(rows)
}

/// Adds a row without numbers.
fn push_row(alloc: Global, rows: &mut Vec<LpRow>, kind: RowKind, side: i64) -> Result<(), Memory>
    ensures { OnOk result (rows.new.items ≡ rows.old.items ++ empty_row kind side ∷ []) }
{
    let row = LpRow {
        kind,
        entries: Items::new(alloc),
        side,
    };
    match rows.push(row) {
        Ok(()) => Ok(()),
        Err(_) => Err(Memory),
    }
}

/// The kind of the row: a level's is an equation.
fn kind_of(row: RowName) -> RowKind
    ensures { result ≡ kind_of row }
{
    match row {
        RowName::Level(level) => level_kind(level),
        _ => RowKind::AtMost,
    }
}

/// The kind of the level's row.
fn level_kind(level: u32) -> RowKind
    ensures { result ≡ kind_of (Level level) }
{
    if level == FLOOR_LEVEL {
        RowKind::AtMost
    } else {
        RowKind::Equal
    }
}

/// Adds the numbers of the columns.
fn fill_rows<O: Objective>(
    alloc: Global,
    at: &ObjectiveAt<O>,
    places: &Places,
    levels: &[RowName],
    columns: &[u32],
    rows: &mut [LpRow],
) -> Result<(), Memory>
    requires node { IsNode at.now.model.now (O.count at.now.objective.now) (O.levels at.now.objective.now) at.now.level at.now.targets.now at.now.fixing.now }
    requires places { AreOf (packing at.now.model.now) (counted (O.weight at.now.objective.now) (O.floor at.now.objective.now)) (stage_at at.now.level at.now.targets.now at.now.best at.now.pool.now) places.now }
    requires levels { levels.now ≡ level_names places.now }
    requires columns { list_all (λ p. nat_lt p (length (patterns_of at.now.model.now))) columns.now ≡ true }
    requires few { length columns.now ≤ 200000 }
    requires whole { length rows.old ≡ row_count places.now }
    requires empty { (x : ℕ) → (lp_row rows.old x).entries ≡ [] }
    ensures { OnOk result (AreFilled (packing at.now.model.now) (counted (O.weight at.now.objective.now) (O.floor at.now.objective.now)) (stage_at at.now.level at.now.targets.now at.now.best at.now.pool.now) (names_in places.now) columns.now (length columns.now) rows.old rows.new) }
{
    for column in 0..columns.len() {
        fill_column(
            alloc,
            at,
            places,
            levels,
            rows,
            column as u32,
            columns[column],
        )?;
    }
    Ok(())
}

/// Adds the numbers of a column.
fn fill_column<O: Objective>(
    alloc: Global,
    at: &ObjectiveAt<O>,
    places: &Places,
    levels: &[RowName],
    rows: &mut [LpRow],
    column: u32,
    pattern: u32,
) -> Result<(), Memory>
    requires node { IsNode at.now.model.now (O.count at.now.objective.now) (O.levels at.now.objective.now) at.now.level at.now.targets.now at.now.fixing.now }
    requires places { AreOf (packing at.now.model.now) (counted (O.weight at.now.objective.now) (O.floor at.now.objective.now)) (stage_at at.now.level at.now.targets.now at.now.best at.now.pool.now) places.now }
    requires levels { levels.now ≡ level_names places.now }
    requires known { pattern < length (patterns_of at.now.model.now) }
    requires whole { length rows.old ≡ row_count places.now }
    ensures { OnOk result (Gives column (λ x. coefficient (packing at.now.model.now) (counted (O.weight at.now.objective.now) (O.floor at.now.objective.now)) (stage_at at.now.level at.now.targets.now at.now.best at.now.pool.now) (name_at (names_in places.now) x) pattern) nothing rows.old rows.new) }
{
    let standing = rows_of(alloc, at.model, at.pool, pattern)?;
    add_numbers(at, places, standing.as_slice(), rows, column, pattern)?;
    add_numbers(at, places, levels, rows, column, pattern)?;
    Ok(())
}

/// Adds the numbers of a column in these rows.
fn add_numbers<O: Objective>(
    at: &ObjectiveAt<O>,
    places: &Places,
    names: &[RowName],
    rows: &mut [LpRow],
    column: u32,
    pattern: u32,
) -> Result<(), Memory>
    requires node { IsNode at.now.model.now (O.count at.now.objective.now) (O.levels at.now.objective.now) at.now.level at.now.targets.now at.now.fixing.now }
    requires places { AreOf (packing at.now.model.now) (counted (O.weight at.now.objective.now) (O.floor at.now.objective.now)) (stage_at at.now.level at.now.targets.now at.now.best at.now.pool.now) places.now }
    requires known { pattern < length (patterns_of at.now.model.now) }
    requires whole { length rows.old ≡ row_count places.now }
    ensures { OnOk result (Gives column (λ x. put_total places.now x (row_number (counted (O.weight at.now.objective.now) (O.floor at.now.objective.now)) pattern) names.now) nothing rows.old rows.new) }
{
    for name in names {
        add_in_row(at, places, *name, rows, column, pattern)?;
    }
    Ok(())
}

/// Adds the number of a column in the row.
fn add_in_row<O: Objective>(
    at: &ObjectiveAt<O>,
    places: &Places,
    name: RowName,
    rows: &mut [LpRow],
    column: u32,
    pattern: u32,
) -> Result<(), Memory>
    requires node { IsNode at.now.model.now (O.count at.now.objective.now) (O.levels at.now.objective.now) at.now.level at.now.targets.now at.now.fixing.now }
    requires places { AreOf (packing at.now.model.now) (counted (O.weight at.now.objective.now) (O.floor at.now.objective.now)) (stage_at at.now.level at.now.targets.now at.now.best at.now.pool.now) places.now }
    requires known { pattern < length (patterns_of at.now.model.now) }
    requires whole { length rows.old ≡ row_count places.now }
    ensures { OnOk result (Gives column (λ x. picked (hits places.now x name) (row_number (counted (O.weight at.now.objective.now) (O.floor at.now.objective.now)) pattern name)) nothing rows.old rows.new) }
{
    if !places.has(name) {
        return Ok(());
    }
    let number = row_number(at, name, pattern);
    add_number(rows, places.place(name), column, number)?;
    Ok(())
}

/// Adds a number, unless it is 0.
fn add_number(rows: &mut [LpRow], place: usize, column: u32, number: i64) -> Result<(), Memory>
    requires { place < length rows.old }
    ensures { OnOk result (Gives column (λ x. picked (place == x) number) nothing rows.old rows.new) }
{
    if number == 0 {
        return Ok(());
    }
    push_number(rows, place, column, number)
}

/// Adds a number.
fn push_number(rows: &mut [LpRow], place: usize, column: u32, number: i64) -> Result<(), Memory>
    requires { place < length rows.old }
    ensures { OnOk result (Gives column (λ x. picked (place == x) number) nothing rows.old rows.new) }
{
    rows[place].entries.push((column, number))?;
    Ok(())
}

/// The number of a pattern in a row in which it stands.
fn row_number<O: Objective>(at: &ObjectiveAt<O>, row: RowName, pattern: u32) -> i64
    requires node { IsNode at.now.model.now (O.count at.now.objective.now) (O.levels at.now.objective.now) at.now.level at.now.targets.now at.now.fixing.now }
    requires known { pattern < length (patterns_of at.now.model.now) }
    requires level { (j : ℕ) → row ≡ Level j → (j ≢ floor_level) → (1 ≤ j) × (j ≤ O.levels at.now.objective.now) }
    ensures { result ≡ row_number (counted (O.weight at.now.objective.now) (O.floor at.now.objective.now)) pattern row }
{
    match row {
        RowName::Level(level) => level_number(at, level, pattern),
        _ => 1,
    }
}

/// The number of a pattern in the level's row.
fn level_number<O: Objective>(at: &ObjectiveAt<O>, level: u32, pattern: u32) -> i64
    requires node { IsNode at.now.model.now (O.count at.now.objective.now) (O.levels at.now.objective.now) at.now.level at.now.targets.now at.now.fixing.now }
    requires known { pattern < length (patterns_of at.now.model.now) }
    requires level { (level ≢ floor_level) → (1 ≤ level) × (level ≤ O.levels at.now.objective.now) }
    ensures { result ≡ level_coefficient (counted (O.weight at.now.objective.now) (O.floor at.now.objective.now)) level pattern }
{
    if level == FLOOR_LEVEL {
        -at.objective.floor_weight(pattern)
    } else {
        at.objective.weight(level, pattern)
    }
}
