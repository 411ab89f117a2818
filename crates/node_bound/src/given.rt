ghost use Rattle.std.specs.Prelude.{◌≡◌, ◌<◌, ◌≤◌, ◌≤ℤ◌, ◌+ℤ◌, ◌*◌, ◌^◌, ◌∷◌, [], ℕ, pos, length, IfOk};
ghost use Rattle.packing_model.specs.Built.{packing};
ghost use Rattle.packing_model.specs.Closing.{counted};
ghost use Rattle.packing_model.specs.Nodes.{stage_at};
ghost use Rattle.exact_simplex.specs.Task.{int_at};
ghost use Rattle.node_bound.specs.Amounts.{IsSmall};
ghost use Rattle.node_bound.specs.Fixed.{IsNode};
ghost use Rattle.node_bound.specs.Given.{AreSums, Adds};
ghost use Rattle.node_bound.specs.Guessed.{AreEntries};
ghost use Rattle.node_bound.specs.Places.{AreOf, IsLayout, row_count};

use crate::places::Places;
use crate::standing::rows_of;
use duality::{Objective, RowName};
use packing_model::ObjectiveAt;
use problem_core::Memory;
use std::alloc::Global;

/// By place of a row, what the entries give the patterns of the base row or cut together; at level rows 0.
pub(crate) fn row_sums<O: Objective>(
    alloc: Global,
    at: &ObjectiveAt<O>,
    places: &Places,
    entries: &[(u32, i128)],
) -> Result<Vec<i128>, Memory>
    requires node { IsNode at.now.model.now (O.count at.now.objective.now) (O.levels at.now.objective.now) at.now.level at.now.targets.now at.now.fixing.now }
    requires places { AreOf (packing at.now.model.now) (counted (O.weight at.now.objective.now) (O.floor at.now.objective.now)) (stage_at at.now.level at.now.targets.now at.now.best at.now.pool.now) places.now }
    requires entries { AreEntries (O.count at.now.objective.now) entries.now }
    ensures { IfOk result (λ v. AreSums (packing at.now.model.now) (counted (O.weight at.now.objective.now) (O.floor at.now.objective.now)) (stage_at at.now.level at.now.targets.now at.now.best at.now.pool.now) places.now entries.now [] v.items) }
{
    let mut sums = vec![in alloc; 0i128; places.len()]?;
    for entry in entries {
        let rows = rows_of(alloc, at.model, at.pool, entry.0)?;
        add_rows(places, &mut sums, rows.as_slice(), entry.1);
    }
    Ok(sums)
}

/// Adds the amount at the place of each of the rows.
fn add_rows(places: &Places, sums: &mut [i128], rows: &[RowName], amount: i128)
    requires layout { IsLayout places.now }
    requires whole { length sums.old ≡ row_count places.now }
    requires amount { IsSmall amount }
    requires low { (x : ℕ) → x < length sums.old → pos 0 ≤ℤ int_at sums.old x }
    requires high { (x : ℕ) → x < length sums.old → (int_at sums.old x +ℤ pos (length rows.now * 10 ^ 24)) ≤ℤ pos (10 ^ 37) }
    ensures { Adds places.now amount rows.now [] sums.old sums.new }
{
    for row in rows {
        add_row(places, sums, *row, amount);
    }
}

/// Adds the amount at the place of the row.
fn add_row(places: &Places, sums: &mut [i128], row: RowName, amount: i128)
    requires layout { IsLayout places.now }
    requires whole { length sums.old ≡ row_count places.now }
    requires amount { IsSmall amount }
    requires low { (x : ℕ) → x < length sums.old → pos 0 ≤ℤ int_at sums.old x }
    requires high { (x : ℕ) → x < length sums.old → int_at sums.old x ≤ℤ pos (10 ^ 37) }
    ensures { Adds places.now amount (row ∷ []) [] sums.old sums.new }
{
    if places.has(row) {
        let place = places.place(row);
        sums[place] = plus(sums[place], amount);
    }
}

/// The sum of two numbers.
fn plus(sum: i128, amount: i128) -> i128
    requires amount { IsSmall amount }
    requires low { pos 0 ≤ℤ sum }
    requires high { sum ≤ℤ pos (10 ^ 37) }
    ensures { result ≡ sum +ℤ amount }
{
    sum + amount
}
