ghost use Rattle.std.specs.Prelude.{◌≡◌, ◌≢◌, ◌<◌, ◌≤◌, ◌+◌, ◌-ℤ◌, ◌∷◌, [], ℕ, pos, IfOk, length, true};
ghost use Rattle.duality.specs.Packing.{floor_level};
ghost use Rattle.duality.specs.declared.row.RowName.TheVariants.{Level};
ghost use Rattle.packing_model.specs.Built.{packing};
ghost use Rattle.packing_model.specs.Closing.{counted};
ghost use Rattle.packing_model.specs.Nodes.{fixed_of, stage_at};
ghost use Rattle.node_bound.specs.Duals.{side_left};
ghost use Rattle.node_bound.specs.Fixed.{IsNode};
ghost use Rattle.node_bound.specs.Places.{AreOf, IsLayout, is_placed, row_count};
ghost use Rattle.node_bound.specs.Taken.{AreCounts, Counts, count_at};

use crate::places::Places;
use crate::standing::rows_of;
use duality::{FLOOR_LEVEL, Objective, RowName, Weighed, weigh};
use packing_model::ObjectiveAt;
use problem_core::Memory;
use std::alloc::Global;

/// By place of a row, how many of the patterns that are taken stand in it; at level rows 0.
pub(crate) fn taken_counts<O: Objective>(
    alloc: Global,
    at: &ObjectiveAt<O>,
    places: &Places,
) -> Result<Vec<u32>, Memory>
    requires node { IsNode at.now.model.now (O.count at.now.objective.now) (O.levels at.now.objective.now) at.now.level at.now.targets.now at.now.fixing.now }
    requires places { AreOf (packing at.now.model.now) (counted (O.weight at.now.objective.now) (O.floor at.now.objective.now)) (stage_at at.now.level at.now.targets.now at.now.best at.now.pool.now) places.now }
    ensures { IfOk result (λ v. AreCounts (packing at.now.model.now) (counted (O.weight at.now.objective.now) (O.floor at.now.objective.now)) (stage_at at.now.level at.now.targets.now at.now.best at.now.pool.now) places.now at.now.fixing.now.one [] v.items) }
{
    let one = at.fixing.one.as_slice();
    let mut counts = vec![in alloc; 0; places.len()]?;
    for pattern in one {
        let rows = rows_of(alloc, at.model, at.pool, *pattern)?;
        count_rows(places, &mut counts, rows.as_slice());
    }
    Ok(counts)
}

/// Adds 1 at the place of each of the rows.
fn count_rows(places: &Places, counts: &mut [u32], rows: &[RowName])
    requires layout { IsLayout places.now }
    requires whole { length counts.old ≡ row_count places.now }
    requires few { (x : ℕ) → x < length counts.old → count_at counts.old x + length rows.now ≤ 10000 }
    ensures { Counts places.now rows.now [] counts.old counts.new }
{
    for row in rows {
        count_row(places, counts, *row);
    }
}

/// Adds 1 at the place of the row.
fn count_row(places: &Places, counts: &mut [u32], row: RowName)
    requires layout { IsLayout places.now }
    requires whole { length counts.old ≡ row_count places.now }
    requires few { (x : ℕ) → x < length counts.old → count_at counts.old x ≤ 10000 }
    ensures { Counts places.now (row ∷ []) [] counts.old counts.new }
{
    if places.has(row) {
        counts[places.place(row)] += 1;
    }
}

/// What is left of the row's right side: at base rows and cuts 1 less the patterns that stand there, at level
/// rows the target less what they weigh.
pub(crate) fn left_of_side<O: Objective>(
    at: &ObjectiveAt<O>,
    places: &Places,
    counts: &[u32],
    row: RowName,
) -> i64
    requires node { IsNode at.now.model.now (O.count at.now.objective.now) (O.levels at.now.objective.now) at.now.level at.now.targets.now at.now.fixing.now }
    requires places { AreOf (packing at.now.model.now) (counted (O.weight at.now.objective.now) (O.floor at.now.objective.now)) (stage_at at.now.level at.now.targets.now at.now.best at.now.pool.now) places.now }
    requires counts { AreCounts (packing at.now.model.now) (counted (O.weight at.now.objective.now) (O.floor at.now.objective.now)) (stage_at at.now.level at.now.targets.now at.now.best at.now.pool.now) places.now at.now.fixing.now.one [] counts.now }
    requires placed { is_placed places.now row ≡ true }
    ensures { result ≡ side_left (packing at.now.model.now) (counted (O.weight at.now.objective.now) (O.floor at.now.objective.now)) (stage_at at.now.level at.now.targets.now at.now.best at.now.pool.now) (fixed_of at.now.fixing.now) row }
{
    match row {
        RowName::Level(level) => left_of_level(at, level),
        _ => one_less(counts[places.place(row)]),
    }
}

/// What is left of 1.
fn one_less(count: u32) -> i64
    requires { count ≤ 10000 }
    ensures { result ≡ pos 1 -ℤ pos count }
{
    1 - i64::from(count)
}

/// What is left of the level's target, or of the floor's number as it stands in an "at most" row.
fn left_of_level<O: Objective>(at: &ObjectiveAt<O>, level: u32) -> i64
    requires node { IsNode at.now.model.now (O.count at.now.objective.now) (O.levels at.now.objective.now) at.now.level at.now.targets.now at.now.fixing.now }
    requires level { (level ≢ floor_level) → (1 ≤ level) × (level < at.now.level) }
    ensures { result ≡ side_left (packing at.now.model.now) (counted (O.weight at.now.objective.now) (O.floor at.now.objective.now)) (stage_at at.now.level at.now.targets.now at.now.best at.now.pool.now) (fixed_of at.now.fixing.now) (Level level) }
{
    let one = at.fixing.one.as_slice();
    if level == FLOOR_LEVEL {
        return -at.objective.floor_number() - weigh(at.objective, Weighed::Floor, one);
    }
    at.targets[level as usize - 1] - weigh(at.objective, Weighed::Level(level), one)
}
