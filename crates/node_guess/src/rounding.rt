use crate::face::sum_over;
use crate::guess::Guess;
use crate::lists::{count_of, item_at, put};
use crate::reading::{runs_of, weight_of};
use crate::relaxed::{Relaxed, is_open};
use crate::slots::{LEVELS, push_term};
use duality::{Leaf, Objective, RowName, Run};
use packing_model::ObjectiveAt;
use problem_core::Memory;
use std::alloc::Global;
use std::num::{nearest_i64_to_f64, saturating_f64_to_i64};
use values::Items;

/// The scales that multipliers are rounded at, one after the other.
const SCALES: [i64; 12] = [
    1,
    2,
    6,
    12,
    60,
    120,
    1_000,
    10_000,
    100_000,
    1_000_000,
    10_000_000,
    100_000_000,
];

/// Whole multipliers of the rows: of base rows, of cuts and of levels, with the multiple of the gain that they are
/// to cover: 0 where they show that no point meets the rows.
#[derive(Drop)]
struct Multipliers {
    scale: i64,
    base: Vec<i128>,
    cuts: Vec<i128>,
    /// By level less 1.
    levels: [i128; LEVELS],
}

/// The leaf of the program's multipliers at the first scale at which it closes. They are rounded to whole numbers;
/// a pattern that is still not covered raises its event's row, and the least multiple of the face that mends what
/// else is wrong is added, which changes nothing of the bound. It fails only where memory runs out.
pub fn rounded_leaf<O: Objective>(
    alloc: Global,
    at: &ObjectiveAt<O>,
    relaxed: &Relaxed,
) -> Result<Option<Guess>, Memory> {
    let exact = relaxed.now.simplex.multipliers(alloc)?;
    for scale in SCALES {
        let rounded = rounded(alloc, at, relaxed, &exact, scale, scale)?;
        if let Some(leaf) = closed(alloc, at, relaxed, rounded)? {
            return Ok(Some(leaf));
        }
    }
    Ok(None)
}

/// The leaf of the multipliers that show that no point meets the program's rows, at the first scale at which it
/// closes. It fails only where memory runs out.
pub fn empty_leaf<O: Objective>(
    alloc: Global,
    at: &ObjectiveAt<O>,
    relaxed: &mut Relaxed,
) -> Result<Option<Guess>, Memory> {
    let exact = relaxed.now.simplex.farkas(alloc)?;
    for scale in SCALES {
        let rounded = rounded(alloc, at, relaxed, &exact, scale, 0)?;
        if let Some(leaf) = closed(alloc, at, relaxed, rounded)? {
            return Ok(Some(leaf));
        }
    }
    Ok(None)
}

/// The leaf of the multipliers where it closes.
fn closed<O: Objective>(
    alloc: Global,
    at: &ObjectiveAt<O>,
    relaxed: &Relaxed,
    rounded: Multipliers,
) -> Result<Option<Guess>, Memory> {
    let mut rounded = rounded;
    rounded.cover(at, relaxed);
    if !rounded.closes(at, relaxed) {
        return Ok(None);
    }
    let lift = rounded.lift(at, relaxed);
    Ok(Some(rounded.leaf(alloc, relaxed, lift)?))
}

/// The multipliers times a factor, rounded.
fn rounded<O: Objective>(
    alloc: Global,
    at: &ObjectiveAt<O>,
    relaxed: &Relaxed,
    exact: &[f64],
    factor: i64,
    scale: i64,
) -> Result<Multipliers, Memory> {
    let mut rounded = Multipliers {
        scale,
        base: vec![in alloc; 0; at.model.base_len() as usize]?,
        cuts: vec![in alloc; 0; at.pool.len() as usize]?,
        levels: [0; LEVELS],
    };
    for number in 0..relaxed.now.simplex.row_count() {
        let times = nearest(item_at(exact, number, 0.0), factor);
        let is_equation = relaxed.now.simplex.is_equation(number);
        let times = if is_equation { times } else { times.max(0) };
        rounded.set(at, relaxed.name(number), times);
    }
    rounded.add_shifts(relaxed);
    Ok(rounded)
}

/// The negated number times the factor, rounded.
fn nearest(number: f64, factor: i64) -> i128 {
    let product = 0.0 - number * nearest_i64_to_f64(factor);
    let whole = if product < 0.0 {
        saturating_f64_to_i64(product - 0.5)
    } else {
        saturating_f64_to_i64(product + 0.5)
    };
    i128::from(whole)
}

impl Multipliers {
    /// Sets the multiplier of the row; that of a level goes by its patterns' weight, which is 1 or -1.
    fn set<O: Objective>(&mut self, at: &ObjectiveAt<O>, name: RowName, times: i128) {
        match name {
            RowName::Base(row) => put(&mut self.base, row, times),
            RowName::Cut(cut) => put(&mut self.cuts, cut, times),
            RowName::Level(level) => {
                let weight = i128::from(weight_of(at, level, 0));
                put(
                    &mut self.levels,
                    level.wrapping_sub(1),
                    times.wrapping_mul(weight),
                );
            }
        }
    }

    /// Adds what was taken off the gains.
    fn add_shifts(&mut self, relaxed: &Relaxed) {
        let mut row = 0;
        for shift in &relaxed.shifts {
            let more = i128::from(*shift).wrapping_mul(i128::from(self.scale));
            let times = item_at(&self.base, row, 0).wrapping_add(more);
            put(&mut self.base, row, times);
            row = row.wrapping_add(1);
        }
    }

    /// What of the pattern's gain its rows don't cover.
    fn lack<O: Objective>(&self, at: &ObjectiveAt<O>, pattern: u32) -> i128 {
        let gain = i128::from(weight_of(at, at.level, pattern));
        let base = sum_over(&self.base, runs_of(at.model, pattern));
        gain.wrapping_mul(i128::from(self.scale))
            .wrapping_sub(base)
            .wrapping_sub(self.of_cuts(at, pattern))
            .wrapping_sub(self.of_levels(at, pattern))
    }

    /// What the cuts cover of the pattern.
    fn of_cuts<O: Objective>(&self, at: &ObjectiveAt<O>, pattern: u32) -> i128 {
        let mut sum: i128 = 0;
        for name in at.pool.cut_rows(pattern) {
            if let RowName::Cut(cut) = name {
                sum = sum.wrapping_add(item_at(&self.cuts, *cut, 0));
            }
        }
        sum
    }

    /// What the levels' rows cover of the pattern.
    fn of_levels<O: Objective>(&self, at: &ObjectiveAt<O>, pattern: u32) -> i128 {
        let mut sum: i128 = 0;
        for below in 0..at.level {
            let times = item_at(&self.levels, below, 0);
            if times != 0 {
                let weight = i128::from(weight_of(at, below + 1, pattern));
                sum = sum.wrapping_add(times.wrapping_mul(weight));
            }
        }
        sum
    }

    /// Raises the event's row of each column that is free and not covered.
    fn cover<O: Objective>(&mut self, at: &ObjectiveAt<O>, relaxed: &Relaxed) {
        for pattern in relaxed.live.as_slice() {
            let lack = self.lack(at, *pattern);
            if lack > 0 && is_open(at, *pattern) {
                if let Some(run) = runs_of(at.model, *pattern).first() {
                    let times = item_at(&self.base, run.first, 0);
                    put(&mut self.base, run.first, times.wrapping_add(lack));
                }
            }
        }
    }

    /// Whether the bound is below what a better choice needs.
    fn closes<O: Objective>(&self, at: &ObjectiveAt<O>, relaxed: &Relaxed) -> bool {
        let Some(best) = at.best else {
            return false;
        };
        let scale = i128::from(self.scale);
        let mut bound: i128 = 0;
        for number in 0..relaxed.now.simplex.row_count() {
            let side = saturating_f64_to_i64(relaxed.now.simplex.side(number));
            bound = bound.wrapping_add(self.worth(at, relaxed.name(number), i128::from(side)));
        }
        for pattern in at.fixing.one.as_slice() {
            let gain = i128::from(weight_of(at, at.level, *pattern));
            bound = bound.wrapping_add(gain.wrapping_mul(scale));
        }
        bound < scale.wrapping_mul(i128::from(best).wrapping_add(1))
    }

    /// The multiplier of the row times its side.
    fn worth<O: Objective>(&self, at: &ObjectiveAt<O>, name: RowName, side: i128) -> i128 {
        let times = match name {
            RowName::Base(row) => item_at(&self.base, row, 0),
            RowName::Cut(cut) => item_at(&self.cuts, cut, 0),
            RowName::Level(level) => {
                let weight = i128::from(weight_of(at, level, 0));
                item_at(&self.levels, level.wrapping_sub(1), 0).wrapping_mul(weight)
            }
        };
        times.wrapping_mul(side)
    }

    /// The least multiple of the face that covers all patterns and leaves no row negative.
    fn lift<O: Objective>(&self, at: &ObjectiveAt<O>, relaxed: &Relaxed) -> i128 {
        let mut lift: i128 = 0;
        for pattern in 0..at.model.patterns().len() {
            let lack = self.lack(at, pattern);
            if lack > 0 && relaxed.is_dead(at, pattern) {
                lift = lift.max(times_up(lack, relaxed.face.cost(at, pattern)));
            }
        }
        lift.max(self.lift_of_rows(relaxed))
    }

    /// The least multiple of the face that leaves no row negative.
    fn lift_of_rows(&self, relaxed: &Relaxed) -> i128 {
        let mut lift: i128 = 0;
        let mut row = 0;
        for times in &self.base {
            let zero: i128 = 0;
            if *times < 0 {
                lift = lift.max(times_up(zero.wrapping_sub(*times), relaxed.face.price(row)));
            }
            row = row.wrapping_add(1);
        }
        lift
    }

    /// The leaf of the multipliers and of so much of the face.
    fn leaf(&self, alloc: Global, relaxed: &Relaxed, lift: i128) -> Result<Guess, Memory> {
        let mut terms = Items::new(alloc);
        for row in 0..count_of(&self.base) {
            let more = relaxed.face.price(row).wrapping_mul(lift);
            let times = item_at(&self.base, row, 0).wrapping_add(more);
            push_term(&mut terms, RowName::Base(row), times)?;
        }
        for cut in 0..count_of(&self.cuts) {
            push_term(&mut terms, RowName::Cut(cut), item_at(&self.cuts, cut, 0))?;
        }
        for below in 0..LEVELS as u32 {
            let more = relaxed.face.level_times(below + 1).wrapping_mul(lift);
            let times = item_at(&self.levels, below, 0).wrapping_add(more);
            push_term(&mut terms, RowName::Level(below + 1), times)?;
        }
        Ok(Guess::Leaf(Leaf {
            scale: i128::from(self.scale),
            terms,
        }))
    }
}

/// How often the second number must be taken to reach the first, both positive.
fn times_up(number: i128, step: i128) -> i128 {
    if step <= 0 {
        return 0;
    }
    number.wrapping_add(step).wrapping_sub(1) / step
}
