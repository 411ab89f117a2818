use crate::lists::{count_of, item_at};
use crate::reading::{runs_of, weight_of};
use crate::slots::{SlotRooms, combined};
use duality::{Objective, Run};
use packing_model::ObjectiveAt;
use problem_core::Memory;
use room_assignment::{StrictPrices, strict_prices};
use std::alloc::Global;
use values::Items;

/// Multipliers of the base rows and of the rows of the lowest levels, under which each pattern costs 0 or more
/// and whose right sides sum to 0. So a choice with the values of these levels has no pattern that costs more than
/// 0, and meets each row of a positive multiplier wholly.
#[derive(Drop)]
pub struct Face {
    /// The levels are 1 to this one.
    pub level: u32,
    pub rooms: SlotRooms,
    /// By base row.
    pub prices: Items<i128>,
    /// What the factors of the levels are multiplied by.
    pub factor: i128,
}

impl Face {
    /// The face of no levels.
    pub fn empty(alloc: Global) -> Face {
        Face {
            level: 0,
            rooms: SlotRooms::empty(alloc),
            prices: Items::new(alloc),
            factor: 1,
        }
    }

    /// Makes it the face of the levels up to this one; false where their values are not those that rooms given
    /// slot by slot reach. It fails only where memory runs out.
    pub fn fill<O: Objective>(
        &mut self,
        alloc: Global,
        at: &ObjectiveAt<O>,
        level: u32,
    ) -> Result<bool, Memory> {
        if !self.rooms.fill(alloc, at, level)? {
            return Ok(false);
        }
        self.level = level;
        self.set_prices(alloc, at.model.base_len())?;
        Ok(self.sum(at) == 0)
    }

    /// Sets the strict prices of the rooms.
    fn set_prices(&mut self, alloc: Global, rows: u32) -> Result<(), Memory> {
        let strict = strict_prices(
            alloc,
            self.rooms.layout.events,
            self.rooms.layout.place_count(),
            self.rooms.edges.as_slice(),
            &self.rooms.assignment,
        )?;
        self.factor = strict.factor;
        self.prices = by_row(alloc, rows, &strict)?;
        Ok(())
    }
}

/// The prices by base row.
fn by_row(alloc: Global, rows: u32, strict: &StrictPrices) -> Result<Items<i128>, Memory> {
    let events = count_of(strict.left.as_slice());
    let mut prices = Items::new(alloc);
    for row in 0..rows {
        let price = if row < events {
            item_at(strict.left.as_slice(), row, 0)
        } else {
            item_at(strict.right.as_slice(), row - events, 0)
        };
        prices.push(price)?;
    }
    Ok(prices)
}

impl Face {
    /// The row's multiplier.
    pub fn price(&self, row: u32) -> i128 {
        item_at(self.prices.as_slice(), row, 0)
    }

    /// Whether the row is met wholly.
    pub fn is_tight(&self, row: u32) -> bool {
        self.price(row) > 0
    }

    /// What the pattern costs.
    pub fn cost<O: Objective>(&self, at: &ObjectiveAt<O>, pattern: u32) -> i128 {
        let prices = sum_over(self.prices.as_slice(), runs_of(at.model, pattern));
        let weight = combined(at, self.level, &self.rooms.factors, pattern);
        prices.wrapping_sub(weight.wrapping_mul(self.factor))
    }

    /// The multiplier of a level's row.
    pub fn level_times(&self, level: u32) -> i128 {
        let zero: i128 = 0;
        let factor = item_at(&self.rooms.factors, level.wrapping_sub(1), 0);
        zero.wrapping_sub(factor.wrapping_mul(self.factor))
    }

    /// The sum of the right sides, each times its multiplier.
    fn sum<O: Objective>(&self, at: &ObjectiveAt<O>) -> i128 {
        let mut sum: i128 = 0;
        for price in self.prices.as_slice() {
            sum = sum.wrapping_add(*price);
        }
        for below in 0..self.level {
            let target = i128::from(item_at(at.targets, below, 0));
            sum = sum.wrapping_add(target.wrapping_mul(self.level_times(below + 1)));
        }
        sum
    }
}

/// The sum of the numbers of all rows of the runs.
pub fn sum_over(numbers: &[i128], runs: &[Run]) -> i128 {
    let mut sum: i128 = 0;
    for run in runs {
        sum = sum.wrapping_add(sum_of_run(numbers, *run));
    }
    sum
}

/// The sum of the numbers of the run's rows.
fn sum_of_run(numbers: &[i128], run: Run) -> i128 {
    let mut sum: i128 = 0;
    for more in 0..run.count {
        sum = sum.wrapping_add(item_at(numbers, run.first.wrapping_add(more), 0));
    }
    sum
}

/// The weight that all patterns have at the level, if it is 1 or -1.
pub fn unit_weight<O: Objective>(at: &ObjectiveAt<O>, level: u32) -> Option<i64> {
    let weight = weight_of(at, level, 0);
    if weight != 1 && weight != -1 {
        return None;
    }
    for pattern in 1..at.model.patterns().len() {
        if weight_of(at, level, pattern) != weight {
            return None;
        }
    }
    Some(weight)
}
