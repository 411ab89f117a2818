ghost use Rattle.std.specs.Prelude.{◌≡◌, ◌≢◌, ◌<◌, ◌≤◌, ◌*◌, ◌^◌, ℕ, ℤ, length, true, nat_lt, Option, is_some};
ghost use Rattle.std.specs.List.{list_all};
ghost use Rattle.numbers.specs.Sums.{total};

/// What each level counts: for each level a whole weight of each pattern, and perhaps a floor, which is
/// a further weight of each pattern and a number that the chosen patterns must reach together.
pub trait Objective {
    ghost use Rattle.std.specs.Prelude.{◌≡◌, ◌<◌, ◌≤◌, ◌^◌, ℕ, ℤ, Option, is_some};
    ghost use Rattle.duality.specs.Packing.{floor_weight, floor_number};
    ghost use Rattle.duality.specs.Sums.{IsWithin};

    ghost count: { Self → ℕ };

    ghost levels: { Self → ℕ };

    ghost weight: { Self → ℕ → ℕ → ℤ };

    ghost floor: { Self → Option ((ℕ → ℤ) × ℤ) };

    /// The number of patterns.
    fn count(&self) -> u32
        ensures { result ≡ count self.now };

    /// The number of levels, which are numbered from 1.
    fn levels(&self) -> u32
        ensures { result ≡ levels self.now };

    /// The weight of a pattern at a level.
    fn weight(&self, level: u32, pattern: u32) -> i64
        requires low { 1 ≤ level }
        requires high { level ≤ levels self.now }
        requires known { pattern < count self.now }
        ensures { result ≡ weight self.now level pattern };

    /// Whether there is a floor.
    fn has_floor(&self) -> bool
        ensures { result ≡ is_some (floor self.now) };

    /// The floor's weight of a pattern, 0 where there is no floor.
    fn floor_weight(&self, pattern: u32) -> i64
        requires { pattern < count self.now }
        ensures { result ≡ floor_weight (floor self.now) pattern };

    /// The number that the floor asks for, 0 where there is no floor.
    fn floor_number(&self) -> i64
        ensures { result ≡ floor_number (floor self.now) };

    ghost few_levels: { (o : Self) → levels o ≤ 7 };

    ghost few_patterns: { (o : Self) → count o ≤ 200000 };

    ghost small_weight: { (o : Self) (level pattern : ℕ) → 1 ≤ level → level ≤ levels o → pattern < count o → IsWithin (10 ^ 9) (weight o level pattern) };

    ghost small_floor: { (o : Self) (pattern : ℕ) → pattern < count o → IsWithin (10 ^ 9) (floor_weight (floor o) pattern) };

    ghost small_number: { (o : Self) → IsWithin (10 ^ 12) (floor_number (floor o)) };
}

/// What is added up over patterns: the weights of a level, or the coefficients of the floor's row, which
/// are the floor's weights negated.
#[derive(Clone, Copy)]
pub enum Weighed {
    Level(u32),
    Floor,
}
