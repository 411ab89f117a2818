ghost use Rattle.std.specs.Prelude.{◌≡◌, ◌≤◌};

use duality::Objective;

/// One level, at which each pattern weighs 1, and a floor that asks for some patterns.
#[derive(Clone, Copy)]
pub struct SomePatterns {
    count: u32,
    least: u32,
    ghost few: { count ≤ 200000 },
    ghost small: { least ≤ 2 },
}

impl SomePatterns {
    /// The objective over so many patterns, with a floor of one or two of them.
    pub fn new(count: u32, least: u32) -> SomePatterns
        requires few { count ≤ 200000 }
        requires small { least ≤ 2 }
        ensures { result.count ≡ count }
    {
        SomePatterns { count, least }
    }
}

impl Objective for SomePatterns {
    ghost use Rattle.std.specs.Prelude.{pos, Some};
    ghost use Rattle.worked_shapes.specs.Objectives.{one_level, weight-within, floor-within};

    ghost count = { λ o. o.count };

    ghost levels = { λ _. 1 };

    ghost weight = { λ _ level pattern. pos 1 };

    ghost floor = { λ o. Some (λ pattern. pos 1, pos o.least) };

    ghost few_levels = { λ o. one_level };

    ghost few_patterns = { λ o. o.few };

    ghost small_weight = { λ o level pattern low high known. weight-within };

    ghost small_floor = { λ o pattern known. weight-within };

    ghost small_number = { λ o. floor-within o.least o.small };

    fn count(&self) -> u32 {
        self.count
    }

    fn levels(&self) -> u32 {
        1
    }

    fn weight(&self, _level: u32, _pattern: u32) -> i64 {
        1
    }

    fn has_floor(&self) -> bool {
        true
    }

    fn floor_weight(&self, _pattern: u32) -> i64 {
        1
    }

    fn floor_number(&self) -> i64 {
        i64::from(self.least)
    }
}
