ghost use Rattle.std.specs.Prelude.{◌≡◌};
ghost use Rattle.packing_model.specs.Measures.{HasSmallWeights};

use crate::model::Model;
use duality::Objective;

/// The six measures of a model's patterns as an objective, with no floor.
#[derive(Clone, Copy)]
pub struct Measured<'a> {
    model: &'a Model,
    ghost small: { HasSmallWeights model.now },
}

impl<'a> Measured<'a> {
    /// The measures of the model.
    pub fn new(model: &'a Model) -> Measured<'a>
        ensures { result.model.now ≡ model.now }
    {
        let _ = model.patterns();
        model.laws();
        Measured { model }
    }
}

impl Objective for Measured<'_> {
    ghost use Rattle.std.specs.Prelude.{◌^◌, None, length, pos};
    ghost use Rattle.meeting_patterns.specs.Pattern.{patterns_of};
    ghost use Rattle.packing_model.specs.Built.{measured};
    ghost use Rattle.packing_model.specs.Measures.{six_levels, none-within};

    ghost count = { λ o. length (patterns_of o.model.now) };

    ghost levels = { λ _. 6 };

    ghost weight = { λ o. (measured o.model.now).weight };

    ghost floor = { λ _. None };

    ghost few_levels = { λ o. six_levels };

    ghost few_patterns = { λ o. o.small.few };

    ghost small_weight = { λ o level pattern low high known. o.small.each level pattern low high known };

    ghost small_floor = { λ o pattern known. none-within (10 ^ 9) };

    ghost small_number = { λ o. none-within (10 ^ 12) };

    fn count(&self) -> u32 {
        self.model.patterns().len()
    }

    fn levels(&self) -> u32 {
        6
    }

    fn weight(&self, level: u32, pattern: u32) -> i64 {
        self.model.weight(level, pattern)
    }

    fn has_floor(&self) -> bool {
        false
    }

    fn floor_weight(&self, _pattern: u32) -> i64 {
        0
    }

    fn floor_number(&self) -> i64 {
        0
    }
}
