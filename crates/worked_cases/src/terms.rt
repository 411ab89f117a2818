use duality::{
    Leaf, Objective, RowName, RowSums, Run, Term, is_under, left_side, level_times, reduced_cost,
    sum_rows,
};
use std::test::Fail;
use values::Items;

// One pattern, which weighs at each level as much as the level's number; no floor.
struct Numbered;

impl Objective for Numbered {
    ghost use Rattle.std.specs.Prelude.{◌^◌, pos, None};
    ghost use Rattle.packing_model.specs.Measures.{none-within};
    ghost use Rattle.worked_shapes.specs.Objectives.{two_levels, one_pattern, level-within};

    ghost count = { λ _. 1 };

    ghost levels = { λ _. 2 };

    ghost weight = { λ _ level pattern. pos level };

    ghost floor = { λ _. None };

    ghost few_levels = { λ o. two_levels };

    ghost few_patterns = { λ o. one_pattern };

    ghost small_weight = { λ o level pattern low high known. level-within level high };

    ghost small_floor = { λ o pattern known. none-within (10 ^ 9) };

    ghost small_number = { λ o. none-within (10 ^ 12) };

    fn count(&self) -> u32 {
        1
    }

    fn levels(&self) -> u32 {
        2
    }

    fn weight(&self, level: u32, _pattern: u32) -> i64 {
        i64::from(level)
    }

    fn has_floor(&self) -> bool {
        false
    }

    fn floor_weight(&self, _pattern: u32) -> i64 {
        0
    }

    fn floor_number(&self) -> i64 {
        0
    }
}

// The leaf of scale 1 with one term closes at level 2 against the value 2, and not against 1.
#[test]
fn one_term(rt: HostRuntime) -> Result<(), Fail> {
    let base = [Run { first: 0, count: 2 }];
    let mut terms = Items::new(rt.alloc());
    terms.push(Term {
        row: RowName::Base(0),
        times: 2,
    })?;
    let leaf = Leaf { scale: 1, terms };
    let times = level_times(leaf.terms.as_slice());
    let mut below = [0; 3];
    sum_rows(leaf.terms.as_slice(), &mut below);
    let sums = RowSums {
        terms: leaf.terms.as_slice(),
        below: &below,
    };
    let cost = reduced_cost(&Numbered, 2, &leaf, &times, &sums, &base, &[], 0);
    assert!(rt; cost == 0);
    let left = left_side(&Numbered, 2, &leaf, &times, &[1], &[], 0);
    assert!(rt; left == 2);
    assert!(rt; is_under(Some(2), leaf.scale, left));
    assert!(rt; !is_under(Some(1), leaf.scale, left));
    assert!(rt; !is_under(None, leaf.scale, left));
    Ok(())
}
