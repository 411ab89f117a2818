//! What the crates of worked cases share: small problems, an objective with a floor, and tests of what terms and
//! values must be. Nothing of the programs uses it.
#![tactic(auto)]

mod objective;
mod shape;
mod terms;

pub use objective::SomePatterns;
pub use shape::{
    Shape, closed_once, one_meeting, problem_of, problem_of_small_courses, two_courses, week,
};
pub use terms::{are_multipliers, are_rising, are_values, is_multiplier, is_value};
