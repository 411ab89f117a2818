//! Patterns: some meetings of a course that share a room, and what a choice of rooms chooses of them.
#![tactic(auto)]

mod choose;
mod laws;
mod pattern;
mod set;
mod weigh;

pub use choose::{chosen, to_choice};
pub use laws::pattern_laws;
pub use pattern::Pattern;
pub use set::{PatternSet, count};
pub use weigh::{clash, weights, within};
