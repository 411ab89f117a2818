//! The levels of an objective, one after the other, and the certificate of the six measures.
#![tactic(auto)]

mod search;
mod solve;

pub use search::{Search, Stopped, search_levels};
pub use solve::{Solved, solve_levels};
