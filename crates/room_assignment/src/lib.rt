//! Assignments of the greatest weight in a sparse bipartite graph, with prices of its vertices that show that
//! none weighs more. Their answers guide a search: lengths and numbers in range are promised, and nothing of
//! the weight, which the caller tests.
#![tactic(auto)]

mod assignment;
mod components;
mod frontier;
mod graph;
mod lists;
mod strict;

pub use assignment::{Assignment, assign};
pub use graph::Edge;
pub use strict::{StrictPrices, strict_prices};
