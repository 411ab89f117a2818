//! Linear programs in floating point, by the dual simplex method. What is found here only chooses: a point, its
//! rows and their multipliers are hints that are made exact and tested elsewhere, so no contract says anything of
//! a number. Each call is safe and ends whatever the numbers are, and computes in a fixed order.
#![tactic(auto)]

mod basis;
mod choose;
mod elimination;
mod entries;
mod reduced;
mod simplex;
mod task;

pub use simplex::{Ended, FloatSimplex};
