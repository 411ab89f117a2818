//! Worked cases of the solver: linear programs, through the public calls of their crate: tests alone.
#![tactic(auto)]

#[cfg(test)]
mod answers;
#[cfg(test)]
mod limits;
pub mod tasks;
