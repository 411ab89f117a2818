//! Exact arithmetic that shows on standard error that it works, for a person who waits.
#![tactic(auto)]

mod watched;

pub use watched::Watched;
