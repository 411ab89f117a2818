//! Timed solution files: which meetings of an instance's courses are held when, and in which rooms; their reader
//! and their writer.
#![tactic(auto)]

mod placed;
mod times;
mod writer;

pub use times::{Meeting, Times, read_times};
pub use writer::write_solution;
