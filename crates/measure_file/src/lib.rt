//! Measures files: which rooms have which features, which courses need them, where and when rooms are not to be
//! used, and how much an office prefers rooms, spare room and lengths of meetings.
#![tactic(auto)]

mod entries;
mod faults;
mod features;
mod known;
mod lines;
mod listed;
mod measures;
mod once;
mod reader;
mod words;
mod writer;

pub use measures::Measures;
pub use reader::read_measures;
pub use writer::{is_numbered_as_written, write_measures};
