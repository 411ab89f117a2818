//! The score of a timed solution by the rules of the curriculum-based course timetabling track of the
//! International Timetabling Competition 2007, and the run that prints it.
#![tactic(auto)]

mod command;
mod compactness;
mod conflicts;
mod counts;
mod exit;
mod lines;
mod occupancy;
mod scoring;
mod status;
mod sums;
mod tables;
mod texts;

pub use command::run_score;
pub use counts::ScoreCounts;
pub use exit::exit_status;
pub use scoring::score;
pub use status::ScoreStatus;
