//! From the values of the files to the problem of rooms, and from numbers back to names.
#![tactic(auto)]

mod calendar;
mod given;
mod long;
mod problem;
mod sets;

pub use ctt_reader::{course_name, room_name};
pub use given::given_choice;
pub use long::{LongFault, existence_laws};
pub use problem::{ProblemFault, to_problem};
pub use sets::feature_laws;
