//! Which rooms suit a meeting, which choices of rooms are legal, and how good they are.
#![tactic(auto)]

mod choice;
mod courses;
mod greedy;
mod grid;
mod legal;
mod limit;
mod measures;
mod over;
mod parts;
mod problem;
mod tables;

pub use choice::{Choice, Memory, RoomFault};
pub use greedy::{first_choice, first_choice_laws};
pub use limit::{BuildFault, Limit, LimitKind};
pub use measures::better;
pub use parts::{EventPart, Parts};
pub use problem::Problem;
