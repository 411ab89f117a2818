//! Cuts that a point breaks: patterns that clash in pairs, to which the point gives more than 1 together; and
//! choices of rooms that are made out of a point.
#![tactic(auto)]

mod broken;
mod cuts;
mod groups;
mod grow;
mod heaviest;
mod laws;
mod matching;
mod rounding;
mod slots;

pub use cuts::separate;
pub use laws::clique_laws;
pub use packing_model::{Cut, Pool};
pub use rounding::{better_choice, rounded};
