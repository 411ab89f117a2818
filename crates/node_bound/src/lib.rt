//! What is known at a node of a search: a leaf that closes there, a better choice, or a point that meets its
//! rows though it makes no choice.
#![tactic(auto)]

mod amounts;
mod bounded;
mod closing;
mod columns;
mod divisor;
mod entries;
mod fixed;
mod free;
mod gap;
mod given;
mod guess;
mod guesses;
mod laws;
mod places;
mod point;
mod solve;
mod standing;
mod taken;
mod task;
mod terms;
mod whole;

pub use bounded::{Bounded, bound, bound_at};
pub use fixed::{close_fixed, close_fixed_at};
pub use free::lowest_free;
pub use guesses::tested;
pub use laws::bound_laws;
pub use node_guess::{Guess, Hints};
pub use task::NodeTask;
