//! Guesses at the answer of a node of the search. Nothing is promised of a guess: who asks for one tests it, and
//! goes the plain way where the test fails. So a guess makes the search faster and carries no claim.
#![tactic(auto)]

mod additive;
mod face;
mod ground;
mod guess;
mod lists;
mod modular;
mod points;
mod reading;
mod relaxed;
mod rounding;
mod singles;
mod slots;
mod walk;

pub use guess::{Guess, Hints, find_guess, gains_fit};
