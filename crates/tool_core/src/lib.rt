//! The three input files of a command: their values, their problem and its model, or why there is none.
#![tactic(auto)]

mod inputs;
mod loading;

pub use inputs::{Inputs, LoadFault, Names, load_files, stop_of};
pub use loading::{Loaded, load};
