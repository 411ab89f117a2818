//! Search trees: the nodes of a level's tree, made one after the other under a budget of branches, and a log
//! of what was done.
#![tactic(auto)]

mod budget;
mod fraction;
mod level;
mod log;
mod measures;
mod state;
mod steps;
mod tree;

pub use budget::Budget;
pub use level::{Held, LevelAt};
pub use log::{Cause, CutNote, Log, Unit};
pub use measures::{Grown, grow};
pub use tree::{TreeGrown, grow_tree};
