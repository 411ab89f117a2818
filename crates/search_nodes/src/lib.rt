//! Nodes of a search over the patterns of a model: the path to a node and the fixing that it makes, points
//! that meet the rows of a node, and what a choice of rooms weighs.
#![tactic(auto)]

mod choices;
mod laws;
mod marks;
mod walk;

pub use choices::{measured_laws, weigh_choice};
pub use laws::{point_laws, row_laws, walk_laws};
pub use walk::{Side, Walk};
