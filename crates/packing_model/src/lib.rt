//! The rows over the patterns of a problem, and what a choice of patterns must meet.
#![tactic(auto)]

mod close;
mod costs;
mod cut;
mod fixing;
mod free;
mod keys;
mod laws;
mod measured;
mod members;
mod model;
mod node_marks;
mod point;
mod pool;
mod row;
mod rows;
mod runs;

pub use close::{At, ObjectiveAt, close_leaf, leaf_closes, left_of};
pub use cut::{Cut, CutFault};
pub use duality::{Leaf, LeafFault, RowName, Run, Term};
pub use fixing::Fixing;
pub use free::{coefficient, is_free};
pub use laws::packing_laws;
pub use measured::Measured;
pub use model::Model;
pub use point::Point;
pub use pool::{Pool, PoolFault};
pub use row::Row;
