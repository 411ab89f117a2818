//! The tableau of the simplex method in exact fractions: a basis with its inverse as sparse columns, a pivot,
//! and the test that finds where a step ends.
//!
//! Nothing here knows a task: a variable is a number, and what its value must be is its [`RowState`].
#![tactic(auto)]

mod basis;
mod dense;
mod fault;
mod inverse;
mod leave;
mod products;
mod sparse;
mod state;

pub use basis::{Tableau, pivot};
pub use dense::{add_times, append_number, price, repeated};
pub use fault::Fault;
pub use inverse::ftran;
pub use leave::{Leaving, find_leaving, state_at};
pub use products::{is_one, plus_times, times};
pub use sparse::{Entry, number_at, sign};
pub use state::RowState;
