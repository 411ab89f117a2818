//! Why a closing leaf proves a bound: patterns that clash, rows over them, leaves and search trees, and
//! weak duality for every objective.
#![tactic(auto)]

mod costs;
mod growth;
mod laws;
mod leaf;
mod objective;
mod row;
mod row_sums;
mod sums;

pub use costs::{is_under, left_side, reduced_cost};
pub use growth::growth_laws;
pub use laws::{choice_laws, leaf_laws, sum_laws, tree_laws, walk_laws};
pub use leaf::{Leaf, LeafFault, Node};
pub use objective::{Objective, Weighed};
pub use row::{FLOOR_LEVEL, RowName, Run, Term};
pub use row_sums::{RowSums, sum_rows};
pub use sums::{
    added, clique_worth, is_before, is_same, level_times, priced_cliques, priced_levels, product,
    times_of, weigh, weight_of, worth_levels,
};
