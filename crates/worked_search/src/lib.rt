//! Worked cases of assignments, of linear programs in floating point, of the bounds of nodes, of trees and levels,
//! and of the certificates of a search: tests alone.
#![tactic(auto)]

#[cfg(test)]
mod assignments;
#[cfg(test)]
mod bounds;
#[cfg(test)]
mod float_programs;
#[cfg(test)]
mod floors;
#[cfg(test)]
mod levels;
#[cfg(test)]
mod model;
#[cfg(test)]
mod solved;
#[cfg(test)]
mod trees;
