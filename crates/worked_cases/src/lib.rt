//! Worked cases of fractions, problems, patterns, rows, nodes of a search, points and their cuts, certificates and
//! limits, through the public calls of their crates: tests alone.
#![tactic(auto)]

#[cfg(test)]
mod certificate;
#[cfg(test)]
mod closing;
#[cfg(test)]
mod demo;
#[cfg(test)]
mod fixed;
#[cfg(test)]
mod fractions;
#[cfg(test)]
mod limits;
#[cfg(test)]
mod model;
#[cfg(test)]
mod packing;
#[cfg(test)]
mod points;
#[cfg(test)]
mod problem;
#[cfg(test)]
mod rounding;
#[cfg(test)]
mod terms;
