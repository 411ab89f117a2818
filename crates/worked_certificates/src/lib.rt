//! Worked cases of certificates in both versions: tests alone.
#![tactic(auto)]

#[cfg(test)]
mod forms;
#[cfg(test)]
mod pieces;
#[cfg(test)]
mod readers;
