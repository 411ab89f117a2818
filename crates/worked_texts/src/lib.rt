//! Worked cases of the outside of the program, of the readers and writers of its files, of reports as text and as
//! JSON, of the score, of the page of a week, and of the text of a certificate, through the public calls of their
//! crates: tests alone.
#![tactic(auto)]

#[cfg(test)]
mod certificate;
#[cfg(test)]
mod instance;
#[cfg(test)]
mod json;
#[cfg(test)]
mod measures;
#[cfg(test)]
mod outside;
#[cfg(test)]
mod report;
#[cfg(test)]
mod score;
#[cfg(test)]
mod times;
#[cfg(test)]
mod week;
