//! The verdict on a certificate: whether its bytes are a text of a valid certificate, or the first line that
//! is at fault; and the judge of a tree's nodes that it stands on, which serves any objective.
#![tactic(auto)]

mod checker;
mod feeding;
mod judge;
mod laws;
mod progress;
mod reading;
mod tree;
mod verdict;

pub use checker::Checker;
pub use judge::{check, check_file};
pub use laws::certificate_laws;
pub use search_nodes::Walk;
pub use tree::TreeAt;
pub use verdict::{Reason, Verdict};
