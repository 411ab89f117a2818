//! What the programs of this repository share: reading one file, printing one text, and ending.
#![tactic(auto)]

mod answer;
mod exit;
mod file;
mod printing;
mod status;
mod texts;

pub use answer::{Answer, Stop};
pub use exit::{NoWords, without_name};
pub use file::{FileFault, faulty, load, load_instance, load_times, stop_of};
pub use printing::print;
pub use status::ToolStatus;
pub use texts::{bad_line, read_fault, too_long};
