//! The commands of the program: from words and files to a status and a printed text.
#![tactic(auto)]

mod answers;
mod check;
mod command;
mod demo;
mod exit;
mod measure;
mod putting;
mod recert;
mod report;
mod solve;
mod texts;

pub use command::run;
pub use command_words::{Command, read_command};
pub use exit::exit_status;
pub use run_core::{NoWords, ToolStatus as Status};
