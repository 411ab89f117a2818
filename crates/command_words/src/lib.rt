//! The words of the commands: from the words after the program's name to a command.
#![tactic(auto)]

mod arguments;
mod forms;
mod matching;
mod words;

pub use words::{Command, read_command};
