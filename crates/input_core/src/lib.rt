//! The outside of the program (files and output, as two traits with contracts, in memory and real), and
//! the lines, fields and numbers of its text files with the faults of a line.
#![tactic(auto)]

mod cursors;
mod faults;
mod fields;
mod files;
mod lines;
mod mem_shelf;
mod read;
mod shelf;
mod sink;
mod taker;

pub use cursors::{Fields, Lines, Row, Rows};
pub use faults::{LineFault, LineKind, Memory, TextFault, kind_text};
pub use fields::{NAME_LIMIT, read_name, read_number_below, read_number_in, text_of_field};
pub use files::FileShelf;
pub use lines::{is_allowed_line, next_field, next_line, read_number};
pub use mem_shelf::MemShelf;
pub use read::{INPUT_LIMIT, ReadRefusal, read_all, read_into};
pub use shelf::{Fault, PutFault, Shelf, Sink};
pub use sink::{MemSink, OutSink};
pub use taker::Taker;
