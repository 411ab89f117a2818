//! The text of a certificate in both versions: its lines, their spelling, which line may follow which, a writer
//! and a reader; and the two forms of a certificate, with equal leaves written once or each where it stands.
#![tactic(auto)]

mod bounds;
mod cert_reader;
mod fields;
mod forms;
mod laws;
mod leaf_line;
mod leaf_lines;
mod line;
mod line_rest;
mod lines;
mod named;
mod number;
mod pieces;
mod place;
mod reader;
mod writer;

pub use cert_reader::CertReader;
pub use duality::Node;
pub use forms::{plain, share};
pub use input_core::Memory;
pub use laws::{line_laws, place_laws, share_laws, text_laws, tree_laws};
pub use leaf_lines::LeafLines;
pub use line::read_line;
pub use line_rest::{LINE_LIMIT, LineRest};
pub use lines::{CertLine, Certificate, Tree};
pub use named::Named;
pub use place::{Place, step};
pub use reader::{Reader, next_line, read_cert};
pub use writer::write_cert;
