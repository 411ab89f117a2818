//! The program `score`: prints the competition's score of a timetable.
#![tactic(auto)]

use input_core::{FileShelf, OutSink};
use itc_score::exit_status;
use run_core::NoWords;
use std::env;
use std::process::ExitCode;

fn main(rt: HostRuntime) -> ExitCode {
    let mut shelf = FileShelf::new(&rt);
    let mut out = OutSink::new(&rt);
    let status = exit_status(rt.alloc(), arguments(&rt), &mut shelf, &mut out);
    ExitCode::from(status)
}

/// The arguments of the program, of which the first is its name.
fn arguments(rt: &HostRuntime) -> Result<Vec<String>, NoWords> {
    let all = env::args(rt)?.collect(rt.alloc())?;
    Ok(all)
}
