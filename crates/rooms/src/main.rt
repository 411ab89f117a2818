//! The program `rooms`: gives the meetings of a timetable rooms, and checks that no choice of rooms is better.
#![tactic(auto)]

ghost use Rattle.std.specs.Prelude.{◌≡◌, ◌<◌};

use exact_num::{Arith, Exact128, Steps};
use input_core::{FileShelf, OutSink};
use progress::Watched;
use rooms_cmd::{NoWords, exit_status};
use std::env;
use std::io::IsTerminal;
use std::marker::Brand;
use std::process::ExitCode;
use std::sync::ledger::{Blank, Ledger};

fn main(rt: HostRuntime) -> ExitCode {
    ExitCode::from(number::<Brand>(&rt, Blank::new(1)))
}

/// The exit status. The steps of the search are counted in a ledger that nothing was written in. Where a person
/// waits, the arithmetic shows on standard error that it works.
fn number<L: Ledger>(rt: &HostRuntime, blank: Blank) -> u8
    requires name { blank.name ≡ L.name }
    requires parts { blank.parts ≡ L.parts }
    requires some { 0 < blank.parts }
{
    let mut steps: Steps<L> = Steps::new(blank);
    if !rt.stderr().is_terminal() {
        return run(rt, &mut Exact128::new(), &mut steps);
    }
    let mut arith = Watched::new(rt);
    let number = run(rt, &mut arith, &mut steps);
    arith.finish();
    number
}

/// The exit status of a run on the real files and the standard output.
fn run<A: Arith, L: Ledger>(rt: &HostRuntime, arith: &mut A, steps: &mut Steps<L>) -> u8 {
    let mut shelf = FileShelf::new(rt);
    let mut out = OutSink::new(rt);
    exit_status(
        rt.alloc(),
        arguments(rt),
        &mut shelf,
        &mut out,
        arith,
        steps,
    )
}

/// The arguments of the program, of which the first is its name.
fn arguments(rt: &HostRuntime) -> Result<Vec<String>, NoWords> {
    let all = env::args(rt)?.collect(rt.alloc())?;
    Ok(all)
}
