ghost use Rattle.std.specs.Prelude.{◌≡◌, IfOk, IfErr, drop};
ghost use Rattle.run_core.specs.Exits.{number_without};
ghost use Rattle.run_core.specs.Expected.{words_of};
ghost use Rattle.run_core.specs.Outside.{shelved, printed};
ghost use Rattle.rooms_cmd.specs.Exits.{IsExit};
ghost use Rattle.command_words.specs.Words.{command};
ghost use Rattle.rooms_cmd.specs.Work.{work};

use crate::command::run;
use exact_num::{Arith, Steps};
use input_core::{Shelf, Sink};
use run_core::{NoWords, without_name};
use std::alloc::Global;
use std::sync::ledger::Ledger;

/// Runs the program on its arguments, of which the first is its name and the others are the words of `run`, and
/// answers its exit status: that of the run, or where there are no arguments 9 or 7 by the cause; then nothing is
/// read and nothing is written.
pub fn exit_status<S: Shelf, O: Sink, A: Arith, L: Ledger>(
    alloc: Global,
    arguments: Result<Vec<String>, NoWords>,
    shelf: &mut S,
    out: &mut O,
    arith: &mut A,
    steps: &mut Steps<L>,
) -> u8
    ensures runs { IfOk arguments (λ all. IsExit (shelved S.tells S.held S.piece_faults S.put_faults shelf.old shelf.new) (printed O.written O.faults O.calls out.old out.new) (work A.wides arith.old arith.new steps.old steps.new) (command (words_of (drop 1 all.items))) result) }
    ensures without { IfErr arguments (λ cause. result ≡ number_without cause) }
    ensures shelf_kept { IfErr arguments (λ cause. shelf.new ≡ shelf.old) }
    ensures out_kept { IfErr arguments (λ cause. out.new ≡ out.old) }
{
    match arguments {
        Ok(all) => run(
            alloc,
            without_name(all.as_slice()),
            shelf,
            out,
            arith,
            steps,
        )
        .number(),
        Err(cause) => cause.number(),
    }
}
