ghost use Rattle.std.specs.Prelude.{◌≡◌, IfOk, IfErr, drop};
ghost use Rattle.input_core.specs.Shelf.{OnlyReads};
ghost use Rattle.run_core.specs.Exits.{number_without};
ghost use Rattle.run_core.specs.Expected.{words_of};
ghost use Rattle.run_core.specs.Outside.{shelved, printed};
ghost use Rattle.itc_score.specs.Exits.{IsExit};

use crate::command::run_score;
use input_core::{Shelf, Sink};
use run_core::{NoWords, without_name};
use std::alloc::Global;

/// Runs the program on its arguments, of which the first is its name and the others are the words of `run_score`, and
/// answers its exit status: that of the run, or where there are no arguments 9 or 7 by the cause; then nothing is
/// read and nothing is written.
pub fn exit_status<S: Shelf, O: Sink>(
    alloc: Global,
    arguments: Result<Vec<String>, NoWords>,
    shelf: &mut S,
    out: &mut O,
) -> u8
    ensures runs { IfOk arguments (λ all. IsExit (shelved S.tells S.held S.piece_faults S.put_faults shelf.old shelf.new) (printed O.written O.faults O.calls out.old out.new) (words_of (drop 1 all.items)) result) }
    ensures without { IfErr arguments (λ cause. result ≡ number_without cause) }
    ensures shelf_kept { IfErr arguments (λ cause. shelf.new ≡ shelf.old) }
    ensures out_kept { IfErr arguments (λ cause. out.new ≡ out.old) }
    ensures only { OnlyReads S.tells S.held S.piece_faults S.put_faults shelf.old shelf.new }
{
    match arguments {
        Ok(all) => run_score(alloc, without_name(all.as_slice()), shelf, out).number(),
        Err(cause) => cause.number(),
    }
}
