ghost use Rattle.std.specs.Prelude.{◌≡◌, true, IfOk, IfSome, option_map};
ghost use Rattle.clap.specs.Words.{app_of, found_of, rows_of, is_simple_and_free, IsParsedFrom};
ghost use Rattle.run_core.specs.Expected.{words_of};
ghost use Rattle.command_words.specs.Matching.{matches_on};

use clap::error::ErrorKind;
use clap::{ArgMatches, Command};
use std::alloc::AllocError;

/// The matches that the command has on the words, where it takes them.
pub fn matches_on<'a>(
    command: Command<'a>,
    words: &'a [String],
) -> Result<Option<ArgMatches<'a>>, AllocError>
    requires { is_simple_and_free (app_of command) ≡ true }
    ensures exact { IfOk result (λ found. option_map (λ m. rows_of (found_of m)) found ≡ matches_on (app_of command.entry) (words_of words.entry.now)) }
    ensures parsed { IfOk result (λ found. IfSome found (IsParsedFrom command.entry)) }
{
    match command.try_get_matches_from(words) {
        Ok(matches) => Ok(Some(matches)),
        Err(error) => {
            if error.kind() == ErrorKind::OutOfMemory {
                Err(AllocError)
            } else {
                Ok(None)
            }
        }
    }
}
