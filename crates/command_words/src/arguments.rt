ghost use Rattle.std.specs.Prelude.{◌≡◌, ◌≤◌, IfOk, IfSome, IsSomeAnd, codes};
ghost use Rattle.clap.specs.Words.{found_of, rows_of, one_text, IsUnsignedIn};
ghost use Rattle.command_words.specs.Words.{text_in, names_in, budget_in, budget_limit, json_in, courses_in, course_limit};

use clap::ArgMatches;
use std::alloc::{AllocError, Global};
use tool_core::Names;
use values::Text;

/// The branches that may be made where the words don't say it.
const DEFAULT_BUDGET: u64 = 1_000;

/// The word for an argument, as a text of its own.
pub fn text_in(alloc: Global, matches: &ArgMatches, id: &str) -> Result<Text, AllocError>
    ensures { IfOk result (λ t. t ≡ text_in id.now (rows_of (found_of matches.now))) }
{
    match matches.get_str(id) {
        Some(word) => Text::from_str(alloc, word),
        None => Text::from_str(alloc, ""),
    }
}

/// The names of the three files.
pub fn names_in(alloc: Global, matches: &ArgMatches) -> Result<Names, AllocError>
    ensures { IfOk result (λ n. n ≡ names_in (rows_of (found_of matches.now))) }
{
    let instance = text_in(alloc, matches, "instance")?;
    let times = text_in(alloc, matches, "times")?;
    let measures = text_in(alloc, matches, "measures")?;
    Ok(Names {
        instance,
        times,
        measures,
    })
}

/// The budget: that of `--budget`, or the default one.
pub fn budget_in(matches: &ArgMatches) -> u64
    requires { IfSome (one_text (found_of matches.now) (codes "budget")) (IsUnsignedIn 0 budget_limit) }
    ensures exact { result ≡ budget_in (rows_of (found_of matches.now)) }
    ensures few { result ≤ budget_limit }
{
    match matches.get_one::<u64>("budget") {
        Some(budget) => budget,
        None => DEFAULT_BUDGET,
    }
}

/// Whether `--json` is given.
pub fn json_in(matches: &ArgMatches) -> bool
    ensures { result ≡ json_in (rows_of (found_of matches.now)) }
{
    match matches.get_str("json") {
        Some(word) => word == "true",
        None => false,
    }
}

/// The number of courses.
pub fn courses_in(matches: &ArgMatches) -> u32
    requires { IsSomeAnd (one_text (found_of matches.now) (codes "n")) (IsUnsignedIn 1 course_limit) }
    ensures exact { result ≡ courses_in (rows_of (found_of matches.now)) }
    ensures some { 1 ≤ result }
    ensures few { result ≤ course_limit }
{
    match matches.get_one::<u32>("n") {
        Some(courses) => courses,
        None => unreachable!(),
    }
}
