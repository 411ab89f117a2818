ghost use Rattle.std.specs.Prelude.{◌≡◌, true, IfOk, IfSome, Some, option_map};
ghost use Rattle.run_core.specs.Expected.{words_of};
ghost use Rattle.command_words.specs.Forms as forms;
ghost use Rattle.command_words.specs.Matching.{matches_on};
ghost use Rattle.command_words.specs.Words.{command, named_command, command_after, solve_in, check_in, recert_in, measure_in, report_in, demo_in, where_apart, writes_apart, is_apart, IsInRange};

use crate::arguments::{budget_in, courses_in, json_in, names_in, text_in};
use crate::forms::{check, demo, measure, recert, report, solve};
use crate::matching::matches_on;
use std::alloc::{AllocError, Global};
use tool_core::Names;
use values::Text;

/// What the words ask for.
#[derive(Drop)]
pub enum Command {
    /// Find the best rooms, and put the certificate under this name; so many branches may be made.
    Solve {
        names: Names,
        certificate: Text,
        budget: u64,
    },
    /// Check the certificate of this name.
    Check {
        names: Names,
        certificate: Text,
    },
    /// Check the certificate of this name, and put its shared form under the new one.
    Recert {
        names: Names,
        certificate: Text,
        new: Text,
    },
    /// Measure the rooms that the times give.
    Measure {
        names: Names,
    },
    /// Report who is where, by the rooms that the times give, as a text or as a line of JSON.
    Report {
        names: Names,
        json: bool,
    },
    /// Make an input of so many courses, find its best rooms and check them; so many branches may be made.
    Demo {
        courses: u32,
        budget: u64,
    },
}

/// The command that the words give: `solve INSTANCE TIMES MEASURES CERT [--budget N]`, `check INSTANCE TIMES MEASURES
/// CERT`, `recert INSTANCE TIMES MEASURES CERT NEW`, `measure INSTANCE TIMES MEASURES`, `report INSTANCE TIMES MEASURES
/// [--json]` or `demo N [--budget N]`. The words after the first one are read by a simple command of the library
/// `clap`, which takes options before, between and behind the names; what is a command is exactly what its matches
/// give. `None` comes exactly for other words, and where the file that the command writes is one that it reads.
pub fn read_command(alloc: Global, words: &[String]) -> Result<Option<Command>, AllocError>
    ensures exact { IfOk result (λ c. c ≡ command (words_of words.now)) }
    ensures apart { IfOk result (λ c. IfSome c (λ asked. writes_apart asked ≡ true)) }
    ensures in_range { IfOk result (λ c. IfSome c IsInRange) }
{
    match read_named(alloc, words)? {
        Some(command) => Ok(where_apart(command)),
        None => Ok(None),
    }
}

/// The command, unless it would write a file that it reads.
fn where_apart(command: Command) -> Option<Command>
    requires { IsInRange command }
    ensures exact { result ≡ where_apart (Some command) }
    ensures apart { IfSome result (λ asked. writes_apart asked ≡ true) }
    ensures in_range { IfSome result IsInRange }
{
    if writes_apart(&command) {
        Some(command)
    } else {
        None
    }
}

/// Whether the file that the command writes is none that it reads.
fn writes_apart(command: &Command) -> bool
    ensures { result ≡ writes_apart command.now }
{
    match command {
        Command::Solve {
            names,
            certificate,
            budget: _,
        } => is_apart(certificate, names),
        Command::Check {
            names: _,
            certificate: _,
        } => true,
        Command::Recert {
            names,
            certificate,
            new,
        } => {
            let apart = is_apart(new, names);
            let same = new.as_str() == certificate.as_str();
            apart && !same
        }
        Command::Measure { names: _ } => true,
        Command::Report { names: _, json: _ } => true,
        Command::Demo {
            courses: _,
            budget: _,
        } => true,
    }
}

/// Whether the name is none of the three.
fn is_apart(name: &Text, names: &Names) -> bool
    ensures { result ≡ is_apart name.now names.now }
{
    let instance = name.as_str() == names.instance.as_str();
    let times = name.as_str() == names.times.as_str();
    let measures = name.as_str() == names.measures.as_str();
    !instance && (!times && !measures)
}

/// The command of a first word and the words after it, whichever file it writes.
fn read_named(alloc: Global, words: &[String]) -> Result<Option<Command>, AllocError>
    ensures exact { IfOk result (λ c. c ≡ named_command (words_of words.now)) }
    ensures in_range { IfOk result (λ c. IfSome c IsInRange) }
{
    match words {
        [] => Ok(None),
        [first, rest @ ..] => read_after(alloc, first.as_str(), rest),
    }
}

fn read_after(alloc: Global, first: &str, words: &[String]) -> Result<Option<Command>, AllocError>
    ensures exact { IfOk result (λ c. c ≡ command_after first.now (words_of words.now)) }
    ensures in_range { IfOk result (λ c. IfSome c IsInRange) }
{
    if first == "solve" {
        return read_solve(alloc, words);
    }
    if first == "check" {
        return read_check(alloc, words);
    }
    if first == "recert" {
        return read_recert(alloc, words);
    }
    if first == "measure" {
        return read_measure(alloc, words);
    }
    if first == "report" {
        return read_report(alloc, words);
    }
    if first == "demo" {
        return read_demo(alloc, words);
    }
    Ok(None)
}

fn read_solve(alloc: Global, words: &[String]) -> Result<Option<Command>, AllocError>
    ensures exact { IfOk result (λ c. c ≡ option_map solve_in (matches_on forms.solve (words_of words.now))) }
    ensures in_range { IfOk result (λ c. IfSome c IsInRange) }
{
    match matches_on(solve(alloc)?, words)? {
        Some(matches) => {
            let names = names_in(alloc, &matches)?;
            let certificate = text_in(alloc, &matches, "cert")?;
            let budget = budget_in(&matches);
            Ok(Some(Command::Solve {
                names,
                certificate,
                budget,
            }))
        }
        None => Ok(None),
    }
}

fn read_check(alloc: Global, words: &[String]) -> Result<Option<Command>, AllocError>
    ensures exact { IfOk result (λ c. c ≡ option_map check_in (matches_on forms.check (words_of words.now))) }
    ensures in_range { IfOk result (λ c. IfSome c IsInRange) }
{
    match matches_on(check(alloc)?, words)? {
        Some(matches) => {
            let names = names_in(alloc, &matches)?;
            let certificate = text_in(alloc, &matches, "cert")?;
            Ok(Some(Command::Check { names, certificate }))
        }
        None => Ok(None),
    }
}

fn read_recert(alloc: Global, words: &[String]) -> Result<Option<Command>, AllocError>
    ensures exact { IfOk result (λ c. c ≡ option_map recert_in (matches_on forms.recert (words_of words.now))) }
    ensures in_range { IfOk result (λ c. IfSome c IsInRange) }
{
    match matches_on(recert(alloc)?, words)? {
        Some(matches) => {
            let names = names_in(alloc, &matches)?;
            let certificate = text_in(alloc, &matches, "cert")?;
            let new = text_in(alloc, &matches, "new")?;
            Ok(Some(Command::Recert {
                names,
                certificate,
                new,
            }))
        }
        None => Ok(None),
    }
}

fn read_measure(alloc: Global, words: &[String]) -> Result<Option<Command>, AllocError>
    ensures exact { IfOk result (λ c. c ≡ option_map measure_in (matches_on forms.measure (words_of words.now))) }
    ensures in_range { IfOk result (λ c. IfSome c IsInRange) }
{
    match matches_on(measure(alloc)?, words)? {
        Some(matches) => Ok(Some(Command::Measure {
            names: names_in(alloc, &matches)?,
        })),
        None => Ok(None),
    }
}

fn read_report(alloc: Global, words: &[String]) -> Result<Option<Command>, AllocError>
    ensures exact { IfOk result (λ c. c ≡ option_map report_in (matches_on forms.report (words_of words.now))) }
    ensures in_range { IfOk result (λ c. IfSome c IsInRange) }
{
    match matches_on(report(alloc)?, words)? {
        Some(matches) => Ok(Some(Command::Report {
            names: names_in(alloc, &matches)?,
            json: json_in(&matches),
        })),
        None => Ok(None),
    }
}

fn read_demo(alloc: Global, words: &[String]) -> Result<Option<Command>, AllocError>
    ensures exact { IfOk result (λ c. c ≡ option_map demo_in (matches_on forms.demo (words_of words.now))) }
    ensures in_range { IfOk result (λ c. IfSome c IsInRange) }
{
    match matches_on(demo(alloc)?, words)? {
        Some(matches) => Ok(Some(Command::Demo {
            courses: courses_in(&matches),
            budget: budget_in(&matches),
        })),
        None => Ok(None),
    }
}
