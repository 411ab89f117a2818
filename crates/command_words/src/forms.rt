ghost use Rattle.std.specs.Prelude.{◌≡◌, false, IfOk};
ghost use Rattle.clap.specs.Words.{app_of, rule_of};
ghost use Rattle.command_words.specs.Forms.{named, budget, json, courses, on_files, on_certificate, solve, check, recert, measure, report, demo, bare};

use clap::{Arg, ArgAction, Command, value_parser};
use std::alloc::{AllocError, Global};

/// A positional argument, which has to be given.
fn named<'a>(alloc: Global, id: &'a str) -> Arg<'a>
    ensures rule { rule_of result ≡ named id.entry.now }
    ensures local { result.global ≡ false }
{
    Arg::new(alloc, id).required(true)
}

/// `--budget` and its number.
fn budget<'a>(alloc: Global) -> Arg<'a>
    ensures rule { rule_of result ≡ budget }
    ensures local { result.global ≡ false }
{
    let parser = value_parser!(u64).range(0..=1_000_000);
    Arg::new(alloc, "budget")
        .long("budget")
        .value_parser(parser)
}

/// `--json`, which takes no value.
fn json<'a>(alloc: Global) -> Arg<'a>
    ensures rule { rule_of result ≡ json }
    ensures local { result.global ≡ false }
{
    Arg::new(alloc, "json")
        .long("json")
        .action(ArgAction::SetTrue)
}

/// The number of courses, which has to be given.
fn courses<'a>(alloc: Global) -> Arg<'a>
    ensures rule { rule_of result ≡ courses }
    ensures local { result.global ≡ false }
{
    let parser = value_parser!(u64).range(1..=300);
    named(alloc, "n")
        .action(ArgAction::Set)
        .value_parser(parser)
}

/// A command that is given its words without a program's name.
fn bare<'a>(alloc: Global, name: &'a str) -> Command<'a>
    ensures { app_of result ≡ bare name.entry.now }
{
    Command::new(alloc, name).no_binary_name(true)
}

/// A command that takes the three files.
fn on_files<'a>(alloc: Global, name: &'a str) -> Result<Command<'a>, AllocError>
    ensures { IfOk result (λ c. app_of c ≡ on_files name.entry.now) }
{
    let command = bare(alloc, name);
    let command = command.arg(named(alloc, "instance"))?;
    let command = command.arg(named(alloc, "times"))?;
    command.arg(named(alloc, "measures"))
}

/// A command that takes the three files and a certificate.
fn on_certificate<'a>(alloc: Global, name: &'a str) -> Result<Command<'a>, AllocError>
    ensures { IfOk result (λ c. app_of c ≡ on_certificate name.entry.now) }
{
    let command = on_files(alloc, name)?;
    command.arg(named(alloc, "cert"))
}

/// `solve INSTANCE TIMES MEASURES CERT [--budget N]`
pub fn solve<'a>(alloc: Global) -> Result<Command<'a>, AllocError>
    ensures { IfOk result (λ c. app_of c ≡ solve) }
{
    let command = on_certificate(alloc, "solve")?;
    command.arg(budget(alloc))
}

/// `check INSTANCE TIMES MEASURES CERT`
pub fn check<'a>(alloc: Global) -> Result<Command<'a>, AllocError>
    ensures { IfOk result (λ c. app_of c ≡ check) }
{
    on_certificate(alloc, "check")
}

/// `recert INSTANCE TIMES MEASURES CERT NEW`
pub fn recert<'a>(alloc: Global) -> Result<Command<'a>, AllocError>
    ensures { IfOk result (λ c. app_of c ≡ recert) }
{
    let command = on_certificate(alloc, "recert")?;
    command.arg(named(alloc, "new"))
}

/// `measure INSTANCE TIMES MEASURES`
pub fn measure<'a>(alloc: Global) -> Result<Command<'a>, AllocError>
    ensures { IfOk result (λ c. app_of c ≡ measure) }
{
    on_files(alloc, "measure")
}

/// `report INSTANCE TIMES MEASURES [--json]`
pub fn report<'a>(alloc: Global) -> Result<Command<'a>, AllocError>
    ensures { IfOk result (λ c. app_of c ≡ report) }
{
    let command = on_files(alloc, "report")?;
    command.arg(json(alloc))
}

/// `demo N [--budget N]`
pub fn demo<'a>(alloc: Global) -> Result<Command<'a>, AllocError>
    ensures { IfOk result (λ c. app_of c ≡ demo) }
{
    let command = bare(alloc, "demo");
    let command = command.arg(courses(alloc))?;
    command.arg(budget(alloc))
}
