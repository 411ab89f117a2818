//! Worked cases of the commands: runs each line of the file `cases` over the files beside it, and prints the line,
//! a status, and the bytes that came. Empty lines and those that begin with `#` are skipped. The others are:
//!
//! - `rooms WORD ..`: the words of the program `rooms`. A word `!N` makes the Nth call of the shelf fail, a word
//!   `N:M` the Nth call of the sink, after M bytes; `~64` runs over fractions of 64 bits, `~none` over none.
//! - `rooms WORD .. ; WORD ..`: the same, and then further words over the same shelf, each with its own status and
//!   bytes. Words `show NAME` give what a name holds. Of the failing calls of the shelf those of the first count.
//! - `rooms WORD .. @ FILE FIRST LAST|LINE|LINE ..`: the same, where FILE has these lines in place of those from
//!   FIRST to LAST.
//! - `put FILE TEXT`: makes a real file hold the text, and reads it.
//! - `piece FILE AT`: at most eight bytes of a real file, from a place on.
#![tactic(auto)]

ghost use Rattle.std.specs.Prelude.{◌≡◌, ◌<◌};

mod case;
mod change;
mod stop;

use crate::case::{Case, Numbers, case_of};
use crate::change::{Change, change_of, changed};
use crate::stop::Stop;
use exact_num::{Arith, Exact64, Exact128, Refusing, Steps};
use input_core::{FileShelf, INPUT_LIMIT, MemShelf, MemSink, OutSink, Shelf, Sink, read_all};
use rooms_cmd::{Status, run};
use std::alloc::{AllocError, Global};
use std::marker::Brand;
use std::process::ExitCode;
use std::rt::Files;
use std::sync::ledger::{Blank, Ledger};

/// The files that the words name, so far as there are such, with the change.
fn files_of<R: Files>(
    alloc: Global,
    rt: &R,
    words: &[String],
    change: Option<Change>,
) -> Result<Vec<(String, Vec<u8>)>, AllocError> {
    let mut shelf = FileShelf::new(rt);
    let mut files = Vec::new(alloc);
    for word in words {
        if let Ok(bytes) = read_all(alloc, &mut shelf, word.as_str(), INPUT_LIMIT + 1) {
            let name = String::from_str(alloc, word.as_str())?;
            files.push((name, with_change(alloc, word.as_str(), bytes, change)?))?;
        }
    }
    Ok(files)
}

/// The bytes, with the change where it is one of this file.
fn with_change(
    alloc: Global,
    name: &str,
    bytes: Vec<u8>,
    change: Option<Change>,
) -> Result<Vec<u8>, AllocError> {
    match change {
        Some(change) if change.file == name => changed(alloc, bytes.as_slice(), change),
        _ => Ok(bytes),
    }
}

/// Runs the words over their files.
fn run_rooms<R: Files + Print>(
    alloc: Global,
    rt: &R,
    line: &str,
    words: &str,
    change: Option<Change>,
) -> Result<(), Stop> {
    let first = case_of(alloc, words.split(';').next().unwrap_or(""))?;
    let named = case_of(alloc, words)?;
    let files = files_of(alloc, rt, named.words.as_slice(), change)?;
    let mut shelf = MemShelf::new(alloc, files, first.failing);
    print_line(alloc, rt, line)?;
    for part in words.split(';') {
        run_part(alloc, rt, part, &mut shelf)?;
    }
    Ok(())
}

/// Runs the words of one command, or shows what a name holds.
fn run_part<R: Print>(
    alloc: Global,
    rt: &R,
    words: &str,
    shelf: &mut MemShelf,
) -> Result<(), Stop> {
    if let Some(name) = words.trim_ascii().strip_prefix("show ") {
        return show(alloc, rt, name, shelf);
    }
    let case = case_of(alloc, words)?;
    let mut sink = MemSink::new(alloc, case.sink_failing);
    let words = case.words.as_slice();
    let status = match case.numbers {
        Numbers::Wide => over::<Exact128>(alloc, words, shelf, &mut sink, &mut Exact128::new()),
        Numbers::Narrow => over::<Exact64>(alloc, words, shelf, &mut sink, &mut Exact64::new()),
        Numbers::None => over::<Refusing>(alloc, words, shelf, &mut sink, &mut Refusing::new()),
    };
    print_answer(alloc, rt, status, sink.bytes())
}

/// Runs the words over an arithmetic.
fn over<A: Arith>(
    alloc: Global,
    words: &[String],
    shelf: &mut MemShelf,
    sink: &mut MemSink,
    arith: &mut A,
) -> Status {
    counted::<A, Brand>(alloc, words, shelf, sink, arith, Blank::new(1))
}

fn counted<A: Arith, L: Ledger>(
    alloc: Global,
    words: &[String],
    shelf: &mut MemShelf,
    sink: &mut MemSink,
    arith: &mut A,
    blank: Blank,
) -> Status
    requires name { blank.name ≡ L.name }
    requires parts { blank.parts ≡ L.parts }
    requires some { 0 < blank.parts }
{
    let mut steps: Steps<L> = Steps::new(blank);
    run(alloc, words, shelf, sink, arith, &mut steps)
}

/// Shows what a name holds.
fn show<R: Print>(alloc: Global, rt: &R, name: &str, shelf: &mut MemShelf) -> Result<(), Stop> {
    match read_all(alloc, shelf, name, INPUT_LIMIT) {
        Ok(bytes) => print_answer(alloc, rt, Status::Done, bytes.as_slice()),
        Err(_) => print_answer(alloc, rt, Status::ReadFault, b""),
    }
}

/// Puts the text, and reads the name.
fn put<R: Files + Print>(
    alloc: Global,
    rt: &R,
    line: &str,
    name: &str,
    text: &str,
) -> Result<(), Stop> {
    let mut shelf = FileShelf::new(rt);
    if shelf.put(name, text.as_bytes()).is_err() {
        return print(alloc, rt, line, Status::WriteFault, b"");
    }
    match read_all(alloc, &mut shelf, name, INPUT_LIMIT) {
        Ok(bytes) => print(alloc, rt, line, Status::Done, bytes.as_slice()),
        Err(_) => print(alloc, rt, line, Status::ReadFault, b""),
    }
}

/// Reads a piece of the name.
fn piece<R: Files + Print>(
    alloc: Global,
    rt: &R,
    line: &str,
    name: &str,
    at: u64,
) -> Result<(), Stop> {
    let mut shelf = FileShelf::new(rt);
    let mut buffer = [0; 8];
    match shelf.piece(name, at, &mut buffer) {
        Ok(count) => print(alloc, rt, line, Status::Done, &buffer[..count]),
        Err(_) => print(alloc, rt, line, Status::ReadFault, b""),
    }
}

/// Prints the line of a case, the number of its status, and its bytes.
fn print<R: Print>(
    alloc: Global,
    rt: &R,
    line: &str,
    status: Status,
    bytes: &[u8],
) -> Result<(), Stop> {
    print_line(alloc, rt, line)?;
    print_answer(alloc, rt, status, bytes)
}

/// Prints the line of a case.
fn print_line<R: Print>(alloc: Global, rt: &R, line: &str) -> Result<(), Stop> {
    let head = format!(in alloc; "== {line}\n")?;
    OutSink::new(rt).write(head.as_bytes())?;
    Ok(())
}

/// Prints the number of a status, and the bytes that came.
fn print_answer<R: Print>(alloc: Global, rt: &R, status: Status, bytes: &[u8]) -> Result<(), Stop> {
    let number = status.number();
    let head = format!(in alloc; "{number}\n")?;
    let mut out = OutSink::new(rt);
    out.write(head.as_bytes())?;
    out.write(bytes)?;
    out.write(b"\n")?;
    Ok(())
}

/// Runs a line that is no comment.
fn run_line<R: Files + Print>(alloc: Global, rt: &R, line: &str) -> Result<(), Stop> {
    if let Some(words) = line.strip_prefix("rooms") {
        let Some((words, place)) = words.split_once('@') else {
            return run_rooms(alloc, rt, line, words, None);
        };
        let change = change_of(place).ok_or(Stop::Unclear)?;
        return run_rooms(alloc, rt, line, words, Some(change));
    }
    if let Some((name, text)) = two_words(line, "put ") {
        return put(alloc, rt, line, name, text);
    }
    let (name, at) = two_words(line, "piece ").ok_or(Stop::Unclear)?;
    piece(alloc, rt, line, name, at.parse().ok().ok_or(Stop::Unclear)?)
}

/// What stands behind the word, before and after a blank.
fn two_words<'a>(line: &'a str, word: &str) -> Option<(&'a str, &'a str)> {
    line.strip_prefix(word)?.split_once(' ')
}

fn run_lines<R: Files + Print>(alloc: Global, rt: &R) -> Result<(), Stop> {
    let bytes = cases(alloc, rt)?;
    let Ok(text) = str::from_utf8(bytes.as_slice()) else {
        return Err(Stop::Unread);
    };
    for line in text.lines() {
        if !line.is_empty() && !line.starts_with('#') {
            run_line(alloc, rt, line)?;
        }
    }
    Ok(())
}

/// What the file of the cases holds.
fn cases<R: Files>(alloc: Global, rt: &R) -> Result<Vec<u8>, Stop> {
    let mut shelf = FileShelf::new(rt);
    match read_all(alloc, &mut shelf, "cases", INPUT_LIMIT) {
        Ok(bytes) => Ok(bytes),
        Err(_) => Err(Stop::Unread),
    }
}

fn main(rt: HostRuntime) -> ExitCode {
    match run_lines(rt.alloc(), &rt) {
        Ok(()) => ExitCode::from(0),
        Err(Stop::Unclear) => ExitCode::from(4),
        Err(Stop::Unread) => ExitCode::from(5),
        Err(Stop::Unwritten) => ExitCode::from(6),
        Err(Stop::Memory) => ExitCode::from(7),
    }
}
