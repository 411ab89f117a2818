ghost use Rattle.std.specs.Prelude.{◌≡◌, ◌<◌};

use exact_num::{Refusing, Steps};
use input_core::{MemShelf, MemSink};
use rooms_cmd::{Status, run};
use std::alloc::{AllocError, Global};
use std::marker::Brand;
use std::process::Abort;
use std::sync::ledger::{Blank, Ledger};
use std::test::Fail;

const HEADER: &[u8] =
    b"Name: x\nCourses: 400\nRooms: 1\nDays: 2\nPeriods_per_day: 10\nCurricula: 0\nConstraints: 0\n\nCOURSES:\n";

const REST: &[u8] = b"\nROOMS:\nR1 20\n\nCURRICULA:\n\nUNAVAILABILITY_CONSTRAINTS:\n\nEND.\n";

/// 400 courses of 11 lectures.
fn many_courses(alloc: Global) -> Result<Vec<u8>, AllocError> {
    let mut text = Vec::from_slice(alloc, HEADER)?;
    for first in b'a'..=b't' {
        for second in b'a'..=b't' {
            text.extend_from_slice(&[first, second])?;
            text.extend_from_slice(b" T1 11 1 10\n")?;
        }
    }
    text.extend_from_slice(REST)?;
    Ok(text)
}

/// Ten meetings of each of the 400 courses, and one more.
fn many_meetings(alloc: Global) -> Result<Vec<u8>, AllocError> {
    let mut text = Vec::new(alloc);
    for first in b'a'..=b't' {
        for second in b'a'..=b't' {
            push_ten(&mut text, first, second)?;
        }
    }
    text.extend_from_slice(b"aa 1 0\n")?;
    Ok(text)
}

/// Ten meetings of the course of these letters.
fn push_ten(text: &mut Vec<u8>, first: u8, second: u8) -> Result<(), AllocError> {
    for period in b'0'..=b'9' {
        text.extend_from_slice(&[first, second, b' ', b'0', b' ', period, b'\n'])?;
    }
    Ok(())
}

/// Runs the words over no numbers.
fn counted<L: Ledger>(
    alloc: Global,
    words: &[String],
    shelf: &mut MemShelf,
    sink: &mut MemSink,
    blank: Blank,
) -> Status
    requires name { blank.name ≡ L.name }
    requires parts { blank.parts ≡ L.parts }
    requires some { 0 < blank.parts }
{
    let mut steps: Steps<L> = Steps::new(blank);
    run(alloc, words, shelf, sink, &mut Refusing::new(), &mut steps)
}

/// That `measure` prints this of the files and of empty measures, and that they are bad input.
fn judge_refusal(
    rt: &impl Abort,
    alloc: Global,
    instance: Vec<u8>,
    times: Vec<u8>,
    printed: &[u8],
) -> Result<(), Fail> {
    let mut files = Vec::new(alloc);
    files.push((String::from_str(alloc, "i")?, instance))?;
    files.push((String::from_str(alloc, "t")?, times))?;
    files.push((String::from_str(alloc, "m")?, Vec::new(alloc)))?;
    let mut words = Vec::new(alloc);
    for word in ["measure", "i", "t", "m"] {
        words.push(String::from_str(alloc, word)?)?;
    }
    let mut shelf = MemShelf::new(alloc, files, Vec::new(alloc));
    let mut sink = MemSink::new(alloc, Vec::new(alloc));
    let blank = Blank::new(1);
    let status = counted::<Brand>(alloc, words.as_slice(), &mut shelf, &mut sink, blank);
    assert!(rt; sink.bytes() == printed);
    assert!(rt; status.number() == 4);
    Ok(())
}

#[test]
fn refuses_too_many_meetings(rt: HostRuntime) -> Result<(), Fail> {
    let alloc = rt.alloc();
    let (instance, times) = (many_courses(alloc)?, many_meetings(alloc)?);
    judge_refusal(
        &rt,
        alloc,
        instance,
        times,
        b"bad input: meetings 4001 over 4000\n",
    )
}

#[test]
fn refuses_too_long_a_file(rt: HostRuntime) -> Result<(), Fail> {
    let alloc = rt.alloc();
    let mut short = Vec::from_slice(
        alloc,
        b"Name: x\nCourses: 1\nRooms: 1\nDays: 1\nPeriods_per_day: 1\nCurricula: 0\nConstraints: 0\n\nCOURSES:\nC1 T1 1 1 10\n",
    )?;
    short.extend_from_slice(REST)?;
    let long = vec![in alloc; b' '; 16_777_217]?;
    judge_refusal(
        &rt,
        alloc,
        short,
        long,
        b"bad input t: bytes 16777217 over 16777216\n",
    )
}
