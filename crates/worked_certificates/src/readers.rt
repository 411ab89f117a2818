use crate::pieces::{BRANCHED, PLAIN, SHARED};
use cert_text::CertReader;
use input_core::{LineFault, LineKind, TextFault};
use std::alloc::Global;
use std::process::Abort;
use std::test::Fail;

/// Feeds a piece to a reader of few bytes.
fn fed(reader: &mut CertReader, piece: &[u8]) -> Result<(), TextFault> {
    if reader.taken() > 1_000_000 {
        return Err(TextFault::Memory);
    }
    if piece.len() > 1_000_000 {
        return Err(TextFault::Memory);
    }
    reader.feed(piece)?;
    Ok(())
}

fn read_two(alloc: Global, first: &[u8], second: &[u8]) -> Result<(), TextFault> {
    let mut reader = CertReader::new(alloc);
    fed(&mut reader, first)?;
    fed(&mut reader, second)?;
    reader.finish()
}

fn read_bytes(alloc: Global, text: &[u8]) -> Result<(), TextFault> {
    let mut reader = CertReader::new(alloc);
    for byte in text.chunks(1) {
        fed(&mut reader, byte)?;
    }
    reader.finish()
}

/// That the text is one, a byte at a time and cut in two at each of its places.
fn judge_text(rt: &impl Abort, alloc: Global, text: &[u8]) -> Result<(), Fail> {
    read_bytes(alloc, text)?;
    for size in 0..=text.len() {
        let (first, second) = text.split_at(size);
        read_two(alloc, first, second)?;
    }
    assert!(rt; !text.is_empty());
    Ok(())
}

#[test]
fn reads_in_pieces(rt: HostRuntime) -> Result<(), Fail> {
    let alloc = rt.alloc();
    judge_text(&rt, alloc, PLAIN)?;
    judge_text(&rt, alloc, BRANCHED)?;
    judge_text(&rt, alloc, SHARED)
}

fn fault_of(line: u64) -> TextFault {
    TextFault::Line(LineFault {
        line,
        kind: LineKind::Text,
    })
}

// A reader repeats its refusal, whatever comes next.
#[test]
fn refuses_behind_an_unknown_version(rt: HostRuntime) -> Result<(), Fail> {
    let mut reader = CertReader::new(rt.alloc());
    for piece in ["rooms-certificate 3\n", "", "\n", "model 1 2\n", "end 0"] {
        assert!(rt; fed(&mut reader, piece.as_bytes()).err() == Some(fault_of(1)));
    }
    Ok(())
}

// A text that ends inside a line is faulty in that line.
#[test]
fn reads_no_front_of_a_text(rt: HostRuntime) -> Result<(), Fail> {
    let mut line: u64 = 1;
    for (size, byte) in PLAIN.iter().enumerate() {
        assert!(rt; read_two(rt.alloc(), &PLAIN[..size], b"").err() == Some(fault_of(line)));
        if *byte == b'\n' {
            line = line.saturating_add(1);
        }
    }
    Ok(())
}
