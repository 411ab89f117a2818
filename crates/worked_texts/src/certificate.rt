use cert_text::{Certificate, read_cert, write_cert};
use input_core::{LineFault, LineKind, TextFault};
use std::alloc::Global;
use std::process::Abort;
use std::test::Fail;

/// Of one meeting in one room: one pattern, two base rows, six levels that close at their root.
const SIX_LEVELS: &[u8] =
    b"rooms-certificate 1\nmodel 1 2\nchoice 1 1\nvalues 1 10 500 0 -1 0\ncuts 0\nlevel 1\nleaf 1 1 b0 1\nlevel 2\nleaf 1 1 b0 10\nlevel 3\nleaf 1 1 b0 500\nlevel 4\nleaf 1 0\nlevel 5\nleaf 1 1 l1 -1\nlevel 6\nleaf 1 0\nend 6\n";

const CUT: &[u8] =
    b"rooms-certificate 1\nmodel 4 6\nchoice 2 1 2\nvalues 2 20 1500 0 -2 0\ncuts 1\ncut 3 0 1 2\nend 0\n";

const UNFINISHED: &[u8] =
    b"rooms-certificate 1\nmodel 1 2\nchoice 0\nvalues 0 0 0 0 0 0\ncuts 0\nunfinished 1\nbranch 0\nopen\nleaf 0 0\nend 0\n";

const LARGEST_NUMBERS: &[u8] =
    b"rooms-certificate 1\nmodel 1 2\nchoice 0\nvalues 0 0 0 0 0 0\ncuts 0\nlevel 1\nbranch 0\nleaf 1000000000000000000000000 1 b0 -1000000000000000000000000\nleaf 1 0\nend 1\n";

/// That the certificate is written so.
fn judge_written(
    rt: &impl Abort,
    alloc: Global,
    certificate: &Certificate,
    text: &[u8],
) -> Result<(), Fail> {
    let written = write_cert(alloc, certificate)?;
    assert!(rt; written.as_slice() == text);
    Ok(())
}

/// That the text is read, and written again.
fn judge_text(rt: &impl Abort, alloc: Global, text: &[u8]) -> Result<(), Fail> {
    let certificate = read_cert(alloc, text)?;
    judge_written(rt, alloc, &certificate, text)
}

#[test]
fn writes_what_it_read(rt: HostRuntime) -> Result<(), Fail> {
    let alloc = rt.alloc();
    judge_text(&rt, alloc, SIX_LEVELS)?;
    judge_text(&rt, alloc, CUT)?;
    judge_text(&rt, alloc, UNFINISHED)?;
    judge_text(&rt, alloc, LARGEST_NUMBERS)
}

// The first line behind the line feeds of a front is at fault.
#[test]
fn reads_no_front_of_a_text(rt: HostRuntime) -> Result<(), Fail> {
    let alloc = rt.alloc();
    let mut line: u64 = 1;
    for (size, byte) in SIX_LEVELS.iter().enumerate() {
        let kind = LineKind::Text;
        let fault = TextFault::Line(LineFault { line, kind });
        assert!(rt; read_cert(alloc, &SIX_LEVELS[..size]).err() == Some(fault));
        if *byte == b'\n' {
            line = line.saturating_add(1);
        }
    }
    Ok(())
}
