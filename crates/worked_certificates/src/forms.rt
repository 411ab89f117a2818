use cert_text::{Certificate, plain, read_cert, share, write_cert};
use input_core::{LineFault, LineKind, TextFault};
use std::alloc::Global;
use std::process::Abort;
use std::test::Fail;

/// Of one meeting in one room: six levels that close at their root.
const PLAIN: &str =
    "rooms-certificate 1\nmodel 1 2\nchoice 1 1\nvalues 1 10 500 0 -1 0\ncuts 0\nlevel 1\nleaf 1 1 b0 1\nlevel 2\nleaf 1 1 b0 10\nlevel 3\nleaf 1 1 b0 500\nlevel 4\nleaf 1 0\nlevel 5\nleaf 1 1 l1 -1\nlevel 6\nleaf 1 0\nend 6\n";

/// The same with its last leaf named by the number of an earlier one.
const SHARED: &str =
    "rooms-certificate 2\nmodel 1 2\nchoice 1 1\nvalues 1 10 500 0 -1 0\ncuts 0\nlevel 1\nleaf 1 1 b0 1\nlevel 2\nleaf 1 1 b0 10\nlevel 3\nleaf 1 1 b0 500\nlevel 4\nleaf 1 0\nlevel 5\nleaf 1 1 l1 -1\nlevel 6\nsame 3\nend 6\n";

/// Leaves of an unfinished tree are numbered on.
const PLAIN_LOOSE: &str =
    "rooms-certificate 1\nmodel 1 2\nchoice 0\nvalues 0 0 0 0 0 0\ncuts 0\nlevel 1\nbranch 0\nleaf 0 0\nleaf 0 0\nunfinished 2\nbranch 0\nbranch 0\nleaf 1 0\nopen\nbranch 0\nleaf 1 0\nleaf 0 0\nend 1\n";

const SHARED_LOOSE: &str =
    "rooms-certificate 2\nmodel 1 2\nchoice 0\nvalues 0 0 0 0 0 0\ncuts 0\nlevel 1\nbranch 0\nleaf 0 0\nsame 0\nunfinished 2\nbranch 0\nbranch 0\nleaf 1 0\nopen\nbranch 0\nsame 1\nsame 0\nend 1\n";

const OPENING: &str = "model 1 2\nchoice 0\nvalues 0 0 0 0 0 0\ncuts 0\n";

/// That the certificate is written so.
fn judge_written(
    rt: &impl Abort,
    alloc: Global,
    certificate: &Certificate,
    text: &str,
) -> Result<(), Fail> {
    let written = write_cert(alloc, certificate)?;
    assert!(rt; written.as_slice() == text.as_bytes());
    Ok(())
}

/// That the text is read, written again, and has this text in version 2 and that in version 1.
fn judge_forms(
    rt: &impl Abort,
    alloc: Global,
    text: &str,
    shared_text: &str,
    plain_text: &str,
) -> Result<(), Fail> {
    let certificate = read_cert(alloc, text.as_bytes())?;
    judge_written(rt, alloc, &certificate, text)?;
    judge_written(rt, alloc, &share(alloc, &certificate)?, shared_text)?;
    judge_written(rt, alloc, &plain(alloc, &certificate)?, plain_text)
}

#[test]
fn has_both_forms(rt: HostRuntime) -> Result<(), Fail> {
    let alloc = rt.alloc();
    judge_forms(&rt, alloc, PLAIN, SHARED, PLAIN)?;
    judge_forms(&rt, alloc, SHARED, SHARED, PLAIN)?;
    judge_forms(&rt, alloc, PLAIN_LOOSE, SHARED_LOOSE, PLAIN_LOOSE)?;
    judge_forms(&rt, alloc, SHARED_LOOSE, SHARED_LOOSE, PLAIN_LOOSE)
}

/// A first line and the lines behind the cuts, with the line at fault, where there is one.
struct Case {
    head: &'static str,
    levels: &'static str,
    line: Option<u64>,
}

const CASES: [Case; 17] = [
    Case {
        head: "rooms-certificate 1\n",
        levels: "level 1\nleaf 0 0\nend 1\n",
        line: None,
    },
    Case {
        head: "rooms-certificate 1\n",
        levels: "level 1\nbranch 0\nleaf 0 0\nleaf 0 0\nend 1\n",
        line: None,
    },
    Case {
        head: "rooms-certificate 1\n",
        levels: "level 1\nbranch 0\nleaf 0 0\nsame 0\nend 1\n",
        line: Some(9),
    },
    Case {
        head: "rooms-certificate 2\n",
        levels: "level 1\nbranch 0\nleaf 0 0\nsame 0\nend 1\n",
        line: None,
    },
    Case {
        head: "rooms-certificate 2\n",
        levels: "level 1\nbranch 0\nleaf 0 0\nleaf 0 0\nend 1\n",
        line: Some(9),
    },
    Case {
        head: "rooms-certificate 2\n",
        levels: "level 1\nbranch 0\nleaf 0 0\nsame 1\nend 1\n",
        line: Some(9),
    },
    Case {
        head: "rooms-certificate 2\n",
        levels: "level 1\nbranch 0\nsame 0\nleaf 0 0\nend 1\n",
        line: Some(8),
    },
    Case {
        head: "rooms-certificate 2\n",
        levels: "level 1\nsame 0\nend 1\n",
        line: Some(7),
    },
    Case {
        head: "rooms-certificate 2\n",
        levels: "level 1\nleaf 0 0\nlevel 2\nsame 0\nend 2\n",
        line: None,
    },
    Case {
        head: "rooms-certificate 2\n",
        levels: "level 1\nleaf 0 0\nlevel 2\nsame 00\nend 2\n",
        line: Some(9),
    },
    Case {
        head: "rooms-certificate 2\n",
        levels: "level 1\nleaf 0 0\nlevel 2\nsame 18446744073709551616\nend 2\n",
        line: Some(9),
    },
    Case {
        head: "rooms-certificate 2\n",
        levels: "level 1\nleaf 0 0\nlevel 2\nsame 0 0\nend 2\n",
        line: Some(9),
    },
    Case {
        head: "rooms-certificate 2\n",
        levels: "level 1\nleaf 0 0\nunfinished 2\nsame 0\nend 1\n",
        line: Some(9),
    },
    Case {
        head: "rooms-certificate 2\n",
        levels: "level 1\nleaf 0 0\nunfinished 2\nbranch 0\nopen\nsame 0\nend 1\n",
        line: None,
    },
    Case {
        head: "rooms-certificate 3\n",
        levels: "end 0\n",
        line: Some(1),
    },
    Case {
        head: "rooms-certificate 0\n",
        levels: "end 0\n",
        line: Some(1),
    },
    Case {
        head: "rooms-certificate 02\n",
        levels: "end 0\n",
        line: Some(1),
    },
];

fn judge_case(rt: &impl Abort, alloc: Global, case: &Case) -> Result<(), Fail> {
    let mut text = String::from_str(alloc, case.head)?;
    text.push_str(OPENING)?;
    text.push_str(case.levels)?;
    let found = match read_cert(alloc, text.as_bytes()) {
        Ok(_) => None,
        Err(
            TextFault::Line(
                LineFault {
                    line,
                    kind: LineKind::Text,
                },
            ),
        ) => Some(line),
        Err(_) => Some(0),
    };
    assert!(rt; found == case.line);
    Ok(())
}

#[test]
fn reads_exactly_the_texts(rt: HostRuntime) -> Result<(), Fail> {
    let alloc = rt.alloc();
    for case in &CASES {
        judge_case(&rt, alloc, case)?;
    }
    Ok(())
}

// The first line behind the line feeds of a front is at fault.
#[test]
fn reads_no_front_of_a_shared_text(rt: HostRuntime) -> Result<(), Fail> {
    let alloc = rt.alloc();
    let mut line: u64 = 1;
    for (size, byte) in SHARED.as_bytes().iter().enumerate() {
        let kind = LineKind::Text;
        let fault = TextFault::Line(LineFault { line, kind });
        assert!(rt; read_cert(alloc, &SHARED.as_bytes()[..size]).err() == Some(fault));
        if *byte == b'\n' {
            line = line.saturating_add(1);
        }
    }
    Ok(())
}
