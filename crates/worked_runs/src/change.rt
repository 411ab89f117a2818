use std::alloc::{AllocError, Global};

/// Lines in place of those from `first` to `last` of a file, which are numbered from 1; at most so many lines
/// of the file go as it has, and where `last` is before `first` none.
#[derive(Clone, Copy)]
pub struct Change<'a> {
    pub file: &'a str,
    first: u64,
    last: u64,
    /// The new lines with a bar between them, if there are any.
    lines: Option<&'a str>,
}

/// The change that stands as `FILE FIRST LAST|LINE|LINE ..`.
pub fn change_of(text: &str) -> Option<Change<'_>> {
    let (place, lines) = match text.split_once('|') {
        Some((place, lines)) => (place, Some(lines)),
        None => (text, None),
    };
    let mut words = place.split_ascii_whitespace();
    let file = words.next()?;
    let first = words.next()?.parse().ok()?;
    let last = words.next()?.parse().ok()?;
    Some(Change {
        file,
        first,
        last,
        lines,
    })
}

/// The bytes with the change.
pub fn changed(alloc: Global, bytes: &[u8], change: Change) -> Result<Vec<u8>, AllocError> {
    let mut text = Vec::new(alloc);
    let mut number: u64 = 1;
    for line in bytes.split_inclusive(|byte| *byte == b'\n') {
        if number == change.first {
            push_lines(&mut text, change)?;
        }
        if number < change.first || number > change.last {
            text.extend_from_slice(line)?;
        }
        number = number.saturating_add(1);
    }
    if number <= change.first {
        push_lines(&mut text, change)?;
    }
    Ok(text)
}

/// Adds the new lines, each with its line feed.
fn push_lines(text: &mut Vec<u8>, change: Change) -> Result<(), AllocError> {
    let Some(lines) = change.lines else {
        return Ok(());
    };
    for line in lines.split('|') {
        text.extend_from_slice(line.as_bytes())?;
        text.extend_from_slice(b"\n")?;
    }
    Ok(())
}
