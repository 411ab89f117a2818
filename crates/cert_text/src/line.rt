ghost use Rattle.std.specs.Prelude.{◌≡◌, IfOk, None, Some, option_map};
ghost use Rattle.cert_text.specs.declared.lines.CertLine.TheVariants as lines;
ghost use Rattle.cert_text.specs.Numbers.{each_of};
ghost use Rattle.cert_text.specs.Spelling.{small_number, only_number, pair_of, counted_of, as_many, leaf_number, open_line, node_line, level_line, first_line, line_of, bounded};

use crate::bounds::in_bounds;
use crate::fields::Fields;
use crate::leaf_line::{read_leaf, read_values};
use crate::line_rest::LINE_LIMIT;
use crate::lines::CertLine;
use crate::number::{read_small, read_up_to, read_wide};
use duality::Node;
use std::alloc::{AllocError, Global};
use values::Items;

/// The line of a certificate that the bytes spell, without their line feed; `None` where they are no line. Bytes that
/// are too many for a line are not looked at.
pub fn read_line(alloc: Global, line: &[u8]) -> Result<Option<CertLine>, AllocError>
    ensures { IfOk result (λ l. l ≡ line_of line.now) }
{
    if line.len() > LINE_LIMIT {
        return Ok(None);
    }
    let mut fields = Fields::new(line);
    match fields.next() {
        None => Ok(None),
        Some(word) => {
            let line = read_node_line(alloc, word, &mut fields)?;
            Ok(bounded(line))
        }
    }
}

fn bounded(line: Option<CertLine>) -> Option<CertLine>
    ensures { result ≡ bounded line }
{
    match line {
        Some(line) => { if in_bounds(&line) { Some(line) } else { None } }
        None => None,
    }
}

// The lines of a tree and the cuts.
fn read_node_line(
    alloc: Global,
    word: &[u8],
    fields: &mut Fields,
) -> Result<Option<CertLine>, AllocError>
    ensures { IfOk result (λ l. l ≡ node_line word.now fields.old (level_line word.now fields.old (first_line word.now fields.old None))) }
{
    if word == b"branch".as_slice() {
        return Ok(only_number(fields).map(|p| CertLine::Node(Node::Branch(p))));
    }
    if word == b"leaf".as_slice() {
        return Ok(read_leaf(alloc, fields)?.map(|leaf| CertLine::Node(Node::Leaf(leaf))));
    }
    if word == b"same".as_slice() {
        return Ok(leaf_number(fields).map(|leaf| CertLine::Node(Node::Same(leaf))));
    }
    if word == b"open".as_slice() {
        return Ok(open_line(fields));
    }
    if word == b"cut".as_slice() {
        return Ok(read_counted(alloc, 1_000, fields)?.map(|patterns| CertLine::Cut(patterns)));
    }
    read_level_line(alloc, word, fields)
}

fn open_line(fields: &mut Fields) -> Option<CertLine>
    ensures { result ≡ open_line fields.old }
{
    match fields.next() {
        None => Some(CertLine::Node(Node::OpenEnd)),
        Some(_) => None,
    }
}

// The lines around the trees.
fn read_level_line(
    alloc: Global,
    word: &[u8],
    fields: &mut Fields,
) -> Result<Option<CertLine>, AllocError>
    ensures { IfOk result (λ l. l ≡ level_line word.now fields.old (first_line word.now fields.old None)) }
{
    if word == b"level".as_slice() {
        return Ok(only_number(fields).map(|level| CertLine::Level(level)));
    }
    if word == b"unfinished".as_slice() {
        return Ok(only_number(fields).map(|level| CertLine::Unfinished(level)));
    }
    if word == b"end".as_slice() {
        return Ok(only_number(fields).map(|count| CertLine::End(count)));
    }
    if word == b"cuts".as_slice() {
        return Ok(only_number(fields).map(|count| CertLine::Cuts(count)));
    }
    read_first_line(alloc, word, fields)
}

// The lines at the beginning.
fn read_first_line(
    alloc: Global,
    word: &[u8],
    fields: &mut Fields,
) -> Result<Option<CertLine>, AllocError>
    ensures { IfOk result (λ l. l ≡ first_line word.now fields.old None) }
{
    if word == b"rooms-certificate".as_slice() {
        return Ok(only_number(fields).map(|version| CertLine::Head { version }));
    }
    if word == b"model".as_slice() {
        return Ok(pair_of(fields).map(|pair| CertLine::Sizes {
            patterns: pair.0,
            rows: pair.1,
        }));
    }
    if word == b"choice".as_slice() {
        return Ok(read_counted(alloc, 4_000, fields)?.map(|entries| CertLine::Choice(entries)));
    }
    if word == b"values".as_slice() {
        return Ok(values_line(read_values(alloc, fields)?));
    }
    Ok(None)
}

fn values_line(values: Option<[i64; 6]>) -> Option<CertLine>
    ensures { result ≡ option_map lines.Values values }
{
    match values {
        Some(values) => Some(CertLine::Values(values)),
        None => None,
    }
}

// The number of a leaf line and nothing behind it.
fn leaf_number(fields: &mut Fields) -> Option<u64>
    ensures { result ≡ leaf_number fields.old }
{
    match fields.next() {
        None => None,
        Some(field) => match fields.next() {
            None => read_wide(field),
            Some(_) => None,
        },
    }
}

// One number and nothing behind it.
fn only_number(fields: &mut Fields) -> Option<u32>
    ensures { result ≡ only_number fields.old }
{
    match fields.next() {
        None => None,
        Some(field) => match fields.next() {
            None => read_small(field),
            Some(_) => None,
        },
    }
}

// Two numbers and nothing behind them.
fn pair_of(fields: &mut Fields) -> Option<(u32, u32)>
    ensures { result ≡ pair_of fields.old }
{
    let first = fields.next()?;
    let second = fields.next()?;
    if fields.next().is_some() {
        return None;
    }
    let first = read_small(first)?;
    let second = read_small(second)?;
    Some((first, second))
}

// All fields as numbers.
fn read_numbers(alloc: Global, fields: &mut Fields) -> Result<Option<Items<u32>>, AllocError>
    ensures { IfOk result (λ ns. ns ≡ each_of small_number fields.old) }
{
    let mut numbers = Items::new(alloc);
    while let Some(field) = fields.next() {
        match read_small(field) {
            Some(number) => numbers.push(number)?,
            None => return Ok(None),
        }
    }
    Ok(Some(numbers))
}

// A number up to a limit, and as many more, which are read only where it is one.
fn read_counted(
    alloc: Global,
    limit: u32,
    fields: &mut Fields,
) -> Result<Option<Items<u32>>, AllocError>
    ensures { IfOk result (λ ns. ns ≡ counted_of limit fields.old) }
{
    let Some(field) = fields.next() else {
        return Ok(None);
    };
    let Some(count) = read_up_to(field, limit) else {
        return Ok(None);
    };
    let numbers = read_numbers(alloc, fields)?;
    Ok(as_many(count, numbers))
}

fn as_many(count: u32, numbers: Option<Items<u32>>) -> Option<Items<u32>>
    ensures { result ≡ as_many (Some count) numbers }
{
    let numbers = numbers?;
    if count as usize == numbers.len() {
        Some(numbers)
    } else {
        None
    }
}
