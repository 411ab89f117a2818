ghost use Rattle.std.specs.Prelude.{◌≡◌, ◌++◌, ◌∷◌, [], ◌+◌, ◌<◌, ◌^◌, length, map, IfOk, OnOk, decimal};
ghost use Rattle.std.specs.Fmt.{signed_decimal};
ghost use Rattle.duality.specs.declared.leaf.Node.TheVariants as nodes;
ghost use Rattle.cert_text.specs.declared.lines.CertLine.TheVariants as lines;
ghost use Rattle.cert_text.specs.Numbers.{joined};
ghost use Rattle.cert_text.specs.Spelling.{line_text, term_fields, leaf_fields, row_text, counted};
ghost use Rattle.cert_text.specs.Grammar.{blocks, open_block, front, opening_of};
ghost use Rattle.cert_text.specs.Text.{fed, text_of};
ghost use Rattle.cert_text.specs.Writing.{blank_before, lined};
ghost use Rattle.cert_text.specs.Sharing.{leaf_text};

use crate::lines::{Certificate, Tree};
use duality::{Leaf, Node, RowName, Term};
use input_core::Memory;
use itoa::Buffer;
use std::alloc::{AllocError, Global};
use values::Items;

/// The text of a certificate; for one inside the bounds it is the only text that `read_cert` reads as it.
pub fn write_cert(alloc: Global, c: &Certificate) -> Result<Vec<u8>, Memory>
    ensures { IfOk result (λ v. v.items ≡ text_of c.now) }
{
    let mut bytes = Vec::new(alloc);
    write_all(&mut bytes, c)?;
    Ok(bytes)
}

fn write_all(bytes: &mut Vec<u8>, c: &Certificate) -> Result<(), AllocError>
    ensures { OnOk result (bytes.new.items ≡ bytes.old.items ++ text_of c.now) }
{
    write_opening(bytes, c)?;
    write_cuts(bytes, c.cuts.as_slice())?;
    write_levels(bytes, c.levels.as_slice())?;
    write_unfinished(bytes, c.levels.len(), &c.unfinished)?;
    write_single(bytes, b"end", c.levels.len())?;
    Ok(())
}

// The lines before the cuts.
fn write_opening(bytes: &mut Vec<u8>, c: &Certificate) -> Result<(), AllocError>
    ensures { OnOk result (bytes.new.items ≡ bytes.old.items ++ fed (map line_text (lines.Head c.now.version ∷ (lines.Sizes c.now.patterns c.now.rows ∷ (lines.Choice c.now.choice ∷ (lines.Values c.now.values ∷ (lines.Cuts (length c.now.cuts) ∷ []))))))) }
{
    write_single(bytes, b"rooms-certificate", c.version as usize)?;
    write_sizes(bytes, c.patterns, c.rows)?;
    write_counted(bytes, b"choice", c.choice.as_slice())?;
    write_values(bytes, &c.values)?;
    write_single(bytes, b"cuts", c.cuts.len())?;
    Ok(())
}

fn write_sizes(bytes: &mut Vec<u8>, patterns: u32, rows: u32) -> Result<(), AllocError>
    ensures { OnOk result (bytes.new.items ≡ bytes.old.items ++ lined (line_text (lines.Sizes patterns rows))) }
{
    bytes.extend_from_slice(b"model")?;
    write_natural(bytes, patterns as usize)?;
    write_natural(bytes, rows as usize)?;
    bytes.push(b'\n')?;
    Ok(())
}

// A word and one number.
fn write_single(bytes: &mut Vec<u8>, word: &[u8], number: usize) -> Result<(), AllocError>
    ensures { OnOk result (bytes.new.items ≡ bytes.old.items ++ lined (joined 32 (word.now ∷ map decimal (number ∷ [])))) }
{
    bytes.extend_from_slice(word)?;
    write_natural(bytes, number)?;
    bytes.push(b'\n')?;
    Ok(())
}

// A word, the number of numbers, and the numbers.
fn write_counted(bytes: &mut Vec<u8>, word: &[u8], numbers: &[u32]) -> Result<(), AllocError>
    ensures { OnOk result (bytes.new.items ≡ bytes.old.items ++ lined (joined 32 (word.now ∷ counted numbers.now))) }
{
    bytes.extend_from_slice(word)?;
    write_natural(bytes, numbers.len())?;
    write_numbers(bytes, numbers)?;
    bytes.push(b'\n')?;
    Ok(())
}

// Numbers, each behind a blank.
fn write_numbers(bytes: &mut Vec<u8>, numbers: &[u32]) -> Result<(), AllocError>
    ensures { OnOk result (bytes.new.items ≡ bytes.old.items ++ blank_before (map decimal numbers.now)) }
{
    for number in numbers {
        write_natural(bytes, *number as usize)?;
    }
    Ok(())
}

fn write_values(bytes: &mut Vec<u8>, values: &[i64; 6]) -> Result<(), AllocError>
    ensures { OnOk result (bytes.new.items ≡ bytes.old.items ++ lined (line_text (lines.Values values.now))) }
{
    bytes.extend_from_slice(b"values")?;
    write_whole_numbers(bytes, values)?;
    bytes.push(b'\n')?;
    Ok(())
}

fn write_whole_numbers(bytes: &mut Vec<u8>, values: &[i64]) -> Result<(), AllocError>
    ensures { OnOk result (bytes.new.items ≡ bytes.old.items ++ blank_before (map signed_decimal values.now)) }
{
    for value in values {
        write_whole(bytes, i128::from(*value))?;
    }
    Ok(())
}

// A blank and a natural number.
fn write_natural(bytes: &mut Vec<u8>, number: usize) -> Result<(), AllocError>
    ensures { OnOk result (bytes.new.items ≡ bytes.old.items ++ 32 ∷ decimal number) }
{
    let mut buffer = Buffer::new();
    bytes.push(b' ')?;
    bytes.extend_from_slice(buffer.format(number).as_bytes())
}

// A blank and a whole number.
fn write_whole(bytes: &mut Vec<u8>, number: i128) -> Result<(), AllocError>
    ensures { OnOk result (bytes.new.items ≡ bytes.old.items ++ 32 ∷ signed_decimal number) }
{
    let mut buffer = Buffer::new();
    bytes.push(b' ')?;
    bytes.extend_from_slice(buffer.format(number).as_bytes())
}

fn write_cuts(bytes: &mut Vec<u8>, cuts: &[Items<u32>]) -> Result<(), AllocError>
    ensures { OnOk result (bytes.new.items ≡ bytes.old.items ++ fed (map line_text (map lines.Cut cuts.now))) }
{
    for cut in cuts {
        write_counted(bytes, b"cut", cut.as_slice())?;
    }
    Ok(())
}

fn write_levels(bytes: &mut Vec<u8>, levels: &[Tree]) -> Result<(), AllocError>
    ensures { OnOk result (bytes.new.items ≡ bytes.old.items ++ fed (map line_text (blocks 0 levels.now))) }
{
    for (done, tree) in levels.iter().enumerate() {
        write_single(bytes, b"level", done + 1)?;
        write_nodes(bytes, tree.nodes.as_slice())?;
    }
    Ok(())
}

fn write_unfinished(
    bytes: &mut Vec<u8>,
    done: usize,
    unfinished: &Option<Tree>,
) -> Result<(), AllocError>
    requires { done < 2 ^ 63 }
    ensures { OnOk result (bytes.new.items ≡ bytes.old.items ++ fed (map line_text (open_block done unfinished.now))) }
{
    match unfinished {
        Some(tree) => {
            write_single(bytes, b"unfinished", done + 1)?;
            write_nodes(bytes, tree.nodes.as_slice())?;
            Ok(())
        }
        None => Ok(()),
    }
}

fn write_nodes(bytes: &mut Vec<u8>, nodes: &[Node]) -> Result<(), AllocError>
    ensures { OnOk result (bytes.new.items ≡ bytes.old.items ++ fed (map line_text (map lines.Node nodes.now))) }
{
    for node in nodes {
        write_node(bytes, node)?;
    }
    Ok(())
}

fn write_node(bytes: &mut Vec<u8>, node: &Node) -> Result<(), AllocError>
    ensures { OnOk result (bytes.new.items ≡ bytes.old.items ++ lined (line_text (lines.Node node.now))) }
{
    match node {
        Node::Branch(pattern) => write_single(bytes, b"branch", *pattern as usize),
        Node::Leaf(leaf) => write_leaf(bytes, leaf),
        Node::OpenEnd => bytes.extend_from_slice(b"open\n"),
        Node::Same(leaf) => write_single(bytes, b"same", *leaf as usize),
    }
}

fn write_leaf(bytes: &mut Vec<u8>, leaf: &Leaf) -> Result<(), AllocError>
    ensures { OnOk result (bytes.new.items ≡ bytes.old.items ++ lined (line_text (lines.Node (nodes.Leaf leaf.now)))) }
{
    write_leaf_text(bytes, leaf)?;
    bytes.push(b'\n')?;
    Ok(())
}

// A leaf's line without its line feed.
fn write_leaf_text(bytes: &mut Vec<u8>, leaf: &Leaf) -> Result<(), AllocError>
    ensures { OnOk result (bytes.new.items ≡ bytes.old.items ++ leaf_text leaf.now) }
{
    bytes.extend_from_slice(b"leaf")?;
    write_whole(bytes, leaf.scale)?;
    write_natural(bytes, leaf.terms.len())?;
    write_terms(bytes, leaf.terms.as_slice())?;
    Ok(())
}

/// The line of a leaf, without its line feed.
pub fn leaf_text(alloc: Global, leaf: &Leaf) -> Result<Vec<u8>, AllocError>
    ensures { IfOk result (λ v. v.items ≡ leaf_text leaf.now) }
{
    let mut bytes = Vec::new(alloc);
    write_leaf_text(&mut bytes, leaf)?;
    Ok(bytes)
}

fn write_terms(bytes: &mut Vec<u8>, terms: &[Term]) -> Result<(), AllocError>
    ensures { OnOk result (bytes.new.items ≡ bytes.old.items ++ blank_before (term_fields terms.now)) }
{
    for term in terms {
        write_row(bytes, term.row)?;
        write_whole(bytes, term.times)?;
    }
    Ok(())
}

// A blank and the name of a row.
fn write_row(bytes: &mut Vec<u8>, row: RowName) -> Result<(), AllocError>
    ensures { OnOk result (bytes.new.items ≡ bytes.old.items ++ 32 ∷ row_text row) }
{
    let mut buffer = Buffer::new();
    let (letter, number) = match row {
        RowName::Base(row) => (b'b', row),
        RowName::Cut(cut) => (b'c', cut),
        RowName::Level(level) => (b'l', level),
    };
    bytes.push(b' ')?;
    bytes.push(letter)?;
    bytes.extend_from_slice(buffer.format(number).as_bytes())
}
