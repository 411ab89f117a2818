ghost use Rattle.std.specs.Prelude.{◌≡◌, ◌<◌, ◌≤◌, ◌+◌, ◌^◌, [], ◌∷◌, ◌++◌, length, IfOk, OnOk, IfErr, MatchOption, MatchResult, Ok, Err};
ghost use Rattle.input_core.specs.declared.faults.LineKind.TheVariants as kinds;
ghost use Rattle.input_core.specs.declared.faults.TextFault.TheVariants as faults;
ghost use Rattle.cert_text.specs.Spelling.{line_text};
ghost use Rattle.cert_text.specs.Text.{IsText, whole_lines, rest_of, begun, steps, takes, read_end};
ghost use Rattle.cert_text.specs.Reading.{state_of, standing_of, IsSoundReader, Took, IsTextFault};
ghost use Rattle.cert_text.specs.Adding.{certificate_with, nodes_with, ended, nodes_after};

use crate::fields::length_to;
use crate::laws::line_laws;
use crate::line::read_line;
use crate::lines::{CertLine, Certificate, Tree};
use crate::named::Named;
use crate::place::{Place, step};
use duality::Node;
use input_core::{LineFault, LineKind, TextFault};
use std::alloc::{AllocError, Global};
use std::mem;
use values::Items;

/// The certificate that the bytes are a text of. `Line` comes exactly for other bytes, and names the first
/// line such that the lines up to it begin no text.
pub fn read_cert(alloc: Global, bytes: &[u8]) -> Result<Certificate, TextFault>
    ensures ok { IfOk result (IsText bytes.now) }
    ensures err { IfErr result (IsTextFault bytes.now) }
{
    let mut reader = Reader::new(alloc);
    let mut rest = bytes;
    let mut number: u64 = 1;
    'lines: while let Some((line, after)) = next_line(rest) {
        if !reader.take_bytes(alloc, line)? {
            return Err(fault_at(number));
        }
        rest = after;
        number += 1;
    }
    reader.finish(number, rest)
}

/// The fault of a line of a text.
pub fn fault_at(line: u64) -> TextFault
    ensures { result ≡ faults.Line (record { line = line; kind = kinds.Text }) }
{
    TextFault::Line(LineFault {
        line,
        kind: LineKind::Text,
    })
}

/// The first whole line of the bytes without its line feed, and what follows it; `None` where there is no
/// line feed.
pub fn next_line(bytes: &[u8]) -> Option<(&[u8], &[u8])>
    ensures { MatchOption result ((whole_lines bytes.now ≡ []) × (rest_of bytes.now ≡ bytes.now))
        (λ p. (whole_lines bytes.now ≡ p.0.now ∷ whole_lines p.1.now) × (rest_of bytes.now ≡ rest_of p.1.now) × (length p.1.now < length bytes.now)) }
{
    let size = length_to(bytes, b'\n');
    if size == bytes.len() {
        return None;
    }
    let (line, _) = bytes.split_at(size);
    let (_, after) = bytes.split_at(size + 1);
    Some((line, after))
}

/// What was read of a certificate, the place of the next line, and the leaf lines that may be named.
#[derive(Drop)]
pub struct Reader {
    pub place: Place,
    pub certificate: Certificate,
    pub nodes: Items<Node>,
    pub named: Named,
}

impl Reader {
    fn new(alloc: Global) -> Reader
        ensures begun { standing_of result ≡ begun }
        ensures sound { IsSoundReader result }
        ensures none { result.nodes ≡ [] }
    {
        Reader {
            place: Place::Head,
            certificate: Certificate {
                version: 0,
                patterns: 0,
                rows: 0,
                choice: Items::new(alloc),
                values: [0; 6],
                cuts: Items::new(alloc),
                levels: Items::new(alloc),
                unfinished: None,
            },
            nodes: Items::new(alloc),
            named: Named::new(alloc),
        }
    }

    // Takes a line by its bytes, and says whether it may come.
    fn take_bytes(&mut self, alloc: Global, line: &[u8]) -> Result<bool, AllocError>
        requires sound { IsSoundReader self.old }
        requires few { length self.old.nodes < 2 ^ 63 }
        ensures took { IfOk result (Took (takes (standing_of self.old) line.now) (standing_of self.new)) }
        ensures sound { OnOk result (IsSoundReader self.new) }
        ensures few { OnOk result (length self.new.nodes ≤ length self.old.nodes + 1) }
    {
        line_laws();
        match read_line(alloc, line)? {
            Some(read) => self.take(alloc, read, line),
            None => Ok(false),
        }
    }

    // Takes a line, which the bytes spell, and says whether it may come.
    fn take(&mut self, alloc: Global, line: CertLine, bytes: &[u8]) -> Result<bool, AllocError>
        requires sound { IsSoundReader self.old }
        requires spelled { bytes.now ≡ line_text line }
        requires few { length self.old.nodes < 2 ^ 63 }
        ensures took { IfOk result (Took (steps (standing_of self.old) line) (standing_of self.new)) }
        ensures sound { OnOk result (IsSoundReader self.new) }
        ensures few { OnOk result (length self.new.nodes ≤ length self.old.nodes + 1) }
    {
        match step(self.place, &line) {
            Some(place) => {
                if !self.named.take(alloc, &line, bytes)? {
                    return Ok(false);
                }
                self.add(alloc, line, place)?;
                Ok(true)
            }
            None => Ok(false),
        }
    }

    // Adds a line behind which the place is the one given.
    fn add(&mut self, alloc: Global, line: CertLine, place: Place) -> Result<(), AllocError>
        ensures named { OnOk result (self.new.named ≡ self.old.named) }
        ensures place { OnOk result (self.new.place ≡ place) }
        ensures certificate { OnOk result (self.new.certificate ≡ certificate_with line place self.old.certificate self.old.nodes) }
        ensures nodes { OnOk result (self.new.nodes ≡ nodes_with line place self.old.nodes) }
    {
        self.place = place;
        match line {
            CertLine::Head { version } => self.certificate.version = version,
            CertLine::Sizes { patterns, rows } => {
                self.certificate.patterns = patterns;
                self.certificate.rows = rows;
            }
            CertLine::Choice(entries) => self.certificate.choice = entries,
            CertLine::Values(values) => self.certificate.values = values,
            CertLine::Cut(patterns) => self.certificate.cuts.push(patterns)?,
            CertLine::Level(_) | CertLine::Unfinished(_) => self.nodes = Items::new(alloc),
            CertLine::Node(node) => self.add_node(alloc, node, place)?,
            CertLine::Cuts(_) | CertLine::End(_) => {}
        }
        Ok(())
    }

    // Adds a node, and ends the tree where the place says so.
    fn add_node(&mut self, alloc: Global, node: Node, place: Place) -> Result<(), AllocError>
        ensures named { OnOk result (self.new.named ≡ self.old.named) }
        ensures place { OnOk result (self.new.place ≡ self.old.place) }
        ensures certificate { OnOk result (self.new.certificate ≡ ended place (self.old.nodes ++ node ∷ []) self.old.certificate) }
        ensures nodes { OnOk result (self.new.nodes ≡ nodes_after place (self.old.nodes ++ node ∷ [])) }
    {
        self.nodes.push(node)?;
        match place {
            Place::Between { .. } => {
                let tree = self.tree(alloc);
                self.certificate.levels.push(tree)?;
            }
            Place::After { .. } => {
                let tree = self.tree(alloc);
                self.certificate.unfinished = Some(tree);
            }
            _ => {}
        }
        Ok(())
    }

    // The nodes of the tree, which are taken out.
    fn tree(&mut self, alloc: Global) -> Tree
        ensures tree { result.nodes ≡ self.old.nodes }
        ensures nodes { self.new.nodes ≡ [] }
        ensures place { self.new.place ≡ self.old.place }
        ensures certificate { self.new.certificate ≡ self.old.certificate }
        ensures named { self.new.named ≡ self.old.named }
    {
        let nodes = mem::replace(&mut self.nodes, Items::new(alloc));
        Tree { nodes }
    }

    // The certificate, where the text is whole and nothing stands behind it.
    fn finish(self, number: u64, rest: &[u8]) -> Result<Certificate, TextFault>
        ensures { MatchResult result (λ c. read_end (state_of self) number rest.now ≡ Ok c) (λ e. (read_end (state_of self) number rest.now ≡ Err number) × (e ≡ faults.Line (record { line = number; kind = kinds.Text }))) }
    {
        if !rest.is_empty() {
            return Err(fault_at(number));
        }
        match self.place {
            Place::Over { .. } => Ok(self.certificate),
            _ => Err(fault_at(number)),
        }
    }
}
