ghost use Rattle.std.specs.Prelude.{◌≡◌, ◌^◌, IfOk};
ghost use Rattle.duality.specs.declared.leaf.Node.TheVariants as nodes;
ghost use Rattle.cert_text.specs.Spelling.{line_text};
ghost use Rattle.cert_text.specs.declared.lines.CertLine.TheVariants as lines;
ghost use Rattle.cert_text.specs.Sharing.{none_named, named, names, leaf_named, leaf_in, leaf_node, meant_node, meant, TookName};

use crate::leaf_lines::LeafLines;
use crate::line::read_line;
use crate::lines::CertLine;
use duality::Node;
use std::alloc::{AllocError, Global};

/// The version of a text, and the leaf lines that a later line may name by their number: in version 2 all
/// before it, in version 1 none.
#[derive(Drop)]
pub struct Named {
    pub version: u32,
    pub lines: LeafLines,
}

impl Named {
    /// Before the first line.
    pub fn new(alloc: Global) -> Named
        ensures { result ≡ none_named 0 }
    {
        Named {
            version: 0,
            lines: LeafLines::new(alloc),
        }
    }

    /// Takes a line, which the bytes spell, and says whether it may come: a line that names a leaf line is to
    /// name one before it, and in version 2 no leaf line is to be equal to an earlier one.
    pub fn take(&mut self, alloc: Global, line: &CertLine, bytes: &[u8]) -> Result<bool, AllocError>
        requires { bytes.now ≡ line_text line.now }
        ensures { IfOk result (TookName (named self.old line.now) self.new) }
    {
        match line {
            CertLine::Head { version } => {
                self.version = *version;
                self.lines = LeafLines::new(alloc);
                Ok(true)
            }
            CertLine::Node(node) => self.take_node(alloc, node, bytes),
            _ => Ok(true),
        }
    }

    /// The line, or where it names a leaf line, the line that it names.
    pub fn meant(&self, alloc: Global, line: CertLine) -> Result<CertLine, AllocError>
        ensures { IfOk result (λ l. l ≡ meant self.now.lines line) }
    {
        match line {
            CertLine::Node(Node::Same(number)) => {
                let node = self.named_node(alloc, number)?;
                Ok(CertLine::Node(node))
            }
            line => Ok(line),
        }
    }

    // The leaf whose line has the number.
    fn named_node(&self, alloc: Global, number: u64) -> Result<Node, AllocError>
        ensures { IfOk result (λ n. n ≡ meant_node self.now.lines (nodes.Same number)) }
    {
        let Some(line) = self.lines.get(number as usize) else {
            return Ok(Node::Same(number));
        };
        Ok(leaf_node(number, read_line(alloc, line)?))
    }

    fn take_node(&mut self, alloc: Global, node: &Node, bytes: &[u8]) -> Result<bool, AllocError>
        requires { bytes.now ≡ line_text (lines.Node node.now) }
        ensures { IfOk result (TookName (names self.old node.now) self.new) }
    {
        match node {
            Node::Leaf(_) => self.take_leaf(alloc, bytes),
            Node::Same(number) => Ok((*number as usize) < self.lines.len()),
            Node::Branch(_) | Node::OpenEnd => Ok(true),
        }
    }

    fn take_leaf(&mut self, alloc: Global, line: &[u8]) -> Result<bool, AllocError>
        ensures { IfOk result (TookName (leaf_named self.old line.now) self.new) }
    {
        if self.version != 2 {
            return Ok(true);
        }
        self.lines.add(Vec::from_slice(alloc, line)?)
    }
}

fn leaf_node(number: u64, line: Option<CertLine>) -> Node
    ensures { result ≡ leaf_node number (leaf_in line) }
{
    match line {
        Some(CertLine::Node(Node::Leaf(leaf))) => Node::Leaf(leaf),
        _ => Node::Same(number),
    }
}
