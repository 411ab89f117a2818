ghost use Rattle.std.specs.Prelude.{◌≡◌, true, map, IfOk, OnOk};
ghost use Rattle.duality.specs.declared.leaf.Node.TheVariants as nodes;
ghost use Rattle.cert_text.specs.Grammar.{is_writable};
ghost use Rattle.cert_text.specs.Sharing.{share, plain, shared_node, lines_with, shared_nodes, lines_after, shared_trees, lines_behind, shared_last, last_lines, plain_node, plain_nodes, plain_trees, plain_last, leaves_with, leaves_after, leaves_behind};

use crate::leaf_lines::LeafLines;
use crate::lines::{Certificate, Tree};
use crate::writer::leaf_text;
use duality::{Leaf, Node};
use input_core::Memory;
use std::alloc::{AllocError, Global};
use values::Items;

/// The certificate in version 2: each leaf with the scale and the terms of an earlier leaf is named by the
/// number that the first such leaf has among the leaves that are left. It has the same plain form.
pub fn share(alloc: Global, c: &Certificate) -> Result<Certificate, Memory>
    requires { is_writable c.now ≡ true }
    ensures share { IfOk result (λ d. d ≡ share c.now) }
    ensures writable { IfOk result (λ d. is_writable d ≡ true) }
{
    let mut lines = LeafLines::new(alloc);
    let levels = shared_trees(alloc, &mut lines, c.levels.as_slice())?;
    let unfinished = shared_last(alloc, &mut lines, &c.unfinished)?;
    let _few = lines.len();
    with_trees(alloc, c, 2, levels, unfinished)
}

/// The certificate in version 1: each node that names a leaf is that leaf.
pub fn plain(alloc: Global, c: &Certificate) -> Result<Certificate, Memory>
    requires { is_writable c.now ≡ true }
    ensures plain { IfOk result (λ d. d ≡ plain c.now) }
    ensures writable { IfOk result (λ d. is_writable d ≡ true) }
{
    let mut leaves = Items::new(alloc);
    let levels = plain_trees(alloc, &mut leaves, c.levels.as_slice())?;
    let unfinished = plain_last(alloc, &mut leaves, &c.unfinished)?;
    with_trees(alloc, c, 1, levels, unfinished)
}

// A copy with another version and other trees.
fn with_trees(
    alloc: Global,
    c: &Certificate,
    version: u32,
    levels: Items<Tree>,
    unfinished: Option<Tree>,
) -> Result<Certificate, Memory>
    ensures { IfOk result (λ d. d ≡ record c.now { version = version; levels = levels; unfinished = unfinished }) }
{
    let choice = Items::from_slice(alloc, c.choice.as_slice())?;
    let cuts = copied_cuts(alloc, c.cuts.as_slice())?;
    Ok(Certificate {
        version,
        patterns: c.patterns,
        rows: c.rows,
        choice,
        values: c.values,
        cuts,
        levels,
        unfinished,
    })
}

fn copied_cuts(alloc: Global, cuts: &[Items<u32>]) -> Result<Items<Items<u32>>, AllocError>
    ensures { IfOk result (λ copy. copy ≡ cuts.now) }
{
    let mut copy = Items::new(alloc);
    for cut in cuts {
        copy.push(Items::from_slice(alloc, cut.as_slice())?)?;
    }
    Ok(copy)
}

fn shared_trees(alloc: Global, lines: &mut LeafLines, trees: &[Tree]) -> Result<Items<Tree>, Memory>
    ensures trees { IfOk result (λ ts. ts ≡ shared_trees lines.old trees.now) }
    ensures lines { OnOk result (lines.new ≡ lines_behind lines.old trees.now) }
{
    let mut shared = Items::new(alloc);
    for tree in trees {
        let nodes = shared_nodes(alloc, lines, tree.nodes.as_slice())?;
        shared.push(Tree { nodes })?;
    }
    Ok(shared)
}

fn shared_last(
    alloc: Global,
    lines: &mut LeafLines,
    tree: &Option<Tree>,
) -> Result<Option<Tree>, Memory>
    ensures tree { IfOk result (λ t. t ≡ shared_last lines.old tree.now) }
    ensures lines { OnOk result (lines.new ≡ last_lines lines.old tree.now) }
{
    match tree {
        Some(tree) => {
            let nodes = shared_nodes(alloc, lines, tree.nodes.as_slice())?;
            Ok(Some(Tree { nodes }))
        }
        None => Ok(None),
    }
}

fn shared_nodes(alloc: Global, lines: &mut LeafLines, nodes: &[Node]) -> Result<Items<Node>, Memory>
    ensures nodes { IfOk result (λ ns. ns ≡ shared_nodes lines.old nodes.now) }
    ensures lines { OnOk result (lines.new ≡ lines_after lines.old nodes.now) }
{
    let mut shared = Items::new(alloc);
    for node in nodes {
        shared.push(shared_node(alloc, lines, node)?)?;
    }
    Ok(shared)
}

fn shared_node(alloc: Global, lines: &mut LeafLines, node: &Node) -> Result<Node, Memory>
    ensures node { IfOk result (λ n. n ≡ shared_node lines.old node.now) }
    ensures lines { OnOk result (lines.new ≡ lines_with lines.old node.now) }
{
    match node {
        Node::Branch(pattern) => Ok(Node::Branch(*pattern)),
        Node::Leaf(leaf) => shared_leaf(alloc, lines, leaf),
        Node::OpenEnd => Ok(Node::OpenEnd),
        Node::Same(leaf) => Ok(Node::Same(*leaf)),
    }
}

// The leaf, or the number of the line that it has already.
fn shared_leaf(alloc: Global, lines: &mut LeafLines, leaf: &Leaf) -> Result<Node, Memory>
    ensures node { IfOk result (λ n. n ≡ shared_node lines.old (nodes.Leaf leaf.now)) }
    ensures lines { OnOk result (lines.new ≡ lines_with lines.old (nodes.Leaf leaf.now)) }
{
    let line = leaf_text(alloc, leaf)?;
    if let Some(number) = lines.find(line.as_slice()) {
        return Ok(Node::Same(number as u64));
    }
    lines.add(line)?;
    Ok(Node::Leaf(copied_leaf(alloc, leaf)?))
}

fn copied_leaf(alloc: Global, leaf: &Leaf) -> Result<Leaf, AllocError>
    ensures { IfOk result (λ copy. copy ≡ leaf.now) }
{
    let terms = Items::from_slice(alloc, leaf.terms.as_slice())?;
    Ok(Leaf {
        scale: leaf.scale,
        terms,
    })
}

fn plain_trees<'a>(
    alloc: Global,
    leaves: &mut Items<&'a Leaf>,
    trees: &'a [Tree],
) -> Result<Items<Tree>, Memory>
    ensures trees { IfOk result (λ ts. ts ≡ plain_trees (map (λ leaf. leaf.now) leaves.old) trees.now) }
    ensures leaves { OnOk result (map (λ leaf. leaf.now) leaves.new ≡ leaves_behind (map (λ leaf. leaf.now) leaves.old) trees.now) }
{
    let mut plain = Items::new(alloc);
    for tree in trees {
        let nodes = plain_nodes(alloc, leaves, tree.nodes.as_slice())?;
        plain.push(Tree { nodes })?;
    }
    Ok(plain)
}

fn plain_last<'a>(
    alloc: Global,
    leaves: &mut Items<&'a Leaf>,
    tree: &'a Option<Tree>,
) -> Result<Option<Tree>, Memory>
    ensures { IfOk result (λ t. t ≡ plain_last (map (λ leaf. leaf.now) leaves.old) tree.now) }
{
    match tree {
        Some(tree) => {
            let nodes = plain_nodes(alloc, leaves, tree.nodes.as_slice())?;
            Ok(Some(Tree { nodes }))
        }
        None => Ok(None),
    }
}

fn plain_nodes<'a>(
    alloc: Global,
    leaves: &mut Items<&'a Leaf>,
    nodes: &'a [Node],
) -> Result<Items<Node>, Memory>
    ensures nodes { IfOk result (λ ns. ns ≡ plain_nodes (map (λ leaf. leaf.now) leaves.old) nodes.now) }
    ensures leaves { OnOk result (map (λ leaf. leaf.now) leaves.new ≡ leaves_after (map (λ leaf. leaf.now) leaves.old) nodes.now) }
{
    let mut plain = Items::new(alloc);
    for node in nodes {
        plain.push(plain_node(alloc, leaves, node)?)?;
    }
    Ok(plain)
}

fn plain_node<'a>(
    alloc: Global,
    leaves: &mut Items<&'a Leaf>,
    node: &'a Node,
) -> Result<Node, Memory>
    ensures node { IfOk result (λ n. n ≡ plain_node (map (λ leaf. leaf.now) leaves.old) node.now) }
    ensures leaves { OnOk result (map (λ leaf. leaf.now) leaves.new ≡ leaves_with (map (λ leaf. leaf.now) leaves.old) node.now) }
{
    match node {
        Node::Branch(pattern) => Ok(Node::Branch(*pattern)),
        Node::Leaf(leaf) => {
            leaves.push(leaf)?;
            Ok(Node::Leaf(copied_leaf(alloc, leaf)?))
        }
        Node::OpenEnd => Ok(Node::OpenEnd),
        Node::Same(leaf) => named_leaf(alloc, leaves.as_slice(), *leaf),
    }
}

// The leaf with a number, where there is one.
fn named_leaf(alloc: Global, leaves: &[&Leaf], number: u64) -> Result<Node, Memory>
    ensures { IfOk result (λ n. n ≡ plain_node (map (λ leaf. leaf.now) leaves.now) (nodes.Same number)) }
{
    match leaves.get(number as usize) {
        Some(leaf) => Ok(Node::Leaf(copied_leaf(alloc, leaf)?)),
        None => Ok(Node::Same(number)),
    }
}
