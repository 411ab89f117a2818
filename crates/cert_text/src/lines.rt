use duality::Node;
use values::Items;

/// A line of a certificate, in the order in which the lines stand: the head with the version, the numbers
/// of patterns and of base rows, the choice, the six values, the number of cuts and the cuts, then for each finished
/// level its number and the nodes of its tree, then perhaps an unfinished level, and the end with the
/// number of finished levels.
#[derive(Drop)]
pub enum CertLine {
    Head { version: u32 },
    Sizes { patterns: u32, rows: u32 },
    Choice(Items<u32>),
    Values([i64; 6]),
    Cuts(u32),
    Cut(Items<u32>),
    Level(u32),
    Unfinished(u32),
    Node(Node),
    End(u32),
}

/// A tree as its nodes in preorder: a branch, then the part with its pattern left out, then the part with
/// it taken.
#[derive(Drop)]
pub struct Tree {
    pub nodes: Items<Node>,
}

/// A certificate: the version of its text, the numbers of patterns and of base rows that it speaks of, a
/// choice with its six values, the cuts, one tree a finished level, and perhaps the tree of the level that
/// was not finished. In version 2 a node may name an earlier leaf by its number among the leaves, which are
/// numbered from 0 over all trees, and no two leaves are equal; in version 1 no node does.
#[derive(Drop)]
pub struct Certificate {
    pub version: u32,
    pub patterns: u32,
    pub rows: u32,
    pub choice: Items<u32>,
    pub values: [i64; 6],
    pub cuts: Items<Items<u32>>,
    pub levels: Items<Tree>,
    pub unfinished: Option<Tree>,
}
