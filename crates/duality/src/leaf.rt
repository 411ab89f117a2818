use crate::row::Term;
use values::Items;

/// A combination of rows: a scale of at least 0 for the weights of the level, and terms in strict order
/// of rows (base rows before cuts before level rows, and by number).
#[derive(Drop)]
pub struct Leaf {
    pub scale: i128,
    pub terms: Items<Term>,
}

/// Why a leaf does not close: the first fault of its terms in their order, where `Row` names a term
/// whose row is not there and `Sign` one that is negative on an "at most" row; else the lowest free
/// pattern whose reduced cost is positive; else the bound.
#[derive(Clone, Copy, PartialEq, Eq)]
pub enum LeafFault {
    Row { at: u32 },
    Sign { at: u32 },
    Cost { pattern: u32 },
    Bound,
}

/// A node of a search tree in preorder: a branch stands before the part in which its pattern is left
/// out, and that before the part in which it is taken. `Same` names an earlier leaf by its number; it ends
/// its part as a leaf does, and by itself it proves nothing.
#[derive(Drop)]
pub enum Node {
    Branch(u32),
    Leaf(Leaf),
    OpenEnd,
    Same(u64),
}
