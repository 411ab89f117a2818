ghost use Rattle.std.specs.Prelude.{◌≡◌, []};

use packing_model::Point;
use std::alloc::Global;
use values::Items;

/// What [`node_bound::bound_at`] answered at a node on which the tree was branched: a point that meets the
/// rows of the node, the counts of numbers that did not fit before and after, or the pivots that were spent.
#[derive(Drop)]
pub enum Cause {
    Gap(Point),
    Wide { before: u64, after: u64 },
    Stalled { pivots: u64 },
}

/// A branch that was made: its level, its place in the level's tree and its pattern; how many cuts there were
/// and what the choice that was held weighed at the level, both when its cause was answered. There is no
/// value where no choice was held.
#[derive(Drop)]
pub struct Unit {
    pub level: u32,
    pub node: u32,
    pub pattern: u32,
    pub cuts: u32,
    pub value: Option<i64>,
    pub cause: Cause,
}

/// Where a cut was found: the level and the place of the node, what the choice that was held weighed, and
/// the point of the node, which the cut breaks.
#[derive(Drop)]
pub struct CutNote {
    pub level: u32,
    pub node: u32,
    pub value: Option<i64>,
    pub point: Point,
}

/// What a search did: its branches, and a note for each cut that it found, both in the order in which they
/// were made.
#[derive(Drop)]
pub struct Log {
    pub units: Items<Unit>,
    pub cuts: Items<CutNote>,
}

impl Log {
    /// Nothing done.
    pub fn new(alloc: Global) -> Log
        ensures units { result.units ≡ [] }
        ensures cuts { result.cuts ≡ [] }
    {
        Log {
            units: Items::new(alloc),
            cuts: Items::new(alloc),
        }
    }
}
