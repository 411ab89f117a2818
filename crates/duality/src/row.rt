/// The level number under which the floor of an objective is a row.
pub const FLOOR_LEVEL: u32 = 7;

/// A row by its name: a base row or a cut, which say "at most one of these patterns", or a level row,
/// which says "what the patterns weigh at that level is its value". `Level(FLOOR_LEVEL)` is the floor
/// of an objective that has one.
#[derive(Clone, Copy, PartialEq, Eq)]
pub enum RowName {
    Base(u32),
    Cut(u32),
    Level(u32),
}

/// A row and its multiplier.
#[derive(Clone, Copy)]
pub struct Term {
    pub row: RowName,
    pub times: i128,
}

/// Base rows one after the other: `count` of them, from number `first` on.
#[derive(Clone, Copy, PartialEq, Eq)]
pub struct Run {
    pub first: u32,
    pub count: u32,
}
