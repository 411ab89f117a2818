use values::Items;

/// A point over the patterns: entries by rising pattern, each over the positive denominator; a pattern
/// that is not listed has 0.
#[derive(Drop)]
pub struct Point {
    pub den: i128,
    pub entries: Items<(u32, i128)>,
}
