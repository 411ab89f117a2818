/// What the slack of a row must be while the row is driven and after it came in force.
#[derive(Clone, Copy)]
pub enum RowState {
    /// Not in force: any value.
    Waiting,
    /// Driven down to 0.
    Above,
    /// Driven up to 0.
    Below,
    /// In force: not negative.
    AtLeast,
    /// In force: 0.
    Zero,
}
