// The sides of a model.

/// A single limit of a row, or a single bound of a column.
#[derive(Clone, Copy, Debug, PartialEq, Eq)]
pub struct Side {
    /// Whether it is of a row.
    pub row: bool,
    /// The number of the row or the column, counted from 0.
    pub at: u32,
    /// Whether it is the upper one.
    pub upper: bool,
}
