// Where a column of a tableau stands, and which way a column moves.

/// A basic column has the value that the rows give it; any other one is at a bound, or at 0 where it has none.
#[derive(Clone, Copy)]
pub enum Status {
    Basic,
    AtLower,
    AtUpper,
    /// At 0, without bounds.
    AtZero,
}

/// The way in which an entering column moves.
#[derive(Clone, Copy)]
pub enum Way {
    Up,
    Down,
}
