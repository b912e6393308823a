// Ranges, over the type F of numbers.

/// The numbers from `low` to `high`, both included. An end that is absent limits nothing.
#[derive(Clone, Copy)]
pub struct Ends<F> {
    pub low: Option<F>,
    pub high: Option<F>,
}

/// The numbers in place of one cost or one right side of a model with which a basis stays optimal, and how the optimal
/// value grows among them.
#[derive(Clone, Copy)]
pub struct Range<F> {
    pub ends: Ends<F>,
    /// By how much the optimal value grows with each unit of the number.
    pub slope: F,
}
