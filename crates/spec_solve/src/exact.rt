// How an exact solve ends, whose numbers may have any width.

use spec_check::{Certificate, Known};

/// From where an exact solve found its answer. The count is of the pivots and flips that were made, and promises
/// nothing.
#[derive(Clone, Copy)]
pub enum Origin {
    /// Without a basis.
    Cold,
    /// From the basis that was handed to the solve.
    Warm(u64),
    /// Without it, though one was handed.
    Fell(u64),
}

/// An answer of an exact solve, over the types F of numbers, L of lists of numbers and B of bases.
#[derive(Drop)]
pub struct ExactAnswer<F, L, B> {
    pub known: Known<F>,
    /// The certificate that was accepted for it.
    pub certificate: Certificate<L>,
    /// One at which the certificate stands, where there is one.
    pub basis: Option<B>,
    pub origin: Origin,
}

/// How an exact solve ends: with an answer, or without one.
#[derive(Drop)]
pub enum ExactEnd<F, L, B> {
    Answered(ExactAnswer<F, L, B>),
    /// Nothing is known.
    Open,
}
