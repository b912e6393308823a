// How a solve ends, over the type F of numbers, L of lists of numbers and B of bases.

use crate::certificate::{Certificate, Known};
use spec_exact::Past;
use std::fmt::Debug;

/// How a solve ends: with an answer and its certificate, with an operation past the limit, or with its budget spent.
#[derive(Drop)]
pub enum SolveEnd<F: Debug, L, B> {
    /// With an answer, and the certificate that was accepted for it.
    Ended {
        answer: Known<F>,
        certificate: Certificate<L>,
        /// That of an optimal end.
        basis: Option<B>,
        pivots: u64,
    },
    /// With the operation that is past the limit.
    Past(Past<F>),
    /// With as many pivots and flips as the budget has.
    Spent,
}
