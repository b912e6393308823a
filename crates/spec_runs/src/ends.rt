// How a warm start ends, and by which route a solve does, over the types F of numbers, L of lists of numbers and B of bases.

use spec_check::{Certificate, Known};
use spec_simplex::WarmStop;
use std::fmt::Debug;

/// How a warm start ends.
#[derive(Drop)]
pub enum Warm<F: Debug, L, B> {
    /// With an answer, and the certificate that was accepted for it.
    Ended {
        answer: Known<F>,
        certificate: Certificate<L>,
        /// That of an optimal end.
        basis: Option<B>,
        pivots: u64,
    },
    Stopped(WarmStop<F>),
}

/// Why a solve gave a warm start up.
#[derive(Clone, Copy)]
pub enum Fall {
    /// The basis has no tableau.
    Singular,
    /// Its tableau is neither primal nor dual feasible.
    Unfit,
    /// An operation was past the limit.
    Past,
    /// The budget was spent.
    Spent,
}

/// From where a solve found what it ended with.
#[derive(Clone, Copy)]
pub enum Route {
    /// From the start that each model has: no basis was handed.
    Cold,
    /// From the basis that was handed.
    Warm,
    /// From the start that each model has, with the whole budget again, since the warm start stopped.
    Fell(Fall),
}
