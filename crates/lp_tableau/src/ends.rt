// How runs of steps end.
use lp_frac::{Frac, Stop};
pub use spec_simplex::PrimalEnd;
use std::convert::Infallible;

/// Why a run does not end by itself.
pub type RunStop = spec_simplex::RunStop<Frac>;

/// Why a form has no start: an operation that is past the limit, or no memory.
pub type ColdStop = Stop<Infallible>;
