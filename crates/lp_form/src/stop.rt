// Why a basis cannot be worked with.
use lp_frac::Stop;
use thiserror::Error;

/// A basic column depends on those before it.
#[derive(Clone, Copy, Debug, Error)]
#[error("expected independent basic columns, but one depends on those before it")]
pub struct Singular;

/// Why a basis has no factors, or no tableau.
pub type BasisStop = Stop<Singular>;
