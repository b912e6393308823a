// Why a run over factors does not end by itself.
use lp_frac::Stop;
use thiserror::Error;

/// As many pivots and flips were made as the budget has.
#[derive(Clone, Copy, Debug, Error)]
#[error("the budget is spent")]
pub struct Spent;

/// Why a run over factors does not end by itself.
pub type RevisedStop = Stop<Spent>;
