// Why something is not made of fractions.
ghost use Rattle.std.specs.Prelude.{◌≡◌};
ghost use Rattle.lp_frac.specs.declared.stop.Stop.TheVariants as stop;

use crate::frac::Past;
use std::alloc::AllocError;
use std::fmt::{Debug, Display};
use thiserror::Error;

/// Why something is not made: for a cause of its own, for an operation past 127 bits, or since memory ran out.
#[derive(Clone, Copy, Debug, Error)]
#[error_bound(C: Debug + Display)]
pub enum Stop<C> {
    #[error("{0}")]
    Cause(C),
    /// The operation that is past 127 bits.
    #[error("{0}")]
    Past(Past),
    #[error("out of memory")]
    NoMemory,
}

impl<C> From<Past> for Stop<C> {
    ghost from_gives = { λ p e. e ≡ stop.Past p };

    // The refusal of the operation `p` as the reason why something is not made.
    fn from(p: Past) -> Self {
        Stop::Past(p)
    }
}

impl<C> From<AllocError> for Stop<C> {
    ghost from_gives = { λ _ e. e ≡ stop.NoMemory };

    // The refusal of memory as the reason why something is not made.
    fn from(_: AllocError) -> Self {
        Stop::NoMemory
    }
}
