// Why a line has no card.
ghost use Rattle.std.specs.Prelude.{◌≡◌};
ghost use Rattle.lp_mps.specs.declared.card.fault.CardFault.TheVariants.{NoMemory};

use std::alloc::AllocError;
use thiserror::Error;

/// Why a line has no card.
#[derive(Clone, Copy, Debug, Error)]
pub enum CardFault {
    /// The first column, from 1 on, with a byte that may not stand there in fixed form.
    #[error("a byte may not stand in column {0}")]
    Misplaced(u32),
    /// There is none left, or the line has more words than a `u32` counts.
    #[error("out of memory")]
    NoMemory,
}

impl From<AllocError> for CardFault {
    ghost from_gives = { λ _ fault. fault ≡ NoMemory };

    fn from(_: AllocError) -> Self {
        CardFault::NoMemory
    }
}
