// Why a model has no text.
ghost use Rattle.std.specs.Prelude.{◌≡◌};

use lp_base::Bytes;
use std::alloc::AllocError;
use thiserror::Error;

/// Why a model is not written.
#[derive(Debug, Drop, Error)]
pub enum WriteStop {
    /// The first name or number that has no room in a field of fixed form.
    #[error("expected a text that its field of fixed form has room for, but found {0:?}")]
    TooWide(Bytes),
    #[error("out of memory")]
    NoMemory,
}

impl From<AllocError> for WriteStop {
    ghost use Rattle.lp_mps.specs.declared.write.stop.WriteStop.TheVariants.{NoMemory};

    ghost from_gives = { λ _ stop. stop ≡ NoMemory };

    fn from(_: AllocError) -> Self {
        WriteStop::NoMemory
    }
}
