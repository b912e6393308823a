// What keeps a server from its end.
ghost use Rattle.std.specs.Prelude.{◌≡◌};
ghost use Rattle.lp_serve.specs.declared.fault.ServeFault.TheVariants.{Write, NoMemory};

use lp_base::WriteFault;
use std::alloc::AllocError;
use thiserror::Error;

/// Why not all links were served, or not all was said of them.
#[derive(Clone, Copy, Debug, Error)]
pub enum ServeFault {
    /// A listener failed to give a link.
    #[error("a link could not be accepted")]
    Accept,
    /// The sink failed. It goes before `Accept`.
    #[error("the sink failed")]
    Write,
    #[error("out of memory")]
    NoMemory,
}

impl From<WriteFault> for ServeFault {
    ghost from_gives = { λ _ fault. fault ≡ Write };

    // The fault of a sink that failed: `Write`.
    fn from(_: WriteFault) -> Self {
        ServeFault::Write
    }
}

impl From<AllocError> for ServeFault {
    ghost from_gives = { λ _ fault. fault ≡ NoMemory };

    // The fault for memory that was refused: `NoMemory`.
    fn from(_: AllocError) -> Self {
        ServeFault::NoMemory
    }
}
