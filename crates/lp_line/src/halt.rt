// What halts a command.
ghost use Rattle.std.specs.Prelude.{◌≡◌};
ghost use Rattle.lp_line.specs.declared.halt.Halt.TheVariants.{Write, NoMemory};

use lp_base::{LineStop, WriteFault};
use std::alloc::AllocError;

/// Why a command halts before it has done all that is asked.
#[derive(Clone, Copy)]
pub enum Halt {
    /// The source failed.
    Read,
    /// The sink failed.
    Write,
    NoMemory,
    /// A script ends in the body of a command.
    Cut,
    /// The input is longer than may be read.
    Over,
}

impl From<LineStop> for Halt {
    ghost use Rattle.lp_line.specs.Halt.{halt_of};

    ghost from_gives = { λ e halt. halt ≡ halt_of e };

    // The halt of a command whose input could not be read: by a fault of the input, or for lack of memory.
    fn from(stop: LineStop) -> Self {
        match stop {
            LineStop::Read => Halt::Read,
            LineStop::NoMemory => Halt::NoMemory,
        }
    }
}

impl From<WriteFault> for Halt {
    ghost from_gives = { λ _ halt. halt ≡ Write };

    // The halt of a command whose output could not be written.
    fn from(_: WriteFault) -> Self {
        Halt::Write
    }
}

impl From<AllocError> for Halt {
    ghost from_gives = { λ _ halt. halt ≡ NoMemory };

    // The halt of a command for lack of memory.
    fn from(_: AllocError) -> Self {
        Halt::NoMemory
    }
}
