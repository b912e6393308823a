// Why a step is not made.
ghost use Rattle.std.specs.Prelude.{◌≡◌};
ghost use Rattle.spec_mps.specs.Checks.{fault_code};
ghost use Rattle.lp_mps.specs.declared.read.fault.Fault.TheVariants as fault;
ghost use Rattle.lp_mps.specs.Answer.{fault_of};

use crate::card::CardFault;
use spec_mps::Code;
use std::alloc::AllocError;

/// What is wrong with a line, or that there is no memory.
#[derive(Clone, Copy)]
pub(crate) enum Fault {
    Code(Code),
    NoMemory,
}

impl From<Code> for Fault {
    ghost from_gives = { λ code made. made ≡ fault.Code code };

    fn from(code: Code) -> Self {
        Fault::Code(code)
    }
}

impl From<AllocError> for Fault {
    ghost from_gives = { λ _ made. made ≡ fault.NoMemory };

    fn from(_: AllocError) -> Self {
        Fault::NoMemory
    }
}

impl From<CardFault> for Fault {
    ghost from_gives = { λ from made. made ≡ fault_of from };

    fn from(from: CardFault) -> Self {
        match from {
            CardFault::Misplaced(_) => Fault::Code(Code::CardShape),
            CardFault::NoMemory => Fault::NoMemory,
        }
    }
}

/// Whether more lines are read, or the text has ended.
#[derive(Clone, Copy)]
pub(crate) enum Went {
    On,
    ToEnd,
}
