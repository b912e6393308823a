// How a call of the program ended.
ghost use Rattle.std.specs.Prelude.{◌≡◌};

use lp_line::Halt;

/// The status that the program exits with.
#[derive(Clone, Copy, PartialEq, Eq)]
pub struct ExitStatus {
    pub code: u8,
}

impl ExitStatus {
    /// The command did all that it was asked.
    pub const DONE: ExitStatus = ExitStatus { code: 0 };

    /// The words are no command line.
    pub const BAD_COMMAND_LINE: ExitStatus = ExitStatus { code: 2 };

    /// The source failed.
    pub const READ: ExitStatus = ExitStatus { code: 3 };

    /// The sink failed.
    pub const WRITE: ExitStatus = ExitStatus { code: 4 };

    /// Memory ran out.
    pub const NO_MEMORY: ExitStatus = ExitStatus { code: 5 };

    /// The input ended inside the body of a command.
    pub const CUT: ExitStatus = ExitStatus { code: 6 };

    /// A listener failed to give a link.
    pub const ACCEPT: ExitStatus = ExitStatus { code: 7 };

    /// The input is longer than may be read.
    pub const OVER: ExitStatus = ExitStatus { code: 8 };

    /// What was read is refused.
    pub const REFUSED: ExitStatus = ExitStatus { code: 9 };
}

impl From<Halt> for ExitStatus {
    ghost use Rattle.lp_text_commands.specs.Status.{code_behind};

    ghost from_gives = { λ halt status. status.code ≡ code_behind halt };

    // The status of a command that halted, by what halted it.
    fn from(halt: Halt) -> Self {
        match halt {
            Halt::Read => ExitStatus::READ,
            Halt::Write => ExitStatus::WRITE,
            Halt::NoMemory => ExitStatus::NO_MEMORY,
            Halt::Cut => ExitStatus::CUT,
            Halt::Over => ExitStatus::OVER,
        }
    }
}
