// Where a server listens.
ghost use Rattle.std.specs.Prelude.{◌≡◌, map, string_bytes};
ghost use Rattle.spec_program.specs.CommandLine.{address_of};
ghost use Rattle.lp_command_line.specs.Listening.{planned};

use crate::command_line_of;
use spec_program::CommandLine;

/// What a server needs before it can serve.
#[derive(Clone, Copy)]
pub struct Serving<'a> {
    /// Where it listens.
    pub address: &'a String,
    /// How many workers serve there, each of which wants a listener.
    pub workers: u32,
}

/// The address and the workers of the server that the words start, or `None` where they are no command `serve`.
#[tactic(auto, unfolding(spec_program::specs::CommandLine::address_of))]
pub fn plan(words: &[String]) -> Option<Serving<'_>>
    ensures { planned result ≡ address_of (map string_bytes words.now) }
{
    let Some(CommandLine::Serve { workers, .. }) = command_line_of(words) else {
        return None;
    };
    let [_, address, ..] = words else {
        return None;
    };
    Some(Serving { address, workers })
}
