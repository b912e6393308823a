// The run of a script by one worker.
ghost use Rattle.std.specs.Prelude.{◌≡◌, IsErrOf};
ghost use Rattle.lp_base.specs.Causes.{Rose};
ghost use Rattle.lp_base.specs.LinesState.{at_start};
ghost use Rattle.lp_script.specs.Answer.{opening_with};
ghost use Rattle.lp_script.specs.Run.{Runs};
ghost use Rattle.spec_server.specs.Streams.{streams};

use crate::sessions::Sessions;
use lp_base::{Lines, Sink, Source};
use lp_line::{Addressing, Halt, take};
use std::alloc::Global;

/// Answers each request of a script, and writes its reply, before it reads the next one. It begins at the start of the
/// lines, with all sessions as they open, and ends with the script or at what halts it.
pub(crate) fn answer_asks<S: Source, K: Sink>(
    alloc: Global,
    lines: &mut Lines,
    sessions: &mut Sessions,
    src: &mut S,
    out: &mut K,
) -> Result<(), Halt>
    requires lines { lines.old ≡ at_start }
    requires sessions { sessions.old ≡ opening_with sessions.old.sharing.places }
    ensures output { Runs 1 sessions.old.sharing.places
        (streams (S.left src.old) (S.left src.new) (K.taken out.old) (K.taken out.new)) result }
    ensures read { IsErrOf result Halt.Read → Rose (S.read_faults src.old) (S.read_faults src.new) }
    ensures write { IsErrOf result Halt.Write → Rose (K.write_faults out.old) (K.write_faults out.new) }
{
    loop {
        match take(alloc, Addressing::Numbered, lines, src)? {
            Some(asked) => sessions.answer(alloc, asked, out)?,
            None => return Ok(()),
        }
    }
}
