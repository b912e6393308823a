// The commands that read the text of a model.
ghost use Rattle.std.specs.Prelude.{◌≡◌, IsErrOf};
ghost use Rattle.lp_base.specs.Causes.{Rose};
ghost use Rattle.spec_server.specs.Streams.{streams};
ghost use Rattle.spec_program.specs.Spelled.{spelled_text};
ghost use Rattle.lp_text_commands.specs.TextCommands.{ReadsText};

use crate::basis::{SolveFrom, SolveWideFrom, say_basis};
use crate::check::{CheckStage, WideStage};
use crate::exit_status::ExitStatus;
use crate::hearing::say;
use crate::iis::FindIis;
use crate::presolve::Presolve;
use crate::range::{RangeAll, say_range};
use crate::said::say_text;
use crate::solve::Solve;
use lp_base::{Sink, Source};
use lp_line::Halt;
use lp_model::{LARGE_LIMITS, USUAL_LIMITS};
use lp_mps::read::{LargeReader, Reader};
use spec_mps::Style;
use spec_program::TextCommand;
use std::alloc::Global;

/// Reads the text that the source gives, and what follows it for `check` and `basis`. It writes to the sink what the
/// command says of that, and gives the status; or what halts it, after none or a beginning of that.
pub fn read_text<S: Source, K: Sink>(
    alloc: Global,
    command: TextCommand<&[u8]>,
    style: Style,
    src: &mut S,
    out: &mut K,
) -> Result<ExitStatus, Halt>
    ensures output { ReadsText (spelled_text command.entry) style
        (streams (S.left src.old) (S.left src.new) (K.taken out.old) (K.taken out.new)) result }
    ensures read { IsErrOf result Halt.Read → Rose (S.read_faults src.old) (S.read_faults src.new) }
    ensures write { IsErrOf result Halt.Write → Rose (K.write_faults out.old) (K.write_faults out.new) }
{
    match command {
        TextCommand::Solve => say_text(alloc, style, Solve, src, out),
        TextCommand::SolveWide => say(alloc, LargeReader::new(alloc, style), src, out),
        TextCommand::Check => say(alloc, CheckStage::Text(Reader::new(alloc, style)), src, out),
        TextCommand::CheckWide => {
            say(
                alloc,
                WideStage::Text(LargeReader::new(alloc, style)),
                src,
                out,
            )
        }
        TextCommand::Basis => say_basis(alloc, USUAL_LIMITS, style, SolveFrom, src, out),
        TextCommand::BasisWide => say_basis(alloc, LARGE_LIMITS, style, SolveWideFrom, src, out),
        TextCommand::Presolve => say_text(alloc, style, Presolve, src, out),
        TextCommand::Iis => say_text(alloc, style, FindIis, src, out),
        TextCommand::Range { moved, name } => say_range(alloc, style, moved, name, src, out),
        TextCommand::RangeAll => say_text(alloc, style, RangeAll, src, out),
    }
}
