// What is said of a text and the basis file after it, and the command on that.
ghost use Rattle.std.specs.Prelude.{IsErrOf};
ghost use Rattle.lp_base.specs.Causes.{Rose};
ghost use Rattle.spec_model.specs.Kept.{AreAtMost, IsModelWithin, large_limits};
ghost use Rattle.spec_commands.specs.BasisOut as reading;
ghost use Rattle.spec_server.specs.Streams.{streams};
ghost use Rattle.lp_text_commands.specs.Hearing.{SaysSo};
ghost use Rattle.lp_text_commands.specs.Said.{MayTake, SaidOut};

use crate::basis::faults::print_fault;
use crate::basis::stage::{BasisSaid, BasisStage};
use crate::basis::starting::Handed;
use crate::command::{Command, perform};
use crate::exit_status::ExitStatus;
use crate::hearing::{Output, hear_input, send_output};
use lp_base::{Bytes, Sink, Source};
use lp_line::Halt;
use lp_mps::read::ReaderWithin;
use spec_model::SizeLimits;
use spec_mps::Style;
use std::alloc::{AllocError, Global};

/// What a text and the basis file after it say, and the command on that.
#[derive(Drop)]
pub(crate) struct SaidWithBasis<C> {
    said: BasisSaid,
    command: C,
}

impl<C: Command<Given = Handed> + Drop> Output for SaidWithBasis<C> {
    ghost can_print = { λ s. MayTake (C.takes s.command) s.said };

    ghost may_write = { λ s. SaidOut (C.may_write s.command) reading.basis_fault_line s.said };

    ghost code = { λ s. reading.basis_code s.said };

    // Runs the command on the model and basis that were read, appends what it writes, and gives status 0. Where the
    // text or the file has a fault, it appends the fault's line and gives status 9.
    fn print(self, alloc: Global, to: &mut Bytes) -> Result<ExitStatus, AllocError> {
        let SaidWithBasis { said, command } = self;
        match said {
            Ok(handed) => {
                let status = perform(alloc, &command, &handed, to);
                drop(handed);
                status
            }
            Err(fault) => print_fault(alloc, fault, to),
        }
    }
}

/// Reads the text of a model within these limits and the basis file after it, and writes what the command makes of
/// that, or the line of the first fault.
pub(crate) fn say_basis<C: Command<Given = Handed> + Drop, S: Source, K: Sink>(
    alloc: Global,
    limits: SizeLimits,
    style: Style,
    command: C,
    src: &mut S,
    out: &mut K,
) -> Result<ExitStatus, Halt>
    requires large { AreAtMost limits large_limits }
    requires takes { (handed : reading.Handed) → IsModelWithin limits handed.model → C.takes command handed }
    ensures output { SaysSo (reading.basis_said limits style) (SaidOut (C.may_write command) reading.basis_fault_line)
        reading.basis_code
        (streams (S.left src.old) (S.left src.new) (K.taken out.old) (K.taken out.new)) result }
    ensures read { IsErrOf result Halt.Read → Rose (S.read_faults src.old) (S.read_faults src.new) }
    ensures write { IsErrOf result Halt.Write → Rose (K.write_faults out.old) (K.write_faults out.new) }
{
    let text = ReaderWithin::new(alloc, limits, style);
    let said = hear_input(alloc, BasisStage::Text(text), src)?;
    send_output(alloc, SaidWithBasis { said, command }, out)
}
