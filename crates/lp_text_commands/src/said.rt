// What is said of a text whose model is one that may be kept, and the command on that model.
ghost use Rattle.std.specs.Prelude.{IsErrOf};
ghost use Rattle.lp_base.specs.Causes.{Rose};
ghost use Rattle.spec_model.specs.Model.{Model as exact_model};
ghost use Rattle.spec_model.specs.Kept.{IsUsualModel};
ghost use Rattle.spec_commands.specs.SolveOut.{solve_code};
ghost use Rattle.spec_server.specs.TextSaid.{text_said};
ghost use Rattle.spec_server.specs.Streams.{streams};
ghost use Rattle.lp_text_commands.specs.Hearing.{SaysSo};
ghost use Rattle.lp_text_commands.specs.Said.{MayTake, TextOut};

use crate::command::{Command, perform};
use crate::exit_status::ExitStatus;
use crate::hearing::{Output, hear_input, send_output};
use lp_base::{Bytes, Sink, Source};
use lp_line::{Halt, Refusal, Reply, TextSaid};
use lp_model::Model;
use lp_mps::read::Reader;
use spec_mps::Style;
use std::alloc::{AllocError, Global};

/// What a text says, and the command on its model.
#[derive(Drop)]
pub(crate) struct Said<C> {
    pub said: TextSaid,
    pub command: C,
}

impl<C: Command<Given = Model> + Drop> Output for Said<C> {
    ghost can_print = { λ s. MayTake (C.takes s.command) s.said };

    ghost may_write = { λ s. TextOut (C.may_write s.command) s.said };

    ghost code = { λ s. solve_code s.said };

    // Runs the command on the model that was read, appends what it writes, and gives status 0. Where the text has a
    // fault, it appends the fault's line and gives status 9.
    fn print(self, alloc: Global, to: &mut Bytes) -> Result<ExitStatus, AllocError> {
        let Said { said, command } = self;
        match said {
            Ok(model) => {
                let status = perform(alloc, &command, model.model(), to);
                drop(model);
                status
            }
            Err(fault) => Reply::Refused(Refusal::Misspelled(fault)).print(alloc, to),
        }
    }
}

/// Reads the text that the source gives from its start on, and writes what the command makes of its model, or the line
/// of the text's fault.
pub(crate) fn say_text<C: Command<Given = Model> + Drop, S: Source, K: Sink>(
    alloc: Global,
    style: Style,
    command: C,
    src: &mut S,
    out: &mut K,
) -> Result<ExitStatus, Halt>
    requires { (m : exact_model) → IsUsualModel m → C.takes command m }
    ensures output { SaysSo (text_said style) (TextOut (C.may_write command)) solve_code
        (streams (S.left src.old) (S.left src.new) (K.taken out.old) (K.taken out.new)) result }
    ensures read { IsErrOf result Halt.Read → Rose (S.read_faults src.old) (S.read_faults src.new) }
    ensures write { IsErrOf result Halt.Write → Rose (K.write_faults out.old) (K.write_faults out.new) }
{
    let said = hear_input(alloc, Reader::new(alloc, style), src)?;
    send_output(alloc, Said { said, command }, out)
}
