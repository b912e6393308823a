// What is said of a text of which a number is ranged, and which number that is.
ghost use Rattle.std.specs.Prelude.{◌≡◌, OnOk, IfOk, IsErrOf, Ok};
ghost use Rattle.lp_base.specs.Causes.{Rose};
ghost use Rattle.spec_model.specs.Kept.{IsUsual};
ghost use Rattle.spec_commands.specs.RangeOut.{PlaceOut, RangeOut, place_code, range_code, place_by};
ghost use Rattle.spec_server.specs.TextSaid.{text_said};
ghost use Rattle.spec_server.specs.Streams.{streams};
ghost use Rattle.lp_text_commands.specs.Prints.{Prints};
ghost use Rattle.lp_text_commands.specs.Hearing.{SaysSo};

use crate::command::perform;
use crate::exit_status::ExitStatus;
use crate::hearing::{Output, hear_input, send_output};
use crate::range::RangeAt;
use crate::range::named::{place_of, print_unknown};
use lp_base::{Bytes, Sink, Source};
use lp_line::{Halt, Refusal, Reply, TextSaid};
use lp_model::Model;
use lp_mps::read::Reader;
use spec_mps::Style;
use spec_program::Moved;
use std::alloc::{AllocError, Global};

/// What a text says, and which number of the model is ranged: that of the column or row with this name.
#[derive(Drop)]
pub(crate) struct RangeAsked<'a> {
    pub said: TextSaid,
    pub moved: Moved,
    pub name: &'a [u8],
}

impl<'a> Output for RangeAsked<'a> {
    ghost can_print = { λ _. Unit {0} };

    ghost may_write = { λ asked. RangeOut asked.moved asked.name.now asked.said };

    ghost code = { λ asked. range_code asked.moved asked.name.now asked.said };

    // Appends the answer, and after an optimum the range of the number, and gives status 0. Where the text has a fault
    // or nothing has the name, it appends that and gives status 9.
    fn print(self, alloc: Global, to: &mut Bytes) -> Result<ExitStatus, AllocError> {
        let RangeAsked { said, moved, name } = self;
        match said {
            Ok(model) => {
                let printed = print_model(alloc, model.model(), moved, name, to);
                drop(model);
                printed
            }
            Err(fault) => Reply::Refused(Refusal::Misspelled(fault)).print(alloc, to),
        }
    }
}

// Solves the model, and appends the answer, and after an optimum the range of the named number, with status 0. Where
// nothing has the name, it appends the line that says so, with status 9.
fn print_model(
    alloc: Global,
    model: &Model,
    moved: Moved,
    name: &[u8],
    to: &mut Bytes,
) -> Result<ExitStatus, AllocError>
    requires { IsUsual model.now }
    ensures output { OnOk result
        (Prints (PlaceOut moved name.now model.now (place_by moved model.now name.now)) to.old to.new) }
    ensures status { IfOk result (λ status. status.code ≡ place_code (place_by moved model.now name.now)) }
{
    match place_of(model, moved, name) {
        Some(at) => {
            let command = RangeAt { moved, at };
            perform(alloc, &command, model, to)
        }
        None => {
            print_unknown(alloc, name, to)?;
            Ok(ExitStatus::REFUSED)
        }
    }
}

/// Reads the text that the source gives, and writes what a solve of its model ends with, and after an optimum the range
/// of the number of the column or row with this name; or that the text has a fault, or nothing this name.
pub(crate) fn say_range<S: Source, K: Sink>(
    alloc: Global,
    style: Style,
    moved: Moved,
    name: &[u8],
    src: &mut S,
    out: &mut K,
) -> Result<ExitStatus, Halt>
    ensures output { SaysSo (text_said style) (RangeOut moved name.now) (range_code moved name.now)
        (streams (S.left src.old) (S.left src.new) (K.taken out.old) (K.taken out.new)) result }
    ensures read { IsErrOf result Halt.Read → Rose (S.read_faults src.old) (S.read_faults src.new) }
    ensures write { IsErrOf result Halt.Write → Rose (K.write_faults out.old) (K.write_faults out.new) }
{
    let said = hear_input(alloc, Reader::new(alloc, style), src)?;
    send_output(alloc, RangeAsked { said, moved, name }, out)
}
