// The column or the row whose number is ranged.
ghost use Rattle.std.specs.Prelude.{◌≡◌, ◌<◌, ◌++◌, OnOk, IfSome};
ghost use Rattle.spec_commands.specs.RangeOut.{place_by};
ghost use Rattle.spec_server.specs.Output.{check_line};
ghost use Rattle.spec_server.specs.declared.asks.Reply.TheVariants as replies;
ghost use Rattle.spec_server.specs.declared.asks.Refusal.TheVariants as refusals;
ghost use Rattle.lp_text_commands.specs.RangeEnds.{count_by};

use crate::reply::print_reply;
use lp_base::{Bytes, Name};
use lp_line::{Refusal, Reply};
use lp_model::Model;
use spec_program::Moved;
use std::alloc::{AllocError, Global};

/// The number of the column (for a cost) or of the row (for a right side) that has this name; none if nothing has it.
pub(crate) fn place_of(model: &Model, moved: Moved, name: &[u8]) -> Option<u32>
    ensures value { result ≡ place_by moved model.now name.now }
    ensures inside { IfSome result (λ at. at < count_by moved model.now) }
{
    match moved {
        Moved::Cost => model.col_of(name),
        Moved::RightSide => model.row_of(name),
    }
}

/// Appends the line that says that nothing has the name.
pub(crate) fn print_unknown(alloc: Global, name: &[u8], to: &mut Bytes) -> Result<(), AllocError>
    ensures { OnOk result (to.new ≡ to.old ++ check_line (replies.Refused (refusals.Name name.now))) }
{
    let name = Name::from_slice(alloc, name)?;
    print_reply(alloc, Reply::Refused(Refusal::Name(name)), to)
}
