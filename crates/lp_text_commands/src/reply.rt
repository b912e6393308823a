// A reply, as it is written, and the status behind it.
ghost use Rattle.std.specs.Prelude.{◌≡◌, ◌++◌, OnOk};
ghost use Rattle.spec_commands.specs.CheckOut.{check_code, CheckOut};
ghost use Rattle.spec_server.specs.Output.{check_line};

use crate::exit_status::ExitStatus;
use crate::hearing::Output;
use lp_base::Bytes;
use lp_line::{Reply, print_said};
use std::alloc::{AllocError, Global};

/// Writes the line of the reply.
pub(crate) fn print_reply(alloc: Global, reply: Reply, to: &mut Bytes) -> Result<(), AllocError>
    ensures { OnOk result (to.new ≡ to.old ++ check_line reply) }
{
    let printed = print_said(alloc, &reply, to);
    drop(reply);
    printed
}

impl Output for Reply {
    ghost can_print = { λ _. Unit {0} };

    ghost may_write = { CheckOut };

    ghost code = { check_code };

    // Writes the line of the reply, and tells its status.
    fn print(self, alloc: Global, to: &mut Bytes) -> Result<ExitStatus, AllocError> {
        let status = status_of(&self);
        print_reply(alloc, self, to)?;
        Ok(status)
    }
}

// The exit status of a reply: `REFUSED` if it refuses, else `DONE`.
fn status_of(reply: &Reply) -> ExitStatus
    ensures { result.code ≡ check_code reply.now }
{
    match reply {
        Reply::Refused(_) => ExitStatus::REFUSED,
        _ => ExitStatus::DONE,
    }
}
