// The command `check --wide`: the verdict on a certificate whose numbers may have any width, as it is written.
ghost use Rattle.std.specs.Prelude.{◌≡◌, ◌++◌, IfOk, OnOk};
ghost use Rattle.spec_check.specs.declared.certificate.Verdict.TheVariants as verdict;
ghost use Rattle.spec_server.specs.declared.asks.Reply.TheVariants as reply;
ghost use Rattle.spec_commands.specs.CheckOut.{check_code};
ghost use Rattle.spec_commands.specs.CheckWideOut.{wide_reply_text, wide_check_line, WideCheckOut};
ghost use Rattle.spec_server.specs.Output.{reply_text};
ghost use Rattle.lp_text_commands.specs.WideSaid.{verdict_reply};

use crate::exit_status::ExitStatus;
use crate::hearing::Output;
use lp_base::Bytes;
use lp_check::wide::{Known, Verdict};
use lp_line::{Refusal, Reply, push_wide_known};
use std::alloc::{AllocError, Global};

/// The verdict on a certificate, or why there is none.
#[derive(Drop)]
pub(crate) enum WideSaid {
    Checked(Verdict),
    Refused(Refusal),
}

/// What is said of a certificate. Contracts see the reply that says it.
#[derive(Drop)]
pub(crate) struct WideReply {
    said: WideSaid,
}

impl std::marker::Model for WideReply {
    ghost use Rattle.spec_server.specs.Machine.{ExactReply};

    ghost Value = { ExactReply };

    ghost use Rattle.lp_text_commands.specs.WideSaid.{reply_of};

    ghost view = { λ r. reply_of r.said };
}

impl WideReply {
    ghost use Rattle.std.specs.Prelude.{◌≡◌};
    ghost use Rattle.lp_text_commands.specs.WideSaid.{reply_of};

    /// The reply of `check --wide` that tells this result.
    pub(crate) fn new(said: WideSaid) -> WideReply
        ensures { result ≡ reply_of said }
    {
        WideReply { said }
    }
}

impl Output for WideReply {
    ghost can_print = { λ _. Unit {0} };

    ghost may_write = { WideCheckOut };

    ghost code = { check_code };

    // Writes the line of the reply, and tells its status.
    fn print(self, alloc: Global, to: &mut Bytes) -> Result<ExitStatus, AllocError> {
        let WideReply { said } = self;
        match said {
            WideSaid::Checked(verdict) => print_verdict(alloc, verdict, to),
            WideSaid::Refused(why) => print_narrow(alloc, Reply::Refused(why), to),
        }
    }
}

// Appends the line that says yes and what is known, with an optimal value of any width.
fn print_yes(alloc: Global, what: &Known, to: &mut Bytes) -> Result<(), AllocError>
    ensures { OnOk result (to.new ≡ to.old ++ wide_check_line (reply.Checked (verdict.Yes what.now))) }
{
    to.extend(b"YES ")?;
    push_wide_known(alloc, what, to)?;
    to.push(b'\n')
}

// Appends the line of a reply without a wide number, as a check in 127 bits has it, and gives the exit status.
fn print_narrow(alloc: Global, reply: Reply, to: &mut Bytes) -> Result<ExitStatus, AllocError>
    requires { wide_reply_text reply ≡ reply_text reply }
    ensures output { OnOk result (to.new ≡ to.old ++ wide_check_line reply) }
    ensures status { IfOk result (λ status. status.code ≡ check_code reply) }
{
    reply.print(alloc, to)
}

// Appends the line of a verdict, and gives the exit status.
fn print_verdict(alloc: Global, verdict: Verdict, to: &mut Bytes) -> Result<ExitStatus, AllocError>
    ensures output { OnOk result (to.new ≡ to.old ++ wide_check_line (verdict_reply verdict)) }
    ensures status { IfOk result (λ status. status.code ≡ 0) }
{
    match verdict {
        Verdict::Yes(what) => {
            let printed = print_yes(alloc, &what, to);
            drop(what);
            printed?;
            Ok(ExitStatus::DONE)
        }
        Verdict::No(n) => print_narrow(alloc, Reply::Checked(spec_check::Verdict::No(n)), to),
    }
}
