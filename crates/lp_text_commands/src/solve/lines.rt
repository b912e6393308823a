// What a solve ended with, as it is written.
ghost use Rattle.std.specs.Prelude.{◌≡◌, ◌++◌, OnOk};
ghost use Rattle.spec_solve.specs.Answers.{MayAnswer};
ghost use Rattle.spec_server.specs.Machine as machine;
ghost use Rattle.spec_server.specs.Output.{check_line};
ghost use Rattle.spec_commands.specs.SolveOut.{solved_lines};
ghost use Rattle.spec_server.specs.declared.asks.Reply.TheVariants as replies;

use crate::reply::print_reply;
use lp_base::Bytes;
use lp_frac::Past;
pub(crate) use lp_line::print_certificate;
use lp_line::{Reply, answer_of};
use lp_model::Model;
use lp_solve::{End, OPENING_BUDGET};
use std::alloc::{AllocError, Global};

/// Writes the answer that a solve within the budget of a new session ended with, and its certificate.
#[tactic(auto, unfolding(spec_commands::specs::SolveOut::solved_lines))]
pub(crate) fn print_end(
    alloc: Global,
    model: &Model,
    end: &End,
    to: &mut Bytes,
) -> Result<(), AllocError>
    requires { MayAnswer model.now machine.opening_budget end.now }
    ensures { OnOk result (to.new ≡ to.old ++ solved_lines model.now end.now) }
{
    print_answer(alloc, end, to)?;
    print_certificate(alloc, model, end, to)
}

/// Writes the line of the answer that a solve within the budget of a new session ended with.
pub(crate) fn print_answer(alloc: Global, end: &End, to: &mut Bytes) -> Result<(), AllocError>
    ensures { OnOk result (to.new ≡ to.old ++ check_line (machine.answer_of machine.opening_budget end.now)) }
{
    print_reply(alloc, answer_of(OPENING_BUDGET as u32, end), to)
}

/// Writes that an operation is past 127 bits.
pub(crate) fn print_past(alloc: Global, past: Past, to: &mut Bytes) -> Result<(), AllocError>
    ensures { OnOk result (to.new ≡ to.old ++ check_line (replies.Past past)) }
{
    print_reply(alloc, Reply::Past(past), to)
}
