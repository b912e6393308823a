// What is said of what a solve ended with.
ghost use Rattle.std.specs.Prelude.{◌≡◌, ◌++◌, ℕ, IfOk, OnOk};
ghost use Rattle.spec_solve.specs.Answers.{MayAnswer};
ghost use Rattle.spec_server.specs.Machine as machine;
ghost use Rattle.spec_server.specs.Output.{ended_lines};

use crate::asks::Reply;
use crate::printing::print_lines;
use lp_base::{Bytes, Texts};
use lp_certificate::cert_text;
use lp_form::Basis;
use lp_frac::{Frac, Fracs};
use lp_model::Model;
use std::alloc::{AllocError, Global};

type End = spec_check::SolveEnd<Frac, Fracs, Basis>;

/// The reply to a solve within a budget: its answer, its overflow, or that the budget is spent.
pub fn answer_of(budget: u32, solved: &End) -> Reply
    ensures { result ≡ machine.answer_of budget solved.now }
{
    match solved {
        End::Ended { answer, .. } => Reply::Known(*answer),
        End::Past(past) => Reply::Past(*past),
        End::Spent => Reply::Spent(u64::from(budget)),
    }
}

/// The pivots and flips that a solve took to its answer; none if it has no answer.
pub fn pivots_of(solved: &End) -> Option<u64>
    ensures { result ≡ machine.pivots_of_solved solved.now }
{
    match solved {
        End::Ended { pivots, .. } => Some(*pivots),
        End::Past(_) | End::Spent => None,
    }
}

/// The lines of the certificate of a solve, none where the solve has no answer.
pub fn certificate_lines(alloc: Global, model: &Model, solved: &End) -> Result<Texts, AllocError>
    requires { (budget : ℕ) × MayAnswer model.now budget solved.now }
    ensures { IfOk result (λ lines. lines ≡ machine.lines_of_solved model.now solved.now) }
{
    match solved {
        End::Ended { certificate, .. } => cert_text(alloc, model, certificate),
        End::Past(_) | End::Spent => Ok(Texts::new(alloc)),
    }
}

/// Writes the lines of the certificate of a solve, none where the solve has no answer.
pub fn print_certificate(
    alloc: Global,
    model: &Model,
    solved: &End,
    to: &mut Bytes,
) -> Result<(), AllocError>
    requires { (budget : ℕ) × MayAnswer model.now budget solved.now }
    ensures { OnOk result (to.new ≡ to.old ++ ended_lines (machine.lines_of_solved model.now solved.now)) }
{
    let lines = certificate_lines(alloc, model, solved)?;
    print_lines(&lines, to)
}
