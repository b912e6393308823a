// The command `basis --wide`: as `basis`, of a model that may be large and with an answer whose numbers have any width.
ghost use Rattle.std.specs.Prelude.{◌≡◌, ◌++◌, ◌∷◌, IfSome, Ok, OnOk, Some, refl};
ghost use Rattle.spec_exact.specs.Narrow.{number_limit};
ghost use Rattle.spec_check.specs.Certificate.{IsFor};
ghost use Rattle.spec_certificate.specs.TextWritten.{wide_certificate_lines};
ghost use Rattle.spec_simplex.specs.Eliminate.{IsBasisOf};
ghost use Rattle.spec_simplex.specs.Form.{form_of};
ghost use Rattle.spec_solve.specs.Exact.{IsExactEnd};
ghost use Rattle.spec_server.specs.Machine.{opening_budget};
ghost use Rattle.spec_server.specs.Output.{ended_lines};
ghost use Rattle.spec_server.specs.WideLines.{wide_known_text};
ghost use Rattle.spec_commands.specs.BasisWideOut.{BasisWideOut, origin_text, based_lines, based_text};
ghost use Rattle.lp_line.specs.ExactEnds.{HasFit};
ghost use Rattle.lp_text_commands.specs.Ends.{exact_lines, whole_lines, LeavesBased};

use crate::basis::lines::print_basis;
use crate::basis::starting::Handed;
use crate::command::Command;
use lp_base::Bytes;
use lp_certificate::cert_text;
use lp_form::{Basis, LargeForm};
use lp_line::{print_lines, push_numbered, push_wide_known};
use lp_model::Model;
use lp_solve::{ExactAnswer, ExactEnd, OPENING_BUDGET, solve_exactly};
use spec_solve::Origin;
use std::alloc::{AllocError, Global};

/// The command `basis --wide`.
#[derive(Drop)]
pub(crate) struct SolveWideFrom;

impl Command for SolveWideFrom {
    type Given = Handed;

    type Outcome = ExactEnd;

    ghost takes = { λ _ _. Unit {0} };

    ghost may_make = { λ _ handed end. IsExactEnd handed.model opening_budget handed.basis end };

    ghost lines = { λ _ handed end. based_lines handed.model end };

    ghost may_write = { λ _ handed. BasisWideOut (Ok handed) };

    ghost is_written = { λ _ handed end is. (end, is, refl) };

    // Solves the model exactly from its basis, or cold if it has none, within the budget of a new session.
    fn run(&self, alloc: Global, handed: &Handed) -> Result<ExactEnd, AllocError> {
        match &handed.start {
            Some(start) => {
                solve_exactly(alloc, &handed.model, OPENING_BUDGET, Some(&start.basis))
            }
            None => solve_exactly(alloc, &handed.model, OPENING_BUDGET, None),
        }
    }

    // Appends what the exact solve ended with, and the basis file of its answer, if that has a basis and the model a
    // form.
    fn write(
        &self,
        alloc: Global,
        handed: &Handed,
        end: &ExactEnd,
        to: &mut Bytes,
    ) -> Result<(), AllocError> {
        match &handed.start {
            Some(start) => print_whole(alloc, &handed.model, &start.form, end, to),
            None => print_end(alloc, &handed.model, end, to),
        }
    }
}

// Appends what an exact solve ended with, and the basis of its answer as a file, if it has one.
fn print_whole(
    alloc: Global,
    model: &Model,
    form: &LargeForm,
    end: &ExactEnd,
    to: &mut Bytes,
) -> Result<(), AllocError>
    requires formed { form_of (Some number_limit) model.now ≡ Ok form.now }
    requires fits { HasFit model.now end.now }
    requires based { LeavesBased form.now end.now }
    ensures { OnOk result (to.new ≡ to.old ++ whole_lines model.now (Ok form.now) end.now) }
{
    print_end(alloc, model, end, to)?;
    match end {
        ExactEnd::Answered(answer) => print_based(alloc, model, form, &answer.basis, to),
        ExactEnd::Open => Ok(()),
    }
}

// Appends the answer, where it was found, and its certificate; or `OPEN`, where the exact solve found no answer.
fn print_end(alloc: Global, model: &Model, end: &ExactEnd, to: &mut Bytes) -> Result<(), AllocError>
    requires { HasFit model.now end.now }
    ensures { OnOk result (to.new ≡ to.old ++ exact_lines model.now end.now) }
{
    match end {
        ExactEnd::Answered(answer) => print_answer(alloc, model, answer, to),
        ExactEnd::Open => to.extend(b"OPEN\n"),
    }
}

// Appends the answer of an exact solve, where it was found, and its certificate.
fn print_answer(
    alloc: Global,
    model: &Model,
    answer: &ExactAnswer,
    to: &mut Bytes,
) -> Result<(), AllocError>
    requires { IsFor model.now answer.now.certificate }
    ensures { OnOk result (to.new ≡ to.old ++ ended_lines
        (wide_known_text answer.now.known ∷ origin_text answer.now.origin
        ∷ wide_certificate_lines model.now answer.now.certificate)) }
{
    push_wide_known(alloc, &answer.known, to)?;
    to.push(b'\n')?;
    push_origin(alloc, answer.origin, to)?;
    to.push(b'\n')?;
    let lines = cert_text(alloc, model, &answer.certificate)?;
    print_lines(&lines, to)
}

// Appends where an exact answer was found: `COLD`, or with the number of pivots `WARM` from the basis or `FELL` without
// it.
fn push_origin(alloc: Global, origin: Origin, to: &mut Bytes) -> Result<(), AllocError>
    ensures { OnOk result (to.new ≡ to.old ++ origin_text origin) }
{
    match origin {
        Origin::Cold => to.extend(b"COLD"),
        Origin::Warm(pivots) => push_numbered(alloc, b"WARM PIVOTS ", pivots, to),
        Origin::Fell(pivots) => push_numbered(alloc, b"FELL PIVOTS ", pivots, to),
    }
}

// Appends the basis of an answer, as a file, where there is one.
fn print_based(
    alloc: Global,
    model: &Model,
    form: &LargeForm,
    basis: &Option<Basis>,
    to: &mut Bytes,
) -> Result<(), AllocError>
    requires formed { form_of (Some number_limit) model.now ≡ Ok form.now }
    requires based { IfSome basis.now (λ basis. IsBasisOf form.now basis) }
    ensures { OnOk result (to.new ≡ to.old ++ based_text model.now (Ok form.now) basis.now) }
{
    match basis {
        Some(basis) => print_basis(alloc, model, form, basis, to),
        None => Ok(()),
    }
}
