// What a solve from the basis of a file ended with, as it is written.
ghost use Rattle.std.specs.Prelude.{◌≡◌, ◌++◌, ◌∷◌, [], OnOk, Ok, Some, codes};
ghost use Rattle.spec_exact.specs.Narrow.{number_limit};
ghost use Rattle.spec_simplex.specs.Eliminate.{IsBasisOf};
ghost use Rattle.spec_simplex.specs.Form.{form_of};
ghost use Rattle.spec_runs.specs.Solve.{solve_end};
ghost use Rattle.spec_solve.specs.Answers.{MayAnswer};
ghost use Rattle.spec_bas.specs.Written.{bas_text};
ghost use Rattle.spec_server.specs.Machine.{opening_budget};
ghost use Rattle.spec_server.specs.Output.{pivots_text};
ghost use Rattle.spec_commands.specs.BasisOut.{final_text, route_text};
ghost use Rattle.lp_solve.specs.Fit.{LeavesBasis};
ghost use Rattle.lp_text_commands.specs.Ends.{end_lines};

use crate::solve::{print_answer, print_certificate};
use lp_bas::write;
use lp_base::Bytes;
use lp_check::Known;
use lp_form::{Basis, LargeForm};
use lp_line::{fall_suffix, pivots_of, push_pivots};
use lp_model::Model;
use lp_solve::End;
use spec_runs::Route;
use std::alloc::{AllocError, Global};

/// Appends what a solve ended with, and after an optimum its basis as a file, if the end has one.
pub(crate) fn print_whole(
    alloc: Global,
    model: &Model,
    form: &LargeForm,
    ended: &(End, Route),
    to: &mut Bytes,
) -> Result<(), AllocError>
    requires formed { form_of (Some number_limit) model.now ≡ Ok form.now }
    requires basis { LeavesBasis form.now ended.now.0 }
    requires may { MayAnswer model.now opening_budget ended.now.0 }
    ensures { OnOk result (to.new ≡ to.old ++ (end_lines model.now (solve_end ended.now) ++ final_text model.now (Ok form.now) ended.now.0)) }
{
    print_end(alloc, model, ended, to)?;
    print_final(alloc, model, form, &ended.0, to)
}

/// Appends the answer that a solve ended with, how it was found, and its certificate, without the basis file.
pub(crate) fn print_end(
    alloc: Global,
    model: &Model,
    ended: &(End, Route),
    to: &mut Bytes,
) -> Result<(), AllocError>
    requires { MayAnswer model.now opening_budget ended.now.0 }
    ensures { OnOk result (to.new ≡ to.old ++ end_lines model.now (solve_end ended.now)) }
{
    print_answer(alloc, &ended.0, to)?;
    print_route(alloc, ended.1, pivots_of(&ended.0), to)?;
    print_certificate(alloc, model, &ended.0, to)
}

// Appends the word for how the answer was found: cold, from the basis, or after the basis was given up, and why it was.
fn push_route(route: Route, to: &mut Bytes) -> Result<(), AllocError>
    ensures { OnOk result (to.new ≡ to.old ++ route_text route) }
{
    match route {
        Route::Cold => to.extend(b"COLD"),
        Route::Warm => to.extend(b"WARM"),
        Route::Fell(why) => {
            to.extend(b"FELL")?;
            to.extend(fall_suffix(why))
        }
    }
}

// Appends the line that says how the answer was found, with the number of its pivots and flips, or `-` where none is
// given.
fn print_route(
    alloc: Global,
    route: Route,
    pivots: Option<u64>,
    to: &mut Bytes,
) -> Result<(), AllocError>
    ensures { OnOk result (to.new ≡
        to.old ++ (route_text route ++ codes " PIVOTS " ++ pivots_text pivots ++ 10 ∷ [])) }
{
    push_route(route, to)?;
    push_pivots(alloc, pivots, to)?;
    to.extend(b"\n")
}

// Appends the basis of an optimum, as a file; nothing at another end, or one without a basis.
fn print_final(
    alloc: Global,
    model: &Model,
    form: &LargeForm,
    end: &End,
    to: &mut Bytes,
) -> Result<(), AllocError>
    requires formed { form_of (Some number_limit) model.now ≡ Ok form.now }
    requires basis { LeavesBasis form.now end.now }
    ensures { OnOk result (to.new ≡ to.old ++ final_text model.now (Ok form.now) end.now) }
{
    match end {
        End::Ended {
            answer: Known::Optimal(_),
            basis: Some(basis),
            ..
        } => print_basis(alloc, model, form, basis, to),
        End::Ended { .. } | End::Past(_) | End::Spent => Ok(()),
    }
}

/// Appends a basis of the model's form, as a basis file.
pub(crate) fn print_basis(
    alloc: Global,
    model: &Model,
    form: &LargeForm,
    basis: &Basis,
    to: &mut Bytes,
) -> Result<(), AllocError>
    requires formed { form_of (Some number_limit) model.now ≡ Ok form.now }
    requires basis { IsBasisOf form.now basis.now }
    ensures { OnOk result (to.new ≡ to.old ++ bas_text model.now form.now basis.now) }
{
    let file = write(alloc, model, form, basis)?;
    to.extend(file.as_slice())
}
