// The solve of a model, from a starting basis if there is one.
ghost use Rattle.std.specs.Prelude.{◌≡◌, ℕ, IfOk, IfErr, IfSome, Ok, Some, None, option_map};
ghost use Rattle.spec_exact.specs.Narrow.{number_limit};
ghost use Rattle.spec_model.specs.Kept.{IsUsual};
ghost use Rattle.spec_simplex.specs.Eliminate.{IsBasisOf};
ghost use Rattle.spec_simplex.specs.Form.{form_of};
ghost use Rattle.spec_runs.specs.Solve as solve;
ghost use Rattle.spec_solve.specs.Answers.{IsSolved};
ghost use Rattle.lp_frac.specs.declared.stop.Stop.TheVariants as stops;
ghost use Rattle.lp_form.specs.Answer.{IsFaultOf};
ghost use Rattle.lp_solve.specs.Fit.{LeavesBasis};
ghost use Rattle.lp_solve.specs.Formless.{HasNoForm};
ghost use Rattle.lp_solve.specs.Stopped.{IsAfterStop};

use crate::cold::{End, checked_cold};
use crate::strategy::{WORK, cold_solve};
use crate::warm::{Warm, WarmStop, from_basis};
use lp_check::Certificate;
use lp_form::{Basis, Form, FormStop, form};
use lp_frac::Stop;
use lp_model::Model;
use spec_runs::{Fall, Route};
use std::alloc::{AllocError, Global};

/// The pivots and flips that a solve of a new session may make.
pub const OPENING_BUDGET: u64 = 10_000;

// Why a warm start that stopped so was given up, as a solve tells it: without the operation that was refused.
fn fall(stop: WarmStop) -> Fall
    ensures { result ≡ solve.fall_of stop }
{
    match stop {
        WarmStop::Singular => Fall::Singular,
        WarmStop::Unfit => Fall::Unfit,
        WarmStop::Past(_) => Fall::Past,
        WarmStop::Spent => Fall::Spent,
    }
}

// The cold solve after a warm start that stopped for the reason `stop`.
fn cold_after(
    alloc: Global,
    budget: u64,
    model: &Model,
    form: &Form,
    stop: WarmStop,
) -> Result<(End, Route), AllocError>
    requires { form_of (Some number_limit) model.now ≡ Ok form.now }
    ensures { IfOk result (λ s. IsAfterStop budget model.now form.now stop (solve.solve_end s)) }
{
    let route = Route::Fell(fall(stop));
    Ok((cold_solve(alloc, budget, WORK, model, form)?, route))
}

// The warm start from the basis; where that stops, the cold solve, with the reason why it fell back to that.
fn warm_first(
    alloc: Global,
    budget: u64,
    model: &Model,
    form: &Form,
    basis: &Basis,
) -> Result<(End, Route), AllocError>
    requires formed { form_of (Some number_limit) model.now ≡ Ok form.now }
    requires fits { IsBasisOf form.now basis.now }
    ensures { IfOk result (λ s. IsSolved model.now budget (Some basis.now) (solve.solve_end s)) }
{
    match from_basis(alloc, budget, model, form, basis)? {
        Warm::Ended {
            answer,
            certificate,
            basis,
            pivots,
        } => {
            let end = End::Ended {
                answer,
                certificate,
                basis,
                pivots,
            };
            Ok((end, Route::Warm))
        }
        Warm::Stopped(stop) => cold_after(alloc, budget, model, form, stop),
    }
}

/// Solves a model whose form is at hand, as `solve` does. The basis of an optimum is one of this form.
pub fn solve_formed(
    alloc: Global,
    model: &Model,
    budget: u64,
    form: &Form,
    starting: Option<&Basis>,
) -> Result<(End, Route), AllocError>
    requires formed { form_of (Some number_limit) model.now ≡ Ok form.now }
    requires fits { IfSome starting (λ basis. IsBasisOf form.now basis.now) }
    ensures solved { IfOk result (λ s.
        IsSolved model.now budget (option_map (λ basis. basis.now) starting.entry) (solve.solve_end s)) }
    ensures basis { IfOk result (λ s. LeavesBasis form.now s.0) }
{
    match starting {
        Some(basis) => warm_first(alloc, budget, model, form, basis),
        None => {
            let end = cold_solve(alloc, budget, WORK, model, form)?;
            Ok((end, Route::Cold))
        }
    }
}

/// Solves a model that has no form, by why it has none: bounds that clash are their own certificate, and an operation
/// past 127 bits is the end `Past`. The route is `Cold`. It is out of memory only where the making of the form was.
pub fn solve_formless(model: &Model, stop: FormStop) -> Result<(End, Route), AllocError>
    requires { IsFaultOf (form_of (Some number_limit) model.now) stop }
    ensures solved { IfOk result (λ s. (budget : ℕ) → IsSolved model.now budget None (solve.solve_end s)) }
    ensures formless { IfOk result (λ _. HasNoForm model.now) }
    ensures memory { IfErr result (λ _. stop ≡ stops.NoMemory) }
{
    match stop {
        Stop::Cause(clash) => {
            let certificate = Certificate::Clash(clash.column);
            Ok((checked_cold(model, certificate, None, 0), Route::Cold))
        }
        Stop::Past(past) => Ok((End::Past(past), Route::Cold)),
        Stop::NoMemory => Err(AllocError),
    }
}

/// Solves the model within a budget of pivots and flips, and has the certificate of the end checked. It begins with the
/// starting basis, if there is one, by the method for which this basis is feasible. Where there is none, or that start
/// stops, it begins with the start that each model has, by the engines of `cold_solve`. Only a budget below
/// `enough_pivots` is ever spent.
pub fn solve(
    alloc: Global,
    model: &Model,
    budget: u64,
    starting: Option<&Basis>,
) -> Result<(End, Route), AllocError>
    requires usual { IsUsual model.now }
    requires starting { IfSome starting (λ basis. solve.HasBasis (Some number_limit) model.now basis.now) }
    ensures { IfOk result (λ s.
        IsSolved model.now budget (option_map (λ basis. basis.now) starting.entry) (solve.solve_end s)) }
{
    match form(alloc, model) {
        Ok(form) => {
            let solved = solve_formed(alloc, model, budget, &form, starting);
            drop(form);
            solved
        }
        Err(stop) => solve_formless(model, stop),
    }
}
