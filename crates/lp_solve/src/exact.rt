// The exact solve of a model, whose numbers may have any width.
ghost use Rattle.std.specs.Prelude.{◌≡◌, ◌↔◌, ℕ, List, Option, IfOk, IfErr, IfSome, IsTrue, Ok, Some, None, option_map};
ghost use Rattle.spec_exact.specs.Narrow.{number_limit};
ghost use Rattle.spec_model.specs.Kept.{IsUsual};
ghost use Rattle.spec_model.specs.Model.{Model as model};
ghost use Rattle.spec_pivot.specs.declared.status.Status.{Status as status};
ghost use Rattle.spec_simplex.specs.Eliminate.{IsBasisOf};
ghost use Rattle.spec_simplex.specs.Form.{form_of};
ghost use Rattle.spec_runs.specs.Solve.{HasBasis};
ghost use Rattle.lp_frac.specs.declared.stop.Stop.TheVariants as stops;
ghost use Rattle.lp_form.specs.Answer.{IsFaultOf};
ghost use Rattle.spec_solve.specs.Exact.{IsShown, IsExactAnswer, IsExactEnd, MayGiveUp};
ghost use Rattle.lp_solve.specs.Formless.{HasNoForm};

use crate::cold::End;
use crate::shown::{
    at_basis, at_float_end, at_float_end_from, at_near_end, basis_of_answer, origin_of, over_rows,
    over_rows_from,
};
use crate::solving::solve_formed;
use crate::widened::{widened_certificate, widened_known};
use lp_check::wide::{self, Ratios};
use lp_check::{Certificate, Known};
use lp_form::{Basis, Form, FormStop, form, large_form};
use lp_frac::Stop;
use lp_model::{Model, USUAL_LIMITS};
use lp_ratio::Ratio;
use spec_runs::{Fall, Route};
use spec_solve::Origin;
use std::alloc::{AllocError, Global};

/// An answer whose numbers may have any width.
pub type ExactAnswer = spec_solve::ExactAnswer<Ratio, Ratios, Basis>;

/// How an exact solve ends.
pub type ExactEnd = spec_solve::ExactEnd<Ratio, Ratios, Basis>;

// Whether the model is a usual one: within the limits of forms of which tableaus are made.
fn is_usual(model: &Model) -> bool
    ensures { IsTrue result ↔ IsUsual model.now }
{
    model.rows() <= USUAL_LIMITS.rows && model.cols() <= USUAL_LIMITS.columns
}

// The exact answer of a solve at 127 bits, whose certificate was checked there: with its final basis, if the
// certificate's numbers are those of that basis; else without one.
fn settled(
    alloc: Global,
    model: &Model,
    form: &Form,
    known: Known,
    certificate: Certificate,
    left: Option<Basis>,
    origin: Origin,
) -> Result<ExactAnswer, AllocError>
    requires formed { form_of (Some number_limit) model.now ≡ Ok form.now }
    requires shown { IsShown model.now known certificate }
    requires based { IfSome left (λ basis. IsBasisOf form.now basis) }
    ensures { IfOk result (IsExactAnswer model.now) }
{
    let known = widened_known(alloc, known)?;
    let wide = widened_certificate(alloc, &certificate)?;
    drop(certificate);
    let basis = basis_of_answer(alloc, model, form, &wide, left)?;
    Ok(ExactAnswer {
        known,
        certificate: wide,
        basis,
        origin,
    })
}

// How an exact solve ends: with the answer that was found, or as open where none was.
fn or_open(found: Option<ExactAnswer>) -> ExactEnd
    ensures { (m : model) (budget : ℕ) (starting : Option (List status)) → (IsUsual m → MayGiveUp m budget starting) →
        IfSome found (IsExactAnswer m) → IsExactEnd m budget starting result }
{
    match found {
        Some(answer) => ExactEnd::Answered(answer),
        None => ExactEnd::Open,
    }
}

// Looks for an answer where a solve at 127 bits is refused an operation: over rows from the starting basis, then by a
// float run, at last over rows from the start that each model has. Without a starting basis only the last is tried.
fn beyond(
    alloc: Global,
    model: &Model,
    budget: u64,
    form: &Form,
    starting: Option<&Basis>,
) -> Result<Option<ExactAnswer>, AllocError>
    requires formed { form_of (Some number_limit) model.now ≡ Ok form.now }
    requires fits { IfSome starting (λ basis. IsBasisOf form.now basis.now) }
    ensures { IfOk result (λ o. IfSome o (IsExactAnswer model.now)) }
{
    let Some(basis) = starting else {
        return over_rows(alloc, model, form, budget, Route::Cold);
    };
    if let Some(answer) = over_rows_from(alloc, model, form, budget, basis)? {
        return Ok(Some(answer));
    }
    if let Some(answer) = at_float_end_from(alloc, model, None)? {
        return Ok(Some(answer));
    }
    over_rows(alloc, model, form, budget, Route::Fell(Fall::Past))
}

// Looks for an answer where the budget of a solve at 127 bits is spent: by a float run, unless one was asked before,
// which is so without a starting basis.
fn beside(
    alloc: Global,
    model: &Model,
    starting: Option<&Basis>,
) -> Result<Option<ExactAnswer>, AllocError>
    ensures { IfOk result (λ o. IfSome o (IsExactAnswer model.now)) }
{
    match starting {
        Some(_) => at_float_end_from(alloc, model, None),
        None => Ok(None),
    }
}

// Solves the form's model at 127 bits, and looks for an answer without a limit where that gives up.
fn by_runs(
    alloc: Global,
    model: &Model,
    budget: u64,
    form: &Form,
    starting: Option<&Basis>,
) -> Result<ExactEnd, AllocError>
    requires formed { form_of (Some number_limit) model.now ≡ Ok form.now }
    requires fits { IfSome starting (λ basis. IsBasisOf form.now basis.now) }
    ensures { IfOk result (IsExactEnd model.now budget (option_map (λ basis. basis.now) starting.entry)) }
{
    let (end, route) = solve_formed(alloc, model, budget, form, starting)?;
    match end {
        End::Ended {
            answer,
            certificate,
            basis,
            pivots,
        } => {
            let origin = origin_of(route, pivots);
            let answer = settled(alloc, model, form, answer, certificate, basis, origin)?;
            Ok(ExactEnd::Answered(answer))
        }
        End::Past(_) => Ok(or_open(beyond(alloc, model, budget, form, starting)?)),
        End::Spent => Ok(or_open(beside(alloc, model, starting)?)),
    }
}

// Solves a model exactly by its form: by a guess, which is checked, or else by runs. The guess is the answer of the
// starting basis or of one a few steps on, or that of a float run.
fn by_form(
    alloc: Global,
    model: &Model,
    budget: u64,
    form: &Form,
    starting: Option<&Basis>,
) -> Result<ExactEnd, AllocError>
    requires formed { form_of (Some number_limit) model.now ≡ Ok form.now }
    requires fits { IfSome starting (λ basis. IsBasisOf form.now basis.now) }
    ensures { IfOk result (IsExactEnd model.now budget (option_map (λ basis. basis.now) starting.entry)) }
{
    let guess = match starting {
        Some(basis) => at_basis(alloc, model, basis)?,
        None => at_float_end(alloc, model)?,
    };
    match guess {
        Some(answer) => Ok(ExactEnd::Answered(answer)),
        None => by_runs(alloc, model, budget, form, starting),
    }
}

// The exact end of a model that has no form: infeasible, with bounds that clash as the certificate; or open, where the
// making of the form was refused an operation. It is out of memory only where the making of the form was.
fn formless(model: &Model, stop: FormStop) -> Result<ExactEnd, AllocError>
    requires { IsFaultOf (form_of (Some number_limit) model.now) stop }
    ensures end { (budget : ℕ) → IfOk result (IsExactEnd model.now budget None) }
    ensures formless { IfOk result (λ _. HasNoForm model.now) }
    ensures memory { IfErr result (λ _. stop ≡ stops.NoMemory) }
{
    match stop {
        Stop::Cause(clash) => Ok(ExactEnd::Answered(ExactAnswer {
            known: wide::Known::Infeasible,
            certificate: wide::Certificate::Clash(clash.column),
            basis: None,
            origin: Origin::Cold,
        })),
        Stop::Past(_) => Ok(ExactEnd::Open),
        Stop::NoMemory => Err(AllocError),
    }
}

// Solves a model past the usual limits without a starting basis: bounds that clash are found without a run, and where
// its form is refused an operation it ends open; else a float run is asked.
fn large_cold(alloc: Global, model: &Model) -> Result<ExactEnd, AllocError>
    requires { ¬ (IsUsual model.now) }
    ensures { (budget : ℕ) → IfOk result (IsExactEnd model.now budget None) }
{
    match large_form(alloc, model) {
        Ok(form) => {
            drop(form);
            Ok(or_open(at_float_end(alloc, model)?))
        }
        Err(stop) => formless(model, stop),
    }
}

// Looks for an answer of a large model from a basis: by a short float run from there, by the basis itself, by a long
// run from there, and by one from the start that each model has. An exact step takes longer than many steps in floats.
fn large_from(
    alloc: Global,
    model: &Model,
    basis: &Basis,
) -> Result<Option<ExactAnswer>, AllocError>
    ensures { IfOk result (λ o. IfSome o (IsExactAnswer model.now)) }
{
    if let Some(answer) = at_near_end(alloc, model, basis)? {
        return Ok(Some(answer));
    }
    if let Some(answer) = at_basis(alloc, model, basis)? {
        return Ok(Some(answer));
    }
    if let Some(answer) = at_float_end_from(alloc, model, Some(basis.as_slice()))? {
        return Ok(Some(answer));
    }
    at_float_end_from(alloc, model, None)
}

// Solves a model past the usual limits exactly, from a starting basis if there is one.
fn large_exactly(
    alloc: Global,
    model: &Model,
    budget: u64,
    starting: Option<&Basis>,
) -> Result<ExactEnd, AllocError>
    requires { ¬ (IsUsual model.now) }
    ensures { IfOk result (IsExactEnd model.now budget (option_map (λ basis. basis.now) starting.entry)) }
{
    match starting {
        Some(basis) => Ok(or_open(large_from(alloc, model, basis)?)),
        None => large_cold(alloc, model),
    }
}

/// Solves the model, and has the certificate of its answer checked without a limit, unless it is that of a solve at 127
/// bits, which was checked there, or of bounds that clash.
///
/// Without a starting basis it asks first for what the end of a run in floating point leads to: the answer of a basis,
/// or that there is no optimum. From a starting basis it asks first for the answer of this basis, or of one that is
/// reached from it in a few steps; of a model past the usual limits it begins with what a short run in floating point
/// from there leads to. Where that comes to nothing, it solves a usual model at 127 bits, and where an operation is
/// refused there over rows of whole numbers without a limit: from the starting basis, then to what the end of a run in
/// floating point leads to, and at last from the start that each model has. Of a larger model it goes on from the basis
/// to what a long run in floating point from there leads to, and then one without it.
///
/// Of a usual model it ends open only where a solve at 127 bits gives up. The basis of an answer is one at which its
/// certificate stands.
pub fn solve_exactly(
    alloc: Global,
    model: &Model,
    budget: u64,
    starting: Option<&Basis>,
) -> Result<ExactEnd, AllocError>
    requires { IfSome starting (λ basis. HasBasis (Some number_limit) model.now basis.now) }
    ensures { IfOk result (IsExactEnd model.now budget (option_map (λ basis. basis.now) starting.entry)) }
{
    if !is_usual(model) {
        return large_exactly(alloc, model, budget, starting);
    }
    match form(alloc, model) {
        Ok(form) => {
            let end = by_form(alloc, model, budget, &form, starting);
            drop(form);
            end
        }
        Err(stop) => formless(model, stop),
    }
}
