// Answers by certificates of unproved engines, or of runs without a limit: each is checked.
ghost use Rattle.std.specs.Prelude.{◌≡◌, IfOk, IfSome, IsTrue, Ok, Some};
ghost use Rattle.spec_exact.specs.Narrow.{number_limit};
ghost use Rattle.spec_check.specs.Certificate.{IsFor};
ghost use Rattle.spec_simplex.specs.Eliminate.{IsBasisOf};
ghost use Rattle.spec_simplex.specs.Form.{form_of};
ghost use Rattle.spec_solve.specs.OfBasis.{IsOfBasis};
ghost use Rattle.spec_solve.specs.Exact.{IsBasisOfAnswer, IsExactAnswer};

use crate::acceptance::accepted;
use crate::basis::basis_of;
use crate::exact::ExactAnswer;
use crate::stands::stand_at_basis;
use lp_check::wide::Certificate;
use lp_float::{FloatEnd, float_end, near_end};
use lp_form::{Basis, Form, LargeForm, Status, is_basis, large_form};
use lp_frac::Stop;
use lp_lift::{Lifted, answer_of_basis};
use lp_model::Model;
use lp_ratio::Ratio;
use lp_row_runs::{RowEnd, cold_over_rows, wide_warm};
use spec_runs::Route;
use spec_solve::Origin;
use std::alloc::{AllocError, Global};

// How many steps, each with systems of its own, an answer may be from the basis that a run in floats ends with, or from
// the starting basis: where floats end at a basis that is not optimal exactly, it is mostly within a dozen.
const MOST_STEPS: u32 = 20;

// How many steps more there may be, times the columns and rows: of small models more, since a step of them takes
// little.
const MORE_STEPS: u32 = 10_000;

// The effort of a run without a limit on the numbers of its certificate, some minutes of it.
const WIDE_WORK: u64 = 64_000_000_000;

// The exact answer with this certificate and basis, if the checker accepts the certificate and its numbers fit their
// lines; else none.
fn answered(
    alloc: Global,
    model: &Model,
    certificate: Certificate,
    basis: Option<Basis>,
    origin: Origin,
) -> Result<Option<ExactAnswer>, AllocError>
    requires fits { IsFor model.now certificate }
    requires based { IfSome basis (IsBasisOfAnswer model.now certificate) }
    ensures { IfOk result (λ o. IfSome o (IsExactAnswer model.now)) }
{
    match accepted(alloc, model, &certificate)? {
        Some(known) => Ok(Some(ExactAnswer {
            known,
            certificate,
            basis,
            origin,
        })),
        None => {
            drop(certificate);
            drop(basis);
            Ok(None)
        }
    }
}

// Whether the certificate is that of an optimum at this basis: nonbasic columns and rows are at their bounds, or at 0
// by that status, and basic ones have reduced cost 0.
fn is_at_basis(
    alloc: Global,
    model: &Model,
    certificate: &Certificate,
    basis: &Basis,
) -> Result<bool, AllocError>
    requires { IsFor model.now certificate.now }
    ensures { IfOk result (λ b. IsTrue b → IsOfBasis model.now basis.now certificate.now) }
{
    match certificate {
        Certificate::Optimal { x, y } => stand_at_basis(alloc, model, basis.as_slice(), x, y),
        Certificate::Infeasible { .. } | Certificate::Clash(_) | Certificate::Unbounded { .. } =>
            Ok(false),
    }
}

/// The basis that is left of an end, if there is one and the certificate is that of this basis; else none.
pub(crate) fn basis_of_answer(
    alloc: Global,
    model: &Model,
    form: &Form,
    certificate: &Certificate,
    basis: Option<Basis>,
) -> Result<Option<Basis>, AllocError>
    requires formed { form_of (Some number_limit) model.now ≡ Ok form.now }
    requires fits { IsFor model.now certificate.now }
    requires based { IfSome basis (λ basis. IsBasisOf form.now basis) }
    ensures { IfOk result (λ o. IfSome o (IsBasisOfAnswer model.now certificate.now)) }
{
    let Some(basis) = basis else {
        return Ok(None);
    };
    if is_at_basis(alloc, model, certificate, &basis)? {
        Ok(Some(basis))
    } else {
        drop(basis);
        Ok(None)
    }
}

// The basis with these statuses, if it is one of the form, and the certificate is that of the basis.
fn based_at(
    alloc: Global,
    model: &Model,
    form: &LargeForm,
    certificate: &Certificate,
    statuses: Vec<Status>,
) -> Result<Option<Basis>, AllocError>
    requires formed { form_of (Some number_limit) model.now ≡ Ok form.now }
    requires fits { IsFor model.now certificate.now }
    ensures { IfOk result (λ o. IfSome o (IsBasisOfAnswer model.now certificate.now)) }
{
    if !is_basis(form, &statuses) {
        drop(statuses);
        return Ok(None);
    }
    let basis = Basis::from_vec(statuses, form.rows());
    if is_at_basis(alloc, model, certificate, &basis)? {
        Ok(Some(basis))
    } else {
        drop(basis);
        Ok(None)
    }
}

// The basis with these statuses, if the model has a form of which it is one, and the certificate is that of the basis.
fn basis_of_statuses(
    alloc: Global,
    model: &Model,
    certificate: &Certificate,
    statuses: Vec<Status>,
) -> Result<Option<Basis>, AllocError>
    requires { IsFor model.now certificate.now }
    ensures { IfOk result (λ o. IfSome o (IsBasisOfAnswer model.now certificate.now)) }
{
    match large_form(alloc, model) {
        Ok(form) => {
            let basis = based_at(alloc, model, &form, certificate, statuses);
            drop(form);
            basis
        }
        Err(stop) => {
            drop(statuses);
            match stop {
                Stop::NoMemory => Err(AllocError),
                Stop::Cause(_) | Stop::Past(_) => Ok(None),
            }
        }
    }
}

// The exact answer with the certificate that a basis was lifted to, and with its basis if it is one. None if the
// certificate is not accepted.
fn at_lifted(
    alloc: Global,
    model: &Model,
    lifted: Lifted,
    origin: Origin,
) -> Result<Option<ExactAnswer>, AllocError>
    requires { IsFor model.now lifted.certificate }
    ensures { IfOk result (λ o. IfSome o (IsExactAnswer model.now)) }
{
    let Lifted {
        certificate,
        statuses,
        steps: _,
    } = lifted;
    let basis = basis_of_statuses(alloc, model, &certificate, statuses)?;
    answered(alloc, model, certificate, basis, origin)
}

/// The answer of the basis, or of one that is reached from it in a few steps, by lifting. None if that finds none, or
/// its certificate is not accepted.
pub(crate) fn at_basis(
    alloc: Global,
    model: &Model,
    basis: &Basis,
) -> Result<Option<ExactAnswer>, AllocError>
    ensures { IfOk result (λ o. IfSome o (IsExactAnswer model.now)) }
{
    match answer_of_basis(alloc, model, basis.as_slice(), None, most_steps(model))? {
        Some(lifted) => {
            let origin = Origin::Warm(u64::from(lifted.steps));
            at_lifted(alloc, model, lifted, origin)
        }
        None => Ok(None),
    }
}

// The most steps that a search for an answer may take from a basis of the model. A small model has more of them.
fn most_steps(model: &Model) -> u32 {
    MOST_STEPS + MORE_STEPS / (model.cols() + model.rows()).max(1)
}

// What lifting finds at the basis that a run in floats ended with, or at one a few steps on. None if the run has no
// end, or lifting finds nothing.
fn lifted_at(
    alloc: Global,
    model: &Model,
    end: Option<FloatEnd>,
) -> Result<Option<Lifted>, AllocError>
    ensures { IfOk result (λ o. IfSome o (λ l. IsFor model.now l.certificate)) }
{
    let Some(end) = end else {
        return Ok(None);
    };
    answer_of_basis(alloc, model, &end.statuses, end.witness, most_steps(model))
}

// Whether a column entered a basis, or went to another bound.
fn has_moved(from: Status, to: Status) -> bool {
    match (from, to) {
        (Status::Basic, _)
        | (Status::AtLower, Status::AtLower)
        | (Status::AtUpper, Status::AtUpper)
        | (Status::AtZero, Status::AtZero) => false,
        _ => true,
    }
}

// How many pivots and flips are between two bases, at the least.
fn moves(from: &[Status], to: &[Status]) -> u64 {
    let mut moves: u64 = 0;
    for (from, to) in from.iter().zip(to) {
        if has_moved(*from, *to) {
            moves = moves.saturating_add(1);
        }
    }
    moves
}

/// The answer that a run in floats from the start leads to, without its basis; none if it leads to none.
pub(crate) fn at_float_end(alloc: Global, model: &Model) -> Result<Option<ExactAnswer>, AllocError>
    ensures { IfOk result (λ o. IfSome o (IsExactAnswer model.now)) }
{
    let end = float_end(alloc, model, None)?;
    match lifted_at(alloc, model, end)? {
        Some(lifted) => {
            let Lifted {
                certificate,
                statuses,
                steps: _,
            } = lifted;
            drop(statuses);
            answered(alloc, model, certificate, None, Origin::Cold)
        }
        None => Ok(None),
    }
}

/// The answer that a short run in floats from a basis leads to: that of the basis, where it is optimal in floats. None
/// if it leads to none.
pub(crate) fn at_near_end(
    alloc: Global,
    model: &Model,
    basis: &Basis,
) -> Result<Option<ExactAnswer>, AllocError>
    ensures { IfOk result (λ o. IfSome o (IsExactAnswer model.now)) }
{
    let end = near_end(alloc, model, basis.as_slice())?;
    match lifted_at(alloc, model, end)? {
        Some(lifted) => {
            let origin = Origin::Warm(moves(basis.as_slice(), &lifted.statuses));
            at_lifted(alloc, model, lifted, origin)
        }
        None => Ok(None),
    }
}

/// The answer that a run in floats leads to: from these statuses of a starting basis, or from the start, where there is
/// a starting basis that the run does not use. None if it leads to none.
pub(crate) fn at_float_end_from(
    alloc: Global,
    model: &Model,
    statuses: Option<&[Status]>,
) -> Result<Option<ExactAnswer>, AllocError>
    ensures { IfOk result (λ o. IfSome o (IsExactAnswer model.now)) }
{
    let end = float_end(alloc, model, statuses)?;
    match lifted_at(alloc, model, end)? {
        Some(lifted) => {
            let steps = u64::from(lifted.steps);
            let origin = match statuses {
                Some(_) => Origin::Warm(steps),
                None => Origin::Fell(steps),
            };
            at_lifted(alloc, model, lifted, origin)
        }
        None => Ok(None),
    }
}

/// The origin of an answer that was found on this route, cold or from a basis.
pub(crate) fn origin_of(route: Route, pivots: u64) -> Origin {
    match route {
        Route::Cold => Origin::Cold,
        Route::Warm => Origin::Warm(pivots),
        Route::Fell(_) => Origin::Fell(pivots),
    }
}

// The answer of a run over rows on this route, if its certificate is accepted without a limit.
fn at_row_end(
    alloc: Global,
    model: &Model,
    form: &Form,
    end: RowEnd<Ratio>,
    route: Route,
) -> Result<Option<ExactAnswer>, AllocError>
    requires formed { form_of (Some number_limit) model.now ≡ Ok form.now }
    requires fits { IsFor model.now end.certificate }
    requires based { IfSome end.basis (λ basis. IsBasisOf form.now basis) }
    ensures { IfOk result (λ o. IfSome o (IsExactAnswer model.now)) }
{
    let RowEnd {
        certificate,
        basis,
        pivots,
    } = end;
    let left = basis_of(form, basis);
    let basis = basis_of_answer(alloc, model, form, &certificate, left)?;
    answered(alloc, model, certificate, basis, origin_of(route, pivots))
}

/// The answer of the run over integer rows from the start that each model has, in numbers of any width. None where the
/// run gives up or the certificate is not accepted.
pub(crate) fn over_rows(
    alloc: Global,
    model: &Model,
    form: &Form,
    budget: u64,
    route: Route,
) -> Result<Option<ExactAnswer>, AllocError>
    requires { form_of (Some number_limit) model.now ≡ Ok form.now }
    ensures { IfOk result (λ o. IfSome o (IsExactAnswer model.now)) }
{
    match cold_over_rows::<Ratio>(alloc, form, budget, WIDE_WORK)? {
        Some(end) => at_row_end(alloc, model, form, end, route),
        None => Ok(None),
    }
}

/// The answer of the run over integer rows from the basis, in numbers of any width. None where the run gives up or the
/// certificate is not accepted.
pub(crate) fn over_rows_from(
    alloc: Global,
    model: &Model,
    form: &Form,
    budget: u64,
    basis: &Basis,
) -> Result<Option<ExactAnswer>, AllocError>
    requires formed { form_of (Some number_limit) model.now ≡ Ok form.now }
    requires fits { IsBasisOf form.now basis.now }
    ensures { IfOk result (λ o. IfSome o (IsExactAnswer model.now)) }
{
    match wide_warm(alloc, form, basis.as_slice(), budget)? {
        Some(end) => at_row_end(alloc, model, form, end, Route::Warm),
        None => Ok(None),
    }
}
