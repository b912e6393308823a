// The cold solve of a model over whole tableaus, from its form.
ghost use Rattle.std.specs.Prelude.{◌≡◌, ◌≢◌, ℕ, Err, IfOk, IfSome, Ok, Some};
ghost use Rattle.spec_exact.specs.Narrow.{number_limit};
ghost use Rattle.spec_check.specs.Certificate.{IsFor, IsNarrowCertificate};
ghost use Rattle.spec_check.specs.Run.{check_run};
ghost use Rattle.spec_check.specs.declared.certificate.CheckStop.TheVariants.{No};
ghost use Rattle.spec_simplex.specs.Eliminate.{IsBasisOf};
ghost use Rattle.spec_simplex.specs.Form.{form_of};
ghost use Rattle.spec_runs.specs.Cold as cold;
ghost use Rattle.lp_solve.specs.Ends.{end_of, IsInside};
ghost use Rattle.lp_solve.specs.Fit.{IsFit};

use crate::basis::{basis_at, basis_of};
use crate::certificate::{certificate_at, infeasible};
use crate::phases::{Ended, phases};
use lp_check::{Certificate, Verdict, check};
use lp_form::{Basis, Form, StatusList};
use lp_frac::{Frac, Fracs, Stop};
use lp_model::Model;
use lp_tableau::{RunStop, start_cold};
use std::alloc::{AllocError, Global};

/// What a solve ends with: an answer (`Ended`), the first operation that is past 127 bits (`Past`), or that the budget
/// is spent (`Spent`).
pub type End = spec_check::SolveEnd<Frac, Fracs, Basis>;

/// The end of a cold solve by what the checker says of its certificate: yes with an answer, or an overflow. It never
/// says no to that of an end (`ends_are_accepted` of spec_runs).
pub(crate) fn checked_cold(
    model: &Model,
    certificate: Certificate,
    basis: Option<Basis>,
    pivots: u64,
) -> End
    requires fits { IsFor model.now certificate }
    requires never_no { (n : ℕ) → check_run (Some number_limit) model.now certificate ≢ Err (No n) }
    requires narrow { IsNarrowCertificate certificate }
    ensures answer { result ≡ cold.answered (Some number_limit) model.now certificate basis pivots }
    ensures narrow { IsFit model.now result }
{
    match check(model, &certificate) {
        Verdict::Yes(answer) => End::Ended {
            answer,
            certificate,
            basis,
            pivots,
        },
        Verdict::Past(past) => {
            drop(certificate);
            drop(basis);
            End::Past(past)
        }
        Verdict::No(_) => unreachable!(),
    }
}

// The certificate of the end of both phases: of an optimum, of an unbounded model, or, after phase one alone, of an
// infeasible one.
fn certificate(alloc: Global, ended: &Ended) -> Result<Certificate, AllocError>
    requires { IsInside ended.now.tab ended.now.end }
    ensures value { IfOk result (λ c. c ≡ cold.certificate_of (end_of ended.now)) }
    ensures narrow { IfOk result IsNarrowCertificate }
{
    match ended.end {
        None => infeasible(alloc, &ended.tab),
        Some(end) => certificate_at(alloc, &ended.tab, end),
    }
}

// The statuses of the basis of both phases' end, if this is optimal; else none.
fn statuses(alloc: Global, ended: &Ended) -> Result<Option<StatusList>, AllocError>
    ensures { IfOk result (λ b. b ≡ cold.basis_of (end_of ended.now)) }
{
    match ended.end {
        None => Ok(None),
        Some(end) => basis_at(alloc, &ended.tab, end),
    }
}

// The answer of both phases' end: its certificate with the checker's verdict, and its basis.
fn finished(alloc: Global, model: &Model, form: &Form, ended: &Ended) -> Result<End, AllocError>
    requires inside { IsInside ended.now.tab ended.now.end }
    requires fits { IsFor model.now (cold.certificate_of (end_of ended.now)) }
    requires never_no { (n : ℕ) →
        check_run (Some number_limit) model.now (cold.certificate_of (end_of ended.now)) ≢ Err (No n) }
    requires based { IfSome (cold.basis_of (end_of ended.now)) (λ basis. IsBasisOf form.now basis) }
    ensures answer { IfOk result (λ s. s ≡ cold.after_phases (Some number_limit) model.now (Ok (end_of ended.now))) }
    ensures narrow { IfOk result (IsFit model.now) }
{
    let certificate = certificate(alloc, ended)?;
    let statuses = statuses(alloc, ended)?;
    Ok(checked_cold(model, certificate, basis_of(form, statuses), ended.used))
}

/// The cold solve over whole tableaus: it runs both phases on the form of the model within the budget, and has the
/// certificate of their end checked. It ends with that answer, or with `Past` or `Spent` where it gives up.
pub(crate) fn from_form(
    alloc: Global,
    budget: u64,
    model: &Model,
    form: &Form,
) -> Result<End, AllocError>
    requires { form_of (Some number_limit) model.now ≡ Ok form.now }
    ensures answer { IfOk result (λ s. s ≡ cold.after_form (Some number_limit) budget model.now (Ok form.now)) }
    ensures narrow { IfOk result (IsFit model.now) }
{
    let tab = match start_cold(alloc, form) {
        Ok(tab) => tab,
        Err(Stop::Past(past)) => return Ok(End::Past(past)),
        Err(Stop::NoMemory) => return Err(AllocError),
    };
    match phases(tab, form, budget) {
        Ok(ended) => {
            let end = finished(alloc, model, form, &ended);
            drop(ended);
            end
        }
        Err(RunStop::Past(past)) => Ok(End::Past(past)),
        Err(RunStop::Spent) => Ok(End::Spent),
    }
}
