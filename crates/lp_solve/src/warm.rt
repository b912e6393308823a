// The warm start of a model from a basis of its form.
ghost use Rattle.std.specs.Prelude.{◌≡◌, ◌≢◌, ℕ, Err, IfOk, Ok, Some};
ghost use Rattle.spec_exact.specs.Narrow.{number_limit};
ghost use Rattle.spec_check.specs.Certificate.{IsFor, IsNarrowCertificate};
ghost use Rattle.spec_check.specs.Run.{check_run};
ghost use Rattle.spec_check.specs.declared.certificate.CheckStop.TheVariants.{No};
ghost use Rattle.spec_simplex.specs.declared.ends.Fit.TheVariants as fitted;
ghost use Rattle.spec_simplex.specs.Eliminate.{IsBasisOf};
ghost use Rattle.spec_simplex.specs.Eliminate as eliminated;
ghost use Rattle.spec_simplex.specs.Form.{form_of};
ghost use Rattle.spec_runs.specs.Warm as warm;
ghost use Rattle.lp_solve.specs.Begun.{IsBegun};
ghost use Rattle.lp_solve.specs.Fit.{IsWarmFit};

use crate::basis::{basis_at, basis_of, dual_basis};
use crate::certificate::{certificate_at, dual_certificate};
use lp_check::{Certificate, Verdict, check};
use lp_form::{Basis, Form};
use lp_frac::{Frac, Fracs, Stop};
use lp_model::Model;
use lp_simplex::dual::{Fit, fit};
use lp_tableau::{RunStop, Tableau, start_from};
use std::alloc::{AllocError, Global};

/// How a warm start ends.
pub(crate) type Warm = spec_runs::Warm<Frac, Fracs, Basis>;

/// Why a warm start stops without an answer.
pub(crate) type WarmStop = spec_simplex::WarmStop<Frac>;

// The stop of a run, an overflow or a spent budget, as one of the warm start.
fn run_stop(stop: RunStop) -> WarmStop
    ensures { result ≡ warm.run_stop stop }
{
    match stop {
        RunStop::Past(past) => WarmStop::Past(past),
        RunStop::Spent => WarmStop::Spent,
    }
}

// The end of a warm start by what the checker says of its certificate: yes with an answer, or an overflow. It never
// says no to that of an end (`warm_ends_are_accepted` of spec_runs).
fn checked_warm(model: &Model, certificate: Certificate, basis: Option<Basis>, pivots: u64) -> Warm
    requires fits { IsFor model.now certificate }
    requires never_no { (n : ℕ) → check_run (Some number_limit) model.now certificate ≢ Err (No n) }
    requires narrow { IsNarrowCertificate certificate }
    ensures answer { result ≡ warm.answered (Some number_limit) model.now certificate basis pivots }
    ensures narrow { IsWarmFit model.now result }
{
    match check(model, &certificate) {
        Verdict::Yes(answer) => Warm::Ended {
            answer,
            certificate,
            basis,
            pivots,
        },
        Verdict::Past(past) => {
            drop(certificate);
            drop(basis);
            Warm::Stopped(WarmStop::Past(past))
        }
        Verdict::No(_) => unreachable!(),
    }
}

// Runs the primal method from a primal feasible tableau, and has the certificate of its end checked. Where the run or
// the check is refused an operation, or the budget is spent, the warm start stops.
fn by_primal(
    alloc: Global,
    budget: u64,
    model: &Model,
    form: &Form,
    tab: &mut Tableau,
) -> Result<Warm, AllocError>
    requires formed { form_of (Some number_limit) model.now ≡ Ok form.now }
    requires begun { IsBegun model.now tab.old fitted.Primal }
    ensures answer { IfOk result
        (λ w. w ≡ warm.after_run (Some number_limit) model.now (warm.run_by (Some number_limit) budget tab.old
        fitted.Primal)) }
    ensures narrow { IfOk result (IsWarmFit model.now) }
{
    let mut used = 0;
    match lp_simplex::primal::run(tab, &mut used, budget) {
        Ok(end) => {
            let statuses = basis_at(alloc, tab, end)?;
            let certificate = certificate_at(alloc, tab, end)?;
            Ok(checked_warm(model, certificate, basis_of(form, statuses), used))
        }
        Err(stop) => Ok(Warm::Stopped(run_stop(stop))),
    }
}

// Runs the dual method from a dual feasible tableau, and has the certificate of its end checked. Where the run or the
// check is refused an operation, or the budget is spent, the warm start stops.
fn by_dual(
    alloc: Global,
    budget: u64,
    model: &Model,
    form: &Form,
    tab: &mut Tableau,
) -> Result<Warm, AllocError>
    requires formed { form_of (Some number_limit) model.now ≡ Ok form.now }
    requires begun { IsBegun model.now tab.old fitted.Dual }
    ensures answer { IfOk result
        (λ w. w ≡ warm.after_run (Some number_limit) model.now (warm.run_by (Some number_limit) budget tab.old
        fitted.Dual)) }
    ensures narrow { IfOk result (IsWarmFit model.now) }
{
    let mut used = 0;
    match lp_simplex::dual::run(tab, &mut used, budget) {
        Ok(end) => {
            let statuses = dual_basis(alloc, tab, end)?;
            let certificate = dual_certificate(alloc, tab, end)?;
            Ok(checked_warm(model, certificate, basis_of(form, statuses), used))
        }
        Err(stop) => Ok(Warm::Stopped(run_stop(stop))),
    }
}

// Runs the method for which the tableau of the basis is feasible. It stops where the tableau is neither primal nor dual
// feasible, an operation is past 127 bits, or the budget is spent.
fn from_tableau(
    alloc: Global,
    budget: u64,
    model: &Model,
    form: &Form,
    basis: &Basis,
    tab: &mut Tableau,
) -> Result<Warm, AllocError>
    requires formed { form_of (Some number_limit) model.now ≡ Ok form.now }
    requires fits { IsBasisOf form.now basis.now }
    requires starts { eliminated.start_from (Some number_limit) form.now basis.now ≡ Ok tab.old }
    ensures answer { IfOk result (λ w. w ≡ warm.after_form (Some number_limit) budget model.now basis.now (Ok form.now)) }
    ensures narrow { IfOk result (IsWarmFit model.now) }
{
    match fit(tab) {
        Ok(Fit::Primal) => by_primal(alloc, budget, model, form, tab),
        Ok(Fit::Dual) => by_dual(alloc, budget, model, form, tab),
        Ok(Fit::Unfit) => Ok(Warm::Stopped(WarmStop::Unfit)),
        Err(past) => Ok(Warm::Stopped(WarmStop::Past(past))),
    }
}

/// The warm start: makes the tableau of the basis, runs the method for which it is feasible, and has the certificate of
/// its end checked. It stops where the basis is singular or feasible for neither method, an operation is past 127 bits,
/// or the budget is spent.
pub(crate) fn from_basis(
    alloc: Global,
    budget: u64,
    model: &Model,
    form: &Form,
    basis: &Basis,
) -> Result<Warm, AllocError>
    requires formed { form_of (Some number_limit) model.now ≡ Ok form.now }
    requires fits { IsBasisOf form.now basis.now }
    ensures answer { IfOk result (λ w. w ≡ warm.after_form (Some number_limit) budget model.now basis.now (Ok form.now)) }
    ensures narrow { IfOk result (IsWarmFit model.now) }
{
    match start_from(alloc, form, basis) {
        Ok(mut tab) => {
            let warm = from_tableau(alloc, budget, model, form, basis, &mut tab);
            drop(tab);
            warm
        }
        Err(Stop::Cause(_)) => Ok(Warm::Stopped(WarmStop::Singular)),
        Err(Stop::Past(past)) => Ok(Warm::Stopped(WarmStop::Past(past))),
        Err(Stop::NoMemory) => Err(AllocError),
    }
}
