// The solve of a model by a smaller one.
ghost use Rattle.std.specs.Prelude.{◌≢◌, ℕ, All, Err, IfOk, Some};
ghost use Rattle.spec_exact.specs.Narrow.{IsNarrow, number_limit};
ghost use Rattle.spec_check.specs.Certificate.{IsFor, IsNarrowCertificate};
ghost use Rattle.spec_check.specs.Run.{check_run};
ghost use Rattle.spec_check.specs.declared.certificate.CheckStop.TheVariants.{No};
ghost use Rattle.spec_model.specs.Kept.{IsUsual, IsUsualModel};
ghost use Rattle.spec_presolve.specs.Presolved.{IsPlain, IsPresolved};
ghost use Rattle.lp_presolve.specs.Tries.{Accepts, Led, Tries};

use crate::carrying::carry;
use crate::copying::copied;
use crate::last::last_certificate;
use crate::reductions::{Spent, reduce};
use crate::step::{Step, Steps};
use lp_check::{Certificate, Verdict, check};
use lp_form::Basis;
use lp_frac::{Frac, Fracs, Past, Stop, all_within};
use lp_model::Model;
use lp_solve::{End, solve};
use spec_presolve::Halt;
use std::alloc::{AllocError, Global};

/// Why a model is solved as it is.
pub type Why = spec_presolve::Why<Frac>;

/// Which model is solved.
pub type Way = spec_presolve::Way<Frac>;

/// What a solve by a smaller model ends with.
pub type Presolved = spec_presolve::Presolved<Frac, Fracs, Basis>;

// Does nothing: proofs take from the call that the numbers of the list have at most 127 bits.
fn are_narrow(numbers: &Fracs)
    ensures { All IsNarrow numbers.now }
{
    all_within(numbers.as_slice());
}

// Does nothing: proofs take from the call that the numbers of the certificate have at most 127 bits.
fn is_narrow(certificate: &Certificate)
    ensures { IsNarrowCertificate certificate.now }
{
    match certificate {
        Certificate::Optimal { x, y } => {
            are_narrow(x);
            are_narrow(y);
        }
        Certificate::Infeasible { y } => are_narrow(y),
        Certificate::Clash(_) => {}
        Certificate::Unbounded { x, r } => {
            are_narrow(x);
            are_narrow(r);
        }
    }
}

// The end of a presolved solve by the answer that the checker gives to a certificate carried back from the last model.
// It never says no; its overflow is passed on.
fn accepted(
    model: &Model,
    last: &Model,
    certificate: Certificate,
    pivots: u64,
) -> Result<Presolved, Past>
    requires fits { IsFor model.now certificate }
    requires never_no { (n : ℕ) → check_run (Some number_limit) model.now certificate ≢ Err (No n) }
    ensures { Accepts model.now last.now certificate pivots result }
{
    match check(model, &certificate) {
        Verdict::Yes(answer) => Ok(Presolved {
            way: Way::Reduced {
                rows: last.rows(),
                columns: last.cols(),
            },
            end: End::Ended {
                answer,
                certificate,
                basis: None,
                pivots,
            },
        }),
        Verdict::Past(past) => Err(past),
        Verdict::No(_) => unreachable!(),
    }
}

// Solves the model by the last one, to which the steps lead, and carries the certificate back.
fn from_last(
    alloc: Global,
    model: &Model,
    last: &Model,
    steps: &[Step],
    halt: Halt,
    budget: u64,
) -> Result<Presolved, Stop<Spent>>
    requires kept { IsUsualModel model.now }
    requires led { Led model.now last.now steps.now halt }
    ensures { Tries model.now budget result }
{
    let (certificate, pivots) = last_certificate(alloc, last, halt, budget)?;
    let certificate = carry(alloc, steps, certificate)?;
    is_narrow(&certificate);
    Ok(accepted(model, last, certificate, pivots)?)
}

// Makes the model smaller as far as it goes, solves that smaller model, and carries the certificate back. An overflow
// or a spent budget stops it.
fn by_smaller(alloc: Global, model: &Model, budget: u64) -> Result<Presolved, Stop<Spent>>
    requires { IsUsualModel model.now }
    ensures { Tries model.now budget result }
{
    let mut last = copied(alloc, model)?;
    let mut steps = Steps::new(alloc);
    let halt = reduce(alloc, &mut last, &mut steps, model.cols() + model.rows())?;
    from_last(alloc, model, &last, steps.as_slice(), halt, budget)
}

// Solves the model as it is, which `why` gives the reason for.
fn plain(alloc: Global, model: &Model, budget: u64, why: Why) -> Result<Presolved, AllocError>
    requires { IsUsual model.now }
    ensures { IfOk result (IsPlain model.now budget why) }
{
    let (end, _) = solve(alloc, model, budget, None)?;
    Ok(Presolved {
        way: Way::Plain(why),
        end,
    })
}

/// Solves the model by a smaller one and carries the certificate back. Where an operation is past 127 bits on that way,
/// or the budget is spent, it solves the model as it is, with the whole budget.
pub fn presolve(alloc: Global, model: &Model, budget: u64) -> Result<Presolved, AllocError>
    requires { IsUsualModel model.now }
    ensures { IfOk result (IsPresolved model.now budget) }
{
    match by_smaller(alloc, model, budget) {
        Ok(presolved) => Ok(presolved),
        Err(Stop::Past(past)) => plain(alloc, model, budget, Why::Past(past)),
        Err(Stop::Cause(Spent)) => plain(alloc, model, budget, Why::Spent),
        Err(Stop::NoMemory) => Err(AllocError),
    }
}
