// The solve of a model whose objective is 0.
ghost use Rattle.std.specs.Prelude.{◌≡◌, IfOk};
ghost use Rattle.spec_model.specs.Kept.{IsUsual};
ghost use Rattle.lp_iis.specs.Trials.{IsTried};
ghost use Rattle.lp_iis.specs.Trials as trials;

use lp_check::Certificate;
use lp_frac::Fracs;
use lp_model::Model;
use lp_solve::{End, solve};
use std::alloc::{AllocError, Global};

/// What a solve says of a model whose objective is 0.
#[derive(Drop)]
pub(crate) enum Trial {
    /// No point is feasible, by this certificate.
    Infeasible(Certificate),
    /// This point is feasible.
    Point(Fracs),
    /// The solve gives up.
    Stopped(End),
}

// What a certificate says of a model whose objective is 0: of an optimum or a ray its point, which is feasible; else
// that no point is.
fn said(certificate: Certificate) -> Trial
    ensures { result ≡ trials.trial_by certificate }
{
    match certificate {
        Certificate::Optimal { x, y } => {
            drop(y);
            Trial::Point(x)
        }
        Certificate::Unbounded { x, r } => {
            drop(r);
            Trial::Point(x)
        }
        Certificate::Infeasible { .. } | Certificate::Clash(_) => Trial::Infeasible(certificate),
    }
}

// What the end of a solve says of its model: a feasible point, that there is none, or that the solve gave up.
fn said_by(end: End) -> Trial
    ensures { result ≡ trials.trial_of end }
{
    match end {
        End::Ended {
            answer: _,
            certificate,
            basis,
            pivots: _,
        } => {
            drop(basis);
            said(certificate)
        }
        End::Past(past) => Trial::Stopped(End::Past(past)),
        End::Spent => Trial::Stopped(End::Spent),
    }
}

/// Solves a model whose objective is 0 cold. Tells a feasible point, or that there is none, or that the solve gave up.
/// Memory may run out.
pub(crate) fn try_model(alloc: Global, model: &Model, budget: u64) -> Result<Trial, AllocError>
    requires { IsUsual model.now }
    ensures { IfOk result (IsTried budget model.now) }
{
    let (end, _) = solve(alloc, model, budget, None)?;
    Ok(said_by(end))
}
