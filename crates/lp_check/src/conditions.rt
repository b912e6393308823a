// The check of a certificate: the conditions in their order.
ghost use Rattle.std.specs.Prelude.{◌≡◌, Some, length};
ghost use Rattle.spec_exact.specs.Narrow.{number_limit};
ghost use Rattle.spec_model.specs.Model.{width, height};
ghost use Rattle.spec_check.specs.Certificate.{IsFor};
ghost use Rattle.spec_check.specs.Run as run;

use crate::certificate::{Certificate, CheckStop, Known, Verdict};
use crate::farkas::{clash, infeasible};
use crate::multipliers::{columns_tight, rows_tight};
use crate::point::{columns_within, rows_within, value};
use crate::ray::{better, columns_allow, rows_allow};
use lp_frac::Fracs;
use lp_model::Model;

// What a certificate of an optimum shows: the optimal value. Or the first of its conditions that fails, or the first
// operation past 127 bits.
fn optimal(model: &Model, x: &Fracs, y: &Fracs) -> Result<Known, CheckStop>
    requires point { length x.now ≡ width model.now }
    requires multipliers { length y.now ≡ height model.now }
    ensures { result ≡ run.optimal_run (Some number_limit) model.now x.now y.now }
{
    columns_within(model, x)?;
    rows_within(model, x)?;
    columns_tight(model, x, y)?;
    rows_tight(model, x, y)?;
    Ok(Known::Optimal(value(model, x)?))
}

// What a certificate with a ray shows: that the model is unbounded. Or the first of its conditions that fails, or the
// first operation past 127 bits.
fn unbounded(model: &Model, x: &Fracs, r: &Fracs) -> Result<Known, CheckStop>
    requires point { length x.now ≡ width model.now }
    requires ray { length r.now ≡ width model.now }
    ensures { result ≡ run.unbounded_run (Some number_limit) model.now x.now r.now }
{
    columns_within(model, x)?;
    rows_within(model, x)?;
    columns_allow(model, r)?;
    rows_allow(model, r)?;
    better(model, r)?;
    Ok(Known::Unbounded)
}

// What the certificate shows, or the first condition that fails, or the first operation past 127 bits.
#[tactic(auto, unfolding(spec_check::specs::Run::check_run))]
fn accepted(model: &Model, cert: &Certificate) -> Result<Known, CheckStop>
    requires { IsFor model.now cert.now }
    ensures { result ≡ run.check_run (Some number_limit) model.now cert.now }
{
    match cert {
        Certificate::Optimal { x, y } => optimal(model, x, y),
        Certificate::Infeasible { y } => infeasible(model, y),
        Certificate::Clash(j) => clash(model, *j),
        Certificate::Unbounded { x, r } => unbounded(model, x, r),
    }
}

/// Whether the certificate shows something of the model: `Yes` with what it shows, `No` with the
/// number of the first condition that fails, or `Past` with the first operation that is past 127
/// bits. It takes no memory.
///
/// The conditions of a certificate `Optimal`, in their order: 1, each column's value is within its
/// bounds; 2, each row's sum is within its limits; 3, a column whose reduced cost is not 0 is at
/// the bound that its sign asks for; 4, a row whose multiplier is not 0 is at the limit that its
/// sign asks for. Of `Infeasible`: 1, a row whose multiplier is not 0 has the limit that its sign
/// asks for; 2, a column in which the multipliers' part is not 0 has the bound that its sign asks
/// for; 3, the columns give less than the rows ask for. Of `Clash`: 1, the lower bound is above the
/// upper one. Of `Unbounded`: 1 and 2 as for `Optimal`; 3, a column's part in the ray leaves no
/// bound; 4, a row's sum over the ray leaves no limit; 5, the objective gets better.
pub fn check(model: &Model, cert: &Certificate) -> Verdict
    requires { IsFor model.now cert.now }
    ensures { result ≡ run.verdict_of (run.check_run (Some number_limit) model.now cert.now) }
{
    match accepted(model, cert) {
        Ok(known) => Verdict::Yes(known),
        Err(CheckStop::No(n)) => Verdict::No(n),
        Err(CheckStop::Past(past)) => Verdict::Past(past),
    }
}
