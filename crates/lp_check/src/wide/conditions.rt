// The check of a certificate: the conditions in their order.
ghost use Rattle.std.specs.Prelude.{◌≡◌, None, IfOk, length};
ghost use Rattle.spec_model.specs.Model.{width, height};
ghost use Rattle.lp_check.specs.Said.{Says};
ghost use Rattle.spec_check.specs.declared.certificate.Certificate.TheVariants.{Optimal, Infeasible, Unbounded};
ghost use Rattle.spec_check.specs.Certificate.{IsFor};
ghost use Rattle.spec_check.specs.Run as run;

use crate::wide::certificate::{Certificate, Known, Ratios, Verdict};
use crate::wide::farkas::{clash, infeasible};
use crate::wide::multipliers::{columns_tight, rows_tight};
use crate::wide::point::{columns_within, rows_within, value};
use crate::wide::prices::reduced_costs;
use crate::wide::ray::{columns_allow, gets_better, rows_allow};
use crate::wide::sums::evaluated;
use lp_model::Model;
use std::alloc::{AllocError, Global};

// Condition 2: whether the sum of each row at the point is within the row's limits.
fn point_within(alloc: Global, model: &Model, x: &Ratios) -> Result<bool, AllocError>
    requires { length x.now ≡ width model.now }
    ensures { IfOk result (λ b. run.rows_run None model.now x.now ≡ run.need 2 b) }
{
    let point = evaluated(alloc, model, x)?;
    rows_within(alloc, model, &point.sums)
}

// Condition 3: whether the point's value in each column is at the bound that the column's reduced cost needs.
fn point_tight(alloc: Global, model: &Model, x: &Ratios, y: &Ratios) -> Result<bool, AllocError>
    requires point { length x.now ≡ width model.now }
    requires multipliers { length y.now ≡ height model.now }
    ensures { IfOk result (λ b.
        run.each (width model.now) (run.column_tight_run None model.now x.now y.now) ≡ run.need 3 b) }
{
    let reduced = reduced_costs(alloc, model, y)?;
    columns_tight(alloc, model, x, &reduced)
}

// The verdict on a certificate of an optimum: the first of its conditions that fails, or the point's value.
fn optimal(alloc: Global, model: &Model, x: &Ratios, y: &Ratios) -> Result<Verdict, AllocError>
    requires point { length x.now ≡ width model.now }
    requires multipliers { length y.now ≡ height model.now }
    ensures { IfOk result (Says model.now (Optimal x.now y.now)) }
{
    if !columns_within(alloc, model, x)? {
        return Ok(Verdict::No(1));
    }
    let point = evaluated(alloc, model, x)?;
    if !rows_within(alloc, model, &point.sums)? {
        return Ok(Verdict::No(2));
    }
    if !point_tight(alloc, model, x, y)? {
        return Ok(Verdict::No(3));
    }
    if !rows_tight(alloc, model, y, &point.sums)? {
        return Ok(Verdict::No(4));
    }
    let value = value(alloc, model, &point.cost)?;
    Ok(Verdict::Yes(Known::Optimal(value)))
}

// The verdict on a certificate of a ray: the first of its conditions that fails, or that the model is unbounded.
fn unbounded(alloc: Global, model: &Model, x: &Ratios, r: &Ratios) -> Result<Verdict, AllocError>
    requires point { length x.now ≡ width model.now }
    requires ray { length r.now ≡ width model.now }
    ensures { IfOk result (Says model.now (Unbounded x.now r.now)) }
{
    if !columns_within(alloc, model, x)? {
        return Ok(Verdict::No(1));
    }
    if !point_within(alloc, model, x)? {
        return Ok(Verdict::No(2));
    }
    if !columns_allow(model, r) {
        return Ok(Verdict::No(3));
    }
    let ray = evaluated(alloc, model, r)?;
    if !rows_allow(alloc, model, &ray.sums)? {
        return Ok(Verdict::No(4));
    }
    if !gets_better(model.sense(), &ray.cost) {
        return Ok(Verdict::No(5));
    }
    Ok(Verdict::Yes(Known::Unbounded))
}

/// Whether the certificate shows something of the model: `Yes` with what it shows, or `No` with the number of the first
/// condition that fails. The conditions are those of `lp_check`, without a limit on any number.
pub fn check(alloc: Global, model: &Model, cert: &Certificate) -> Result<Verdict, AllocError>
    requires { IsFor model.now cert.now }
    ensures { IfOk result (Says model.now cert.now) }
{
    match cert {
        Certificate::Optimal { x, y } => optimal(alloc, model, x, y),
        Certificate::Infeasible { y } => infeasible(alloc, model, y),
        Certificate::Clash(j) => clash(alloc, model, *j),
        Certificate::Unbounded { x, r } => unbounded(alloc, model, x, r),
    }
}
