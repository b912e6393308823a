// Conditions 3 to 5 of a ray: points stay feasible along it, and get better.
ghost use Rattle.std.specs.Prelude.{◌≡◌, ◌<◌, Some, length};
ghost use Rattle.spec_exact.specs.Narrow.{number_limit};
ghost use Rattle.spec_model.specs.Model.{width, height};
ghost use Rattle.spec_check.specs.Run as run;

use crate::certificate::CheckStop;
use crate::multipliers::signed;
use crate::point::{activity, cost};
use crate::steps::{need, part};
use lp_frac::{Frac, Fracs, is_negative, is_positive};
use lp_model::{Model, lower_limit, upper_limit};

// Whether a lower limit allows a ray that moves by `r`: there is no limit, or `r` is not below 0.
fn not_below(limit: Option<Frac>, r: Frac) -> bool
    ensures { result ≡ run.not_below limit r }
{
    match limit {
        None => true,
        Some(_) => !is_negative(r),
    }
}

// Whether an upper limit allows a ray that moves by `r`: there is no limit, or `r` is not above 0.
fn not_above(limit: Option<Frac>, r: Frac) -> bool
    ensures { result ≡ run.not_above limit r }
{
    match limit {
        None => true,
        Some(_) => !is_positive(r),
    }
}

// Condition 3 at column `j`: the ray's number for it is not below 0 if it has a lower bound, and not above 0 if it has
// an upper one. Else the condition fails.
fn column_allows(model: &Model, r: &Fracs, j: u32) -> Result<(), CheckStop>
    requires inside { j < width model.now }
    requires ray { length r.now ≡ width model.now }
    ensures { result ≡ run.column_allows_run model.now r.now j }
{
    let column = model.col(j);
    let value = part(r, j);
    need(3, not_below(column.lower, value))?;
    need(3, not_above(column.upper, value))
}

/// Condition 3: the ray's number for each column is not below 0 if the column has a lower bound, and not above 0 if it
/// has an upper one. Else the condition fails.
pub(crate) fn columns_allow(model: &Model, r: &Fracs) -> Result<(), CheckStop>
    requires { length r.now ≡ width model.now }
    ensures { result ≡ run.each (width model.now) (run.column_allows_run model.now r.now) }
{
    for j in 0..model.cols() {
        column_allows(model, r, j)?;
    }
    Ok(())
}

// Condition 4 at row `i`: its sum over the ray is not below 0 if it has a lower limit, and not above 0 if it has an
// upper one. Else the condition fails. Refused where an operation is past 127 bits.
fn row_allows(model: &Model, r: &Fracs, i: u32) -> Result<(), CheckStop>
    requires inside { i < height model.now }
    requires ray { length r.now ≡ width model.now }
    ensures { result ≡ run.row_allows_run (Some number_limit) model.now r.now i }
{
    let sum = activity(model, r, i)?;
    let row = model.row(i);
    need(4, not_below(lower_limit(row)?, sum))?;
    need(4, not_above(upper_limit(row)?, sum))
}

/// Condition 4: the sum of each row over the ray is not below 0 if the row has a lower limit, and not above 0 if it has
/// an upper one. Else the condition fails. Refused where an operation is past 127 bits.
pub(crate) fn rows_allow(model: &Model, r: &Fracs) -> Result<(), CheckStop>
    requires { length r.now ≡ width model.now }
    ensures { result ≡ run.each (height model.now) (run.row_allows_run (Some number_limit) model.now r.now) }
{
    for i in 0..model.rows() {
        row_allows(model, r, i)?;
    }
    Ok(())
}

/// Condition 5: the objective improves along the ray, whose cost is below 0 for `min` and above 0 for `max`. Else the
/// condition fails. Refused where an operation is past 127 bits.
pub(crate) fn better(model: &Model, r: &Fracs) -> Result<(), CheckStop>
    requires { length r.now ≡ width model.now }
    ensures { result ≡ run.better_run (Some number_limit) model.now r.now }
{
    let cost = cost(model, r)?;
    need(5, is_negative(signed(model.sense(), cost)))
}
