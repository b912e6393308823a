// Conditions 3 and 4: multipliers of the rows that are complementary to a point.
ghost use Rattle.std.specs.Prelude.{◌≡◌, ◌<◌, Some, length};
ghost use Rattle.spec_exact.specs.Narrow.{number_limit};
ghost use Rattle.spec_model.specs.Model.{width, height, bounds_of};
ghost use Rattle.spec_check.specs.Checks.{signed as signed_by};
ghost use Rattle.spec_check.specs.Run as run;

use crate::certificate::CheckStop;
use crate::point::activity;
use crate::steps::{less_product, need, part, stands_at};
use lp_frac::{Frac, Fracs, is_negative, is_positive, neg};
use lp_model::{Column, Model, Sense, lower_limit, upper_limit};

/// The cost where the objective is made least: its negative for `max`.
pub fn signed(sense: Sense, cost: Frac) -> Frac
    ensures { result ≡ signed_by sense cost }
{
    match sense {
        Sense::Min => cost,
        Sense::Max => neg(cost),
    }
}

// The reduced cost of column `j` at the multipliers `y`: its cost, negated for `max`, less its coefficients times the
// multipliers of their rows. Refused where an operation is past 127 bits.
fn reduced(model: &Model, y: &Fracs, j: u32) -> Result<Frac, CheckStop>
    requires inside { j < width model.now }
    requires multipliers { length y.now ≡ height model.now }
    ensures { result ≡ run.reduced_run (Some number_limit) model.now y.now j }
{
    let mut rest = signed(model.sense(), model.col(j).cost);
    for i in 0..model.rows() {
        rest = less_product(part(y, i), model.entry(i, j), rest)?;
    }
    Ok(rest)
}

// Whether `value` is at the column's lower bound where the reduced cost is above 0, and at its upper bound where that
// is below 0. True for a reduced cost of 0.
fn is_tight(column: &Column, reduced: Frac, value: Frac) -> bool
    ensures { result ≡ run.is_tight (bounds_of column.now) reduced value }
{
    if is_positive(reduced) {
        stands_at(column.lower, value)
    } else if is_negative(reduced) {
        stands_at(column.upper, value)
    } else {
        true
    }
}

// Condition 3 at column `j`: its value is at its lower bound for a reduced cost above 0, at its upper bound for one
// below 0. Else the condition fails, unless an operation is past 127 bits.
fn column_tight(model: &Model, x: &Fracs, y: &Fracs, j: u32) -> Result<(), CheckStop>
    requires inside { j < width model.now }
    requires point { length x.now ≡ width model.now }
    requires multipliers { length y.now ≡ height model.now }
    ensures { result ≡ run.column_tight_run (Some number_limit) model.now x.now y.now j }
{
    let reduced = reduced(model, y, j)?;
    need(3, is_tight(model.col(j), reduced, part(x, j)))
}

/// Condition 3: the value of each column is at its lower bound for a reduced cost above 0, at its upper bound for one
/// below 0. Else the condition fails, unless an operation is past 127 bits.
pub(crate) fn columns_tight(model: &Model, x: &Fracs, y: &Fracs) -> Result<(), CheckStop>
    requires point { length x.now ≡ width model.now }
    requires multipliers { length y.now ≡ height model.now }
    ensures { result ≡ run.each (width model.now) (run.column_tight_run (Some number_limit) model.now x.now y.now) }
{
    for j in 0..model.cols() {
        column_tight(model, x, y, j)?;
    }
    Ok(())
}

// Condition 4 at row `i`: its sum is at its lower limit for a multiplier above 0, at its upper limit for one below 0.
// Else the condition fails. For a multiplier that is not 0 sum and limit are computed anew; refused past 127 bits.
fn row_tight(model: &Model, x: &Fracs, y: &Fracs, i: u32) -> Result<(), CheckStop>
    requires inside { i < height model.now }
    requires point { length x.now ≡ width model.now }
    requires multipliers { length y.now ≡ height model.now }
    ensures { result ≡ run.row_tight_run (Some number_limit) model.now x.now y.now i }
{
    let multiplier = part(y, i);
    let is_above = is_positive(multiplier);
    if !is_above && !is_negative(multiplier) {
        return Ok(());
    }
    let sum = activity(model, x, i)?;
    let row = model.row(i);
    let limit = if is_above {
        lower_limit(row)
    } else {
        upper_limit(row)
    };
    need(4, stands_at(limit?, sum))
}

/// Condition 4: the sum of each row is at its lower limit for a multiplier above 0, at its upper limit for one below 0.
/// Else the condition fails, unless an operation is past 127 bits.
pub(crate) fn rows_tight(model: &Model, x: &Fracs, y: &Fracs) -> Result<(), CheckStop>
    requires point { length x.now ≡ width model.now }
    requires multipliers { length y.now ≡ height model.now }
    ensures { result ≡ run.each (height model.now) (run.row_tight_run (Some number_limit) model.now x.now y.now) }
{
    for i in 0..model.rows() {
        row_tight(model, x, y, i)?;
    }
    Ok(())
}
