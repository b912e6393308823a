// Conditions 1 and 2: a point is feasible. And its value.
ghost use Rattle.std.specs.Prelude.{◌≡◌, ◌<◌, Some, length};
ghost use Rattle.spec_exact.specs.Narrow.{number_limit};
ghost use Rattle.spec_model.specs.Model.{width, height};
ghost use Rattle.spec_check.specs.Run as run;

use crate::certificate::CheckStop;
use crate::steps::{at_least, at_most, part, plus_product};
use lp_frac::{Frac, Fracs, add, zero};
use lp_model::{Model, lower_limit, upper_limit};

// Condition 1 at column `j`: its value is within its bounds. Else the condition fails, unless a comparison is past 127
// bits.
fn column_within(model: &Model, x: &Fracs, j: u32) -> Result<(), CheckStop>
    requires inside { j < width model.now }
    requires point { length x.now ≡ width model.now }
    ensures { result ≡ run.column_within_run (Some number_limit) model.now x.now j }
{
    let column = model.col(j);
    let value = part(x, j);
    at_least(1, column.lower, value)?;
    at_most(1, column.upper, value)
}

/// Condition 1: the value of each column is within its bounds. Else the condition fails, unless a comparison is past
/// 127 bits.
pub(crate) fn columns_within(model: &Model, x: &Fracs) -> Result<(), CheckStop>
    requires { length x.now ≡ width model.now }
    ensures { result ≡ run.columns_run (Some number_limit) model.now x.now }
{
    for j in 0..model.cols() {
        column_within(model, x, j)?;
    }
    Ok(())
}

/// The activity of row `i` at the point: the sum of its coefficients times the values of their columns. Refused where
/// an operation is past 127 bits.
pub(crate) fn activity(model: &Model, x: &Fracs, i: u32) -> Result<Frac, CheckStop>
    requires inside { i < height model.now }
    requires point { length x.now ≡ width model.now }
    ensures { result ≡ run.activity_run (Some number_limit) model.now x.now i }
{
    let mut sum = zero();
    for j in 0..model.cols() {
        sum = plus_product(model.entry(i, j), part(x, j), sum)?;
    }
    Ok(sum)
}

// Condition 2 at row `i`: its activity at the point is within its limits. Else the condition fails, unless an operation
// is past 127 bits.
fn row_within(model: &Model, x: &Fracs, i: u32) -> Result<(), CheckStop>
    requires inside { i < height model.now }
    requires point { length x.now ≡ width model.now }
    ensures { result ≡ run.row_within_run (Some number_limit) model.now x.now i }
{
    let sum = activity(model, x, i)?;
    let row = model.row(i);
    at_least(2, lower_limit(row)?, sum)?;
    at_most(2, upper_limit(row)?, sum)
}

/// Condition 2: the activity of each row at the point is within its limits. Else the condition fails, unless an
/// operation is past 127 bits.
pub(crate) fn rows_within(model: &Model, x: &Fracs) -> Result<(), CheckStop>
    requires { length x.now ≡ width model.now }
    ensures { result ≡ run.rows_run (Some number_limit) model.now x.now }
{
    for i in 0..model.rows() {
        row_within(model, x, i)?;
    }
    Ok(())
}

/// The sum of the costs times the values of their columns, without the offset. Refused where an operation is past 127
/// bits.
pub(crate) fn cost(model: &Model, x: &Fracs) -> Result<Frac, CheckStop>
    requires { length x.now ≡ width model.now }
    ensures { result ≡ run.cost_run (Some number_limit) model.now x.now }
{
    let mut sum = zero();
    for j in 0..model.cols() {
        sum = plus_product(model.col(j).cost, part(x, j), sum)?;
    }
    Ok(sum)
}

/// The value of the objective at the point: the sum of the costs times the values, plus the offset. Refused where an
/// operation is past 127 bits.
pub(crate) fn value(model: &Model, x: &Fracs) -> Result<Frac, CheckStop>
    requires { length x.now ≡ width model.now }
    ensures { result ≡ run.value_run (Some number_limit) model.now x.now }
{
    let value = add(cost(model, x)?, model.offset())?;
    Ok(value)
}
