// Conditions 1 and 2: a point is feasible. And its value.
ghost use Rattle.std.specs.Prelude.{◌≡◌, ◌<◌, Ok, None, IfOk, length};
ghost use Rattle.spec_exact.specs.Fraction.{◌+ℚ◌};
ghost use Rattle.spec_model.specs.Model.{width, height, part as part_of};
ghost use Rattle.spec_check.specs.Run as run;
ghost use Rattle.lp_check.specs.Sums as given;

use crate::wide::certificate::Ratios;
use crate::wide::limits::{limit_of, lower_limit, upper_limit};
use crate::wide::steps::{is_at_least, is_at_most, part};
use lp_model::Model;
use lp_ratio::Ratio;
use std::alloc::{AllocError, Global};

// Condition 1 at column `j`: whether its value is within its bounds.
fn column_within(alloc: Global, model: &Model, x: &Ratios, j: u32) -> Result<bool, AllocError>
    requires inside { j < width model.now }
    requires point { length x.now ≡ width model.now }
    ensures { IfOk result (λ b. run.column_within_run None model.now x.now j ≡ run.need 1 b) }
{
    let column = model.col(j);
    let value = part(x, j);
    let lower = limit_of(alloc, column.lower)?;
    if !is_at_least(alloc, lower, value)? {
        return Ok(false);
    }
    let upper = limit_of(alloc, column.upper)?;
    is_at_most(alloc, upper, value)
}

/// Condition 1: whether the value of each column is within its bounds.
pub(crate) fn columns_within(alloc: Global, model: &Model, x: &Ratios) -> Result<bool, AllocError>
    requires { length x.now ≡ width model.now }
    ensures { IfOk result (λ b. run.columns_run None model.now x.now ≡ run.need 1 b) }
{
    for j in 0..model.cols() {
        if !column_within(alloc, model, x, j)? {
            return Ok(false);
        }
    }
    Ok(true)
}

// Condition 2 at row `i`: whether this sum is within the row's limits.
fn row_within(alloc: Global, model: &Model, i: u32, sum: &Ratio) -> Result<bool, AllocError>
    requires { i < height model.now }
    ensures { IfOk result (λ b. given.row_within model.now i sum.now ≡ run.need 2 b) }
{
    let row = model.row(i);
    let lower = lower_limit(alloc, row)?;
    if !is_at_least(alloc, lower, sum)? {
        return Ok(false);
    }
    let upper = upper_limit(alloc, row)?;
    is_at_most(alloc, upper, sum)
}

/// Condition 2: whether each of these sums is within its row's limits.
pub(crate) fn rows_within(alloc: Global, model: &Model, sums: &Ratios) -> Result<bool, AllocError>
    requires { length sums.now ≡ height model.now }
    ensures { IfOk result (λ b. run.each (height model.now) (λ i. given.row_within model.now i (part_of sums.now i))
        ≡ run.need 2 b) }
{
    for i in 0..model.rows() {
        if !row_within(alloc, model, i, part(sums, i))? {
            return Ok(false);
        }
    }
    Ok(true)
}

/// The value of the objective at a point of this cost: the cost and the offset.
pub(crate) fn value(alloc: Global, model: &Model, cost: &Ratio) -> Result<Ratio, AllocError>
    ensures { IfOk result (λ s. s ≡ cost.now +ℚ model.now.offset) }
{
    let offset = Ratio::new(alloc, model.offset())?;
    cost.plus(alloc, &offset)
}
