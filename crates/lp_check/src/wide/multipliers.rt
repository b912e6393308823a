// Conditions 3 and 4: multipliers of the rows that are complementary to a point.
ghost use Rattle.std.specs.Prelude.{◌≡◌, ◌<◌, IfOk, length};
ghost use Rattle.spec_model.specs.Model.{width, height, bounds_of, part as part_of};
ghost use Rattle.spec_check.specs.Run as run;
ghost use Rattle.lp_check.specs.Sums as given;

use crate::wide::certificate::Ratios;
use crate::wide::limits::{limit_of, lower_limit, upper_limit};
use crate::wide::steps::{part, stands_at};
use lp_model::{Column, Model};
use lp_ratio::Ratio;
use std::alloc::{AllocError, Global};

// Whether `value` is at the column's lower bound where the reduced cost is above 0, and at its upper bound where that
// is below 0. True for a reduced cost of 0.
fn is_tight(
    alloc: Global,
    column: &Column,
    reduced: &Ratio,
    value: &Ratio,
) -> Result<bool, AllocError>
    ensures { IfOk result (λ b. b ≡ run.is_tight (bounds_of column.now) reduced.now value.now) }
{
    if reduced.is_positive() {
        let lower = limit_of(alloc, column.lower)?;
        stands_at(alloc, lower, value)
    } else if reduced.is_negative() {
        let upper = limit_of(alloc, column.upper)?;
        stands_at(alloc, upper, value)
    } else {
        Ok(true)
    }
}

// Condition 3 at column `j`: whether its value is at its lower bound for a reduced cost above 0, and at its upper bound
// for one below 0.
fn column_tight(
    alloc: Global,
    model: &Model,
    x: &Ratios,
    j: u32,
    reduced: &Ratio,
) -> Result<bool, AllocError>
    requires inside { j < width model.now }
    requires point { length x.now ≡ width model.now }
    ensures { IfOk result (λ b. given.column_tight model.now x.now j reduced.now ≡ run.need 3 b) }
{
    let tight = is_tight(alloc, model.col(j), reduced, part(x, j))?;
    Ok(tight)
}

/// Condition 3: whether the value of each column is at its lower bound for a reduced cost above 0, and at its upper
/// bound for one below 0.
pub(crate) fn columns_tight(
    alloc: Global,
    model: &Model,
    x: &Ratios,
    reduced: &Ratios,
) -> Result<bool, AllocError>
    requires point { length x.now ≡ width model.now }
    requires reduced { length reduced.now ≡ width model.now }
    ensures { IfOk result (λ b.
        run.each (width model.now) (λ j. given.column_tight model.now x.now j (part_of reduced.now j)) ≡ run.need 3 b) }
{
    for j in 0..model.cols() {
        if !column_tight(alloc, model, x, j, part(reduced, j))? {
            return Ok(false);
        }
    }
    Ok(true)
}

// Condition 4 at row `i`: whether its sum is at its lower limit for a multiplier above 0, and at its upper limit for
// one below 0.
fn row_tight(
    alloc: Global,
    model: &Model,
    y: &Ratios,
    i: u32,
    sum: &Ratio,
) -> Result<bool, AllocError>
    requires inside { i < height model.now }
    requires multipliers { length y.now ≡ height model.now }
    ensures { IfOk result (λ b. given.row_tight model.now y.now i sum.now ≡ run.need 4 b) }
{
    let multiplier = part(y, i);
    let row = model.row(i);
    if multiplier.is_positive() {
        let lower = lower_limit(alloc, row)?;
        stands_at(alloc, lower, sum)
    } else if multiplier.is_negative() {
        let upper = upper_limit(alloc, row)?;
        stands_at(alloc, upper, sum)
    } else {
        Ok(true)
    }
}

/// Condition 4: whether the sum of each row is at its lower limit for a multiplier above 0, and at its upper limit for
/// one below 0.
pub(crate) fn rows_tight(
    alloc: Global,
    model: &Model,
    y: &Ratios,
    sums: &Ratios,
) -> Result<bool, AllocError>
    requires multipliers { length y.now ≡ height model.now }
    requires sums { length sums.now ≡ height model.now }
    ensures { IfOk result (λ b.
        run.each (height model.now) (λ i. given.row_tight model.now y.now i (part_of sums.now i)) ≡ run.need 4 b) }
{
    for i in 0..model.rows() {
        if !row_tight(alloc, model, y, i, part(sums, i))? {
            return Ok(false);
        }
    }
    Ok(true)
}
