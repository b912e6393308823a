// Conditions 3 to 5 of a ray: points stay feasible along it, and get better.
ghost use Rattle.std.specs.Prelude.{◌≡◌, ◌<◌, IfOk, length};
ghost use Rattle.spec_exact.specs.Fraction.{ℚ, 0ℚ, lt_ℚ};
ghost use Rattle.spec_model.specs.Model.{width, height, part as part_of};
ghost use Rattle.spec_check.specs.Checks.{signed as signed_by};
ghost use Rattle.spec_check.specs.Run as run;
ghost use Rattle.lp_check.specs.Sums as given;

use crate::wide::certificate::Ratios;
use crate::wide::limits::{lower_limit, upper_limit};
use crate::wide::steps::part;
use lp_frac::Frac;
use lp_model::{Model, Sense};
use lp_ratio::Ratio;
use std::alloc::{AllocError, Global};

// Whether a column with this lower bound allows a ray with the number `r`: there is no bound, or `r` is not below 0.
fn not_below(limit: &Option<Frac>, r: &Ratio) -> bool
    ensures { result ≡ run.not_below limit.now r.now }
{
    match limit {
        None => true,
        Some(_) => !r.is_negative(),
    }
}

// Whether a column with this upper bound allows a ray with the number `r`: there is no bound, or `r` is not above 0.
fn not_above(limit: &Option<Frac>, r: &Ratio) -> bool
    ensures { result ≡ run.not_above limit.now r.now }
{
    match limit {
        None => true,
        Some(_) => !r.is_positive(),
    }
}

// Whether a row with this lower limit allows a ray with the sum `r`: there is no limit, or `r` is not below 0.
fn is_not_below(limit: &Option<Ratio>, r: &Ratio) -> bool
    ensures { result ≡ run.not_below limit.now r.now }
{
    match limit {
        None => true,
        Some(_) => !r.is_negative(),
    }
}

// Whether a row with this upper limit allows a ray with the sum `r`: there is no limit, or `r` is not above 0.
fn is_not_above(limit: &Option<Ratio>, r: &Ratio) -> bool
    ensures { result ≡ run.not_above limit.now r.now }
{
    match limit {
        None => true,
        Some(_) => !r.is_positive(),
    }
}

// Condition 3 at column `j`: whether the ray's number for it is not below 0 if it has a lower bound, and not above 0 if
// it has an upper one.
fn column_allows(model: &Model, r: &Ratios, j: u32) -> bool
    requires inside { j < width model.now }
    requires ray { length r.now ≡ width model.now }
    ensures { run.column_allows_run model.now r.now j ≡ run.need 3 result }
{
    let column = model.col(j);
    let value = part(r, j);
    not_below(&column.lower, value) && not_above(&column.upper, value)
}

/// Condition 3: whether the ray's number for each column is not below 0 if the column has a lower bound, and not above
/// 0 if it has an upper one.
pub(crate) fn columns_allow(model: &Model, r: &Ratios) -> bool
    requires { length r.now ≡ width model.now }
    ensures { run.each (width model.now) (run.column_allows_run model.now r.now) ≡ run.need 3 result }
{
    for j in 0..model.cols() {
        if !column_allows(model, r, j) {
            return false;
        }
    }
    true
}

// Condition 4 at row `i`: whether its sum over the ray is not below 0 if it has a lower limit, and not above 0 if it
// has an upper one.
fn row_allows(alloc: Global, model: &Model, i: u32, sum: &Ratio) -> Result<bool, AllocError>
    requires { i < height model.now }
    ensures { IfOk result (λ b. given.row_allows model.now i sum.now ≡ run.need 4 b) }
{
    let row = model.row(i);
    let lower = lower_limit(alloc, row)?;
    if !is_not_below(&lower, sum) {
        return Ok(false);
    }
    let upper = upper_limit(alloc, row)?;
    Ok(is_not_above(&upper, sum))
}

/// Condition 4: whether the sum of each row over the ray is not below 0 if the row has a lower limit, and not above 0
/// if it has an upper one.
pub(crate) fn rows_allow(alloc: Global, model: &Model, sums: &Ratios) -> Result<bool, AllocError>
    requires { length sums.now ≡ height model.now }
    ensures { IfOk result (λ b. run.each (height model.now) (λ i. given.row_allows model.now i (part_of sums.now i))
        ≡ run.need 4 b) }
{
    for i in 0..model.rows() {
        if !row_allows(alloc, model, i, part(sums, i))? {
            return Ok(false);
        }
    }
    Ok(true)
}

/// Condition 5: whether the objective improves along a ray of this cost. The cost is below 0 for `min`, above 0 for
/// `max`.
pub(crate) fn gets_better(sense: Sense, cost: &Ratio) -> bool
    ensures { result ≡ lt_ℚ (signed_by sense cost.now) 0ℚ }
{
    match sense {
        Sense::Min => cost.is_negative(),
        Sense::Max => cost.is_positive(),
    }
}
