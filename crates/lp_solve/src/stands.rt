// Whether a point and multipliers are those of a basis: nonbasic columns at their bounds, basic ones with reduced cost
// 0.
ghost use Rattle.std.specs.Prelude.{◌≡◌, ◌<◌, ◌+◌, ℕ, IfOk, IsTrue, length};
ghost use Rattle.spec_model.specs.Model.{width, height, part as part_of};
ghost use Rattle.spec_simplex.specs.Eliminate.{basis_at};
ghost use Rattle.spec_solve.specs.OfBasis.{StandsAt};
ghost use Rattle.lp_solve.specs.Standing.{ColumnStandsWith, RowStandsWith};

use lp_check::wide::{
    Ratios, evaluated, limit_of, lower_limit, part, reduced_costs, stands_at, upper_limit,
};
use lp_form::Status;
use lp_model::Model;
use lp_ratio::Ratio;
use std::alloc::{AllocError, Global};

// The status of column `k`, basic where there is none.
fn status_at(basis: &[Status], k: usize) -> Status
    ensures { result ≡ basis_at basis.now k }
{
    match basis.get(k) {
        Some(status) => *status,
        None => Status::Basic,
    }
}

// Whether column `j` is as its status says: basic with the reduced cost 0, or nonbasic at the bound of its status, or
// at 0 by the status `AtZero`. False where it lacks that bound.
fn column_stands(
    alloc: Global,
    model: &Model,
    x: &Ratios,
    j: u32,
    reduced: &Ratio,
    status: Status,
) -> Result<bool, AllocError>
    requires inside { j < width model.now }
    requires point { length x.now ≡ width model.now }
    ensures { IfOk result (λ b. IsTrue b → ColumnStandsWith model.now x.now j reduced.now status) }
{
    match status {
        Status::Basic => Ok(reduced.is_zero()),
        Status::AtLower => {
            let lower = limit_of(alloc, model.col(j).lower)?;
            stands_at(alloc, lower, part(x, j))
        }
        Status::AtUpper => {
            let upper = limit_of(alloc, model.col(j).upper)?;
            stands_at(alloc, upper, part(x, j))
        }
        Status::AtZero => Ok(part(x, j).is_zero()),
    }
}

// Whether each column is as its status says, by the reduced costs.
fn columns_stand(
    alloc: Global,
    model: &Model,
    basis: &[Status],
    x: &Ratios,
    reduced: &Ratios,
) -> Result<bool, AllocError>
    requires point { length x.now ≡ width model.now }
    requires reduced { length reduced.now ≡ width model.now }
    ensures { IfOk result (λ b. IsTrue b → (j : ℕ) → j < width model.now →
        ColumnStandsWith model.now x.now j (part_of reduced.now j) (basis_at basis.now j)) }
{
    for j in 0..model.cols() {
        let status = status_at(basis, j as usize);
        if !column_stands(alloc, model, x, j, part(reduced, j), status)? {
            return Ok(false);
        }
    }
    Ok(true)
}

// Whether row `i` is as its logical's status says: basic with the multiplier 0, or its sum at the limit of its status,
// or 0 by the status `AtZero`. False where it lacks that limit.
fn row_stands(
    alloc: Global,
    model: &Model,
    y: &Ratios,
    i: u32,
    sum: &Ratio,
    status: Status,
) -> Result<bool, AllocError>
    requires inside { i < height model.now }
    requires multipliers { length y.now ≡ height model.now }
    ensures { IfOk result (λ b. IsTrue b → RowStandsWith model.now y.now i sum.now status) }
{
    match status {
        Status::Basic => Ok(part(y, i).is_zero()),
        Status::AtLower => {
            let lower = lower_limit(alloc, model.row(i))?;
            stands_at(alloc, lower, sum)
        }
        Status::AtUpper => {
            let upper = upper_limit(alloc, model.row(i))?;
            stands_at(alloc, upper, sum)
        }
        Status::AtZero => Ok(sum.is_zero()),
    }
}

// Whether each row is as its logical's status says, by the sums.
fn rows_stand(
    alloc: Global,
    model: &Model,
    basis: &[Status],
    y: &Ratios,
    sums: &Ratios,
) -> Result<bool, AllocError>
    requires multipliers { length y.now ≡ height model.now }
    requires sums { length sums.now ≡ height model.now }
    ensures { IfOk result (λ b. IsTrue b → (i : ℕ) → i < height model.now →
        RowStandsWith model.now y.now i (part_of sums.now i) (basis_at basis.now (width model.now + i))) }
{
    let first = model.cols() as usize;
    for i in 0..model.rows() {
        let status = status_at(basis, first + i as usize);
        if !row_stands(alloc, model, y, i, part(sums, i), status)? {
            return Ok(false);
        }
    }
    Ok(true)
}

/// Whether columns and rows stand as the basis says: each nonbasic one is at the bound of its status, or at 0, and each
/// basic one has the reduced cost or multiplier 0. It takes one walk over the model's entries for all reduced costs,
/// and, where the columns stand, one for all sums.
pub(crate) fn stand_at_basis(
    alloc: Global,
    model: &Model,
    basis: &[Status],
    x: &Ratios,
    y: &Ratios,
) -> Result<bool, AllocError>
    requires point { length x.now ≡ width model.now }
    requires multipliers { length y.now ≡ height model.now }
    ensures { IfOk result (λ b. IsTrue b → StandsAt model.now basis.now x.now y.now) }
{
    let reduced = reduced_costs(alloc, model, y)?;
    if !columns_stand(alloc, model, basis, x, &reduced)? {
        return Ok(false);
    }
    let point = evaluated(alloc, model, x)?;
    rows_stand(alloc, model, basis, y, &point.sums)
}
