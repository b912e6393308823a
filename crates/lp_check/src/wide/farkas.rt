// Certificates that no point is feasible: multipliers with which the rows ask for more than the bounds give, and bounds
// that clash.
ghost use Rattle.std.specs.Prelude.{◌≡◌, ◌<◌, ℕ, Ok, None, IfOk, ok_or, length};
ghost use Rattle.spec_model.specs.Model.{width, height};
ghost use Rattle.spec_check.specs.declared.certificate.CheckStop.TheVariants as stop;
ghost use Rattle.spec_check.specs.declared.certificate.Certificate.TheVariants.{Infeasible, Clash};
ghost use Rattle.spec_check.specs.Run as run;
ghost use Rattle.lp_check.specs.Said.{Says};

use crate::wide::certificate::{Known, Ratios, Verdict};
use crate::wide::limits::{limit_of, lower_limit, upper_limit};
use crate::wide::prices::priced;
use crate::wide::steps::{part, plus_wide_product};
use lp_base::Items;
use lp_model::Model;
use lp_ratio::{Ratio, common_denominator, multiples};
use std::alloc::{AllocError, Global};

// `s` with `d` times the limit added; none where there is no limit.
fn weighed_at(
    alloc: Global,
    d: &Ratio,
    limit: Option<Ratio>,
    s: Ratio,
) -> Result<Option<Ratio>, AllocError>
    ensures { IfOk result (λ o. (n : ℕ) → run.weighed_at n None d.now limit s ≡ ok_or o (stop.No n)) }
{
    match limit {
        None => Ok(None),
        Some(k) => {
            let sum = plus_wide_product(alloc, d, &k, s)?;
            Ok(Some(sum))
        }
    }
}

// `sum` with what row `i` asks for added: its multiplier times its lower limit for a multiplier above 0, or its upper
// limit for one below 0. None where the row lacks that limit.
fn row_asks(
    alloc: Global,
    model: &Model,
    y: &Ratios,
    i: u32,
    sum: Ratio,
) -> Result<Option<Ratio>, AllocError>
    requires inside { i < height model.now }
    requires multipliers { length y.now ≡ height model.now }
    ensures { IfOk result (λ o. run.row_asks_run None model.now y.now i sum ≡ ok_or o (stop.No 1)) }
{
    let multiplier = part(y, i);
    let row = model.row(i);
    if multiplier.is_positive() {
        let lower = lower_limit(alloc, row)?;
        weighed_at(alloc, multiplier, lower, sum)
    } else if multiplier.is_negative() {
        let upper = upper_limit(alloc, row)?;
        weighed_at(alloc, multiplier, upper, sum)
    } else {
        Ok(Some(sum))
    }
}

// The sum of what all rows ask for: each multiplier times the lower limit if it is above 0, the upper one if it is
// below 0. None where a row lacks that limit.
fn rows_ask(alloc: Global, model: &Model, y: &Ratios) -> Result<Option<Ratio>, AllocError>
    requires { length y.now ≡ height model.now }
    ensures { IfOk result (λ o. run.rows_ask_run None model.now y.now ≡ ok_or o (stop.No 1)) }
{
    let mut sum = Ratio::zero(alloc)?;
    for i in 0..model.rows() {
        match row_asks(alloc, model, y, i, sum)? {
            Some(next) => sum = next,
            None => return Ok(None),
        }
    }
    Ok(Some(sum))
}

// `sum` with the most that column `j` gives added: the multipliers' part in it times its upper bound for a part above
// 0, or its lower bound for one below 0. None where the column lacks that bound.
fn column_gives(
    alloc: Global,
    model: &Model,
    y: &Ratios,
    j: u32,
    sum: Ratio,
) -> Result<Option<Ratio>, AllocError>
    requires inside { j < width model.now }
    requires multipliers { length y.now ≡ height model.now }
    ensures { IfOk result (λ o. run.column_gives_run None model.now y.now j sum ≡ ok_or o (stop.No 2)) }
{
    let column = model.col(j);
    let priced = priced(alloc, model, y.as_slice(), j)?;
    if priced.is_positive() {
        let upper = limit_of(alloc, column.upper)?;
        weighed_at(alloc, &priced, upper, sum)
    } else if priced.is_negative() {
        let lower = limit_of(alloc, column.lower)?;
        weighed_at(alloc, &priced, lower, sum)
    } else {
        Ok(Some(sum))
    }
}

// The most that all columns give: the multipliers' part in each times its upper bound if the part is above 0, its lower
// bound if it is below 0. None where a column lacks that bound.
fn columns_give(alloc: Global, model: &Model, y: &Ratios) -> Result<Option<Ratio>, AllocError>
    requires { length y.now ≡ height model.now }
    ensures { IfOk result (λ o. run.columns_give_run None model.now y.now ≡ ok_or o (stop.No 2)) }
{
    let mut sum = Ratio::zero(alloc)?;
    for j in 0..model.cols() {
        match column_gives(alloc, model, y, j, sum)? {
            Some(next) => sum = next,
            None => return Ok(None),
        }
    }
    Ok(Some(sum))
}

// The verdict on Farkas multipliers: infeasible where the columns give less than the rows ask for; else the number of
// the first of the three conditions that fails.
fn judged(alloc: Global, model: &Model, y: &Ratios) -> Result<Verdict, AllocError>
    requires { length y.now ≡ height model.now }
    ensures { IfOk result (Says model.now (Infeasible y.now)) }
{
    let asked = match rows_ask(alloc, model, y)? {
        Some(asked) => asked,
        None => return Ok(Verdict::No(1)),
    };
    let given = match columns_give(alloc, model, y)? {
        Some(given) => given,
        None => return Ok(Verdict::No(2)),
    };
    let order = given.compare(alloc, &asked)?;
    if order.is_lt() {
        Ok(Verdict::Yes(Known::Infeasible))
    } else {
        Ok(Verdict::No(3))
    }
}

/// The verdict on Farkas multipliers: that no point is feasible, or the first condition that fails. Each multiplier is
/// first taken as many times as `common_denominator` gives, which keeps the verdict.
pub(crate) fn infeasible(alloc: Global, model: &Model, y: &Ratios) -> Result<Verdict, AllocError>
    requires { length y.now ≡ height model.now }
    ensures { IfOk result (Says model.now (Infeasible y.now)) }
{
    let times = common_denominator(alloc, y.as_slice())?;
    let numbers = Items::from_vec(multiples(alloc, y.as_slice(), &times)?);
    judged(alloc, model, &numbers)
}

// Condition 1 of a clash: whether both bounds are there, and the lower one is above the upper one.
fn is_crossed(alloc: Global, lower: Option<Ratio>, upper: Option<Ratio>) -> Result<bool, AllocError>
    ensures { IfOk result (λ b. run.crossed_run None lower upper ≡ run.need 1 b) }
{
    match lower {
        None => Ok(false),
        Some(low) => match upper {
            None => Ok(false),
            Some(high) => {
                let order = low.compare(alloc, &high)?;
                Ok(order.is_gt())
            }
        },
    }
}

/// The verdict on the claim that the bounds of column `j` clash: infeasible if the lower one is above the upper one,
/// else that condition 1 fails.
pub(crate) fn clash(alloc: Global, model: &Model, j: u32) -> Result<Verdict, AllocError>
    requires { j < width model.now }
    ensures { IfOk result (Says model.now (Clash j)) }
{
    let column = model.col(j);
    let lower = limit_of(alloc, column.lower)?;
    let upper = limit_of(alloc, column.upper)?;
    if is_crossed(alloc, lower, upper)? {
        Ok(Verdict::Yes(Known::Infeasible))
    } else {
        Ok(Verdict::No(1))
    }
}
