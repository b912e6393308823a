// The rows of a model with some of its sides alone.
ghost use Rattle.std.specs.Prelude.{◌≡◌, ◌<◌, true, false, All, IfOk, Some};
ghost use Rattle.spec_exact.specs.Narrow.{number_limit};
ghost use Rattle.spec_model.specs.Model.{height};
ghost use Rattle.spec_model.specs.Kept.{IsNarrowRow};
ghost use Rattle.spec_iis.specs.Only as only;
ghost use Rattle.spec_iis.specs.Rule.{IsRead};
ghost use Rattle.lp_iis.specs.Reading.{IsReadable};

use crate::limits::{is_limited_above, is_limited_below, lower_limit, upper_limit};
use crate::listed::{has_lower, has_upper, stays};
use lp_frac::{Frac, narrow, narrow_if};
use lp_model::{Kind, Model, Row};
use spec_iis::Side;
use std::alloc::{AllocError, Global};

// A row of this kind and right side with the name of `row`, without a range. Memory may run out.
fn single(alloc: Global, kind: Kind, row: &Row, rhs: Frac) -> Result<Row, AllocError>
    ensures value { IfOk result (λ r. r ≡ only.single kind row.now rhs) }
    ensures narrow { IfOk result IsNarrowRow }
{
    Ok(Row {
        name: row.name.copy(alloc)?,
        kind,
        rhs: narrow(rhs),
        range: None,
    })
}

// A copy of the row with both of its sides, as far as it has them. Memory may run out.
fn copy(alloc: Global, row: &Row) -> Result<Row, AllocError>
    ensures value { IfOk result (λ r. r ≡ row.now) }
    ensures narrow { IfOk result IsNarrowRow }
{
    Ok(Row {
        name: row.name.copy(alloc)?,
        kind: row.kind,
        rhs: narrow(row.rhs),
        range: narrow_if(row.range),
    })
}

// The row with its lower limit alone: as it is if it has not both limits, else as a row of type `G`. Memory may run
// out.
fn lower_alone(alloc: Global, row: &Row) -> Result<Row, AllocError>
    requires { IsReadable false row.now }
    ensures value { IfOk result (λ r. r ≡ only.only_row true false row.now) }
    ensures narrow { IfOk result IsNarrowRow }
{
    if is_limited_above(row) {
        match lower_limit(row) {
            Some(low) => single(alloc, Kind::G, row, low),
            None => copy(alloc, row),
        }
    } else {
        copy(alloc, row)
    }
}

// The row with its upper limit alone: as it is if it has not both limits, else as a row of type `L`. Memory may run
// out.
fn upper_alone(alloc: Global, row: &Row) -> Result<Row, AllocError>
    requires { IsReadable true row.now }
    ensures value { IfOk result (λ r. r ≡ only.only_row false true row.now) }
    ensures narrow { IfOk result IsNarrowRow }
{
    if is_limited_below(row) {
        match upper_limit(row) {
            Some(high) => single(alloc, Kind::L, row, high),
            None => copy(alloc, row),
        }
    } else {
        copy(alloc, row)
    }
}

// The row with its lower side alone, its upper side alone, or both, as the flags say; as it is where neither is asked
// for, and where it has not both. Memory may run out.
#[tactic(auto, unfolding(spec_iis::specs::Only::only_row))]
fn row_with(alloc: Global, row: &Row, lower: bool, upper: bool) -> Result<Row, AllocError>
    requires lower { lower ≡ true → IsReadable false row.now }
    requires upper { upper ≡ true → IsReadable true row.now }
    ensures value { IfOk result (λ r. r ≡ only.only_row lower upper row.now) }
    ensures narrow { IfOk result IsNarrowRow }
{
    match (lower, upper) {
        (true, false) => lower_alone(alloc, row),
        (false, true) => upper_alone(alloc, row),
        (true, true) => copy(alloc, row),
        (false, false) => copy(alloc, row),
    }
}

// Row `i` of the model with its sides that are listed. It keeps both sides where neither is listed. Memory may run out.
fn row_at(alloc: Global, model: &Model, sides: &[Side], i: u32) -> Result<Row, AllocError>
    requires inside { i < height model.now }
    requires read { All (IsRead (Some number_limit) model.now) sides.now }
    ensures value { IfOk result (λ r. r ≡ only.only_row_at model.now sides.now i) }
    ensures narrow { IfOk result IsNarrowRow }
{
    let lower = has_lower(sides, true, i);
    let upper = has_upper(sides, true, i);
    row_with(alloc, model.row(i), lower, upper)
}

/// The rows of which a side is listed, in order, each with its sides that are listed. Memory may run out.
pub(crate) fn rows(alloc: Global, model: &Model, sides: &[Side]) -> Result<Vec<Row>, AllocError>
    requires { All (IsRead (Some number_limit) model.now) sides.now }
    ensures value { IfOk result
        (λ rows. rows.items ≡ only.picked (only.stays sides.now) (only.only_row_at model.now sides.now) (height model.now)) }
    ensures narrow { IfOk result (λ rows. All IsNarrowRow rows.items) }
{
    let mut rows = Vec::new(alloc);
    for i in 0..model.rows() {
        if stays(sides, i) {
            rows.push(row_at(alloc, model, sides, i)?)?;
        }
    }
    Ok(rows)
}
