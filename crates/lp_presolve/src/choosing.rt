// The row or column that goes next.
ghost use Rattle.std.specs.Prelude.{◌≡◌, ◌<◌, ◌||◌, Some, Ok};
ghost use Rattle.spec_exact.specs.Narrow.{number_limit};
ghost use Rattle.spec_model.specs.Model.{width, height};
ghost use Rattle.spec_presolve.specs.Choose as choose;

use crate::bounds::{cut, is_far, quotient, raised};
use crate::rows::{InRow, in_row};
use lp_form::limits;
use lp_frac::{Frac, Past, are_same, cmp, is_negative, is_positive};
use lp_model::Model;
use spec_presolve::Halt;
use std::cmp::Ordering;

/// One step to a smaller model.
pub(crate) type Reduction = spec_presolve::Reduction<Frac>;

/// What comes next: a reduction, or the end of all.
pub(crate) type Choice = spec_presolve::Choice<Frac>;

// Whether the lower bound is above the upper one. It is not where one is absent. Refused where comparing the two is
// past 127 bits.
fn crossed(lower: Option<Frac>, upper: Option<Frac>) -> Result<bool, Past>
    ensures { result ≡ choose.crossed (Some number_limit) lower upper }
{
    match (lower, upper) {
        (Some(lower), Some(upper)) => match cmp(lower, upper)? {
            Ordering::Greater => Ok(true),
            Ordering::Less | Ordering::Equal => Ok(false),
        },
        _ => Ok(false),
    }
}

// The end of the reductions by column `j`, if its bounds clash; else none.
fn clash_at(model: &Model, j: u32) -> Result<Option<Choice>, Past>
    requires { j < width model.now }
    ensures { result ≡ choose.clash_at (Some number_limit) model.now j }
{
    let column = model.col(j);
    if crossed(column.lower, column.upper)? {
        Ok(Some(Choice::Halt(Halt::Clash { column: j })))
    } else {
        Ok(None)
    }
}

// Whether there is a lower limit above 0.
fn is_above(lower: Option<Frac>) -> bool
    ensures { result ≡ choose.is_above lower }
{
    match lower {
        None => false,
        Some(lower) => is_positive(lower),
    }
}

// Whether there is an upper limit below 0.
fn is_below(upper: Option<Frac>) -> bool
    ensures { result ≡ choose.is_below upper }
{
    match upper {
        None => false,
        Some(upper) => is_negative(upper),
    }
}

// What comes next by a row without entries: no point is feasible where 0 is beyond its limits, else the row goes.
fn empty_row(row: u32, lower: Option<Frac>, upper: Option<Frac>) -> Choice
    ensures { result ≡ choose.empty_row row lower upper }
{
    if is_above(lower) {
        Choice::Halt(Halt::Above { row })
    } else if is_below(upper) {
        Choice::Halt(Halt::Below { row })
    } else {
        Choice::Reduce(Reduction::Empty { row })
    }
}

// What comes next by row `i`, if it has no entries: it goes, or no point is feasible as 0 is beyond its limits; else
// none.
fn empty_at(model: &Model, i: u32) -> Result<Option<Choice>, Past>
    requires { i < height model.now }
    ensures { result ≡ choose.empty_at (Some number_limit) model.now i }
{
    match in_row(model, i) {
        InRow::Nothing => {
            let (lower, upper) = limits(model.row(i))?;
            Ok(Some(empty_row(i, lower, upper)))
        }
        InRow::One { .. } | InRow::More => Ok(None),
    }
}

// The reduction that drops row `row`, whose one entry `value` holds its column between these two bounds. It notes those
// that are tighter than the column's own.
fn given(
    model: &Model,
    row: u32,
    column: u32,
    value: Frac,
    lower: Option<Frac>,
    upper: Option<Frac>,
) -> Result<Option<Choice>, Past>
    requires { column < width model.now }
    ensures { result ≡ choose.given (Some number_limit) model.now row column value lower upper }
{
    let old = model.col(column);
    let lower = raised(lower, old.lower)?;
    let upper = cut(upper, old.upper)?;
    Ok(Some(Choice::Reduce(Reduction::Single {
        row,
        column,
        value,
        lower,
        upper,
    })))
}

// Whether one of two bounds is given and its absolute value is 10^20 or more.
fn are_far(least: &Option<Frac>, most: &Option<Frac>) -> bool
    ensures { result ≡ choose.is_far least.now || choose.is_far most.now }
{
    if is_far(least) { true } else { is_far(most) }
}

// The reduction of row `row` with one entry `value`. Its lower and its upper limit, divided by that, are `least` and
// `most`; for a negative entry the first is the column's upper bound. None if one of these is 10^20 or more from 0.
fn near(
    model: &Model,
    row: u32,
    column: u32,
    value: Frac,
    least: Option<Frac>,
    most: Option<Frac>,
) -> Result<Option<Choice>, Past>
    requires { column < width model.now }
    ensures { result ≡ choose.near (Some number_limit) model.now row column value least most }
{
    if are_far(&least, &most) {
        Ok(None)
    } else if is_negative(value) {
        given(model, row, column, value, most, least)
    } else {
        given(model, row, column, value, least, most)
    }
}

// The reduction of row `i`, if it has one entry and the bounds that it gives are not too far; else none.
fn single_at(model: &Model, i: u32) -> Result<Option<Choice>, Past>
    requires { i < height model.now }
    ensures { result ≡ choose.single_at (Some number_limit) model.now i }
{
    match in_row(model, i) {
        InRow::One { column, value } => {
            let (lower, upper) = limits(model.row(i))?;
            let least = quotient(lower, value)?;
            let most = quotient(upper, value)?;
            near(model, i, column, value, least, most)
        }
        InRow::Nothing | InRow::More => Ok(None),
    }
}

// The reduction of a column whose bounds are the same; else none.
fn fixed_by(column: u32, lower: Option<Frac>, upper: Option<Frac>) -> Option<Choice>
    ensures { result ≡ choose.fixed_by column lower upper }
{
    match (lower, upper) {
        (Some(lower), Some(upper)) if are_same(lower, upper) => {
            Some(Choice::Reduce(Reduction::Fixed {
                column,
                value: lower,
            }))
        }
        _ => None,
    }
}

// The end of the reductions by the first column whose bounds clash; none if none do.
fn first_clash(model: &Model) -> Result<Option<Choice>, Past>
    ensures { result ≡ choose.first (width model.now) (choose.clash_at (Some number_limit) model.now) }
{
    for j in 0..model.cols() {
        if let Some(choice) = clash_at(model, j)? {
            return Ok(Some(choice));
        }
    }
    Ok(None)
}

// What comes next by the first row without entries: it goes, or no point is feasible as 0 is beyond its limits. None if
// each row has an entry.
fn first_empty(model: &Model) -> Result<Option<Choice>, Past>
    ensures { result ≡ choose.first (height model.now) (choose.empty_at (Some number_limit) model.now) }
{
    for i in 0..model.rows() {
        if let Some(choice) = empty_at(model, i)? {
            return Ok(Some(choice));
        }
    }
    Ok(None)
}

// The reduction of the first row with one entry that may go; none if there is no such row.
fn first_single(model: &Model) -> Result<Option<Choice>, Past>
    ensures { result ≡ choose.first (height model.now) (choose.single_at (Some number_limit) model.now) }
{
    for i in 0..model.rows() {
        if let Some(choice) = single_at(model, i)? {
            return Ok(Some(choice));
        }
    }
    Ok(None)
}

// The reduction of the first column whose bounds are the same; none if there is none.
fn first_fixed(model: &Model) -> Option<Choice>
    ensures { Ok result ≡ choose.first (width model.now) (choose.fixed_at model.now) }
{
    for j in 0..model.cols() {
        let column = model.col(j);
        if let Some(choice) = fixed_by(j, column.lower, column.upper) {
            return Some(choice);
        }
    }
    None
}

/// What comes next, by the first of these that there is. The reductions end by the first column whose bounds clash. The
/// first row without entries goes, or ends them where 0 is beyond its limits. The first row with one entry goes whose
/// bounds are not too far. The first fixed column goes. Else the reductions are done.
pub(crate) fn choose(model: &Model) -> Result<Choice, Past>
    ensures { result ≡ choose.chosen (Some number_limit) model.now }
{
    if let Some(choice) = first_clash(model)? {
        return Ok(choice);
    }
    if let Some(choice) = first_empty(model)? {
        return Ok(choice);
    }
    if let Some(choice) = first_single(model)? {
        return Ok(choice);
    }
    match first_fixed(model) {
        Some(choice) => Ok(choice),
        None => Ok(Choice::Halt(Halt::Done)),
    }
}
