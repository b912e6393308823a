// Certificates that no point is feasible: multipliers with which the rows ask for more than the bounds give, and bounds
// that clash.
ghost use Rattle.std.specs.Prelude.{◌≡◌, ◌<◌, Some, length};
ghost use Rattle.spec_exact.specs.Narrow.{number_limit};
ghost use Rattle.spec_model.specs.Model.{width, height};
ghost use Rattle.spec_check.specs.Run as run;

use crate::certificate::{CheckStop, Known};
use crate::steps::{need, part, plus_product};
use lp_frac::{Frac, Fracs, cmp, is_negative, is_positive, zero};
use lp_model::{Model, lower_limit, upper_limit};

// `s` with `d` times the limit added. Condition `n` fails where there is no limit. Refused where an operation is past
// 127 bits.
fn weighed_at(n: u32, d: Frac, limit: Option<Frac>, s: Frac) -> Result<Frac, CheckStop>
    ensures { result ≡ run.weighed_at n (Some number_limit) d limit s }
{
    match limit {
        None => Err(CheckStop::No(n)),
        Some(k) => plus_product(d, k, s),
    }
}

// `$d` times the limit that its sign asks for in condition `$n`, onto `$sum`; for 0 `$sum` alone. A limit that is not
// asked for is not computed.
macro_rules! weighed {
    ($n:literal, $d:expr, $above:expr, $below:expr, $sum:expr) => {
        if is_positive($d) {
            weighed_at($n, $d, $above, $sum)
        } else if is_negative($d) {
            weighed_at($n, $d, $below, $sum)
        } else {
            Ok($sum)
        }
    };
}

// `sum` with what row `i` asks for added: its multiplier times its lower limit for a multiplier above 0, or its upper
// limit for one below 0. Condition 1 fails where the row lacks that limit. Refused where an operation is past 127 bits.
fn row_asks(model: &Model, y: &Fracs, i: u32, sum: Frac) -> Result<Frac, CheckStop>
    requires inside { i < height model.now }
    requires multipliers { length y.now ≡ height model.now }
    ensures { result ≡ run.row_asks_run (Some number_limit) model.now y.now i sum }
{
    let multiplier = part(y, i);
    let row = model.row(i);
    weighed!(1, multiplier, lower_limit(row)?, upper_limit(row)?, sum)
}

// The sum of what all rows ask for: each multiplier times the lower limit if it is above 0, the upper one if it is
// below 0. Condition 1 fails where a row lacks that limit. Refused where an operation is past 127 bits.
fn rows_ask(model: &Model, y: &Fracs) -> Result<Frac, CheckStop>
    requires { length y.now ≡ height model.now }
    ensures { result ≡ run.rows_ask_run (Some number_limit) model.now y.now }
{
    let mut sum = zero();
    for i in 0..model.rows() {
        sum = row_asks(model, y, i, sum)?;
    }
    Ok(sum)
}

/// The multipliers' part in column `j`: the sum of its coefficients times the multipliers of their rows. Refused where
/// an operation is past 127 bits.
pub fn priced(model: &Model, y: &Fracs, j: u32) -> Result<Frac, CheckStop>
    requires inside { j < width model.now }
    requires multipliers { length y.now ≡ height model.now }
    ensures { result ≡ run.priced_run (Some number_limit) model.now y.now j }
{
    let mut sum = zero();
    for i in 0..model.rows() {
        sum = plus_product(part(y, i), model.entry(i, j), sum)?;
    }
    Ok(sum)
}

// `sum` with the most that column `j` gives added: the multipliers' part in it times its upper bound for a part above
// 0, or its lower bound for one below 0. Condition 2 fails where the column lacks that bound. Refused where an
// operation is past 127 bits.
fn column_gives(model: &Model, y: &Fracs, j: u32, sum: Frac) -> Result<Frac, CheckStop>
    requires inside { j < width model.now }
    requires multipliers { length y.now ≡ height model.now }
    ensures { result ≡ run.column_gives_run (Some number_limit) model.now y.now j sum }
{
    let column = model.col(j);
    let priced = priced(model, y, j)?;
    weighed!(2, priced, column.upper, column.lower, sum)
}

// The most that all columns give: the multipliers' part in each times its upper bound if the part is above 0, its lower
// bound if it is below 0. Condition 2 fails where a column lacks that bound. Refused where an operation is past 127
// bits.
fn columns_give(model: &Model, y: &Fracs) -> Result<Frac, CheckStop>
    requires { length y.now ≡ height model.now }
    ensures { result ≡ run.columns_give_run (Some number_limit) model.now y.now }
{
    let mut sum = zero();
    for j in 0..model.cols() {
        sum = column_gives(model, y, j, sum)?;
    }
    Ok(sum)
}

/// What Farkas multipliers show: that no point is feasible, if the columns give less than the rows ask for. Else the
/// number of the first of the three conditions that fails, or the first operation past 127 bits.
pub(crate) fn infeasible(model: &Model, y: &Fracs) -> Result<Known, CheckStop>
    requires { length y.now ≡ height model.now }
    ensures { result ≡ run.infeasible_run (Some number_limit) model.now y.now }
{
    let asked = rows_ask(model, y)?;
    let given = columns_give(model, y)?;
    need(3, cmp(given, asked)?.is_lt())?;
    Ok(Known::Infeasible)
}

// Condition 1 of a clash: both bounds are there, and the lower one is above the upper one. Else the condition fails.
// Refused where comparing them is past 127 bits.
fn crossed(lower: Option<Frac>, upper: Option<Frac>) -> Result<(), CheckStop>
    ensures { result ≡ run.crossed_run (Some number_limit) lower upper }
{
    match (lower, upper) {
        (Some(lower), Some(upper)) => need(1, cmp(lower, upper)?.is_gt()),
        _ => Err(CheckStop::No(1)),
    }
}

/// What the claim that the bounds of column `j` clash shows: that no point is feasible. Else condition 1 fails, or
/// comparing the bounds is past 127 bits.
pub(crate) fn clash(model: &Model, j: u32) -> Result<Known, CheckStop>
    requires { j < width model.now }
    ensures { result ≡ run.clash_run (Some number_limit) model.now j }
{
    let column = model.col(j);
    crossed(column.lower, column.upper)?;
    Ok(Known::Infeasible)
}
