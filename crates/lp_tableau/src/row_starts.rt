// How the rows of a form begin.
ghost use Rattle.std.specs.Prelude.{◌≡◌, ◌<◌, ◌++◌, [], ◌∷◌, IfOk, IfErr, OnOk, Ok, Some, None};
ghost use Rattle.spec_exact.specs.Run.{list_run};
ghost use Rattle.spec_exact.specs.Narrow.{number_limit};
ghost use Rattle.spec_simplex.specs.Form.{form_lower, form_upper};
ghost use Rattle.spec_simplex.specs.Start as starting;
ghost use Rattle.lp_tableau.specs.Answer.{Stops};
ghost use Rattle.lp_tableau.specs.Begun.{HoldsColumns};

use crate::ends::ColdStop;
use crate::grid::Grid;
use crate::steps::stand;
use lp_form::{Form, Status};
use lp_frac::{Frac, Past, cmp, plus_product, sub, zero};
use std::alloc::{AllocError, Global};
use std::cmp::Ordering;

/// How a row begins.
pub type RowStart = spec_simplex::RowStart<Frac>;

// The status of structural column `j` at the start: at its lower bound, else at its upper one, else at 0.
pub(crate) fn first_status(form: &Form, j: u32) -> Status
    requires { j < form.now.cols }
    ensures { result ≡ starting.first_status (form_lower form.now j) (form_upper form.now j) }
{
    match (form.lower(j), form.upper(j)) {
        (Some(_), _) => Status::AtLower,
        (None, Some(_)) => Status::AtUpper,
        (None, None) => Status::AtZero,
    }
}

// The value of structural column `j` at the start: its lower bound, else its upper one, else 0.
pub(crate) fn first_value(form: &Form, j: u32) -> Frac
    requires { j < form.now.cols }
    ensures { result ≡ starting.first_value form.now j }
{
    stand(first_status(form, j), form.lower(j), form.upper(j))
}

// The sum of row `i` at the start's values of the structural columns. Refused where a number is past 127 bits.
fn row_sum(form: &Form, coefficients: &Grid, i: u32) -> Result<Frac, Past>
    requires held { HoldsColumns form.now form.now.cols coefficients.now }
    requires row { i < form.now.rows }
    ensures { result ≡ starting.row_sum (Some number_limit) form.now i }
{
    let mut sum = zero();
    for j in 0..form.cols() {
        let coefficient = coefficients.at(i as usize, j as usize);
        sum = plus_product(coefficient, first_value(form, j), sum)?;
    }
    Ok(sum)
}

// How much `v` is below the bound; none where it is not, or where there is no bound. Refused where a number is past 127
// bits.
fn below(bound: Option<Frac>, v: Frac) -> Result<Option<Frac>, Past>
    ensures { result ≡ starting.below_run (Some number_limit) bound v }
{
    match bound {
        None => Ok(None),
        Some(l) => match cmp(v, l)? {
            Ordering::Less => Ok(Some(sub(l, v)?)),
            Ordering::Equal | Ordering::Greater => Ok(None),
        },
    }
}

// How a row begins whose sum `v` is not below its lower limit: within its limits, or above the upper one by a gap.
// Refused where a number is past 127 bits.
fn within_or_above(upper: Option<Frac>, v: Frac) -> Result<RowStart, Past>
    ensures { result ≡ starting.row_start_by (Some number_limit) upper v None }
{
    match upper {
        None => Ok(RowStart::Within(v)),
        Some(u) => match cmp(v, u)? {
            Ordering::Less | Ordering::Equal => Ok(RowStart::Within(v)),
            Ordering::Greater => Ok(RowStart::Above(sub(v, u)?)),
        },
    }
}

// How row `i` begins: its sum within its limits, or below or above them by a gap. Refused where a number is past 127
// bits.
fn row_start(form: &Form, coefficients: &Grid, i: u32) -> Result<RowStart, Past>
    requires held { HoldsColumns form.now form.now.cols coefficients.now }
    requires row { i < form.now.rows }
    ensures { result ≡ starting.row_start (Some number_limit) form.now i }
{
    let v = row_sum(form, coefficients, i)?;
    let logical = form.logical(i);
    match below(form.lower(logical), v)? {
        Some(gap) => Ok(RowStart::Below(gap)),
        None => within_or_above(form.upper(logical), v),
    }
}

// Adds a row's start behind the list, if there is memory.
fn push_start(starts: &mut Vec<RowStart>, start: RowStart) -> Result<(), AllocError>
    ensures { OnOk result (starts.new.items ≡ starts.old.items ++ start ∷ []) }
{
    starts.push(start)?;
    Ok(())
}

// How each row begins, in order: its sum within its limits, or below or above them by a gap. Else why not: a number
// past 127 bits, or no memory.
pub(crate) fn row_starts(
    alloc: Global,
    form: &Form,
    coefficients: &Grid,
) -> Result<Vec<RowStart>, ColdStop>
    requires { HoldsColumns form.now form.now.cols coefficients.now }
    ensures ok { IfOk result (λ v. list_run form.now.rows (starting.row_start (Some number_limit) form.now) ≡ Ok
        v.items) }
    ensures err { IfErr result (Stops (list_run form.now.rows (starting.row_start (Some number_limit) form.now))) }
{
    let mut starts = Vec::new(alloc);
    for i in 0..form.rows() {
        push_start(&mut starts, row_start(form, coefficients, i)?)?;
    }
    Ok(starts)
}
