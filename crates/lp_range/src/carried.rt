// The ends of a right side: where basic values come to their bounds.
ghost use Rattle.std.specs.Prelude.{◌≡◌, ◌≢◌, ◌<◌, Some};
ghost use Rattle.spec_exact.specs.Fraction.{0ℚ};
ghost use Rattle.spec_exact.specs.Narrow.{number_limit};
ghost use Rattle.spec_simplex.specs.Tableau.{all_columns};
ghost use Rattle.spec_range.specs.Rule as rule;
ghost use Rattle.lp_range.specs.Answer.{IsSeated};

use crate::ends::{Ends, at_side, no_ends};
use lp_form::is_basic;
use lp_frac::{Frac, Past, add, div, is_positive, sub};
use lp_simplex::dual::position_of;
use lp_tableau::{Tableau, is_zero};

// `rhs + value - bound`: the right side with which this bound, which moves with it, comes to `value`. None where there
// is no bound. Refused where a number is past 127 bits.
fn shifted(rhs: Frac, value: Frac, bound: Option<Frac>) -> Result<Option<Frac>, Past>
    ensures { result ≡ rule.shifted_run (Some number_limit) rhs value bound }
{
    let Some(bound) = bound else {
        return Ok(None);
    };
    let gap = sub(value, bound)?;
    let x = add(rhs, gap)?;
    Ok(Some(x))
}

// The ends for the right side of a row whose logical is basic at `value`: the logical's lower bound gives the upper
// end, and its upper bound the lower end. Refused where a number is past 127 bits.
fn still(rhs: Frac, value: Frac, lower: Option<Frac>, upper: Option<Frac>) -> Result<Ends, Past>
    ensures { result ≡ rule.still_ends (Some number_limit) rhs value lower upper }
{
    let high = shifted(rhs, value, lower)?;
    let low = shifted(rhs, value, upper)?;
    Ok(Ends { low, high })
}

// The ends, with the right side too at which a basic value comes to this bound: as an upper end if `upper`, else as a
// lower one. Without the bound the ends stay. `entry` is that of the moving logical in the basic column's row. Refused
// where a number is past 127 bits.
fn bounded(
    rhs: Frac,
    value: Frac,
    entry: Frac,
    bound: Option<Frac>,
    upper: bool,
    ends: Ends,
) -> Result<Ends, Past>
    requires { entry ≢ 0ℚ }
    ensures { result ≡ rule.bound_ends (Some number_limit) rhs value entry bound upper ends }
{
    let Some(bound) = bound else {
        return Ok(ends);
    };
    let gap = sub(value, bound)?;
    let q = div(gap, entry)?;
    let x = add(rhs, q)?;
    at_side(upper, x, ends)
}

// The ends, with the right sides too at which a basic value comes to either bound. Where `entry`, that of the moving
// logical in its row, is above 0 the lower bound gives an upper end and the upper one a lower end; where it is below 0,
// the other way. Refused where a number is past 127 bits.
fn carried(
    rhs: Frac,
    value: Frac,
    entry: Frac,
    lower: Option<Frac>,
    upper: Option<Frac>,
    ends: Ends,
) -> Result<Ends, Past>
    requires { entry ≢ 0ℚ }
    ensures { result ≡ rule.carried_ends (Some number_limit) rhs value entry lower upper ends }
{
    let falls = is_positive(entry);
    let ends = bounded(rhs, value, entry, lower, falls, ends)?;
    bounded(rhs, value, entry, upper, !falls, ends)
}

// The ends for a right side, with those that column `k` gives if it is basic and moves with the nonbasic logical column
// `s`. Refused where a number is past 127 bits.
fn carried_if(tab: &Tableau, rhs: Frac, s: u32, k: u32, ends: Ends) -> Result<Ends, Past>
    requires logical { s < all_columns tab.now }
    requires column { k < all_columns tab.now }
    requires seated { IsSeated tab.now }
    ensures { result ≡ rule.carried_if (Some number_limit) rhs tab.now s k ends }
{
    if !is_basic(tab.status(k)) {
        return Ok(ends);
    }
    let entry = tab.entry(position_of(tab, k), s);
    if is_zero(entry) {
        return Ok(ends);
    }
    carried(rhs, tab.value(k), entry, tab.lower(k), tab.upper(k), ends)
}

// The ends for the right side of a row whose logical `s` is nonbasic and has a bound: the tightest that the bounds of
// the basic columns give. Refused where a number is past 127 bits.
fn nonbasic(tab: &Tableau, rhs: Frac, s: u32) -> Result<Ends, Past>
    requires logical { s < all_columns tab.now }
    requires seated { IsSeated tab.now }
    ensures { result ≡ rule.nonbasic_ends (Some number_limit) rhs tab.now s }
{
    let mut ends = no_ends();
    for k in 0..tab.width() {
        ends = carried_if(tab, rhs, s, k, ends)?;
    }
    Ok(ends)
}

// The ends for the right side of the row whose logical is column `s`, between which each basic value stays within its
// bounds. A row without limits has none. Refused where a number is past 127 bits.
pub(crate) fn side_ends(tab: &Tableau, rhs: Frac, s: u32) -> Result<Ends, Past>
    requires logical { s < all_columns tab.now }
    requires seated { IsSeated tab.now }
    ensures { result ≡ rule.side_ends (Some number_limit) rhs tab.now s }
{
    let (lower, upper) = (tab.lower(s), tab.upper(s));
    if is_basic(tab.status(s)) {
        still(rhs, tab.value(s), lower, upper)
    } else if lower.is_some() || upper.is_some() {
        nonbasic(tab, rhs, s)
    } else {
        Ok(no_ends())
    }
}
