// Which position stops the entering column: the ratio test.
ghost use Rattle.std.specs.Prelude.{◌≡◌, ◌≢◌, ◌<◌, Some};
ghost use Rattle.spec_exact.specs.Fraction.{0ℚ};
ghost use Rattle.spec_exact.specs.Narrow.{number_limit};
ghost use Rattle.spec_simplex.specs.Tableau.{all_columns};
ghost use Rattle.spec_simplex.specs.Step as step;
ghost use Rattle.lp_simplex.specs.Ratio.{best_at as best_at_of};

use lp_form::Status;
use lp_frac::{Frac, Past, abs, cmp, div, sign, sub};
use lp_tableau::{Tableau, directed, other_bound};
use spec_pivot::Way;
use spec_simplex::Entering;
use std::cmp::Ordering;

/// The least ratio so far.
pub type Best = spec_simplex::Best<Frac>;

/// How far the entering column itself may move to its other bound; none where it does not have both.
pub fn range(e: Entering, lower: Option<Frac>, upper: Option<Frac>) -> Result<Option<Best>, Past>
    ensures { result ≡ step.range_run (Some number_limit) e lower upper }
{
    match (lower, upper) {
        (Some(lower), Some(upper)) => Ok(Some(Best {
            ratio: sub(upper, lower)?,
            col: e.col,
            place: None,
            to: other_bound(e.direction),
        })),
        _ => Ok(None),
    }
}

// How far a basic value may rise to its upper bound, and the status there; none without one.
fn rise(upper: Option<Frac>, value: Frac) -> Result<Option<(Frac, Status)>, Past>
    ensures { result ≡ step.rise_run (Some number_limit) upper value }
{
    match upper {
        Some(upper) => Ok(Some((sub(upper, value)?, Status::AtUpper))),
        None => Ok(None),
    }
}

// How far a basic value may fall to its lower bound, and the status there; none without one.
fn fall(lower: Option<Frac>, value: Frac) -> Result<Option<(Frac, Status)>, Past>
    ensures { result ≡ step.fall_run (Some number_limit) lower value }
{
    match lower {
        Some(lower) => Ok(Some((sub(value, lower)?, Status::AtLower))),
        None => Ok(None),
    }
}

// How far the basic column of a position with this entry may move as the entering one moves this way, and the status at
// the bound that it comes to. None where it stays, or comes to no bound.
#[inline(always)]
fn gap(
    way: Way,
    entry: Frac,
    lower: Option<Frac>,
    upper: Option<Frac>,
    value: Frac,
) -> Result<Option<(Frac, Status)>, Past>
    ensures { result ≡ step.gap_run (Some number_limit) way entry lower upper value }
{
    match sign(directed(way, entry)) {
        Ordering::Less => rise(upper, value),
        Ordering::Equal => Ok(None),
        Ordering::Greater => fall(lower, value),
    }
}

// The better of two ratios: the lesser, and of equal ones that of the lesser column.
fn better(new: Best, best: Option<Best>) -> Result<Option<Best>, Past>
    ensures { result ≡ step.better_run (Some number_limit) new best }
{
    let Some(best) = best else {
        return Ok(Some(new));
    };
    match cmp(new.ratio, best.ratio)? {
        Ordering::Less => Ok(Some(new)),
        Ordering::Equal if new.col < best.col => Ok(Some(new)),
        Ordering::Equal | Ordering::Greater => Ok(Some(best)),
    }
}

/// A position as the ratio test sees it.
#[derive(Clone, Copy)]
pub struct Position {
    pub place: u32,
    /// Its basic column.
    pub col: u32,
    /// The entry of its row in the entering column.
    pub entry: Frac,
    /// The basic column's bounds and value.
    pub lower: Option<Frac>,
    pub upper: Option<Frac>,
    pub value: Frac,
}

/// The best of `best`, the least ratio of the entering column's own range and the positions compared before, and of the
/// ratio at one more, where the entering column moves this way. None where neither is there.
#[inline(always)]
pub fn best_at(way: Way, at: Position, best: Option<Best>) -> Result<Option<Best>, Past>
    ensures { result ≡ best_at_of way at.place at.col at.entry at.lower at.upper at.value best }
{
    match gap(way, at.entry, at.lower, at.upper, at.value)? {
        Some((gap, to)) => {
            let ratio = div(gap, abs(at.entry))?;
            let (col, place) = (at.col, Some(at.place));
            better(
                Best {
                    ratio,
                    col,
                    place,
                    to,
                },
                best,
            )
        }
        None => Ok(best),
    }
}

// The best of `best`, the least ratio of the entering column's own range and the positions compared before, and of the
// ratio of position `i`. None where neither is there.
fn best_with(tab: &Tableau, e: Entering, i: u32, best: Option<Best>) -> Result<Option<Best>, Past>
    requires column { e.col < all_columns tab.now }
    requires place { i < tab.now.rows }
    ensures { result ≡ step.best_with (Some number_limit) tab.now e i best }
{
    let col = tab.basic(i);
    let at = Position {
        place: i,
        col,
        entry: tab.entry(i, e.col),
        lower: tab.lower(col),
        upper: tab.upper(col),
        value: tab.value(col),
    };
    best_at(e.direction, at, best)
}

// The least ratio of all positions and of the entering column's own range; none where nothing stops it.
pub(crate) fn best(tab: &Tableau, e: Entering) -> Result<Option<Best>, Past>
    requires { e.col < all_columns tab.now }
    ensures { result ≡ step.best_run (Some number_limit) tab.now e }
{
    let mut best = range(e, tab.lower(e.col), tab.upper(e.col))?;
    for i in 0..tab.rows() {
        best = best_with(tab, e, i, best)?;
    }
    Ok(best)
}
