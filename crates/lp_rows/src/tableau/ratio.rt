// The ratio test over all positions.
ghost use Rattle.std.specs.Prelude.{◌≡◌, ◌<◌, ◌*◌, ℕ, IfOk, IfSome, Option, None, Ok, option_map, IsTrue, ◌↔◌};
ghost use Rattle.spec_exact.specs.Fraction.{ℚ, over};
ghost use Rattle.spec_simplex.specs.declared.ends.Best.{Best};
ghost use Rattle.spec_simplex.specs.Tableau as tableaus;
ghost use Rattle.spec_simplex.specs.Step as step;
ghost use Rattle.lp_natural.specs.Whole.{whole};
ghost use Rattle.lp_rows.specs.Ratio.{best_of, bound_of, stopped};
ghost use Rattle.lp_rows.specs.Shows.{IsWhole, Shows, height, width};
ghost use Rattle.lp_rows.specs.Stops.{IsStop, best_at};

use crate::overflow::Overflow;
use crate::ratio::{Position, Stopper, better, gap_for, goes, stopper_at};
use crate::tableau::tableau::RowTableau;
use lp_natural::words::{Signed, Words, minus};
use lp_tableau::other_bound;
use spec_pivot::Way;
use spec_simplex::Entering;

// Whether the number is 0.
pub(crate) fn is_zero<T: Words>(n: Signed<T>) -> bool
    ensures { IsTrue result ↔ (T.value n.size ≡ 0) }
{
    n.size.is_zero()
}

// The stop of the entering column at its own other bound, as far as its bounds are apart. None where that overflows the
// width.
fn stop_between<T: Words>(e: Entering, lower: Signed<T>, upper: Signed<T>) -> Option<Stopper<T>>
    ensures value { (d : ℕ) → 0 < d → IfSome result (λ s.
        step.range_run None e (bound_of T.value d (Some lower)) (bound_of T.value d (Some upper)) ≡
        Ok (Some (best_of T.value d s))) }
    ensures inside { IfSome result (λ s. IsStop T.value 0 (Some s)) }
{
    match minus(upper, lower) {
        Some(gap) => Some(Stopper {
            gap,
            entry: T::one(),
            col: e.col,
            position: None,
            to: other_bound(e.direction),
        }),
        None => None,
    }
}

// The stop of the entering column at its own other bound, if it has both. An overflow is an error.
fn range<T: Words>(
    e: Entering,
    lower: Option<Signed<T>>,
    upper: Option<Signed<T>>,
) -> Result<Option<Stopper<T>>, Overflow>
    ensures value { (d : ℕ) → 0 < d → IfOk result (λ s.
        step.range_run None e (bound_of T.value d lower) (bound_of T.value d upper) ≡
        Ok (option_map (best_of T.value d) s)) }
    ensures inside { IfOk result (IsStop T.value 0) }
{
    match (lower, upper) {
        (Some(lower), Some(upper)) => match stop_between(e, lower, upper) {
            Some(stop) => Ok(Some(stop)),
            None => Err(Overflow),
        },
        _ => Ok(None),
    }
}

// The stop of the entering column at a position, whose basic column comes to a bound; none if it comes to none. An
// overflow is an error.
fn stop_at<T: Words>(way: Way, at: Position<T>) -> Result<Option<Stopper<T>>, Overflow>
    requires { 0 < T.value at.denominator }
    ensures value { IfOk result (λ s. (d : ℕ) → 0 < d → (best : Option (Best ℚ)) →
        best_at way at.position at.col (over (whole at.entry.negative (T.value at.entry.size)) (T.value at.denominator))
        (bound_of T.value d at.lower) (bound_of T.value d at.upper)
        (over (whole at.value.negative (T.value at.value.size)) (d * T.value at.denominator)) best ≡
        stopped T.value d s best) }
    ensures inside { (n : ℕ) → at.position < n → IfOk result (IsStop T.value n) }
{
    let Position {
        entry,
        denominator,
        lower,
        upper,
        value,
        ..
    } = at;
    if is_zero(entry) {
        return Ok(None);
    }
    let gap = gap_for(goes(way, entry), lower, upper, value, denominator)?;
    Ok(stopper_at(at, gap))
}

// The one of two stops that comes first, where both are there; else the one that is there; none if neither is.
fn first<T: Words>(new: Option<Stopper<T>>, best: Option<Stopper<T>>) -> Option<Stopper<T>>
    requires new { (n : ℕ) × IsStop T.value n new }
    requires best { (n : ℕ) × IsStop T.value n best }
    ensures value { (d : ℕ) → 0 < d → stopped T.value d new (option_map (best_of T.value d) best) ≡
        Ok (option_map (best_of T.value d) result) }
    ensures inside { (n : ℕ) → IsStop T.value n new → IsStop T.value n best → IsStop T.value n result }
{
    match (new, best) {
        (Some(new), Some(best)) => Some(better(new, best)),
        (Some(new), None) => Some(new),
        (None, best) => best,
    }
}

// The stop of the entering column at position `i`, whose basic column comes to a bound; none if it comes to none. An
// overflow is an error.
fn stop_in<T: Words>(
    tab: &RowTableau<T>,
    e: Entering,
    i: usize,
) -> Result<Option<Stopper<T>>, Overflow>
    requires whole { IsWhole T.value tab.now }
    requires column { e.col < width tab.now }
    requires place { i < height tab.now }
    ensures value { (t : tableaus.Tableau) → Shows T.value tab.now t → (best : Option (Best ℚ)) → IfOk result (λ s.
        step.best_with None t e i best ≡ stopped T.value (T.value tab.now.denominator) s best) }
    ensures inside { IfOk result (IsStop T.value (height tab.now)) }
{
    let row = &tab.rows[i];
    let col = tab.basic[i];
    let at = Position {
        position: i as u32,
        col,
        entry: row.numbers[e.col as usize],
        denominator: row.denominator,
        lower: tab.lower[col as usize],
        upper: tab.upper[col as usize],
        value: row.numbers[tab.width()],
    };
    stop_at(e.direction, at)
}

// The one that comes first of `best` and the stop of position `i`; none if neither is there. `best` is the first of the
// entering column's own other bound and the stops of earlier positions. An overflow is an error.
fn first_with<T: Words>(
    tab: &RowTableau<T>,
    e: Entering,
    i: usize,
    best: Option<Stopper<T>>,
) -> Result<Option<Stopper<T>>, Overflow>
    requires whole { IsWhole T.value tab.now }
    requires column { e.col < width tab.now }
    requires place { i < height tab.now }
    requires best { IsStop T.value (height tab.now) best }
    ensures value { (t : tableaus.Tableau) → Shows T.value tab.now t → IfOk result (λ s.
        step.best_with None t e i (option_map (best_of T.value (T.value tab.now.denominator)) best) ≡
        Ok (option_map (best_of T.value (T.value tab.now.denominator)) s)) }
    ensures inside { IfOk result (IsStop T.value (height tab.now)) }
{
    let stop = stop_in(tab, e, i)?;
    Ok(first(stop, best))
}

/// What stops the entering column first, its own other bound or a basic column; nothing where it may move without end.
/// An overflow is an error.
pub(crate) fn first_stop<T: Words>(
    tab: &RowTableau<T>,
    e: Entering,
) -> Result<Option<Stopper<T>>, Overflow>
    requires whole { IsWhole T.value tab.now }
    requires column { e.col < width tab.now }
    ensures value { (t : tableaus.Tableau) → Shows T.value tab.now t → IfOk result (λ s.
        step.best_run None t e ≡ Ok (option_map (best_of T.value (T.value tab.now.denominator)) s)) }
    ensures inside { IfOk result (IsStop T.value (height tab.now)) }
{
    let j = e.col as usize;
    let mut best = range(e, tab.lower[j], tab.upper[j])?;
    for i in 0..tab.rows.len() {
        best = first_with(tab, e, i, best)?;
    }
    Ok(best)
}
