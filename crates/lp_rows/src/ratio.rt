// Which of two positions stops the entering column first: ratios are compared crosswise, and nothing is divided.
ghost use Rattle.std.specs.Prelude.{◌≡◌, ◌<◌, ◌+◌, ◌*◌, ℕ, IsTrue, false, pos, ◌*ℤ◌, Ok, Some, None, IfOk, IfSome, Option, ◌⊎◌};
ghost use Rattle.std.specs.Ordering.{int_cmp};
ghost use Rattle.spec_exact.specs.Fraction.{ℚ, over};
ghost use Rattle.spec_simplex.specs.declared.ends.Best.{Best};
ghost use Rattle.spec_simplex.specs.Step as step;
ghost use Rattle.lp_natural.specs.Whole.{whole};
ghost use Rattle.lp_rows.specs.Row.{toward as toward_of};
ghost use Rattle.lp_rows.specs.Ratio.{best_of, room_of, bound_of, gap_of, gap_by, stopped, IsGap};

use crate::choice::sign;
use crate::overflow::Overflow;
use lp_natural::words::{Signed, Words, minus, times};
use spec_pivot::{Status, Way};
use std::alloc::AllocError;
use std::cmp::Ordering;

// What stops the entering column: its ratio is the gap over the entry, and over what all bounds have as their
// denominator.
#[derive(Copy)]
pub(crate) struct Stopper<T> {
    pub(crate) gap: Signed<T>,
    pub(crate) entry: T,
    pub(crate) col: u32,
    // The column's position, which the entering column itself has none of.
    pub(crate) position: Option<u32>,
    // The bound that the column goes to.
    pub(crate) to: Status,
}

impl<T: Copy> Clone for Stopper<T> {
    ghost is_clone = { λ x y. y ≡ x };

    fn clone(&self) -> Result<Stopper<T>, AllocError> {
        Ok(*self)
    }
}

// Whether the products `a m` and `b n` are both 0, where neither `m` nor `n` is.
fn are_none<T: Words>(a: T, m: T, b: T, n: T) -> bool
    requires first { 0 < T.value m }
    requires second { 0 < T.value n }
    ensures none { IsTrue result → (T.value a * T.value m ≡ 0) × (T.value b * T.value n ≡ 0) }
    ensures some { result ≡ false → 0 < T.value a * T.value m + T.value b * T.value n }
{
    if a.is_zero() { b.is_zero() } else { false }
}

/// The order of `a m` and `b n`: `Less` where the first one is less.
pub fn order<T: Words>(a: Signed<T>, m: T, b: Signed<T>, n: T) -> Ordering
    requires first { 0 < T.value m }
    requires second { 0 < T.value n }
    ensures { result ≡ int_cmp (whole a.negative (T.value a.size) *ℤ pos (T.value m))
        (whole b.negative (T.value b.size) *ℤ pos (T.value n)) }
{
    if a.negative {
        if b.negative {
            b.size.cross_compare(n, a.size, m)
        } else if are_none(a.size, m, b.size, n) {
            Ordering::Equal
        } else {
            Ordering::Less
        }
    } else if b.negative {
        if are_none(a.size, m, b.size, n) {
            Ordering::Equal
        } else {
            Ordering::Greater
        }
    } else {
        a.size.cross_compare(m, b.size, n)
    }
}

// The better of two stops: the one with the lesser ratio of gap to entry, and of equal ones the one of the lesser
// column.
pub(crate) fn better<T: Words>(new: Stopper<T>, best: Stopper<T>) -> Stopper<T>
    requires first { 0 < T.value new.entry }
    requires second { 0 < T.value best.entry }
    ensures value { (d : ℕ) → 0 < d → step.better_run None (best_of T.value d new) (Some (best_of T.value d best)) ≡
        Ok (Some (best_of T.value d result)) }
    ensures one { (result ≡ new) ⊎ (result ≡ best) }
{
    match order(new.gap, best.entry, best.gap, new.entry) {
        Ordering::Less => new,
        Ordering::Equal => { if new.col < best.col { new } else { best } }
        Ordering::Greater => best,
    }
}

// How far a basic column is from the bound that stops it, and which bound that is.
#[derive(Copy)]
pub(crate) struct Gap<T> {
    pub(crate) size: Signed<T>,
    pub(crate) to: Status,
}

impl<T: Copy> Clone for Gap<T> {
    ghost is_clone = { λ x y. y ≡ x };

    fn clone(&self) -> Result<Gap<T>, AllocError> {
        Ok(*self)
    }
}

// How far a value is below a bound (`Up`) or above it (`Down`); below 0 where it is past the bound. The bound is on the
// denominator of all bounds; the value and the result are on that times the row's. None where a number overflows the
// width.
fn room<T: Words>(way: Way, bound: Signed<T>, value: Signed<T>, denominator: T) -> Option<Signed<T>>
    ensures { IfSome result (λ r. whole r.negative (T.value r.size) ≡ room_of way
        (whole bound.negative (T.value bound.size) *ℤ pos (T.value denominator))
        (whole value.negative (T.value value.size))) }
{
    let on = Signed {
        negative: false,
        size: denominator,
    };
    match times(bound, on) {
        Some(bound) => match way {
            Way::Up => minus(bound, value),
            Way::Down => minus(value, bound),
        },
        None => None,
    }
}

// How far a value is below a bound (`Up`) or above it (`Down`), with the status at the bound. The value and the gap are
// on the row's denominator times that of all bounds. The gap is below 0 where the value is past the bound. There is no
// gap where there is no bound; an overflow is an error.
fn gap_to<T: Words>(
    way: Way,
    bound: Option<Signed<T>>,
    value: Signed<T>,
    denominator: T,
    to: Status,
) -> Result<Option<Gap<T>>, Overflow>
    requires { 0 < T.value denominator }
    ensures { IfOk result (λ g. IsGap T.value way bound value (T.value denominator) to g) }
{
    match bound {
        Some(bound) => match room(way, bound, value, denominator) {
            Some(size) => Ok(Some(Gap { size, to })),
            None => Err(Overflow),
        },
        None => Ok(None),
    }
}

// The gap between the value of a basic column and the bound toward which it moves: its upper bound where it rises
// (`Less`), its lower bound where it falls (`Greater`). There is no gap where it stays, or has no such bound; an
// overflow is an error. `value` is over the row's denominator times that of all bounds, and the bounds over the latter.
pub(crate) fn gap_for<T: Words>(
    goes: Ordering,
    lower: Option<Signed<T>>,
    upper: Option<Signed<T>>,
    value: Signed<T>,
    denominator: T,
) -> Result<Option<Gap<T>>, Overflow>
    requires { 0 < T.value denominator }
    ensures { IfOk result (λ g. (d : ℕ) → 0 < d → gap_by goes (bound_of T.value d lower) (bound_of T.value d upper)
        (over (whole value.negative (T.value value.size)) (d * T.value denominator)) ≡
        Ok (gap_of T.value d (T.value denominator) g)) }
{
    match goes {
        Ordering::Less => gap_to(Way::Up, upper, value, denominator, Status::AtUpper),
        Ordering::Equal => Ok(None),
        Ordering::Greater => gap_to(Way::Down, lower, value, denominator, Status::AtLower),
    }
}

// A position as the ratio test sees it.
#[derive(Copy)]
pub(crate) struct Position<T> {
    pub(crate) position: u32,
    // Its basic column.
    pub(crate) col: u32,
    // The entry in the entering column, on the row's denominator.
    pub(crate) entry: Signed<T>,
    pub(crate) denominator: T,
    // The basic column's bounds, and its value on the row's denominator times that of all bounds.
    pub(crate) lower: Option<Signed<T>>,
    pub(crate) upper: Option<Signed<T>>,
    pub(crate) value: Signed<T>,
}

impl<T: Copy> Clone for Position<T> {
    ghost is_clone = { λ x y. y ≡ x };

    fn clone(&self) -> Result<Position<T>, AllocError> {
        Ok(*self)
    }
}

// What stops the entering column at a position whose basic column has this gap; nothing does where there is no gap.
pub(crate) fn stopper_at<T: Words>(at: Position<T>, gap: Option<Gap<T>>) -> Option<Stopper<T>>
    requires { 0 < T.value at.entry.size }
    ensures step { (d e : ℕ) → 0 < d → 0 < e → (best : Option (Best ℚ)) →
        step.with_gap None at.position at.col (over (whole at.entry.negative (T.value at.entry.size)) e) best
        (gap_of T.value d e gap) ≡ stopped T.value d result best }
    ensures positive { IfSome result (λ s. 0 < T.value s.entry) }
    ensures place { IfSome result (λ s. s.position ≡ Some at.position) }
{
    match gap {
        Some(gap) => Some(Stopper {
            gap: gap.size,
            entry: at.entry.size,
            col: at.col,
            position: Some(at.position),
            to: gap.to,
        }),
        None => None,
    }
}

// Whether the basic column of a position with this entry rises (`Less`), stays (`Equal`) or falls (`Greater`), as the
// entering column moves this way.
pub(crate) fn goes<T: Words>(way: Way, entry: Signed<T>) -> Ordering
    ensures { (e : ℕ) → 0 < e → (lower upper : Option ℚ) (v : ℚ) →
        step.gap_run None way (over (whole entry.negative (T.value entry.size)) e) lower upper v ≡
        gap_by result lower upper v }
{
    sign(toward(way, entry))
}

// The number, or its negative where the entering column falls.
pub(crate) fn toward<T: Words>(way: Way, n: Signed<T>) -> Signed<T>
    ensures { whole result.negative (T.value result.size) ≡ toward_of way (whole n.negative (T.value n.size)) }
{
    match way {
        Way::Up => n,
        Way::Down => Signed {
            negative: !n.negative,
            size: n.size,
        },
    }
}
