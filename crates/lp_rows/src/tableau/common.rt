// Fractions as whole numbers on a common denominator.
ghost use Rattle.std.specs.Prelude.{◌≡◌, ◌<◌, IfOk, IfSome, map};
ghost use Rattle.spec_exact.specs.Fraction.{over};
ghost use Rattle.lp_natural.specs.Whole.{whole};
ghost use Rattle.lp_rows.specs.Row.{fractions};
ghost use Rattle.lp_rows.specs.Ratio.{bound_of};
ghost use Rattle.lp_rows.specs.Held.{whole_of, IsRowOf, IsRowWith};

use crate::fractions::Row;
use crate::overflow::Overflow;
use lp_frac::{Frac, den, num};
use lp_natural::words::{Signed, Words, from_number, from_whole, quotient, some_common, times};
use std::alloc::{AllocError, Global};
use std::cmp::Ordering;

// A common multiple of both numbers, in practice the least one. None where it overflows the width. Nothing rests on its
// value.
fn common_multiple<T: Words>(a: T, b: T) -> Option<T> {
    if b.compare(T::one()) == Ordering::Equal {
        return Some(a);
    }
    match quotient(a, some_common(a, b)) {
        Some(share) => share.product(b),
        None => None,
    }
}

// The numerator of a fraction in words; none where it overflows the width.
fn numerator<T: Words>(f: Frac) -> Option<Signed<T>>
    ensures { IfSome result (λ n. whole_of T.value n ≡ f.num) }
{
    from_whole(num(f))
}

// The denominator of a fraction in words; none where it overflows the width.
fn own_denominator<T: Words>(f: Frac) -> Option<T>
    ensures { IfSome result (λ d. T.value d ≡ f.den) }
{
    from_number(den(f).unsigned_abs())
}

// A common multiple of a number and a fraction's denominator; none where it overflows the width. Nothing rests on its
// value.
fn multiple_for<T: Words>(so_far: T, f: Frac) -> Option<T> {
    match own_denominator(f) {
        Some(d) => common_multiple(so_far, d),
        None => None,
    }
}

// The number, unless it is 0.
fn if_positive<T: Words>(n: T) -> Option<T>
    ensures { IfSome result (λ m. 0 < T.value m) }
{
    if n.is_zero() { None } else { Some(n) }
}

// A common denominator of some fractions; none where it overflows the width.
fn denominator_of<T: Words>(list: &[Frac]) -> Option<T>
    ensures { IfSome result (λ d. 0 < T.value d) }
{
    let mut found = T::one();
    for f in list {
        match multiple_for(found, *f) {
            Some(multiple) => found = multiple,
            None => return None,
        }
    }
    if_positive(found)
}

/// A common multiple of the number `so_far` and the denominators of some bounds. None where it overflows the width, or
/// is 0.
pub fn denominator_with<T: Words>(so_far: T, bounds: &[Option<Frac>]) -> Option<T>
    ensures { IfSome result (λ d. 0 < T.value d) }
{
    let mut found = so_far;
    for bound in bounds {
        let Some(f) = *bound else { continue };
        match multiple_for(found, f) {
            Some(multiple) => found = multiple,
            None => return None,
        }
    }
    if_positive(found)
}

// The numerator of a fraction on a denominator; none where it is not whole, or a number overflows the width.
fn on<T: Words>(f: Frac, denominator: T) -> Option<Signed<T>>
    requires { 0 < T.value denominator }
    ensures { IfSome result (λ n. over (whole n.negative (T.value n.size)) (T.value denominator) ≡ f) }
{
    match (numerator(f), own_denominator(f)) {
        (Some(n), Some(d)) => match quotient(denominator, d) {
            Some(size) => times(
                n,
                Signed {
                    negative: false,
                    size,
                },
            ),
            None => None,
        },
        _ => None,
    }
}

// The numerators of a list of fractions on a denominator; none where one is not whole, or overflows the width.
fn numbers_on<T: Words>(
    alloc: Global,
    list: &[Frac],
    denominator: T,
) -> Result<Option<Vec<Signed<T>>>, AllocError>
    requires { 0 < T.value denominator }
    ensures { IfOk result (λ o. IfSome o (λ v. fractions T.value v.items (T.value denominator) ≡ list.now)) }
{
    let mut numbers = Vec::new(alloc);
    for f in list {
        match on(*f, denominator) {
            Some(number) => numbers.push(number)?,
            None => return Ok(None),
        }
    }
    Ok(Some(numbers))
}

// The numerator of a bound on a denominator, if there is a bound. An error where it is not whole, or overflows the
// width.
fn bound_on<T: Words>(bound: Option<Frac>, denominator: T) -> Result<Option<Signed<T>>, Overflow>
    requires { 0 < T.value denominator }
    ensures { IfOk result (λ b. bound_of T.value (T.value denominator) b ≡ bound) }
{
    match bound {
        Some(f) => match on(f, denominator) {
            Some(number) => Ok(Some(number)),
            None => Err(Overflow),
        },
        None => Ok(None),
    }
}

/// The numerators of the bounds on a denominator. There are none where one is not whole, or overflows the width.
pub fn bounds_on<T: Words>(
    alloc: Global,
    bounds: &[Option<Frac>],
    denominator: T,
) -> Result<Option<Vec<Option<Signed<T>>>>, AllocError>
    requires { 0 < T.value denominator }
    ensures { IfOk result (λ o. IfSome o (λ v. map (bound_of T.value (T.value denominator)) v.items ≡ bounds.now)) }
{
    let mut numbers = Vec::new(alloc);
    for bound in bounds {
        match bound_on(*bound, denominator) {
            Ok(number) => numbers.push(number)?,
            Err(Overflow) => return Ok(None),
        }
    }
    Ok(Some(numbers))
}

/// A row of integers: the numerators of some fractions on a denominator of their own, and behind them that of `last`,
/// on their denominator times `denominator`. None where `last` is not whole there, or a number overflows the width.
pub fn row_of<T: Words>(
    alloc: Global,
    list: &[Frac],
    last: Frac,
    denominator: T,
) -> Result<Option<Row<T>>, AllocError>
    requires { 0 < T.value denominator }
    ensures { IfOk result (λ o. IfSome o (IsRowOf T.value list.now last (T.value denominator))) }
{
    let Some(own) = denominator_of(list) else {
        return Ok(None);
    };
    match denominator.product(own) {
        Some(both) => row_on(alloc, list, last, own, both),
        None => Ok(None),
    }
}

// A row of integers: the numerators of some fractions on the denominator `own`, and behind them that of `last` on
// `both`. None where one is not whole there, or overflows the width.
fn row_on<T: Words>(
    alloc: Global,
    list: &[Frac],
    last: Frac,
    own: T,
    both: T,
) -> Result<Option<Row<T>>, AllocError>
    requires own { 0 < T.value own }
    requires both { 0 < T.value both }
    ensures { IfOk result (λ o. IfSome o (λ row. (row.denominator ≡ own)
        × IsRowWith T.value list.now last (T.value own) (T.value both) row.numbers.items)) }
{
    let Some(value) = on(last, both) else {
        return Ok(None);
    };
    match numbers_on(alloc, list, own)? {
        Some(mut numbers) => {
            numbers.push(value)?;
            Ok(Some(Row {
                numbers,
                denominator: own,
            }))
        }
        None => Ok(None),
    }
}
