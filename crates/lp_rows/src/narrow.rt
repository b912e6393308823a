// Fractions of 127 bits, as whole numbers and back.
ghost use Rattle.std.specs.Prelude.{◌≡◌, ◌<◌, ℕ, pos, IfSome};
ghost use Rattle.spec_exact.specs.Fraction.{over};
ghost use Rattle.spec_exact.specs.Narrow.{IsNarrow};
ghost use Rattle.lp_natural.specs.Whole.{whole};
ghost use Rattle.lp_rows.specs.Number.{fraction_of};

use crate::fractions::share_common;
use crate::number::{Listed, RowFraction};
use lp_frac::{Frac, LARGEST, den, num};
use lp_natural::words::{Signed, Words, to_whole};
use std::alloc::{AllocError, Global};

// The whole number with this sign and size; none where it is past 127 bits.
fn whole_of<T: Words>(negative: bool, size: T) -> Option<i128>
    ensures { IfSome result (λ n. n ≡ whole negative (T.value size)) }
{
    to_whole(Signed { negative, size })
}

// The fraction `a / b`; none where it is past 127 bits, or `b` is 0.
fn made(a: i128, b: i128) -> Option<Frac>
    ensures { (n : ℕ) → 0 < n → b ≡ pos n → IfSome result (λ f. f ≡ over a n) }
{
    match Frac::new(a, b) {
        Ok(f) => Some(f),
        Err(_) => None,
    }
}

// The fraction of a row's number and its denominator; none where it is past 127 bits.
fn fraction<T: Words>(v: RowFraction<T>) -> Option<Frac>
    requires { 0 < T.value v.denominator }
    ensures { IfSome result (λ f. f ≡ fraction_of T.value v) }
{
    let RowFraction {
        number,
        denominator,
    } = v;
    match share_common(number.size, denominator) {
        Some(s) => match (
            whole_of(number.negative, s.first),
            whole_of(false, s.second),
        ) {
            (Some(a), Some(b)) => made(a, b),
            _ => None,
        },
        None => None,
    }
}

// Gives the fraction back, if there is one. Proofs learn by it that its parts have at most 127 bits.
fn kept(v: Option<Frac>) -> Option<Frac>
    ensures same { result ≡ v }
    ensures narrow { IfSome result IsNarrow }
{
    if let Some(v) = v {
        prove!(num(v).unsigned_abs() <= LARGEST);
        prove!(den(v).unsigned_abs() <= LARGEST);
        return Some(v);
    }
    None
}

impl Listed for Frac {
    ghost use Rattle.spec_exact.specs.Narrow.{IsNarrow};

    ghost of = { λ q. q };

    ghost fits = { IsNarrow };

    // The fraction of a number in a row, if it has at most 127 bits.
    fn from_row<T: Words>(_: Global, v: RowFraction<T>) -> Result<Option<Frac>, AllocError> {
        Ok(kept(fraction(v)))
    }
}
