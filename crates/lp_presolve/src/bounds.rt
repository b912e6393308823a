// Bounds of a column that a row with one entry gives.
ghost use Rattle.std.specs.Prelude.{◌≡◌, ◌≢◌, Some};
ghost use Rattle.spec_exact.specs.Fraction.{0ℚ};
ghost use Rattle.spec_exact.specs.Narrow.{number_limit};
ghost use Rattle.spec_presolve.specs.Choose as choose;

use lp_frac::{Frac, Past, cmp, den, div, num};
use std::cmp::Ordering;

// The limit divided by the entry; none where there is no limit. Refused where the quotient is past 127 bits.
pub(crate) fn quotient(limit: Option<Frac>, entry: Frac) -> Result<Option<Frac>, Past>
    requires { entry ≢ 0ℚ }
    ensures { result ≡ choose.quotient (Some number_limit) limit entry }
{
    match limit {
        None => Ok(None),
        Some(limit) => Ok(Some(div(limit, entry)?)),
    }
}

// Whether a bound is 10 ^ 20 or more in absolute value. An absent bound is not.
pub(crate) fn is_far(bound: &Option<Frac>) -> bool
    ensures { result ≡ choose.is_far bound.now }
{
    match bound {
        None => false,
        Some(bound) => {
            num(*bound).unsigned_abs() / 100_000_000_000_000_000_000 >= den(*bound).unsigned_abs()
        }
    }
}

// The new lower bound, if there is one and it is above the old one; else none. Any is above an absent one. Refused
// where comparing the two is past 127 bits.
pub(crate) fn raised(bound: Option<Frac>, old: Option<Frac>) -> Result<Option<Frac>, Past>
    ensures { result ≡ choose.raised (Some number_limit) bound old }
{
    match (bound, old) {
        (None, _) => Ok(None),
        (Some(bound), None) => Ok(Some(bound)),
        (Some(bound), Some(old)) => match cmp(bound, old)? {
            Ordering::Greater => Ok(Some(bound)),
            Ordering::Less | Ordering::Equal => Ok(None),
        },
    }
}

// The new upper bound, if there is one and it is below the old one; else none. Any is below an absent one. Refused
// where comparing the two is past 127 bits.
pub(crate) fn cut(bound: Option<Frac>, old: Option<Frac>) -> Result<Option<Frac>, Past>
    ensures { result ≡ choose.cut (Some number_limit) bound old }
{
    match (bound, old) {
        (None, _) => Ok(None),
        (Some(bound), None) => Ok(Some(bound)),
        (Some(bound), Some(old)) => match cmp(bound, old)? {
            Ordering::Less => Ok(Some(bound)),
            Ordering::Greater | Ordering::Equal => Ok(None),
        },
    }
}
