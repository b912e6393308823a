// The parts of a tableau beside its rows.
ghost use Rattle.std.specs.Prelude.{◌≡◌, ◌<◌, IfOk, IfSome};
ghost use Rattle.lp_rows.specs.Held.{AreBounds};

use crate::tableau::common::{bounds_on, denominator_with};
use lp_form::Status;
use lp_frac::Frac;
use lp_natural::words::{Signed, Words};
use std::alloc::{AllocError, Global};

/// The bounds of all columns on a common denominator.
#[derive(Drop)]
pub struct Bounds<T: Words> {
    pub lower: Vec<Option<Signed<T>>>,
    pub upper: Vec<Option<Signed<T>>>,
    pub denominator: T,
}

/// The basic column of each position, the status of each column, and whether each structural or logical column is fixed.
#[derive(Drop)]
pub struct Standing {
    pub basic: Vec<u32>,
    pub status: Vec<Status>,
    pub fixed: Vec<bool>,
}

/// The bounds as whole numbers on a common denominator. There are none where a number overflows the width.
pub fn common_bounds<T: Words>(
    alloc: Global,
    lower: &[Option<Frac>],
    upper: &[Option<Frac>],
) -> Result<Option<Bounds<T>>, AllocError>
    ensures { IfOk result (λ o. IfSome o (AreBounds T.value lower.now upper.now)) }
{
    let Some(so_far) = denominator_with(T::one(), lower) else {
        return Ok(None);
    };
    match denominator_with(so_far, upper) {
        Some(denominator) => bounds_with(alloc, lower, upper, denominator),
        None => Ok(None),
    }
}

// The bounds as whole numbers on this denominator. None where one is not whole, or overflows the width.
fn bounds_with<T: Words>(
    alloc: Global,
    lower: &[Option<Frac>],
    upper: &[Option<Frac>],
    denominator: T,
) -> Result<Option<Bounds<T>>, AllocError>
    requires { 0 < T.value denominator }
    ensures { IfOk result (λ o. IfSome o (AreBounds T.value lower.now upper.now)) }
{
    let Some(lower) = bounds_on(alloc, lower, denominator)? else {
        return Ok(None);
    };
    match bounds_on(alloc, upper, denominator)? {
        Some(upper) => Ok(Some(Bounds {
            lower,
            upper,
            denominator,
        })),
        None => Ok(None),
    }
}
