// Numbers of any width, which are made of those of rows.
ghost use Rattle.std.specs.Prelude.{◌≡◌, ◌<◌, ℕ, ◌*◌, IfOk};
ghost use Rattle.lp_rows.specs.Number.{fraction_of};

use crate::fractions::share_common;
use crate::number::{Listed, RowFraction};
use lp_natural::words::{Signed, Words, natural};
use lp_ratio::Ratio;
use std::alloc::{AllocError, Global};

// The same fraction with its numerator and its denominator divided by a common divisor, or as it was where none is
// found.
fn shared<T: Words>(v: RowFraction<T>) -> RowFraction<T>
    requires { 0 < T.value v.denominator }
    ensures value { fraction_of T.value result ≡ fraction_of T.value v }
    ensures positive { 0 < T.value result.denominator }
{
    let RowFraction {
        number,
        denominator,
    } = v;
    match share_common(number.size, denominator) {
        Some(s) => RowFraction {
            number: Signed {
                negative: number.negative,
                size: s.first,
            },
            denominator: s.second,
        },
        None => v,
    }
}

// The row's fraction as one of any width.
fn ratio<T: Words>(alloc: Global, v: RowFraction<T>) -> Result<Ratio, AllocError>
    requires { 0 < T.value v.denominator }
    ensures { IfOk result (λ r. r ≡ fraction_of T.value v) }
{
    let RowFraction {
        number,
        denominator,
    } = v;
    let top = natural(alloc, number.size)?;
    let bottom = natural(alloc, denominator)?;
    Ok(Ratio::quotient(alloc, number.negative, top, bottom))
}

impl Listed for Ratio {
    ghost of = { λ q. q };

    ghost fits = { λ r. Unit {0} };

    // The fraction of a number in a row, of any width.
    fn from_row<T: Words>(alloc: Global, v: RowFraction<T>) -> Result<Option<Ratio>, AllocError> {
        let r = ratio(alloc, shared(v))?;
        Ok(Some(r))
    }
}
