// A product put onto a number, and one taken off, by the sizes of their parts.
ghost use Rattle.std.specs.Prelude.{◌≡◌, Some};
ghost use Rattle.spec_exact.specs.Run as run;
ghost use Rattle.spec_exact.specs.Narrow.{number_limit};

use crate::frac::{Frac, Past};
use crate::operations::{add, mul, sub};
use crate::short::short_less;
use crate::small::small_less;

/// `s + v * w`. Refused at the product or else at the sum, with that operation and its operands.
pub fn plus_product(v: Frac, w: Frac, s: Frac) -> Result<Frac, Past>
    ensures { result ≡ run.plus_product (Some number_limit) v w s }
{
    let product = mul(v, w)?;
    add(s, product)
}

// `s - v * w` by the product and then the difference, or the refusal of the first of them that is refused.
fn long_less(v: Frac, w: Frac, s: Frac) -> Result<Frac, Past>
    ensures { result ≡ run.less_product (Some number_limit) v w s }
{
    let product = mul(v, w)?;
    sub(s, product)
}

// `s - v * w` or the refusal, where `small_less` gives none: by numbers of 64 bits if they do, else by a product and a
// difference.
#[inline(never)]
fn wide_less(v: Frac, w: Frac, s: Frac) -> Result<Frac, Past>
    ensures { result ≡ run.less_product (Some number_limit) v w s }
{
    match short_less(v, w, s) {
        Some(x) => Ok(x),
        None => long_less(v, w, s),
    }
}

// `s - v * w` or the refusal, as `wide_less` gives it. The operands are copied on this way alone, since `wide_less` is
// not inlined.
#[inline(always)]
fn else_wide_less(v: Frac, w: Frac, s: Frac) -> Result<Frac, Past>
    ensures { result ≡ run.less_product (Some number_limit) v w s }
{
    wide_less(v, w, s)
}

/// `s - v * w`. Refused at the product or else at the difference, with that operation and its
/// operands. Its result is not copied, since it is inlined.
#[inline(always)]
pub fn less_product(v: Frac, w: Frac, s: Frac) -> Result<Frac, Past>
    ensures { result ≡ run.less_product (Some number_limit) v w s }
{
    match small_less(v, w, s) {
        Some(x) => Ok(x),
        None => else_wide_less(v, w, s),
    }
}
