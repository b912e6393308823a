// Fractions of two whole numbers in lowest terms, and factors of two denominators.
ghost use Rattle.std.specs.Prelude.{◌≡◌, ◌<◌, ◌≤◌, ◌/◌, pos, int_div, unsigned_abs};
ghost use Rattle.spec_exact.specs.Fraction.{over};
ghost use Rattle.spec_exact.specs.Narrow.{number_limit};
ghost use Rattle.lp_frac.specs.Less.{IsScaled};

use crate::divisors::{common, common_of_short};
use crate::frac::Frac;
use crate::limited::{part, part_den};

// The fraction `num / den` in lowest terms: both are divided by their greatest common divisor.
pub(crate) fn lowest(num: i128, den: u128) -> Frac
    requires positive { 0 < den }
    requires num_fits { unsigned_abs num ≤ number_limit }
    requires den_fits { den ≤ number_limit }
    ensures { result ≡ over num den }
{
    let g = common(num.unsigned_abs(), den);
    Frac::make(part(num, g), part_den(den, g))
}

// The quotient of a numerator of 64 bits by its divisor `g`.
#[inline(always)]
fn short_part(num: i64, g: u64) -> i128
    requires positive { 0 < g }
    requires small { g ≤ 9223372036854775807 }
    ensures { result ≡ int_div num (pos g) }
{
    (num / g as i64) as i128
}

// The quotient of a denominator of 64 bits by its divisor `g`.
#[inline(always)]
fn short_part_den(den: u64, g: u64) -> u128
    requires { 0 < g }
    ensures { result ≡ den / g }
{
    (den / g) as u128
}

// The whole number `num` as a fraction over 1.
#[inline(always)]
fn of_whole(num: i64) -> Frac
    ensures { result ≡ over num 1 }
{
    Frac::make(num as i128, 1)
}

// The fraction `num / den`, of 64 bits each, in lowest terms: both are divided by their greatest common divisor.
#[inline(always)]
fn divided(num: i64, den: u64) -> Frac
    requires positive { 0 < den }
    requires num_fits { unsigned_abs num ≤ 9223372036854775807 }
    requires den_fits { den ≤ 9223372036854775807 }
    ensures { result ≡ over num den }
{
    let g = common_of_short(num.unsigned_abs(), den);
    if g == 1 {
        return Frac::make(num as i128, den as u128);
    }
    Frac::make(short_part(num, g), short_part_den(den, g))
}

// The fraction `num / den`, of 64 bits each, in lowest terms. For a whole number, or 0, no divisor is sought.
#[inline(always)]
pub(crate) fn short_lowest(num: i64, den: u64) -> Frac
    requires positive { 0 < den }
    requires num_fits { unsigned_abs num ≤ 9223372036854775807 }
    requires den_fits { den ≤ 9223372036854775807 }
    ensures { result ≡ over num den }
{
    if den == 1 {
        return of_whole(num);
    }
    if num == 0 {
        return of_whole(0);
    }
    divided(num, den)
}

// Factors p and q with p f = q k: 1 and 1 where k = f, k/f and 1 where f divides k, else k and f.
#[inline(always)]
pub(crate) fn scales(k: u64, f: u64) -> (u64, u64)
    requires k_positive { 0 < k }
    requires f_positive { 0 < f }
    ensures { IsScaled result.0 result.1 k f }
{
    if k == f {
        return (1, 1);
    }
    let rest = k % f;
    if rest == 0 {
        return (k / f, 1);
    }
    (k, f)
}
