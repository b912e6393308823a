// A product taken off a number, where the parts of all three and of the product have 64 bits.
ghost use Rattle.std.specs.Prelude.{◌≡◌, ◌<◌, ◌≤◌, ◌*◌, Some, IfSome, Ok, ◌*ℤ◌, ◌-ℤ◌, pos, unsigned_abs};
ghost use Rattle.spec_exact.specs.Fraction.{over};
ghost use Rattle.spec_exact.specs.Run.{less_product};
ghost use Rattle.spec_exact.specs.Narrow.{number_limit};
ghost use Rattle.lp_frac.specs.Less.{IsShort, IsShortProduct, IsNumerator, IsDenominator};

use crate::frac::Frac;
use crate::lowest::{lowest, scales, short_lowest};

// The largest whole number of 64 bits and a sign.
const LONGEST: u64 = i64::MAX as u64;

// The numerator and the denominator, where the numerator fits an i64 and the denominator 63 bits; else none.
fn short(v: Frac) -> Option<(i64, u64)>
    ensures { IfSome result (λ parts. IsShort parts.0 parts.1 v) }
{
    let den = v.bottom();
    if den > LONGEST as u128 {
        return None;
    }
    match i64::try_from(v.top()) {
        Ok(num) => Some((num, den as u64)),
        Err(_) => None,
    }
}

// `b d`, the product of two denominators; none where it has more than 63 bits.
fn short_den(b: u64, d: u64) -> Option<u64>
    ensures { IfSome result (λ k. IsDenominator k b d) }
{
    match b.checked_mul(d) {
        Some(k) => { if k <= LONGEST { Some(k) } else { None } }
        None => None,
    }
}

// For `v = a/b` and `w = c/d` the parts `n = a c` and `k = b d` of their product, which need not be in lowest terms.
// None where `a`, `c` or `n` does not fit an i64, or `b`, `d` or `k` has more than 63 bits.
fn short_product(v: Frac, w: Frac) -> Option<(i64, u64)>
    ensures { IfSome result (λ parts. IsShortProduct parts.0 parts.1 v w) }
{
    let Some((a, b)) = short(v) else {
        return None;
    };
    let Some((c, d)) = short(w) else {
        return None;
    };
    let Some(k) = short_den(b, d) else {
        return None;
    };
    match a.checked_mul(c) {
        Some(n) => Some((n, k)),
        None => None,
    }
}

// `e p`; none where it does not fit an i64. `p` has at most 63 bits.
fn scaled(e: i64, p: u64) -> Option<i64>
    requires { p ≤ 9223372036854775807 }
    ensures { IfSome result (λ x. x ≡ e *ℤ pos p) }
{
    e.checked_mul(p as i64)
}

// `e p - n q`; none where that or one of the two products does not fit an i64, or where it is -2^63.
fn short_num(e: i64, p: u64, n: i64, q: u64) -> Option<i64>
    requires p_size { p ≤ 9223372036854775807 }
    requires q_size { q ≤ 9223372036854775807 }
    ensures { IfSome result (λ x. IsNumerator x e p n q) }
{
    match (scaled(e, p), scaled(n, q)) {
        (Some(x), Some(y)) => match x.checked_sub(y) {
            Some(num) => { if num == i64::MIN { None } else { Some(num) } }
            None => None,
        },
        _ => None,
    }
}

// The product of e and p, in 128 bits.
fn long_scaled(e: i64, p: u64) -> i128
    requires { p ≤ 9223372036854775807 }
    ensures value { result ≡ e *ℤ pos p }
    ensures size { unsigned_abs result ≤ 85070591730234615856620279821087277056 }
{
    e as i128 * p as i128
}

// `e p - n q`, in 128 bits.
fn long_num(e: i64, p: u64, n: i64, q: u64) -> i128
    requires p_size { p ≤ 9223372036854775807 }
    requires q_size { q ≤ 9223372036854775807 }
    ensures value { result ≡ e *ℤ pos p -ℤ n *ℤ pos q }
    ensures size { unsigned_abs result ≤ number_limit }
{
    long_scaled(e, p) - long_scaled(n, q)
}

// The product of p and f, in 128 bits.
fn long_den(p: u64, f: u64) -> u128
    requires p_size { p ≤ 9223372036854775807 }
    requires f_size { f ≤ 9223372036854775807 }
    ensures value { result ≡ p * f }
    ensures size { result ≤ number_limit }
{
    p as u128 * f as u128
}

// `e/f - n/k` in lowest terms, found as `(e p - n q) / (p f)`, where the factors p and q make `p f = q k`.
fn difference_on(e: i64, f: u64, n: i64, p: u64, q: u64) -> Frac
    requires f_positive { 0 < f }
    requires f_size { f ≤ 9223372036854775807 }
    requires p_positive { 0 < p }
    requires p_size { p ≤ 9223372036854775807 }
    requires q_size { q ≤ 9223372036854775807 }
    ensures { result ≡ over (e *ℤ pos p -ℤ n *ℤ pos q) (p * f) }
{
    match (short_num(e, p, n, q), short_den(p, f)) {
        (Some(num), Some(den)) => short_lowest(num, den),
        _ => lowest(long_num(e, p, n, q), long_den(p, f)),
    }
}

// The fraction e/f - n/k, in lowest terms.
fn difference(e: i64, f: u64, n: i64, k: u64) -> Frac
    requires f_positive { 0 < f }
    requires f_size { f ≤ 9223372036854775807 }
    requires k_positive { 0 < k }
    requires k_size { k ≤ 9223372036854775807 }
    ensures { result ≡ over (e *ℤ pos k -ℤ n *ℤ pos f) (k * f) }
{
    let (p, q) = scales(k, f);
    difference_on(e, f, n, p, q)
}

// `s - v * w`, exact and in lowest terms; none where a part of one of the three fractions, or of the product of `v` and
// `w` before it is reduced, does not fit 64 bits with a sign. With v = a/b, w = c/d and s = e/f it is e/f - n/k, where
// n = a c and k = b d.
pub(crate) fn short_less(v: Frac, w: Frac, s: Frac) -> Option<Frac>
    ensures { IfSome result (λ x. less_product (Some number_limit) v w s ≡ Ok x) }
{
    let Some((e, f)) = short(s) else {
        return None;
    };
    match short_product(v, w) {
        Some((n, k)) => Some(difference(e, f, n, k)),
        None => None,
    }
}
