// A product taken off a number, where the parts of all three have 32 bits.
ghost use Rattle.std.specs.Prelude.{◌≡◌, ◌<◌, ◌≤◌, ◌*◌, Some, IfSome, Ok, ◌*ℤ◌, ◌-ℤ◌, pos, unsigned_abs};
ghost use Rattle.spec_exact.specs.Fraction.{over};
ghost use Rattle.spec_exact.specs.Run.{less_product};
ghost use Rattle.spec_exact.specs.Narrow.{number_limit};
ghost use Rattle.lp_frac.specs.Less.{IsSmall, IsTerm};

use crate::frac::Frac;
use crate::lowest::{scales, short_lowest};

// The numerator and the denominator, where they fit 32 bits, the numerator with a sign; else none.
#[inline(always)]
fn small(v: Frac) -> Option<(i32, u64)>
    ensures { IfSome result (λ parts. IsSmall parts.0 parts.1 v) }
{
    let den = v.bottom();
    if den > u32::MAX as u128 {
        return None;
    }
    match i32::try_from(v.top()) {
        Ok(num) => Some((num, den as u64)),
        Err(_) => None,
    }
}

// The product of the numerators `a` and `c`, of 32 bits each, in 64 bits.
#[inline(always)]
fn small_product(a: i32, c: i32) -> i64
    ensures value { result ≡ a *ℤ c }
    ensures size { unsigned_abs result ≤ 4611686018427387904 }
{
    a as i64 * c as i64
}

// The product of the denominators b and d, of 32 bits each.
#[inline(always)]
fn small_product_den(b: u64, d: u64) -> u64
    requires b_size { b ≤ 4294967295 }
    requires d_size { d ≤ 4294967295 }
    ensures { result ≡ b * d }
{
    b * d
}

// `n q`, where `q` is 1 or `n` is at most 2^30 in size; else none.
#[inline(always)]
fn small_on(n: i64, q: u64) -> Option<i64>
    requires n_size { unsigned_abs n ≤ 4611686018427387904 }
    requires q_size { q ≤ 4294967295 }
    ensures { IfSome result (λ y. IsTerm y n q) }
{
    if q == 1 {
        return Some(n);
    }
    if n.unsigned_abs() > 1 << 30 {
        return None;
    }
    Some(n * q as i64)
}

// The product of e and p, in 64 bits.
#[inline(always)]
fn small_scaled(e: i32, p: u64) -> i64
    requires { p ≤ 2147483647 }
    ensures value { result ≡ e *ℤ pos p }
    ensures size { unsigned_abs result ≤ 4611686016279904256 }
{
    e as i64 * p as i64
}

// `x - y`, the difference of two numerators on one denominator.
#[inline(always)]
fn small_num(x: i64, y: i64) -> i64
    requires x_size { unsigned_abs x ≤ 4611686016279904256 }
    requires y_size { unsigned_abs y ≤ 4611686018427387904 }
    ensures value { result ≡ x -ℤ y }
    ensures size { unsigned_abs result ≤ 9223372036854775807 }
{
    x - y
}

// The product of p and f, in 64 bits.
#[inline(always)]
fn small_den(p: u64, f: u64) -> u64
    requires p_size { p ≤ 2147483647 }
    requires f_size { f ≤ 4294967295 }
    ensures value { result ≡ p * f }
    ensures size { result ≤ 9223372036854775807 }
{
    p * f
}

// `e/f - n/k` in lowest terms, found as `(e p - n q) / (p f)`, where the factors p and q make `p f = q k`; none where
// `e p` or `n q` may be past 2^62 in size.
#[inline(always)]
fn small_difference_on(e: i32, f: u64, n: i64, p: u64, q: u64) -> Option<Frac>
    requires f_positive { 0 < f }
    requires f_size { f ≤ 4294967295 }
    requires n_size { unsigned_abs n ≤ 4611686018427387904 }
    requires p_positive { 0 < p }
    requires q_size { q ≤ 4294967295 }
    ensures { IfSome result (λ x. x ≡ over (e *ℤ pos p -ℤ n *ℤ pos q) (p * f)) }
{
    if p > i32::MAX as u64 {
        return None;
    }
    match small_on(n, q) {
        Some(y) => Some(short_lowest(small_num(small_scaled(e, p), y), small_den(p, f))),
        None => None,
    }
}

// `e/f - n/k` in lowest terms; none where one of the two numerators may be past 2^62 in size on a common denominator.
#[inline(always)]
fn small_difference(e: i32, f: u64, n: i64, k: u64) -> Option<Frac>
    requires f_positive { 0 < f }
    requires f_size { f ≤ 4294967295 }
    requires n_size { unsigned_abs n ≤ 4611686018427387904 }
    requires k_positive { 0 < k }
    ensures { IfSome result (λ x. x ≡ over (e *ℤ pos k -ℤ n *ℤ pos f) (k * f)) }
{
    let (p, q) = scales(k, f);
    small_difference_on(e, f, n, p, q)
}

// `s - v * w`, exact and in lowest terms; none where a part of one of the three fractions does not fit 32 bits, or a
// number on the way may not fit 64. With v = a/b, w = c/d and s = e/f it is e/f - n/k, where n = a c and k = b d.
#[inline(always)]
pub(crate) fn small_less(v: Frac, w: Frac, s: Frac) -> Option<Frac>
    ensures { IfSome result (λ x. less_product (Some number_limit) v w s ≡ Ok x) }
{
    let Some((a, b)) = small(v) else {
        return None;
    };
    let Some((c, d)) = small(w) else {
        return None;
    };
    let Some((e, f)) = small(s) else {
        return None;
    };
    small_difference(e, f, small_product(a, c), small_product_den(b, d))
}
