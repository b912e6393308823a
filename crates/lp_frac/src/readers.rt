// Operations that are never refused: the parts, the sign, the negative and the magnitude.
ghost use Rattle.std.specs.Prelude.{◌≡◌, ◌≢◌, ◌≤◌, unsigned_abs, pos, IsTrue, ◌↔◌, All, IfSome};
ghost use Rattle.spec_exact.specs.Fraction.{neg_ℚ, abs_ℚ, 0ℚ, 1ℚ, inverse, eq_ℚ, lt_ℚ};
ghost use Rattle.spec_exact.specs.Limit.{sign as sign_of};
ghost use Rattle.spec_exact.specs.Laws.{IsWithin};
ghost use Rattle.spec_exact.specs.Narrow.{IsNarrow, number_limit};

use crate::frac::Frac;
use crate::limited::signed;
use std::cmp::Ordering;

/// The numerator, whose magnitude is at most `LARGEST`.
pub fn num(v: Frac) -> i128
    ensures value { result ≡ v.num }
    ensures size { unsigned_abs result ≤ number_limit }
{
    v.top()
}

/// The denominator, at least 1 and at most `LARGEST`.
pub fn den(v: Frac) -> i128
    ensures value { result ≡ pos v.den }
    ensures size { v.den ≤ number_limit }
{
    v.bottom() as i128
}

// Whether the numerator is 0.
fn has_top_zero(v: Frac) -> bool
    ensures { IsTrue result ↔ (v.num ≡ pos 0) }
{
    v.top() == 0
}

/// Whether `v` is 0.
pub fn is_zero(v: Frac) -> bool
    ensures { IsTrue result ↔ (v ≡ 0ℚ) }
{
    has_top_zero(v)
}

/// The numerator and the denominator of a fraction are within the limit. The call does nothing: proofs make it for this
/// fact.
pub fn within(v: Frac)
    ensures { IsWithin number_limit v }
{
    let (_, _) = (v.top(), v.bottom());
}

/// The numerators and the denominators of a list of fractions are within the limit. The call does nothing: proofs make
/// it for this fact.
pub fn all_within(vs: &[Frac])
    ensures { All (IsWithin number_limit) vs.now }
{
    for v in vs {
        within(*v);
    }
}

/// Gives a fraction as it is, known to have at most 127 bits.
pub fn narrow(v: Frac) -> Frac
    ensures value { result ≡ v }
    ensures narrow { IsNarrow result }
{
    let _parts = (num(v), den(v));
    v
}

/// Gives a fraction as it is, if there is one, known to have at most 127 bits.
pub fn narrow_if(v: Option<Frac>) -> Option<Frac>
    ensures value { result ≡ v }
    ensures narrow { IfSome v IsNarrow }
{
    match v {
        Some(v) => Some(narrow(v)),
        None => None,
    }
}

/// The negative of the fraction `v`.
pub fn neg(v: Frac) -> Frac
    ensures { result ≡ neg_ℚ v }
{
    Frac::make(-v.top(), v.bottom())
}

/// The absolute value of the fraction `v`.
pub fn abs(v: Frac) -> Frac
    ensures { result ≡ abs_ℚ v }
{
    if v.top() < 0 { neg(v) } else { v }
}

/// Whether the fraction `v` is below 0, equal to 0, or above 0.
pub fn sign(v: Frac) -> Ordering
    ensures { result ≡ sign_of v }
{
    v.top().cmp(&0)
}

/// Whether `v` is below 0.
pub fn is_negative(v: Frac) -> bool
    ensures { result ≡ lt_ℚ v 0ℚ }
{
    v.top() < 0
}

/// Whether `v` is above 0.
pub fn is_positive(v: Frac) -> bool
    ensures { result ≡ lt_ℚ 0ℚ v }
{
    v.top() > 0
}

/// The fraction 0.
pub fn zero() -> Frac
    ensures { result ≡ 0ℚ }
{
    Frac::make(0, 1)
}

/// The fraction 1.
pub fn one() -> Frac
    ensures { result ≡ 1ℚ }
{
    Frac::make(1, 1)
}

/// Whether the two are one fraction. `==` answers the same; contracts say it of this function.
pub fn are_same(v: Frac, w: Frac) -> bool
    ensures same { IsTrue result ↔ (v ≡ w) }
    ensures test { result ≡ eq_ℚ v w }
{
    v == w
}

// The reciprocal of a fraction other than 0. Its parts are those of `w` exchanged, so it is within the limit.
pub(crate) fn reciprocal(w: Frac) -> Frac
    requires { w ≢ 0ℚ }
    ensures { result ≡ inverse w }
{
    let n = w.top();
    Frac::make(signed(n < 0, w.bottom()), n.unsigned_abs())
}
