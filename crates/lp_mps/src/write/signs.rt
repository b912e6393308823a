// Tests of fractions.
ghost use Rattle.std.specs.Prelude.{◌≡◌, ◌&&◌};
ghost use Rattle.spec_exact.specs.Fraction.{0ℚ, eq_ℚ, lt_ℚ};

use lp_frac::{Frac, are_same, is_positive, zero};

/// Whether the fraction is 0.
pub fn is_zero(v: Frac) -> bool
    ensures { result ≡ eq_ℚ v 0ℚ }
{
    are_same(v, zero())
}

/// Whether the lower bound is 0, and the upper one above it.
pub fn is_up_from_zero(lower: Frac, upper: Frac) -> bool
    ensures { result ≡ (eq_ℚ lower 0ℚ && lt_ℚ 0ℚ upper) }
{
    is_zero(lower) && is_positive(upper)
}
