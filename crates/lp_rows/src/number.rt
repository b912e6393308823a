// Numbers of rows as fractions, and the numbers of lists that are made of them.
ghost use Rattle.std.specs.Prelude.{◌≡◌, ◌<◌, IfOk, IfSome};
ghost use Rattle.spec_exact.specs.Fraction.{ℚ, 0ℚ, 1ℚ, neg_ℚ};
ghost use Rattle.spec_simplex.specs.Step as step;
ghost use Rattle.lp_rows.specs.Number.{fraction_of};

use lp_natural::words::{Signed, Words};
use spec_pivot::Way;
use std::alloc::{AllocError, Global};

/// A number over a denominator, as a row has both.
#[derive(Clone, Copy)]
pub struct RowFraction<T> {
    pub number: Signed<T>,
    pub denominator: T,
}

/// A number of a list, which is made of those of rows.
pub trait Listed: Drop {
    /// The number that a fraction is.
    ghost of: { ℚ → Self };

    /// What holds of each.
    ghost fits: { Self → Type 0 };

    /// The number that is this fraction. Of a kind of numbers that has a width there may be none.
    fn from_row<T: Words>(alloc: Global, v: RowFraction<T>) -> Result<Option<Self>, AllocError>
        requires { 0 < T.value v.denominator }
        ensures value { IfOk result (λ o. IfSome o (λ n. n ≡ of (fraction_of T.value v))) }
        ensures fits { IfOk result (λ o. IfSome o fits) };
}

// The fraction 0.
pub(crate) fn zero<T: Words>() -> RowFraction<T>
    ensures { fraction_of T.value result ≡ 0ℚ }
{
    RowFraction {
        number: Signed {
            negative: false,
            size: T::zero(),
        },
        denominator: T::one(),
    }
}

// The fraction 1.
pub(crate) fn one<T: Words>() -> RowFraction<T>
    ensures { fraction_of T.value result ≡ 1ℚ }
{
    RowFraction {
        number: Signed {
            negative: false,
            size: T::one(),
        },
        denominator: T::one(),
    }
}

// The negative of a fraction.
pub(crate) fn negated<T: Words>(v: RowFraction<T>) -> RowFraction<T>
    ensures { fraction_of T.value result ≡ neg_ℚ (fraction_of T.value v) }
{
    RowFraction {
        number: Signed {
            negative: !v.number.negative,
            size: v.number.size,
        },
        denominator: v.denominator,
    }
}

// The fraction, or its negative where the entering column falls.
pub(crate) fn directed<T: Words>(way: Way, v: RowFraction<T>) -> RowFraction<T>
    ensures { fraction_of T.value result ≡ step.directed way (fraction_of T.value v) }
{
    match way {
        Way::Up => v,
        Way::Down => negated(v),
    }
}
