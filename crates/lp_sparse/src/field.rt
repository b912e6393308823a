// The numbers of a matrix that is factored.

/// A field, or floats in its place.
pub trait Field: Copy {
    /// What added to a number leaves it as it is.
    fn zero() -> Self;

    /// Whether it is 0, and no number that is only near it.
    fn is_zero(self) -> bool;

    /// The product of the two numbers.
    fn times(self, other: Self) -> Self;

    /// `self - a b`
    fn less_product(self, a: Self, b: Self) -> Self;

    /// The inverse of a number that is not 0.
    fn inverse(self) -> Self;

    /// Whether each number but 0 is as good a pivot as any other, as in exact arithmetic. Where it is not, `magnitude`
    /// and `is_negligible` decide.
    fn is_exact() -> bool;

    /// How large it is, for a choice among pivots.
    fn magnitude(self) -> f64;

    /// Whether it is taken for 0 where an elimination leaves it.
    fn is_negligible(self) -> bool;
}

impl Field for f64 {
    // The float 0.
    #[inline(always)]
    fn zero() -> Self {
        0.0
    }

    // Whether it is 0 or -0.
    #[inline(always)]
    fn is_zero(self) -> bool {
        self == 0.0
    }

    // The product, rounded.
    #[inline(always)]
    fn times(self, other: Self) -> Self {
        self * other
    }

    // `self - a b`, rounded twice.
    #[inline(always)]
    fn less_product(self, a: Self, b: Self) -> Self {
        self - a * b
    }

    // The quotient of 1 by the number, rounded: infinite for 0.
    #[inline(always)]
    fn inverse(self) -> Self {
        1.0 / self
    }

    // No: a small pivot makes errors large.
    #[inline(always)]
    fn is_exact() -> bool {
        false
    }

    // Its absolute value.
    #[inline(always)]
    fn magnitude(self) -> f64 {
        self.abs()
    }

    // Whether rounding alone may have left it.
    #[inline(always)]
    fn is_negligible(self) -> bool {
        self.abs() < NEGLIGIBLE
    }
}

// Below this a float is taken for 0.
const NEGLIGIBLE: f64 = 1e-13;
