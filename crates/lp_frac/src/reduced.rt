// A fraction of two whole numbers, reduced.
ghost use Rattle.std.specs.Prelude.{◌≡◌};
ghost use Rattle.lp_frac.specs.Answer.{fraction_of};

use crate::divisors::common;
use crate::frac::{Frac, FracFault, LARGEST};
use crate::limited::{are_opposite, signed};

// The fraction `a / b` in lowest terms. `ZeroDen` where `b` is 0, else `Wide` where a part of it is past 127 bits.
fn fraction(a: i128, b: i128) -> Result<Frac, FracFault>
    ensures { result ≡ fraction_of a b }
{
    if b == 0 {
        return Err(FracFault::ZeroDen);
    }
    let g = common(a.unsigned_abs(), b.unsigned_abs());
    let size = a.unsigned_abs() / g;
    let den = b.unsigned_abs() / g;
    if LARGEST < size {
        return Err(FracFault::Wide);
    }
    if LARGEST < den {
        return Err(FracFault::Wide);
    }
    Ok(Frac::make(signed(are_opposite(a, b), size), den))
}

impl Frac {
    /// The fraction `a / b` in lowest terms. It is refused as `ZeroDen` where `b` is 0, and else
    /// as `Wide` where a part of the reduced fraction is past `LARGEST`.
    pub fn new(a: i128, b: i128) -> Result<Frac, FracFault>
        ensures { result ≡ fraction_of a b }
    {
        fraction(a, b)
    }
}
