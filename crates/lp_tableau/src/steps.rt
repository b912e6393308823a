// The values of nonbasic columns, and which columns are fixed.
ghost use Rattle.std.specs.Prelude.{◌≡◌};
ghost use Rattle.spec_simplex.specs.Tableau.{is_fixed as is_fixed_of, or_zero as or_zero_of, stand as stand_of};

use lp_form::Status;
use lp_frac::{Frac, are_same, zero};

/// The bound, or 0 where there is none.
pub fn or_zero(bound: Option<Frac>) -> Frac
    ensures { result ≡ or_zero_of bound }
{
    match bound {
        Some(v) => v,
        None => zero(),
    }
}

/// The value of a nonbasic column of this status with these bounds, and 0 for a basic one.
pub fn stand(status: Status, lower: Option<Frac>, upper: Option<Frac>) -> Frac
    ensures { result ≡ stand_of status lower upper }
{
    match status {
        Status::AtLower => or_zero(lower),
        Status::AtUpper => or_zero(upper),
        Status::Basic | Status::AtZero => zero(),
    }
}

/// Whether both bounds are there, and equal.
pub fn is_fixed(lower: Option<Frac>, upper: Option<Frac>) -> bool
    ensures { result ≡ is_fixed_of lower upper }
{
    match (lower, upper) {
        (Some(lower), Some(upper)) => are_same(lower, upper),
        _ => false,
    }
}
