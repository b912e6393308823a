// Costs that are shifted until no reduced cost is wrong.
use crate::moves::float_at;
use crate::statuses::status_at;
use lp_frac::{Frac, add};
use spec_pivot::Status;

// How many doublings a shift is from 1 at most.
const DOUBLINGS: u32 = 62;

// The least power of two from 2^-62 to 2^61 that is not below a number above 0; 2^-62 if there is none.
fn power_from(number: f64) -> Option<Frac> {
    let mut power = 1i128;
    let mut reach = 1.0f64;
    for _ in 0..DOUBLINGS {
        if number <= 1.0 && number * 2.0 > reach {
            return Frac::new(1, power).ok();
        }
        if number > 1.0 && number <= reach {
            return Frac::new(power, 1).ok();
        }
        power = power.wrapping_mul(2);
        reach = if number > 1.0 {
            reach * 2.0
        } else {
            reach * 0.5
        };
    }
    Frac::new(1, power).ok()
}

// What is added to a cost so that the reduced cost is no longer wrong for its status: a power of two or its opposite.
// Where the reduced cost is past 2^60, it may be too little. None where it is not wrong, and for one basic or at 0.
fn shift_of(status: Status, reduced: f64) -> Option<Frac> {
    let is_wrong = match status {
        Status::Basic | Status::AtZero => false,
        Status::AtLower => reduced < 0.0,
        Status::AtUpper => reduced > 0.0,
    };
    if !is_wrong {
        return None;
    }
    let power = power_from(reduced.abs() * 1.001)?;
    if reduced < 0.0 {
        Some(power)
    } else {
        Some(lp_frac::neg(power))
    }
}

/// Shifts the costs of the columns at a bound whose reduced cost is wrong for their status, so that it is right, if it
/// is at most 2^60. A cost that would be past 127 bits stays. Says whether a cost was shifted.
pub(crate) fn shift(costs: &mut [Frac], statuses: &[Status], reduced: &[f64]) -> bool {
    let mut is_any = false;
    for (k, cost) in costs.iter_mut().enumerate() {
        if let Some(by) = shift_of(status_at(statuses, k), float_at(reduced, k)) {
            if let Ok(sum) = add(*cost, by) {
                *cost = sum;
                is_any = true;
            }
        }
    }
    is_any
}
