// How far the entering column goes by the primal method: Harris' ratio test.
use crate::number::{at, index_at};
use crate::state::State;
use spec_pivot::Status;

// A rate of up to this size is taken for 0.
const NO_RATE: f64 = 1e-9;

/// The position that blocks, how far the entering column goes until then, and the bound that the leaving one is at.
#[derive(Clone, Copy)]
pub(crate) struct Block {
    pub(crate) place: usize,
    pub(crate) step: f64,
    pub(crate) to: Status,
}

// The bound that stops a column that goes up, and the distance to it. One that is below its bounds passes the lower
// one, if it has an upper one. None where it is above the upper one, or has none and is not below the lower one.
fn goal_above(state: &State, k: usize) -> Option<(f64, Status)> {
    let value = at(&state.value, k);
    let upper = at(&state.upper, k);
    let lower = at(&state.lower, k);
    if upper < f64::INFINITY {
        if value <= upper + state.limits.primal {
            Some((upper - value, Status::AtUpper))
        } else {
            None
        }
    } else if value < lower - state.limits.primal {
        Some((lower - value, Status::AtLower))
    } else {
        None
    }
}

// The bound that stops a column that goes down, and the distance to it. One that is above its bounds passes the upper
// one, if it has a lower one. None where it is below the lower one, or has none and is not above the upper one.
fn goal_below(state: &State, k: usize) -> Option<(f64, Status)> {
    let value = at(&state.value, k);
    let upper = at(&state.upper, k);
    let lower = at(&state.lower, k);
    if lower > f64::NEG_INFINITY {
        if value >= lower - state.limits.primal {
            Some((value - lower, Status::AtLower))
        } else {
            None
        }
    } else if value > upper + state.limits.primal {
        Some((value - upper, Status::AtUpper))
    } else {
        None
    }
}

// The bound that stops basic column `k` when it moves at this rate, and the distance to it. None if none does, or the
// rate is tiny.
fn goal(state: &State, k: usize, rate: f64) -> Option<(f64, Status)> {
    if rate > NO_RATE {
        goal_above(state, k)
    } else if rate < -NO_RATE {
        goal_below(state, k)
    } else {
        None
    }
}

// How far the entering column may go until a basic one is beyond its bounds by the tolerance; infinite where none is.
fn reach(state: &State, way: f64) -> f64 {
    let mut least = f64::INFINITY;
    let column = &state.room.column;
    for p in &column.places {
        let rate = -(way * at(&column.numbers, *p));
        let k = index_at(&state.basis.head, *p);
        if let Some((off, _)) = goal(state, k, rate) {
            let room = off.max(0.0) + state.limits.primal;
            least = (room / rate.abs()).min(least);
        }
    }
    least
}

/// What blocks the entering column, which goes up (`way` is 1) or down (-1): of the positions within reach that with
/// the greatest rate. None if nothing does.
pub(crate) fn blocking(state: &State, way: f64) -> Option<Block> {
    let reach = reach(state, way);
    let mut found = None;
    let mut most = 0.0;
    let column = &state.room.column;
    for place in &column.places {
        let rate = -(way * at(&column.numbers, *place));
        let k = index_at(&state.basis.head, *place);
        if let Some((off, to)) = goal(state, k, rate) {
            if rate.abs() > most && off <= reach * rate.abs() {
                let step = (off / rate.abs()).max(0.0);
                found = Some(Block {
                    place: *place,
                    step,
                    to,
                });
                most = rate.abs();
            }
        }
    }
    found
}
