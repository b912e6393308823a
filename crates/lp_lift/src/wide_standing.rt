// How the columns of a basis stand, with numbers of any width where those of 127 bits are too narrow.
use crate::kernel::{Kernel, Prepared, place_at};
use crate::near::near_quotient;
use crate::numbers::{multipliers, numbers};
use crate::program::Program;
use crate::sides::part;
use crate::standing::{FREE, Room, put_rates, put_rooms, short_rates, short_reduced, short_rooms};
use crate::statuses::is_basic_at;
use crate::wide_kernel::words_of_natural;
use crate::wide_sides::with_cost;
use lp_check::wide::{Evaluation, evaluated, reduced_costs};
use lp_frac::{Frac, neg};
use lp_ratio::{Lowest, Ratio};
use lp_sparse::Solved;
use spec_pivot::Status;
use std::alloc::{AllocError, Global};

// The float near a number of any width: 0 where that is 0, and only there.
fn near(alloc: Global, number: &Ratio) -> Result<f64, AllocError> {
    let Lowest {
        is_negative,
        top,
        bottom,
    } = number.lowest(alloc)?;
    let above = words_of_natural(alloc, top)?;
    let below = words_of_natural(alloc, bottom)?;
    let size = near_quotient(&above, &below);
    Ok(if is_negative { -size } else { size })
}

// The float near the sum of a number of any width and a fraction: 0 where the sum is 0, and only there.
fn near_sum(alloc: Global, number: &Ratio, v: Frac) -> Result<f64, AllocError> {
    let sum = number.plus(alloc, &Ratio::new(alloc, v)?)?;
    near(alloc, &sum)
}

// ---- rooms

// The sums of all rows where the kernel's columns have the solution's values and other columns those of `values`.
fn row_sums(
    alloc: Global,
    program: &Program<'_>,
    kernel: &Kernel,
    solved: &Solved,
    values: &[Frac],
) -> Result<Evaluation, AllocError> {
    let len = program.model.cols();
    let point = numbers(alloc, len, &kernel.column_places, solved, false, values)?;
    evaluated(alloc, program.model, &point)
}

// By how much a row's sum is above its lower bound and below its upper one, as floats; infinite where a bound is
// absent.
fn room_of(
    alloc: Global,
    sum: &Ratio,
    lower: Option<Frac>,
    upper: Option<Frac>,
) -> Result<Room, AllocError> {
    let above_lower = match lower {
        Some(lower) => near_sum(alloc, sum, neg(lower))?,
        None => f64::INFINITY,
    };
    let below_upper = match upper {
        Some(upper) => -near_sum(alloc, sum, neg(upper))?,
        None => f64::INFINITY,
    };
    Ok(Room {
        above_lower,
        below_upper,
    })
}

// Sets the rooms of the basic logical columns, in floats, from the sums of their rows in numbers of any width.
fn put_row_rooms(
    alloc: Global,
    program: &Program<'_>,
    kernel: &Kernel,
    sums: &[Ratio],
    rooms: &mut [Room],
) -> Result<(), AllocError> {
    for (i, sum) in sums.iter().enumerate() {
        let k = program.cols().wrapping_add(i);
        if let (None, Some(room)) = (place_at(&kernel.row_places, i), rooms.get_mut(k)) {
            *room = room_of(alloc, sum, program.lower(k), program.upper(k))?;
        }
    }
    Ok(())
}

/// The distances of each basic column from its bounds, by the solution and by the values of the nonbasic columns;
/// infinite for each nonbasic one.
pub(crate) fn rooms(
    alloc: Global,
    program: &Program<'_>,
    prepared: &Prepared,
    solved: &Solved,
    values: &[Frac],
) -> Result<Vec<Room>, AllocError> {
    let Prepared { kernel, whole, .. } = prepared;
    if let Some(scales) = whole.scales.short() {
        if let Some(rooms) = short_rooms(alloc, program, kernel, scales, solved, values)? {
            return Ok(rooms);
        }
    }
    let found = row_sums(alloc, program, kernel, solved, values)?;
    let mut rooms = Vec::from_elem(alloc, FREE, values.len())?;
    put_rooms(alloc, program, kernel, solved, &mut rooms)?;
    put_row_rooms(alloc, program, kernel, found.sums.as_slice(), &mut rooms)?;
    Ok(rooms)
}

// ---- rates

// Sets the rates of the basic logical columns, in floats, from the sums of their rows in numbers of any width.
fn put_row_rates(
    alloc: Global,
    program: &Program<'_>,
    kernel: &Kernel,
    sums: &[Ratio],
    rates: &mut [f64],
) -> Result<(), AllocError> {
    for (i, sum) in sums.iter().enumerate() {
        let k = program.cols().wrapping_add(i);
        if let (None, Some(rate)) = (place_at(&kernel.row_places, i), rates.get_mut(k)) {
            *rate = near(alloc, sum)?;
        }
    }
    Ok(())
}

/// The rates at which the basic columns move where the nonbasic ones move by `moves`; 0 for each nonbasic one.
pub(crate) fn rates_of(
    alloc: Global,
    program: &Program<'_>,
    prepared: &Prepared,
    solved: &Solved,
    moves: &[Frac],
) -> Result<Vec<f64>, AllocError> {
    let Prepared { kernel, whole, .. } = prepared;
    if let Some(scales) = whole.scales.short() {
        if let Some(rates) = short_rates(alloc, program, kernel, scales, solved, moves)? {
            return Ok(rates);
        }
    }
    let found = row_sums(alloc, program, kernel, solved, moves)?;
    let mut rates = Vec::from_elem(alloc, 0.0f64, moves.len())?;
    put_rates(kernel, solved, &mut rates);
    put_row_rates(alloc, program, kernel, found.sums.as_slice(), &mut rates)?;
    Ok(rates)
}

// ---- reduced costs

// Sets the reduced costs of the nonbasic structural columns in floats, from those by the program's costs and the
// difference of the costs.
fn put_structurals(
    alloc: Global,
    program: &Program<'_>,
    statuses: &[Status],
    costs: &[Frac],
    reduced: &[Ratio],
    list: &mut [f64],
) -> Result<(), AllocError> {
    for (j, number) in reduced.iter().enumerate() {
        if let (false, Some(place)) = (is_basic_at(statuses, j), list.get_mut(j)) {
            *place = near(alloc, &with_cost(alloc, program, costs, j, number)?)?;
        }
    }
    Ok(())
}

// Sets the reduced costs of the nonbasic logical columns: the cost of each, and the multiplier of its row.
fn put_logicals(
    alloc: Global,
    program: &Program<'_>,
    statuses: &[Status],
    costs: &[Frac],
    multipliers: &[Ratio],
    list: &mut [f64],
) -> Result<(), AllocError> {
    for (i, number) in multipliers.iter().enumerate() {
        let k = program.cols().wrapping_add(i);
        if let (false, Some(place)) = (is_basic_at(statuses, k), list.get_mut(k)) {
            *place = near_sum(alloc, number, part(costs, k))?;
        }
    }
    Ok(())
}

/// The reduced cost of each column as a float, 0 of the basic ones, by the multipliers of the kernel's rows and these
/// costs.
pub(crate) fn all_reduced(
    alloc: Global,
    program: &Program<'_>,
    kernel: &Kernel,
    statuses: &[Status],
    solved: &Solved,
    costs: &[Frac],
) -> Result<Vec<f64>, AllocError> {
    if let Some(reduced) = short_reduced(alloc, program, kernel, statuses, solved, costs)? {
        return Ok(reduced);
    }
    let y = multipliers(alloc, program, kernel, solved, false, costs)?;
    let found = reduced_costs(alloc, program.model, &y)?;
    let mut list = Vec::from_elem(alloc, 0.0f64, statuses.len())?;
    put_structurals(alloc, program, statuses, costs, found.as_slice(), &mut list)?;
    put_logicals(alloc, program, statuses, costs, y.as_slice(), &mut list)?;
    Ok(list)
}
