// How the columns of a basis stand: by how much each basic one is within its bounds, and the reduced costs of the others.
// The floats are near the exact numbers, and 0 only where these are.
use crate::amounts::{Amounts, Sum, amounts_of, near, near_difference};
use crate::kernel::{Kernel, place_at};
use crate::program::Program;
use crate::scales::{least_common, multiple, scale_at, times_scale};
use crate::sides::{of_logicals, part};
use crate::statuses::is_basic_at;
use lp_frac::{Frac, den, neg};
use lp_sparse::wide::times_wide;
use lp_sparse::{Solved, Whole};
use spec_pivot::Status;
use std::alloc::{AllocError, Global};

/// How a basic column stands: by how much it is above its lower bound and below its upper one, infinite where there is
/// none.
#[derive(Clone, Copy)]
pub(crate) struct Room {
    pub(crate) above_lower: f64,
    pub(crate) below_upper: f64,
}

/// A column with no bounds, or one that is not basic.
pub(crate) const FREE: Room = Room {
    above_lower: f64::INFINITY,
    below_upper: f64::INFINITY,
};

// By how much a number over a denominator is above the lower bound and below the upper one, as floats; infinite where a
// bound is absent.
fn room_of(
    alloc: Global,
    number: &Whole,
    denominator: &[u64],
    lower: Option<Frac>,
    upper: Option<Frac>,
) -> Result<Room, AllocError> {
    let above_lower = match lower {
        Some(lower) => near_difference(alloc, number, denominator, lower)?,
        None => f64::INFINITY,
    };
    let below_upper = match upper {
        Some(upper) => -near_difference(alloc, number, denominator, upper)?,
        None => f64::INFINITY,
    };
    Ok(Room {
        above_lower,
        below_upper,
    })
}

// ---- sums of rows

// A list of `len` sums, one for each row, to which no product was added yet.
fn no_sums(alloc: Global, len: usize) -> Result<Vec<Sum>, AllocError> {
    let mut list = Vec::with_capacity(alloc, len)?;
    for _ in 0..len {
        list.push(Sum::new(alloc))?;
    }
    Ok(list)
}

// Adds a column's entries times a number to the sums of the rows whose logical is basic, each times its row's scale.
// False where an entry so scaled is no `i128`: it and the later ones are then not added.
fn add_column(
    sums: &mut [Sum],
    entries: &[(u32, Frac)],
    kernel: &Kernel,
    scales: &[i128],
    number: &Whole,
) -> Result<bool, AllocError> {
    for (i, entry) in entries {
        let row = *i as usize;
        if place_at(&kernel.row_places, row).is_none() {
            let Some(times) = multiple(*entry, scales, row) else {
                return Ok(false);
            };
            if let Some(sum) = sums.get_mut(row) {
                sum.add(number, times)?;
            }
        }
    }
    Ok(true)
}

// The sums of the rows whose logical is basic, each times the row's scale, at these numbers of the columns; 0 for other
// rows. There are none where an entry times its row's scale is no `i128`.
fn row_sums(
    alloc: Global,
    program: &Program<'_>,
    kernel: &Kernel,
    scales: &[i128],
    numbers: &[Whole],
) -> Result<Option<Vec<Whole>>, AllocError> {
    let mut sums = no_sums(alloc, program.rows())?;
    for (j, number) in numbers.iter().enumerate() {
        let is_done = number.words.is_empty()
            || add_column(&mut sums, program.entries(j), kernel, scales, number)?;
        if !is_done {
            return Ok(None);
        }
    }
    Ok(Some(numbers_of(alloc, sums)?))
}

// The sums of the rows whose logical is basic, each times its row's scale, where the kernel's columns have the
// solution's numbers and the others those of `values`; all on one denominator. None where a number is past the limits.
fn sums_of(
    alloc: Global,
    program: &Program<'_>,
    kernel: &Kernel,
    scales: &[i128],
    solved: &Solved,
    values: &[Frac],
) -> Result<Option<Amounts>, AllocError> {
    let structurals = values
        .get(..program.cols().min(values.len()))
        .unwrap_or(&[]);
    let Some(mut found) = amounts_of(alloc, solved, &kernel.column_places, structurals)? else {
        return Ok(None);
    };
    match row_sums(alloc, program, kernel, scales, &found.numbers)? {
        Some(sums) => {
            found.numbers = sums;
            Ok(Some(found))
        }
        None => Ok(None),
    }
}

// The numbers that these sums come to.
fn numbers_of(alloc: Global, sums: Vec<Sum>) -> Result<Vec<Whole>, AllocError> {
    let mut list = Vec::with_capacity(alloc, sums.len())?;
    for sum in sums {
        list.push(sum.into_number())?;
    }
    Ok(list)
}

// ---- the rooms

/// Sets the rooms of the basic structural columns, in floats, from their values in the solution.
pub(crate) fn put_rooms(
    alloc: Global,
    program: &Program<'_>,
    kernel: &Kernel,
    solved: &Solved,
    rooms: &mut [Room],
) -> Result<(), AllocError> {
    for place in 0..kernel.columns.len() {
        if let (Some(j), Some(number)) = (kernel.columns.get(place), solved.numerators.get(place)) {
            if let Some(room) = rooms.get_mut(*j) {
                let (lower, upper) = (program.lower(*j), program.upper(*j));
                *room = room_of(alloc, number, &solved.denominator, lower, upper)?;
            }
        }
    }
    Ok(())
}

// Sets the rooms of the basic logical columns that have a bound, in floats, from the sums of their rows.
fn put_row_rooms(
    alloc: Global,
    program: &Program<'_>,
    kernel: &Kernel,
    scales: &[i128],
    sums: &Amounts,
    rooms: &mut [Room],
) -> Result<(), AllocError> {
    for (i, sum) in sums.numbers.iter().enumerate() {
        let k = program.cols().wrapping_add(i);
        let (lower, upper) = (program.lower(k), program.upper(k));
        let is_bounded = lower.is_some() || upper.is_some();
        if is_bounded && place_at(&kernel.row_places, i).is_none() {
            if let Some(room) = rooms.get_mut(k) {
                let scale = scale_at(scales, i).unsigned_abs();
                let below = times_wide(alloc, &sums.denominator, scale)?;
                *room = room_of(alloc, sum, &below, lower, upper)?;
            }
        }
    }
    Ok(())
}

/// The distances of each basic column from its bounds, by the solution and by the values of the nonbasic columns;
/// infinite for each nonbasic one. There are none where a number is past the limits.
pub(crate) fn short_rooms(
    alloc: Global,
    program: &Program<'_>,
    kernel: &Kernel,
    scales: &[i128],
    solved: &Solved,
    values: &[Frac],
) -> Result<Option<Vec<Room>>, AllocError> {
    let Some(sums) = sums_of(alloc, program, kernel, scales, solved, values)? else {
        return Ok(None);
    };
    let mut rooms = Vec::from_elem(alloc, FREE, values.len())?;
    put_rooms(alloc, program, kernel, solved, &mut rooms)?;
    put_row_rooms(alloc, program, kernel, scales, &sums, &mut rooms)?;
    Ok(Some(rooms))
}

// ---- reduced costs

// The least common denominator of a cost and a column's entries in the rows whose multiplier is not 0; none where it is
// past 127 bits.
fn column_scale(entries: &[(u32, Frac)], cost: Frac, multipliers: &Amounts) -> Option<i128> {
    let mut scale = den(cost);
    for (i, entry) in entries {
        match multipliers.numbers.get(*i as usize) {
            Some(number) if !number.words.is_empty() => {
                scale = least_common(scale, den(*entry))?;
            }
            Some(_) | None => {}
        }
    }
    Some(scale)
}

// Subtracts a column's entries times the rows' multipliers from a sum, on a scale. False where an entry so scaled is no
// `i128`: it and the later ones are then not subtracted.
fn take_entries(
    sum: &mut Sum,
    entries: &[(u32, Frac)],
    scale: i128,
    multipliers: &Amounts,
) -> Result<bool, AllocError> {
    for (i, entry) in entries {
        if let Some(number) = multipliers.numbers.get(*i as usize) {
            if !number.words.is_empty() {
                let Some(times) = times_scale(*entry, scale) else {
                    return Ok(false);
                };
                sum.add(number, times.wrapping_neg())?;
            }
        }
    }
    Ok(true)
}

// The reduced cost of a structural column, as a float, from its cost and the rows' multipliers. None where the scale is
// past 127 bits, or an entry on it is no `i128`. A cost that is none on it is left out.
fn reduced_cost(
    alloc: Global,
    entries: &[(u32, Frac)],
    cost: Frac,
    multipliers: &Amounts,
) -> Result<Option<f64>, AllocError> {
    let Some(scale) = column_scale(entries, cost, multipliers) else {
        return Ok(None);
    };
    let mut sum = Sum::new(alloc);
    if let Some(times) = times_scale(cost, scale) {
        sum.add_words(&multipliers.denominator, false, times)?;
    }
    if !take_entries(&mut sum, entries, scale, multipliers)? {
        return Ok(None);
    }
    let below = times_wide(alloc, &multipliers.denominator, scale.unsigned_abs())?;
    Ok(Some(near(&sum.into_number(), &below)))
}

// The reduced cost of column `k` as a float; 0 where it is basic. That of a logical column is its cost plus its row's
// multiplier. None where a number is past 127 bits.
fn reduced_at(
    alloc: Global,
    program: &Program<'_>,
    statuses: &[Status],
    cost: Frac,
    multipliers: &Amounts,
    k: usize,
) -> Result<Option<f64>, AllocError> {
    let cols = program.cols();
    if is_basic_at(statuses, k) {
        return Ok(Some(0.0));
    }
    if k < cols {
        return reduced_cost(alloc, program.entries(k), cost, multipliers);
    }
    match multipliers.numbers.get(k.wrapping_sub(cols)) {
        Some(number) => {
            let under = &multipliers.denominator;
            Ok(Some(near_difference(alloc, number, under, neg(cost))?))
        }
        None => Ok(Some(0.0)),
    }
}

/// The reduced cost of each column, 0 of the basic ones, by the multipliers of all rows on one denominator: those of the
/// kernel's rows in the solution, else the opposites of the logicals' costs. There are none where a number is past the
/// limits.
pub(crate) fn short_reduced(
    alloc: Global,
    program: &Program<'_>,
    kernel: &Kernel,
    statuses: &[Status],
    solved: &Solved,
    costs: &[Frac],
) -> Result<Option<Vec<f64>>, AllocError> {
    let others = of_logicals(alloc, program, costs)?;
    let found = amounts_of(alloc, solved, &kernel.row_places, &others)?;
    drop(others);
    let Some(multipliers) = found else {
        return Ok(None);
    };
    let mut list = Vec::with_capacity(alloc, statuses.len())?;
    for k in 0..statuses.len() {
        match reduced_at(alloc, program, statuses, part(costs, k), &multipliers, k)? {
            Some(reduced) => list.push(reduced)?,
            None => return Ok(None),
        }
    }
    Ok(Some(list))
}

// ---- rates

/// Sets the rates of the basic structural columns, in floats, from the solution.
pub(crate) fn put_rates(kernel: &Kernel, solved: &Solved, rates: &mut [f64]) {
    for place in 0..kernel.columns.len() {
        if let (Some(j), Some(number)) = (kernel.columns.get(place), solved.numerators.get(place)) {
            if let Some(rate) = rates.get_mut(*j) {
                *rate = near(number, &solved.denominator);
            }
        }
    }
}

// Sets the rates of the basic logical columns, in floats, from the sums of their rows.
fn put_row_rates(
    alloc: Global,
    program: &Program<'_>,
    kernel: &Kernel,
    scales: &[i128],
    sums: &Amounts,
    rates: &mut [f64],
) -> Result<(), AllocError> {
    for (i, sum) in sums.numbers.iter().enumerate() {
        let k = program.cols().wrapping_add(i);
        if let (None, Some(rate)) = (place_at(&kernel.row_places, i), rates.get_mut(k)) {
            let scale = scale_at(scales, i).unsigned_abs();
            let below = times_wide(alloc, &sums.denominator, scale)?;
            *rate = near(sum, &below);
        }
    }
    Ok(())
}

/// The rates at which the basic columns move where the nonbasic ones move by `moves`, and 0 for each nonbasic one; none
/// where a number is past the limits.
pub(crate) fn short_rates(
    alloc: Global,
    program: &Program<'_>,
    kernel: &Kernel,
    scales: &[i128],
    solved: &Solved,
    moves: &[Frac],
) -> Result<Option<Vec<f64>>, AllocError> {
    let Some(sums) = sums_of(alloc, program, kernel, scales, solved, moves)? else {
        return Ok(None);
    };
    let mut rates = Vec::from_elem(alloc, 0.0f64, moves.len())?;
    put_rates(kernel, solved, &mut rates);
    put_row_rates(alloc, program, kernel, scales, &sums, &mut rates)?;
    Ok(Some(rates))
}
