// The right sides of a kernel's equations, and of those of its multipliers.
use crate::kernel::{Kernel, place_at};
use crate::program::Program;
use crate::scales::{on_one_denominator, scale_at};
use lp_frac::{Frac, is_zero, less_product, mul, neg, zero};
use lp_sparse::Right;
use std::alloc::{AllocError, Global};

/// The number of a list at `k`, 0 where there is none.
pub(crate) fn part(list: &[Frac], k: usize) -> Frac {
    match list.get(k) {
        Some(part) => *part,
        None => zero(),
    }
}

// ---- of the point

// Subtracts a column's entries times its value from the numbers of the kernel's rows. Says whether all stay within 127
// bits.
fn take_column(list: &mut [Frac], entries: &[(u32, Frac)], kernel: &Kernel, value: Frac) -> bool {
    for (i, entry) in entries {
        if let Some(place) = place_at(&kernel.row_places, *i as usize) {
            if let Some(number) = list.get_mut(place) {
                match less_product(*entry, value, *number) {
                    Ok(less) => *number = less,
                    Err(_) => return false,
                }
            }
        }
    }
    true
}

// Subtracts the entries of the nonbasic structural columns, times their values, from the numbers of the kernel's rows.
// Says whether all stay within 127 bits.
fn take_columns(
    list: &mut [Frac],
    program: &Program<'_>,
    kernel: &Kernel,
    values: &[Frac],
) -> bool {
    for j in 0..program.cols() {
        let value = part(values, j);
        let is_still = is_zero(value) || place_at(&kernel.column_places, j).is_some();
        if !is_still && !take_column(list, program.entries(j), kernel, value) {
            return false;
        }
    }
    true
}

// Each number of the kernel's rows times the scale of its row; none where a product is past 127 bits.
fn scaled(
    alloc: Global,
    list: &[Frac],
    kernel: &Kernel,
    scales: &[i128],
) -> Result<Option<Vec<Frac>>, AllocError> {
    let mut products = Vec::with_capacity(alloc, list.len())?;
    for (place, i) in kernel.rows.iter().enumerate() {
        match times_whole(part(list, place), scale_at(scales, *i)) {
            Some(product) => products.push(product)?,
            None => return Ok(None),
        }
    }
    Ok(Some(products))
}

// A fraction times a whole number; none where the product is past 127 bits.
fn times_whole(v: Frac, n: i128) -> Option<Frac> {
    if n == 1 || is_zero(v) {
        return Some(v);
    }
    match Frac::new(n, 1) {
        Ok(whole) => mul(v, whole).ok(),
        Err(_) => None,
    }
}

/// The right sides of a kernel's rows, where the columns that are not basic have these values: each times the scale of
/// its row, on one denominator. There are none where a number is past the limit.
pub(crate) fn right_sides(
    alloc: Global,
    program: &Program<'_>,
    kernel: &Kernel,
    scales: &[i128],
    values: &[Frac],
) -> Result<Option<Right>, AllocError> {
    let mut list = Vec::with_capacity(alloc, kernel.rows.len())?;
    for i in &kernel.rows {
        list.push(part(values, program.cols().wrapping_add(*i)))?;
    }
    if !take_columns(&mut list, program, kernel, values) {
        return Ok(None);
    }
    match scaled(alloc, &list, kernel, scales)? {
        Some(list) => on_one_denominator(alloc, &list),
        None => Ok(None),
    }
}

// ---- of the multipliers

/// The multiplier of row `i`, if its logical is basic: the opposite of the logical's cost, which makes its reduced cost
/// 0.
pub(crate) fn of_logical(program: &Program<'_>, costs: &[Frac], i: usize) -> Frac {
    neg(part(costs, program.cols().wrapping_add(i)))
}

/// For each row the opposite of its logical's cost: the row's multiplier, where the logical is basic.
pub(crate) fn of_logicals(
    alloc: Global,
    program: &Program<'_>,
    costs: &[Frac],
) -> Result<Vec<Frac>, AllocError> {
    let mut list = Vec::with_capacity(alloc, program.rows())?;
    for i in 0..program.rows() {
        list.push(of_logical(program, costs, i))?;
    }
    Ok(list)
}

// The cost of column `j` less its entries times the multipliers of the rows whose logical is basic. None where it is
// past 127 bits.
fn cost_left(program: &Program<'_>, kernel: &Kernel, costs: &[Frac], j: usize) -> Option<Frac> {
    let mut left = part(costs, j);
    for (i, entry) in program.entries(j) {
        let row = *i as usize;
        if place_at(&kernel.row_places, row).is_none() {
            let multiplier = of_logical(program, costs, row);
            if !is_zero(multiplier) {
                left = less_product(multiplier, *entry, left).ok()?;
            }
        }
    }
    Some(left)
}

/// The costs of the kernel's columns, less their entries times the multipliers of the rows whose logical is basic, on
/// one denominator. None where a number is past the limit.
pub(crate) fn costs_left(
    alloc: Global,
    program: &Program<'_>,
    kernel: &Kernel,
    costs: &[Frac],
) -> Result<Option<Right>, AllocError> {
    let mut list = Vec::with_capacity(alloc, kernel.columns.len())?;
    for j in &kernel.columns {
        match cost_left(program, kernel, costs, *j) {
            Some(left) => list.push(left)?,
            None => return Ok(None),
        }
    }
    on_one_denominator(alloc, &list)
}
