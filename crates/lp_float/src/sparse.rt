// Numbers most of which are 0.
use crate::number::{add_at, at, put};
use lp_sparse::{Entry, Sparse};
use std::alloc::AllocError;

// What stands for 0 at a place that is noted.
const TRACE: f64 = 1e-100;

// The sum, or a tiny number in place of 0, which keeps a noted place from being noted again.
#[inline(always)]
fn unless_zero(sum: f64) -> f64 {
    if sum == 0.0 { TRACE } else { sum }
}

/// Adds `more` to the number at `k`, where a tiny number stands for a sum of 0, and notes the place if it is new.
#[inline(always)]
pub(crate) fn add_to(list: &mut Sparse<f64>, k: usize, more: f64) -> Result<(), AllocError> {
    let before = at(&list.numbers, k);
    if before == 0.0 && !list.is_full() {
        list.places.push(k)?;
    }
    put(&mut list.numbers, k, unless_zero(before + more));
    Ok(())
}

/// Sets the number at `k`, a tiny one in place of 0, and notes the place if it is new.
#[inline(always)]
pub(crate) fn put_in(list: &mut Sparse<f64>, k: usize, number: f64) -> Result<(), AllocError> {
    if at(&list.numbers, k) == 0.0 && !list.is_full() {
        list.places.push(k)?;
    }
    put(&mut list.numbers, k, unless_zero(number));
    Ok(())
}

// Adds `times` times a sparse line to numbers all of whose places are noted.
#[inline(always)]
fn add_noted(list: &mut [f64], line: &[Entry<f64>], times: f64) {
    for entry in line {
        add_at(list, entry.place, times * entry.value);
    }
}

/// Adds `times` times a sparse line to the numbers, and notes the new places. Unless all places were noted before, a
/// tiny number stands for a sum of 0.
#[inline(always)]
pub(crate) fn add_line(
    list: &mut Sparse<f64>,
    line: &[Entry<f64>],
    times: f64,
) -> Result<(), AllocError> {
    if list.is_full() {
        add_noted(&mut list.numbers, line, times);
        return Ok(());
    }
    for entry in line {
        add_to(list, entry.place, times * entry.value)?;
    }
    Ok(())
}

/// Copies the numbers other than 0 of one list to another, which is cleared first.
pub(crate) fn copy_to(list: &mut Sparse<f64>, from: &Sparse<f64>) -> Result<(), AllocError> {
    list.clear();
    for k in &from.places {
        let number = at(&from.numbers, *k);
        if number != 0.0 {
            put_in(list, *k, number)?;
        }
    }
    Ok(())
}

/// Whether more than one number in `part` is not 0.
pub(crate) fn is_dense(list: &Sparse<f64>, part: usize) -> bool {
    let mut count = 0usize;
    for k in &list.places {
        if at(&list.numbers, *k) != 0.0 {
            count = count.wrapping_add(1);
        }
    }
    count.saturating_mul(part) > list.numbers.len()
}

/// The sum of the squares of all numbers of a list.
pub(crate) fn square(list: &Sparse<f64>) -> f64 {
    let mut sum = 0.0;
    for k in &list.places {
        let number = at(&list.numbers, *k);
        sum += number * number;
    }
    sum
}
