// What rows are multiplied by to have whole numbers.
use crate::kernel::{Kernel, place_at};
use crate::program::Program;
use lp_frac::{Frac, den, num};
use lp_sparse::Right;
use lp_sparse::wide::{Words, words_of};
use std::alloc::{AllocError, Global};

/// What each row of a model is multiplied by, so that its numbers are whole.
#[derive(Drop)]
pub(crate) enum Scales {
    /// Whole numbers for all rows, with which the sums of the others are whole too.
    Short(Vec<i128>),
    /// Numbers of any width for the kernel's rows, and 1 for the others.
    Long(Vec<Words>),
}

impl Scales {
    /// The scales of all rows where they are numbers of 128 bits; none where they are wider.
    pub(crate) fn short(&self) -> Option<&[i128]> {
        match self {
            Scales::Short(scales) => Some(scales),
            Scales::Long(_) => None,
        }
    }

    /// The scale of row `i` as a number of any width; 1 where there is none.
    pub(crate) fn words_at(&self, alloc: Global, i: usize) -> Result<Words, AllocError> {
        match self {
            Scales::Short(scales) => words_of(alloc, scale_at(scales, i).unsigned_abs()),
            Scales::Long(scales) => match scales.get(i) {
                Some(scale) => Vec::from_slice(alloc, scale),
                None => words_of(alloc, 1),
            },
        }
    }
}

/// The scale at `k`, 1 where there is none.
#[inline(always)]
pub(crate) fn scale_at(scales: &[i128], k: usize) -> i128 {
    match scales.get(k) {
        Some(scale) => *scale,
        None => 1,
    }
}

// The greatest common divisor of two words.
fn common_word(a: u64, b: u64) -> u64 {
    let (mut a, mut b) = (a, b);
    for _ in 0..100 {
        if b == 0 {
            return a;
        }
        let rest = a % b;
        a = b;
        b = rest;
    }
    1
}

// The greatest common divisor of two numbers above 0.
fn common_divisor(a: i128, b: i128) -> i128 {
    let (mut a, mut b) = (a, b);
    for _ in 0..200 {
        if let (Ok(a), Ok(b)) = (u64::try_from(a), u64::try_from(b)) {
            return i128::from(common_word(a, b));
        }
        if b <= 0 {
            return a;
        }
        let rest = a % b;
        a = b;
        b = rest;
    }
    1
}

/// The least common multiple of two numbers above 0; none where it is past 127 bits.
pub(crate) fn least_common(a: i128, b: i128) -> Option<i128> {
    if a == b || b == 1 {
        return Some(a);
    }
    let divisor = common_divisor(a, b);
    if divisor <= 0 {
        return None;
    }
    (a / divisor).checked_mul(b)
}

/// A fraction times the scale at `k`, which its denominator divides; none where that is no `i128`, of which -2^127 is
/// one.
#[inline(always)]
pub(crate) fn multiple(v: Frac, scales: &[i128], k: usize) -> Option<i128> {
    times_scale(v, scale_at(scales, k))
}

/// A fraction times a scale that its denominator divides; none where that is no `i128`, of which -2^127 is one.
#[inline(always)]
pub(crate) fn times_scale(v: Frac, scale: i128) -> Option<i128> {
    let under = den(v);
    if under == scale {
        return Some(num(v));
    }
    if under <= 0 {
        return None;
    }
    num(v).checked_mul(quotient(scale, under))
}

// The quotient of two numbers above 0, rounded down.
#[inline(always)]
fn quotient(a: i128, b: i128) -> i128 {
    if b == 1 {
        return a;
    }
    match (u64::try_from(a), u64::try_from(b)) {
        (Ok(a), Ok(b)) if b != 0 => i128::from(a / b),
        _ if b > 0 => a / b,
        _ => a,
    }
}

// Makes the scales of rows multiples of a column's denominators there: of all rows if the column is basic, else of
// those outside of the kernel. Says whether they are within 127 bits.
fn fit_column(
    scales: &mut [i128],
    entries: &[(u32, Frac)],
    kernel: &Kernel,
    is_basic: bool,
) -> bool {
    for (i, number) in entries {
        let row = *i as usize;
        let counts = is_basic || place_at(&kernel.row_places, row).is_none();
        if let (true, Some(scale)) = (counts, scales.get_mut(row)) {
            match least_common(*scale, den(*number)) {
                Some(multiple) => *scale = multiple,
                None => return false,
            }
        }
    }
    true
}

/// What makes each row of the kernel whole in its columns, and each other row in all columns, if all is within 127 bits.
pub(crate) fn row_scales(
    alloc: Global,
    program: &Program<'_>,
    kernel: &Kernel,
) -> Result<Option<Vec<i128>>, AllocError> {
    let mut scales = Vec::from_elem(alloc, 1i128, program.rows())?;
    for j in 0..program.cols() {
        let is_basic = place_at(&kernel.column_places, j).is_some();
        if !fit_column(&mut scales, program.entries(j), kernel, is_basic) {
            return Ok(None);
        }
    }
    Ok(Some(scales))
}

// The least common denominator of fractions; none where it overflows.
pub(crate) fn common_denominator(fractions: &[Frac]) -> Option<i128> {
    let mut scale = 1i128;
    for v in fractions {
        scale = least_common(scale, den(*v))?;
    }
    Some(scale)
}

// How many bits the largest absolute value of these numbers takes.
fn most_bits(numbers: &[i128]) -> usize {
    let mut most = 0u128;
    for n in numbers {
        most = most.max(n.unsigned_abs());
    }
    128 - most.leading_zeros() as usize
}

/// The fractions as whole numbers on their least common denominator. None where that is past 127 bits, or a number is
/// past 125 bits.
pub(crate) fn on_one_denominator(
    alloc: Global,
    fractions: &[Frac],
) -> Result<Option<Right>, AllocError> {
    let Some(scale) = common_denominator(fractions) else {
        return Ok(None);
    };
    let denominator = words_of(alloc, scale.unsigned_abs())?;
    let mut numbers = Vec::with_capacity(alloc, fractions.len())?;
    for v in fractions {
        match times_scale(*v, scale) {
            Some(number) if number.unsigned_abs() >> 125 == 0 => numbers.push(number)?,
            Some(_) | None => return Ok(None),
        }
    }
    Ok(Some(Right {
        width: fractions.len(),
        bits: most_bits(&numbers),
        numbers,
        denominator,
    }))
}
