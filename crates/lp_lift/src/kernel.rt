// What a basis leaves to be solved for.
use crate::program::Program;
use crate::scales::{Scales, multiple, row_scales};
use crate::statuses::{is_basic_at, put_status, resting};
use crate::wide_kernel::long_whole;
use lp_frac::Frac;
use lp_sparse::{Entry, Factored, Factors, Lines, PRIME, Residue, factorize, numbered, turned};
use spec_pivot::Status;
use std::alloc::{AllocError, Global};

/// The structural columns that are basic, and the rows whose logical is not.
pub(crate) struct Kernel {
    pub(crate) columns: Vec<usize>,
    pub(crate) rows: Vec<usize>,
    /// Of each column and row its position among them, if it is one.
    pub(crate) column_places: Vec<Option<usize>>,
    pub(crate) row_places: Vec<Option<usize>>,
}

impl Drop for Kernel {
    fn drop(self) {
        let Kernel {
            columns,
            rows,
            column_places,
            row_places,
        } = self;
        drop(columns);
        drop(rows);
        drop(column_places);
        drop(row_places);
    }
}

/// The position at `k`, if there is one.
#[inline(always)]
pub(crate) fn place_at(places: &[Option<usize>], k: usize) -> Option<usize> {
    match places.get(k) {
        Some(place) => *place,
        None => None,
    }
}

// Of `len` columns from `first` on, those that are basic, or those that are not; and for each of the columns its place
// among these, if it has one.
fn chosen(
    alloc: Global,
    statuses: &[Status],
    first: usize,
    len: usize,
    basics: bool,
) -> Result<(Vec<usize>, Vec<Option<usize>>), AllocError> {
    let mut list = Vec::new(alloc);
    let mut places = Vec::with_capacity(alloc, len)?;
    for k in 0..len {
        let is_chosen = is_basic_at(statuses, first.wrapping_add(k)) == basics;
        let place = if is_chosen { Some(list.len()) } else { None };
        places.push(place)?;
        if is_chosen {
            list.push(k)?;
        }
    }
    Ok((list, places))
}

/// The kernel of a basis: its basic structural columns, and the rows whose logical column is nonbasic.
pub(crate) fn kernel_of(
    alloc: Global,
    program: &Program<'_>,
    statuses: &[Status],
) -> Result<Kernel, AllocError> {
    let cols = program.cols();
    let (columns, column_places) = chosen(alloc, statuses, 0, cols, true)?;
    let (rows, row_places) = chosen(alloc, statuses, cols, program.rows(), false)?;
    Ok(Kernel {
        columns,
        rows,
        column_places,
        row_places,
    })
}

// ---- whole numbers

/// A kernel with whole numbers, each row times its scale, as digits to the base of the prime, on both sides of 0.
pub(crate) struct WholeKernel {
    /// What each row of the model was multiplied by.
    pub(crate) scales: Scales,
    /// The numbers by column, and by row: the low digits, and those above.
    pub(crate) columns: Vec<Lines<i64>>,
    pub(crate) rows: Vec<Lines<i64>>,
    pub(crate) row_bits: usize,
    pub(crate) column_bits: usize,
    /// Whether there are two levels of digits at most, and sums times a digit are within 127 bits.
    pub(crate) is_short: bool,
}

impl Drop for WholeKernel {
    fn drop(self) {
        let WholeKernel {
            scales,
            columns,
            rows,
            row_bits: _,
            column_bits: _,
            is_short: _,
        } = self;
        drop(scales);
        drop(columns);
        drop(rows);
    }
}

// Adds the lowest digit of a number to the lower matrix, and what is above it to the upper one; a 0 goes into neither.
// The digit is the one nearest to 0 that is congruent to the number modulo the prime. False where what is above is past
// 64 bits: then it is not added. Of a number nearer than the prime to 2^127 or -2^127 both may be wrong.
fn put_number(
    low: &mut Lines<i64>,
    high: &mut Lines<i64>,
    place: usize,
    number: i128,
) -> Result<bool, AllocError> {
    let prime = i128::from(PRIME);
    let half = prime / 2;
    let rest = number
        .wrapping_add(half)
        .rem_euclid(prime)
        .wrapping_sub(half);
    let digit = i64::try_from(rest).unwrap_or(0);
    if digit != 0 {
        low.put(place, digit)?;
    }
    match i64::try_from(number.wrapping_sub(rest) / prime) {
        Ok(0) => Ok(true),
        Ok(above) => {
            high.put(place, above)?;
            Ok(true)
        }
        Err(_) => Ok(false),
    }
}

// Adds a column's numbers in the kernel's rows, each times its row's scale, to both matrices as digits. False where two
// digits do not suffice for one: then the column stays unfinished.
fn put_column(
    low: &mut Lines<i64>,
    high: &mut Lines<i64>,
    entries: &[(u32, Frac)],
    kernel: &Kernel,
    scales: &[i128],
) -> Result<bool, AllocError> {
    for (i, number) in entries {
        if let Some(place) = place_at(&kernel.row_places, *i as usize) {
            let Some(number) = multiple(*number, scales, *i as usize) else {
                return Ok(false);
            };
            if !put_number(low, high, place, number)? {
                return Ok(false);
            }
        }
    }
    low.end()?;
    high.end()?;
    Ok(true)
}

// The kernel's columns in whole numbers, as one or two matrices of digits: without the upper one where it has no
// numbers. None where two digits do not suffice for a number.
fn columns_of(
    alloc: Global,
    program: &Program<'_>,
    kernel: &Kernel,
    scales: &[i128],
) -> Result<Option<Vec<Lines<i64>>>, AllocError> {
    let mut low = Lines::new(alloc);
    let mut high = Lines::new(alloc);
    for j in &kernel.columns {
        let entries = program.entries(*j);
        if !put_column(&mut low, &mut high, entries, kernel, scales)? {
            return Ok(None);
        }
    }
    let mut levels = Vec::new(alloc);
    levels.push(low)?;
    if high.size() == 0 {
        drop(high);
    } else {
        levels.push(high)?;
    }
    Ok(Some(levels))
}

// How many bits the largest sum of a line's absolute values takes.
fn most_bits(lines: &Lines<i64>) -> usize {
    let mut most = 0u128;
    for k in 0..lines.len() {
        most = most.max(magnitude(lines, k));
    }
    128 - most.leading_zeros() as usize
}

// The sum of the absolute values of line `k`.
fn magnitude(lines: &Lines<i64>, k: usize) -> u128 {
    let mut sum = 0u128;
    for entry in lines.line(k) {
        sum = sum.saturating_add(entry.value.unsigned_abs() as u128);
    }
    sum
}

// How many bits a sum may take that is multiplied by a digit.
const MOST_BITS: usize = 64;

// How many bits the sum of a line's absolute values takes at most, with the digits of all levels together.
fn bits_of(levels: &[Lines<i64>]) -> usize {
    let mut most = 0usize;
    for (k, level) in levels.iter().enumerate() {
        most = most.max(most_bits(level).wrapping_add(k.wrapping_mul(62)));
    }
    most.wrapping_add(levels.len().saturating_sub(1))
}

// Whether there are two levels at most, and the sums of a line's absolute values take at most 64 bits in each.
fn are_short(levels: &[Lines<i64>]) -> bool {
    for level in levels {
        if most_bits(level) > MOST_BITS {
            return false;
        }
    }
    levels.len() <= 2
}

// The transposed matrices of all levels: the digits by row instead of by column.
fn turned_levels(
    alloc: Global,
    levels: &[Lines<i64>],
    kernel: &Kernel,
) -> Result<Vec<Lines<i64>>, AllocError> {
    let names = numbered(alloc, kernel.columns.len())?;
    let mut list = Vec::new(alloc);
    for level in levels {
        list.push(turned(alloc, level, &names, kernel.rows.len(), 0)?)?;
    }
    Ok(list)
}

/// The kernel in whole numbers whose columns have these digits, with the same numbers by row, and the sizes of their
/// sums.
pub(crate) fn whole_from(
    alloc: Global,
    kernel: &Kernel,
    scales: Scales,
    columns: Vec<Lines<i64>>,
) -> Result<WholeKernel, AllocError> {
    let rows = turned_levels(alloc, &columns, kernel)?;
    Ok(WholeKernel {
        row_bits: bits_of(&rows),
        column_bits: bits_of(&columns),
        is_short: are_short(&rows) && are_short(&columns),
        scales,
        columns,
        rows,
    })
}

/// A kernel with whole numbers: of about two digits, where the numbers and the scales of the rows are not too large for
/// that, else of any width. There is none where a row's scale is very wide.
pub(crate) fn whole_of(
    alloc: Global,
    program: &Program<'_>,
    kernel: &Kernel,
) -> Result<Option<WholeKernel>, AllocError> {
    if let Some(scales) = row_scales(alloc, program, kernel)? {
        if let Some(columns) = columns_of(alloc, program, kernel, &scales)? {
            return Ok(Some(whole_from(alloc, kernel, Scales::Short(scales), columns)?));
        }
    }
    long_whole(alloc, program, kernel)
}

// ---- factors

// Adds a column to the lines, with its numbers modulo the prime.
fn put_residues(lines: &mut Lines<Residue>, line: &[Entry<i64>]) -> Result<(), AllocError> {
    for entry in line {
        lines.put(entry.place, Residue::of(i128::from(entry.value)))?;
    }
    lines.end()
}

/// The factors of a kernel modulo the prime, from the lowest digits of its columns' numbers; or its rows and columns
/// without a pivot where it is singular.
pub(crate) fn factored(
    alloc: Global,
    kernel: &Kernel,
    whole: &WholeKernel,
) -> Result<Factored<Residue>, AllocError> {
    let mut columns = Lines::new(alloc);
    if let Some(low) = whole.columns.first() {
        for k in 0..kernel.columns.len() {
            put_residues(&mut columns, low.line(k))?;
        }
    }
    factorize(alloc, kernel.rows.len(), &columns)
}

/// Makes the structural columns at these positions of the kernel nonbasic, each at its lower bound, else at its upper
/// one, else at 0; and the logical columns of the rows at these positions basic.
pub(crate) fn mend(
    program: &Program<'_>,
    kernel: &Kernel,
    statuses: &mut [Status],
    rows: &[usize],
    columns: &[usize],
) {
    for place in columns {
        if let Some(j) = kernel.columns.get(*place) {
            let status = resting(program.lower(*j), program.upper(*j));
            put_status(statuses, *j, status);
        }
    }
    for place in rows {
        if let Some(i) = kernel.rows.get(*place) {
            let logical = program.cols().wrapping_add(*i);
            put_status(statuses, logical, Status::Basic);
        }
    }
}

/// What is at hand of a basis whose kernel is regular.
pub(crate) struct Prepared {
    pub(crate) kernel: Kernel,
    pub(crate) whole: WholeKernel,
    pub(crate) factors: Factors<Residue>,
}

impl Drop for Prepared {
    fn drop(self) {
        let Prepared {
            kernel,
            whole,
            factors,
        } = self;
        drop(kernel);
        drop(whole);
        drop(factors);
    }
}

/// What comes of preparing a basis for its equations.
#[derive(Drop)]
pub(crate) enum Preparation {
    Ready(Prepared),
    /// It was singular, and has been mended.
    Mended,
    /// Its numbers are too wide.
    Past,
}

/// Factors the kernel of a basis. If it is singular the statuses are mended. `Past` where a row's scale is too wide.
pub(crate) fn prepare(
    alloc: Global,
    program: &Program<'_>,
    statuses: &mut [Status],
) -> Result<Preparation, AllocError> {
    let kernel = kernel_of(alloc, program, statuses)?;
    let Some(whole) = whole_of(alloc, program, &kernel)? else {
        return Ok(Preparation::Past);
    };
    let factored = factored(alloc, &kernel, &whole)?;
    match &factored {
        Factored::Regular(_) => {}
        Factored::Singular { rows, columns } => mend(program, &kernel, statuses, rows, columns),
    }
    match factored.regular() {
        Some(factors) => Ok(Preparation::Ready(Prepared {
            kernel,
            whole,
            factors,
        })),
        None => Ok(Preparation::Mended),
    }
}
