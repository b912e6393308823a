// Rows and columns scaled by powers of two.
use crate::number::{at, greatest};
use crate::program::Program;
use lp_sparse::{Entry, Lines};
use std::alloc::{AllocError, Global};

// How often the rows and then the columns are scaled.
const PASSES: u32 = 6;

// How many doublings or halvings a factor is from 1 at most.
const DOUBLINGS: u32 = 400;

// What the greatest cost is brought down to.
const COST: f64 = 1024.0;

// Where the greatest bound is below this, it is brought up to 1.
const BOUND: f64 = 1e-3;

// The power of two near a number above 0: the number is from 3/4 of it to 3/2 of it, unless it is more than 400
// doublings or halvings from 1.
fn power_near(number: f64) -> f64 {
    let mut power = 1.0;
    for _ in 0..DOUBLINGS {
        if power * 1.5 < number {
            power *= 2.0;
        } else if power * 0.75 > number {
            power *= 0.5;
        } else {
            return power;
        }
    }
    power
}

// The factor for a line: 1 over the geometric mean of its least and greatest magnitude, each number being times the
// factor of its place. 1 for a line of zeros.
fn line_factor(line: &[Entry<f64>], factors: &[f64]) -> f64 {
    let mut least = f64::INFINITY;
    let mut most = 0.0;
    for entry in line {
        let magnitude = (entry.value * at(factors, entry.place)).abs();
        if magnitude > 0.0 {
            least = magnitude.min(least);
            most = magnitude.max(most);
        }
    }
    if most > 0.0 {
        1.0 / (least.sqrt() * most.sqrt())
    } else {
        1.0
    }
}

// Finds the factor of each line from the factors of its numbers' places.
fn find_factors(lines: &Lines<f64>, factors: &mut [f64], others: &[f64]) {
    for (k, factor) in factors.iter_mut().enumerate() {
        *factor = line_factor(lines.line(k), others);
    }
}

// Replaces each factor by a power of two near to it.
fn round(factors: &mut [f64]) {
    for factor in factors.iter_mut() {
        *factor = power_near(*factor);
    }
}

// Finds the scaling factors of rows and columns, by turns, and rounds them to powers of two.
fn find_all_factors(program: &Program, rows: &mut [f64], cols: &mut [f64]) {
    for _ in 0..PASSES {
        find_factors(&program.by_rows, rows, cols);
        find_factors(&program.columns, cols, rows);
    }
    round(rows);
    round(cols);
}

// Adds a line with the numbers of another one, each times `times` and the factor of its place.
fn put_line(
    lines: &mut Lines<f64>,
    line: &[Entry<f64>],
    times: f64,
    factors: &[f64],
) -> Result<(), AllocError> {
    for entry in line {
        let number = entry.value * at(factors, entry.place) * times;
        lines.put(entry.place, number)?;
    }
    lines.end()
}

// The lines, each number times the factor of its line and that of its place.
fn multiplied(
    alloc: Global,
    lines: &Lines<f64>,
    own: &[f64],
    factors: &[f64],
) -> Result<Lines<f64>, AllocError> {
    let mut list = Lines::new(alloc);
    for (k, times) in own.iter().enumerate() {
        put_line(&mut list, lines.line(k), *times, factors)?;
    }
    Ok(list)
}

// Multiplies all entries of a program, by column and by row, by the factors of their row and column.
fn multiply_lines(
    alloc: Global,
    program: &mut Program,
    rows: &[f64],
    cols: &[f64],
) -> Result<(), AllocError> {
    program.columns = multiplied(alloc, &program.columns, cols, rows)?;
    program.by_rows = multiplied(alloc, &program.by_rows, rows, cols)?;
    Ok(())
}

// Divides the bounds of column `k` by a factor, and multiplies its cost by it.
fn scale_column(program: &mut Program, k: usize, times: f64) {
    if let Some(bound) = program.lower.get_mut(k) {
        *bound /= times;
    }
    if let Some(bound) = program.upper.get_mut(k) {
        *bound /= times;
    }
    if let Some(cost) = program.cost.get_mut(k) {
        *cost *= times;
    }
}

// Divides the bounds of each structural column by its factor, and multiplies its cost by it.
fn scale_structural(program: &mut Program, factors: &[f64]) {
    for (k, times) in factors.iter().enumerate() {
        scale_column(program, k, *times);
    }
}

// Multiplies the bounds of each logical column by the factor of its row, and divides its cost by it.
fn scale_logical(program: &mut Program, factors: &[f64]) {
    for (i, times) in factors.iter().enumerate() {
        let k = program.logical(i);
        scale_column(program, k, 1.0 / *times);
    }
}

// Multiplies all costs by one power of two where the greatest is past 1024, so that it is near that.
fn scale_costs(program: &mut Program) {
    let most = greatest(&program.cost);
    if most > COST {
        let times = power_near(COST / most);
        for cost in program.cost.iter_mut() {
            *cost *= times;
        }
    }
}

// The greatest absolute value of bounds that are finite; 0 if none is.
fn greatest_bound(bounds: &[f64]) -> f64 {
    let mut most = 0.0;
    for bound in bounds {
        let magnitude = bound.abs();
        if magnitude < f64::INFINITY {
            most = magnitude.max(most);
        }
    }
    most
}

// Multiplies all bounds of a list by a factor.
fn multiply(bounds: &mut [f64], times: f64) {
    for bound in bounds.iter_mut() {
        *bound *= times;
    }
}

// Multiplies all bounds by one power of two where all finite ones are below 1/1000 and some is not 0, so that the
// greatest of these is near 1.
fn scale_bounds(program: &mut Program) {
    let most = greatest_bound(&program.lower).max(greatest_bound(&program.upper));
    if most > 0.0 && most < BOUND {
        let times = power_near(1.0 / most);
        multiply(&mut program.lower, times);
        multiply(&mut program.upper, times);
    }
}

/// Scales a program by powers of two, so that the magnitudes of its entries come near 1, great costs near 1024 and
/// bounds that are all tiny near 1.
pub(crate) fn scale(alloc: Global, program: &mut Program) -> Result<(), AllocError> {
    let mut rows = Vec::from_elem(alloc, 1.0, program.rows)?;
    let mut cols = Vec::from_elem(alloc, 1.0, program.cols)?;
    find_all_factors(program, &mut rows, &mut cols);
    multiply_lines(alloc, program, &rows, &cols)?;
    scale_structural(program, &cols);
    scale_logical(program, &rows);
    scale_costs(program);
    scale_bounds(program);
    Ok(())
}
