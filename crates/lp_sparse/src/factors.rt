// The sparse factors of a matrix.
mod active;
mod buckets;
mod by_steps;
mod elimination;
mod search;

use crate::factors::active::{Active, active_of};
use crate::factors::buckets::Buckets;
pub use crate::factors::by_steps::{Marked, Ordered, Sparse, order_factors};
use crate::factors::elimination::eliminate;
use crate::factors::search::next_pivot;
use crate::field::Field;
use crate::lines::{Entry, Lines, at, turned};
use std::alloc::{AllocError, Global};

/// The factors of a square matrix by elimination: a pivot for each step, and the lower and the upper factor.
pub struct Factors<F: Field> {
    /// The row and the column of each pivot, in the order of the steps, and what makes 1 with it.
    pub(crate) rows: Vec<usize>,
    pub(crate) columns: Vec<usize>,
    pub(crate) inverses: Vec<F>,
    /// Of each step the multiples of the pivot's row that other rows lose, by row.
    pub(crate) lower: Lines<F>,
    /// Of each row what it loses of the pivots' rows before, by the pivot's row.
    pub(crate) lower_turned: Lines<F>,
    /// Of each step the other numbers of the pivot's row, by column.
    pub(crate) upper: Lines<F>,
    /// Of each column what the pivots' rows before have in it, by the pivot's row.
    pub(crate) upper_turned: Lines<F>,
}

impl<F: Field> Factors<F> {
    /// Factors that have no steps yet.
    pub(crate) fn new(alloc: Global) -> Self {
        Factors {
            rows: Vec::new(alloc),
            columns: Vec::new(alloc),
            inverses: Vec::new(alloc),
            lower: Lines::new(alloc),
            lower_turned: Lines::new(alloc),
            upper: Lines::new(alloc),
            upper_turned: Lines::new(alloc),
        }
    }

    // Makes the transposed lines of both factors, once all steps are noted.
    fn turn(&mut self, alloc: Global) -> Result<(), AllocError> {
        let len = self.rows.len();
        self.lower_turned = turned(alloc, &self.lower, &self.rows, len, F::zero())?;
        self.upper_turned = turned(alloc, &self.upper, &self.rows, len, F::zero())?;
        Ok(())
    }
}

impl<F: Field> Drop for Factors<F> {
    fn drop(self) {
        let Factors {
            rows,
            columns,
            inverses,
            lower,
            lower_turned,
            upper,
            upper_turned,
        } = self;
        drop(rows);
        drop(columns);
        drop(inverses);
        drop(lower);
        drop(lower_turned);
        drop(upper);
        drop(upper_turned);
    }
}

/// What the factoring of a matrix comes to.
pub enum Factored<F: Field> {
    /// It is square, and each row and column has a pivot.
    Regular(Factors<F>),
    /// These rows and columns have no pivot. The others are a largest regular part.
    Singular {
        rows: Vec<usize>,
        columns: Vec<usize>,
    },
}

impl<F: Field> Drop for Factored<F> {
    fn drop(self) {
        match self {
            Factored::Regular(factors) => drop(factors),
            Factored::Singular { rows, columns } => {
                drop(rows);
                drop(columns);
            }
        }
    }
}

impl<F: Field> Factored<F> {
    /// The factors, if the matrix is regular.
    pub fn regular(self) -> Option<Factors<F>> {
        match self {
            Factored::Regular(factors) => Some(factors),
            Factored::Singular { rows, columns } => {
                drop(rows);
                drop(columns);
                None
            }
        }
    }
}

// Subtracts `times` times the numbers of a line from the numbers at their places in a list.
#[inline(always)]
fn take_off<F: Field>(numbers: &mut [F], line: &[Entry<F>], times: F) {
    for entry in line {
        if let Some(number) = numbers.get_mut(entry.place) {
            *number = number.less_product(times, entry.value);
        }
    }
}

// The number at `k`, 0 where there is none.
#[inline(always)]
fn value_at<F: Field>(numbers: &[F], k: usize) -> F {
    match numbers.get(k) {
        Some(number) => *number,
        None => F::zero(),
    }
}

// Sets the number at place `k` of a list, if the list is that long.
#[inline(always)]
fn put_value<F: Field>(numbers: &mut [F], k: usize, value: F) {
    if let Some(number) = numbers.get_mut(k) {
        *number = value;
    }
}

impl<F: Field> Factors<F> {
    // Solves the lower factor's equations in place: the right sides become those of the upper factor's equations. Both
    // stand by row.
    fn through_lower(&self, right: &mut [F]) {
        for (k, row) in self.rows.iter().enumerate() {
            let number = value_at(right, *row);
            if !number.is_zero() {
                take_off(right, self.lower.line(k), number);
            }
        }
    }

    // Solves the upper factor's equations. The right sides stand by row and are used up. The solution stands by column.
    fn through_upper(&self, right: &mut [F], solution: &mut [F]) {
        for k in (0..self.rows.len()).rev() {
            let mut number = value_at(right, at(&self.rows, k));
            let column = at(&self.columns, k);
            if !number.is_zero() {
                number = number.times(value_at(&self.inverses, k));
                take_off(right, self.upper_turned.line(column), number);
            }
            put_value(solution, column, number);
        }
    }

    /// Solves the matrix times the unknowns for a right side that stands by row, and is used up. The solution stands by
    /// column.
    pub fn solve(&self, right: &mut [F], solution: &mut [F]) {
        self.through_lower(right);
        self.through_upper(right, solution);
    }

    // Solves the transposed upper factor's equations. The right sides stand by column and are used up. The solution
    // stands by row.
    fn through_upper_turned(&self, right: &mut [F], solution: &mut [F]) {
        for (k, column) in self.columns.iter().enumerate() {
            let mut number = value_at(right, *column);
            if !number.is_zero() {
                number = number.times(value_at(&self.inverses, k));
                take_off(right, self.upper.line(k), number);
            }
            put_value(solution, at(&self.rows, k), number);
        }
    }

    // Solves the transposed lower factor's equations, in place: what `through_upper_turned` made becomes the solution
    // of the transposed matrix's equations.
    fn through_lower_turned(&self, solution: &mut [F]) {
        for row in self.rows.iter().rev() {
            let number = value_at(solution, *row);
            if !number.is_zero() {
                take_off(solution, self.lower_turned.line(*row), number);
            }
        }
    }

    /// Solves the transposed matrix times the unknowns for a right side that stands by column, and is used up. The solution
    /// stands by row.
    pub fn solve_turned(&self, right: &mut [F], solution: &mut [F]) {
        self.through_upper_turned(right, solution);
        self.through_lower_turned(solution);
    }
}

// Eliminates with one pivot after the other, and notes each step in the factors, until there is no further pivot.
fn eliminate_all<F: Field>(
    alloc: Global,
    active: &mut Active<F>,
    factors: &mut Factors<F>,
) -> Result<(), AllocError> {
    for _ in 0..active.rows.len() {
        let Some(pivot) = next_pivot(active) else {
            return Ok(());
        };
        if !eliminate(alloc, active, pivot, factors)? {
            return Ok(());
        }
    }
    Ok(())
}

// The rows or columns from 0 to `len - 1` that still are in the buckets: those that have had no pivot.
fn left(alloc: Global, buckets: &Buckets, len: usize) -> Result<Vec<usize>, AllocError> {
    let mut list = Vec::new(alloc);
    for k in 0..len {
        if buckets.has(k) {
            list.push(k)?;
        }
    }
    Ok(list)
}

// The rows and columns that have no pivot, as the answer that the matrix is singular.
fn singular<F: Field>(alloc: Global, active: &Active<F>) -> Result<Factored<F>, AllocError> {
    let rows = left(alloc, &active.by_row, active.rows.len())?;
    let columns = left(alloc, &active.by_column, active.columns.len())?;
    Ok(Factored::Singular { rows, columns })
}

// Eliminates all that it can of a matrix, and notes the steps. Says whether each row and column has had a pivot; if so,
// the transposed lines are made too.
fn has_factors<F: Field>(
    alloc: Global,
    active: &mut Active<F>,
    factors: &mut Factors<F>,
) -> Result<bool, AllocError> {
    let (rows, columns) = (active.rows.len(), active.columns.len());
    eliminate_all(alloc, active, factors)?;
    if rows != columns || factors.rows.len() != rows {
        return Ok(false);
    }
    factors.turn(alloc)?;
    Ok(true)
}

/// The factors of the matrix with so many rows and these columns; or, where it is not regular, the rows and columns
/// that a regular part leaves out, in exact arithmetic a largest one. The numbers of the columns are not 0, and a row
/// has one number at most in a column.
pub fn factorize<F: Field>(
    alloc: Global,
    rows: usize,
    columns: &Lines<F>,
) -> Result<Factored<F>, AllocError> {
    let mut active = active_of(alloc, rows, columns)?;
    let mut factors = Factors::new(alloc);
    if has_factors(alloc, &mut active, &mut factors)? {
        Ok(Factored::Regular(factors))
    } else {
        singular(alloc, &active)
    }
}
