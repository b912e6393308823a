// The factors of a basis, and the columns that came in since.
use crate::number::{at, index_at, product, put, put_index};
use crate::program::Program;
use crate::sparse::{add_line, put_in};
use lp_sparse::{Entry, Factored, Lines, Marked, Ordered, Sparse, factorize, order_factors};
use std::alloc::{AllocError, Global};

/// The position of a column that has none.
pub(crate) const NOWHERE: usize = usize::MAX;

// What is taken for 0 in a column that comes in.
const NOTHING: f64 = 1e-14;

// After so many changes new factors are due.
const MOST_CHANGES: usize = 100;

// How often a singular basis is mended before the logical one is taken.
const MENDS: u32 = 3;

/// A basis: the column at each position, and the position of each column. The factors are those of an earlier basis. Each
/// change since has the position, and the column that came in, solved by the basis before (the product form of the
/// inverse).
pub(crate) struct Basis {
    pub(crate) head: Vec<usize>,
    pub(crate) place: Vec<usize>,
    factors: Option<Ordered<f64>>,
    room: Marked<f64>,
    places: Vec<usize>,
    pivots: Vec<f64>,
    changes: Lines<f64>,
}

impl Drop for Basis {
    fn drop(self) {
        let Basis {
            head,
            place,
            factors,
            room,
            places,
            pivots,
            changes,
        } = self;
        drop(head);
        drop(place);
        drop(factors);
        drop(room);
        drop(places);
        drop(pivots);
        drop(changes);
    }
}

// Fills the list with the logical column of each row, in place of what it had.
fn put_logicals(head: &mut Vec<usize>, program: &Program) -> Result<(), AllocError> {
    head.clear();
    for i in 0..program.rows {
        head.push(program.logical(i))?;
    }
    Ok(())
}

// Adds the numbers of a line to the open line of `lines`, which stays open.
fn put_line(lines: &mut Lines<f64>, line: &[Entry<f64>]) -> Result<(), AllocError> {
    for entry in line {
        lines.put(entry.place, entry.value)?;
    }
    Ok(())
}

// Adds column `k` of the program as the next line. A logical column has -1 in its row.
fn put_column(lines: &mut Lines<f64>, program: &Program, k: usize) -> Result<(), AllocError> {
    if program.is_logical(k) {
        lines.put(program.row_of(k), -1.0)?;
    } else {
        put_line(lines, program.columns.line(k))?;
    }
    lines.end()
}

// The columns of the program that are named in `head`, one line for each.
fn columns_of(alloc: Global, program: &Program, head: &[usize]) -> Result<Lines<f64>, AllocError> {
    let mut lines = Lines::new(alloc);
    for k in head {
        put_column(&mut lines, program, *k)?;
    }
    Ok(lines)
}

// Makes the logical columns of the given rows basic in place of the columns at the given positions.
fn mend(head: &mut [usize], program: &Program, rows: &[usize], places: &[usize]) {
    for (row, place) in rows.iter().zip(places) {
        put_index(head, *place, program.logical(*row));
    }
}

// The factors of the columns in `head`. Where they are singular there are none, and logical columns of the rows without
// a pivot replace the columns without one.
fn factored_or_mended(
    alloc: Global,
    program: &Program,
    head: &mut [usize],
) -> Result<Option<Ordered<f64>>, AllocError> {
    let columns = columns_of(alloc, program, head)?;
    let factored = factorize(alloc, program.rows, &columns)?;
    match &factored {
        Factored::Regular(factors) => Ok(Some(order_factors(alloc, factors)?)),
        Factored::Singular { rows, columns } => {
            mend(head, program, rows, columns);
            Ok(None)
        }
    }
}

// Notes for each of `len` columns its position in the basis, or that it has none.
fn put_places(place: &mut Vec<usize>, head: &[usize], len: usize) -> Result<(), AllocError> {
    place.clear();
    place.resize(len, NOWHERE)?;
    for (p, k) in head.iter().enumerate() {
        put_index(place, *k, p);
    }
    Ok(())
}

/// The basis of these columns, factored. Where they are singular, logical ones come in place of some, or of all.
pub(crate) fn basis_of(
    alloc: Global,
    program: &Program,
    columns: Vec<usize>,
) -> Result<Basis, AllocError> {
    let room = Marked::new(alloc, program.rows)?;
    let mut basis = Basis {
        head: columns,
        place: Vec::new(alloc),
        factors: None,
        room,
        places: Vec::new(alloc),
        pivots: Vec::new(alloc),
        changes: Lines::new(alloc),
    };
    basis.factor(alloc, program)?;
    Ok(basis)
}

impl Basis {
    // Factors the columns, and mends them where they are singular, three times at most. Says whether there are factors
    // then.
    fn is_factored(&mut self, alloc: Global, program: &Program) -> Result<bool, AllocError> {
        for _ in 0..MENDS {
            self.factors = factored_or_mended(alloc, program, &mut self.head)?;
            if self.factors.is_some() {
                return Ok(true);
            }
        }
        Ok(false)
    }

    // Factors the columns, or, if mending does not help, the logical columns of all rows in their place. Notes the
    // position of each column.
    fn factor(&mut self, alloc: Global, program: &Program) -> Result<(), AllocError> {
        if !self.is_factored(alloc, program)? {
            put_logicals(&mut self.head, program)?;
            self.factors = factored_or_mended(alloc, program, &mut self.head)?;
        }
        put_places(&mut self.place, &self.head, program.len())
    }

    /// Factors the basis anew, and forgets the changes since the last factors.
    pub(crate) fn renew(&mut self, alloc: Global, program: &Program) -> Result<(), AllocError> {
        self.places.clear();
        self.pivots.clear();
        self.changes = Lines::new(alloc);
        self.room = Marked::new(alloc, program.rows)?;
        self.factor(alloc, program)
    }

    /// How many columns came in, one for each exchange, since the factors were made.
    pub(crate) fn changes(&self) -> usize {
        self.places.len()
    }

    // How many numbers the factors have; 0 if there are none.
    fn size(&self) -> usize {
        match &self.factors {
            Some(factors) => factors.size(),
            None => 0,
        }
    }

    /// Whether new factors are due: after 100 changes, or where the changes have many more numbers than the factors.
    pub(crate) fn is_long(&self) -> bool {
        let rows = self.head.len().wrapping_mul(3);
        let most = self.size().wrapping_mul(2).wrapping_add(rows);
        self.places.len() >= MOST_CHANGES || self.changes.size() > most
    }

    /// Solves for the combination of the basic columns, by position, that is `right`, by row, which is used up.
    pub(crate) fn solve(
        &mut self,
        right: &mut Sparse<f64>,
        solution: &mut Sparse<f64>,
    ) -> Result<(), AllocError> {
        match &self.factors {
            Some(factors) => factors.solve(&mut self.room, right, solution)?,
            None => solution.clear(),
        }
        for (k, place) in self.places.iter().enumerate() {
            let number = at(&solution.numbers, *place);
            if number != 0.0 {
                let quotient = number / at(&self.pivots, k);
                add_line(solution, self.changes.line(k), -quotient)?;
                put(&mut solution.numbers, *place, quotient);
            }
        }
        Ok(())
    }

    /// Solves for the multipliers, by row, with which the basic columns have the products `right`, by position, which are
    /// used up.
    pub(crate) fn solve_turned(
        &mut self,
        right: &mut Sparse<f64>,
        solution: &mut Sparse<f64>,
    ) -> Result<(), AllocError> {
        for k in (0..self.places.len()).rev() {
            let place = index_at(&self.places, k);
            let before = at(&right.numbers, place);
            let number = before - product(&right.numbers, self.changes.line(k));
            if number != 0.0 || before != 0.0 {
                put_in(right, place, number / at(&self.pivots, k))?;
            }
        }
        match &self.factors {
            Some(factors) => factors.solve_turned(&mut self.room, right, solution),
            None => {
                solution.clear();
                Ok(())
            }
        }
    }

    // Notes the numbers of a column that comes in at a position, without the pivot and without tiny ones, as the next
    // change.
    fn note(&mut self, place: usize, column: &Sparse<f64>) -> Result<(), AllocError> {
        for p in &column.places {
            let number = at(&column.numbers, *p);
            if *p != place && number.abs() > NOTHING {
                self.changes.put(*p, number)?;
            }
        }
        self.changes.end()
    }

    /// Makes a column basic at a position in place of the one there, given its solution by the basis.
    pub(crate) fn change(
        &mut self,
        place: usize,
        k: usize,
        column: &Sparse<f64>,
    ) -> Result<(), AllocError> {
        self.note(place, column)?;
        self.places.push(place)?;
        self.pivots.push(at(&column.numbers, place))?;
        let leaving = index_at(&self.head, place);
        put_index(&mut self.place, leaving, NOWHERE);
        put_index(&mut self.place, k, place);
        put_index(&mut self.head, place, k);
        Ok(())
    }
}
