// Factors in the order of their steps, for right sides most of whose numbers are 0. Only the steps at which a number is not 0
// are gone over. A bit for each step says whether it is one of them, in place of a search in depth for them as by Gilbert and
// Peierls ("Sparse partial pivoting in time proportional to arithmetic operations", 1988). Where they are many, all steps are
// gone over.
use crate::factors::{Factors, put_value, take_off, value_at};
use crate::field::Field;
use crate::lines::{Entry, Lines, at, numbered, put, turned};
use std::alloc::{AllocError, Global};

// Where more than one step in so many is marked, all steps are gone over.
const MANY: usize = 8;

/// Numbers most of which are 0, and the places of the others.
pub struct Sparse<F: Field> {
    pub numbers: Vec<F>,
    /// The places whose numbers are not 0, each once; or all of them.
    pub places: Vec<usize>,
}

impl<F: Field> Drop for Sparse<F> {
    fn drop(self) {
        let Sparse { numbers, places } = self;
        drop(numbers);
        drop(places);
    }
}

impl<F: Field> Sparse<F> {
    /// A list of `len` zeros, of which no place is noted.
    pub fn new(alloc: Global, len: usize) -> Result<Self, AllocError> {
        Ok(Sparse {
            numbers: Vec::from_elem(alloc, F::zero(), len)?,
            places: Vec::new(alloc),
        })
    }

    /// Sets all numbers of the list to 0, and forgets the noted places.
    pub fn clear(&mut self) {
        for k in &self.places {
            put_value(&mut self.numbers, *k, F::zero());
        }
        self.places.clear();
    }

    /// Whether all places are noted.
    #[inline(always)]
    pub fn is_full(&self) -> bool {
        self.places.len() >= self.numbers.len()
    }

    // Notes all places of the list, whether their numbers are 0 or not.
    fn note_all(&mut self) -> Result<(), AllocError> {
        self.places.clear();
        for k in 0..self.numbers.len() {
            self.places.push(k)?;
        }
        Ok(())
    }

    // Sets the number at a place that is not noted yet, and notes the place.
    #[inline(always)]
    fn put(&mut self, k: usize, number: F) -> Result<(), AllocError> {
        self.places.push(k)?;
        put_value(&mut self.numbers, k, number);
        Ok(())
    }
}

/// Room for a solution: a number and a bit for each step, and how often one was marked.
pub struct Marked<F: Field> {
    numbers: Vec<F>,
    marks: Vec<u64>,
    count: usize,
}

impl<F: Field> Drop for Marked<F> {
    fn drop(self) {
        let Marked {
            numbers,
            marks,
            count: _,
        } = self;
        drop(numbers);
        drop(marks);
    }
}

impl<F: Field> Marked<F> {
    /// Room for `len` steps: each number is 0, and no step is marked.
    pub fn new(alloc: Global, len: usize) -> Result<Self, AllocError> {
        Ok(Marked {
            numbers: Vec::from_elem(alloc, F::zero(), len)?,
            marks: Vec::from_elem(alloc, 0u64, len / 64 + 1)?,
            count: 0,
        })
    }

    // The bits of the 64 steps from step `64 w` on: 1 for each that is to be gone over.
    #[inline(always)]
    fn word(&self, w: usize) -> u64 {
        match self.marks.get(w) {
            Some(word) => *word,
            None => 0,
        }
    }

    // Whether so many steps are to be gone over that going over all of them is as good.
    fn is_many(&self) -> bool {
        self.count.saturating_mul(MANY) > self.numbers.len()
    }

    // Notes that a step is to be gone over.
    #[inline(always)]
    fn mark(&mut self, k: usize) {
        self.count = self.count.wrapping_add(1);
        if let Some(word) = self.marks.get_mut(k / 64) {
            *word |= 1u64 << (k % 64);
        }
    }

    // Subtracts a multiple of a line from the numbers by step. A step whose number was 0 before is noted as one to be
    // gone over.
    #[inline(always)]
    fn take_off(&mut self, line: &[Entry<F>], times: F) {
        for entry in line {
            if let Some(number) = self.numbers.get_mut(entry.place) {
                let before = *number;
                *number = before.less_product(times, entry.value);
                if before.is_zero() {
                    self.mark(entry.place);
                }
            }
        }
    }

    // Moves the numbers of a right side to the steps of their places, which are noted as ones to be gone over. The
    // right side is all 0 then.
    fn put_all(&mut self, right: &mut Sparse<F>, steps: &[usize]) {
        for k in &right.places {
            let step = at(steps, *k);
            put_value(&mut self.numbers, step, value_at(&right.numbers, *k));
            self.mark(step);
        }
        right.clear();
    }

    // Notes that no step is to be gone over.
    fn clear_marks(&mut self) {
        self.count = 0;
        for word in self.marks.iter_mut() {
            *word = 0;
        }
    }

    // The last of the 64 steps from step `64 w` on that is to be gone over; it is not to be gone over again. None where
    // none of them is.
    #[inline(always)]
    fn take_last(&mut self, w: usize) -> Option<usize> {
        let word = self.marks.get_mut(w)?;
        if *word == 0 {
            return None;
        }
        let bit = 63u32.wrapping_sub(word.leading_zeros()) % 64;
        *word &= !(1u64 << bit);
        Some(w.wrapping_mul(64).wrapping_add(bit as usize))
    }
}

/// The factors of a square matrix, of which rows and columns are named by their steps.
pub struct Ordered<F: Field> {
    rows: Vec<usize>,
    columns: Vec<usize>,
    row_steps: Vec<usize>,
    column_steps: Vec<usize>,
    inverses: Vec<F>,
    lower: Lines<F>,
    lower_turned: Lines<F>,
    upper: Lines<F>,
    upper_turned: Lines<F>,
}

impl<F: Field> Drop for Ordered<F> {
    fn drop(self) {
        let Ordered {
            rows,
            columns,
            row_steps,
            column_steps,
            inverses,
            lower,
            lower_turned,
            upper,
            upper_turned,
        } = self;
        drop(rows);
        drop(columns);
        drop(row_steps);
        drop(column_steps);
        drop(inverses);
        drop(lower);
        drop(lower_turned);
        drop(upper);
        drop(upper_turned);
    }
}

// Writes the step of each row or column into an empty list. `names` has the rows or columns in the order of their
// steps.
fn put_steps(steps: &mut Vec<usize>, names: &[usize]) -> Result<(), AllocError> {
    steps.resize(names.len(), 0)?;
    for (step, name) in names.iter().enumerate() {
        put(steps, *name, step);
    }
    Ok(())
}

// Adds a line whose numbers are those of another line, each at the step of its place.
fn put_line<F: Field>(
    lines: &mut Lines<F>,
    line: &[Entry<F>],
    steps: &[usize],
) -> Result<(), AllocError> {
    for entry in line {
        lines.put(at(steps, entry.place), entry.value)?;
    }
    lines.end()
}

// Adds all lines of a list, with each number at the step of its place.
fn put_lines<F: Field>(
    list: &mut Lines<F>,
    lines: &Lines<F>,
    steps: &[usize],
) -> Result<(), AllocError> {
    for k in 0..lines.len() {
        put_line(list, lines.line(k), steps)?;
    }
    Ok(())
}

impl<F: Field> Ordered<F> {
    // Factors that have no steps yet.
    fn new(alloc: Global) -> Self {
        Ordered {
            rows: Vec::new(alloc),
            columns: Vec::new(alloc),
            row_steps: Vec::new(alloc),
            column_steps: Vec::new(alloc),
            inverses: Vec::new(alloc),
            lower: Lines::new(alloc),
            lower_turned: Lines::new(alloc),
            upper: Lines::new(alloc),
            upper_turned: Lines::new(alloc),
        }
    }

    // Takes over the row, the column and the inverse of each step, and notes the step of each row and each column.
    fn note_names(&mut self, factors: &Factors<F>) -> Result<(), AllocError> {
        self.rows.extend_from_slice(&factors.rows)?;
        self.columns.extend_from_slice(&factors.columns)?;
        self.inverses.extend_from_slice(&factors.inverses)?;
        put_steps(&mut self.row_steps, &factors.rows)?;
        put_steps(&mut self.column_steps, &factors.columns)
    }

    // Takes over the numbers of both factors, each at the step of its place, and makes the transposed lines.
    fn note_lines(&mut self, alloc: Global, factors: &Factors<F>) -> Result<(), AllocError> {
        put_lines(&mut self.lower, &factors.lower, &self.row_steps)?;
        put_lines(&mut self.upper, &factors.upper, &self.column_steps)?;
        let len = factors.rows.len();
        let steps = numbered(alloc, len)?;
        self.lower_turned = turned(alloc, &self.lower, &steps, len, F::zero())?;
        self.upper_turned = turned(alloc, &self.upper, &steps, len, F::zero())?;
        Ok(())
    }
}

/// The same factors, with rows and columns named by their steps.
pub fn order_factors<F: Field>(
    alloc: Global,
    factors: &Factors<F>,
) -> Result<Ordered<F>, AllocError> {
    let mut ordered = Ordered::new(alloc);
    ordered.note_names(factors)?;
    ordered.note_lines(alloc, factors)?;
    Ok(ordered)
}

// The first of 64 steps that is to be gone over, among those whose bits are in `left`; `left` then has the later ones.
#[inline(always)]
fn next_step(word: u64, left: &mut u64, w: usize) -> Option<usize> {
    let bits = word & *left;
    if bits == 0 {
        return None;
    }
    *left = !(bits ^ bits.wrapping_sub(1));
    Some(
        w.wrapping_mul(64)
            .wrapping_add(bits.trailing_zeros() as usize),
    )
}

// A number divided by the diagonal's number at its step, of which `inverses` has the inverse. Without inverses the
// diagonal is 1.
#[inline(always)]
fn divided<F: Field>(number: F, inverses: &[F], step: usize) -> F {
    match inverses.get(step) {
        Some(inverse) => number.times(*inverse),
        None => number,
    }
}

// Solves a triangular system in place, at those of 64 steps that are to be gone over, the first one first. The matrix
// is given by columns without the diagonal.
fn forward_word<F: Field>(room: &mut Marked<F>, w: usize, lines: &Lines<F>, inverses: &[F]) {
    let mut left = u64::MAX;
    for _ in 0..64 {
        let Some(step) = next_step(room.word(w), &mut left, w) else {
            return;
        };
        let number = divided(value_at(&room.numbers, step), inverses, step);
        put_value(&mut room.numbers, step, number);
        if !number.is_zero() {
            room.take_off(lines.line(step), number);
        }
    }
}

// Solves a triangular system in place, at all steps, the first one first.
fn forward_all<F: Field>(numbers: &mut [F], lines: &Lines<F>, inverses: &[F]) {
    for step in 0..lines.len() {
        let number = value_at(numbers, step);
        if !number.is_zero() {
            let number = divided(number, inverses, step);
            put_value(numbers, step, number);
            take_off(numbers, lines.line(step), number);
        }
    }
}

// Solves a triangular system in place of the right sides, the first step first: at the marked steps, or at all of them
// if many are marked.
fn forward<F: Field>(room: &mut Marked<F>, lines: &Lines<F>, inverses: &[F]) {
    if room.is_many() {
        forward_all(&mut room.numbers, lines, inverses);
        return;
    }
    for w in 0..room.marks.len() {
        forward_word(room, w, lines, inverses);
    }
}

// Solves a triangular system at those of 64 steps that are to be gone over, the last one first. Their numbers and marks
// leave the room: numbers that are not negligible go into the solution, under the steps' names.
fn backward_word<F: Field>(
    room: &mut Marked<F>,
    w: usize,
    lines: &Lines<F>,
    inverses: &[F],
    names: &[usize],
    solution: &mut Sparse<F>,
) -> Result<(), AllocError> {
    for _ in 0..64 {
        let Some(step) = room.take_last(w) else {
            return Ok(());
        };
        let number = divided(value_at(&room.numbers, step), inverses, step);
        put_value(&mut room.numbers, step, F::zero());
        if !number.is_zero() && !number.is_negligible() {
            room.take_off(lines.line(step), number);
            solution.put(at(names, step), number)?;
        }
    }
    Ok(())
}

// Solves a triangular system at all steps, the last one first. The numbers are moved into the solution, under the
// steps' names.
fn backward_all<F: Field>(
    numbers: &mut [F],
    lines: &Lines<F>,
    inverses: &[F],
    names: &[usize],
    solution: &mut [F],
) {
    for step in (0..lines.len()).rev() {
        let number = value_at(numbers, step);
        if !number.is_zero() {
            let number = divided(number, inverses, step);
            put_value(numbers, step, F::zero());
            take_off(numbers, lines.line(step), number);
            put_value(solution, at(names, step), number);
        }
    }
}

// Solves a triangular system, the last step first, at the marked steps, or at all of them if many are marked. The
// numbers, at marked steps those that are not negligible, are moved from the room into the solution, under the steps'
// names. The room is all 0 and unmarked then.
fn backward<F: Field>(
    room: &mut Marked<F>,
    lines: &Lines<F>,
    inverses: &[F],
    names: &[usize],
    solution: &mut Sparse<F>,
) -> Result<(), AllocError> {
    if room.is_many() {
        backward_all(
            &mut room.numbers,
            lines,
            inverses,
            names,
            &mut solution.numbers,
        );
        room.clear_marks();
        return solution.note_all();
    }
    for w in (0..room.marks.len()).rev() {
        backward_word(room, w, lines, inverses, names, solution)?;
    }
    room.count = 0;
    Ok(())
}

impl<F: Field> Ordered<F> {
    /// How many numbers both factors have, with the pivots.
    pub fn size(&self) -> usize {
        let off_pivots = self.lower.size().wrapping_add(self.upper.size());
        off_pivots.wrapping_add(self.rows.len())
    }

    /// Solves the matrix times the unknowns for a right side that stands by row, and is used up. The solution stands by
    /// column. The room has been used for solutions alone.
    pub fn solve(
        &self,
        room: &mut Marked<F>,
        right: &mut Sparse<F>,
        solution: &mut Sparse<F>,
    ) -> Result<(), AllocError> {
        solution.clear();
        room.put_all(right, &self.row_steps);
        forward(room, &self.lower, &[]);
        backward(
            room,
            &self.upper_turned,
            &self.inverses,
            &self.columns,
            solution,
        )
    }

    /// Solves the transposed matrix times the unknowns for a right side that stands by column, and is used up. The solution
    /// stands by row. The room has been used for solutions alone.
    pub fn solve_turned(
        &self,
        room: &mut Marked<F>,
        right: &mut Sparse<F>,
        solution: &mut Sparse<F>,
    ) -> Result<(), AllocError> {
        solution.clear();
        room.put_all(right, &self.column_steps);
        forward(room, &self.upper, &self.inverses);
        backward(room, &self.lower_turned, &[], &self.rows, solution)
    }
}
