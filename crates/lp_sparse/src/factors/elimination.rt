// One step of an elimination.
use crate::factors::Factors;
use crate::factors::active::Active;
use crate::factors::search::Pivot;
use crate::field::Field;
use crate::lines::{Entry, at, put};
use std::alloc::{AllocError, Global};

impl<F: Field> Factors<F> {
    // Adds a pivot's row, which is without the pivot, to the upper factor as its next line.
    fn note_row(&mut self, row: &[Entry<F>]) -> Result<(), AllocError> {
        for entry in row {
            self.upper.put(entry.place, entry.value)?;
        }
        self.upper.end()
    }

    // Notes the row, the column and the inverse of a pivot, and ends the lower factor's line, which has the multiples
    // already.
    fn note_step(&mut self, pivot: Pivot, inverse: F) -> Result<(), AllocError> {
        self.rows.push(pivot.row)?;
        self.columns.push(pivot.column)?;
        self.inverses.push(inverse)?;
        self.lower.end()
    }
}

// The pivot's row without the pivot, and room for what each other row has had of it.
struct PivotRow<F: Field> {
    column: usize,
    inverse: F,
    numbers: Vec<Entry<F>>,
    /// For each number 1 more than the last row that had one in the same column.
    met: Vec<usize>,
}

impl<F: Field> Drop for PivotRow<F> {
    fn drop(self) {
        let PivotRow {
            column: _,
            inverse: _,
            numbers,
            met,
        } = self;
        drop(numbers);
        drop(met);
    }
}

// Takes the number in this column out of a row, and gives it; none if the row has no number there.
fn take_number<F: Field>(row: &mut Vec<Entry<F>>, column: usize) -> Option<F> {
    for k in 0..row.len() {
        if let Some(entry) = row.get(k) {
            if entry.place == column {
                let value = entry.value;
                remove_at(row, k);
                return Some(value);
            }
        }
    }
    None
}

// Takes the number at `k` out of a list, whose last one comes in its place.
fn remove_at<T: Copy>(list: &mut Vec<T>, k: usize) {
    if k < list.len() {
        list.swap_remove(k);
    }
}

// Takes a row out of the list of a column's rows, and lowers the column's count by 1.
fn forget_row<F: Field>(active: &mut Active<F>, column: usize, row: usize) {
    if let Some(rows) = active.columns.get_mut(column) {
        take_place(rows, row);
    }
    let count = active.by_column.count(column).wrapping_sub(1);
    active.by_column.move_to(column, count);
}

// Takes the first item that equals this number out of a list, if there is one. The last item comes in its place.
fn take_place(list: &mut Vec<usize>, number: usize) {
    for k in 0..list.len() {
        if at(list, k) == number {
            remove_at(list, k);
            return;
        }
    }
}

// Subtracts a multiple of the pivot's row from the numbers that a row has in the same columns, and notes these columns
// by the stamp. Says whether one of the numbers is negligible then.
fn take_off<F: Field>(
    active: &Active<F>,
    row: &mut [Entry<F>],
    pivot: &mut PivotRow<F>,
    times: F,
    stamp: usize,
) -> bool {
    let mut has_zero = false;
    for entry in row.iter_mut() {
        if let Some(k) = active.marked(entry.place) {
            if let Some(number) = pivot.numbers.get(k) {
                entry.value = entry.value.less_product(times, number.value);
                has_zero = has_zero || entry.value.is_negligible();
            }
            put(&mut pivot.met, k, stamp);
        }
    }
    has_zero
}

// Adds to row `i` the numbers that an elimination step makes at places where the row had none. Their columns get the
// row too.
fn fill_in<F: Field>(
    active: &mut Active<F>,
    i: usize,
    row: &mut Vec<Entry<F>>,
    pivot: &PivotRow<F>,
    times: F,
) -> Result<(), AllocError> {
    for (number, met) in pivot.numbers.iter().zip(&pivot.met) {
        if *met != i.wrapping_add(1) {
            let value = F::zero().less_product(times, number.value);
            row.push(Entry {
                place: number.place,
                value,
            })?;
            if let Some(rows) = active.columns.get_mut(number.place) {
                rows.push(i)?;
            }
            let count = active.by_column.count(number.place).wrapping_add(1);
            active.by_column.move_to(number.place, count);
        }
    }
    Ok(())
}

// Takes the numbers that are negligible out of row `i`, and the row out of their columns.
fn drop_zeros<F: Field>(active: &mut Active<F>, i: usize, row: &mut Vec<Entry<F>>) {
    let mut k = 0usize;
    for _ in 0..row.len() {
        match row.get(k) {
            Some(entry) if entry.value.is_negligible() => {
                forget_row(active, entry.place, i);
                remove_at(row, k);
            }
            Some(_) | None => k = k.wrapping_add(1),
        }
    }
}

// Eliminates the pivot's column from row `i`, and gives the multiple of the pivot's row that was subtracted for it.
fn clear<F: Field>(
    alloc: Global,
    active: &mut Active<F>,
    i: usize,
    pivot: &mut PivotRow<F>,
) -> Result<F, AllocError> {
    let mut row = active.take_row(alloc, i);
    let times = match take_number(&mut row, pivot.column) {
        Some(number) => number.times(pivot.inverse),
        None => F::zero(),
    };
    let has_zero = take_off(active, &mut row, pivot, times, i.wrapping_add(1));
    fill_in(active, i, &mut row, pivot, times)?;
    if has_zero {
        drop_zeros(active, i, &mut row);
    }
    active.by_row.move_to(i, row.len());
    active.put_row(i, row);
    Ok(times)
}

// Eliminates the pivot's column from those of these rows that have had no pivot, and puts the multiples into the lower
// factor.
fn clear_all<F: Field>(
    alloc: Global,
    active: &mut Active<F>,
    pivot: &mut PivotRow<F>,
    rows: &[usize],
    factors: &mut Factors<F>,
) -> Result<(), AllocError> {
    for i in rows {
        if active.by_row.has(*i) {
            let times = clear(alloc, active, *i, pivot)?;
            factors.lower.put(*i, times)?;
        }
    }
    Ok(())
}

// Takes the pivot's row and column out of the buckets, and lowers the count of each other column of the pivot's row by
// 1.
fn settle<F: Field>(active: &mut Active<F>, pivot: Pivot, row: &[Entry<F>]) {
    active.by_row.remove(pivot.row);
    active.by_column.remove(pivot.column);
    for entry in row {
        let count = active.by_column.count(entry.place).wrapping_sub(1);
        active.by_column.move_to(entry.place, count);
    }
}

// Takes the pivot's row out of the matrix, and the pivot out of that row. None if the row has no number in the pivot's
// column.
fn take_pivot_row<F: Field>(
    alloc: Global,
    active: &mut Active<F>,
    pivot: Pivot,
) -> Result<Option<PivotRow<F>>, AllocError> {
    let mut numbers = active.take_row(alloc, pivot.row);
    match take_number(&mut numbers, pivot.column) {
        Some(number) => Ok(Some(PivotRow {
            column: pivot.column,
            inverse: number.inverse(),
            met: Vec::from_elem(alloc, 0usize, numbers.len())?,
            numbers,
        })),
        None => Ok(None),
    }
}

// Eliminates with a pivot that is not 0, and notes the step.
fn eliminate_with<F: Field>(
    alloc: Global,
    active: &mut Active<F>,
    pivot: Pivot,
    row: &mut PivotRow<F>,
    factors: &mut Factors<F>,
) -> Result<(), AllocError> {
    settle(active, pivot, &row.numbers);
    active.mark(&row.numbers, true);
    let rows = active.take_column(alloc, pivot.column);
    clear_all(alloc, active, row, &rows, factors)?;
    active.mark(&row.numbers, false);
    factors.note_step(pivot, row.inverse)?;
    factors.note_row(&row.numbers)
}

/// Eliminates with a pivot, and notes the step. Gives false, and notes nothing, where the row has no number in the
/// pivot's column.
pub(crate) fn eliminate<F: Field>(
    alloc: Global,
    active: &mut Active<F>,
    pivot: Pivot,
    factors: &mut Factors<F>,
) -> Result<bool, AllocError> {
    match take_pivot_row(alloc, active, pivot)? {
        Some(mut row) => {
            eliminate_with(alloc, active, pivot, &mut row, factors)?;
            Ok(true)
        }
        None => Ok(false),
    }
}
