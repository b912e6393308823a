// What is left of a matrix while it is factored.
use crate::factors::buckets::Buckets;
use crate::field::Field;
use crate::lines::{Entry, Lines, at, put};
use std::alloc::{AllocError, Global};
use std::mem;

/// The rows and columns that have had no pivot yet.
pub(crate) struct Active<F: Field> {
    /// The numbers of each row, in no order.
    pub(crate) rows: Vec<Vec<Entry<F>>>,
    /// The rows in which a column has a number, and some that have had their pivot.
    pub(crate) columns: Vec<Vec<usize>>,
    pub(crate) by_row: Buckets,
    pub(crate) by_column: Buckets,
    /// For each column 1 more than its place in the pivot's row, 0 where it has none.
    pub(crate) marks: Vec<usize>,
}

impl<F: Field> Drop for Active<F> {
    fn drop(self) {
        let Active {
            rows,
            columns,
            by_row,
            by_column,
            marks,
        } = self;
        drop(rows);
        drop(columns);
        drop(by_row);
        drop(by_column);
        drop(marks);
    }
}

// Appends `len` empty rows to the list.
fn put_rows<F: Field>(
    alloc: Global,
    rows: &mut Vec<Vec<Entry<F>>>,
    len: usize,
) -> Result<(), AllocError> {
    for _ in 0..len {
        rows.push(Vec::new(alloc))?;
    }
    Ok(())
}

// Adds the numbers of the column `name` to their rows, and gives the list of these rows.
fn spread<F: Field>(
    alloc: Global,
    rows: &mut [Vec<Entry<F>>],
    column: &[Entry<F>],
    name: usize,
) -> Result<Vec<usize>, AllocError> {
    let mut places = Vec::with_capacity(alloc, column.len())?;
    for entry in column {
        if let Some(row) = rows.get_mut(entry.place) {
            row.push(Entry {
                place: name,
                value: entry.value,
            })?;
            places.push(entry.place)?;
        }
    }
    Ok(places)
}

// Puts each row or each column into the bucket of how many numbers it has.
fn count<T>(buckets: &mut Buckets, lists: &[Vec<T>]) {
    for (k, list) in lists.iter().enumerate() {
        buckets.insert(k, list.len());
    }
}

/// The matrix with so many rows and these columns, before the first pivot.
pub(crate) fn active_of<F: Field>(
    alloc: Global,
    rows: usize,
    columns: &Lines<F>,
) -> Result<Active<F>, AllocError> {
    let mut active = Active {
        rows: Vec::new(alloc),
        columns: Vec::new(alloc),
        by_row: Buckets::new(alloc),
        by_column: Buckets::new(alloc),
        marks: Vec::new(alloc),
    };
    active.put_columns(alloc, rows, columns)?;
    active.note_counts(rows, columns.len())?;
    Ok(active)
}

impl<F: Field> Active<F> {
    // Adds so many empty rows, and puts the numbers of these columns into them.
    fn put_columns(
        &mut self,
        alloc: Global,
        rows: usize,
        columns: &Lines<F>,
    ) -> Result<(), AllocError> {
        put_rows(alloc, &mut self.rows, rows)?;
        for j in 0..columns.len() {
            self.columns
                .push(spread(alloc, &mut self.rows, columns.line(j), j)?)?;
        }
        Ok(())
    }

    // Notes how many numbers each row and column has.
    fn note_counts(&mut self, rows: usize, columns: usize) -> Result<(), AllocError> {
        self.by_row.lengthen(rows, columns)?;
        self.by_column.lengthen(columns, rows)?;
        self.marks.resize(columns, 0)?;
        count(&mut self.by_row, &self.rows);
        count(&mut self.by_column, &self.columns);
        Ok(())
    }

    /// Takes the numbers of row `i` out, and gives them. The row is empty then.
    pub(crate) fn take_row(&mut self, alloc: Global, i: usize) -> Vec<Entry<F>> {
        match self.rows.get_mut(i) {
            Some(row) => mem::replace(row, Vec::new(alloc)),
            None => Vec::new(alloc),
        }
    }

    /// Gives a row back its numbers, which were taken out of it.
    pub(crate) fn put_row(&mut self, i: usize, numbers: Vec<Entry<F>>) {
        if let Some(row) = self.rows.get_mut(i) {
            *row = numbers;
        }
    }

    /// Takes the list of the rows of column `j` out, and gives it. The column's list is empty then.
    pub(crate) fn take_column(&mut self, alloc: Global, j: usize) -> Vec<usize> {
        match self.columns.get_mut(j) {
            Some(column) => mem::replace(column, Vec::new(alloc)),
            None => Vec::new(alloc),
        }
    }

    /// The numbers of row `i`; none where there is no such row, or they were taken out.
    #[inline(always)]
    pub(crate) fn row(&self, i: usize) -> &[Entry<F>] {
        match self.rows.get(i) {
            Some(row) => row.as_slice(),
            None => &[],
        }
    }

    /// The rows in which column `j` has a number, and some that have had their pivot.
    #[inline(always)]
    pub(crate) fn column(&self, j: usize) -> &[usize] {
        match self.columns.get(j) {
            Some(column) => column.as_slice(),
            None => &[],
        }
    }

    /// Notes for each column of the pivot's row its place in that row, or takes these notes back.
    pub(crate) fn mark(&mut self, row: &[Entry<F>], is_marked: bool) {
        for (k, entry) in row.iter().enumerate() {
            let mark = if is_marked { k.wrapping_add(1) } else { 0 };
            put(&mut self.marks, entry.place, mark);
        }
    }

    /// The place in the pivot's row of a column that is noted as one of it; none for any other column.
    #[inline(always)]
    pub(crate) fn marked(&self, j: usize) -> Option<usize> {
        let mark = at(&self.marks, j);
        if mark == 0 { None } else { Some(mark - 1) }
    }
}
