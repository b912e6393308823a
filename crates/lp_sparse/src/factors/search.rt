// Which pivot comes next (Markowitz, "The elimination form of the inverse and its application to linear programming", 1957;
// with a search of few rows and columns as in Suhl and Suhl, "Computing sparse LU factorizations for large-scale linear
// programming bases", 1990).
use crate::factors::active::Active;
use crate::field::Field;
use crate::lines::Entry;

// How many rows and columns are looked at once a pivot has been found.
const LOOKED_AT: usize = 6;

// How large a pivot is at least beside the largest number of its row, where arithmetic is not exact.
const STABLE: f64 = 0.1;

// Below this magnitude a number is no pivot where arithmetic is not exact.
const NO_PIVOT: f64 = 1e-9;

/// The place of a pivot, and how many numbers it may bring into being at most.
#[derive(Clone, Copy)]
pub(crate) struct Pivot {
    pub(crate) row: usize,
    pub(crate) column: usize,
    cost: usize,
}

// A search: what was found, and how many rows and columns were looked at.
#[derive(Clone, Copy)]
struct Search {
    best: Option<Pivot>,
    seen: usize,
}

impl Search {
    // Whether the search ends: there is a pivot, and it costs no more than this, or enough rows and columns were looked
    // at.
    fn is_over(self, cost: usize) -> bool {
        match self.best {
            Some(best) => best.cost <= cost || self.seen >= LOOKED_AT,
            None => false,
        }
    }

    // Whether a pivot of this cost is better than the best one so far. It is where there is none yet.
    fn is_better(self, cost: usize) -> bool {
        match self.best {
            Some(best) => cost < best.cost,
            None => true,
        }
    }
}

// The least magnitude of a pivot in a row of floats: a tenth of the row's largest one, and `NO_PIVOT` at least.
fn threshold<F: Field>(row: &[Entry<F>]) -> f64 {
    let mut most = 0.0f64;
    for entry in row {
        most = most.max(entry.value.magnitude());
    }
    (most * STABLE).max(NO_PIVOT)
}

// Whether the number of a row in this column is large enough for a pivot; always where arithmetic is exact. In a column
// of one number (`count` is 1) the other numbers of the row do not matter.
fn is_stable<F: Field>(row: &[Entry<F>], column: usize, count: usize) -> bool {
    if F::is_exact() {
        return true;
    }
    let least = if count == 1 { NO_PIVOT } else { threshold(row) };
    for entry in row {
        if entry.place == column {
            return entry.value.magnitude() >= least;
        }
    }
    false
}

// `(a - 1) (b - 1)`: how many numbers a pivot may bring into being at most, in a row of `a` numbers and a column of
// `b`.
#[inline(always)]
fn markowitz(a: usize, b: usize) -> usize {
    a.saturating_sub(1).saturating_mul(b.saturating_sub(1))
}

// Looks at the numbers of a column, `count` in all, that are large enough for a pivot, and keeps the best of them if it
// is better than the search's.
fn look_at_column<F: Field>(active: &Active<F>, column: usize, count: usize, search: &mut Search) {
    search.seen = search.seen.wrapping_add(1);
    for row in active.column(column) {
        if active.by_row.has(*row) {
            let cost = markowitz(active.by_row.count(*row), count);
            if search.is_better(cost) && is_stable(active.row(*row), column, count) {
                search.best = Some(Pivot {
                    row: *row,
                    column,
                    cost,
                });
            }
        }
    }
}

// Looks at the numbers of a row, `count` in all, that are large enough for a pivot, and keeps the best of them if it is
// better than the search's.
fn look_at_row<F: Field>(active: &Active<F>, row: usize, count: usize, search: &mut Search) {
    search.seen = search.seen.wrapping_add(1);
    let least = if F::is_exact() {
        0.0
    } else {
        threshold(active.row(row))
    };
    for entry in active.row(row) {
        let cost = markowitz(active.by_column.count(entry.place), count);
        if search.is_better(cost) && (F::is_exact() || entry.value.magnitude() >= least) {
            search.best = Some(Pivot {
                row,
                column: entry.place,
                cost,
            });
        }
    }
}

// Looks at the columns of `count` numbers each, one after the other, until the search is over.
fn look_at_columns<F: Field>(active: &Active<F>, count: usize, search: &mut Search) {
    let mut next = active.by_column.first(count);
    for _ in 0..active.columns.len() {
        let Some(column) = next else {
            return;
        };
        if search.is_over(markowitz(count, count)) {
            return;
        }
        look_at_column(active, column, count, search);
        next = active.by_column.after(column);
    }
}

// Looks at the rows of `count` numbers each, one after the other, until the search is over.
fn look_at_rows<F: Field>(active: &Active<F>, count: usize, search: &mut Search) {
    let mut next = active.by_row.first(count);
    for _ in 0..active.rows.len() {
        let Some(row) = next else {
            return;
        };
        if search.is_over(markowitz(count, count.wrapping_add(1))) {
            return;
        }
        look_at_row(active, row, count, search);
        next = active.by_row.after(row);
    }
}

/// A pivot that brings few numbers into being, if there is one at all.
pub(crate) fn next_pivot<F: Field>(active: &Active<F>) -> Option<Pivot> {
    let mut search = Search {
        best: None,
        seen: 0,
    };
    let most = active.rows.len().max(active.columns.len());
    for count in 1..most.saturating_add(1) {
        if search.is_over(markowitz(count, count)) {
            return search.best;
        }
        look_at_columns(active, count, &mut search);
        look_at_rows(active, count, &mut search);
    }
    search.best
}
