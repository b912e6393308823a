// Tableaus over rows of whole numbers.
ghost use Rattle.std.specs.Prelude.{◌≡◌, ◌≤◌, length};
ghost use Rattle.spec_model.specs.Kept.{row_limit, column_limit};
ghost use Rattle.lp_rows.specs.Shows.{width};

use crate::fractions::Row;
use lp_form::Status;
use lp_natural::words::{Signed, Words};

/// A tableau over rows of whole numbers: of each position a row over the structural and the logical columns and, last,
/// the value of its basic column on the row's denominator times `denominator`; a row of reduced costs; of each column,
/// also of the artificial ones, its status and its bounds on `denominator`.
///
/// Artificial columns have no entries: none of them ever enters.
pub struct RowTableau<T: Words> {
    pub cols: u32,
    pub rows: Vec<Row<T>>,
    pub costs: Row<T>,
    pub basic: Vec<u32>,
    pub status: Vec<Status>,
    pub lower: Vec<Option<Signed<T>>>,
    pub upper: Vec<Option<Signed<T>>>,
    /// Whether a structural or logical column has both bounds, and these are equal.
    pub fixed: Vec<bool>,
    /// That of all bounds.
    pub denominator: T,
}

impl<T: Words> Drop for RowTableau<T> {
    fn drop(self) {
        let RowTableau {
            cols: _,
            rows,
            costs,
            basic,
            status,
            lower,
            upper,
            fixed,
            denominator: _,
        } = self;
        drop(rows);
        drop(costs);
        drop(basic);
        drop(status);
        drop(lower);
        drop(upper);
        drop(fixed);
    }
}

impl<T: Words> RowTableau<T> {
    /// How many structural and logical columns there are.
    pub fn width(&self) -> usize
        requires rows { length self.now.rows.items ≤ row_limit }
        requires cols { self.now.cols ≤ column_limit }
        ensures { result ≡ width self.now }
    {
        self.cols as usize + self.rows.len()
    }
}
