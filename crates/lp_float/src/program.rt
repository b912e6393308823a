// The linear program in floats.
use lp_sparse::Lines;

/// A program in floats: the least cost with each column within its bounds. The structural columns come first. The logical
/// column of each row follows, whose value is the row's sum.
pub(crate) struct Program {
    pub(crate) rows: usize,
    /// How many structural columns there are.
    pub(crate) cols: usize,
    /// The numbers of each structural column by rows, and those of each row by structural columns.
    pub(crate) columns: Lines<f64>,
    pub(crate) by_rows: Lines<f64>,
    /// The bounds and the cost of each column. A bound that is absent is infinite.
    pub(crate) lower: Vec<f64>,
    pub(crate) upper: Vec<f64>,
    pub(crate) cost: Vec<f64>,
}

impl Drop for Program {
    fn drop(self) {
        let Program {
            rows: _,
            cols: _,
            columns,
            by_rows,
            lower,
            upper,
            cost,
        } = self;
        drop(columns);
        drop(by_rows);
        drop(lower);
        drop(upper);
        drop(cost);
    }
}

impl Program {
    /// How many columns there are, with the logical ones.
    pub(crate) fn len(&self) -> usize {
        self.cols.wrapping_add(self.rows)
    }

    /// Whether a column is logical.
    #[inline(always)]
    pub(crate) fn is_logical(&self, k: usize) -> bool {
        k >= self.cols
    }

    /// The row of a logical column.
    #[inline(always)]
    pub(crate) fn row_of(&self, k: usize) -> usize {
        k.wrapping_sub(self.cols)
    }

    /// The logical column of a row.
    #[inline(always)]
    pub(crate) fn logical(&self, i: usize) -> usize {
        self.cols.wrapping_add(i)
    }
}
