// Tableaus and their readers.
ghost use Rattle.std.specs.Prelude.{◌≡◌, ◌<◌, ◌≤◌};
ghost use Rattle.spec_simplex.specs.Tableau.{IsTableauShape, all_columns, entry_at, basic_at};
ghost use Rattle.spec_simplex.specs.Tableau.{value_at, reduced_at, status_at, lower_at, upper_at};
ghost use Rattle.lp_tableau.specs.Parts.{tableau_of};

use crate::twins::Twins;
use lp_form::Status;
use lp_frac::Frac;
use std::marker::Model;

/// A tableau: for each of `rows` positions a basic column and a row over `cols + 2 * rows` columns,
/// and for each column its value, its reduced cost, its status and its bounds.
///
/// The columns are the structural ones, then the logical and then the artificial ones of the rows.
pub struct Tableau {
    pub(crate) rows: u32,
    pub(crate) cols: u32,
    pub(crate) grid: Twins,
    pub(crate) basic: Vec<u32>,
    pub(crate) value: Vec<Frac>,
    pub(crate) reduced: Vec<Frac>,
    pub(crate) status: Vec<Status>,
    pub(crate) lower: Vec<Option<Frac>>,
    pub(crate) upper: Vec<Option<Frac>>,
}

impl Model for Tableau {
    ghost use Rattle.spec_simplex.specs.Tableau as tableaus;
    ghost use Rattle.lp_tableau.specs.Parts.{tableau_of};

    ghost Value = { tableaus.Tableau };

    ghost view = { λ t. tableau_of t.rows t.cols t.grid t.basic.items t.value.items t.reduced.items t.status.items
        t.lower.items t.upper.items };

    ghost invariant = { λ t. tableaus.IsTableauShape (tableau_of t.rows t.cols t.grid t.basic.items t.value.items
        t.reduced.items t.status.items t.lower.items t.upper.items) };
}

// What a tableau has for each column.
#[derive(Drop)]
pub(crate) struct ColumnLists {
    pub(crate) value: Vec<Frac>,
    pub(crate) reduced: Vec<Frac>,
    pub(crate) status: Vec<Status>,
    pub(crate) lower: Vec<Option<Frac>>,
    pub(crate) upper: Vec<Option<Frac>>,
}

impl Drop for Tableau {
    fn drop(self) {
        let Tableau {
            rows: _,
            cols: _,
            grid,
            basic,
            value,
            reduced,
            status,
            lower,
            upper,
        } = self;
        drop(grid);
        drop(basic);
        drop(value);
        drop(reduced);
        drop(status);
        drop(lower);
        drop(upper);
    }
}

impl Tableau {
    // The tableau of so many rows and structural columns, with these rows of entries, basic columns by position, and
    // lists by column.
    pub(crate) fn from_parts(
        rows: u32,
        cols: u32,
        grid: Twins,
        basic: Vec<u32>,
        lists: ColumnLists,
    ) -> Tableau
        requires { IsTableauShape (tableau_of rows cols grid basic.items lists.value.items lists.reduced.items
            lists.status.items lists.lower.items lists.upper.items) }
        ensures { result ≡ tableau_of rows cols grid basic.items lists.value.items lists.reduced.items
            lists.status.items lists.lower.items lists.upper.items }
    {
        Tableau {
            rows,
            cols,
            grid,
            basic,
            value: lists.value,
            reduced: lists.reduced,
            status: lists.status,
            lower: lists.lower,
            upper: lists.upper,
        }
    }

    /// How many positions there are, as many as rows of the form.
    pub fn rows(&self) -> u32
        ensures value { result ≡ self.now.rows }
        ensures bound { result ≤ 256 }
    {
        self.rows
    }

    /// How many structural columns there are.
    pub fn cols(&self) -> u32
        ensures value { result ≡ self.now.cols }
        ensures bound { result ≤ 512 }
    {
        self.cols
    }

    /// How many columns there are, structural, logical and artificial ones together, and so how many items each list of
    /// columns has.
    pub fn width(&self) -> u32
        ensures value { result ≡ all_columns self.now }
        ensures shape { IsTableauShape self.now }
    {
        self.cols + 2 * self.rows
    }

    /// The entry of a position's row in column `col`, which may be structural, logical or artificial.
    pub fn entry(&self, position: u32, col: u32) -> Frac
        requires place_in_range { position < self.now.rows }
        requires col_in_range { col < all_columns self.now }
        ensures { result ≡ entry_at self.now position col }
    {
        self.grid.at(position as usize, col as usize)
    }

    /// The basic column of a position.
    pub fn basic(&self, position: u32) -> u32
        requires { position < self.now.rows }
        ensures value { result ≡ basic_at self.now position }
        ensures inside { result < all_columns self.now }
    {
        self.basic[position as usize]
    }

    /// The value of a column.
    pub fn value(&self, col: u32) -> Frac
        requires { col < all_columns self.now }
        ensures { result ≡ value_at self.now col }
    {
        self.value[col as usize]
    }

    /// The reduced cost of a column.
    pub fn reduced(&self, col: u32) -> Frac
        requires { col < all_columns self.now }
        ensures { result ≡ reduced_at self.now col }
    {
        self.reduced[col as usize]
    }

    /// The status of a column.
    pub fn status(&self, col: u32) -> Status
        requires { col < all_columns self.now }
        ensures { result ≡ status_at self.now col }
    {
        self.status[col as usize]
    }

    /// The lower bound of a column, if it has one.
    pub fn lower(&self, col: u32) -> Option<Frac>
        requires { col < all_columns self.now }
        ensures { result ≡ lower_at self.now col }
    {
        self.lower[col as usize]
    }

    /// The upper bound of a column, if it has one.
    pub fn upper(&self, col: u32) -> Option<Frac>
        requires { col < all_columns self.now }
        ensures { result ≡ upper_at self.now col }
    {
        self.upper[col as usize]
    }
}
