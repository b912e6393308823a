// States of the run over factors, and their readers.
ghost use Rattle.std.specs.Prelude.{◌≡◌, ◌<◌, ◌≤◌, length};
ghost use Rattle.spec_exact.specs.Fraction.{◌*ℚ◌};
ghost use Rattle.spec_simplex.specs.Tableau.{all_columns, form_columns as form_columns_of, basic_at, value_at};
ghost use Rattle.spec_simplex.specs.Tableau.{status_at, lower_at, upper_at};
ghost use Rattle.spec_factor.specs.Revised.{sign_of};

use crate::factors::Factors;
use lp_form::Status;
use lp_frac::{Frac, neg};
use std::marker::Model;

// How a row began, which fixes the sign of its artificial column.
pub(crate) type RowStart = spec_simplex::RowStart<Frac>;

// A state of the run: for each position its basic column, for each column its value, its status and
// its bounds, and factors of the basic columns.
//
// The columns are the structural ones, then the logical and then the artificial ones of the rows. The factors hold an
// artificial as its row's logical.
#[derive(Drop)]
pub(crate) struct Revised {
    pub(crate) rows: u32,
    pub(crate) cols: u32,
    pub(crate) basic: Vec<u32>,
    pub(crate) value: Vec<Frac>,
    pub(crate) status: Vec<Status>,
    pub(crate) lower: Vec<Option<Frac>>,
    pub(crate) upper: Vec<Option<Frac>>,
    pub(crate) factors: Factors,
    pub(crate) replaced: u32,
}

impl Model for Revised {
    ghost use Rattle.std.specs.Prelude.{length};
    ghost use Rattle.spec_factor.specs.Revised as states;
    ghost use Rattle.lp_revised.specs.State.{IsState, state_of};

    ghost Value = { states.Revised };

    ghost view = { λ s. state_of s.rows s.cols s.basic.items s.value.items s.status.items s.lower.items s.upper.items
        s.factors.pairs s.replaced };

    ghost invariant = { λ s. IsState (length s.factors.basic) (state_of s.rows s.cols s.basic.items s.value.items
        s.status.items s.lower.items s.upper.items s.factors.pairs s.replaced) };
}

impl Revised {
    // How many positions there are, one for each row.
    pub(crate) fn rows(&self) -> u32
        ensures value { result ≡ self.now.bare.rows }
        ensures bound { result ≤ 256 }
    {
        self.rows
    }

    // How many columns the form has, structural and logical.
    pub(crate) fn form_columns(&self) -> u32
        ensures value { result ≡ form_columns_of self.now.bare }
        ensures bound { result ≤ 768 }
    {
        self.cols + self.rows
    }

    // How many columns there are with the artificial ones.
    pub(crate) fn width(&self) -> u32
        ensures value { result ≡ all_columns self.now.bare }
        ensures bound { result ≤ 1024 }
    {
        self.cols + 2 * self.rows
    }

    // The basic column of a position.
    pub(crate) fn basic(&self, place: u32) -> u32
        requires { place < self.now.bare.rows }
        ensures value { result ≡ basic_at self.now.bare place }
        ensures inside { result < all_columns self.now.bare }
    {
        self.basic[place as usize]
    }

    // The value of a column.
    pub(crate) fn value(&self, col: u32) -> Frac
        requires { col < all_columns self.now.bare }
        ensures { result ≡ value_at self.now.bare col }
    {
        self.value[col as usize]
    }

    // The status of a column: basic, or at which bound it is.
    pub(crate) fn status(&self, col: u32) -> Status
        requires { col < all_columns self.now.bare }
        ensures { result ≡ status_at self.now.bare col }
    {
        self.status[col as usize]
    }

    // The lower bound of a column, if it has one.
    pub(crate) fn lower(&self, col: u32) -> Option<Frac>
        requires { col < all_columns self.now.bare }
        ensures { result ≡ lower_at self.now.bare col }
    {
        self.lower[col as usize]
    }

    // The upper bound of a column, if it has one.
    pub(crate) fn upper(&self, col: u32) -> Option<Frac>
        requires { col < all_columns self.now.bare }
        ensures { result ≡ upper_at self.now.bare col }
    {
        self.upper[col as usize]
    }

    // `v` times the sign of a column, which is -1 for the artificial of a row that began too low, and else 1.
    pub(crate) fn signed(&self, starts: &[RowStart], col: u32, v: Frac) -> Frac
        requires all { length starts.now ≡ self.now.bare.rows }
        requires column { col < all_columns self.now.bare }
        ensures { result ≡ sign_of starts.now self.now.bare col *ℚ v }
    {
        let first = self.form_columns();
        if col < first {
            return v;
        }
        let start = starts[(col - first) as usize];
        match start {
            RowStart::Below(_) => neg(v),
            RowStart::Within(_) | RowStart::Above(_) => v,
        }
    }
}
