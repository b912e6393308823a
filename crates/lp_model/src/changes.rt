// Changes of a model, by the numbers of its rows and columns. What a change does not name stays.
ghost use Rattle.std.specs.Prelude.{◌≡◌, ◌<◌, false, All, IsTrue, map, OnOk, OnErr};
ghost use Rattle.std.specs.List.{AllPairs};
ghost use Rattle.spec_exact.specs.Narrow.{IsNarrow};
ghost use Rattle.spec_model.specs.Model.{ExactColumn, width, height, row};
ghost use Rattle.spec_model.specs.Kept.{IsBound, IsKeptColumn, FitsKind, large_limits};
ghost use Rattle.spec_model.specs.Kept.{is_row_name};
ghost use Rattle.spec_edit.specs.Changes as changes;
ghost use Rattle.spec_edit.specs.Edited.{is_row_taken, is_column_taken};

use crate::entries::{put_entry, take_row_out};
use crate::indexed::with_name;
use crate::model::{Column, Model, Row};
use crate::narrow::{narrow_column, narrow_row};
use lp_frac::{Frac, narrow, narrow_if};
use spec_model::Sense;
use std::alloc::AllocError;

impl Model {
    /// Adds a row, whose name is new, at the end. Without memory the model stays as it was.
    pub fn push_row(&mut self, row: Row) -> Result<(), AllocError>
        requires few { height self.old < large_limits.rows }
        requires name { IsTrue (is_row_name row.name) }
        requires free { is_row_taken self.old row.name ≡ false }
        requires range { FitsKind row.kind row.range }
        ensures ok { OnOk result (self.new ≡ changes.with_row self.old row) }
        ensures err { OnErr result (self.new ≡ self.old) }
    {
        let names = with_name(self.row_names.take(), row.name.as_slice());
        self.rows.push(narrow_row(row))?;
        self.row_names = names;
        Ok(())
    }

    /// Adds a column, whose name is new, at the end. Without memory the model stays as it was.
    pub fn push_col(&mut self, column: Column) -> Result<(), AllocError>
        requires few { width self.old < large_limits.columns }
        requires kept { IsKeptColumn (height self.old) column }
        requires narrow { All (λ e. IsNarrow e.1) column.entries }
        requires free { is_column_taken self.old column.name ≡ false }
        ensures ok { OnOk result (self.new ≡ changes.with_column self.old column) }
        ensures err { OnErr result (self.new ≡ self.old) }
    {
        let names = with_name(self.column_names.take(), column.name.as_slice());
        self.columns.push(narrow_column(column))?;
        self.column_names = names;
        Ok(())
    }

    /// Makes `v` the coefficient of column `j` in row `i`. 0 takes the entry out. Without memory the model stays as it
    /// was.
    pub fn set_entry(&mut self, i: u32, j: u32, v: Frac) -> Result<(), AllocError>
        requires i_in_range { i < height self.old }
        requires j_in_range { j < width self.old }
        ensures ok { OnOk result (self.new ≡ changes.with_coefficient self.old i j v) }
        ensures err { OnErr result (self.new ≡ self.old) }
    {
        let column = &mut self.columns[j as usize];
        put_entry(&mut column.entries, i, v)
    }

    /// Takes row `i` out, with its coefficients in all columns. The numbers of the rows after it fall by one.
    pub fn remove_row(&mut self, i: u32)
        requires { i < height self.old }
        ensures { self.new ≡ changes.without_row self.old i }
    {
        self.rows.remove(i as usize);
        self.row_names = None;
        take_row_out_of(&mut self.columns, i);
    }

    /// Takes column `j` out. The numbers of the columns after it fall by one.
    pub fn remove_col(&mut self, j: u32)
        requires { j < width self.old }
        ensures { self.new ≡ changes.without_column self.old j }
    {
        self.columns.remove(j as usize);
        self.column_names = None;
    }

    /// Gives column `j` this cost.
    pub fn set_cost(&mut self, j: u32, v: Frac)
        requires { j < width self.old }
        ensures { self.new ≡ changes.with_cost self.old j v }
    {
        self.columns[j as usize].cost = narrow(v);
    }

    /// Gives column `j` these bounds, each of which may be absent.
    pub fn set_bounds(&mut self, j: u32, lower: Option<Frac>, upper: Option<Frac>)
        requires j_in_range { j < width self.old }
        requires lower { IsBound lower }
        requires upper { IsBound upper }
        ensures { self.new ≡ changes.with_bounds self.old j (record { lower = lower; upper = upper }) }
    {
        let column = &mut self.columns[j as usize];
        column.lower = narrow_if(lower);
        column.upper = narrow_if(upper);
    }

    /// Gives row `i` this right side.
    pub fn set_rhs(&mut self, i: u32, v: Frac)
        requires { i < height self.old }
        ensures { self.new ≡ changes.with_rhs self.old i v }
    {
        self.rows[i as usize].rhs = narrow(v);
    }

    /// Gives row `i` this range, or takes its range away if none is given. A free row has none.
    pub fn set_range(&mut self, i: u32, range: Option<Frac>)
        requires inside { i < height self.old }
        requires range { FitsKind (row self.old i).kind range }
        ensures { self.new ≡ changes.with_range self.old i range }
    {
        self.rows[i as usize].range = narrow_if(range);
    }

    /// Makes `v` the value of the objective at the point 0.
    pub fn set_offset(&mut self, v: Frac)
        ensures { self.new ≡ changes.with_offset self.old v }
    {
        self.offset = narrow(v);
    }

    /// Sets whether the objective is to be made least or greatest.
    pub fn set_sense(&mut self, sense: Sense)
        ensures { self.new ≡ changes.with_sense self.old sense }
    {
        self.sense = sense;
    }
}

// Takes the entry of row `i`, if there is one, out of each column. The numbers of all later rows fall by one in the
// entries.
fn take_row_out_of(columns: &mut [Column], i: u32)
    requires { All (λ c. AllPairs (λ d e. d.0 < e.0) c.entries) columns.old }
    ensures { columns.new ≡
        map (λ (c : ExactColumn). record c { entries = changes.without_entry i c.entries }) columns.old }
{
    for column in columns.iter_mut() {
        take_row_out(&mut column.entries, i);
    }
}
