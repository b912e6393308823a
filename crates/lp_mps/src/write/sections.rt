// The sections of a text.
ghost use Rattle.std.specs.Prelude.{◌≡◌, ◌<◌, [], ◌∷◌, All, IfOk, map};
ghost use Rattle.std.specs.List.{flat_map, list_any};
ghost use Rattle.spec_model.specs.Model.{row, column, width, height};
ghost use Rattle.spec_mps.specs.NumberWritten as number_written;
ghost use Rattle.spec_mps.specs.Written as written;
ghost use Rattle.lp_mps.specs.Adds.{Adds};
ghost use Rattle.lp_mps.specs.RowNumbers.{number_cards};

use crate::write::line::Writer;
use crate::write::signs::{is_up_from_zero, is_zero};
use crate::write::stop::WriteStop;
use lp_base::Bytes;
use lp_frac::{Frac, are_same, neg};
use lp_model::{Kind, Model, Row};
use lp_numtext::number_text;
use std::alloc::{AllocError, Global};

/// A number that a row has besides its entries.
#[derive(Clone, Copy)]
pub(crate) enum RowNumber {
    Side,
    Range,
}

/// The letter of a kind of row.
fn kind_word(kind: Kind) -> &'static [u8]
    ensures { result.now ≡ written.kind_word kind }
{
    match kind {
        Kind::L => b"L",
        Kind::G => b"G",
        Kind::E => b"E",
        Kind::N => b"N",
    }
}

impl Writer {
    // Adds a card of ROWS: the word of the row's kind and the row's name.
    fn type_card(&self, word: &[u8], name: &[u8], to: &mut Bytes) -> Result<(), WriteStop>
        ensures { Adds self.now.style (written.type_card word.now name.now ∷ []) to.old to.new result }
    {
        self.data(&[(1, word), (2, name)], to)
    }

    // Adds a card that gives a row or the objective, by its name, a number. `group` is a column's name, or a set's.
    fn number_card(
        &self,
        group: &[u8],
        name: &[u8],
        value: &Frac,
        to: &mut Bytes,
    ) -> Result<(), WriteStop>
        ensures { Adds self.now.style (written.number_card group.now name.now value.now ∷ []) to.old to.new result }
    {
        let text = number_text(self.alloc, *value)?;
        self.data(&[(2, group), (3, name), (4, text.as_slice())], to)
    }

    // Adds a card of BOUNDS without a value: its kind, the set `BND` and the column's name.
    fn unbound_card<'a>(
        &self,
        kind: &'a [u8],
        name: &'a [u8],
        to: &mut Bytes,
    ) -> Result<(), WriteStop>
        ensures { Adds self.now.style (written.unbound_card kind.now name.now ∷ []) to.old to.new result }
    {
        self.data(&[(1, kind), (2, b"BND"), (3, name)], to)
    }

    // Adds a card of BOUNDS with a value: its kind, the set `BND`, the column's name and the value.
    fn bound_card(
        &self,
        kind: &[u8],
        name: &[u8],
        value: &Frac,
        to: &mut Bytes,
    ) -> Result<(), WriteStop>
        ensures { Adds self.now.style (written.bound_card kind.now name.now value.now ∷ []) to.old to.new result }
    {
        let text = number_text(self.alloc, *value)?;
        self.data(
            &[(1, kind), (2, b"BND"), (3, name), (4, text.as_slice())],
            to,
        )
    }

    /// Adds `ROWS`: the objective and the rows.
    pub fn rows(&self, model: &Model, to: &mut Bytes) -> Result<(), WriteStop>
        ensures { Adds self.now.style (written.rows_cards model.now) to.old to.new result }
    {
        self.section(b"ROWS", to)?;
        self.type_card(b"N", model.objective().as_slice(), to)?;
        self.row_cards(model, to)
    }

    // Adds the cards of all rows, each with the row's kind and its name.
    fn row_cards(&self, model: &Model, to: &mut Bytes) -> Result<(), WriteStop>
        ensures { Adds self.now.style (map written.row_card model.now.rows) to.old to.new result }
    {
        for i in 0..model.rows() {
            let row = model.row(i);
            self.type_card(kind_word(row.kind), row.name.as_slice(), to)?;
        }
        Ok(())
    }

    /// Adds `COLUMNS`: each column's cost and its entries.
    pub fn columns(&self, model: &Model, to: &mut Bytes) -> Result<(), WriteStop>
        ensures { Adds self.now.style (written.columns_cards model.now) to.old to.new result }
    {
        self.section(b"COLUMNS", to)?;
        self.column_cards(model, to)
    }

    // Adds the cards of all columns.
    fn column_cards(&self, model: &Model, to: &mut Bytes) -> Result<(), WriteStop>
        ensures { Adds self.now.style
            (flat_map (written.column_cards model.now) model.now.columns) to.old to.new result }
    {
        for j in 0..model.cols() {
            self.column(model, j, to)?;
        }
        Ok(())
    }

    // Adds the cards of column `j`: its cost, and its entries.
    fn column(&self, model: &Model, j: u32, to: &mut Bytes) -> Result<(), WriteStop>
        requires { j < width model.now }
        ensures { Adds self.now.style (written.column_cards model.now (column model.now j)) to.old to.new result }
    {
        let column = model.col(j);
        let name = column.name.as_slice();
        self.number_card(name, model.objective().as_slice(), &column.cost, to)?;
        self.entries(model, name, model.entries(j), to)
    }

    // Adds a card for each entry of the column with this name.
    fn entries(
        &self,
        model: &Model,
        name: &[u8],
        entries: &[(u32, Frac)],
        to: &mut Bytes,
    ) -> Result<(), WriteStop>
        requires { All (λ e. e.0 < height model.now) entries.now }
        ensures { Adds self.now.style
            (map (λ e. written.number_card name.now (row model.now e.0).name e.1) entries.now) to.old to.new result }
    {
        for (i, value) in entries {
            self.number_card(name, model.row(*i).name.as_slice(), value, to)?;
        }
        Ok(())
    }

    /// Adds `RHS`: the right sides that are not 0. First stands that of the objective, the negative of its offset.
    pub fn sides(&self, model: &Model, to: &mut Bytes) -> Result<(), WriteStop>
        ensures { Adds self.now.style (written.sides_cards model.now) to.old to.new result }
    {
        self.section(b"RHS", to)?;
        self.side(model.objective().as_slice(), &neg(model.offset()), to)?;
        self.row_numbers(RowNumber::Side, model, to)
    }

    // Adds the right sides of all rows, but those that are 0, or the ranges of all rows that have one, as `which` says.
    fn row_numbers(&self, which: RowNumber, model: &Model, to: &mut Bytes) -> Result<(), WriteStop>
        ensures { Adds self.now.style (flat_map (λ r. number_cards which r) model.now.rows) to.old to.new result }
    {
        for i in 0..model.rows() {
            self.row_number(which, model.row(i), to)?;
        }
        Ok(())
    }

    // Adds the right side of a row, unless it is 0, or its range, if it has one, as `which` says.
    fn row_number(&self, which: RowNumber, row: &Row, to: &mut Bytes) -> Result<(), WriteStop>
        ensures { Adds self.now.style (number_cards which row.now) to.old to.new result }
    {
        match which {
            RowNumber::Side => self.side(row.name.as_slice(), &row.rhs, to),
            RowNumber::Range => self.range(row.name.as_slice(), row.range, to),
        }
    }

    // Adds the card of a right side of a row or the objective, unless it is 0.
    fn side(&self, name: &[u8], value: &Frac, to: &mut Bytes) -> Result<(), WriteStop>
        ensures { Adds self.now.style (written.side_cards name.now value.now) to.old to.new result }
    {
        if is_zero(*value) {
            return Ok(());
        }
        self.number_card(b"RHS", name, value, to)
    }

    /// Adds `RANGES`, if a row has a range.
    pub fn ranges(&self, model: &Model, to: &mut Bytes) -> Result<(), WriteStop>
        ensures { Adds self.now.style (written.ranges_cards model.now) to.old to.new result }
    {
        if !has_ranges(model) {
            return Ok(());
        }
        self.section(b"RANGES", to)?;
        self.row_numbers(RowNumber::Range, model, to)
    }

    // Adds the card of a row's range, if there is one.
    fn range(&self, name: &[u8], range: Option<Frac>, to: &mut Bytes) -> Result<(), WriteStop>
        ensures { Adds self.now.style (written.range_cards name.now range) to.old to.new result }
    {
        match range {
            None => Ok(()),
            Some(value) => self.number_card(b"RNG", name, &value, to),
        }
    }

    /// Adds `BOUNDS` with the bounds of all columns that have others than the lower bound 0 alone, if there is one.
    pub fn bounds(&self, model: &Model, to: &mut Bytes) -> Result<(), WriteStop>
        ensures { Adds self.now.style (written.bounds_cards model.now) to.old to.new result }
    {
        if !has_bounds(model) {
            return Ok(());
        }
        self.section(b"BOUNDS", to)?;
        self.column_bounds(model, to)
    }

    // Adds the cards for the bounds of all columns.
    fn column_bounds(&self, model: &Model, to: &mut Bytes) -> Result<(), WriteStop>
        ensures { Adds self.now.style
            (flat_map (λ c. written.bound_cards c.name c.lower c.upper) model.now.columns) to.old to.new result }
    {
        for j in 0..model.cols() {
            let column = model.col(j);
            self.bound_cards(column.name.as_slice(), column.lower, column.upper, to)?;
        }
        Ok(())
    }

    // Adds the cards for a column's bounds. The lower bound 0 without an upper one needs none.
    fn bound_cards(
        &self,
        name: &[u8],
        lower: Option<Frac>,
        upper: Option<Frac>,
        to: &mut Bytes,
    ) -> Result<(), WriteStop>
        ensures { Adds self.now.style (written.bound_cards name.now lower upper) to.old to.new result }
    {
        match lower {
            None => self.upper_cards(name, upper, to),
            Some(l) => match upper {
                None if is_zero(l) => Ok(()),
                None => self.bound_card(b"LO", name, &l, to),
                Some(u) => self.both_cards(name, l, u, to),
            },
        }
    }

    // Adds the cards for a column without a lower bound. Its upper bound may be absent.
    fn upper_cards(&self, name: &[u8], upper: Option<Frac>, to: &mut Bytes) -> Result<(), WriteStop>
        ensures { Adds self.now.style (written.bound_cards name.now None upper) to.old to.new result }
    {
        match upper {
            None => self.unbound_card(b"FR", name, to),
            Some(u) => {
                self.unbound_card(b"MI", name, to)?;
                self.bound_card(b"UP", name, &u, to)
            }
        }
    }

    // Adds the cards for a column with both bounds: one where they are equal, or the lower one is 0 and the upper one
    // above it.
    fn both_cards(
        &self,
        name: &[u8],
        lower: Frac,
        upper: Frac,
        to: &mut Bytes,
    ) -> Result<(), WriteStop>
        ensures { Adds self.now.style (written.bound_cards name.now (Some lower) (Some upper)) to.old to.new result }
    {
        if are_same(lower, upper) {
            return self.bound_card(b"FX", name, &lower, to);
        }
        if is_up_from_zero(lower, upper) {
            return self.bound_card(b"UP", name, &upper, to);
        }
        self.bound_card(b"LO", name, &lower, to)?;
        self.bound_card(b"UP", name, &upper, to)
    }
}

// Whether a row has a range.
fn has_ranges(model: &Model) -> bool
    ensures { result ≡ list_any written.has_range model.now.rows }
{
    for i in 0..model.rows() {
        if model.row(i).range.is_some() {
            return true;
        }
    }
    false
}

// Whether a column has other bounds than the lower bound 0 alone.
fn has_bounds(model: &Model) -> bool
    ensures { result ≡ list_any written.has_bounds model.now.columns }
{
    for j in 0..model.cols() {
        let column = model.col(j);
        if !is_usual(column.lower, column.upper) {
            return true;
        }
    }
    false
}

// Whether these bounds are the lower bound 0 alone.
fn is_usual(lower: Option<Frac>, upper: Option<Frac>) -> bool
    ensures { result ≡ written.is_usual lower upper }
{
    match (lower, upper) {
        (Some(l), None) => is_zero(l),
        _ => false,
    }
}
