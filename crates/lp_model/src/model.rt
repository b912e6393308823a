// Models and their readers.
ghost use Rattle.std.specs.Prelude.{◌≡◌, ◌<◌, ◌≤◌, IfSome};
ghost use Rattle.std.specs.List.{AllPairs};
ghost use Rattle.spec_model.specs.Model.{width, height, row, column, coefficient, entry_of};
ghost use Rattle.spec_model.specs.Kept.{AreEntries, IsModel, row_place, column_place};

use crate::entries::place_of;
use crate::indexed::{column_named, names_of_columns, names_of_rows, row_named};
use crate::name_index::NameIndex;
use lp_base::Name;
use lp_frac::{Entries, Frac, zero};
use spec_model::{Kind, Sense};

/// A row.
pub type Row = spec_model::Row<Name, Frac>;

/// A column: a variable with its cost, its bounds and its coefficients.
pub type Column = spec_model::Column<Name, Frac, Entries>;

/// A linear program. It has at most 65,536 rows and 131,072 columns. No two columns have one name, nor do two of the
/// rows and the objective.
pub struct Model {
    pub(crate) name: Name,
    pub(crate) sense: Sense,
    pub(crate) objective: Name,
    pub(crate) offset: Frac,
    pub(crate) rows: Vec<Row>,
    pub(crate) columns: Vec<Column>,
    /// The names of the rows, by which they are found; none where there was no memory for them, or a row was taken out.
    pub(crate) row_names: Option<NameIndex>,
    /// The names of the columns, as those of the rows.
    pub(crate) column_names: Option<NameIndex>,
}

impl std::marker::Model for Model {
    ghost use Rattle.spec_model.specs.Model as model;
    ghost use Rattle.lp_model.specs.Indexed.{IsIndexed};

    ghost Value = { model.Model };

    ghost view = { λ m. record {
      name = m.name;
      sense = m.sense;
      objective = m.objective;
      offset = m.offset;
      rows = m.rows.items;
      columns = m.columns.items;
    } };

    ghost invariant = { λ m. IsIndexed (record {
      name = m.name;
      sense = m.sense;
      objective = m.objective;
      offset = m.offset;
      rows = m.rows.items;
      columns = m.columns.items;
    }) m.row_names m.column_names };
}

impl Drop for Model {
    // Drops the rows, the columns and all names, and gives their memory back.
    fn drop(self) {
        let Model {
            name,
            sense: _,
            objective,
            offset: _,
            rows,
            columns,
            row_names,
            column_names,
        } = self;
        drop(name);
        drop(objective);
        drop(rows);
        drop(columns);
        drop(row_names);
        drop(column_names);
    }
}

impl Model {
    /// A model of these parts, which may be kept: the rows and columns in this order, and the names by which they are
    /// found.
    pub fn new(
        name: Name,
        sense: Sense,
        objective: Name,
        offset: Frac,
        rows: Vec<Row>,
        columns: Vec<Column>,
    ) -> Model
        requires { IsModel (record {
          name = name;
          sense = sense;
          objective = objective;
          offset = offset;
          rows = rows.items;
          columns = columns.items;
        }) }
        ensures { result ≡ record {
          name = name;
          sense = sense;
          objective = objective;
          offset = offset;
          rows = rows.items;
          columns = columns.items;
        } }
    {
        let row_names = names_of_rows(*rows.allocator(), &rows);
        let column_names = names_of_columns(*columns.allocator(), &columns);
        Model {
            name,
            sense,
            objective,
            offset,
            rows,
            columns,
            row_names,
            column_names,
        }
    }

    /// The model's name, which may be empty.
    pub fn name(&self) -> &Name
        ensures { result.now ≡ self.now.name }
    {
        &self.name
    }

    /// Whether the objective is to be made least or greatest.
    pub fn sense(&self) -> Sense
        ensures { result ≡ self.now.sense }
    {
        self.sense
    }

    /// The name of the model's objective.
    pub fn objective(&self) -> &Name
        ensures { result.now ≡ self.now.objective }
    {
        &self.objective
    }

    /// The value of the objective at the point 0.
    pub fn offset(&self) -> Frac
        ensures { result ≡ self.now.offset }
    {
        self.offset
    }

    /// How many rows there are.
    pub fn rows(&self) -> u32
        ensures value { result ≡ height self.now }
        ensures bound { result ≤ 65536 }
    {
        self.rows.len() as u32
    }

    /// How many columns there are.
    pub fn cols(&self) -> u32
        ensures value { result ≡ width self.now }
        ensures bound { result ≤ 131072 }
    {
        self.columns.len() as u32
    }

    /// The row at `i`, counted from 0.
    pub fn row(&self, i: u32) -> &Row
        requires { i < height self.now }
        ensures { result.now ≡ row self.now i }
    {
        &self.rows[i as usize]
    }

    /// The column at `j`, counted from 0.
    pub fn col(&self, j: u32) -> &Column
        requires { j < width self.now }
        ensures { result.now ≡ column self.now j }
    {
        &self.columns[j as usize]
    }

    /// The entries of column `j`, counted from 0, in the order of their rows.
    pub fn entries(&self, j: u32) -> &[(u32, Frac)]
        requires { j < width self.now }
        ensures value { result.now ≡ (column self.now j).entries }
        ensures kept { AreEntries (height self.now) result.now }
    {
        self.columns[j as usize].entries.as_slice()
    }

    /// The coefficient of column `j` in row `i`, 0 where there is no entry.
    pub fn entry(&self, i: u32, j: u32) -> Frac
        requires i_in_range { i < height self.now }
        requires j_in_range { j < width self.now }
        ensures { result ≡ coefficient self.now i j }
    {
        entry_at(self.entries(j), i)
    }

    /// The number of the row with this name, counted from 0; none if no row has it.
    #[tactic(auto, unfolding(spec_model::specs::Kept::row_place))]
    pub fn row_of(&self, name: &[u8]) -> Option<u32>
        ensures value { result ≡ row_place self.now name.now }
        ensures inside { IfSome result (λ i. i < height self.now) }
    {
        match row_named(&self.row_names, &self.rows, name) {
            Some(i) => Some(i as u32),
            None => None,
        }
    }

    /// The number of the column with this name, counted from 0; none if no column has it.
    #[tactic(auto, unfolding(spec_model::specs::Kept::column_place))]
    pub fn col_of(&self, name: &[u8]) -> Option<u32>
        ensures value { result ≡ column_place self.now name.now }
        ensures inside { IfSome result (λ j. j < width self.now) }
    {
        match column_named(&self.column_names, &self.columns, name) {
            Some(j) => Some(j as u32),
            None => None,
        }
    }
}

// The coefficient that a column's entries give row `i`; 0 where the row has no entry.
fn entry_at(entries: &[(u32, Frac)], i: u32) -> Frac
    requires { AllPairs (λ d e. d.0 < e.0) entries.now }
    ensures { result ≡ entry_of entries.now i }
{
    match place_of(entries, i) {
        Ok(place) => entries[place].1,
        Err(_) => zero(),
    }
}
