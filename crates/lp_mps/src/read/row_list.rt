// The rows that were read.
ghost use Rattle.std.specs.Prelude.{◌≡◌, ◌≢◌, ◌<◌, ◌+◌, ◌^◌, [], ◌∷◌, ◌++◌, All, length, get_or, Some, None, IfOk};
ghost use Rattle.std.specs.Prelude.{OnOk};
ghost use Rattle.std.specs.List.{position};
ghost use Rattle.spec_text.specs.Words.{same};
ghost use Rattle.spec_model.specs.Model.{no_row, is_free as has_no_limits};
ghost use Rattle.spec_mps.specs.Reader.{new_row};
ghost use Rattle.spec_mps.specs.Sides.{changed_at};

use lp_base::Name;
use lp_frac::{Frac, zero};
use lp_model::{Kind, NameIndex, Row, is_free};
use std::alloc::{AllocError, Global};
use std::marker::Model;

/// A row with the right side 0 and no range.
pub(crate) fn make_row(alloc: Global, kind: Kind, name: &[u8]) -> Result<Row, AllocError>
    ensures { IfOk result (λ row. row ≡ new_row kind name.now) }
{
    let name = Name::from_slice(alloc, name)?;
    Ok(Row {
        name,
        kind,
        rhs: zero(),
        range: None,
    })
}

/// Rows with distinct names, fewer than 2^32.
#[derive(Drop)]
pub(crate) struct Rows {
    items: Vec<Row>,
    /// Their names, by which they are found.
    names: NameIndex,
}

impl Model for Rows {
    ghost use Rattle.std.specs.Prelude.{List};
    ghost use Rattle.spec_model.specs.Model.{ExactRow};
    ghost use Rattle.lp_mps.specs.Named.{AreRows};

    ghost Value = { List ExactRow };

    ghost view = { λ r. r.items.items };

    ghost invariant = { λ r. AreRows r.items.items r.names };
}

impl Rows {
    /// A list that has no rows yet.
    pub(crate) fn new(alloc: Global) -> Self
        ensures { result ≡ [] }
    {
        Rows {
            items: Vec::new(alloc),
            names: NameIndex::new(alloc),
        }
    }

    /// How many rows there are.
    pub(crate) fn len(&self) -> usize
        ensures { result ≡ length self.now }
    {
        self.items.len()
    }

    /// Adds a row at the end.
    pub(crate) fn push(&mut self, row: Row) -> Result<(), AllocError>
        requires few { length self.old + 1 < 2 ^ 32 }
        requires new { All (λ r. r.name ≢ row.name) self.old }
        ensures { OnOk result (self.new ≡ self.old ++ row ∷ []) }
    {
        // Where there is room for the row, only its name can fail.
        self.items.reserve(1)?;
        self.names.push(row.name.as_slice())?;
        self.items.push_reserved(row);
        Ok(())
    }

    /// The place of the row with this name, counted from 0; none if no row has it.
    pub(crate) fn place_of(&self, name: &[u8]) -> Option<u32>
        ensures { result ≡ position (λ r. same r.name name.now) self.now }
    {
        match self.names.place_of(name) {
            Some(i) => Some(i as u32),
            None => None,
        }
    }

    /// Whether the row at a place is free; false past the end.
    pub(crate) fn is_free(&self, at: u32) -> bool
        ensures { result ≡ has_no_limits (get_or self.now at no_row).kind }
    {
        match self.items.get(at as usize) {
            Some(row) => is_free(row.kind),
            None => false,
        }
    }

    /// Gives the row at a place this right side. Past the end nothing changes.
    pub(crate) fn set_rhs(&mut self, at: u32, value: Frac)
        ensures { self.new ≡ changed_at at (λ r. record r { rhs = value }) self.old }
    {
        set_rhs_in(&mut self.items, at as usize, value);
    }

    /// Gives the row at a place this range. Past the end nothing changes.
    pub(crate) fn set_range(&mut self, at: u32, value: Frac)
        ensures { self.new ≡ changed_at at (λ r. record r { range = Some value }) self.old }
    {
        set_range_in(&mut self.items, at as usize, value);
    }

    /// The rows, without the names beside them.
    pub(crate) fn into_vec(self) -> Vec<Row>
        ensures { result.items ≡ self }
    {
        self.items
    }
}

// Gives the row at a place this right side. Past the end nothing changes.
fn set_rhs_in(rows: &mut [Row], at: usize, value: Frac)
    ensures { rows.new ≡ changed_at at (λ r. record r { rhs = value }) rows.old }
{
    if at < rows.len() {
        rows[at].rhs = value;
    }
}

// Gives the row at a place this range. Past the end nothing changes.
fn set_range_in(rows: &mut [Row], at: usize, value: Frac)
    ensures { rows.new ≡ changed_at at (λ r. record r { range = Some value }) rows.old }
{
    if at < rows.len() {
        rows[at].range = Some(value);
    }
}
