// The columns that were read.
ghost use Rattle.std.specs.Prelude.{◌≡◌, [], false, Some, None, length, map, option_map, OnOk};
ghost use Rattle.std.specs.List.{list_any, position};
ghost use Rattle.spec_text.specs.Words.{same};
ghost use Rattle.spec_mps.specs.Bounds.{bounded};
ghost use Rattle.spec_mps.specs.Reader.{columns_with, new_column, is_open, with_number};
ghost use Rattle.spec_mps.specs.Sides.{changed_at};
ghost use Rattle.lp_mps.specs.BoundSeen.{bound_seen};
ghost use Rattle.lp_mps.specs.InOrder.{ordered};

use crate::read::bound_card::{BoundCard, bound_at};
use crate::read::column::{make_column, put_number, sort_entries};
use lp_base::{Name, are_same};
use lp_frac::Frac;
use lp_model::{Column, NameIndex};
use spec_mps::Target;
use std::alloc::{AllocError, Global};
use std::marker::Model;

/// Columns with distinct names.
#[derive(Drop)]
pub(crate) struct Columns {
    /// Those that are whole.
    whole: Vec<Column>,
    /// The one that cards are read of. Its entries stand as the cards gave them, and are sorted once it is whole.
    current: Option<Column>,
    /// The names of all of them, by which they are found.
    names: NameIndex,
}

impl Model for Columns {
    ghost use Rattle.std.specs.Prelude.{option_map};
    ghost use Rattle.lp_mps.specs.InOrder.{ordered};
    ghost use Rattle.lp_mps.specs.Named.{ColumnsRead, AreColumns};

    ghost Value = { ColumnsRead };

    ghost view = { λ c. record { whole = c.whole.items; current = option_map ordered c.current } };

    ghost invariant = { λ c. AreColumns (record {
      whole = c.whole.items;
      current = option_map ordered c.current;
    }) c.names };
}

impl Columns {
    /// A list that has no columns yet.
    pub(crate) fn new(alloc: Global) -> Self
        ensures { result ≡ record { whole = []; current = None } }
    {
        Columns {
            whole: Vec::new(alloc),
            current: None,
            names: NameIndex::new(alloc),
        }
    }

    /// How many columns there are, with the one that cards are read of.
    pub(crate) fn len(&self) -> usize
        ensures { result ≡ length (columns_with self.now.whole self.now.current) }
    {
        self.names.len()
    }

    /// Whether the current column, of which cards are read, has this name.
    pub(crate) fn is_open(&self, name: &[u8]) -> bool
        ensures { result ≡ is_open self.now.current name.now }
    {
        match &self.current {
            Some(column) => are_same(column.name.as_slice(), name),
            None => false,
        }
    }

    /// Whether a column has this name, the current one or one before.
    pub(crate) fn has(&self, name: &[u8]) -> bool
        ensures { result ≡ list_any (λ c. same c.name name.now) (columns_with self.now.whole self.now.current) }
    {
        self.names.has(name)
    }

    /// The place of the column with this name, among those whose cards are all read; none if no such column has it.
    pub(crate) fn place_of(&self, name: &[u8]) -> Option<usize>
        ensures { result ≡ position (λ c. same c.name name.now) self.now.whole }
    {
        match self.names.place_of(name) {
            Some(place) if place < self.whole.len() => Some(place),
            _ => None,
        }
    }

    /// Makes the current column whole, with its entries sorted, so that no more cards are read of it. Without a current
    /// column nothing changes.
    pub(crate) fn close(&mut self) -> Result<(), AllocError>
        ensures { OnOk result
            (self.new ≡ record { whole = columns_with self.old.whole self.old.current; current = None }) }
    {
        // Where there is room for the column and its entries are sorted, nothing more can fail.
        self.whole.reserve(1)?;
        sort_current(*self.whole.allocator(), &mut self.current)?;
        if let Some(column) = self.current.take() {
            self.whole.push_reserved(column);
        }
        Ok(())
    }

    /// Makes a new column without numbers current, so that cards are read of it.
    pub(crate) fn begin(&mut self, alloc: Global, name: &[u8]) -> Result<(), AllocError>
        requires closed { self.old.current ≡ None }
        requires new { list_any (λ c. same c.name name.now) self.old.whole ≡ false }
        ensures { OnOk result (self.new ≡ record { whole = self.old.whole; current = Some (new_column name.now) }) }
    {
        let own = Name::from_slice(alloc, name)?;
        self.names.push(name)?;
        drop(self.current.replace(make_column(alloc, own)));
        Ok(())
    }

    /// Gives the current column a number, in a row or as its cost. Without a current column nothing changes.
    pub(crate) fn put_number(&mut self, target: Target, value: Frac) -> Result<(), AllocError>
        ensures { OnOk result
            (self.new ≡ record (self.old) { current = option_map (λ c. with_number c target value) self.old.current }) }
    {
        let Some(column) = &mut self.current else {
            return Ok(());
        };
        put_number(column, target, value)
    }

    /// Sets the bounds of a column as a card of BOUNDS gives them; `lowered` says whether an earlier card has set its
    /// lower bound. The place is the column's number among those whose cards of COLUMNS are all read. A place past the
    /// end changes nothing.
    pub(crate) fn bound_at(&mut self, place: usize, lowered: bool, card: &BoundCard)
        ensures { self.new ≡ record (self.old)
            { whole = changed_at place (bounded lowered (bound_seen card.now)) self.old.whole } }
    {
        bound_at(&mut self.whole, place, lowered, card);
    }

    /// The columns whose cards are all read. The current one is dropped.
    pub(crate) fn into_vec(self) -> Vec<Column>
        ensures { result.items ≡ self.whole }
    {
        let Columns {
            whole,
            current,
            names,
        } = self;
        drop(current);
        drop(names);
        whole
    }
}

// Sorts the entries of the current column by their rows, if there is one.
fn sort_current(alloc: Global, current: &mut Option<Column>) -> Result<(), AllocError>
    ensures ok { OnOk result (current.new ≡ option_map ordered current.old) }
    ensures named { map (λ c. c.name) (columns_with [] current.new) ≡ map (λ c. c.name) (columns_with [] current.old) }
{
    match current {
        Some(column) => sort_entries(alloc, &mut column.entries),
        None => Ok(()),
    }
}
