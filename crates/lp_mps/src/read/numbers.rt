// The numbers that cards give rows: those of a column, right sides and ranges.
ghost use Rattle.std.specs.Prelude.{◌≡◌, OnOk};
ghost use Rattle.spec_mps.specs.Fields.{texts_of};
ghost use Rattle.spec_mps.specs.Reader as reader;
ghost use Rattle.lp_mps.specs.Answer.{GivesState};
ghost use Rattle.lp_mps.specs.Draft.{state_of};
ghost use Rattle.lp_mps.specs.Numbers as numbers;

use crate::card::Field;
use crate::read::draft::{Draft, number_in};
use crate::read::fault::Fault;
use lp_frac::{Frac, neg};
use spec_mps::{Code, Section, Target};
use std::alloc::AllocError;

/// What the numbers of a section are.
#[derive(Clone, Copy)]
pub(crate) enum Numbers {
    Entries,
    Sides,
    Ranges,
}

impl Numbers {
    /// The section whose cards give these numbers.
    pub(crate) fn section(self) -> Section
        ensures { result ≡ numbers.section_of self }
    {
        match self {
            Numbers::Entries => Section::Columns,
            Numbers::Sides => Section::RightSides,
            Numbers::Ranges => Section::Ranges,
        }
    }
}

impl Draft {
    /// Reads pairs of a name, of a row or the objective, and a number, and gives each its number: an entry, a right
    /// side or a range, as `what` says. A range of a free row is left out. A wrong name or number is a fault.
    pub(crate) fn pairs(&mut self, what: Numbers, fields: &[Field]) -> Result<(), Fault>
        ensures { GivesState (numbers.pairs_by what (state_of self.old) (reader.pairs_of (texts_of fields.now)))
            (state_of self.new) result }
    {
        let mut fields = fields;
        while let [row, value, more @ ..] = fields {
            self.pair(what, row.text(), value.text())?;
            fields = more;
        }
        Ok(())
    }

    // What gets the number: the row or the objective that was named. None for the range of a free row. A range for the
    // objective is a fault.
    fn target_of(&self, what: Numbers, target: Target) -> Result<Option<Target>, Code>
        ensures { result ≡ numbers.target_of what (state_of self.now) target }
    {
        match (what, target) {
            (Numbers::Ranges, Target::Objective) => Err(Code::RangeOnObjective),
            (Numbers::Ranges, Target::Row(row)) if self.rows.is_free(row) => Ok(None),
            _ => Ok(Some(target)),
        }
    }

    // Reads the name of a row or the objective, and a number, which it gets as an entry, a right side or a range, as
    // `what` says. A range of a free row is left out. A wrong name or number is a fault.
    fn pair(&mut self, what: Numbers, name: &[u8], text: &[u8]) -> Result<(), Fault>
        ensures { GivesState (numbers.pair_by what (state_of self.old) name.now text.now) (state_of self.new) result }
    {
        let Some(named) = self.place_of(name) else {
            return Err(Fault::Code(Code::UnknownRow));
        };
        let target = self.target_of(what, named)?;
        let value = number_in(text)?;
        match target {
            None => Ok(()),
            Some(target) => self.put(what, target, value),
        }
    }

    // Gives a row or the objective a number. A second one in this column or section is a fault.
    fn put(&mut self, what: Numbers, target: Target, value: Frac) -> Result<(), Fault>
        ensures { GivesState (numbers.put_by what (state_of self.old) target value) (state_of self.new) result }
    {
        if !self.paired.insert(target)? {
            return Err(Fault::Code(Code::EntryRepeated));
        }
        self.give(what, target, value)?;
        Ok(())
    }

    // Gives a row or the objective this number: as an entry of the current column (or its cost), a right side or a
    // range, which the objective does not get. The objective's right side is the negative of its offset.
    fn give(&mut self, what: Numbers, target: Target, value: Frac) -> Result<(), AllocError>
        ensures { OnOk result (state_of self.new ≡ numbers.with_by what (state_of self.old) target value) }
    {
        match (what, target) {
            (Numbers::Entries, _) => return self.columns.put_number(target, value),
            (Numbers::Sides, Target::Objective) => self.offset = neg(value),
            (Numbers::Sides, Target::Row(row)) => self.rows.set_rhs(row, value),
            (Numbers::Ranges, Target::Objective) => {}
            (Numbers::Ranges, Target::Row(row)) => self.rows.set_range(row, value),
        }
        Ok(())
    }
}
