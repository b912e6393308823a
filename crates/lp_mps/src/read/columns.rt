// The cards of COLUMNS.
ghost use Rattle.std.specs.Prelude.{◌≡◌, ◌∷◌, ◌++◌, [], Bool, false, None, Some, OnOk};
ghost use Rattle.std.specs.List.{list_any};
ghost use Rattle.spec_text.specs.Words.{same};
ghost use Rattle.spec_mps.specs.Fields.{texts_of};
ghost use Rattle.spec_mps.specs.Reader as reader;
ghost use Rattle.lp_mps.specs.Answer.{GivesState};
ghost use Rattle.lp_mps.specs.Draft.{state_of};

use crate::card::{Field, Fields};
use crate::read::draft::Draft;
use crate::read::fault::Fault;
use crate::read::numbers::Numbers;
use crate::read::shapes::has_shape;
use lp_base::are_same;
use lp_model::is_name;
use spec_model::SizeLimits;
use spec_mps::{Code, Section, Style};
use std::alloc::{AllocError, Global};

// The number of the field that says 'MARKER' on a card that marks integer columns.
fn marker_field(style: Style) -> u32
    ensures { result ≡ reader.marker_field style }
{
    match style {
        Style::Free => 2,
        Style::Fixed => 3,
    }
}

impl Draft {
    /// Reads a data card of COLUMNS: gives the column that it names its numbers, and begins that column if it is new. A
    /// card that marks integer columns, or has a wrong shape, name or number, is a fault.
    #[tactic(auto, unfolding(spec_mps::specs::Reader::columns_card, spec_mps::specs::Shapes::shaped))]
    pub(crate) fn columns_card(
        &mut self,
        alloc: Global,
        limits: SizeLimits,
        style: Style,
        fields: &Fields,
    ) -> Result<(), Fault>
        ensures { GivesState (reader.columns_card limits style (state_of self.old) fields.now) (state_of self.new)
            result }
    {
        if are_same(fields.text_at(marker_field(style)), b"'MARKER'") {
            return Err(Fault::Code(Code::Integer));
        }
        if !has_shape(style, Section::Columns, fields.as_slice()) {
            return Err(Fault::Code(Code::CardShape));
        }
        self.column_by(alloc, limits, fields.as_slice())
    }

    // Reads a column's name and then pairs of a name, of a row or the objective, and a number, and gives the column
    // these numbers. A wrong name or number is a fault.
    fn column_by(
        &mut self,
        alloc: Global,
        limits: SizeLimits,
        fields: &[Field],
    ) -> Result<(), Fault>
        ensures { GivesState (reader.column_by limits (state_of self.old) (texts_of fields.now)) (state_of self.new)
            result }
    {
        let Some((name, pairs)) = fields.split_first() else {
            return Err(Fault::Code(Code::CardShape));
        };
        if !is_name(name.text()) {
            return Err(Fault::Code(Code::Name));
        }
        self.open(alloc, limits, name.text())?;
        self.pairs(Numbers::Entries, pairs)
    }

    // Makes the column with this name current. Where it is a new one, the one before becomes whole. The name of a
    // column before that, or one column too many, is a fault.
    #[tactic(auto, unfolding(spec_mps::specs::Reader::opened))]
    fn open(&mut self, alloc: Global, limits: SizeLimits, name: &[u8]) -> Result<(), Fault>
        ensures { GivesState (reader.opened limits (state_of self.old) name.now) (state_of self.new) result }
    {
        if self.columns.is_open(name) {
            return Ok(());
        }
        self.columns.close()?;
        if self.columns.has(name) {
            return Err(Fault::Code(Code::ColumnTaken));
        }
        if self.columns.len() >= limits.columns as usize {
            return Err(Fault::Code(Code::Limit));
        }
        self.begin_column(alloc, name)?;
        Ok(())
    }

    // Makes a new column with this name current, none of whose rows has a number yet.
    fn begin_column(&mut self, alloc: Global, name: &[u8]) -> Result<(), AllocError>
        requires closed { (state_of self.old).column ≡ None }
        requires new { list_any (λ c. same c.name name.now) (state_of self.old).columns ≡ false }
        ensures { OnOk result (state_of self.new ≡ record (state_of self.old) {
          column = Some (reader.new_column name.now);
          lowered = (state_of self.old).lowered ++ false ∷ [];
          paired = [];
        }) }
    {
        self.paired.clear();
        self.lowered.push(false)?;
        self.columns.begin(alloc, name)
    }
}
