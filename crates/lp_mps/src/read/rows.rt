// The cards of ROWS.
ghost use Rattle.std.specs.Prelude.{◌≡◌, None};
ghost use Rattle.spec_mps.specs.Reader as reader;
ghost use Rattle.lp_mps.specs.Answer.{GivesState};
ghost use Rattle.lp_mps.specs.Draft.{state_of};
ghost use Rattle.lp_mps.specs.Parts.{put_row};

use crate::card::Fields;
use crate::read::draft::{Draft, set_name};
use crate::read::fault::Fault;
use crate::read::row_list::make_row;
use crate::read::shapes::has_shape;
use crate::read::words::row_type_of;
use lp_model::{Kind, is_free, is_row_name};
use spec_model::SizeLimits;
use spec_mps::{Code, Section, Style};
use std::alloc::Global;

impl Draft {
    /// Reads a data card of ROWS: adds its row, or takes it as the objective if it is the first free one. A wrong shape,
    /// an unknown kind, a name that is bad or taken, or one row too many is a fault.
    #[tactic(auto, unfolding(spec_mps::specs::Reader::rows_card, spec_mps::specs::Reader::add_row, spec_mps::specs::Shapes::shaped))]
    pub(crate) fn rows_card(
        &mut self,
        alloc: Global,
        limits: SizeLimits,
        style: Style,
        fields: &Fields,
    ) -> Result<(), Fault>
        ensures { GivesState (reader.rows_card limits style (state_of self.old) fields.now) (state_of self.new) result }
    {
        if !has_shape(style, Section::Rows, fields.as_slice()) {
            return Err(Fault::Code(Code::CardShape));
        }
        let Some(kind) = row_type_of(fields.text_at(1)) else {
            return Err(Fault::Code(Code::RowType));
        };
        let name = fields.text_at(2);
        if !is_row_name(name) {
            return Err(Fault::Code(Code::Name));
        }
        if self.place_of(name).is_some() {
            return Err(Fault::Code(Code::RowTaken));
        }
        self.put_row(alloc, limits, kind, name)
    }

    // Whether a row of this kind is the objective: it is free, and there is no objective yet.
    fn is_first(&self, kind: Kind) -> bool
        ensures { result ≡ reader.is_first (state_of self.now) kind }
    {
        match self.objective {
            None => is_free(kind),
            Some(_) => false,
        }
    }

    // Adds a row of this kind and name at the end, or takes it as the objective. One row too many is a fault.
    fn put_row(
        &mut self,
        alloc: Global,
        limits: SizeLimits,
        kind: Kind,
        name: &[u8],
    ) -> Result<(), Fault>
        requires { reader.place_of (state_of self.old) name.now ≡ None }
        ensures { GivesState (put_row limits (state_of self.old) kind name.now) (state_of self.new) result }
    {
        if self.is_first(kind) {
            set_name(&mut self.objective, alloc, name)?;
            return Ok(());
        }
        if self.rows.len() >= limits.rows as usize {
            return Err(Fault::Code(Code::Limit));
        }
        let row = make_row(alloc, kind, name)?;
        self.rows.push(row)?;
        Ok(())
    }
}
