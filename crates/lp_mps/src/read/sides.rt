// The cards of RHS and RANGES.
ghost use Rattle.lp_mps.specs.Answer.{GivesState};
ghost use Rattle.lp_mps.specs.Draft.{state_of};
ghost use Rattle.lp_mps.specs.Numbers as numbers;

use crate::card::Fields;
use crate::read::draft::Draft;
use crate::read::fault::Fault;
use crate::read::numbers::Numbers;
use crate::read::sets::{SetAndPairs, is_used};
use crate::read::shapes::has_shape;
use spec_mps::{Code, Style};
use std::alloc::Global;

impl Draft {
    /// Reads a data card of RHS or RANGES: gives the rows that it names their numbers, but a free row no range. A card
    /// of another set than the one in use is left out. A wrong shape, name or number is a fault.
    #[tactic(auto, unfolding(spec_mps::specs::Shapes::shaped))]
    pub(crate) fn set_card(
        &mut self,
        alloc: Global,
        what: Numbers,
        style: Style,
        fields: &Fields,
    ) -> Result<(), Fault>
        ensures { GivesState (numbers.set_card what style (state_of self.old) fields.now)
            (state_of self.new) result }
    {
        if !has_shape(style, what.section(), fields.as_slice()) {
            return Err(Fault::Code(Code::CardShape));
        }
        let card = SetAndPairs::new(fields.as_slice());
        if !is_used(&self.set, card.set) {
            return Ok(());
        }
        self.use_set(alloc, card.set)?;
        self.pairs(what, card.pairs)
    }
}
