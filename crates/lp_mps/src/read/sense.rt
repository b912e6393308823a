// The sense of the objective.
ghost use Rattle.spec_mps.specs.Steps as steps;
ghost use Rattle.lp_mps.specs.Answer.{GivesState};
ghost use Rattle.lp_mps.specs.Draft.{state_of};

use crate::card::Fields;
use crate::read::draft::Draft;
use crate::read::fault::Fault;
use crate::read::shapes::has_shape;
use crate::read::words::sense_of;
use spec_mps::{Code, Section, Style};

impl Draft {
    /// Stores the sense that the text says. Another text, or a second sense, is a fault.
    #[tactic(auto, unfolding(spec_mps::specs::Steps::take_sense))]
    pub(crate) fn take_sense(&mut self, text: &[u8]) -> Result<(), Fault>
        ensures { GivesState (steps.take_sense (state_of self.old) text.now) (state_of self.new) result }
    {
        let Some(sense) = sense_of(text) else {
            return Err(Fault::Code(Code::CardShape));
        };
        if self.sense.is_some() {
            return Err(Fault::Code(Code::CardShape));
        }
        self.sense = Some(sense);
        Ok(())
    }

    /// Reads a data card of OBJSENSE: stores the sense that it says. Another text, or a second sense, is a fault.
    #[tactic(auto, unfolding(spec_mps::specs::Steps::sense_card, spec_mps::specs::Shapes::shaped))]
    pub(crate) fn sense_card(&mut self, style: Style, fields: &Fields) -> Result<(), Fault>
        ensures { GivesState (steps.sense_card style (state_of self.old) fields.now) (state_of self.new) result }
    {
        if !has_shape(style, Section::Sense, fields.as_slice()) {
            return Err(Fault::Code(Code::CardShape));
        }
        self.take_sense(fields.text_at(1))
    }
}
