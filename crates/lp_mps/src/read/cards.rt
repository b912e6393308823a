// The cards of lines, by the section that they stand in.
ghost use Rattle.lp_mps.specs.CardAnswer as card;
ghost use Rattle.spec_mps.specs.Steps as steps;
ghost use Rattle.lp_mps.specs.Answer.{GivesState, Goes};
ghost use Rattle.lp_mps.specs.Draft.{state_of};

use crate::card::{Card, CardFault, Fields, fixed, free};
use crate::read::draft::Draft;
use crate::read::fault::{Fault, Went};
use crate::read::numbers::Numbers;
use lp_base::Line;
use spec_model::SizeLimits;
use spec_mps::{Code, Section, Style};
use std::alloc::Global;

// The card of a line, in the form of the text. Under OBJSENSE it is read by its words in both forms.
fn read_card(
    alloc: Global,
    style: Style,
    part: Option<Section>,
    bytes: &[u8],
) -> Result<Card, CardFault>
    ensures { card.GivesCard result (steps.reading_of style part bytes.now) }
{
    match (style, part) {
        (Style::Free, _) | (Style::Fixed, Some(Section::Sense)) => free(alloc, bytes),
        _ => fixed(alloc, bytes),
    }
}

impl Draft {
    // Reads a data card in the section that the text is in. A data card in no section, or under NAME, is a fault.
    fn data_card(
        &mut self,
        alloc: Global,
        limits: SizeLimits,
        style: Style,
        fields: &Fields,
    ) -> Result<(), Fault>
        ensures { GivesState (steps.data_card limits style (state_of self.old).part (state_of self.old) fields.now)
            (state_of self.new) result }
    {
        match self.part {
            None | Some(Section::Name | Section::End) => Err(Fault::Code(Code::CardShape)),
            Some(Section::Sense) => self.sense_card(style, fields),
            Some(Section::Rows) => self.rows_card(alloc, limits, style, fields),
            Some(Section::Columns) => self.columns_card(alloc, limits, style, fields),
            Some(Section::RightSides) => self.set_card(alloc, Numbers::Sides, style, fields),
            Some(Section::Ranges) => self.set_card(alloc, Numbers::Ranges, style, fields),
            Some(Section::Bounds) => self.bounds_card(alloc, style, fields),
        }
    }

    // Reads a card: begins a section, or reads a data card, or skips the line. Says whether the text goes on or is at
    // its end.
    fn on_card(
        &mut self,
        alloc: Global,
        limits: SizeLimits,
        style: Style,
        card: &Card,
    ) -> Result<Went, Fault>
        ensures { Goes (steps.on_card limits style (state_of self.old) card.now) (state_of self.new) result }
    {
        match card {
            Card::Skip => Ok(Went::On),
            Card::Section(fields) => self.section_card(alloc, fields),
            Card::Given(fields) => {
                self.data_card(alloc, limits, style, fields)?;
                Ok(Went::On)
            }
        }
    }

    /// Reads a line as a heading, a data card or a line to be skipped, and says whether the text goes on or is at its
    /// end. A line that is wrong or too long is a fault, and so is the end of the input, or of what may be read of it, in
    /// place of a line.
    #[tactic(auto, unfolding(spec_mps::specs::Steps::step))]
    pub(crate) fn step(
        &mut self,
        alloc: Global,
        limits: SizeLimits,
        style: Style,
        line: &Line,
    ) -> Result<Went, Fault>
        ensures { Goes (steps.step limits style (state_of self.old) line.now) (state_of self.new) result }
    {
        match line {
            Line::Text(bytes) => {
                let card = read_card(alloc, style, self.part, bytes.as_slice())?;
                self.on_card(alloc, limits, style, &card)
            }
            Line::Long(_) => Err(Fault::Code(Code::Limit)),
            Line::End | Line::Over => Err(Fault::Code(Code::Cut)),
        }
    }
}
