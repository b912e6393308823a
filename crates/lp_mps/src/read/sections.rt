// The cards that begin sections.
ghost use Rattle.std.specs.Prelude.{◌≡◌, OnOk, None, Some};
ghost use Rattle.spec_mps.specs.Steps as steps;
ghost use Rattle.lp_mps.specs.Answer.{GivesState, Goes};
ghost use Rattle.lp_mps.specs.Draft.{state_of};

use crate::card::Fields;
use crate::read::draft::{Draft, set_name};
use crate::read::fault::{Fault, Went};
use crate::read::sets::FirstSet;
use crate::read::words::section_of;
use lp_model::is_model_name;
use spec_mps::{Code, Section, Seen};
use std::alloc::{AllocError, Global};

// Whether the card that begins the section is among those that were seen; never for ENDATA.
fn has_begun(seen: Seen, part: Section) -> bool
    ensures { result ≡ steps.has_begun seen part }
{
    match part {
        Section::Name => seen.name,
        Section::Sense => seen.sense,
        Section::Rows => seen.rows,
        Section::Columns => seen.columns,
        Section::RightSides => seen.right_sides,
        Section::Ranges => seen.ranges,
        Section::Bounds => seen.bounds,
        Section::End => false,
    }
}

// The sections whose cards have been read, with this one added, unless it is ENDATA.
fn with_section(mut seen: Seen, part: Section) -> Seen
    ensures { result ≡ steps.with_section seen part }
{
    match part {
        Section::Name => seen.name = true,
        Section::Sense => seen.sense = true,
        Section::Rows => seen.rows = true,
        Section::Columns => seen.columns = true,
        Section::RightSides => seen.right_sides = true,
        Section::Ranges => seen.ranges = true,
        Section::Bounds => seen.bounds = true,
        Section::End => {}
    }
    seen
}

// Whether the section may begin after those that were seen: NAME and OBJSENSE stand before ROWS, COLUMNS after ROWS,
// and RHS, RANGES, BOUNDS and ENDATA after COLUMNS. ROWS may always begin.
fn may_follow(seen: Seen, part: Section) -> bool
    ensures { result ≡ steps.may_follow seen part }
{
    match part {
        Section::Name | Section::Sense => !seen.rows,
        Section::Rows => true,
        Section::Columns => seen.rows,
        Section::RightSides | Section::Ranges | Section::Bounds | Section::End => seen.columns,
    }
}

impl Draft {
    /// Begins the section that a card names, or says that the text ends where that is ENDATA. One that is unknown, may
    /// not begin now or has begun before is a fault, and so is a wrong second word, or COLUMNS without an objective.
    #[tactic(auto, unfolding(spec_mps::specs::Steps::section_card))]
    pub(crate) fn section_card(&mut self, alloc: Global, fields: &Fields) -> Result<Went, Fault>
        ensures { Goes (steps.section_card (state_of self.old) fields.now) (state_of self.new) result }
    {
        let Some(part) = section_of(fields.text_at(1)) else {
            return Err(Fault::Code(Code::UnknownSection));
        };
        if !may_follow(self.seen, part) || has_begun(self.seen, part) {
            return Err(Fault::Code(Code::SectionOrder));
        }
        if let Section::End = part {
            return Ok(Went::ToEnd);
        }
        self.begin_part(part)?;
        self.head(alloc, part, fields.text_at(2))?;
        Ok(Went::On)
    }

    // Begins a section: the current column becomes whole, no row has a number in the section yet, and no set is in use.
    fn begin_part(&mut self, part: Section) -> Result<(), AllocError>
        ensures { OnOk result (state_of self.new ≡ steps.begun (state_of self.old) part) }
    {
        self.columns.close()?;
        self.part = Some(part);
        self.seen = with_section(self.seen, part);
        self.paired.clear();
        self.set = FirstSet::Unseen;
        Ok(())
    }

    // Reads the second word of a section's card, which is empty where there is none: the model's name, or the sense. A
    // bad one is a fault, and so is COLUMNS without an objective.
    fn head(&mut self, alloc: Global, part: Section, word: &[u8]) -> Result<(), Fault>
        ensures { GivesState (steps.headed (state_of self.old) part word.now) (state_of self.new) result }
    {
        match part {
            Section::Name => {
                if !is_model_name(word) {
                    return Err(Fault::Code(Code::Name));
                }
                set_name(&mut self.name, alloc, word)?;
                Ok(())
            }
            Section::Sense if word.is_empty() => Ok(()),
            Section::Sense => self.take_sense(word),
            Section::Columns => {
                if self.objective.is_none() {
                    return Err(Fault::Code(Code::NoObjective));
                }
                Ok(())
            }
            Section::Rows
            | Section::RightSides
            | Section::Ranges
            | Section::Bounds
            | Section::End => Ok(()),
        }
    }
}
