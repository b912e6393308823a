// Whole texts.
ghost use Rattle.std.specs.Prelude.{◌≡◌, ◌∷◌, IfOk};
ghost use Rattle.spec_mps.specs.Written as written;
ghost use Rattle.lp_mps.specs.Adds.{Adds, GivesText, IsFixed, front_cards, back_cards};

use crate::write::line::Writer;
use crate::write::stop::WriteStop;
use lp_base::Bytes;
use lp_model::{Model, Sense};
use spec_mps::Style;
use std::alloc::{AllocError, Global};

impl Writer {
    // Adds `OBJSENSE MAX`, if the objective is made greatest.
    fn sense(&self, sense: Sense, to: &mut Bytes) -> Result<(), WriteStop>
        ensures { Adds self.now.style (written.sense_cards sense) to.old to.new result }
    {
        if sense == Sense::Max {
            self.section(b"OBJSENSE MAX", to)?;
        }
        Ok(())
    }

    // Adds what stands before `ROWS`: the name and the sense.
    fn start(&self, model: &Model, to: &mut Bytes) -> Result<(), WriteStop>
        ensures { Adds self.now.style
            (written.name_card model.now.name ∷ written.sense_cards model.now.sense) to.old to.new result }
    {
        self.name(model.name().as_slice(), to)?;
        self.sense(model.sense(), to)
    }

    // Adds the sections up to and with `COLUMNS`.
    fn front(&self, model: &Model, to: &mut Bytes) -> Result<(), WriteStop>
        ensures { Adds self.now.style (front_cards model.now) to.old to.new result }
    {
        self.start(model, to)?;
        self.rows(model, to)?;
        self.columns(model, to)
    }

    // Adds the sections after `COLUMNS`, and `ENDATA`.
    fn back(&self, model: &Model, to: &mut Bytes) -> Result<(), WriteStop>
        ensures { Adds self.now.style (back_cards model.now) to.old to.new result }
    {
        self.sides(model, to)?;
        self.ranges(model, to)?;
        self.bounds(model, to)?;
        self.section(b"ENDATA", to)?;
        Ok(())
    }

    // Adds all sections of the model's text.
    fn cards(&self, model: &Model, to: &mut Bytes) -> Result<(), WriteStop>
        ensures { Adds self.now.style (written.cards_of model.now) to.old to.new result }
    {
        self.front(model, to)?;
        self.back(model, to)
    }
}

// The text of a model in this style, free or fixed; or, in fixed form, the first text that is too wide for its field.
fn text_of(alloc: Global, style: Style, model: &Model) -> Result<Bytes, WriteStop>
    ensures { GivesText style (written.cards_of model.now) result }
{
    let mut text = Bytes::new(alloc);
    Writer { alloc, style }.cards(model, &mut text)?;
    Ok(text)
}

/// The text of a model in free form.
pub fn free(alloc: Global, model: &Model) -> Result<Bytes, AllocError>
    ensures { IfOk result (λ text. text ≡ written.free model.now) }
{
    match text_of(alloc, Style::Free, model) {
        Ok(text) => Ok(text),
        Err(WriteStop::NoMemory) => Err(AllocError),
        Err(WriteStop::TooWide(_)) => unreachable!(),
    }
}

/// The text of a model in fixed form; or the first name or number that is too wide for its field.
pub fn fixed(alloc: Global, model: &Model) -> Result<Bytes, WriteStop>
    ensures { IsFixed model.now result }
{
    text_of(alloc, Style::Fixed, model)
}
