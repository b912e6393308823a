// The fields of a card.
ghost use Rattle.std.specs.Prelude.{◌≡◌, ◌+◌, ◌≤◌, ◌^◌, ◌<◌, ℕ, List, [], ◌∷◌, ◌++◌, length, OnOk};
ghost use Rattle.spec_mps.specs.Fields as card_field;

use lp_base::Bytes;
use smallvec::SmallVec;
use std::alloc::{AllocError, Global};
use std::default::MadeWith;
use std::marker::Model;

/// A word with its place from 1, or what stands in one of the fields 1 to 6 of a card in fixed form.
#[derive(Drop)]
pub struct Field {
    number: u32,
    text: Bytes,
}

impl Model for Field {
    ghost use Rattle.spec_mps.specs.Fields as card_field;

    ghost Value = { card_field.Field };

    ghost view = { λ f. record { number = f.number; text = f.text } };
}

impl Field {
    /// The place of the word, counted from 1, or the number of the field in fixed form.
    pub fn number(&self) -> u32
        ensures { result ≡ self.now.number }
    {
        self.number
    }

    /// The bytes of the field.
    pub fn text(&self) -> &[u8]
        ensures { result.now ≡ self.now.text }
    {
        self.text.as_slice()
    }
}

// What a place holds before a field is put there.
impl MadeWith<Global> for Field {
    // A field without bytes, of number 0.
    fn made_with(alloc: Global) -> Self {
        Field {
            number: 0,
            text: Bytes::new(alloc),
        }
    }
}

/// What a line is, with its fields.
pub type Card = spec_mps::Card<Fields>;

/// The fields of a card, in order.
pub struct Fields {
    items: SmallVec<Field, 6>,
}

impl Model for Fields {
    ghost use Rattle.spec_mps.specs.Fields as card_field;

    ghost Value = { card_field.Fields };

    ghost view = { λ f. f.items.items };
}

impl Drop for Fields {
    fn drop(self) {
        let Fields { items } = self;
        drop(items);
    }
}

impl Fields {
    /// The empty list of fields.
    pub(crate) fn new(alloc: Global) -> Self
        ensures { result ≡ [] }
    {
        Fields {
            items: SmallVec::new(alloc),
        }
    }

    /// All fields of a card, in order.
    pub fn as_slice(&self) -> &[Field]
        ensures { result.now ≡ self.now }
    {
        self.items.as_slice()
    }

    /// The bytes of the field with this number; empty where the card does not have it.
    pub fn text_at(&self, number: u32) -> &[u8]
        ensures { result.now ≡ card_field.text_at number self.now }
    {
        for field in self.as_slice() {
            if field.number() == number {
                return field.text();
            }
        }
        &[]
    }

    /// Adds a field at the end, unless its text is empty.
    pub(crate) fn push(&mut self, alloc: Global, number: u32, text: &[u8]) -> Result<(), AllocError>
        ensures { OnOk result (self.new ≡ self.old ++ card_field.field_of number text.now) }
    {
        if text.is_empty() {
            return Ok(());
        }
        let text = Bytes::from_slice(alloc, text)?;
        self.items.push(Field { number, text })?;
        Ok(())
    }

    /// Adds a word at the end, with the next number, unless it is empty. A number past a `u32` counts as running out of
    /// memory.
    pub(crate) fn push_word(&mut self, alloc: Global, word: &[u8]) -> Result<(), AllocError>
        ensures { OnOk result (self.new ≡ self.old ++ card_field.field_of (length self.old + 1) word.now) }
    {
        let Ok(number) = u32::try_from(self.items.len().saturating_add(1)) else {
            return Err(AllocError);
        };
        self.push(alloc, number, word)
    }
}
