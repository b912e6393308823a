// The lines of cards.
ghost use Rattle.std.specs.Prelude.{◌≡◌, ◌++◌, ◌-◌, [], ◌∷◌, OnOk, length, replicate};
ghost use Rattle.spec_mps.specs.Written as written;
ghost use Rattle.lp_mps.specs.Adds.{Adds, IsAdded, PutsFields, fields_of, is_wide_in};

use crate::write::stop::WriteStop;
use lp_base::Bytes;
use spec_mps::Style;
use std::alloc::{AllocError, Global};

/// The column of fixed form in which a field begins.
fn first_column(number: u32) -> usize
    ensures { result ≡ written.first_column number }
{
    match number {
        1 => 2,
        2 => 5,
        3 => 15,
        4 => 25,
        5 => 40,
        _ => 50,
    }
}

/// The most bytes of a field of fixed form.
fn field_width(number: u32) -> usize
    ensures { result ≡ written.field_width number }
{
    match number {
        1 => 2,
        4 | 6 => 12,
        _ => 8,
    }
}

// Adds blanks to a line until it has `width` bytes.
fn pad(width: usize, line: &mut Bytes) -> Result<(), AllocError>
    ensures { OnOk result (line.new ≡ line.old ++ replicate (width - length line.old) 32) }
{
    for done in 0..width.saturating_sub(line.len()) {
        line.push(b' ')?;
    }
    Ok(())
}

// Adds a line and its end to a text.
fn add_line(line: &[u8], to: &mut Bytes) -> Result<(), AllocError>
    ensures { OnOk result (to.new ≡ to.old ++ (line.now ++ 10 ∷ [])) }
{
    to.extend(line)?;
    to.push(b'\n')
}

/// What cards are written in, and where their memory comes from.
#[derive(Drop)]
pub(crate) struct Writer {
    pub alloc: Global,
    pub style: Style,
}

impl Writer {
    // Adds a field to a line, whatever its width: in free form behind a blank; in fixed form at its column, or right
    // behind the line where this goes past that column.
    fn place(&self, number: u32, text: &[u8], line: &mut Bytes) -> Result<(), AllocError>
        ensures { OnOk result (line.new ≡ written.padded self.now.style number line.old ++ text.now) }
    {
        match self.style {
            Style::Free => line.push(b' ')?,
            Style::Fixed => pad(first_column(number) - 1, line)?,
        }
        line.extend(text)
    }

    // Whether the text is too wide for its field of fixed form. In free form no text is.
    fn is_wide(&self, number: u32, text: &[u8]) -> bool
        ensures { result ≡ is_wide_in self.now.style (written.field_at number text.now) }
    {
        self.style == Style::Fixed && text.len() > field_width(number)
    }

    // Adds fields to a line, each with its number in fixed form. The first that is too wide for its field stops it.
    fn fields(&self, fields: &[(u32, &[u8])], line: &mut Bytes) -> Result<(), WriteStop>
        ensures { PutsFields self.now.style (fields_of fields.now) line.old line.new result }
    {
        for (number, text) in fields {
            if self.is_wide(*number, text) {
                return Err(WriteStop::TooWide(Bytes::from_slice(self.alloc, text)?));
            }
            self.place(*number, text, line)?;
        }
        Ok(())
    }

    /// Adds a data card of these fields, each with its number in fixed form. A text too wide for its field stops it.
    pub fn data(&self, fields: &[(u32, &[u8])], to: &mut Bytes) -> Result<(), WriteStop>
        ensures { Adds self.now.style (written.Data (fields_of fields.now) ∷ []) to.old to.new result }
    {
        let mut line = Bytes::new(self.alloc);
        self.fields(fields, &mut line)?;
        add_line(line.as_slice(), to)?;
        Ok(())
    }

    /// Adds the line of a heading that begins a section.
    pub fn section(&self, word: &[u8], to: &mut Bytes) -> Result<(), AllocError>
        ensures { OnOk result (IsAdded self.now.style (written.section_card word.now ∷ []) to.old to.new) }
    {
        add_line(word, to)
    }

    /// Adds the line NAME with the model's name, which may be empty.
    pub fn name(&self, name: &[u8], to: &mut Bytes) -> Result<(), AllocError>
        ensures { OnOk result (IsAdded self.now.style (written.name_card name.now ∷ []) to.old to.new) }
    {
        let mut line = Bytes::from_slice(self.alloc, b"NAME")?;
        if !name.is_empty() {
            self.place(3, name, &mut line)?;
        }
        add_line(line.as_slice(), to)
    }
}
