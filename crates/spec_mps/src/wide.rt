//! Texts of numbers of any width.
//!
//! | Item | What it is | Where |
//! |---|---|---|
//! | `wide_of` | what a text is: a number, no number, or one with too far an exponent | specs/WideText |
//! | `wide_text` | the text that a fraction is written as | specs/WideWritten |
//!
//! The rule of the text is that of numbers of 127 bits, `parts_of` and `value_of` of spec_mps (specs/NumberText), and the
//! laws here say that both agree on those. They are the contracts of the functions.

ghost use Rattle.std.specs.Prelude.{◌≡◌, ◌≤◌, ℕ, List, length};
ghost use Rattle.spec_exact.specs.Fraction.{ℚ};
ghost use Rattle.spec_exact.specs.Narrow.{IsNarrow};
ghost use Rattle.spec_mps.specs.NumberText.{number_of};
ghost use Rattle.spec_mps.specs.NumberText as number;
ghost use Rattle.spec_mps.specs.NumberWritten.{number_text};
ghost use Rattle.spec_mps.specs.WideText.{most_zeros, wide_of};
ghost use Rattle.spec_mps.specs.WideText as wide;
ghost use Rattle.spec_mps.specs.WideWritten.{wide_text};

/// A text that the reader of numbers of at most 127 bits takes is read as the same number by the reader of any width.
pub fn narrow_numbers_are_read_the_same()
    ensures { (text : List ℕ) (q : ℚ) → number_of text ≡ number.Is q → wide_of text ≡ wide.Is q }
{}

/// For a fraction within 127 bits, `wide_text` writes the same text as `number_text`, the one for such fractions.
pub fn narrow_numbers_are_written_the_same()
    ensures { (q : ℚ) → IsNarrow q → wide_text q ≡ number_text q }
{}

/// The text that a fraction of any width is written as is read as that fraction, where the text has at most 16,384
/// bytes.
pub fn written_wide_numbers_are_read()
    ensures { (q : ℚ) → length (wide_text q) ≤ most_zeros → wide_of (wide_text q) ≡ wide.Is q }
{}
