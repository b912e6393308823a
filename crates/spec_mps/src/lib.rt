//! Texts of models: lines, cards, the model that they spell, and what a text means.
//!
//! | Item | What it is | Where |
//! |---|---|---|
//! | `Style` | the two forms of texts | src/style |
//! | `Section`, `BoundKind` | words of the format | src/section, src/bound_kind |
//! | `Target` | what a coefficient or a right side belongs to | src/target |
//! | `Code`, `MpsFault` | what is wrong with a text, and in which line | src/fault |
//! | `NumFault`, `BoundValue` | why a text is no number, and what it is as a bound | src/number |
//! | `parts_of`, `number_of` | the parts of a number's text, and the number | specs/NumberText |
//! | `bound_of` | the bound that a text is | specs/BoundText |
//! | `number_text`, `IsWord` | the text that a fraction is written as, which is one word | specs/NumberWritten |
//! | `Card` | the kinds of lines | src/card |
//! | `Field`, `free_fields`, `fixed_fields` | fields, and the card of a line in free and in fixed form | specs/Fields |
//! | `rows_card`, `columns_card` | what a card of ROWS and of COLUMNS does | specs/Reader |
//! | `rhs_card`, `ranges_card` | what a card of RHS and of RANGES does | specs/Sides |
//! | `bounds_card` | what a card of BOUNDS does | specs/Bounds |
//! | `cards_of`, `free`, `fixed`, `too_wide` | the cards and the text that a model is written as | specs/Written |
//! | `step`, `SpellsWithin`, `RefusesWithin` | the step of a line, and what a whole text is, within limits of size | specs/Steps |
//! | `Spells`, `Refuses` | what a whole text is within the usual limits | specs/Steps |
//! | `is_skipped` | the lines that count for nothing | specs/Cards |
//! | `wide_of`, `wide_text` | numbers of any width as text, both ways, with their laws | src/wide, specs/WideText |
//! | `Means` | what a text means, in the words of linear programs, with laws on every text that spells a model | src/meaning, specs/Meaning |
//!
//! The format is MPS (IBM Mathematical Programming System Extended, Program Reference Manual, 1971, and the free form
//! of later readers): docs/FORMATS.md.
#![tactic(auto)]

mod bound_kind;
mod card;
mod fault;
mod meaning;
mod number;
mod section;
mod style;
mod target;
mod wide;

ghost use Rattle.std.specs.Prelude.{◌≡◌, ◌≤◌, ◌↔◌, List, ℕ, None, unsigned_abs};
ghost use Rattle.spec_text.specs.Lines.{lines_of};
ghost use Rattle.spec_text.specs.declared.line.Line.{Line};
ghost use Rattle.spec_exact.specs.Fraction.{ℚ, abs_ℚ, ◌<ℚ◌};
ghost use Rattle.spec_exact.specs.Narrow.{number_limit};
ghost use Rattle.spec_model.specs.declared.parts.SizeLimits.{SizeLimits};
ghost use Rattle.spec_model.specs.Model.{Model};
ghost use Rattle.spec_model.specs.Kept.{AreAtMost, IsModelWithin, IsUsualModel};
ghost use Rattle.spec_mps.specs.declared.style.Style.{Style};
ghost use Rattle.spec_mps.specs.declared.style.Style.TheVariants as form;
ghost use Rattle.spec_mps.specs.NumberText.{Is, number_of};
ghost use Rattle.spec_mps.specs.BoundText.{Finite, bound_of, infinite};
ghost use Rattle.spec_mps.specs.NumberWritten.{IsWord, number_text};
ghost use Rattle.spec_mps.specs.Written.{free, fixed, too_wide};
ghost use Rattle.spec_mps.specs.Steps.{IsJudged, Spells, SpellsWithin};

pub use bound_kind::BoundKind;
pub use card::Card;
pub use fault::{Code, MpsFault};
pub use meaning::{
    bounds_cards_are_bounds, columns_cards_are_columns, later_rows_of_type_n_are_free_rows,
    lone_objectives_leave_rows_with_limits, ranges_cards_are_ranges, rhs_cards_are_right_sides,
    rows_cards_are_rows, rows_have_limits, texts_have_one_meaning, titles_are_names_and_senses,
};
pub use number::{BoundValue, NumFault};
pub use section::{Section, Seen};
pub use style::Style;
pub use target::Target;
pub use wide::{
    narrow_numbers_are_read_the_same, narrow_numbers_are_written_the_same,
    written_wide_numbers_are_read,
};

/// Each text spells one model, or one line refuses it with one fault, whatever the limits of size are.
pub fn texts_are_judged()
    ensures { (limits : SizeLimits) (style : Style) (lines : List (Line (List ℕ))) → IsJudged limits style lines }
{}

/// What a text spells is a model that may be kept, within the limits that it was read with.
pub fn spelled_texts_are_kept()
    ensures { (limits : SizeLimits) (style : Style) (lines : List (Line (List ℕ))) (m : Model) →
        SpellsWithin limits style lines m → IsModelWithin limits m }
{}

/// A text that spells a model within limits of size spells the same model within any limits that are at least those.
pub fn greater_limits_read_the_same()
    ensures { (few many : SizeLimits) (style : Style) (lines : List (Line (List ℕ))) (m : Model) →
        AreAtMost few many → SpellsWithin few style lines m → SpellsWithin many style lines m }
{}

/// The text that a fraction within 127 bits is written as is read as that fraction.
pub fn written_numbers_are_read()
    ensures { (q : ℚ) → unsigned_abs q.num ≤ number_limit → q.den ≤ number_limit → number_of (number_text q) ≡ Is q }
{}

/// The text that a fraction within 127 bits is written as is one word of printable bytes.
pub fn written_numbers_are_words()
    ensures { (q : ℚ) → unsigned_abs q.num ≤ number_limit → q.den ≤ number_limit → IsWord (number_text q) }
{}

/// The text that a usual model is written as spells that model and no other within the usual limits: in free form, and
/// in fixed form where it has room for the model's texts.
pub fn written_texts_spell_their_models()
    ensures free { (m n : Model) → IsUsualModel m → (Spells form.Free (lines_of (free m)) n ↔ (n ≡ m)) }
    ensures fixed { (m n : Model) → IsUsualModel m → too_wide m ≡ None →
        (Spells form.Fixed (lines_of (fixed m)) n ↔ (n ≡ m)) }
{}

/// A text that is read as a number within 127 bits, of a size below 10^20, is read as this number where a bound stands.
pub fn small_numbers_are_bounds()
    ensures { (text : List ℕ) (q : ℚ) → number_of text ≡ Is q → abs_ℚ q <ℚ infinite → bound_of text ≡ Finite q }
{}

/// A text that is read as a finite bound spells a number of a size below 10^20.
pub fn finite_bounds_are_small()
    ensures { (text : List ℕ) (q : ℚ) → bound_of text ≡ Finite q → abs_ℚ q <ℚ infinite }
{}
