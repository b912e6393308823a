//! MPS basis files: what their lines spell, and how a basis is written.
//!
//! | Item | What it is | Where |
//! |---|---|---|
//! | `Card`, `Reading` | data cards, and the kinds of lines | src/card |
//! | `BasCode`, `BasFault` | what is wrong with a file, and in which line | src/fault |
//! | `reading_of` | what a line is | specs/Cards |
//! | `step`, `Gives`, `Refuses` | the step of a line, and what a whole file is | specs/Steps |
//! | `HasSizeOf`, `IsMarking` | that a form has a model's size, and what was read gives a basis of it | specs/Fits |
//! | `SpellsBasis` | which basis a file spells, by its cards alone | specs/Spelled |
//! | `bas_text` | the file that a basis is written as | specs/Written |
//! | `written_files_spell_their_basis` | what a written file spells | src/written |
//!
//! The format is that of the basis files of MPS (IBM Mathematical Programming System Extended, Program Reference
//! Manual, 1971), read by words: docs/FORMATS.md. The functions here have the laws as their contracts.
#![tactic(auto)]

mod card;
mod fault;
mod written;

ghost use Rattle.std.specs.Prelude.{◌≡◌, ◌⊎◌, ◌↔◌, ℕ, List, Option, Ok};
ghost use Rattle.spec_text.specs.declared.line.Line.{Line};
ghost use Rattle.spec_model.specs.Model.{Model};
ghost use Rattle.spec_pivot.specs.declared.status.Status.{Status};
ghost use Rattle.spec_simplex.specs.Form.{Form, form_of};
ghost use Rattle.spec_simplex.specs.Eliminate.{IsBasisOf};
ghost use Rattle.spec_bas.specs.declared.fault.BasCode.{BasCode};
ghost use Rattle.spec_bas.specs.Steps.{Gives, Refuses};
ghost use Rattle.spec_bas.specs.Fits.{HasSizeOf};
ghost use Rattle.spec_bas.specs.Spelled.{SpellsBasis};

pub use card::{Card, Reading};
pub use fault::{BasCode, BasFault};
pub use written::written_files_spell_their_basis;

/// The form of a model has as many rows as the model, and as many structural columns as the model has columns.
pub fn forms_have_the_size_of_models()
    ensures { (limit : Option ℕ) (m : Model) (f : Form) → form_of limit m ≡ Ok f → HasSizeOf m f }
{}

/// For a form of the model's size, reading the lines of a file one after the other gives a basis exactly where the
/// file's cards spell that basis.
pub fn lines_give_what_cards_spell()
    ensures { (m : Model) (f : Form) (lines : List (Line (List ℕ))) (basis : List Status) → HasSizeOf m f →
        (Gives m f lines basis ↔ SpellsBasis m f lines basis) }
{}

/// For a form of the model's size, each file spells one basis and no other, or is refused for its first wrong line with
/// that line's fault; never both.
pub fn files_are_judged()
    ensures some { (m : Model) (f : Form) (lines : List (Line (List ℕ))) → HasSizeOf m f →
        ((basis : List Status) × SpellsBasis m f lines basis)
        ⊎ ((n : ℕ) × (code : BasCode) × Refuses m f lines n code) }
    ensures one { (m : Model) (f : Form) (lines : List (Line (List ℕ))) (basis other : List Status) → HasSizeOf m f →
        SpellsBasis m f lines basis → SpellsBasis m f lines other → basis ≡ other }
    ensures not_both { (m : Model) (f : Form) (lines : List (Line (List ℕ))) (basis : List Status) (n : ℕ)
        (code : BasCode) → HasSizeOf m f → SpellsBasis m f lines basis → ¬ (Refuses m f lines n code) }
{}

/// Where a file spells a basis for a form of the model's size, that is a basis of the form.
pub fn spelled_bases_fit()
    ensures { (m : Model) (f : Form) (lines : List (Line (List ℕ))) (basis : List Status) → HasSizeOf m f →
        SpellsBasis m f lines basis → IsBasisOf f basis }
{}
