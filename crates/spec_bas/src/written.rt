//! MPS basis files as they are written: their lines spell the basis that they are written from.

ghost use Rattle.std.specs.Prelude.{◌≡◌, ◌↔◌, ℕ, List, Option, Ok};
ghost use Rattle.spec_text.specs.Lines.{lines_of};
ghost use Rattle.spec_model.specs.Model.{Model};
ghost use Rattle.spec_model.specs.Kept.{IsModel};
ghost use Rattle.spec_pivot.specs.declared.status.Status.{Status};
ghost use Rattle.spec_simplex.specs.Form.{Form, form_of};
ghost use Rattle.spec_simplex.specs.Eliminate.{IsBasisOf};
ghost use Rattle.spec_bas.specs.Spelled.{SpellsBasis};
ghost use Rattle.spec_bas.specs.Written.{bas_text};

/// The file that a basis is written as spells that basis, and no other.
pub fn written_files_spell_their_basis()
    ensures { (limit : Option ℕ) (m : Model) (f : Form) (basis other : List Status) → IsModel m →
        form_of limit m ≡ Ok f → IsBasisOf f basis →
        (SpellsBasis m f (lines_of (bas_text m f basis)) other ↔ other ≡ basis) }
{}
