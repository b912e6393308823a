//! Edits of a model: the model after each edit, and why an edit is refused.
//!
//! | Item | What it is | Where |
//! |---|---|---|
//! | `Edit`, `EditFault`, `Which` | an edit, and why it is refused | src/edit |
//! | `with_row`, `without_row`, `with_coefficient` | changes by the numbers of rows and columns | specs/Changes |
//! | `edited` | the model after an edit, or the fault | specs/Edited |
//! | `IsKeptEdit`, `takes_memory` | what an edit may hold, and whether it takes memory | specs/Edited |
//! | `IsWithCoefficient`, `IsWithoutRow` | what changes mean | specs/Meaning |
//! | `KeepsNames` | what other edits leave | specs/Meaning |
//!
//! The functions here have the laws as their contracts.
#![tactic(auto)]

mod edit;

ghost use Rattle.std.specs.Prelude.{◌≡◌, ◌<◌, ◌↔◌, ℕ, true, false, Some, None, Ok, Err, List};
ghost use Rattle.spec_exact.specs.Fraction.{ℚ, 0ℚ};
ghost use Rattle.spec_model.specs.Kept.{IsModel, IsUsualModel, row_place};
ghost use Rattle.spec_model.specs.Model.{Model, Name, ExactRow, width, height, row, coefficient};
ghost use Rattle.spec_model.specs.Model.{is_free, value_of};
ghost use Rattle.spec_model.specs.Truth.{IsFeasible, IsOptimal, IsInfeasible, IsUnbounded};
ghost use Rattle.spec_edit.specs.declared.edit.Edit.TheVariants as edit;
ghost use Rattle.spec_edit.specs.declared.edit.EditFault.TheVariants as fault;
ghost use Rattle.spec_edit.specs.Changes.{with_row, without_row};
ghost use Rattle.spec_edit.specs.Edited.{ExactEdit, IsKeptEdit, Pairs, edited, new_column};
ghost use Rattle.spec_edit.specs.Meaning.{IsWithCoefficient, IsWithoutRow, IsWithoutColumn};
ghost use Rattle.spec_edit.specs.Meaning.{IsWithPairs, adds_or_removes, KeepsNames};

pub use edit::{Edit, EditFault, Which};

/// An edit whose numbers and bounds may be kept, of a model that sessions may hold, leaves a model that they may hold,
/// unless the edit is refused.
pub fn edits_keep_models()
    ensures { (m n : Model) (e : ExactEdit) → IsUsualModel m → IsKeptEdit e → edited m e ≡ Ok n → IsUsualModel n }
{}

/// A coefficient that is set has the new value, and all others stay. Where a row or a column is removed, the others
/// stay as they were, and those behind it have numbers that are one less. A new row goes last as it is given, and has
/// no coefficients.
pub fn changes_have_their_meaning()
    ensures coefficient { (m : Model) (i j : ℕ) (v : ℚ) → j < width m → IsWithCoefficient m i j v }
    ensures without_row { (m : Model) (i : ℕ) → i < height m → IsWithoutRow m i }
    ensures without_column { (m : Model) (j : ℕ) → j < width m → IsWithoutColumn m j }
    ensures new_row { (m : Model) (r : ExactRow) → row (with_row m r) (height m) ≡ r }
    ensures new_coefficients { (m : Model) (r : ExactRow) (j : ℕ) →
        IsModel m → coefficient (with_row m r) (height m) j ≡ 0ℚ }
{}

/// A new column has in each row the number that its pairs give to the row's name, and 0 in a row that no pair names.
pub fn new_columns_have_their_pairs()
    ensures { (m n : Model) (name : Name) (cost : ℚ) (pairs : Pairs) →
        IsModel m → new_column m name cost pairs ≡ Ok n → IsWithPairs m n pairs }
{}

/// A range of a free row is refused, and to take its range away changes nothing: it has none.
pub fn free_rows_have_no_range()
    ensures refused { (m : Model) (name : Name) (i : ℕ) (v : ℚ) → row_place m name ≡ Some i →
        is_free (row m i).kind ≡ true → edited m (edit.SetRange name (Some v)) ≡ Err (fault.FreeRow name) }
    ensures unchanged { (m : Model) (name : Name) (i : ℕ) → IsModel m → row_place m name ≡ Some i →
        is_free (row m i).kind ≡ true → edited m (edit.SetRange name None) ≡ Ok m }
{}

/// A model has the same feasible points with the same values when a free row is removed. So it has the same optimal
/// value then, or is infeasible or unbounded as before.
pub fn free_rows_change_no_truth()
    ensures points { (m : Model) (i : ℕ) → i < height m → is_free (row m i).kind ≡ true → (z : List ℚ) →
        (IsFeasible m z ↔ IsFeasible (without_row m i) z) × (value_of (without_row m i) z ≡ value_of m z) }
    ensures optimal { (m : Model) (i : ℕ) → i < height m → is_free (row m i).kind ≡ true → (v : ℚ) →
        IsOptimal m v ↔ IsOptimal (without_row m i) v }
    ensures infeasible { (m : Model) (i : ℕ) → i < height m → is_free (row m i).kind ≡ true →
        IsInfeasible m ↔ IsInfeasible (without_row m i) }
    ensures unbounded { (m : Model) (i : ℕ) → i < height m → is_free (row m i).kind ≡ true →
        IsUnbounded m ↔ IsUnbounded (without_row m i) }
{}

/// The names of the objective, the rows and the columns change only where a row or a column is added or removed.
pub fn other_edits_keep_names()
    ensures { (m n : Model) (e : ExactEdit) → adds_or_removes e ≡ false → edited m e ≡ Ok n → KeepsNames m n }
{}
