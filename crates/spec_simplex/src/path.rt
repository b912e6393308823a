//! What the steps of the simplex method on a tableau of lists mean: they are steps over functions of an index.
//!
//! | Item | What it is | Where |
//! |---|---|---|
//! | `table_of`, `bounds_of` | a tableau of lists, by the numbers of positions and columns | specs/Tables |
//! | `IsTableauOf`, `IsWithinBounds` | a tableau of these rows, costs and bounds; that each value is within them | specs/Tables |
//! | `IsMeant` | what a choice of the run means for a tableau | specs/Tables |
//! | `form_rows`, `signs_of` | a form's equations, and the signs of their artificials in a start | specs/Begins |
//! | `IsProper`, `Begins` | what holds of a form, and of the tableau that it begins with | specs/Begins |
//!
//! The functions here have the laws as their contracts. Each law holds at every limit: a run at a limit that gives a
//! result gives the exact one.
//!
//! The run on lists is that of `spec_simplex`, and the steps on functions of an index are those of `spec_pivot`.
//! Nothing here names a certificate or its check.

ghost use Rattle.std.specs.Prelude.{◌≡◌, ◌+◌, ◌≤◌, ℕ, length, Option, Ok, false};
ghost use Rattle.spec_exact.specs.Fraction.{ℚ};
ghost use Rattle.spec_model.specs.Model.{Model};
ghost use Rattle.spec_pivot.specs.Tableau.{Matrix};
ghost use Rattle.spec_pivot.specs.Simplex.{Bounds};
ghost use Rattle.spec_simplex.specs.declared.ends.Choice.{Choice};
ghost use Rattle.spec_simplex.specs.Form.{Form, form_of};
ghost use Rattle.spec_simplex.specs.Tableau.{Tableau};
ghost use Rattle.spec_simplex.specs.Start.{cost_at, start_of};
ghost use Rattle.spec_simplex.specs.Step.{choice_run};
ghost use Rattle.spec_simplex.specs.Phases.{is_stuck, phase_two_run};
ghost use Rattle.spec_simplex.specs.Tables.{bounds_of, IsTableauOf, IsWithinBounds, IsMeant};
ghost use Rattle.spec_simplex.specs.Begins.{IsProper, Begins};

/// From a tableau with each value within its bounds, a flip or pivot that a run chooses is a step by the rule of the
/// least index, if no operation is refused. It leads to a tableau of the same rows, costs and bounds. Where the run
/// chooses an end, no column is eligible, or the one that enters is never stopped.
pub fn steps_mean_pivots()
    ensures { (limit : Option ℕ) (m n : ℕ) (f : Matrix) (cost : ℕ → ℚ) (b : Bounds) (t : Tableau) (choice : Choice ℚ) →
        IsTableauOf m n f cost b t → IsWithinBounds m n b t → choice_run limit t ≡ Ok choice →
        IsMeant m n f cost b limit t choice }
{}

/// The form that a model has is proper: it has a bound or none for each column, and none clash. A proper form begins,
/// if no operation is refused, with a tableau of its equations and of phase one's costs, with each value within its
/// bounds.
pub fn starts_are_tableaus()
    ensures forms { (limit : Option ℕ) (m : Model) (f : Form) → form_of limit m ≡ Ok f → IsProper f }
    ensures starts { (limit : Option ℕ) (f : Form) (t : Tableau) → IsProper f → start_of limit f ≡ Ok t → Begins f t }
{}

/// Phase two begins with a tableau of the same equations and of the form's costs, with each value within its own
/// bounds. It is so where no artificial column of phase one's last tableau is basic and not 0, and no operation is
/// refused.
pub fn phase_two_goes_on()
    ensures { (limit : Option ℕ) (form : Form) (m n : ℕ) (f : Matrix) (cost : ℕ → ℚ) (b : Bounds) (t u : Tableau) →
        IsTableauOf m n f cost b t → IsWithinBounds m n b t → is_stuck t ≡ false →
        length form.cost ≤ n + m + m → phase_two_run limit form t ≡ Ok u →
        IsTableauOf m n f (cost_at form.cost) (bounds_of u) u × IsWithinBounds m n (bounds_of u) u }
{}
