//! The cold run over factors beside the one on whole tableaus: laws.
//!
//! | Item | What it is | Where |
//! |---|---|---|
//! | `SameChoice` | the same choice, named by its columns | specs/Same |
//! | `Places` | where the basic columns stand in factors | specs/Same |
//! | `bare_with`, `state` | a tableau without rows; a state over factors with a tableau's columns | specs/Same |
//! | `GoesWith` | the state is the tableau's but for positions, rows and reduced costs | specs/Same |
//! | `HasCosts` | a form whose logicals cost nothing | specs/Same |
//!
//! The functions here have the laws as their contracts. Both runs take the same steps, since a basis fixes everything
//! but the positions (`one_basis_one_tableau` of `spec_pivot`), and the rule of the least index names columns alone.

ghost use Rattle.std.specs.Prelude.{◌≡◌, ◌⊎◌, ◌+◌, ◌≤◌, ℕ, List, length, Option, None, Ok, Err};
ghost use Rattle.spec_exact.specs.Fraction.{ℚ};
ghost use Rattle.spec_exact.specs.declared.past.Past.{Past};
ghost use Rattle.spec_model.specs.Model.{Model};
ghost use Rattle.spec_pivot.specs.declared.status.Status.{Status};
ghost use Rattle.spec_pivot.specs.Tableau.{Matrix};
ghost use Rattle.spec_pivot.specs.Simplex.{Bounds, SameStatuses, SameTableau};
ghost use Rattle.spec_simplex.specs.declared.ends.RowStart.{RowStart};
ghost use Rattle.spec_simplex.specs.declared.ends.Choice.{Choice};
ghost use Rattle.spec_simplex.specs.declared.ends.Choice.TheVariants.{Flip, Pivot};
ghost use Rattle.spec_simplex.specs.declared.ends.RunStop.TheVariants as stop;
ghost use Rattle.spec_simplex.specs.Form.{Form, form_of};
ghost use Rattle.spec_simplex.specs.Start.{cost_at};
ghost use Rattle.spec_simplex.specs.Step.{choice_run};
ghost use Rattle.spec_simplex.specs.Tableau.{Tableau};
ghost use Rattle.spec_simplex.specs.Phases.{done_run, phases_run};
ghost use Rattle.spec_check.specs.declared.solve_end.SolveEnd.TheVariants as outcome;
ghost use Rattle.spec_simplex.specs.Tables.{table_of, IsTableauOf, IsWithinBounds};
ghost use Rattle.spec_simplex.specs.Begins.{form_rows, signs_of};
ghost use Rattle.spec_runs.specs.Cold.{cold};
ghost use Rattle.spec_factor.specs.Revised.{Revised, Selection, selection_run};
ghost use Rattle.spec_factor.specs.Revised.{flip_over_run, refreshed_run, exchange_run};
ghost use Rattle.spec_factor.specs.Over.{over_run, answer_in, over_factors};
ghost use Rattle.spec_factor.specs.Same.{SameChoice, GoesWith};

/// Two tableaus of the same rows, costs and bounds with the same statuses have the same values, reduced costs and rows
/// by their basic columns. Where no operation is refused, the same step is chosen from both, named by its columns, and
/// after it they have the same statuses.
pub fn one_basis_one_step()
    ensures tableau { (m n : ℕ) (f : Matrix) (cost : ℕ → ℚ) (b : Bounds) (t u : Tableau) →
        IsTableauOf m n f cost b t → IsTableauOf m n f cost b u → SameStatuses (n + m + m) (table_of t) (table_of u) →
        SameTableau m (n + m + m) (table_of t) (table_of u) }
    ensures choice { (limit other : Option ℕ) (m n : ℕ) (f : Matrix) (cost : ℕ → ℚ) (b : Bounds) (t u : Tableau)
        (c d : Choice ℚ) →
        IsTableauOf m n f cost b t → IsTableauOf m n f cost b u → SameStatuses (n + m + m) (table_of t) (table_of u) →
        choice_run limit t ≡ Ok c → choice_run other u ≡ Ok d → SameChoice t u c d }
    ensures next { (limit other : Option ℕ) (m n : ℕ) (f : Matrix) (cost : ℕ → ℚ) (b : Bounds) (t u v w : Tableau)
        (c d : Choice ℚ) →
        IsTableauOf m n f cost b t → IsTableauOf m n f cost b u → SameStatuses (n + m + m) (table_of t) (table_of u) →
        SameChoice t u c d → done_run limit t c ≡ Ok v → done_run other u d ≡ Ok w →
        SameStatuses (n + m + m) (table_of v) (table_of w) }
{}

/// Where neither choice is refused, a state over factors that goes with a tableau takes the same one, named by columns.
/// Without a limit, and with values within their bounds, the step from the state leaves one that goes with the tableau
/// that the step leaves. Without a limit, a state whose factors are taken anew goes with the same tableau as before.
pub fn factors_step_as_tableaus()
    ensures choice { (limit other : Option ℕ) (f : Form) (starts : List (RowStart ℚ)) (costs : List ℚ) (b : Bounds)
        (t : Tableau) (s : Revised) (c : Choice ℚ) (selection : Selection) →
        IsTableauOf f.rows f.cols (form_rows f (signs_of starts)) (cost_at costs) b t →
        length costs ≤ f.cols + f.rows + f.rows → GoesWith f t s →
        choice_run other t ≡ Ok c → selection_run limit f starts costs s ≡ Ok selection →
        SameChoice t s.bare c selection.choice }
    ensures flip { (f : Form) (starts : List (RowStart ℚ)) (costs : List ℚ) (b : Bounds) (t u : Tableau)
        (s : Revised) (c : Choice ℚ) (selection : Selection) (j : ℕ) →
        IsTableauOf f.rows f.cols (form_rows f (signs_of starts)) (cost_at costs) b t →
        IsWithinBounds f.rows f.cols b t →
        length costs ≤ f.cols + f.rows + f.rows → GoesWith f t s →
        choice_run None t ≡ Ok c → selection_run None f starts costs s ≡ Ok selection → selection.choice ≡ Flip j →
        done_run None t c ≡ Ok u →
        (v : Revised) × (flip_over_run None s selection.tableau j ≡ Ok v) × GoesWith f u v }
    ensures pivot { (f : Form) (starts : List (RowStart ℚ)) (costs : List ℚ) (b : Bounds) (t u : Tableau)
        (s : Revised) (c : Choice ℚ) (selection : Selection) (p j : ℕ) (theta : ℚ) (to : Status) →
        IsTableauOf f.rows f.cols (form_rows f (signs_of starts)) (cost_at costs) b t →
        IsWithinBounds f.rows f.cols b t →
        length costs ≤ f.cols + f.rows + f.rows → GoesWith f t s →
        choice_run None t ≡ Ok c → selection_run None f starts costs s ≡ Ok selection →
        selection.choice ≡ Pivot p j theta to → done_run None t c ≡ Ok u →
        (v : Revised) × (exchange_run None f s selection.tableau p j theta to ≡ Ok v) × GoesWith f u v }
    ensures refresh { (f : Form) (t : Tableau) (s : Revised) → t.rows ≡ f.rows → t.cols ≡ f.cols → GoesWith f t s →
        (v : Revised) × (refreshed_run None f s ≡ Ok v) × GoesWith f t v }
{}

/// Without a limit the cold run over factors of a model's form ends as the one on whole tableaus: with the same kind,
/// certificate, basis and count of pivots and flips, or spent. At a limit the run over factors ends as without one, or
/// an operation is refused.
pub fn factors_end_as_tableaus()
    ensures ends { (limit : Option ℕ) (budget : ℕ) (m : Model) (f : Form) → form_of limit m ≡ Ok f →
        over_run None budget f ≡ answer_in (phases_run None budget f) }
    ensures limits { (limit : Option ℕ) (budget : ℕ) (f : Form) →
        (over_run limit budget f ≡ over_run None budget f) ⊎
        ((p : Past ℚ) × (over_run limit budget f ≡ Err (stop.Past p))) }
{}

/// With the check of its certificate the cold run over factors of a model's form ends as the cold solve without a
/// limit, or gives up with an operation that is refused.
pub fn factors_solve_as_without_a_limit()
    ensures { (limit : Option ℕ) (budget : ℕ) (m : Model) (f : Form) → form_of limit m ≡ Ok f →
        (over_factors limit budget m f ≡ cold None budget m) ⊎
        ((p : Past ℚ) × (over_factors limit budget m f ≡ outcome.Past p)) }
{}
