//! Exact ranging: with which numbers in place of one cost or one right side a basis stays optimal.
//!
//! | Item | What it is | Where |
//! |---|---|---|
//! | `Ends`, `Range` | the ends of a range; a range and how the value grows in it | src/range |
//! | `Keeps`, `Span` | a basis shows that its point is optimal; the numbers with which it does | specs/Span |
//! | `IsRange` | a range has exactly these numbers, and its slope says the optimal values | specs/Span |
//! | `cost_range`, `side_range` | the ranges over the tableau of a basis, at a limit | specs/Rule |
//!
//! The model with another number is that of spec_edit: `with_cost` and `with_rhs`. The functions here have the laws as
//! their contracts. The laws hold at every limit: a range at a limit is the exact one.
//!
//! Ranging is that of Chvátal, Linear Programming (1983), chapter 10, with bounds on the variables and on the rows.
#![tactic(auto)]

mod range;

ghost use Rattle.std.specs.Prelude.{◌≡◌, ◌<◌, ◌⊎◌, ℕ, List, Option, Some, None, Ok, Err};
ghost use Rattle.spec_exact.specs.Fraction.{ℚ};
ghost use Rattle.spec_exact.specs.declared.past.Past.{Past};
ghost use Rattle.spec_model.specs.Model.{Model, width, height, row, cost};
ghost use Rattle.spec_model.specs.Truth.{IsOptimal};
ghost use Rattle.spec_check.specs.declared.certificate.Certificate.{Certificate};
ghost use Rattle.spec_check.specs.declared.certificate.Known.{Known};
ghost use Rattle.spec_check.specs.declared.solve_end.SolveEnd.TheVariants.{Ended};
ghost use Rattle.spec_edit.specs.Changes.{with_cost, with_rhs};
ghost use Rattle.spec_pivot.specs.declared.status.Status.{Status};
ghost use Rattle.spec_simplex.specs.declared.ends.StartStop.TheVariants as stop;
ghost use Rattle.spec_simplex.specs.Form.{Form, form_of};
ghost use Rattle.spec_simplex.specs.Phases.{PhasesEnd, phases_run};
ghost use Rattle.spec_runs.specs.Cold.{basis_of, cold};
ghost use Rattle.spec_range.specs.declared.range.Range.{Range};
ghost use Rattle.spec_range.specs.Span.{Keeps, IsRange};
ghost use Rattle.spec_range.specs.Rule.{cost_range, side_range};

pub use range::{Ends, Range};

/// Where a basis shows the optimum of a model, the range of a cost or right side, if no operation is refused, has
/// exactly the numbers with which it still does. The slope of the range says the optimal value with each of them.
pub fn ranges_are_spans()
    ensures cost { (limit : Option ℕ) (m : Model) (f : Form) (basis : List Status) (j : ℕ) (r : Range ℚ) (v : ℚ) →
        form_of limit m ≡ Ok f → j < width m → Keeps m basis → IsOptimal m v → cost_range limit m f basis j ≡ Ok r →
        IsRange (with_cost m j) basis (cost m j) v r }
    ensures side { (limit : Option ℕ) (m : Model) (f : Form) (basis : List Status) (i : ℕ) (r : Range ℚ) (v : ℚ) →
        form_of limit m ≡ Ok f → i < height m → Keeps m basis → IsOptimal m v → side_range limit m f basis i ≡ Ok r →
        IsRange (with_rhs m i) basis (row m i).rhs v r }
{}

/// Where a basis shows the optimum of a model, each cost and right side has a range without a limit on numbers. At a
/// limit at which the model has a form, the range from that form is the same, or an operation is refused.
pub fn ranges_stop_only_by_refusals()
    ensures cost { (limit : Option ℕ) (m : Model) (f : Form) (basis : List Status) (j : ℕ) →
        form_of limit m ≡ Ok f → Keeps m basis →
        (r : Range ℚ) × (cost_range None m f basis j ≡ Ok r) × ((cost_range limit m f basis j ≡ Ok r)
        ⊎ ((p : Past ℚ) × (cost_range limit m f basis j ≡ Err (stop.Past p)))) }
    ensures side { (limit : Option ℕ) (m : Model) (f : Form) (basis : List Status) (i : ℕ) →
        form_of limit m ≡ Ok f → Keeps m basis →
        (r : Range ℚ) × (side_range None m f basis i ≡ Ok r) × ((side_range limit m f basis i ≡ Ok r)
        ⊎ ((p : Past ℚ) × (side_range limit m f basis i ≡ Err (stop.Past p)))) }
{}

/// Where the cold solve of a model ends with an optimum, the basis that it leaves shows this optimum.
pub fn optimal_bases_keep_models()
    ensures answer { (limit : Option ℕ) (budget : ℕ) (m : Model) (known : Known ℚ) (cert : Certificate (List ℚ))
        (left : List Status) (pivots : ℕ) → cold limit budget m ≡ Ended known cert (Some left) pivots → Keeps m left }
    ensures phases { (limit : Option ℕ) (budget : ℕ) (m : Model) (f : Form) (e : PhasesEnd) (left : List Status) →
        form_of limit m ≡ Ok f → phases_run limit budget f ≡ Ok e → basis_of e ≡ Some left → Keeps m left }
{}
