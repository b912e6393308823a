//! Linear programs as plain data, and the truths about them.
//!
//! | Item | What it is | Where |
//! |---|---|---|
//! | `Sense`, `Kind`, `Row`, `Column` | the parts of a model, over any names and numbers | src/parts |
//! | `RowLimit` | a limit of a row, as the operation that gives it | src/parts |
//! | `SizeLimits` | how many rows and columns a model may have | src/parts |
//! | `Model` | a model | specs/Model |
//! | `lower_by`, `upper_by`, `limits_of` | a row's limits, by its kind, its right side and its range | specs/Model |
//! | `is_free` | whether a kind of row has no limits | specs/Model |
//! | `lower_run`, `upper_run` | the same where operations may be refused | specs/Model |
//! | `coefficient`, `activity`, `value_of` | by the numbers of rows and columns | specs/Model |
//! | `IsModel`, `IsModelWithin` | what holds of each model that is kept, and of one that is kept within limits | specs/Kept |
//! | `usual_limits`, `large_limits` | the sizes of models for sessions, and for the commands that take large ones | specs/Kept |
//! | `IsWithin`, `IsUsual`, `IsUsualModel` | a model within limits, within the usual ones, and one that is kept so | specs/Kept |
//! | `IsFeasible`, `IsBetter` | points | specs/Truth |
//! | `IsOptimal`, `IsInfeasible`, `IsUnbounded` | the three truths | specs/Truth |
//!
//! The model is that of Chvátal, Linear Programming (1983), chapters 1 and 8: bounds on the variables, limits on the
//! rows, and an objective that is to be least or greatest.
#![tactic(auto)]

mod parts;

ghost use Rattle.std.specs.Prelude.{◌≡◌, ℕ, Option, None, Ok};
ghost use Rattle.spec_exact.specs.Fraction.{ℚ};
ghost use Rattle.spec_model.specs.declared.parts.RowLimit.{RowLimit};
ghost use Rattle.spec_model.specs.Model.{Model, limit_of, limit_run};
ghost use Rattle.spec_model.specs.Truth.{IsOptimal, IsInfeasible, IsUnbounded};

pub use parts::{Column, Kind, Row, RowLimit, Sense, SizeLimits};

/// No model has two of these: an optimal value, no feasible point, and no limit to its values. It has at most one
/// optimal value.
pub fn truths_exclude_each_other()
    ensures one_value { (m : Model) (v w : ℚ) → IsOptimal m v → IsOptimal m w → v ≡ w }
    ensures optimal_infeasible { (m : Model) (v : ℚ) → IsOptimal m v → ¬ (IsInfeasible m) }
    ensures optimal_unbounded { (m : Model) (v : ℚ) → IsOptimal m v → ¬ (IsUnbounded m) }
    ensures infeasible_unbounded { (m : Model) → IsInfeasible m → ¬ (IsUnbounded m) }
{}

/// A limit of a row at a limit on numbers is the exact one, or its operation is refused; without a limit on numbers
/// none is refused.
pub fn row_limits_are_exact_or_refused()
    ensures exact { (limit : Option ℕ) (o : RowLimit ℚ) (l : Option ℚ) → limit_run limit o ≡ Ok l → l ≡ limit_of o }
    ensures unlimited { (o : RowLimit ℚ) → limit_run None o ≡ Ok (limit_of o) }
{}
