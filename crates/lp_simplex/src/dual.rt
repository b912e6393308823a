//! The dual simplex method on a tableau of 127 bits, and whether a tableau is primal or dual feasible.
//!
//! | Item | What it is | Where |
//! |---|---|---|
//! | `fit` | whether a tableau is primal or dual feasible | src/dual/needs |
//! | `run` | flips that give each reduced cost its sign, and then dual steps up to an end | src/dual/steps |
//! | `position_of` | the position of a basic column, for ranging too | src/dual/choice |
//! | `Fit`, `DualEnd` | what they answer | `spec_simplex` |
//! | `fit_tableaus_can_run` | that a dual feasible tableau may be run | here |
//!
//! Each is exactly spec_simplex's `fit_run` or `dual_run`, up to the operation that overflows and
//! the budget that is spent. They take no memory.

mod candidates;
mod choice;
mod flips;
mod leaving;
mod needs;
mod steps;

ghost use Rattle.std.specs.Prelude.{◌≡◌, ℕ, Option, Ok};
ghost use Rattle.spec_exact.specs.Fraction.{ℚ};
ghost use Rattle.spec_pivot.specs.Tableau.{Matrix};
ghost use Rattle.spec_pivot.specs.Simplex.{Bounds};
ghost use Rattle.spec_simplex.specs.Tableau.{Tableau};
ghost use Rattle.spec_simplex.specs.declared.ends.Fit.TheVariants.{Dual};
ghost use Rattle.spec_runs.specs.Based.{IsBased};
ghost use Rattle.spec_simplex.specs.Fit.{fit_run};
ghost use Rattle.lp_simplex.specs.Starts.{IsDualStart};

pub use choice::position_of;
pub use needs::fit;
pub use spec_simplex::{DualEnd, Fit};
pub use steps::run;

/// A tableau of a basis that `fit` finds fit for the dual method may be given to `run`. Each basic column has a
/// position, and each column that needs its other bound has one to go to.
pub fn fit_tableaus_can_run()
    ensures { (limit : Option ℕ) (m n : ℕ) (f : Matrix) (cost : ℕ → ℚ) (b : Bounds) (t : Tableau) →
        IsBased m n f cost b t → fit_run limit t ≡ Ok Dual → IsDualStart t }
{}
