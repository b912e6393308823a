//! The simplex method with bounded variables, by Bland's rule, in exact fractions: definitions and laws.
//!
//! | Item | What it is | Where |
//! |---|---|---|
//! | `FormFault`, `RowStart`, `Entering`, `Best`, `Choice`, `PrimalEnd`, `RunStop`, `StartStop`, `Fit`, `Leaving`, `Cheapest`, `DualEnd`, `DualChoice`, `WarmStop` | plain types | src/ends |
//! | `form_of` | a model's form, its clash or the first refused operation | specs/Form |
//! | `Tableau` | a whole tableau | specs/Tableau |
//! | `start_of` | the tableau that a form begins with | specs/Start |
//! | `choice_run`, `flip_run`, `pivot_run` | one step | specs/Step |
//! | `run_from`, `phase_two_run`, `phases_run` | steps up to an end, within a budget; both phases | specs/Phases |
//! | `IsBasisOf`, `eliminate_run`, `start_from` | a basis of a form, and the tableau of one | specs/Eliminate |
//! | `leaving_run`, `fit_run` | whether a tableau is primal feasible, dual feasible or neither | specs/Fit |
//! | `flips_run`, `dual_choice_run` | what comes before the dual method, and one of its steps | specs/Dual |
//! | `dual_pivot_run`, `dual_from`, `dual_run` | dual steps up to an end; the flips and then the steps | specs/Dual |
//! | `IsTableauOf`, `IsMeant`, `Begins` | what the steps mean, as steps over functions of an index, with laws | src/path, specs/Tables, specs/Begins |
//!
//! All of them take a limit: `Some m` refuses numbers past m, `None` refuses nothing.
//!
//! The method is that of Chvátal, Linear Programming (1983), chapters 3 and 8, with the rule of R. G. Bland, New finite
//! pivoting rules for the simplex method (1977).
#![tactic(auto)]

mod ends;
mod path;

pub use ends::{
    Best, Cheapest, Choice, DualChoice, DualEnd, Entering, Fit, FormFault, Leaving, PrimalEnd,
    RowStart, RunStop, StartStop, WarmStop,
};
pub use path::{phase_two_goes_on, starts_are_tableaus, steps_mean_pivots};
