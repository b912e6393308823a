//! Runs on the integer-row tableau, cold and from a basis, in words of 64 bits, and in wider ones where a number does
//! not fit. These have 128 and 256 bits, and then up to 512, 1,024 and 2,048. The cold run goes on from where it
//! stands. The run from a basis, which solves the form's equations for the columns of the basis, begins anew.
//!
//! | Item | What it is | Where |
//! |---|---|---|
//! | `cold_over_rows` | the cold run of a form within a budget, with a certificate in one kind of numbers | src/cold_run |
//! | `RowEnd` | what a run ends with | src/phases |
//! | `wide_warm` | the run from a basis of a form within a budget | src/warm_run |
//! | `AllWidths`, `Widths` | the widths of words, and a run in words of one width after the other | src/ladder |
//! | `at_start`, `at_basis` | where a run begins, in words of one width | src/start |
//! | `State`, `Phase` | how far a run is | src/phases |
//! | `go_on` | both phases at one width, from a state on | src/phases |
//! | `run` | steps at one width | src/steps |
//! | `from_basis` | the rows of the tableau that a form has for a basis | src/based |
//! | `is_fit` | whether each basic value is within its bounds | src/fit |
//! | `Elimination` | equations that are solved for one column after the other | src/elimination |
//! | `unsolved`, `place_values` | the form's equations, and the values of the nonbasic columns | src/equations |
//! | `EndsFromBasis` | what the run from a basis ends with | specs/Warm |
//! | `IsSolvedBelow` | which elimination of exact fractions the rows are | specs/Rows |
//!
//! The cold run ends with the end of spec_simplex's `phases_run` without a limit. The run from a basis ends with that of
//! spec_runs's `warm_run` without a limit, by the primal method. That they end is not promised: numbers past the widest
//! words, the budget and a bound on the work let them give up.
#![tactic(auto)]

mod based;
mod cold_run;
mod elimination;
mod equations;
mod fit;
mod ladder;
mod phases;
mod start;
mod steps;
mod warm_run;

pub use cold_run::cold_over_rows;
pub use phases::RowEnd;
pub use warm_run::wide_warm;
