//! The simplex method over factors of 127 bits: the revised simplex method.
//!
//! | Item | What it is | Where |
//! |---|---|---|
//! | `cold_over_factors`, `RunEnd` | the cold run over factors within a budget, and what it ends with | src/cold_run |
//! | `Certificate` | the certificate of an end | src/ends |
//! | `RevisedStop`, `Spent` | why a run does not end by itself | src/stop |
//!
//! Inside, a run stands on these:
//!
//! | Item | What it is | Where |
//! |---|---|---|
//! | `Revised`, `RowStart` | a state of the run; how a row began, which fixes the sign of its artificial | src/state |
//! | `Revised::run` | steps up to an end | src/steps |
//! | `Revised::select`, `Selected` | what a step sees and chooses | src/select |
//! | `Revised::flip`, `pivot`, `refactor` | the changes, and factors taken anew | src/moves, src/pivot, src/refactor |
//! | `factor`, `Factors` | factors of the basic columns of a basis, in product form | src/choose, src/factors |
//! | `Factors::ftran`, `btran` | the solutions for the basis's columns and for its rows | src/factors |
//! | `Factors::replace_solved` | another column, whose solution is at hand, in one place | src/factors |
//! | `column_of` | a column of the form's equations, by rows | src/choose |
//! | `narrow`, `tell_narrow` | the fact that numbers have at most 127 bits | src/items |
//!
//! Each operation is exact and does what `spec_factor` defines, or is refused where `spec_factor` refuses it. A reduced
//! cost is taken over its column's entries alone. A pair is held as the items of its column that are not 0: an
//! operation with an operand 0 is never refused, so leaving it out changes nothing. Contracts see a state and factors
//! as the records of spec_factor's specs/Revised and specs/Factors.
#![tactic(auto)]

mod choose;
mod cold_run;
mod costs;
mod ends;
mod eta;
mod factors;
mod items;
mod moves;
mod phases;
mod pivot;
mod pricing;
mod ratio;
mod refactor;
mod select;
mod solve;
mod state;
mod steps;
mod stop;

pub use cold_run::{RunEnd, cold_over_factors};
pub use ends::Certificate;
pub use stop::{RevisedStop, Spent};
