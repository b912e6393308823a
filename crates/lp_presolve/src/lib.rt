//! The solve of a model by a smaller one, with the certificate carried back.
//!
//! | Item | What it is | Where |
//! |---|---|---|
//! | `presolve` | the solve by the smaller model, and else by the model as it is | src/presolving |
//! | `Presolved` | what a solve by a smaller model ends with | src/presolving |
//! | `Way`, `Why` | which model was solved, and why it was not the smaller one | src/presolving |
//!
//! Inside, a presolve stands on these:
//!
//! | Item | What it is | Where |
//! |---|---|---|
//! | `Tries` | what is found by the smaller model, or why nothing is | specs/Tries |
//! | `copied` | a copy of a model, to be made smaller | src/copying |
//! | `reduce`, `Steps` | all reductions of a model, and what is kept of them | src/reductions, src/step |
//! | `carry` | a certificate carried back over all reductions | src/carrying |
//! | `alone_at` | a list with one number that is not 0 | src/carrying |
//! | `Spent` | that the budget is spent, which callers put beside a refusal | src/reductions |
//!
//! What is promised of the end is `IsPresolved` of `spec_presolve`. The solve of the smaller model has the whole
//! budget, and so has that of the model as it is, which follows only where an operation is refused on the way by the
//! smaller one, or the budget is spent on it.
//!
//! The definitions are those of `spec_presolve`. They speak of a list of models, one for each step; the code changes
//! one copy of the model in place, and keeps of each step what a certificate needs.
#![tactic(auto)]

mod bounds;
mod carrying;
mod choosing;
mod copying;
mod last;
mod presolving;
mod reductions;
mod rows;
mod shrinking;
mod step;

pub use presolving::{Presolved, Way, Why, presolve};
