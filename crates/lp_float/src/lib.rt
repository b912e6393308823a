//! The float run: the simplex method in floats, with sparse factors, of which nothing is claimed.
//!
//! | Item | What it is | Where |
//! |---|---|---|
//! | `float_end`, `FloatEnd` | how a run for a model ends: its statuses, and why there is no optimum | src/guess, src/end |
//! | `near_end` | how a short run ends, from a basis that is likely near an end | src/guess |
//! | `Program`, `program_of` | a program in floats, scaled; that of a model | src/program, src/model, src/scaling |
//! | `run`, `run_near` | a run from a basis to its end, and a short one | src/runs |
//! | `logical_start` | the basis of the logical columns | src/runs |
//! | `run_dual` | the dual method, by the steepest edge | src/dual, src/dual_ratio |
//! | `run_primal` | the primal method, by the weights of Devex | src/primal, src/primal_ratio |
//! | `State` | the basis, the values and the reduced costs of a run | src/state, src/statuses, src/rebuild |
//! | `Basis` | the factors of a basis, with the product form of what changed since | src/basis |
//! | `add_line`, `add_to`, `put_in` | changes of `Sparse` of lp_sparse, whose numbers are 0 for the most part | src/sparse |
//!
//! Nothing is claimed of what a run finds, but that it is safe and ends: who uses a basis solves for it exactly.
#![tactic(auto)]

mod basis;
mod dual;
mod dual_ratio;
mod end;
mod guess;
mod model;
mod number;
mod primal;
mod primal_ratio;
mod program;
mod rebuild;
mod runs;
mod scaling;
mod sparse;
mod state;
mod statuses;

pub use end::FloatEnd;
pub use guess::{float_end, near_end};
