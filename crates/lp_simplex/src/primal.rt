//! The primal simplex method on a tableau of 127 bits, by Bland's rule.
//!
//! `run` takes steps until no column may enter, nothing stops the column that enters, an operation is
//! past 127 bits, or the budget is spent, exactly as spec_simplex's `run_from` has it. It takes no
//! memory. The tests of one column, `is_fixed` and `way`, serve the dual method too, and the ratio test at
//! one position, `range` and `best_at`, and what follows of the least ratio, `chosen`, the run over factors.

mod choice;
mod entering;
mod ratio;
mod steps;

pub use choice::chosen;
pub use entering::way;
pub use lp_tableau::is_fixed;
pub use ratio::{Best, Position, best_at, range};
pub use steps::run;
