//! Tableaus of 127 bits: the start from a form, and the pivots, flips and phases on them.
//!
//! | Item | What it is | Where |
//! |---|---|---|
//! | `Tableau`, `start_cold` | a tableau; the one that a form begins with | src/tableau, src/start |
//! | `start` | the parts of that tableau that need no rows, by columns and by rows of the form | src/start, src/row_starts |
//! | `start_from` | the tableau of a basis | src/basis |
//! | `Tableau::pivot`, `flip`, `phase_two` | the changes, each exact or refused as `spec_simplex` has it | src/pivot, src/moves, src/price |
//! | `Pivot` | the column that enters in a pivot, and the position at which it becomes basic | src/pivot |
//! | `Tableau::wants_phase_one`, `is_stuck` | whether an artificial is basic, and whether a basic one is not 0 | src/phases |
//! | `or_zero`, `stand`, `directed`, `flip_way`, `other_bound`, `is_place` | the values of nonbasic columns, and which way a column goes in a flip | src/steps, src/moves |
//! | `is_fixed` | whether a column has equal bounds | src/steps |
//! | `is_zero` | whether a number is 0, as the definitions test it | src/solve |
//! | `PrimalEnd`, `RunStop` | how a run of steps ends, and why it does not | src/ends |
//! | `ColdStop` | why a form has no start | src/ends |
//!
//! Rows are kept one after the other in one block, which never grows, and without the artificial columns: each is its
//! row's logical or the negative of it all through. Contracts see a tableau as the record of spec_simplex's
//! specs/Tableau, with all columns.
#![tactic(auto)]

mod basis;
mod coefficients;
mod elimination;
mod ends;
mod grid;
mod moves;
mod phases;
mod pivot;
mod price;
mod row_starts;
mod solve;
pub mod start;
mod steps;
mod tableau;
mod twins;

pub use basis::start_from;
pub use ends::{ColdStop, PrimalEnd, RunStop};
pub use moves::{directed, flip_way, is_place, other_bound};
pub use pivot::Pivot;
pub use solve::is_zero;
pub use start::start_cold;
pub use steps::{is_fixed, or_zero, stand};
pub use tableau::Tableau;
