//! The exact answer of a basis with its certificate, by sparse factors modulo a prime and lifting.
//!
//! | Item | What it is | Where |
//! |---|---|---|
//! | `answer_of_basis` | the certificate of a basis, or of one that is reached from it in a few steps | src/answer |
//! | `Lifted` | such a certificate, with its basis | src/lifted |
//! | `Program`, statuses | a model with logical columns, and where columns stand | src/program, src/statuses |
//! | `prepare`, `Kernel` | the basic structural columns in the rows whose logical is not basic, with whole numbers, factored | src/kernel, src/scales, src/wide_kernel |
//! | `solve_columns`, `solve_rows` | the two systems of a basis | src/solving, src/sides, src/wide_sides |
//! | `rooms`, `all_reduced`, `rates_of` | how columns stand and move, with exact signs | src/standing, src/wide_standing, src/amounts, src/near |
//! | `blocked`, `dual_entering`, `shift` | which column enters, and which leaves | src/moves, src/shifts |
//!
//! Numbers are of 127 bits where that is enough, and else of any width: the files `wide_*` have that way.
//! The systems are solved by lp_sparse. Nothing is claimed of the numbers that are found: who uses them checks them.
#![tactic(auto)]

mod amounts;
mod answer;
mod kernel;
mod lifted;
mod moves;
mod near;
mod numbers;
mod program;
mod scales;
mod shifts;
mod sides;
mod solving;
mod standing;
mod statuses;
mod wide_kernel;
mod wide_sides;
mod wide_standing;

pub use answer::answer_of_basis;
pub use lifted::Lifted;
