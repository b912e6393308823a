//! The simplex method on a tableau of 127 bits, primal and dual, by Bland's rule.
//!
//! | Item | What it is | Where |
//! |---|---|---|
//! | `primal` | the primal run, with the tests of one column and of one position that other methods use too | src/primal |
//! | `dual` | whether a tableau is primal or dual feasible, and the dual run | src/dual |
//!
//! Each run takes steps up to an end, the first operation that overflows, or a spent budget. They take no memory.
#![tactic(auto)]

pub mod dual;
pub mod primal;
