//! Exact ranging: the ranges of single costs and right sides in which a basis stays optimal.
//!
//! | Item | What it is | Where |
//! |---|---|---|
//! | `Ranging` | a basis of which the range of each column's cost, and of each row's right side, is read off one tableau | src/ranging |
//! | `Range` | a range, with its ends as far as they are there, and the slope of the optimal value | src/ends |
//!
//! Each is exactly spec_range's `cost_range` or `side_range`, up to the first operation that overflows, and by
//! its laws the whole span.
#![tactic(auto)]

mod carried;
mod columns;
mod ends;
mod moved;
mod ranging;

pub use ends::Range;
pub use ranging::Ranging;
