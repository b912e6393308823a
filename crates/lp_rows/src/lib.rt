//! The integer-row tableau: rows of integers over one denominator each.
//!
//! | Item | What it is | Where |
//! |---|---|---|
//! | `Row` | a row with its denominator and the value of its basic column | src/fractions, src/row |
//! | `order` | the order of two products | src/ratio |
//! | `Listed` | numbers of lists that are made of those of rows: of 127 bits, or of any width | src/number, src/narrow, src/wide |
//! | `RowFraction` | a number of a row over a denominator | src/number |
//! | `fractions` | what a row means: exact fractions | specs/Row |
//! | `at` | the whole number of a column | specs/Row |
//! | `tableau` | tableaus over such rows: the step of the primal method, its start and its ends | src/tableau |
#![tactic(auto)]

mod choice;
mod fractions;
mod narrow;
mod number;
mod overflow;
mod ratio;
mod row;
pub mod tableau;
mod wide;

pub use fractions::Row;
pub use number::{Listed, RowFraction};
pub use ratio::order;
