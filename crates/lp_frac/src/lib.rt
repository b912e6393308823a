//! Exact fractions whose parts have at most 127 bits.
//!
//! An operation gives the exact result in lowest terms, or is refused where a number on the way
//! is past `LARGEST`, and the refusal shows the operation and its operands as they were given.
//! Its contract is one equation with the definition of `spec_exact` at that limit, for both
//! outcomes. Nothing is rounded, and nothing here takes memory but the lists.
//!
//! | Item | What it is | Where |
//! |---|---|---|
//! | `Frac`, `Frac::new`, `zero`, `one` | a fraction; one of two whole numbers; 0 and 1 | src/frac, src/readers |
//! | `add` `sub` `mul` `div` `cmp` | the operations that can be refused | src/operations |
//! | `neg` `abs` `sign` `num` `den` `is_zero` `is_negative` `is_positive` `are_same` | the ones that never are | src/readers |
//! | `plus_product`, `less_product` | a product, and then its sum with a number, or what is left of the number | src/less |
//! | `within` `all_within` | that the parts of a fraction, or of all of a list, are within the limit | src/readers |
//! | `narrow`, `narrow_if` | the same fraction, of which contracts on models then know that it has at most 127 bits | src/readers |
//! | `Past`, `Op` | a refusal, and the operation that it names | src/frac |
//! | `FracFault` | why two whole numbers make no fraction | src/frac |
//! | `Fracs`, `Entries`, `zeros` | lists of fractions, and of a column's entries; a list of zeros | src/lists |
//! | `Stop` | why something is not made of fractions | src/stop |
//!
//! Contracts cite `number_limit` of specs/Narrow and the operations of specs/Limit and specs/Run, all of spec_exact.
#![tactic(auto)]

mod divisors;
mod frac;
mod less;
mod limited;
mod lists;
mod lowest;
mod operations;
mod readers;
mod reduced;
mod short;
mod small;
mod stop;

pub use frac::{Frac, FracFault, LARGEST, Op, Past};
pub use less::{less_product, plus_product};
pub use lists::{Entries, Fracs, zeros};
pub use operations::{add, cmp, div, mul, sub};
pub use readers::{
    abs, all_within, are_same, den, is_negative, is_positive, is_zero, narrow, narrow_if, neg, num,
    one, sign, within, zero,
};
pub use stop::Stop;
