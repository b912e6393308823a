//! The check of certificates whose numbers have any width.
//!
//! | Item | What it is | Where |
//! |---|---|---|
//! | `check` | what the conditions of `spec_check`, run without a limit, say of a certificate | src/wide/conditions |
//! | `Certificate` | what is given to show something of one model | src/wide/certificate |
//! | `Ratios` | a certificate's list of numbers | src/wide/certificate |
//! | `Verdict`, `Known` | what a check says, and what a certificate shows | src/wide/certificate |
//! | `evaluated`, `reduced_costs`, `part` | the sums of all rows, the reduced costs of all columns, and a number of a list | src/wide/sums, src/wide/prices, src/wide/steps |
//! | `limit_of`, `lower_limit`, `upper_limit`, `stands_at` | limits, and whether a number is at one | src/wide/limits, src/wide/steps |
//!
//! The model's numbers are narrow. Nothing is refused unless memory runs out, so a verdict is never `Past`. That an
//! accepted certificate is true, and a true one accepted, are laws of `spec_check` about what the contract names. Each list is
//! taken as many times as its common denominator, if it has a short one, and the entries are gone over once for the sums of all
//! rows, and once for the reduced costs of all columns.

mod certificate;
mod conditions;
mod farkas;
mod limits;
mod multipliers;
mod point;
mod prices;
mod ray;
mod steps;
mod sums;

pub use certificate::{Certificate, Known, Ratios, Verdict};
pub use conditions::check;
pub use limits::{limit_of, lower_limit, upper_limit};
pub use prices::reduced_costs;
pub use steps::{part, stands_at};
pub use sums::{Evaluation, evaluated};
