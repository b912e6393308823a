//! The check of certificates.
//!
//! | Item | What it is | Where |
//! |---|---|---|
//! | `check` | what the conditions of `spec_check`, run at 127 bits, say of a certificate | src/conditions |
//! | `Certificate` | what is given to show something of one model | src/certificate |
//! | `part` | a number of a certificate's list | src/steps |
//! | `priced` | the part of multipliers in a column, or why it is not computed | src/farkas |
//! | `signed` | a cost where the objective is made least | src/multipliers |
//! | `Verdict`, `Known`, `CheckStop` | what a check says, what a certificate shows, and why it shows nothing | src/certificate |
//! | `wide` | the same for certificates whose numbers have any width | src/wide |
//!
//! That an accepted certificate is true is a law of `spec_check`; the contract here is an equation with what the law
//! speaks of.
#![tactic(auto)]

mod certificate;
mod conditions;
mod farkas;
mod multipliers;
mod point;
mod ray;
mod steps;
pub mod wide;

pub use certificate::{Certificate, CheckStop, Known, Verdict};
pub use conditions::check;
pub use farkas::priced;
pub use multipliers::signed;
pub use steps::part;
