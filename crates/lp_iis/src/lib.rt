//! The search for an irreducible infeasible subset of a model.
//!
//! | Item | What it is | Where |
//! |---|---|---|
//! | `find` | such a set of a model that has no feasible point, with a certificate and points | src/finding |
//! | `Iis` | what a search ends with | src/lists |
//! | `Sides`, `Points` | lists of sides, and of points | src/lists |
//! | `only` | the model with some of its sides alone | src/alone |
//!
//! What is promised of the end is `MayFind` of `spec_iis`. The sides that are looked at are those that the certificate
//! of the model's solve uses; each of them is left out if the others stay infeasible, in order. That they do is known
//! without a solve where the last certificate uses the others alone. Each solve has the whole budget, and no basis is
//! handed to it. Which set is found depends on that order: there may be smaller ones.
#![tactic(auto)]

mod alone;
mod certificate;
mod columns;
mod few;
mod finding;
mod limits;
mod listed;
mod lists;
mod look;
mod places;
mod rows;
mod trial;

pub use alone::only;
pub use finding::find;
pub use lists::{Iis, Points, Sides};
pub use spec_iis::Side;
