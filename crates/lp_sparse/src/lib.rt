//! Sparse factors of matrices over a field, and exact solutions of equations by lifting modulo a prime.
//!
//! | Item | What it is | Where |
//! |---|---|---|
//! | `lifted_solution`, `Solved` | numerators on one denominator, from digits modulo powers of the prime | src/solution |
//! | `System`, `Right` | equations by unknown with the factors of their matrix, and their right sides | src/lifting |
//! | `congruent` | the fraction that has a residue | src/euclid |
//! | `factorize`, `Factors` | sparse factors over a field, or over floats | src/factors |
//! | `Lines`, `Entry` | rows or columns of a sparse matrix | src/lines |
//! | `Ordered`, `Sparse`, `Marked` | factors by their steps, for right sides most of whose numbers are 0 | src/factors/by_steps |
//! | `Field`, `Residue` | numbers of a matrix; residues modulo a prime | src/field, src/residue |
//! | `digits`, `wide` | wide numbers to the base of the prime, and in words | src/digits, src/wide |
//!
//! Equations are solved by p-adic lifting (Dixon, "Exact solution of linear equations using p-adic expansions", 1982), on
//! sparse factors modulo one prime.
//! Nothing is claimed of the numbers that are found: who uses them checks them.
#![tactic(auto)]

pub mod digits;
mod euclid;
mod factors;
mod field;
mod lifting;
mod lines;
mod residue;
mod solution;
pub mod wide;

pub use factors::{Factored, Factors, Marked, Ordered, Sparse, factorize, order_factors};
pub use field::Field;
pub use lifting::{Right, System};
pub use lines::{Entry, Lines, numbered, turned};
pub use residue::{PRIME, Residue};
pub use solution::{Solved, Whole, lifted_solution};
