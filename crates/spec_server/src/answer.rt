// What a session keeps of a solve, over the type F of numbers, L of lists of numbers and B of bases.
use spec_board::Put;
use spec_check::SolveEnd;
use spec_runs::Fall;
use std::fmt::Debug;

/// How an answer was found.
#[derive(Clone, Copy)]
pub enum How {
    /// From the start that each model has.
    Cold,
    /// From the basis at this place.
    Basis(u32),
    /// From the start that each model has, since that from the basis at this place was given up.
    Fell(u32, Fall),
}

/// What became of the basis of an answer, which other sessions may be given.
#[derive(Clone, Copy)]
pub enum Publication {
    /// It is no optimum with a basis.
    Nothing,
    /// Its basis is the one that was found.
    Same,
    /// One try was made to publish its basis.
    Tried(Put),
}

/// The last answer of a session: how its last solve ended, how that was found, and what became of its basis.
#[derive(Drop)]
pub struct LastAnswer<F: Debug, L, B> {
    /// What the solve ended with.
    pub solved: SolveEnd<F, L, B>,
    pub how: How,
    pub publication: Publication,
}
