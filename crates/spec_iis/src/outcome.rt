// What a search for an irreducible infeasible subset ends with, over the type S of lists of sides, C of certificates,
// P of lists of points and E of ends of solves.

/// What a search for an irreducible infeasible subset of a model ends with.
#[derive(Drop)]
pub enum Iis<S, C, P, E> {
    /// No point meets these sides together.
    Found {
        sides: S,
        /// What shows it of the model with these sides alone.
        certificate: C,
        /// For each side, a point that meets all the others.
        points: P,
    },
    /// The solve of the model ends so, and not with that no point is feasible.
    Other(E),
    /// No point of the model is feasible, and the solve of a set of its sides gives up.
    Stopped(E),
}
