// The kinds of bounds.

/// The kind of a card in `BOUNDS`.
#[derive(Clone, Copy)]
pub enum BoundKind {
    /// `UP`: the upper bound.
    Up,
    /// `LO`: the lower bound.
    Lo,
    /// `FX`: both.
    Fx,
    /// `FR`: there is none.
    Fr,
    /// `MI`: there is no lower one.
    Mi,
    /// `PL`: there is no upper one.
    Pl,
}
