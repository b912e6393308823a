// The parts of a model, over the type N of names, F of numbers and E of a column's entries.

/// Whether the objective is to be least or greatest.
#[derive(Clone, Copy)]
pub enum Sense {
    Min,
    Max,
}

/// A row's sum is at most (`L`), at least (`G`) or equal to (`E`) its right side, or it has no limits (`N`): the row is
/// free. A range gives an `L`, `G` or `E` row both limits.
#[derive(Clone, Copy)]
pub enum Kind {
    L,
    G,
    E,
    N,
}

/// A row of a model: a sum of coefficients times columns, which its kind, right side and range limit.
#[derive(Drop)]
pub struct Row<N, F> {
    pub name: N,
    pub kind: Kind,
    /// The right side.
    pub rhs: F,
    /// If there is one: its absolute value is how far at most the sum is from the right side. Free rows that are kept
    /// have none.
    pub range: Option<F>,
}

/// A column: a variable with its cost, its bounds and its coefficients.
#[derive(Drop)]
pub struct Column<N, F, E> {
    pub name: N,
    pub cost: F,
    pub lower: Option<F>,
    pub upper: Option<F>,
    /// The coefficients that are not 0, each with the number of its row.
    pub entries: E,
}

/// A limit of a row, if it has one, by the operation that gives it, if it takes one.
#[derive(Clone, Copy)]
pub enum RowLimit<F> {
    /// There is none.
    Absent,
    /// This number, which takes no operation.
    Given(F),
    /// The first number plus the second one.
    Sum(F, F),
    /// The first number less the second one.
    Difference(F, F),
}

/// How many rows and columns a model may have at most.
#[derive(Clone, Copy)]
pub struct SizeLimits {
    pub rows: u32,
    pub columns: u32,
}
