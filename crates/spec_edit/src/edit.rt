// Edits of a model, over the type N of names, F of numbers, P of lists of pairs of a name and a number,
// and B of bounds.
use spec_model::{Kind, Sense};
use std::fmt::Debug;
use thiserror::Error;

/// An edit of a model. Rows and columns are named; new ones go last.
#[derive(Drop)]
pub enum Edit<N, F, P, B> {
    /// Adds a row without entries, which goes last.
    AddRow {
        name: N,
        kind: Kind,
        rhs: F,
        range: Option<F>,
    },
    DelRow(N),
    /// Adds a column that is at least 0 and has no upper bound, with each of these numbers as its coefficient in the
    /// row that goes with it. It goes last.
    AddCol {
        name: N,
        cost: F,
        pairs: P,
    },
    DelCol(N),
    SetCost(N, F),
    /// Sets the coefficient of a column in a row.
    SetCoef {
        row: N,
        column: N,
        value: F,
    },
    /// Sets the right side of a row; of the objective, the offset to the negative of the number.
    SetRhs(N, F),
    SetRange(N, Option<F>),
    SetBound {
        column: N,
        bounds: B,
    },
    SetSense(Sense),
}

/// What there is so much of that none may be added.
#[derive(Clone, Copy, Debug)]
pub enum Which {
    Rows,
    Columns,
}

/// Why an edit is refused.
#[derive(Debug, Drop, Error)]
pub enum EditFault<N: Debug> {
    /// Where the edit names a row, no row has the name; where it names a column, no column has it.
    #[error("expected the name of a row or a column, but found {0:?}")]
    UnknownName(N),
    /// The objective or a row has the name of a new row already, or a column has that of a new column.
    #[error("expected a new name, but {0:?} is taken")]
    Taken(N),
    /// There are as many rows or columns as a session's model may have, or more: which of both, and how many it may.
    #[error("expected room for one more of the {0:?}, but there are {1} already")]
    Limit(Which, u32),
    /// The new name is none that a row or a column may have.
    #[error("expected a name that a row or a column may have, but found another text")]
    BadName,
    /// The row stands twice among those of a new column.
    #[error("expected each row once in a new column, but found {0:?} twice")]
    Repeated(N),
    /// The row that is to have a range has no limits.
    #[error("expected a row with limits to have a range, but {0:?} is free")]
    FreeRow(N),
}
