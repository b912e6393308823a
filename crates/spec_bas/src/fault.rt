// Why a file spells no basis.
use thiserror::Error;

/// What is wrong with a line of a basis file.
#[derive(Clone, Copy, Debug)]
pub enum BasCode {
    /// There is no such section, or NAME may not stand here.
    Section,
    /// This is no card, or this line is too long.
    Card,
    /// There is no such column.
    UnknownColumn,
    /// There is no such row.
    UnknownRow,
    /// A card before has this column or this row.
    Repeated,
    /// This column has no upper bound.
    NoUpperBound,
    /// The file, or what may be read of it, ends before ENDATA.
    Cut,
}

/// The first line of a basis file that is wrong, counted from 1, and what is wrong with it.
#[derive(Clone, Copy, Debug, Error)]
#[error("line {line}: {code:?}")]
pub struct BasFault {
    pub line: u32,
    pub code: BasCode,
}
