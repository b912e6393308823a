// Why a text spells no model.
ghost use Rattle.std.specs.Prelude.{◌≡◌};
ghost use Rattle.spec_mps.specs.Checks.{fault_code};

use crate::number::NumFault;
use thiserror::Error;

/// What is wrong with a line of a text.
#[derive(Clone, Copy, Debug)]
pub enum Code {
    /// This section may not stand here.
    SectionOrder,
    /// There is no such section.
    UnknownSection,
    /// These are not the fields of a card of this section.
    CardShape,
    /// There is no such type of rows.
    RowType,
    /// A row has this name already.
    RowTaken,
    /// There is no such row.
    UnknownRow,
    /// A column has this name already, and its cards do not stand together.
    ColumnTaken,
    /// This row has a number already.
    EntryRepeated,
    /// This is no number.
    NumberShape,
    /// This number is past 127 bits.
    NumberWide,
    /// There is no such kind of bounds, or not with this value.
    BoundKind,
    /// Columns of whole numbers are not read.
    Integer,
    /// Semi-continuous columns are not read.
    SemiContinuous,
    /// There is no such column.
    UnknownColumn,
    /// There is no row of type N.
    NoObjective,
    /// There are too many rows or columns, or this line is too long.
    Limit,
    /// This is no name.
    Name,
    /// The objective has no range.
    RangeOnObjective,
    /// The text ends before ENDATA.
    Cut,
}

impl From<NumFault> for Code {
    ghost from_gives = { λ fault code. code ≡ fault_code fault };

    /// The code for what is wrong with a number's text: `NumberShape` where it is no number, `NumberWide` where it is
    /// past 127 bits.
    fn from(fault: NumFault) -> Self {
        match fault {
            NumFault::Shape => Code::NumberShape,
            NumFault::Wide => Code::NumberWide,
        }
    }
}

/// The first line of a text that is wrong, counted from 1, and what is wrong with it.
#[derive(Clone, Copy, Debug, Error)]
#[error("line {line}: {code:?}")]
pub struct MpsFault {
    pub line: u32,
    pub code: Code,
}
