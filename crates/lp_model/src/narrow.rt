// That the fractions of rows and columns have at most 127 bits, as contracts on models say it.
ghost use Rattle.std.specs.Prelude.{◌≡◌, All};
ghost use Rattle.spec_exact.specs.Narrow.{IsNarrow};
ghost use Rattle.spec_model.specs.Kept.{IsNarrowRow, IsNarrowColumn};

use crate::model::{Column, Row};
use lp_frac::{narrow, narrow_if};

/// Gives a row as it is, whose numbers are then known to have at most 127 bits.
pub(crate) fn narrow_row(row: Row) -> Row
    ensures value { result ≡ row }
    ensures narrow { IsNarrowRow row }
{
    Row {
        rhs: narrow(row.rhs),
        range: narrow_if(row.range),
        ..row
    }
}

/// Gives a column as it is, whose cost and bounds are then known to have at most 127 bits, as its coefficients were.
pub(crate) fn narrow_column(column: Column) -> Column
    requires { All (λ e. IsNarrow e.1) column.entries }
    ensures value { result ≡ column }
    ensures narrow { IsNarrowColumn column }
{
    Column {
        cost: narrow(column.cost),
        lower: narrow_if(column.lower),
        upper: narrow_if(column.upper),
        ..column
    }
}
