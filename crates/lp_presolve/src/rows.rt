// The entries of a row.
ghost use Rattle.std.specs.Prelude.{◌≡◌, ◌<◌};
ghost use Rattle.spec_model.specs.Model.{height};
ghost use Rattle.spec_presolve.specs.Choose as choose;

use lp_frac::{Frac, are_same, zero};
use lp_model::Model;

// The entries of a row: none, one, or more.
pub(crate) type InRow = spec_presolve::InRow<Frac>;

// What was found in a row, with the entry of one more column. An entry of 0 counts for none.
fn and_next(found: InRow, column: u32, value: Frac) -> InRow
    ensures { result ≡ choose.and_next found column value }
{
    if are_same(value, zero()) {
        return found;
    }
    match found {
        InRow::Nothing => InRow::One { column, value },
        InRow::One { .. } => InRow::More,
        InRow::More => InRow::More,
    }
}

// What entries row `i` has: none, one, or more.
pub(crate) fn in_row(model: &Model, i: u32) -> InRow
    requires { i < height model.now }
    ensures { result ≡ choose.in_row model.now i }
{
    let mut found = InRow::Nothing;
    for j in 0..model.cols() {
        found = and_next(found, j, model.entry(i, j));
        if matches!(&found, InRow::More) {
            return InRow::More;
        }
    }
    found
}
