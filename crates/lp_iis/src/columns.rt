// The columns of a model with some of its sides alone.
ghost use Rattle.std.specs.Prelude.{◌≡◌, ◌<◌, ◌++◌, All, IfOk, OnOk, None, length, get_or};
ghost use Rattle.spec_exact.specs.Run.{made};
ghost use Rattle.spec_model.specs.Model.{height, width};
ghost use Rattle.spec_iis.specs.Only as only;
ghost use Rattle.lp_iis.specs.Reading.{entry_by, place_by};

use crate::listed::{has_lower, has_upper};
use lp_frac::{Entries, Frac, zero};
use lp_model::{Column, Model};
use spec_iis::Side;
use std::alloc::{AllocError, Global};

// The number of row `i` among the rows that stay; none if it does not stay.
fn place_at(places: &[Option<u32>], i: u32) -> Option<u32>
    requires { i < length places.now }
    ensures { result ≡ get_or places.now i None }
{
    places[i as usize]
}

// Adds the entry of `v` at a place, the number of its row, to the list; nothing where there is no place. Memory may run
// out.
fn push_at(to: &mut Entries, place: Option<u32>, v: Frac) -> Result<(), AllocError>
    ensures { OnOk result (to.new ≡ to.old ++ entry_by place v) }
{
    if let Some(place) = place {
        to.push((place, v))?;
    }
    Ok(())
}

// The entries of a column in the rows that stay, by the rows' numbers among these. Memory may run out.
fn entries_left(
    alloc: Global,
    entries: &[(u32, Frac)],
    sides: &[Side],
    height: u32,
    places: &[Option<u32>],
) -> Result<Entries, AllocError>
    requires places { places.now ≡ made height (place_by (only.stays sides.now)) }
    requires inside { All (λ e. e.0 < height) entries.now }
    ensures { IfOk result (λ left. left ≡ only.only_entries (only.stays sides.now) entries.now) }
{
    let mut left = Entries::new(alloc);
    for entry in entries {
        let place = place_at(places, entry.0);
        push_at(&mut left, place, entry.1)?;
    }
    Ok(left)
}

// The bound, if its side is listed, else none.
fn if_listed(listed: bool, bound: Option<Frac>) -> Option<Frac>
    ensures { result ≡ only.if_listed listed bound }
{
    if listed { bound } else { None }
}

// Column `j` with the bounds that are listed, without a cost, and its entries in the rows that stay. Memory may run
// out.
fn column_with(
    alloc: Global,
    model: &Model,
    sides: &[Side],
    places: &[Option<u32>],
    j: u32,
) -> Result<Column, AllocError>
    requires places { places.now ≡ made (height model.now) (place_by (only.stays sides.now)) }
    requires inside { j < width model.now }
    ensures { IfOk result (λ c. c ≡ only.only_column_at model.now sides.now j) }
{
    let column = model.col(j);
    let entries = entries_left(alloc, model.entries(j), sides, model.rows(), places)?;
    Ok(Column {
        name: column.name.copy(alloc)?,
        cost: zero(),
        lower: if_listed(has_lower(sides, false, j), column.lower),
        upper: if_listed(has_upper(sides, false, j), column.upper),
        entries,
    })
}

/// All columns of the model, each with its bounds that are listed, the cost 0, and its entries in the rows that stay.
/// Memory may run out.
pub(crate) fn columns(
    alloc: Global,
    model: &Model,
    sides: &[Side],
    places: &[Option<u32>],
) -> Result<Vec<Column>, AllocError>
    requires { places.now ≡ made (height model.now) (place_by (only.stays sides.now)) }
    ensures { IfOk result (λ columns. columns.items ≡ made (width model.now) (only.only_column_at model.now sides.now)) }
{
    let mut columns = Vec::new(alloc);
    for j in 0..model.cols() {
        columns.push(column_with(alloc, model, sides, places, j)?)?;
    }
    Ok(columns)
}
