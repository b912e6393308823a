// Columns, and the numbers of the one that is read.
ghost use Rattle.std.specs.Prelude.{◌≡◌, OnOk};
ghost use Rattle.spec_mps.specs.Reader as reader;
ghost use Rattle.lp_mps.specs.InOrder.{in_order, ordered};

use lp_base::Name;
use lp_frac::{Entries, Frac, is_zero, zero};
use lp_model::Column;
use spec_mps::Target;
use std::alloc::{AllocError, Global};
use std::mem;

/// A column with the cost 0, the lower bound 0, no upper bound and no entries.
pub(crate) fn make_column(alloc: Global, name: Name) -> Column
    ensures { result ≡ reader.new_column name }
{
    Column {
        name,
        cost: zero(),
        lower: Some(zero()),
        upper: None,
        entries: Entries::new(alloc),
    }
}

/// Gives the column a number: as its cost in place of the one it has, or as a further entry in a row. The number 0 is
/// no entry.
pub(crate) fn put_number(column: &mut Column, target: Target, value: Frac) -> Result<(), AllocError>
    ensures ok { OnOk result (ordered column.new ≡ reader.with_number (ordered column.old) target value) }
    ensures named { column.new.name ≡ column.old.name }
{
    match target {
        Target::Objective => {
            column.cost = value;
            Ok(())
        }
        Target::Row(row) => {
            if is_zero(value) {
                return Ok(());
            }
            column.entries.push((row, value))
        }
    }
}

/// Sorts entries by their rows. Entries of one row keep their order.
pub(crate) fn sort_entries(alloc: Global, entries: &mut Entries) -> Result<(), AllocError>
    ensures { OnOk result (entries.new ≡ in_order entries.old) }
{
    let mut items = mem::replace(entries, Entries::new(alloc)).into_vec();
    let sorted = sort_items(&mut items);
    drop(mem::replace(entries, Entries::from_vec(items)));
    sorted
}

// Sorts pairs by their rows. Of two pairs of one row, the first stays the first.
fn sort_items(items: &mut Vec<(u32, Frac)>) -> Result<(), AllocError>
    ensures { OnOk result (items.new.items ≡ in_order items.old.items) }
{
    items.sort_by_key(|e| e.0)?;
    Ok(())
}
