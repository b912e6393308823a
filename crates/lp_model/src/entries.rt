// Changes of a column's entries, which stand in the order of their rows.
ghost use Rattle.std.specs.Prelude.{◌≡◌, ◌<◌, ◌≤◌, ◌-◌, ◌++◌, All, length, map, take, drop, OnOk, OnErr};
ghost use Rattle.std.specs.List.{AllPairs};
ghost use Rattle.spec_exact.specs.Narrow.{IsNarrow};
ghost use Rattle.spec_edit.specs.Changes.{with_entry, without_entry};
ghost use Rattle.lp_model.specs.Place.{IsPlace};

use lp_frac::{Entries, Frac, is_zero, narrow};
use std::alloc::AllocError;

/// Gives row `row` the coefficient `value` in a column's entries, which stay in the order of their rows. 0 takes the
/// row's entry out. Without memory the entries stay as they were.
pub(crate) fn put_entry(entries: &mut Entries, row: u32, value: Frac) -> Result<(), AllocError>
    requires { AllPairs (λ d e. d.0 < e.0) entries.old }
    ensures ok { OnOk result (entries.new ≡ with_entry row value entries.old) }
    ensures err { OnErr result (entries.new ≡ entries.old) }
    ensures narrow { IsNarrow value }
{
    let value = narrow(value);
    let gone = is_zero(value);
    match place_of(entries.as_slice(), row) {
        Ok(place) => {
            if gone {
                entries.remove(place);
            } else {
                entries.set(place, (row, value));
            }
            Ok(())
        }
        Err(place) => {
            if gone {
                Ok(())
            } else {
                entries.insert(place, (row, value))
            }
        }
    }
}

/// Takes the entry of row `row`, if there is one, out of a column's entries. The numbers of all later rows fall by one.
pub(crate) fn take_row_out(entries: &mut Entries, row: u32)
    requires { AllPairs (λ d e. d.0 < e.0) entries.old }
    ensures { entries.new ≡ without_entry row entries.old }
{
    match place_of(entries.as_slice(), row) {
        Ok(own) => {
            entries.remove(own);
            lower_rows(entries, own);
        }
        Err(place) => lower_rows(entries, place),
    }
}

/// The place of the row's entry among a column's entries, or else, as `Err`, the place where it belongs.
pub(crate) fn place_of(entries: &[(u32, Frac)], row: u32) -> Result<usize, usize>
    requires { AllPairs (λ d e. d.0 < e.0) entries.now }
    ensures { IsPlace row entries.now result }
{
    entries.binary_search_by_key(&row, |e| e.0)
}

// Lowers the row numbers of the entries from place `place` on by one.
fn lower_rows(entries: &mut Entries, place: usize)
    requires inside { place ≤ length entries.old }
    requires above { All (λ e. 0 < e.0) (drop place entries.old) }
    ensures { entries.new ≡ take place entries.old ++ map (λ e. (e.0 - 1, e.1)) (drop place entries.old) }
{
    for at in place..entries.len() {
        let (row, value) = entries.at(at);
        entries.set(at, (row - 1, value));
    }
}
