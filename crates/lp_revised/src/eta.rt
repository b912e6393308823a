// Pairs of factors: a place, and the items of a column that are not 0.
ghost use Rattle.std.specs.Prelude.{◌≡◌, ◌≢◌, ◌<◌, ◌≤◌, Some, All, IfOk, length, get_or};
ghost use Rattle.spec_exact.specs.Fraction.{0ℚ};
ghost use Rattle.spec_model.specs.Kept.{row_limit};
ghost use Rattle.spec_exact.specs.Narrow.{IsNarrow, number_limit};
ghost use Rattle.spec_factor.specs.Factors.{forward_run, backward_run};
ghost use Rattle.lp_revised.specs.FactorAnswer.{GivesRun};
ghost use Rattle.lp_revised.specs.Eta.{AreItems};

use crate::items::less_part;
use lp_frac::{Entries, Frac, Fracs, Past, div, is_zero, less_product, narrow};
use std::alloc::{AllocError, Global};
use std::marker::Model;

// The items of `column` that are not 0, with their places, in ascending order.
fn entries_of(alloc: Global, column: &Fracs) -> Result<Entries, AllocError>
    requires { length column.now ≤ row_limit }
    ensures { IfOk result (AreItems (length column.now) column.now) }
{
    let mut entries = Entries::new(alloc);
    for i in 0..column.len() {
        let value = narrow(column.at(i));
        if !is_zero(value) {
            entries.push((i as u32, value))?;
        }
    }
    Ok(entries)
}

// A pair of factors: a place of a list of `rows` items, and the items of its column that are not 0. `pivot` is the item
// at the place.
#[derive(Drop)]
pub(crate) struct Eta {
    rows: u32,
    place: u32,
    pivot: Frac,
    entries: Entries,
}

impl Model for Eta {
    ghost use Rattle.spec_factor.specs.Factors.{Pair};
    ghost use Rattle.lp_revised.specs.Eta.{IsEta, pair_of, pair_code};

    ghost Value = { Pair };

    ghost coded = { pair_code };

    ghost view = { λ e. pair_of e.rows e.place e.entries };

    ghost invariant = { λ e. IsEta e.rows e.place e.pivot e.entries };
}

impl Eta {
    // The eta pair of a place and of `column`, a list by places that is not 0 at the place.
    pub(crate) fn from_list(alloc: Global, place: u32, column: &Fracs) -> Result<Eta, AllocError>
        requires few { length column.now ≤ row_limit }
        requires inside { place < length column.now }
        requires not_zero { get_or column.now place 0ℚ ≢ 0ℚ }
        ensures { IfOk result (λ e. e ≡ record { place = place; column = column.now }) }
    {
        let entries = entries_of(alloc, column)?;
        Ok(Eta {
            rows: column.len() as u32,
            place,
            pivot: column.at(place as usize),
            entries,
        })
    }

    // Applies the pair to `v`: divides the item at the place by the pivot, and subtracts the quotient times each other
    // entry from the item at that entry's row. After a refusal `v` may hold any numbers.
    pub(crate) fn forward(&self, v: &mut Fracs) -> Result<(), Past>
        requires all { length self.now.column ≡ length v.old }
        requires narrow { All IsNarrow v.old }
        ensures run { GivesRun (forward_run (Some number_limit) (length v.old) self.now v.old) v.new result }
        ensures all { length v.new ≡ length v.old }
        ensures narrow { All IsNarrow v.new }
    {
        let place = self.place as usize;
        let by = narrow(div(v.at(place), self.pivot)?);
        v.set(place, by);
        if is_zero(by) {
            return Ok(());
        }
        for (row, value) in self.entries.as_slice() {
            if *row != self.place {
                let rest = narrow(less_product(*value, by, v.at(*row as usize))?);
                v.set(*row as usize, rest);
            }
        }
        Ok(())
    }

    // Applies the transpose of the pair to `v`: subtracts each other entry times the item at its row from the item at
    // the place, and divides that by the pivot. Other items stay. After a refusal `v` may hold any numbers.
    pub(crate) fn backward(&self, v: &mut Fracs) -> Result<(), Past>
        requires all { length self.now.column ≡ length v.old }
        requires narrow { All IsNarrow v.old }
        ensures run { GivesRun (backward_run (Some number_limit) (length v.old) self.now v.old) v.new result }
        ensures all { length v.new ≡ length v.old }
        ensures narrow { All IsNarrow v.new }
    {
        let place = self.place as usize;
        let mut rest = narrow(v.at(place));
        for (row, value) in self.entries.as_slice() {
            if *row != self.place {
                rest = narrow(less_part(v.at(*row as usize), *value, rest)?);
            }
        }
        let by = narrow(div(rest, self.pivot)?);
        v.set(place, by);
        Ok(())
    }
}
