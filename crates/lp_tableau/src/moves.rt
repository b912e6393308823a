// How the basic columns move with one that is not basic, and flips.
ghost use Rattle.std.specs.Prelude.{◌≡◌, ◌<◌, Some, slice_set};
ghost use Rattle.spec_exact.specs.Narrow.{number_limit};
ghost use Rattle.spec_simplex.specs.Tableau.{all_columns};
ghost use Rattle.spec_simplex.specs.Step.{CanFlip, directed as directed_by, other_bound as other_bound_of};
ghost use Rattle.spec_simplex.specs.Step.{is_place as is_place_of, moved_at};
ghost use Rattle.spec_simplex.specs.Step.{moved_run, flip_way as flip_way_of, flipped, flip_run};
ghost use Rattle.lp_tableau.specs.Answer.{GivesRun};

use crate::steps::{or_zero, stand};
use crate::tableau::Tableau;
use lp_form::Status;
use lp_frac::{Frac, Past, is_zero, less_product, neg, sub, within};
use spec_pivot::Way;

/// `v`, or its negative where the entering column falls.
#[inline(always)]
pub fn directed(way: Way, v: Frac) -> Frac
    ensures { result ≡ directed_by way v }
{
    match way {
        Way::Up => v,
        Way::Down => neg(v),
    }
}

/// The bound that a column moves to: the upper one where it rises, the lower one where it falls.
pub fn other_bound(way: Way) -> Status
    ensures { result ≡ other_bound_of way }
{
    match way {
        Way::Up => Status::AtUpper,
        Way::Down => Status::AtLower,
    }
}

/// The way in which a flip moves a column of this status: up from its lower bound, else down.
pub fn flip_way(status: Status) -> Way
    ensures { result ≡ flip_way_of status }
{
    match status {
        Status::AtLower => Way::Up,
        Status::Basic | Status::AtUpper | Status::AtZero => Way::Down,
    }
}

/// Whether `but` names position `i`; false where it names none.
pub fn is_place(but: Option<u32>, i: u32) -> bool
    ensures { result ≡ is_place_of but i }
{
    match but {
        Some(position) => i == position,
        None => false,
    }
}

impl Tableau {
    // Replaces the value of a column.
    pub(crate) fn set_value(&mut self, col: u32, value: Frac)
        requires { col < all_columns self.old }
        ensures { self.new ≡ record self.old { value = slice_set self.old.value col value } }
    {
        self.value[col as usize] = value;
    }

    // Moves the basic column of position `i` as the nonbasic column `col` moves by `theta`: by the opposite of its
    // entry times `theta`. Refused where a number is past 127 bits.
    fn move_at(&mut self, col: u32, theta: Frac, i: u32) -> Result<(), Past>
        requires col_in_range { col < all_columns self.old }
        requires place_in_range { i < self.old.rows }
        ensures moved { GivesRun (moved_at (Some number_limit) self.old col theta i self.old.value) self.new.value
            result }
        ensures rest { self.new ≡ record self.old { value = self.new.value } }
    {
        let k = self.basic(i);
        let (entry, value) = (self.entry(i, col), self.value(k));
        within(theta);
        within(value);
        if is_zero(entry) {
            return Ok(());
        }
        let moved = less_product(entry, theta, value)?;
        self.set_value(k, moved);
        Ok(())
    }

    // Moves all basic columns as the nonbasic column `col` moves by `theta`, but for the one at position `but`, if
    // there is one. Refused where a number is past 127 bits.
    pub(crate) fn move_values(
        &mut self,
        col: u32,
        theta: Frac,
        but: Option<u32>,
    ) -> Result<(), Past>
        requires { col < all_columns self.old }
        ensures moved { GivesRun (moved_run (Some number_limit) self.old col theta but) self.new.value result }
        ensures rest { self.new ≡ record self.old { value = self.new.value } }
    {
        for i in 0..self.rows() {
            if !is_place(but, i) {
                self.move_at(col, theta, i)?;
            }
        }
        Ok(())
    }

    // Sets the status of column `col` to the bound `to`, and its value to that bound, or to 0 where it has none.
    pub(crate) fn put_at(&mut self, col: u32, to: Status)
        requires { col < all_columns self.old }
        ensures { self.new ≡ flipped self.old col to self.old.value }
    {
        let value = stand(to, self.lower(col), self.upper(col));
        self.set_value(col, value);
        self.status[col as usize] = to;
    }

    /// Moves a column to its other bound, and the basic columns with it. Refused where a number is past 127 bits; the
    /// tableau is of no use then.
    pub fn flip(&mut self, col: u32) -> Result<(), Past>
        requires { CanFlip self.old col }
        ensures { GivesRun (flip_run (Some number_limit) self.old col) self.new result }
    {
        let range = sub(or_zero(self.upper(col)), or_zero(self.lower(col)))?;
        let way = flip_way(self.status(col));
        self.move_values(col, directed(way, range), None)?;
        self.put_at(col, other_bound(way));
        Ok(())
    }
}
