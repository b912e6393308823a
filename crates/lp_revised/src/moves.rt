// How the basic columns move with the entering one, and flips.
ghost use Rattle.std.specs.Prelude.{◌≡◌, ◌<◌, Some, length};
ghost use Rattle.spec_exact.specs.Narrow.{number_limit};
ghost use Rattle.spec_simplex.specs.Tableau.{all_columns};
ghost use Rattle.spec_simplex.specs.Step.{flipped};
ghost use Rattle.spec_factor.specs.Revised.{seen, flip_over_run};
ghost use Rattle.lp_revised.specs.FactorAnswer.{GivesRun};
ghost use Rattle.lp_revised.specs.Moved.{WithValues, moved_by, moves_by};

use crate::state::{Revised, RowStart};
use lp_form::Status;
use lp_frac::{Frac, Past, less_product, sub};
use lp_tableau::{directed, flip_way, is_place, or_zero, other_bound, stand};

impl Revised {
    // Moves the basic column at position `i` as the entering one, whose column of the tableau is `solved`, moves by
    // `theta`: by the opposite of its entry times `theta`.
    fn move_at(
        &mut self,
        starts: &[RowStart],
        solved: &[Frac],
        theta: Frac,
        i: u32,
    ) -> Result<(), Past>
        requires starts { length starts.now ≡ self.old.bare.rows }
        requires solved { length solved.now ≡ self.old.bare.rows }
        requires place { i < self.old.bare.rows }
        ensures moved { GivesRun (moved_by starts.now self.old.bare solved.now theta i self.old.bare.value)
            self.new.bare.value result }
        ensures rest { WithValues self.old self.new }
    {
        let k = self.basic(i);
        let value = less_product(self.entry(starts, solved, i), theta, self.value(k))?;
        self.value[k as usize] = value;
        Ok(())
    }

    // Moves all basic columns as the entering one moves by `theta`, but for the column at position `but`, if there is
    // one.
    pub(crate) fn move_values(
        &mut self,
        starts: &[RowStart],
        solved: &[Frac],
        theta: Frac,
        but: Option<u32>,
    ) -> Result<(), Past>
        requires starts { length starts.now ≡ self.old.bare.rows }
        requires solved { length solved.now ≡ self.old.bare.rows }
        ensures moved { GivesRun (moves_by starts.now self.old.bare solved.now theta but self.old.bare.rows)
            self.new.bare.value result }
        ensures rest { WithValues self.old self.new }
    {
        for i in 0..self.rows() {
            if !is_place(but, i) {
                self.move_at(starts, solved, theta, i)?;
            }
        }
        Ok(())
    }

    // Makes column `col` nonbasic at the bound `to`, with that bound as its value, or 0 for `AtZero`.
    pub(crate) fn put_at(&mut self, col: u32, to: Status)
        requires { col < all_columns self.old.bare }
        ensures { self.new ≡ record self.old { bare = flipped self.old.bare col to self.old.bare.value } }
    {
        let value = stand(to, self.lower(col), self.upper(col));
        self.value[col as usize] = value;
        self.status[col as usize] = to;
    }

    // Moves column `col`, whose column of the tableau is `solved`, to its other bound, and the basic columns with it.
    // After a refusal the state is spent.
    pub(crate) fn flip(
        &mut self,
        starts: &[RowStart],
        solved: &[Frac],
        col: u32,
    ) -> Result<(), Past>
        requires starts { length starts.now ≡ self.old.bare.rows }
        requires solved { length solved.now ≡ self.old.bare.rows }
        requires column { col < all_columns self.old.bare }
        ensures run { GivesRun (flip_over_run (Some number_limit) self.old (seen starts.now self.old.bare col
            solved.now)
            col) self.new result }
        ensures rows { self.new.bare.rows ≡ self.old.bare.rows }
        ensures cols { self.new.bare.cols ≡ self.old.bare.cols }
        ensures replaced { self.new.replaced ≡ self.old.replaced }
    {
        let _ = &self.rows;
        let range = sub(or_zero(self.upper(col)), or_zero(self.lower(col)))?;
        let way = flip_way(self.status(col));
        self.move_values(starts, solved, directed(way, range), None)?;
        self.put_at(col, other_bound(way));
        Ok(())
    }
}
