// Pivots: the values change, and then the column is replaced.
ghost use Rattle.std.specs.Prelude.{◌≡◌, ◌≢◌, ◌<◌, ◌+◌, Some, OnOk, get_or, length};
ghost use Rattle.spec_exact.specs.Fraction.{0ℚ};
ghost use Rattle.spec_simplex.specs.Tableau.{all_columns};
ghost use Rattle.spec_exact.specs.Run.{refused_as};
ghost use Rattle.spec_exact.specs.Narrow.{number_limit};
ghost use Rattle.spec_simplex.specs.declared.ends.RunStop.TheVariants as cause;
ghost use Rattle.spec_simplex.specs.Step.{shifted_run, exchanged};
ghost use Rattle.spec_factor.specs.Factors.{with_pair};
ghost use Rattle.spec_factor.specs.Revised.{seen, pivot_over_run, replacements};
ghost use Rattle.lp_revised.specs.FactorAnswer.{GivesRun};
ghost use Rattle.lp_revised.specs.Answer.{LeavesRevised};
ghost use Rattle.lp_revised.specs.Moved.{WithValues, exchanged_by};
ghost use Rattle.lp_revised.specs.Selecting.{IsSolved};

use crate::select::Column;
use crate::state::{Revised, RowStart};
use crate::stop::RevisedStop;
use lp_form::{Form, Status};
use lp_frac::{Frac, Fracs, Past, add};
use std::alloc::{AllocError, Global};

impl Revised {
    // Adds `theta` to the value of column `col`, which is not basic.
    #[tactic(auto, unfolding(spec_simplex::specs::Step::shifted_run))]
    fn shift(&mut self, col: u32, theta: Frac) -> Result<(), Past>
        requires { col < all_columns self.old.bare }
        ensures value { GivesRun (shifted_run (Some number_limit) self.old.bare.value col theta) self.new.bare.value
            result }
        ensures rest { WithValues self.old self.new }
    {
        let value = add(self.value(col), theta)?;
        self.value[col as usize] = value;
        Ok(())
    }

    // Makes column `col`, which is `solved` by places, the basic one of a place of the factors, and counts the
    // replacement.
    fn replace(
        &mut self,
        alloc: Global,
        place: u32,
        col: u32,
        solved: &Fracs,
    ) -> Result<(), AllocError>
        requires place { place < self.old.bare.rows }
        requires solved { length solved.now ≡ self.old.bare.rows }
        requires entry { get_or solved.now place 0ℚ ≢ 0ℚ }
        requires few { self.old.replaced < replacements }
        ensures ok { OnOk result (self.new ≡ record {
          bare = self.old.bare;
          pairs = with_pair self.old.pairs place solved.now;
          replaced = self.old.replaced + 1;
        }) }
        ensures bare { self.new.bare ≡ self.old.bare }
    {
        let _places = self.rows();
        self.factors.replace_solved(alloc, place, col, solved)?;
        self.replaced += 1;
        Ok(())
    }

    // Makes column `col` basic at a position. The column that leaves becomes nonbasic at the bound `to`; an artificial
    // gets both bounds 0, so that it never enters again.
    fn exchange(&mut self, place: u32, col: u32, to: Status)
        requires place { place < self.old.bare.rows }
        requires column { col < all_columns self.old.bare }
        ensures { self.new ≡ record self.old { bare = exchanged self.old.bare place col to } }
    {
        let leaving = self.basic(place);
        self.put_at(leaving, to);
        if leaving >= self.form_columns() {
            self.fix(leaving);
        }
        self.basic[place as usize] = col;
        self.status[col as usize] = Status::Basic;
    }

    // Makes the pivot without the renewal of factors: the entering column moves by `theta`, the basic columns move with
    // it, and it takes the place of the column that goes to the bound `to`.
    fn exchange_values(
        &mut self,
        alloc: Global,
        starts: &[RowStart],
        column: &Column,
        place: u32,
        theta: Frac,
        to: Status,
    ) -> Result<(), RevisedStop>
        requires starts { length starts.now ≡ self.old.bare.rows }
        requires column { column.now.number < all_columns self.old.bare }
        requires all { length column.now.solved ≡ self.old.bare.rows }
        requires place { place < self.old.bare.rows }
        requires entry { get_or column.now.solved place 0ℚ ≢ 0ℚ }
        requires few { self.old.replaced < replacements }
        ensures run { LeavesRevised (refused_as cause.Past
            (exchanged_by starts.now self.old column.now.solved place column.now.number theta to)) self.new result }
        ensures rows { self.new.bare.rows ≡ self.old.bare.rows }
        ensures cols { self.new.bare.cols ≡ self.old.bare.cols }
    {
        let _ = &self.rows;
        let solved = column.solved.as_slice();
        self.move_values(starts, solved, theta, Some(place))?;
        self.shift(column.number, theta)?;
        self.replace(alloc, place, column.number, &column.solved)?;
        self.exchange(place, column.number, to);
        Ok(())
    }

    // Moves the entering column by `theta` and the basic columns with it, and makes it basic in place of
    // the column at a position, which goes to the bound `to`. After 64 replacements the factors are taken anew.
    // After a refusal the state is spent.
    pub(crate) fn pivot(
        &mut self,
        alloc: Global,
        form: &Form,
        starts: &[RowStart],
        column: &Column,
        place: u32,
        theta: Frac,
        to: Status,
    ) -> Result<(), RevisedStop>
        requires rows { form.now.rows ≡ self.old.bare.rows }
        requires cols { form.now.cols ≡ self.old.bare.cols }
        requires starts { length starts.now ≡ self.old.bare.rows }
        requires column { IsSolved form.now self.old column.now }
        requires place { place < self.old.bare.rows }
        requires entry { get_or column.now.solved place 0ℚ ≢ 0ℚ }
        requires few { self.old.replaced < replacements }
        ensures run { LeavesRevised (pivot_over_run (Some number_limit) form.now self.old
            (seen starts.now self.old.bare column.now.number column.now.solved) place column.now.number theta
            to) self.new result }
        ensures rows { self.new.bare.rows ≡ self.old.bare.rows }
        ensures cols { self.new.bare.cols ≡ self.old.bare.cols }
        ensures fresh { OnOk result (self.new.replaced < replacements) }
    {
        self.exchange_values(alloc, starts, column, place, theta, to)?;
        self.refresh(alloc, form)
    }
}
