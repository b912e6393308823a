// Pivots, part by part: the values, the rows, the reduced costs and the basis.
ghost use Rattle.std.specs.Prelude.{◌≡◌, ◌≢◌, ◌<◌, Some, length, slice_set};
ghost use Rattle.spec_exact.specs.Fraction.{0ℚ};
ghost use Rattle.spec_exact.specs.Narrow.{number_limit};
ghost use Rattle.spec_pivot.specs.declared.status.Status.TheVariants.{Basic};
ghost use Rattle.spec_simplex.specs.Tableau.{all_columns, entry_at};
ghost use Rattle.spec_simplex.specs.Step.{CanPivot, turned_run, repriced_run, shifted_run, exchanged, pivot_run};
ghost use Rattle.lp_tableau.specs.Answer.{GivesRun};
ghost use Rattle.lp_tableau.specs.Grid.{IsGrid};

use crate::tableau::Tableau;
use crate::twins::Twins;
use lp_form::Status;
use lp_frac::{Frac, Past, add, is_zero, less_product, within};

/// Where a pivot is: the column that enters, and the position at which it becomes basic.
#[derive(Clone, Copy)]
pub struct Pivot {
    pub position: u32,
    pub column: u32,
}

// Subtracts the multiple of the pivot's row from the reduced costs with which that of the pivot's column becomes 0. The
// rows are pivoted already. Refused where a number is past 127 bits.
fn reprice(reduced: &mut [Frac], grid: &Twins, height: u32, at: Pivot) -> Result<(), Past>
    requires shape { IsGrid height (length reduced.old) grid.now }
    requires place { at.position < height }
    requires column { at.column < length reduced.old }
    ensures costs { GivesRun (repriced_run (Some number_limit) (length reduced.old) reduced.old grid.now at.position
        at.column) reduced.new result }
    ensures len { length reduced.new ≡ length reduced.old }
{
    let (p, j) = (at.position, at.column);
    let times = reduced[j as usize];
    within(times);
    for k in 0..reduced.len() {
        let (entry, cost) = (grid.at(p as usize, k), reduced[k]);
        within(cost);
        if is_zero(entry) {
            continue;
        }
        reduced[k] = less_product(times, entry, cost)?;
    }
    Ok(())
}

impl Tableau {
    // Adds `theta` to the value of column `col`, which is nonbasic. Refused where the sum is past 127 bits.
    #[tactic(auto, unfolding(spec_simplex::specs::Step::shifted_run))]
    fn shift(&mut self, col: u32, theta: Frac) -> Result<(), Past>
        requires { col < all_columns self.old }
        ensures value { GivesRun (shifted_run (Some number_limit) self.old.value col theta) self.new.value result }
        ensures rest { self.new ≡ record self.old { value = self.new.value } }
    {
        let value = add(self.value(col), theta)?;
        self.set_value(col, value);
        Ok(())
    }

    // Pivots the rows: afterwards the pivot's column has 1 at its position and 0 at all other positions. Refused where
    // a number is past 127 bits.
    fn turn_rows(&mut self, at: Pivot) -> Result<(), Past>
        requires place { at.position < self.old.rows }
        requires column { at.column < all_columns self.old }
        requires entry { entry_at self.old at.position at.column ≢ 0ℚ }
        ensures rows { GivesRun (turned_run (Some number_limit) self.old.rows
            (all_columns self.old) self.old.entries at.position at.column) self.new.entries result }
        ensures rest { self.new ≡ record self.old { entries = self.new.entries } }
    {
        let (rows, width) = (self.rows(), self.width());
        self.grid.turn(rows, width, at)
    }

    // Updates the reduced costs so that that of the pivot's column becomes 0, after the rows are pivoted. Refused where
    // a number is past 127 bits.
    fn reprice(&mut self, at: Pivot) -> Result<(), Past>
        requires place { at.position < self.old.rows }
        requires column { at.column < all_columns self.old }
        ensures costs { GivesRun (repriced_run (Some number_limit)
            (all_columns self.old) self.old.reduced self.old.entries at.position at.column) self.new.reduced result }
        ensures rest { self.new ≡ record self.old { reduced = self.new.reduced } }
    {
        let rows = self.rows();
        reprice(&mut self.reduced, &self.grid, rows, at)
    }

    // Notes the pivot's column as the basic one of its position: in the list of basic columns and in its own status.
    // Rows, reduced costs and the status of the column that was basic there stay.
    fn make_basic(&mut self, at: Pivot)
        requires place { at.position < self.old.rows }
        requires column { at.column < all_columns self.old }
        ensures { self.new ≡ record self.old {
          basic = slice_set self.old.basic at.position at.column;
          status = slice_set self.old.status at.column Basic;
        } }
    {
        self.basic[at.position as usize] = at.column;
        self.status[at.column as usize] = Status::Basic;
    }

    // Makes the column at the pivot's position nonbasic at the bound `to`, and the pivot's column basic there. An
    // artificial column that leaves has the bound 0 from then on.
    fn exchange(&mut self, at: Pivot, to: Status)
        requires place { at.position < self.old.rows }
        requires column { at.column < all_columns self.old }
        ensures { self.new ≡ exchanged self.old at.position at.column to }
    {
        let leaving = self.basic(at.position);
        let artificials = self.cols() + self.rows();
        self.put_at(leaving, to);
        self.make_basic(at);
        if leaving >= artificials {
            self.fix(leaving);
        }
    }

    /// Moves the pivot's column by `theta` and the basic columns with it, and makes it basic in place of the one at the
    /// position, which goes to the bound `to`. Refused where a number is past 127 bits; the tableau is of no use then.
    pub fn pivot(&mut self, at: Pivot, theta: Frac, to: Status) -> Result<(), Past>
        requires { CanPivot self.old at.position at.column theta to }
        ensures { GivesRun (pivot_run (Some number_limit) self.old at.position at.column theta to) self.new result }
    {
        self.move_values(at.column, theta, Some(at.position))?;
        self.shift(at.column, theta)?;
        self.turn_rows(at)?;
        self.reprice(at)?;
        self.exchange(at, to);
        Ok(())
    }
}
