// Reduced costs, and the change to phase two.
ghost use Rattle.std.specs.Prelude.{◌≡◌, ◌<◌, Some, false, slice_set};
ghost use Rattle.spec_exact.specs.Fraction.{0ℚ};
ghost use Rattle.spec_exact.specs.Narrow.{number_limit};
ghost use Rattle.spec_simplex.specs.Tableau.{all_columns};
ghost use Rattle.spec_simplex.specs.Start.{cost_at as cost_of, reduced_run, priced_run};
ghost use Rattle.spec_simplex.specs.Phases.{is_stuck, without_artificials, phase_two_run};
ghost use Rattle.lp_tableau.specs.Answer.{GivesRun};

use crate::tableau::Tableau;
use lp_form::Form;
use lp_frac::{Frac, Past, is_zero, less_product, within, zero};

// The cost of column `k`, and 0 where the list of costs is shorter.
fn cost_at(costs: &[Frac], k: u32) -> Frac
    ensures { result ≡ cost_of costs.now k }
{
    match costs.get(k as usize) {
        Some(cost) => *cost,
        None => zero(),
    }
}

impl Tableau {
    // The reduced cost of column `k` for these costs: its cost less those of the basic columns times its entries in
    // their rows. Refused where a number is past 127 bits.
    fn reduced_cost(&self, costs: &[Frac], k: u32) -> Result<Frac, Past>
        requires { k < all_columns self.now }
        ensures { result ≡ reduced_run (Some number_limit) self.now costs.now k }
    {
        let mut rest = cost_at(costs, k);
        for i in 0..self.rows() {
            let cost = cost_at(costs, self.basic(i));
            let entry = self.entry(i, k);
            within(entry);
            within(rest);
            if is_zero(cost) {
                continue;
            }
            rest = less_product(cost, entry, rest)?;
        }
        Ok(rest)
    }

    // Replaces the reduced cost of a column.
    fn set_reduced(&mut self, k: u32, cost: Frac)
        requires { k < all_columns self.old }
        ensures { self.new ≡ record self.old { reduced = slice_set self.old.reduced k cost } }
    {
        self.reduced[k as usize] = cost;
    }

    // Sets the reduced costs of all columns for these costs. Refused where a number is past 127 bits.
    pub(crate) fn price(&mut self, costs: &[Frac]) -> Result<(), Past>
        ensures priced { GivesRun (priced_run (Some number_limit) self.old costs.now) self.new.reduced result }
        ensures rest { self.new ≡ record self.old { reduced = self.new.reduced } }
    {
        for k in 0..self.width() {
            let cost = self.reduced_cost(costs, k)?;
            self.set_reduced(k, cost);
        }
        Ok(())
    }

    // Fixes column `k` at 0: both its bounds become 0.
    pub(crate) fn fix(&mut self, k: u32)
        requires { k < all_columns self.old }
        ensures { self.new ≡ record self.old {
          lower = slice_set self.old.lower k (Some 0ℚ);
          upper = slice_set self.old.upper k (Some 0ℚ);
        } }
    {
        self.lower[k as usize] = Some(zero());
        self.upper[k as usize] = Some(zero());
    }

    // Fixes all artificials at 0.
    fn fix_artificials(&mut self)
        ensures { self.new ≡ without_artificials self.old }
    {
        let first = self.cols() + self.rows();
        for i in 0..self.rows() {
            self.fix(first + i);
        }
    }

    /// Goes on to phase two: all artificials are fixed at 0, and the costs are the form's. Refused where a number is
    /// past 127 bits; the tableau is of no use then.
    pub fn phase_two(&mut self, form: &Form) -> Result<(), Past>
        requires same_rows { form.now.rows ≡ self.old.rows }
        requires same_cols { form.now.cols ≡ self.old.cols }
        requires at_zero { is_stuck self.old ≡ false }
        ensures { GivesRun (phase_two_run (Some number_limit) form.now self.old) self.new result }
    {
        self.fix_artificials();
        self.price(form.costs())
    }
}
