// What the phases ask of a state, and the change to phase two.
ghost use Rattle.std.specs.Prelude.{◌≡◌, ◌<◌, not, ◌&&◌, Some, slice_set};
ghost use Rattle.spec_exact.specs.Fraction.{0ℚ, eq_ℚ};
ghost use Rattle.spec_simplex.specs.Tableau as tableaus;
ghost use Rattle.spec_simplex.specs.Phases as phases;
ghost use Rattle.spec_factor.specs.Over.{second_state};
ghost use Rattle.lp_revised.specs.Moved.{fixed_at};

use crate::state::Revised;
use lp_frac::{Frac, are_same, zero};

impl Revised {
    // Whether column `k` is an artificial one: it is behind the columns of the form.
    fn is_artificial(&self, k: u32) -> bool
        ensures { result ≡ tableaus.is_artificial self.now.bare k }
    {
        self.form_columns() <= k
    }

    // The value of column `k`, 0 where there is no such column.
    fn value_or_zero(&self, k: u32) -> Frac
        ensures { result ≡ tableaus.value_at self.now.bare k }
    {
        match self.value.get(k as usize) {
            Some(value) => *value,
            None => zero(),
        }
    }

    // Whether the value of column `k` is 0, as it counts where there is no such column.
    fn is_at_zero(&self, k: u32) -> bool
        ensures { result ≡ eq_ℚ (tableaus.value_at self.now.bare k) 0ℚ }
    {
        are_same(self.value_or_zero(k), zero())
    }

    // Whether column `k` is an artificial that is not 0.
    fn is_wanting(&self, k: u32) -> bool
        ensures { result ≡ (tableaus.is_artificial self.now.bare k
            && not (eq_ℚ (tableaus.value_at self.now.bare k) 0ℚ)) }
    {
        self.is_artificial(k) && !self.is_at_zero(k)
    }

    // Whether phase one is wanted: some artificial is basic.
    pub(crate) fn wants_phase_one(&self) -> bool
        ensures { result ≡ phases.wants_phase_one self.now.bare }
    {
        for k in &self.basic {
            if self.is_artificial(*k) {
                return true;
            }
        }
        false
    }

    // Whether phase one ended without a feasible point: some artificial is basic and not 0.
    pub(crate) fn is_stuck(&self) -> bool
        ensures { result ≡ phases.is_stuck self.now.bare }
    {
        for k in &self.basic {
            if self.is_wanting(*k) {
                return true;
            }
        }
        false
    }

    // Sets both bounds of column `k` to 0.
    pub(crate) fn fix(&mut self, k: u32)
        requires { k < tableaus.all_columns self.old.bare }
        ensures { self.new ≡ fixed_at self.old (slice_set self.old.bare.lower k (Some 0ℚ))
            (slice_set self.old.bare.upper k (Some 0ℚ)) }
    {
        self.lower[k as usize] = Some(zero());
        self.upper[k as usize] = Some(zero());
    }

    // Sets both bounds of each artificial to 0, as phase two has them.
    pub(crate) fn fix_artificials(&mut self)
        ensures { self.new ≡ second_state self.old }
    {
        let first = self.form_columns();
        for i in 0..self.rows() {
            self.fix(first + i);
        }
    }
}
