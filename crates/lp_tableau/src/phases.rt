// Whether phase one is wanted, and whether it has driven all artificials to 0.
ghost use Rattle.std.specs.Prelude.{◌≡◌, not, ◌&&◌};
ghost use Rattle.spec_exact.specs.Fraction.{0ℚ, eq_ℚ};
ghost use Rattle.spec_simplex.specs.Tableau as tableaus;
ghost use Rattle.spec_simplex.specs.Phases as phases;

use crate::tableau::Tableau;
use lp_frac::{Frac, are_same, zero};

impl Tableau {
    // Whether column `k` is an artificial.
    fn is_artificial(&self, k: u32) -> bool
        ensures { result ≡ tableaus.is_artificial self.now k }
    {
        self.cols() + self.rows() <= k
    }

    // The value of column `k`, and 0 where there is no such column.
    fn value_or_zero(&self, k: u32) -> Frac
        ensures { result ≡ tableaus.value_at self.now k }
    {
        match self.value.get(k as usize) {
            Some(value) => *value,
            None => zero(),
        }
    }

    // Whether the value of column `k` is 0; true where there is no such column.
    fn is_at_zero(&self, k: u32) -> bool
        ensures { result ≡ eq_ℚ (tableaus.value_at self.now k) 0ℚ }
    {
        are_same(self.value_or_zero(k), zero())
    }

    // Whether column `k` is an artificial whose value is not 0.
    fn is_wanting(&self, k: u32) -> bool
        ensures { result ≡ (tableaus.is_artificial self.now k && not (eq_ℚ (tableaus.value_at self.now k) 0ℚ)) }
    {
        self.is_artificial(k) && !self.is_at_zero(k)
    }

    /// Whether some artificial is basic, so that phase one is wanted.
    pub fn wants_phase_one(&self) -> bool
        ensures { result ≡ phases.wants_phase_one self.now }
    {
        self.basic.iter().any(|k| self.is_artificial(*k))
    }

    /// Whether some artificial is basic and not 0. At the end of phase one no point is feasible then.
    pub fn is_stuck(&self) -> bool
        ensures { result ≡ phases.is_stuck self.now }
    {
        self.basic.iter().any(|k| self.is_wanting(*k))
    }
}
