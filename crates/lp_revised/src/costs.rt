// The multipliers: btran of the basic columns' costs.
ghost use Rattle.std.specs.Prelude.{◌≡◌, Some, All, length, IfOk};
ghost use Rattle.spec_exact.specs.Narrow.{IsNarrow, number_limit};
ghost use Rattle.spec_simplex.specs.Start.{cost_at};
ghost use Rattle.spec_factor.specs.Revised.{basic_costs, multipliers_run};
ghost use Rattle.lp_revised.specs.Answer.{TellsRevised};

use crate::items::tell_narrow;
use crate::state::{Revised, RowStart};
use crate::stop::RevisedStop;
use lp_frac::{Frac, Fracs, zero};
use std::alloc::{AllocError, Global};

// The cost of column `k`, 0 where the list has none.
pub(crate) fn cost(costs: &[Frac], k: u32) -> Frac
    ensures { result ≡ cost_at costs.now k }
{
    if (k as usize) < costs.len() {
        costs[k as usize]
    } else {
        zero()
    }
}

impl Revised {
    // The cost of each position's basic column, times the column's sign.
    fn basic_costs(
        &self,
        alloc: Global,
        starts: &[RowStart],
        costs: &[Frac],
    ) -> Result<Fracs, AllocError>
        requires { length starts.now ≡ self.now.bare.rows }
        ensures { IfOk result (λ c. c ≡ basic_costs starts.now costs.now self.now.bare) }
    {
        let mut list = Fracs::new(alloc);
        for place in 0..self.rows() {
            let col = self.basic(place);
            list.push(self.signed(starts, col, cost(costs, col)))?;
        }
        Ok(list)
    }

    // The multipliers of the rows for these costs: with them the reduced costs of the basic columns are 0.
    pub(crate) fn multipliers(
        &self,
        alloc: Global,
        starts: &[RowStart],
        costs: &[Frac],
    ) -> Result<Fracs, RevisedStop>
        requires { length starts.now ≡ self.now.bare.rows }
        ensures run { TellsRevised (multipliers_run (Some number_limit) starts.now costs.now self.now) result }
        ensures all { IfOk result (λ y. length y ≡ self.now.bare.rows) }
        ensures narrow { IfOk result (All IsNarrow) }
    {
        let mut list = self.basic_costs(alloc, starts, costs)?;
        self.factors.btran(&mut list)?;
        tell_narrow(&list);
        Ok(list)
    }
}
