// Which position stops the entering column.
ghost use Rattle.std.specs.Prelude.{◌≡◌, ◌<◌, Some, length};
ghost use Rattle.spec_exact.specs.Narrow.{number_limit};
ghost use Rattle.spec_simplex.specs.Tableau.{all_columns};
ghost use Rattle.spec_simplex.specs.Step as step;
ghost use Rattle.spec_factor.specs.Revised.{seen_entry, seen};

use crate::state::{Revised, RowStart};
use lp_frac::{Frac, Past};
use lp_simplex::primal::{Best, Position, best_at, range};
use spec_simplex::Entering;

impl Revised {
    // The tableau's entry at a position in the entering column, whose solution by places is `solved`.
    pub(crate) fn entry(&self, starts: &[RowStart], solved: &[Frac], place: u32) -> Frac
        requires starts { length starts.now ≡ self.now.bare.rows }
        requires solved { length solved.now ≡ self.now.bare.rows }
        requires place { place < self.now.bare.rows }
        ensures { result ≡ seen_entry starts.now self.now.bare solved.now place }
    {
        self.signed(starts, self.basic(place), solved[place as usize])
    }

    // The better of `best`, the least ratio of the entering column's own range and the positions before, and the ratio
    // of position `i`; none where neither stops the entering column.
    fn best_with(
        &self,
        starts: &[RowStart],
        solved: &[Frac],
        e: Entering,
        i: u32,
        best: Option<Best>,
    ) -> Result<Option<Best>, Past>
        requires starts { length starts.now ≡ self.now.bare.rows }
        requires solved { length solved.now ≡ self.now.bare.rows }
        requires place { i < self.now.bare.rows }
        ensures { result ≡ step.best_with (Some number_limit) (seen starts.now self.now.bare e.col solved.now) e i best }
    {
        let col = self.basic(i);
        let at = Position {
            place: i,
            col,
            entry: self.entry(starts, solved, i),
            lower: self.lower(col),
            upper: self.upper(col),
            value: self.value(col),
        };
        best_at(e.direction, at, best)
    }

    // The ratio test: the least ratio of the entering column's own range and of all positions, or nothing where the
    // column may move without end.
    pub(crate) fn best(
        &self,
        starts: &[RowStart],
        solved: &[Frac],
        e: Entering,
    ) -> Result<Option<Best>, Past>
        requires starts { length starts.now ≡ self.now.bare.rows }
        requires solved { length solved.now ≡ self.now.bare.rows }
        requires column { e.col < all_columns self.now.bare }
        ensures { result ≡ step.best_run (Some number_limit) (seen starts.now self.now.bare e.col solved.now) e }
    {
        let mut best = range(e, self.lower(e.col), self.upper(e.col))?;
        for i in 0..self.rows() {
            best = self.best_with(starts, solved, e, i, best)?;
        }
        Ok(best)
    }
}
