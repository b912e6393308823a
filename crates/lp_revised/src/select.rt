// What a step sees and chooses.
ghost use Rattle.std.specs.Prelude.{◌≡◌, ◌<◌, Some, IfOk, length};
ghost use Rattle.spec_exact.specs.Narrow.{number_limit};
ghost use Rattle.spec_simplex.specs.Tableau.{all_columns};
ghost use Rattle.spec_factor.specs.Factors.{column_of as column_by, ftran_run};
ghost use Rattle.spec_factor.specs.Revised.{selection_run};
ghost use Rattle.lp_revised.specs.Answer.{TellsRevised};
ghost use Rattle.lp_revised.specs.Selecting.{choice_seen, MayDo, CanDo, Selects};

use crate::choose::column_of;
use crate::state::{Revised, RowStart};
use crate::stop::RevisedStop;
use lp_form::Form;
use lp_frac::{Frac, Fracs, Past};
use lp_simplex::primal::chosen;
use lp_tableau::PrimalEnd;
use spec_simplex::Entering;
use std::alloc::Global;

// What a step does: it ends the run, flips a column, or pivots.
pub(crate) type Choice = spec_simplex::Choice<Frac>;

// The entering column, and its solution by places.
#[derive(Drop)]
pub(crate) struct Column {
    pub(crate) number: u32,
    pub(crate) solved: Fracs,
}

// What a step saw, and what it does.
#[derive(Drop)]
pub(crate) struct Selected {
    pub(crate) multipliers: Fracs,
    // The column that enters, if one may.
    pub(crate) column: Option<Column>,
    pub(crate) choice: Choice,
}

impl Revised {
    // Column `k` of the tableau: ftran of its column of the form, by places.
    fn solve_column(&self, alloc: Global, form: &Form, k: u32) -> Result<Fracs, RevisedStop>
        requires { form.now.rows ≡ self.now.bare.rows }
        ensures run { TellsRevised (ftran_run (Some number_limit) self.now.bare.rows self.now.pairs (column_by form.now
            k))
            result }
        ensures all { IfOk result (λ z. length z ≡ self.now.bare.rows) }
    {
        let mut column = column_of(alloc, form, k)?;
        self.factors.ftran(&mut column)?;
        Ok(column)
    }

    // The step for the entering column, by the ratio test: a pivot, a flip, or the end where nothing stops it.
    fn chosen(&self, starts: &[RowStart], solved: &[Frac], e: Entering) -> Result<Choice, Past>
        requires starts { length starts.now ≡ self.now.bare.rows }
        requires solved { length solved.now ≡ self.now.bare.rows }
        requires column { e.col < all_columns self.now.bare }
        ensures value { result ≡ choice_seen starts.now self.now.bare solved.now e }
        ensures possible { IfOk result (MayDo self.now.bare solved.now e.col) }
    {
        Ok(chosen(e, self.best(starts, solved, e)?))
    }

    // Chooses the next step: the multipliers, the entering column, and the step that the ratio test gives it. Without
    // an entering column it is the end, as an optimum.
    pub(crate) fn select(
        &self,
        alloc: Global,
        form: &Form,
        starts: &[RowStart],
        costs: &[Frac],
    ) -> Result<Selected, RevisedStop>
        requires rows { form.now.rows ≡ self.now.bare.rows }
        requires starts { length starts.now ≡ self.now.bare.rows }
        ensures run { Selects (selection_run (Some number_limit) form.now starts.now costs.now self.now) starts.now
            self.now.bare result }
        ensures possible { IfOk result (λ l. CanDo form.now self.now l.column l.choice) }
    {
        let multipliers = self.multipliers(alloc, starts, costs)?;
        let Some(e) = self.entering(form, costs, multipliers.as_slice())? else {
            return Ok(Selected {
                multipliers,
                column: None,
                choice: Choice::End(PrimalEnd::Optimal),
            });
        };
        let solved = self.solve_column(alloc, form, e.col)?;
        let choice = self.chosen(starts, solved.as_slice(), e)?;
        Ok(Selected {
            multipliers,
            column: Some(Column {
                number: e.col,
                solved,
            }),
            choice,
        })
    }
}
