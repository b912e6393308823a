// Steps up to an end.
ghost use Rattle.std.specs.Prelude.{◌≡◌, ◌<◌, ◌-◌, Some, IfOk, OnOk, length};
ghost use Rattle.spec_exact.specs.Narrow.{number_limit};
ghost use Rattle.spec_factor.specs.Revised.{replacements};
ghost use Rattle.spec_factor.specs.Over.{over_from};
ghost use Rattle.lp_revised.specs.Answer.{LeavesRevised};
ghost use Rattle.lp_revised.specs.Selecting.{CanDo};
ghost use Rattle.lp_revised.specs.Runs.{EndsWith, made_run, RunsOver};

use crate::select::{Choice, Column, Selected};
use crate::state::{Revised, RowStart};
use crate::stop::{RevisedStop, Spent};
use lp_form::Form;
use lp_frac::{Frac, Fracs, Stop};
use lp_tableau::PrimalEnd;
use std::alloc::Global;

// How the steps of a phase ended, the last multipliers, and the entering column that nothing stops, if there is one.
#[derive(Drop)]
pub(crate) struct StepsEnd {
    pub(crate) end: PrimalEnd,
    pub(crate) multipliers: Fracs,
    pub(crate) column: Option<Column>,
}

impl Revised {
    // Makes the step that was selected: the flip or the pivot of the entering column. Where no column may enter, and at
    // an end, nothing changes. After a refusal the state is spent.
    fn make(
        &mut self,
        alloc: Global,
        form: &Form,
        starts: &[RowStart],
        selected: &Selected,
    ) -> Result<(), RevisedStop>
        requires rows { form.now.rows ≡ self.old.bare.rows }
        requires cols { form.now.cols ≡ self.old.bare.cols }
        requires starts { length starts.now ≡ self.old.bare.rows }
        requires few { self.old.replaced < replacements }
        requires can { CanDo form.now self.old selected.now.column selected.now.choice }
        ensures run { LeavesRevised (made_run form.now starts.now self.old selected.now.column selected.now.choice)
            self.new result }
        ensures rows { self.new.bare.rows ≡ self.old.bare.rows }
        ensures cols { self.new.bare.cols ≡ self.old.bare.cols }
        ensures fresh { OnOk result (self.new.replaced < replacements) }
    {
        let Some(column) = &selected.column else {
            return Ok(());
        };
        match selected.choice {
            Choice::End(_) => Ok(()),
            Choice::Flip { .. } => {
                self.flip(starts, column.solved.as_slice(), column.number)?;
                Ok(())
            }
            Choice::Pivot {
                place,
                theta,
                to,
                ..
            } => self.pivot(alloc, form, starts, column, place, theta, to),
        }
    }

    // Steps until no column may enter, nothing stops the entering column, an operation is past 127
    // bits, or one more is due after `budget` pivots and flips. `used` counts them.
    pub(crate) fn run(
        &mut self,
        alloc: Global,
        form: &Form,
        starts: &[RowStart],
        costs: &[Frac],
        used: &mut u64,
        budget: u64,
    ) -> Result<StepsEnd, RevisedStop>
        requires rows { form.now.rows ≡ self.old.bare.rows }
        requires cols { form.now.cols ≡ self.old.bare.cols }
        requires starts { length starts.now ≡ self.old.bare.rows }
        requires few { self.old.replaced < replacements }
        ensures run { RunsOver (over_from (Some number_limit) form.now starts.now costs.now (budget - used.old) used.old
            self.old) starts.now self.new used.new result }
        ensures with { IfOk result (λ e. EndsWith self.new.bare e.column e.end) }
        ensures rows { OnOk result (self.new.bare.rows ≡ self.old.bare.rows) }
        ensures cols { OnOk result (self.new.bare.cols ≡ self.old.bare.cols) }
        ensures fresh { OnOk result (self.new.replaced < replacements) }
    {
        loop {
            let selected = self.select(alloc, form, starts, costs)?;
            if let Choice::End(end) = selected.choice {
                return Ok(StepsEnd {
                    end,
                    multipliers: selected.multipliers,
                    column: selected.column,
                });
            }
            if *used >= budget {
                return Err(Stop::Cause(Spent));
            }
            self.make(alloc, form, starts, &selected)?;
            *used += 1;
        }
    }
}
