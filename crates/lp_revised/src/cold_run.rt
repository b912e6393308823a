// The cold run over factors: the start, both phases, and what they end with.
ghost use Rattle.std.specs.Prelude.{◌≡◌, ◌<◌, Ok, Some, None, IfOk, IfErr, OnOk, length};
ghost use Rattle.spec_model.specs.Model.{Model};
ghost use Rattle.spec_check.specs.Certificate.{IsNarrowCertificate};
ghost use Rattle.spec_simplex.specs.declared.ends.RunStop.TheVariants as cause;
ghost use Rattle.spec_exact.specs.Run.{list_run, refused_as};
ghost use Rattle.spec_exact.specs.Narrow.{number_limit};
ghost use Rattle.spec_simplex.specs.Start as starting;
ghost use Rattle.spec_simplex.specs.Form.{form_of};
ghost use Rattle.spec_simplex.specs.Phases.{phases_run};
ghost use Rattle.spec_factor.specs.Revised.{bare_of, replacements};
ghost use Rattle.spec_factor.specs.Over.{over_one, over_run, end_answer};
ghost use Rattle.lp_revised.specs.Answer.{StopsRevised};
ghost use Rattle.lp_revised.specs.Runs.{RunsFirst, EndsOver, EndsWith, EndsWhole, ended_of, over_end};
ghost use Rattle.lp_revised.specs.Runs.{second_run, after_one_run, begun_run};

use crate::ends::{Certificate, negatives_of};
use crate::factors::Factors;
use crate::state::{Revised, RowStart};
use crate::steps::StepsEnd;
use crate::stop::RevisedStop;
use lp_form::{Form, StatusList};
use lp_frac::{Fracs, Stop};
use lp_tableau::{PrimalEnd, start};
use std::alloc::{AllocError, Global};

/// What a run over factors ends with.
#[derive(Drop)]
pub struct RunEnd {
    pub certificate: Certificate,
    /// The statuses of the basis of an optimal end.
    pub basis: Option<StatusList>,
    /// How many pivots and flips were made.
    pub pivots: u64,
}

// How each row's sum stands at the start of a cold solve, in order: within its limits, or how far outside.
fn row_starts(alloc: Global, form: &Form) -> Result<Vec<RowStart>, RevisedStop>
    ensures ok { IfOk result (λ v. list_run form.now.rows (starting.row_start (Some number_limit) form.now) ≡ Ok
        v.items) }
    ensures err { IfErr result (StopsRevised (refused_as cause.Past
        (list_run form.now.rows (starting.row_start (Some number_limit) form.now)))) }
{
    match start::starts(alloc, form) {
        Ok(starts) => Ok(starts),
        Err(Stop::Past(past)) => Err(Stop::Past(past)),
        Err(Stop::NoMemory) => Err(Stop::NoMemory),
    }
}

// The state at the start of a cold solve, still without factors.
fn begun(alloc: Global, form: &Form, starts: &[RowStart]) -> Result<Revised, AllocError>
    requires { length starts.now ≡ form.now.rows }
    ensures { IfOk result (λ s. s.bare ≡ bare_of (starting.begun form.now starts.now)) }
{
    Ok(Revised {
        rows: form.rows(),
        cols: form.cols(),
        basic: start::basics(alloc, form, starts)?,
        value: start::values(alloc, form, starts)?,
        status: start::statuses(alloc, form, starts)?,
        lower: start::lowers(alloc, form)?,
        upper: start::uppers(alloc, form, starts)?,
        factors: Factors::empty(alloc, form.rows())?,
        replaced: 0,
    })
}

impl Revised {
    // Runs phase one, if an artificial is basic, and gives its end and how many pivots and flips it took. Otherwise the
    // end is at once `Optimal`.
    fn phase_one(
        &mut self,
        alloc: Global,
        form: &Form,
        starts: &[RowStart],
        budget: u64,
    ) -> Result<(StepsEnd, u64), RevisedStop>
        requires rows { form.now.rows ≡ self.old.bare.rows }
        requires cols { form.now.cols ≡ self.old.bare.cols }
        requires starts { length starts.now ≡ self.old.bare.rows }
        requires few { self.old.replaced < replacements }
        ensures run { RunsFirst (over_one (Some number_limit) budget form.now starts.now self.old) starts.now self.new
            result }
        ensures rows { OnOk result (self.new.bare.rows ≡ self.old.bare.rows) }
        ensures cols { OnOk result (self.new.bare.cols ≡ self.old.bare.cols) }
        ensures fresh { OnOk result (self.new.replaced < replacements) }
    {
        let mut used = 0;
        if self.wants_phase_one() {
            let costs = start::first_costs(alloc, form, starts)?;
            let end = self.run(alloc, form, starts, &costs, &mut used, budget)?;
            Ok((end, used))
        } else {
            let end = StepsEnd {
                end: PrimalEnd::Optimal,
                multipliers: Fracs::new(alloc),
                column: None,
            };
            Ok((end, used))
        }
    }

    // What the run ends with after `pivots` pivots and flips: the certificate and the basis of `end`.
    fn ended(
        &self,
        alloc: Global,
        starts: &[RowStart],
        end: &StepsEnd,
        pivots: u64,
    ) -> Result<RunEnd, AllocError>
        requires starts { length starts.now ≡ self.now.bare.rows }
        requires with { EndsWith self.now.bare end.now.column end.now.end }
        ensures value { IfOk result (λ e. over_end e ≡ end_answer (ended_of starts.now self.now pivots end.now)) }
        ensures narrow { IfOk result (λ e. IsNarrowCertificate e.certificate) }
    {
        let basis = self.basis_at(alloc, end.end)?;
        let certificate = self.certificate(alloc, starts, end)?;
        Ok(RunEnd {
            certificate,
            basis,
            pivots,
        })
    }

    // Fixes the artificials at 0 and runs phase two. `used` pivots and flips of the budget were made before.
    fn phase_two(
        &mut self,
        alloc: Global,
        form: &Form,
        starts: &[RowStart],
        used: u64,
        budget: u64,
    ) -> Result<RunEnd, RevisedStop>
        requires rows { form.now.rows ≡ self.old.bare.rows }
        requires cols { form.now.cols ≡ self.old.bare.cols }
        requires starts { length starts.now ≡ self.old.bare.rows }
        requires few { self.old.replaced < replacements }
        ensures run { EndsOver (second_run budget form.now starts.now used self.old) result }
        ensures narrow { IfOk result (λ e. IsNarrowCertificate e.certificate) }
    {
        self.fix_artificials();
        let mut pivots = used;
        let end = self.run(alloc, form, starts, form.costs(), &mut pivots, budget)?;
        let ended = self.ended(alloc, starts, &end, pivots);
        drop(end);
        Ok(ended?)
    }

    // Goes on from phase one, which made `used` pivots and flips: where an artificial is not 0 the model is infeasible,
    // else phase two runs.
    fn after_one(
        &mut self,
        alloc: Global,
        form: &Form,
        starts: &[RowStart],
        one: &StepsEnd,
        used: u64,
        budget: u64,
    ) -> Result<RunEnd, RevisedStop>
        requires rows { form.now.rows ≡ self.old.bare.rows }
        requires cols { form.now.cols ≡ self.old.bare.cols }
        requires starts { length starts.now ≡ self.old.bare.rows }
        requires few { self.old.replaced < replacements }
        ensures run { EndsOver (after_one_run budget form.now starts.now (ended_of starts.now self.old used one.now))
            result }
        ensures narrow { IfOk result (λ e. IsNarrowCertificate e.certificate) }
    {
        if self.is_stuck() {
            let y = negatives_of(alloc, self.rows(), &one.multipliers)?;
            return Ok(RunEnd {
                certificate: Certificate::Infeasible { y },
                basis: None,
                pivots: used,
            });
        }
        self.phase_two(alloc, form, starts, used, budget)
    }

    // Takes the first factors and runs both phases, which share the budget.
    fn phases(
        &mut self,
        alloc: Global,
        form: &Form,
        starts: &[RowStart],
        budget: u64,
    ) -> Result<RunEnd, RevisedStop>
        requires rows { form.now.rows ≡ self.old.bare.rows }
        requires cols { form.now.cols ≡ self.old.bare.cols }
        requires starts { length starts.now ≡ self.old.bare.rows }
        ensures run { EndsOver (begun_run budget form.now starts.now self.old.bare) result }
        ensures narrow { IfOk result (λ e. IsNarrowCertificate e.certificate) }
    {
        self.refactor(alloc, form)?;
        let (one, used) = self.phase_one(alloc, form, starts, budget)?;
        let ended = self.after_one(alloc, form, starts, &one, used, budget);
        drop(one);
        ended
    }
}

/// The cold run over factors, within a budget of pivots and flips: from the form's start through both phases, with the
/// certificate of the end.
///
/// It gives up with the first operation that is past 127 bits, or where the budget is spent. For the form of a model
/// the run on whole tableaus with unlimited fractions ends alike where this one ends with a certificate or is spent.
pub fn cold_over_factors(alloc: Global, form: &Form, budget: u64) -> Result<RunEnd, RevisedStop>
    ensures run { EndsOver (over_run (Some number_limit) budget form.now) result }
    ensures whole { (m : Model) → form_of (Some number_limit) m ≡ Ok form.now →
        EndsWhole (phases_run None budget form.now) result }
    ensures narrow { IfOk result (λ e. IsNarrowCertificate e.certificate) }
{
    let starts = row_starts(alloc, form)?;
    let mut state = begun(alloc, form, &starts)?;
    let ended = state.phases(alloc, form, &starts, budget);
    drop(state);
    ended
}
