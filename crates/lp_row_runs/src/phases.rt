// Both phases at one width.
ghost use Rattle.std.specs.Prelude.{◌≡◌, IfOk};
ghost use Rattle.spec_simplex.specs.Tableau.{Tableau};
ghost use Rattle.lp_rows.specs.Shows.{IsWhole, IsReached, Shows};
ghost use Rattle.lp_rows.specs.Ends.{IsInside};
ghost use Rattle.lp_row_runs.specs.declared.phases.Phase.TheVariants as phase;
ghost use Rattle.lp_row_runs.specs.Phases.{rest_run, HasCosts, IsReady, PausesWith, StaysReady};
ghost use Rattle.lp_row_runs.specs.Phases.{HasFit, EndsWith, IsOver};

use crate::steps::{StepsPause, run};
use lp_base::Items;
use lp_form::{Form, StatusList};
use lp_natural::words::Words;
use lp_rows::Listed;
use lp_rows::tableau::{RowTableau, basis, certificate, is_stuck, phase_two};
use lp_tableau::PrimalEnd;
use spec_check::Certificate;
use std::alloc::{AllocError, Global};

/// What a run over rows ends with, of one kind of numbers.
#[derive(Drop)]
pub struct RowEnd<N> {
    pub certificate: Certificate<Items<N>>,
    /// The statuses of the basis of an optimal end.
    pub basis: Option<StatusList>,
    /// How many pivots and flips were made.
    pub pivots: u64,
}

/// Which phase a run is in.
#[derive(Clone, Copy)]
pub(crate) enum Phase {
    One,
    /// Phase one has ended, and phase two's costs are next.
    Between,
    Two,
}

/// How far a run is: its tableau, its phase, and what is counted.
#[derive(Drop)]
pub(crate) struct State<T: Words> {
    pub tab: RowTableau<T>,
    pub phase: Phase,
    /// How many pivots and flips were made.
    pub used: u64,
    /// The work that is left.
    pub work: u64,
}

/// How both phases at one width pause.
#[derive(Drop)]
pub(crate) enum PhasesPause<N> {
    Ended(RowEnd<N>),
    /// A number is past the width, or may be in what comes next.
    Narrow,
    /// The budget or the work is spent, or a number is past the widest words, or one of the certificate past its kind.
    GaveUp,
}

// What the run ends with: the certificate and the basis of `end`. Without an end of phase two the model is infeasible:
// phase one left an artificial that is not 0. It gives up where a number of the certificate is past its kind.
fn ended<T: Words, N: Listed>(
    alloc: Global,
    state: &State<T>,
    end: Option<PrimalEnd>,
) -> Result<PhasesPause<N>, AllocError>
    requires whole { IsWhole T.value state.now.tab }
    requires inside { IsInside state.now.tab end }
    ensures run { (t : Tableau) → IsReached t → Shows T.value state.now.tab t →
        IfOk result (EndsWith N.of t state.now.used end) }
    ensures fits { IfOk result (HasFit N.fits) }
    ensures over { IfOk result IsOver }
{
    let statuses = basis(alloc, &state.tab, end)?;
    match certificate(alloc, &state.tab, end)? {
        Some(certificate) => Ok(PhasesPause::Ended(RowEnd {
            certificate,
            basis: statuses,
            pivots: state.used,
        })),
        None => {
            drop(statuses);
            Ok(PhasesPause::GaveUp)
        }
    }
}

// Takes the steps of phase two, until they end, need wider words, or give up.
fn second<T: Words, N: Listed>(
    alloc: Global,
    form: &Form,
    state: &mut State<T>,
    budget: u64,
    may_widen: bool,
) -> Result<PhasesPause<N>, AllocError>
    requires ready { IsReady T.value form.now state.old }
    requires phase { state.old.phase ≡ phase.Two }
    ensures run { (t : Tableau) → IsReached t → Shows T.value state.old.tab t → IfOk result
        (PausesWith N.of T.value budget form.now (rest_run budget form.now phase.Two state.old.used t) state.new) }
    ensures ready { IfOk result (StaysReady T.value form.now state.new) }
    ensures fits { IfOk result (HasFit N.fits) }
{
    match run(
        &mut state.tab,
        &mut state.used,
        &mut state.work,
        budget,
        may_widen,
    ) {
        StepsPause::Ended(end) => ended(alloc, state, Some(end)),
        StepsPause::Narrow => Ok(PhasesPause::Narrow),
        StepsPause::GaveUp => Ok(PhasesPause::GaveUp),
    }
}

// Goes on from the end of phase one: where a basic artificial is not 0 the model is infeasible, else phase two begins.
// `Narrow` where a reduced cost that it begins with is past the width.
fn between<T: Words, N: Listed>(
    alloc: Global,
    form: &Form,
    state: &mut State<T>,
    budget: u64,
    may_widen: bool,
) -> Result<PhasesPause<N>, AllocError>
    requires ready { IsReady T.value form.now state.old }
    requires phase { state.old.phase ≡ phase.Between }
    ensures run { (t : Tableau) → HasCosts form.now → IsReached t → Shows T.value state.old.tab t → IfOk result
        (PausesWith N.of T.value budget form.now (rest_run budget form.now phase.Between state.old.used t) state.new) }
    ensures ready { IfOk result (StaysReady T.value form.now state.new) }
    ensures fits { IfOk result (HasFit N.fits) }
{
    if is_stuck(&state.tab) {
        return ended(alloc, state, None);
    }
    if !phase_two(alloc, &mut state.tab, form)? {
        return Ok(PhasesPause::Narrow);
    }
    state.phase = Phase::Two;
    second(alloc, form, state, budget, may_widen)
}

/// Goes on with phase one and phase two from `state`, until they end, need wider words, or give up.
pub(crate) fn go_on<T: Words, N: Listed>(
    alloc: Global,
    form: &Form,
    state: &mut State<T>,
    budget: u64,
    may_widen: bool,
) -> Result<PhasesPause<N>, AllocError>
    requires ready { IsReady T.value form.now state.old }
    ensures run { (t : Tableau) → HasCosts form.now → IsReached t → Shows T.value state.old.tab t → IfOk result
        (PausesWith N.of T.value budget form.now (rest_run budget form.now state.old.phase state.old.used t) state.new) }
    ensures ready { IfOk result (StaysReady T.value form.now state.new) }
    ensures fits { IfOk result (HasFit N.fits) }
{
    match state.phase {
        Phase::One => match run(
            &mut state.tab,
            &mut state.used,
            &mut state.work,
            budget,
            may_widen,
        ) {
            StepsPause::Ended(_) => {
                state.phase = Phase::Between;
                between(alloc, form, state, budget, may_widen)
            }
            StepsPause::Narrow => Ok(PhasesPause::Narrow),
            StepsPause::GaveUp => Ok(PhasesPause::GaveUp),
        },
        Phase::Between => between(alloc, form, state, budget, may_widen),
        Phase::Two => second(alloc, form, state, budget, may_widen),
    }
}
