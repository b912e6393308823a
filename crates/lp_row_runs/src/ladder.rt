// The ladder of words: their widths, from the narrowest to the widest. A run is made in words of one width; where a
// number does not fit, it goes on in wider ones.
ghost use Rattle.std.specs.Prelude.{◌≡◌, ℕ, IfOk, IfSome};
ghost use Rattle.spec_simplex.specs.Begins.{IsProper};
ghost use Rattle.spec_simplex.specs.Eliminate.{IsBasisOf};
ghost use Rattle.spec_simplex.specs.Form.{Form as forms};
ghost use Rattle.spec_simplex.specs.Tableau as tableaus;
ghost use Rattle.lp_rows.specs.Shows.{IsWhole, IsReached, Shows};
ghost use Rattle.lp_row_runs.specs.Phases.{rest_run, HasCosts, IsReady, IsLeft};
ghost use Rattle.lp_row_runs.specs.Cold.{start_run, EndsAs, IsFitEnd};
ghost use Rattle.lp_row_runs.specs.Warm.{EndsFromBasis};

use crate::phases::{PhasesPause, RowEnd, State, go_on};
use crate::start::{Begun, at_basis, at_start};
use lp_form::{Form, Status};
use lp_natural::words::{Long, Quad, Words};
use lp_ratio::Ratio;
use lp_rows::Listed;
use lp_rows::tableau::widened;
use lp_tableau::Tableau;
use std::alloc::{AllocError, Global};
use std::marker::PhantomData;

/// Words of 64, 128 and 256 bits, and then those of `LongWidths`.
pub(crate) type AllWidths = Then<u64, Then<u128, Then<Quad, LongWidths>>>;

/// Words of up to 512, 1,024 and 2,048 bits.
type LongWidths = Then<Long<8>, Then<Long<16>, Then<Long<32>, NoMore>>>;

/// The words `T`, and then the wider ones of `W`.
pub(crate) struct Then<T, W>(PhantomData<T>, PhantomData<W>);

/// No words.
pub(crate) struct NoMore;

/// Words of some widths, the narrowest first.
pub(crate) trait Widths {
    /// Whether there are any words of these widths.
    const ANY: bool;

    /// Goes on with a run, to its end, from the state at which a number did not fit narrower words. It goes on in the
    /// first of these words, and in wider ones where a number does not fit. There is no end where no words are wide
    /// enough, or the run gives up.
    fn resume<S: Words, N: Listed>(
        alloc: Global,
        form: &Form,
        budget: u64,
        state: &State<S>,
    ) -> Result<Option<RowEnd<N>>, AllocError>
        requires { IsReady S.value form.now state.now }
        ensures run { (t : tableaus.Tableau) → HasCosts form.now → IsReached t → Shows S.value state.now.tab t →
            IfOk result (EndsAs N.of (rest_run budget form.now state.now.phase state.now.used t)) }
        ensures fits { IfOk result (IsFitEnd N.fits) };

    /// The run from the start `tab` of a form, in the first of these words that the start fits, and in wider ones where
    /// a number does not fit. There is no end where no words are wide enough, or the run gives up.
    fn run_cold<N: Listed>(
        alloc: Global,
        form: &Form,
        budget: u64,
        tab: &Tableau,
        work: u64,
    ) -> Result<Option<RowEnd<N>>, AllocError>
        requires rows { form.now.rows ≡ tab.now.rows }
        requires cols { form.now.cols ≡ tab.now.cols }
        ensures run { HasCosts form.now → IsReached tab.now →
            IfOk result (EndsAs N.of (start_run budget form.now tab.now)) }
        ensures fits { IfOk result (IsFitEnd N.fits) };

    /// The run from a basis, in the first of these words in which the equations can be solved, and in wider ones where
    /// a number of a step does not fit. There is no end where no words are wide enough, where the basis is singular or
    /// not primal feasible, or where the run gives up.
    fn run_warm(
        alloc: Global,
        form: &Form,
        basis: &[Status],
        budget: u64,
        work: &mut u64,
    ) -> Result<Option<RowEnd<Ratio>>, AllocError>
        requires { IsBasisOf form.now basis.now }
        ensures { IsProper form.now → HasCosts form.now →
            IfOk result (λ o. IfSome o (EndsFromBasis budget form.now basis.now)) };
}

impl Widths for NoMore {
    const ANY: bool = false;

    // Gives no end: there are no words left to go on in.
    fn resume<S: Words, N: Listed>(
        _alloc: Global,
        _form: &Form,
        _budget: u64,
        _state: &State<S>,
    ) -> Result<Option<RowEnd<N>>, AllocError> {
        Ok(None)
    }

    // Gives no end: there are no words that the start might fit.
    fn run_cold<N: Listed>(
        _alloc: Global,
        _form: &Form,
        _budget: u64,
        _tab: &Tableau,
        _work: u64,
    ) -> Result<Option<RowEnd<N>>, AllocError> {
        Ok(None)
    }

    // Gives no end: there are no words in which the equations might be solved.
    fn run_warm(
        _alloc: Global,
        _form: &Form,
        _basis: &[Status],
        _budget: u64,
        _work: &mut u64,
    ) -> Result<Option<RowEnd<Ratio>>, AllocError> {
        Ok(None)
    }
}

impl<T: Words, W: Widths> Widths for Then<T, W> {
    const ANY: bool = true;

    // Goes on in the words `T`, and in wider ones where a number does not fit. There is no end where the state itself
    // does not fit `T`.
    fn resume<S: Words, N: Listed>(
        alloc: Global,
        form: &Form,
        budget: u64,
        state: &State<S>,
    ) -> Result<Option<RowEnd<N>>, AllocError> {
        match wider::<S, T>(alloc, state)? {
            Some(mut state) => {
                let end = run::<T, W, N>(alloc, form, budget, &mut state);
                drop(state);
                end
            }
            None => Ok(None),
        }
    }

    // Runs from the start in the words `T` if the start fits them, and goes on in wider ones where a number does not.
    // If the start does not fit, runs from it in wider words.
    fn run_cold<N: Listed>(
        alloc: Global,
        form: &Form,
        budget: u64,
        tab: &Tableau,
        work: u64,
    ) -> Result<Option<RowEnd<N>>, AllocError> {
        match at_start::<T>(alloc, tab, work)? {
            Some(mut state) => {
                let end = run::<T, W, N>(alloc, form, budget, &mut state);
                drop(state);
                end
            }
            None => W::run_cold(alloc, form, budget, tab, work),
        }
    }

    // Runs from the basis in the words `T` if the equations can be solved in them. If a number is past their width,
    // solves them anew in wider words. There is no end where the basis is singular or not primal feasible.
    fn run_warm(
        alloc: Global,
        form: &Form,
        basis: &[Status],
        budget: u64,
        work: &mut u64,
    ) -> Result<Option<RowEnd<Ratio>>, AllocError> {
        match at_basis::<T>(alloc, form, basis, work)? {
            Begun::Ready(mut state) => {
                let end = run::<T, W, Ratio>(alloc, form, budget, &mut state);
                drop(state);
                end
            }
            Begun::Narrow => W::run_warm(alloc, form, basis, budget, work),
            Begun::Stopped => Ok(None),
        }
    }
}

// Goes on with both phases from `state`. Where a number does not fit, they go on in the wider words, if there are any.
// Gives their end; none where they give up or no words are wide enough.
fn run<T: Words, W: Widths, N: Listed>(
    alloc: Global,
    form: &Form,
    budget: u64,
    state: &mut State<T>,
) -> Result<Option<RowEnd<N>>, AllocError>
    requires { IsReady T.value form.now state.old }
    ensures run { (t : tableaus.Tableau) → HasCosts form.now → IsReached t → Shows T.value state.old.tab t →
        IfOk result (EndsAs N.of (rest_run budget form.now state.old.phase state.old.used t)) }
    ensures fits { IfOk result (IsFitEnd N.fits) }
{
    match go_on(alloc, form, state, budget, W::ANY)? {
        PhasesPause::Ended(end) => Ok(Some(end)),
        PhasesPause::Narrow => W::resume(alloc, form, budget, state),
        PhasesPause::GaveUp => Ok(None),
    }
}

// The state in words of another width; nothing where a number is past their width.
fn wider<T: Words, U: Words>(
    alloc: Global,
    state: &State<T>,
) -> Result<Option<State<U>>, AllocError>
    requires { IsWhole T.value state.now.tab }
    ensures run { (budget : ℕ) (f : forms) (t : tableaus.Tableau) → IsReached t → Shows T.value state.now.tab t →
        IfOk result (λ o. IfSome o (IsLeft U.value budget f (rest_run budget f state.now.phase state.now.used t))) }
    ensures ready { (f : forms) → IsReady T.value f state.now → IfOk result (λ o. IfSome o (IsReady U.value f)) }
{
    match widened(alloc, &state.tab)? {
        Some(tab) => Ok(Some(State {
            tab,
            phase: state.phase,
            used: state.used,
            work: state.work,
        })),
        None => Ok(None),
    }
}
