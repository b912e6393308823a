// Where a run begins, in words of one width: at the start of a form, or at a basis.
ghost use Rattle.std.specs.Prelude.{◌≡◌, ℕ, IfOk, IfSome, List};
ghost use Rattle.spec_pivot.specs.declared.status.Status.{Status as statuses};
ghost use Rattle.spec_simplex.specs.Form.{Form as forms};
ghost use Rattle.spec_simplex.specs.Eliminate.{IsBasisOf};
ghost use Rattle.spec_simplex.specs.Begins.{IsProper};
ghost use Rattle.spec_simplex.specs.Tableau as tableaus;
ghost use Rattle.lp_rows.specs.Shows.{IsWhole, IsReached, Shows};
ghost use Rattle.lp_row_runs.specs.Phases.{HasCosts, IsReady, IsLeft, rest_run};
ghost use Rattle.lp_row_runs.specs.Cold.{start_run};
ghost use Rattle.lp_row_runs.specs.Rows.{HasSize, ShowsStart};
ghost use Rattle.lp_row_runs.specs.Warm.{BeginsAtBasis, BeginsReady};

use crate::based::{Based, from_basis};
use crate::fit::is_fit;
use crate::phases::{Phase, State};
use lp_form::{Form, Status};
use lp_natural::words::Words;
use lp_rows::tableau::{RowTableau, from_tableau, wants_phase_one};
use lp_tableau::Tableau;
use std::alloc::{AllocError, Global};

// The phase in which a run begins: phase one where an artificial column is basic, and else what follows it.
fn first_phase<T: Words>(tab: &RowTableau<T>) -> Phase
    requires { IsWhole T.value tab.now }
    ensures { (budget : ℕ) (f : forms) (t : tableaus.Tableau) → Shows T.value tab.now t →
        start_run budget f t ≡ rest_run budget f result 0 t }
{
    if wants_phase_one(tab) {
        Phase::One
    } else {
        Phase::Between
    }
}

/// The state of a run at the tableau that a form begins with: in phase one where an artificial column is basic, and
/// else between the phases. There is none where a number is past the width.
pub(crate) fn at_start<T: Words>(
    alloc: Global,
    tab: &Tableau,
    work: u64,
) -> Result<Option<State<T>>, AllocError>
    ensures run { (budget : ℕ) (f : forms) → IsReached tab.now →
        IfOk result (λ o. IfSome o (IsLeft T.value budget f (start_run budget f tab.now))) }
    ensures ready { (f : forms) → f.rows ≡ tab.now.rows → f.cols ≡ tab.now.cols →
        IfOk result (λ o. IfSome o (IsReady T.value f)) }
{
    match from_tableau::<T>(alloc, tab)? {
        Some(rows) => {
            let phase = first_phase(&rows);
            Ok(Some(State {
                tab: rows,
                phase,
                used: 0,
                work,
            }))
        }
        None => Ok(None),
    }
}

/// Where a run from a basis begins, at one width.
#[derive(Drop)]
pub(crate) enum Begun<T: Words> {
    Ready(State<T>),
    /// A number is past the width.
    Narrow,
    /// The basis is singular or not fit for the primal method, or the work is spent.
    Stopped,
}

// The state of phase two at these rows, if each basic value is within its bounds; else `Stopped`.
fn if_fit<T: Words>(tab: RowTableau<T>, work: u64) -> Begun<T>
    requires { IsWhole T.value tab }
    ensures run { (f : forms) (basis : List statuses) → IsProper f → IsBasisOf f basis → HasCosts f →
        ShowsStart T.value f basis tab → BeginsAtBasis T.value f basis result }
    ensures ready { (f : forms) → HasSize T.value f tab → BeginsReady T.value f result }
{
    if is_fit(&tab) {
        Begun::Ready(State {
            tab,
            phase: Phase::Two,
            used: 0,
            work,
        })
    } else {
        Begun::Stopped
    }
}

/// The state of phase two at the tableau of a basis. `Narrow` where a number is past the width; `Stopped` where the
/// basis is singular or not primal feasible, or the work is spent.
pub(crate) fn at_basis<T: Words>(
    alloc: Global,
    form: &Form,
    basis: &[Status],
    work: &mut u64,
) -> Result<Begun<T>, AllocError>
    requires { IsBasisOf form.now basis.now }
    ensures run { IsProper form.now → HasCosts form.now →
        IfOk result (BeginsAtBasis T.value form.now basis.now) }
    ensures ready { IfOk result (BeginsReady T.value form.now) }
{
    match from_basis::<T>(alloc, form, basis, work)? {
        Based::Rows(tab) => Ok(if_fit(tab, *work)),
        Based::Narrow => Ok(Begun::Narrow),
        Based::Stopped => Ok(Begun::Stopped),
    }
}
