// The rows of the tableau that a form has for a basis.
ghost use Rattle.std.specs.Prelude.{◌≡◌, ◌+◌, IfOk, IfSome, List, length, replicate, false};
ghost use Rattle.spec_pivot.specs.declared.status.Status.{Status as statuses};
ghost use Rattle.spec_simplex.specs.Eliminate.{IsBasisOf};
ghost use Rattle.spec_simplex.specs.Begins.{IsProper};
ghost use Rattle.lp_rows.specs.Shows.{width};
ghost use Rattle.lp_row_runs.specs.Rows.{IsComplete, IsSolvedBelow, IfRows, HasSize, ShowsBasis, ShowsStart};

use crate::elimination::{Elimination, Progress};
use crate::equations::{place_values, unsolved};
use lp_form::{Form, Status};
use lp_natural::words::Words;
use lp_rows::tableau::{RowTableau, priced};
use std::alloc::{AllocError, Global};

/// What comes of the tableau of a basis at one width.
#[derive(Drop)]
pub(crate) enum Based<T: Words> {
    Rows(RowTableau<T>),
    /// A number is past the width.
    Narrow,
    /// The basis is singular, or the work is spent.
    Stopped,
}

// A list that says of each position that it has no basic column yet.
fn none_taken(alloc: Global, form: &Form) -> Result<Vec<bool>, AllocError>
    ensures { IfOk result (λ v. v.items ≡ replicate form.now.rows false) }
{
    Vec::from_elem(alloc, false, form.rows() as usize)
}

// The form's equations before any is solved, with the values of the nonbasic columns; nothing where a number is past
// the width.
fn begun<T: Words>(
    alloc: Global,
    form: &Form,
    basis: &[Status],
) -> Result<Option<Elimination<T>>, AllocError>
    requires { length basis.now ≡ form.now.cols + form.now.rows }
    ensures complete { IfOk result (λ o. IfSome o (IsComplete T.value)) }
    ensures size { IfOk result (λ o. IfSome o (λ e. width e.tab ≡ form.now.cols + form.now.rows)) }
    ensures begun { IfOk result (λ o. IfSome o (IsSolvedBelow T.value form.now basis.now 0)) }
{
    let Some(mut tab) = unsolved::<T>(alloc, form, basis)? else {
        return Ok(None);
    };
    if !place_values(&mut tab) {
        return Ok(None);
    }
    let taken = none_taken(alloc, form)?;
    Ok(Some(Elimination { tab, taken }))
}

// The rows of the basis: the form's equations solved for the basic columns, still without reduced costs. Takes its work
// off `work`. `Narrow` where a number is past the width; `Stopped` where the basis is singular or the work is spent.
fn solved<T: Words>(
    alloc: Global,
    form: &Form,
    basis: &[Status],
    work: &mut u64,
) -> Result<Based<T>, AllocError>
    requires { IsBasisOf form.now basis.now }
    ensures whole { IfOk result (IfRows (HasSize T.value form.now)) }
    ensures shown { IsProper form.now → IfOk result (IfRows (ShowsBasis T.value form.now basis.now)) }
{
    let _ = form.rows();
    let Some(mut elimination) = begun::<T>(alloc, form, basis)? else {
        return Ok(Based::Narrow);
    };
    match elimination.run(basis, work) {
        Progress::Done => {
            let Elimination { tab, taken } = elimination;
            drop(taken);
            Ok(Based::Rows(tab))
        }
        Progress::Narrow => Ok(Based::Narrow),
        Progress::Stopped => Ok(Based::Stopped),
    }
}

// The rows of a basis, with the reduced costs that the form gives them. `Narrow` where one of these is past the width.
fn with_costs<T: Words>(
    alloc: Global,
    form: &Form,
    tab: RowTableau<T>,
) -> Result<Based<T>, AllocError>
    requires { HasSize T.value form.now tab }
    ensures whole { IfOk result (IfRows (HasSize T.value form.now)) }
    ensures shown { (basis : List statuses) → IsProper form.now → IsBasisOf form.now basis →
        ShowsBasis T.value form.now basis tab → IfOk result (IfRows (ShowsStart T.value form.now basis)) }
{
    let _ = form.rows();
    let mut tab = tab;
    match priced(alloc, &tab, form)? {
        Some(costs) => {
            tab.costs = costs;
            Ok(Based::Rows(tab))
        }
        None => Ok(Based::Narrow),
    }
}

/// The rows of the tableau that the form has for a basis: its equations solved for the basic columns, with their values
/// and the reduced costs. Takes its work off `work`. `Narrow` and `Stopped` say why there are none.
pub(crate) fn from_basis<T: Words>(
    alloc: Global,
    form: &Form,
    basis: &[Status],
    work: &mut u64,
) -> Result<Based<T>, AllocError>
    requires { IsBasisOf form.now basis.now }
    ensures whole { IfOk result (IfRows (HasSize T.value form.now)) }
    ensures shown { IsProper form.now → IfOk result (IfRows (ShowsStart T.value form.now basis.now)) }
{
    match solved(alloc, form, basis, work)? {
        Based::Rows(tab) => with_costs(alloc, form, tab),
        Based::Narrow => Ok(Based::Narrow),
        Based::Stopped => Ok(Based::Stopped),
    }
}
