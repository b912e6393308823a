// The bases of ends.
ghost use Rattle.std.specs.Prelude.{◌≡◌, ◌<◌, IfOk, IfSome};
ghost use Rattle.spec_simplex.specs.Eliminate.{IsBasisOf};
ghost use Rattle.spec_exact.specs.Run.{made};
ghost use Rattle.spec_simplex.specs.Tableau.{form_columns};
ghost use Rattle.spec_runs.specs.Cold as cold;
ghost use Rattle.spec_runs.specs.Warm as warm;

use lp_form::{Basis, Form, Status, StatusList, is_basic};
use lp_simplex::dual::DualEnd;
use lp_tableau::{PrimalEnd, Tableau};
use std::alloc::{AllocError, Global};

// The status of column `k` in a basis. A logical whose row's artificial is basic counts as basic in its place.
fn basis_status(tab: &Tableau, k: u32) -> Status
    requires { k < form_columns tab.now }
    ensures { result ≡ cold.basis_status tab.now k }
{
    if tab.cols() <= k && is_basic(tab.status(k + tab.rows())) {
        Status::Basic
    } else {
        tab.status(k)
    }
}

// The statuses of the model's columns and of the rows' logicals.
fn statuses(alloc: Global, tab: &Tableau) -> Result<StatusList, AllocError>
    ensures { IfOk result (λ b. b ≡ made (form_columns tab.now) (cold.basis_status tab.now)) }
{
    let mut statuses = StatusList::new(alloc);
    for k in 0..tab.cols() + tab.rows() {
        statuses.push(basis_status(tab, k))?;
    }
    Ok(statuses)
}

// The statuses of the basis of an optimal end by the primal method; another end has none.
pub(crate) fn basis_at(
    alloc: Global,
    tab: &Tableau,
    end: PrimalEnd,
) -> Result<Option<StatusList>, AllocError>
    ensures { IfOk result (λ b. b ≡ cold.basis_at tab.now end) }
{
    match end {
        PrimalEnd::Optimal => Ok(Some(statuses(alloc, tab)?)),
        PrimalEnd::Unbounded { .. } => Ok(None),
    }
}

// The statuses of the basis of an optimal end by the dual method; another end has none.
pub(crate) fn dual_basis(
    alloc: Global,
    tab: &Tableau,
    end: DualEnd,
) -> Result<Option<StatusList>, AllocError>
    ensures { IfOk result (λ b. b ≡ warm.dual_basis tab.now end) }
{
    match end {
        DualEnd::Optimal => Ok(Some(statuses(alloc, tab)?)),
        DualEnd::Infeasible { .. } => Ok(None),
    }
}

// The statuses as a basis of the form; none where there are none.
pub(crate) fn basis_of(form: &Form, statuses: Option<StatusList>) -> Option<Basis>
    requires { IfSome statuses (λ basis. IsBasisOf form.now basis) }
    ensures { result ≡ statuses }
{
    match statuses {
        Some(statuses) => Some(Basis::from_vec(statuses.into_vec(), form.rows())),
        None => None,
    }
}
