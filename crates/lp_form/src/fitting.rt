// Whether statuses are a basis of a form.
ghost use Rattle.std.specs.Prelude.{◌≡◌, ◌<◌, ◌+◌, ◌↔◌, ℕ, IsTrue, length};
ghost use Rattle.spec_simplex.specs.Form.{form_lower, form_upper};
ghost use Rattle.spec_simplex.specs.Eliminate.{CanStand, IsBasisOf, basis_at, basics_below};

use crate::large::LargeForm;
use crate::status::is_basic;
use spec_pivot::Status;

// Whether column `k` may have this status: it has the bound that the status names, or none where it is at 0.
fn can_stand(form: &LargeForm, k: u32, status: Status) -> bool
    requires { k < form.now.cols + form.now.rows }
    ensures { IsTrue result ↔ CanStand status (form_lower form.now k) (form_upper form.now k) }
{
    match status {
        Status::Basic => true,
        Status::AtLower => form.lower(k).is_some(),
        Status::AtUpper => form.upper(k).is_some(),
        Status::AtZero => form.lower(k).is_none() && form.upper(k).is_none(),
    }
}

// Whether each column has a status that it may have by its bounds.
fn all_stand(form: &LargeForm, basis: &[Status]) -> bool
    requires { length basis.now ≡ form.now.cols + form.now.rows }
    ensures { IsTrue result ↔ ((k : ℕ) → k < form.now.cols + form.now.rows →
        CanStand (basis_at basis.now k) (form_lower form.now k) (form_upper form.now k)) }
{
    for k in 0..form.cols() + form.rows() {
        if !can_stand(form, k, basis[k as usize]) {
            return false;
        }
    }
    true
}

// How many of the first `columns` statuses are those of basic columns.
fn count_basic(basis: &[Status], columns: u32) -> u32
    requires { length basis.now ≡ columns }
    ensures { result ≡ basics_below basis.now columns }
{
    let mut count = 0u32;
    for k in 0..columns {
        if is_basic(basis[k as usize]) {
            count += 1;
        }
    }
    count
}

/// Whether these are the statuses of a basis of the form: one for each column, which suits its bounds, and as many
/// basic ones as there are rows.
pub fn is_basis(form: &LargeForm, basis: &[Status]) -> bool
    ensures { IsTrue result ↔ IsBasisOf form.now basis.now }
{
    let columns = form.cols() + form.rows();
    if basis.len() != columns as usize {
        return false;
    }
    count_basic(basis, columns) == form.rows() && all_stand(form, basis)
}
