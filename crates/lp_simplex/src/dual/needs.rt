// Whether a tableau is primal or dual feasible.
ghost use Rattle.std.specs.Prelude.{◌≡◌, ◌<◌, Some};
ghost use Rattle.spec_exact.specs.Narrow.{number_limit};
ghost use Rattle.spec_simplex.specs.Tableau.{all_columns};
ghost use Rattle.spec_simplex.specs.Fit as spec;

use crate::dual::leaving::leaving;
use lp_form::Status;
use lp_frac::{Frac, Past, is_negative, is_positive};
use lp_tableau::{Tableau, is_fixed, is_zero};
use spec_simplex::{Fit, Leaving};

// Whether the reduced cost of a column of this status has the sign that calls for its other bound.
fn needs_flip(status: Status, reduced: Frac) -> bool
    ensures { result ≡ spec.needs_flip status reduced }
{
    match status {
        Status::AtLower => is_negative(reduced),
        Status::AtUpper => is_positive(reduced),
        Status::Basic | Status::AtZero => false,
    }
}

// Whether the reduced cost of a column suits its status, or the column has the other bound, to which it may go. A
// column at 0 needs the reduced cost 0.
fn meets_need(status: Status, reduced: Frac, lower: Option<Frac>, upper: Option<Frac>) -> bool
    ensures { result ≡ spec.meets_need status reduced lower upper }
{
    match status {
        Status::Basic => true,
        Status::AtLower => !is_negative(reduced) || upper.is_some(),
        Status::AtUpper => !is_positive(reduced) || lower.is_some(),
        Status::AtZero => is_zero(reduced),
    }
}

// Whether column `k` needs its other bound, so that its reduced cost has the right sign. A fixed one needs nothing.
pub(crate) fn needs_flip_at(tab: &Tableau, k: u32) -> bool
    requires { k < all_columns tab.now }
    ensures { result ≡ spec.needs_flip_at tab.now k }
{
    !is_fixed(tab.lower(k), tab.upper(k)) && needs_flip(tab.status(k), tab.reduced(k))
}

// Whether the reduced cost of column `k` has the right sign, or gets it by a flip. A fixed column needs nothing.
fn meets_need_at(tab: &Tableau, k: u32) -> bool
    requires { k < all_columns tab.now }
    ensures { result ≡ spec.meets_need_at tab.now k }
{
    is_fixed(tab.lower(k), tab.upper(k))
        || meets_need(tab.status(k), tab.reduced(k), tab.lower(k), tab.upper(k))
}

// Whether the reduced cost of each column that is not fixed has the right sign, or gets it by a flip.
fn all_meet(tab: &Tableau) -> bool
    ensures { result ≡ spec.all_meet tab.now (all_columns tab.now) }
{
    let mut met = true;
    for k in 0..tab.width() {
        met = met && meets_need_at(tab, k);
    }
    met
}

// The method that a tableau is fit for, where `outside` is its first basic column outside its bounds.
fn fit_by(tab: &Tableau, outside: Option<Leaving>) -> Fit
    ensures { result ≡ spec.fit_by tab.now outside }
{
    match outside {
        None => Fit::Primal,
        Some(_) if all_meet(tab) => Fit::Dual,
        Some(_) => Fit::Unfit,
    }
}

/// The method that a tableau is fit for: the primal one where each basic value is within its bounds, else the dual one
/// or neither. It is fit for the dual one where the reduced cost of each column that is not fixed has the sign that it
/// needs, or gets it when the column goes to its other bound. The values are compared with their bounds in order, up to
/// the first one outside them.
#[tactic(auto, unfolding(spec_simplex::specs::Fit::fit_run))]
pub fn fit(tab: &Tableau) -> Result<Fit, Past>
    ensures { result ≡ spec.fit_run (Some number_limit) tab.now }
{
    let outside = leaving(tab)?;
    Ok(fit_by(tab, outside))
}
