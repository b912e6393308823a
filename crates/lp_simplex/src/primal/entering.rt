// Which column enters, by Bland's rule.
ghost use Rattle.std.specs.Prelude.{◌≡◌, ◌<◌, IfSome};
ghost use Rattle.spec_exact.specs.Fraction.{lt_ℚ, 0ℚ};
ghost use Rattle.spec_simplex.specs.Tableau.{all_columns};
ghost use Rattle.spec_simplex.specs.Step.{way_by, way_at, entering as entering_of};

use lp_form::Status;
use lp_frac::{Frac, sign};
use lp_tableau::{Tableau, is_fixed};
use spec_pivot::Way;
use spec_simplex::Entering;
use std::cmp::Ordering;

/// The way in which a column of this status and reduced cost moves as it enters; none if it should not enter.
pub fn way(status: Status, reduced: Frac) -> Option<Way>
    ensures { result ≡ way_by status reduced }
{
    match sign(reduced) {
        Ordering::Less => match status {
            Status::AtLower | Status::AtZero => Some(Way::Up),
            Status::Basic | Status::AtUpper => None,
        },
        Ordering::Equal => None,
        Ordering::Greater => match status {
            Status::AtUpper | Status::AtZero => Some(Way::Down),
            Status::Basic | Status::AtLower => None,
        },
    }
}

// The way in which column `k` moves as it enters; none if it may not, or is fixed.
fn column_way(tab: &Tableau, k: u32) -> Option<Way>
    requires { k < all_columns tab.now }
    ensures { result ≡ way_at tab.now k }
{
    let Some(direction) = way(tab.status(k), tab.reduced(k)) else {
        return None;
    };
    if is_fixed(tab.lower(k), tab.upper(k)) {
        return None;
    }
    Some(direction)
}

// The least column that may enter, with its way; none if no one may.
pub(crate) fn entering(tab: &Tableau) -> Option<Entering>
    ensures value { result ≡ entering_of tab.now }
    ensures inside { IfSome result (λ e. e.col < all_columns tab.now) }
{
    for col in 0..tab.width() {
        if let Some(direction) = column_way(tab, col) {
            return Some(Entering { col, direction });
        }
    }
    None
}
