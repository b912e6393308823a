// Whether phase one is wanted, whether it has driven all artificials to 0, and the change to phase two.
ghost use Rattle.std.specs.Prelude.{◌≡◌, ◌<◌, IfOk, IsTrue, Ok, None, false, length, not, ◌&&◌, nat_le};
ghost use Rattle.std.specs.List.{list_any};
ghost use Rattle.spec_exact.specs.Fraction.{0ℚ, eq_ℚ};
ghost use Rattle.spec_simplex.specs.Tableau as tableaus;
ghost use Rattle.spec_simplex.specs.Phases as phases;
ghost use Rattle.lp_rows.specs.Shows.{IsWhole, IsReached, Shows, width, height, row_at};

use crate::tableau::second::{begin, priced};
use crate::tableau::tableau::RowTableau;
use lp_form::Form;
use lp_natural::words::Words;
use std::alloc::{AllocError, Global};

// Whether a column of the list is `first` or behind it.
fn any_from(cols: &[u32], first: usize) -> bool
    ensures { result ≡ list_any (λ k. nat_le first k) cols.now }
{
    cols.iter().any(|k| first <= *k as usize)
}

/// Whether some artificial column is basic.
pub fn wants_phase_one<T: Words>(tab: &RowTableau<T>) -> bool
    requires { IsWhole T.value tab.now }
    ensures { (t : tableaus.Tableau) → Shows T.value tab.now t → result ≡ phases.wants_phase_one t }
{
    any_from(&tab.basic, tab.width())
}

// Whether the value of a position's basic column is 0.
fn is_at_zero<T: Words>(tab: &RowTableau<T>, i: usize) -> bool
    requires whole { IsWhole T.value tab.now }
    requires inside { i < height tab.now }
    ensures { result ≡ eq_ℚ (row_at T.value (T.value tab.now.denominator) tab.now.rows.items i (width tab.now)) 0ℚ }
{
    let last = tab.width();
    tab.rows[i].numbers[last].size.is_zero()
}

// Whether the basic column of a position is an artificial that is not 0.
fn is_wanting<T: Words>(tab: &RowTableau<T>, i: usize) -> bool
    requires whole { IsWhole T.value tab.now }
    requires inside { i < height tab.now }
    ensures { (t : tableaus.Tableau) → Shows T.value tab.now t →
        result ≡ (tableaus.is_artificial t (tableaus.basic_at t i)
        && not (eq_ℚ (tableaus.value_at t (tableaus.basic_at t i)) 0ℚ)) }
{
    tab.width() <= tab.basic[i] as usize && !is_at_zero(tab, i)
}

/// Whether some artificial column is basic and not 0.
pub fn is_stuck<T: Words>(tab: &RowTableau<T>) -> bool
    requires { IsWhole T.value tab.now }
    ensures { (t : tableaus.Tableau) → Shows T.value tab.now t → result ≡ phases.is_stuck t }
{
    for i in 0..tab.rows.len() {
        if is_wanting(tab, i) {
            return true;
        }
    }
    false
}

/// Fixes the artificial columns at 0, and sets the reduced costs by the form's costs. Where the answer is false a
/// number overflows the width, and the tableau is as before. Where memory runs out, nothing is promised of it.
pub fn phase_two<T: Words>(
    alloc: Global,
    tab: &mut RowTableau<T>,
    form: &Form,
) -> Result<bool, AllocError>
    requires whole { IsWhole T.value tab.old }
    requires rows { form.now.rows ≡ length tab.old.rows.items }
    requires cols { form.now.cols ≡ tab.old.cols }
    ensures whole { IfOk result (λ is_made. IsTrue is_made → IsWhole T.value tab.new) }
    ensures rows { IfOk result (λ is_made. IsTrue is_made → height tab.new ≡ height tab.old) }
    ensures cols { IfOk result (λ is_made. IsTrue is_made → tab.new.cols ≡ tab.old.cols) }
    ensures shown { IfOk result (λ is_made. IsTrue is_made → (t u : tableaus.Tableau) → IsReached t →
        Shows T.value tab.old t → phases.phase_two_run None form.now t ≡ Ok u → Shows T.value tab.new u) }
    ensures kept { IfOk result (λ is_made. is_made ≡ false → tab.new ≡ tab.old) }
{
    match priced(alloc, tab, form)? {
        Some(costs) => {
            begin(tab, costs);
            Ok(true)
        }
        None => Ok(false),
    }
}
