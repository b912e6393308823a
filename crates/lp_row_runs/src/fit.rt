// Whether the tableau of a basis is primal feasible.
ghost use Rattle.std.specs.Prelude.{◌≡◌, ◌<◌, ◌*◌, ℕ, IfSome, IsTrue, Ok, None};
ghost use Rattle.spec_exact.specs.Fraction.{over, ◌≤ℚ◌};
ghost use Rattle.spec_pivot.specs.Simplex.{IsInside};
ghost use Rattle.spec_simplex.specs.declared.ends.Fit.TheVariants as fit;
ghost use Rattle.spec_simplex.specs.Fit.{fit_run};
ghost use Rattle.spec_simplex.specs.Form.{Form as forms};
ghost use Rattle.spec_simplex.specs.Tableau as tableaus;
ghost use Rattle.spec_runs.specs.Based.{BeginsFrom};
ghost use Rattle.lp_natural.specs.Whole.{whole};
ghost use Rattle.lp_rows.specs.Ratio.{bound_of};
ghost use Rattle.lp_rows.specs.Shows.{IsWhole, Shows, height};

use lp_natural::words::{Signed, Words};
use lp_rows::order;
use lp_rows::tableau::RowTableau;
use std::cmp::Ordering;

// Whether a value is not below a lower bound, true where there is none. The value is on the row's denominator times
// that of the bound.
fn is_from<T: Words>(lower: Option<Signed<T>>, value: Signed<T>, denominator: T) -> bool
    requires { 0 < T.value denominator }
    ensures { IsTrue result → (d : ℕ) → 0 < d → IfSome (bound_of T.value d lower)
        (λ c. c ≤ℚ over (whole value.negative (T.value value.size)) (d * T.value denominator)) }
{
    match lower {
        Some(lower) => match order(value, T::one(), lower, denominator) {
            Ordering::Less => false,
            Ordering::Equal | Ordering::Greater => true,
        },
        None => true,
    }
}

// Whether a value is not above an upper bound, true where there is none. The value is on the row's denominator times
// that of the bound.
fn is_up_to<T: Words>(upper: Option<Signed<T>>, value: Signed<T>, denominator: T) -> bool
    requires { 0 < T.value denominator }
    ensures { IsTrue result → (d : ℕ) → 0 < d → IfSome (bound_of T.value d upper)
        (λ c. over (whole value.negative (T.value value.size)) (d * T.value denominator) ≤ℚ c) }
{
    match upper {
        Some(upper) => match order(value, T::one(), upper, denominator) {
            Ordering::Less | Ordering::Equal => true,
            Ordering::Greater => false,
        },
        None => true,
    }
}

// Whether a value is within both bounds, of which each may be absent. The value is on the row's denominator times that
// of the bounds.
fn is_between<T: Words>(
    lower: Option<Signed<T>>,
    upper: Option<Signed<T>>,
    value: Signed<T>,
    denominator: T,
) -> bool
    requires { 0 < T.value denominator }
    ensures { IsTrue result → (d : ℕ) → 0 < d → IsInside (bound_of T.value d lower) (bound_of T.value d upper)
        (over (whole value.negative (T.value value.size)) (d * T.value denominator)) }
{
    if is_from(lower, value, denominator) {
        is_up_to(upper, value, denominator)
    } else {
        false
    }
}

// Whether the value of a position's basic column is within its bounds.
fn is_inside<T: Words>(tab: &RowTableau<T>, i: usize) -> bool
    requires whole { IsWhole T.value tab.now }
    requires place { i < height tab.now }
    ensures { IsTrue result → (t : tableaus.Tableau) → Shows T.value tab.now t →
        IsInside (tableaus.lower_at t (tableaus.basic_at t i)) (tableaus.upper_at t (tableaus.basic_at t i))
        (tableaus.value_at t (tableaus.basic_at t i)) }
{
    let row = &tab.rows[i];
    let k = tab.basic[i] as usize;
    let value = row.numbers[tab.width()];
    is_between(tab.lower[k], tab.upper[k], value, row.denominator)
}

/// Whether the value of each basic column is within its bounds, which makes the tableau of a basis primal feasible.
pub(crate) fn is_fit<T: Words>(tab: &RowTableau<T>) -> bool
    requires { IsWhole T.value tab.now }
    ensures { IsTrue result → (f : forms) (t : tableaus.Tableau) → BeginsFrom f t → Shows T.value tab.now t →
        fit_run None t ≡ Ok fit.Primal }
{
    for i in 0..tab.rows.len() {
        if !is_inside(tab, i) {
            return false;
        }
    }
    true
}
