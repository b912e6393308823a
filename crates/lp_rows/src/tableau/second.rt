// The change to phase two: the reduced costs of the form's costs, and the bounds of the artificial columns.
ghost use Rattle.std.specs.Prelude.{◌≡◌, ◌<◌, IfOk, IfSome, IsTrue, length};
ghost use Rattle.lp_rows.specs.Row.{AreNow, fraction_at};
ghost use Rattle.spec_exact.specs.Fraction.{◌-ℚ◌, ◌*ℚ◌};
ghost use Rattle.lp_rows.specs.Shows.{IsRow, IsWhole, height, width};
ghost use Rattle.lp_rows.specs.Second.{IsLess, IsLessRows, IsPricedRow, AreZeroed, IsBegun};

use crate::fractions::{Row, clear, reduce};
use crate::tableau::common::row_of;
use crate::tableau::tableau::RowTableau;
use lp_form::Form;
use lp_frac::zero;
use lp_natural::words::{Signed, Words};
use std::alloc::{AllocError, Global};

// ---- costs

// Subtracts from a row its entry in column `j` times the other row, so that this entry becomes 0 where the other row's
// is 1, and takes out a common divisor. Where the answer is false a number overflows the width, and the row is spent.
fn clear_reduced<T: Words>(row: &mut Row<T>, other: &Row<T>, j: usize) -> bool
    requires same { length other.now.numbers.items ≡ length row.old.numbers.items }
    requires column { j < length row.old.numbers.items }
    requires positive { 0 < T.value row.old.denominator }
    requires below { 0 < T.value other.now.denominator }
    ensures rest { IsTrue result → AreNow T.value (λ k.
        fraction_at T.value row.old.numbers.items (T.value row.old.denominator) k -ℚ
        fraction_at T.value row.old.numbers.items (T.value row.old.denominator) j *ℚ
        fraction_at T.value other.now.numbers.items (T.value other.now.denominator) k)
        (length row.old.numbers.items) row.new.numbers.items (T.value row.new.denominator) }
    ensures positive { IsTrue result → 0 < T.value row.new.denominator }
{
    if clear(row, other, j) {
        reduce(row)
    } else {
        false
    }
}

// Subtracts from the costs the row of a position times the cost of its basic column, which becomes 0 where the row's
// entry there is 1. An artificial one has the cost 0 already. False where a number overflows the width.
fn take_off<T: Words>(tab: &RowTableau<T>, costs: &mut Row<T>, i: usize) -> bool
    requires whole { IsWhole T.value tab.now }
    requires place { i < height tab.now }
    requires row { IsRow T.value (width tab.now) costs.old }
    ensures { IsTrue result → IsLess T.value tab.now i costs.old costs.new }
{
    let k = tab.basic[i] as usize;
    if k < tab.width() {
        clear_reduced(costs, &tab.rows[i], k)
    } else {
        true
    }
}

// Subtracts from the costs the row of each position in order, times the cost of its basic column then. So the costs of
// basic columns become 0 where each has an entry, 1, in its own row alone. False where a number overflows the width.
fn take_off_all<T: Words>(tab: &RowTableau<T>, costs: &mut Row<T>) -> bool
    requires whole { IsWhole T.value tab.now }
    requires row { IsRow T.value (width tab.now) costs.old }
    ensures { IsTrue result → IsLessRows T.value tab.now (height tab.now) costs.old costs.new }
{
    for i in 0..tab.rows.len() {
        if !take_off(tab, costs, i) {
            return false;
        }
    }
    true
}

// The reduced costs, by the rows of all positions, for these costs; none where a number overflows the width.
fn reduced<T: Words>(tab: &RowTableau<T>, costs: Row<T>) -> Option<Row<T>>
    requires whole { IsWhole T.value tab.now }
    requires row { IsRow T.value (width tab.now) costs }
    ensures { IfSome result (IsLessRows T.value tab.now (height tab.now) costs) }
{
    let mut row = costs;
    if take_off_all(tab, &mut row) {
        Some(row)
    } else {
        None
    }
}

/// The reduced costs for the form's costs; none where a number overflows the width.
pub fn priced<T: Words>(
    alloc: Global,
    tab: &RowTableau<T>,
    form: &Form,
) -> Result<Option<Row<T>>, AllocError>
    requires whole { IsWhole T.value tab.now }
    requires rows { form.now.rows ≡ height tab.now }
    requires cols { form.now.cols ≡ tab.now.cols }
    ensures { IfOk result (λ o. IfSome o (IsPricedRow T.value tab.now form.now.cost)) }
{
    let _ = form.rows();
    match row_of(alloc, form.costs(), zero(), tab.denominator)? {
        Some(costs) => Ok(reduced(tab, costs)),
        None => Ok(None),
    }
}

// ---- bounds

// Sets the bounds of all columns from `first` on to 0.
fn zero_from<T: Words>(bounds: &mut [Option<Signed<T>>], first: usize)
    ensures { AreZeroed T.value first (length bounds.old) bounds.old bounds.new }
{
    for k in first..bounds.len() {
        bounds[k] = Some(Signed {
            negative: false,
            size: T::zero(),
        });
    }
}

// Replaces the row of reduced costs, and fixes the artificial columns at 0.
pub(crate) fn begin<T: Words>(tab: &mut RowTableau<T>, costs: Row<T>)
    requires { IsWhole T.value tab.old }
    ensures { IsBegun T.value tab.old costs tab.new }
{
    let first = tab.width();
    tab.costs = costs;
    zero_from(&mut tab.lower, first);
    zero_from(&mut tab.upper, first);
}
