// What flips and pivots do to rows.
ghost use Rattle.std.specs.Prelude.{◌≡◌, ◌<◌, ◌≤◌, IsTrue, All, length, pos, neg_ℤ, ◌*ℤ◌};
ghost use Rattle.spec_exact.specs.Fraction.{over, ◌*ℚ◌};
ghost use Rattle.spec_model.specs.Kept.{row_limit};
ghost use Rattle.lp_natural.specs.Whole.{whole};
ghost use Rattle.lp_rows.specs.Shows.{IsRow};
ghost use Rattle.lp_rows.specs.Moves.{number_at, IsLess, IsScaled, IsCleared, AreCleared, AreMoved, AreTurned};

use crate::fractions::{Row, clear, divide, reduce};
use crate::tableau::ratio::is_zero;
use lp_natural::words::{Signed, Words, less_products};
use std::alloc::AllocError;
use std::mem::swap;

// Subtracts the product `a b` from a row's last number, which is the value of its basic column. Where the answer is
// false a number overflows the width, and the row is as before.
fn less_last<T: Words>(row: &mut Row<T>, n: usize, a: Signed<T>, b: Signed<T>) -> bool
    requires { IsRow T.value n row.old }
    ensures { IsTrue result → IsLess T.value n (over
        (whole a.negative (T.value a.size) *ℤ whole b.negative (T.value b.size)) (T.value row.old.denominator))
        row.old row.new }
{
    let one = Signed {
        negative: false,
        size: T::one(),
    };
    match less_products(one, row.numbers[n], a, b) {
        Some(last) => {
            row.numbers[n] = last;
            true
        }
        None => false,
    }
}

// Subtracts a whole number, on the denominator of all bounds, from the value of the row's basic column. False where a
// number overflows the width.
fn take_off<T: Words>(row: &mut Row<T>, n: usize, by: Signed<T>) -> bool
    requires { IsRow T.value n row.old }
    ensures { IsTrue result → IsLess T.value n (over (whole by.negative (T.value by.size)) 1) row.old row.new }
{
    let denominator = Signed {
        negative: false,
        size: row.denominator,
    };
    less_last(row, n, by, denominator)
}

// The negative of a number with a sign.
fn negated<T: Words>(n: Signed<T>) -> Signed<T>
    ensures { whole result.negative (T.value result.size) ≡ neg_ℤ (whole n.negative (T.value n.size)) }
{
    Signed {
        negative: !n.negative,
        size: n.size,
    }
}

// Moves the value of the row's basic column as column `j` moves by `by`: by the opposite of the row's entry times that.
// False where a number overflows the width.
fn move_last<T: Words>(row: &mut Row<T>, n: usize, j: usize, by: Signed<T>) -> bool
    requires row { IsRow T.value n row.old }
    requires column { j < n }
    ensures { IsTrue result →
        IsLess T.value n (number_at T.value row.old j *ℚ over (whole by.negative (T.value by.size)) 1) row.old row.new }
{
    let entry = row.numbers[j];
    less_last(row, n, entry, by)
}

/// Moves each basic value as column `j` moves by `by`, on the denominator of all bounds. False where a number overflows
/// the width.
pub fn move_all<T: Words>(rows: &mut [Row<T>], n: usize, j: usize, by: Signed<T>) -> bool
    requires rows { All (IsRow T.value n) rows.old }
    requires column { j < n }
    ensures { IsTrue result →
        AreMoved T.value n j (over (whole by.negative (T.value by.size)) 1) rows.old rows.new }
{
    for i in 0..rows.len() {
        if !move_last(&mut rows[i], n, j, by) {
            return false;
        }
    }
    true
}

// Subtracts a whole number from the basic value, and then divides the row by its entry in column `j`. False where a
// number overflows the width, or that entry is 0.
fn scale<T: Words>(row: &mut Row<T>, n: usize, j: usize, by: Signed<T>) -> bool
    requires row { IsRow T.value n row.old }
    requires column { j < n }
    ensures { IsTrue result →
        IsScaled T.value n j (over (whole by.negative (T.value by.size)) 1) row.old row.new }
{
    if !take_off(row, n, by) {
        return false;
    }
    if !divide(row, j) {
        return false;
    }
    reduce(row)
}

// Subtracts from a row its entry in column `j` times the row `own`, so that this entry becomes 0 where that of `own` is
// 1. False where a number overflows the width.
fn clear_one<T: Words>(row: &mut Row<T>, own: &Row<T>, n: usize, j: usize) -> bool
    requires row { IsRow T.value n row.old }
    requires own { IsRow T.value n own.now }
    requires column { j < n }
    ensures { IsTrue result → IsCleared T.value n j own.now row.old row.new }
{
    if is_zero(row.numbers[j]) {
        return true;
    }
    if !clear(row, own, j) {
        return false;
    }
    reduce(row)
}

// Subtracts from each row its entry in column `j` times the row `own`, so that these entries become 0 where that of
// `own` is 1. False where a number overflows the width.
fn clear_all<T: Words>(rows: &mut [Row<T>], own: &Row<T>, n: usize, j: usize) -> bool
    requires rows { All (IsRow T.value n) rows.old }
    requires own { IsRow T.value n own.now }
    requires column { j < n }
    ensures { IsTrue result → AreCleared T.value n j own.now rows.old rows.new }
{
    for i in 0..rows.len() {
        if !clear_one(&mut rows[i], own, n, j) {
            return false;
        }
    }
    true
}

/// The column of a pivot, and what both columns are worth on the denominator of all bounds: that which leaves
/// afterwards, and that which enters before.
#[derive(Copy)]
pub struct Turn<T> {
    pub place: usize,
    pub col: usize,
    pub leaves_at: Signed<T>,
    pub enters_from: Signed<T>,
}

impl<T: Copy> Clone for Turn<T> {
    ghost is_clone = { λ x y. y ≡ x };

    fn clone(&self) -> Result<Turn<T>, AllocError> {
        Ok(*self)
    }
}

/// Changes the rows, their values and the reduced costs as a pivot does. The costs are in the list of rows at `place`
/// meanwhile, so that each row of the list is cleared. False where a number overflows the width, or the pivot's entry
/// is 0.
pub fn turn_rows<T: Words>(rows: &mut [Row<T>], costs: &mut Row<T>, n: usize, turn: Turn<T>) -> bool
    requires rows { All (IsRow T.value n) rows.old }
    requires costs { IsRow T.value n costs.old }
    requires place { turn.place < length rows.old }
    requires column { turn.col < n }
    ensures { IsTrue result → AreTurned T.value n turn.place turn.col
        (over (whole turn.leaves_at.negative (T.value turn.leaves_at.size)) 1)
        (over (whole turn.enters_from.negative (T.value turn.enters_from.size)) 1)
        rows.old rows.new costs.old costs.new }
{
    let Turn {
        place,
        col,
        leaves_at,
        enters_from,
    } = turn;
    let own = &mut rows[place];
    if !scale(own, n, col, leaves_at) {
        return false;
    }
    swap(own, costs);
    if !clear_all(rows, costs, n, col) {
        return false;
    }
    let own = &mut rows[place];
    swap(own, costs);
    take_off(own, n, negated(enters_from))
}
