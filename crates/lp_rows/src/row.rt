// Elimination of one row by another, over whole numbers.
ghost use Rattle.std.specs.Prelude.{◌≡◌, ◌<◌, ℕ, IsTrue, length, ◌*ℤ◌, ◌-ℤ◌, pos};
ghost use Rattle.lp_natural.specs.Whole.{whole};
ghost use Rattle.lp_rows.specs.Row.{at, turned_if};

use lp_natural::words::{Divisor, Signed, Words, less_products, quotient_by};

// Whether the number is 1.
fn is_unit<T: Words>(a: Signed<T>) -> bool
    ensures { IsTrue result → whole a.negative (T.value a.size) ≡ pos 1 }
{
    !a.negative && a.size.is(T::one())
}

// Whether both numbers are 0.
fn are_none<T: Words>(x: Signed<T>, y: Signed<T>) -> bool
    ensures first { IsTrue result → T.value x.size ≡ 0 }
    ensures second { IsTrue result → T.value y.size ≡ 0 }
{
    x.size.is_zero() && y.size.is_zero()
}

// Subtracts `b` times the other row from a row. Where the answer is false a number overflows the width, and the row is
// spent.
fn take_off<T: Words>(row: &mut [Signed<T>], other: &[Signed<T>], b: Signed<T>) -> bool
    requires { length other.now ≡ length row.old }
    ensures each { IsTrue result → (k : ℕ) → k < length row.old → at T.value row.new k ≡
        at T.value row.old k -ℤ whole b.negative (T.value b.size) *ℤ at T.value other.now k }
    ensures len { length row.new ≡ length row.old }
{
    let one = Signed {
        negative: false,
        size: T::one(),
    };
    for k in 0..row.len() {
        let y = other[k];
        if y.size.is_zero() {
            continue;
        }
        match less_products(one, row[k], b, y) {
            Some(number) => row[k] = number,
            None => return false,
        }
    }
    true
}

// Replaces each number of a row by `a` times it, less `b` times that of the other row. Where the answer is false a
// number is past the width, and the row is spent.
fn combine<T: Words>(row: &mut [Signed<T>], other: &[Signed<T>], a: Signed<T>, b: Signed<T>) -> bool
    requires { length other.now ≡ length row.old }
    ensures each { IsTrue result → (k : ℕ) → k < length row.old → at T.value row.new k ≡
        whole a.negative (T.value a.size) *ℤ at T.value row.old k -ℤ
        whole b.negative (T.value b.size) *ℤ at T.value other.now k }
    ensures len { length row.new ≡ length row.old }
{
    for k in 0..row.len() {
        let (x, y) = (row[k], other[k]);
        if are_none(x, y) {
            continue;
        }
        match less_products(a, x, b, y) {
            Some(number) => row[k] = number,
            None => return false,
        }
    }
    true
}

// Replaces each number of a row by `a` times it, less `b` times that of the other row. Where the answer is false a
// number is past the width, and the row is spent. Where `a` is 1 it passes over the zeros of the other row.
pub(crate) fn eliminate<T: Words>(
    row: &mut [Signed<T>],
    other: &[Signed<T>],
    a: Signed<T>,
    b: Signed<T>,
) -> bool
    requires { length other.now ≡ length row.old }
    ensures each { IsTrue result → (k : ℕ) → k < length row.old → at T.value row.new k ≡
        whole a.negative (T.value a.size) *ℤ at T.value row.old k -ℤ
        whole b.negative (T.value b.size) *ℤ at T.value other.now k }
    ensures len { length row.new ≡ length row.old }
{
    if is_unit(a) {
        take_off(row, other, b)
    } else {
        combine(row, other, a, b)
    }
}

/// Turns the sign of each number if `is_turned`; else leaves all as they are.
pub(crate) fn turn<T: Words>(row: &mut [Signed<T>], is_turned: bool)
    ensures each { (k : ℕ) → k < length row.old → at T.value row.new k ≡ turned_if is_turned (at T.value row.old k) }
    ensures len { length row.new ≡ length row.old }
{
    for k in 0..row.len() {
        let number = row[k];
        row[k] = Signed {
            negative: number.negative != is_turned,
            size: number.size,
        };
    }
}

/// Divides each number of a row by the number of `by`. Where the answer is false, one is not divisible, and the row is
/// of no more use.
pub(crate) fn part<T: Words>(row: &mut [Signed<T>], by: &Divisor<T>) -> bool
    ensures each { IsTrue result → (k : ℕ) → k < length row.old →
        at T.value row.new k *ℤ pos (T.value by.now.number) ≡ at T.value row.old k }
    ensures len { length row.new ≡ length row.old }
{
    for k in 0..row.len() {
        let number = row[k];
        match quotient_by(number.size, by) {
            Some(size) => {
                row[k] = Signed {
                    negative: number.negative,
                    size,
                }
            }
            None => return false,
        }
    }
    true
}
