// Rows as fractions.
ghost use Rattle.std.specs.Prelude.{false, ◌≡◌, ◌≢◌, ◌<◌, ℕ, ◌*◌, IsTrue, IfSome, length};
ghost use Rattle.spec_exact.specs.Fraction.{0ℚ, inverse, ◌-ℚ◌, ◌*ℚ◌};
ghost use Rattle.lp_rows.specs.Row.{fraction_at, AreNow};

use crate::row::{eliminate, part, turn};
use lp_natural::words::{Divisor, Signed, Words, is_one, quotient, quotient_by, some_common};
use std::alloc::AllocError;

/// Whole numbers on a denominator, which is not 0. The last of them is the value of the row's basic column.
pub struct Row<T: Words> {
    pub numbers: Vec<Signed<T>>,
    pub denominator: T,
}

impl<T: Words> Drop for Row<T> {
    fn drop(self) {
        let Row {
            numbers,
            denominator: _,
        } = self;
        drop(numbers);
    }
}

// What two numbers are times a divisor that they have in common.
#[derive(Copy)]
pub(crate) struct Shares<T> {
    pub(crate) first: T,
    pub(crate) second: T,
    pub(crate) common: T,
}

impl<T: Copy> Clone for Shares<T> {
    ghost is_clone = { λ x y. y ≡ x };

    fn clone(&self) -> Result<Shares<T>, AllocError> {
        Ok(*self)
    }
}

// The quotients of two numbers by a divisor that they have in common, and that divisor. None where the one that is
// found does not divide both.
pub(crate) fn share_common<T: Words>(a: T, b: T) -> Option<Shares<T>>
    ensures { IfSome result (λ s. (T.value s.first * T.value s.common ≡ T.value a)
        × (T.value s.second * T.value s.common ≡ T.value b)) }
{
    if is_one(a) {
        return Some(Shares {
            first: a,
            second: b,
            common: T::one(),
        });
    }
    let common = some_common(a, b);
    match (quotient(a, common), quotient(b, common)) {
        (Some(first), Some(second)) => Some(Shares {
            first,
            second,
            common,
        }),
        _ => None,
    }
}

// Subtracts from a row its entry in column `j` times the other row, so that this entry becomes 0 where the other row's
// is 1. Where the answer is false a number overflows the width, and the row is spent.
pub(crate) fn clear<T: Words>(row: &mut Row<T>, other: &Row<T>, j: usize) -> bool
    requires same { length other.now.numbers.items ≡ length row.old.numbers.items }
    requires column { j < length row.old.numbers.items }
    requires positive { 0 < T.value row.old.denominator }
    requires below { 0 < T.value other.now.denominator }
    ensures rest { IsTrue result → AreNow T.value (λ k.
        fraction_at T.value row.old.numbers.items (T.value row.old.denominator) k -ℚ
        fraction_at T.value row.old.numbers.items (T.value row.old.denominator) j *ℚ
        fraction_at T.value other.now.numbers.items (T.value other.now.denominator) k)
        (length row.old.numbers.items) row.new.numbers.items (T.value row.new.denominator) }
    ensures positive { IsTrue result → 0 < T.value row.new.denominator }
{
    let entry = row.numbers[j];
    match share_common(other.denominator, entry.size) {
        Some(s) => match row.denominator.product(s.first) {
            Some(denominator) => {
                row.denominator = denominator;
                let a = Signed {
                    negative: false,
                    size: s.first,
                };
                let b = Signed {
                    negative: entry.negative,
                    size: s.second,
                };
                eliminate(&mut row.numbers, &other.numbers, a, b)
            }
            None => false,
        },
        None => false,
    }
}

// Whether the number is 0.
fn is_none<T: Words>(n: Signed<T>) -> bool
    ensures { result ≡ false → 0 < T.value n.size }
{
    n.size.is_zero()
}

// Divides a row by its entry in column `j`, which is not 0 then. Where the answer is false that entry is 0, and the row
// stays as it was.
pub(crate) fn divide<T: Words>(row: &mut Row<T>, j: usize) -> bool
    requires column { j < length row.old.numbers.items }
    requires positive { 0 < T.value row.old.denominator }
    ensures rest { IsTrue result → AreNow T.value (λ k.
        fraction_at T.value row.old.numbers.items (T.value row.old.denominator) k *ℚ
        inverse (fraction_at T.value row.old.numbers.items (T.value row.old.denominator) j))
        (length row.old.numbers.items) row.new.numbers.items (T.value row.new.denominator) }
    ensures positive { 0 < T.value row.new.denominator }
{
    let entry = row.numbers[j];
    if is_none(entry) {
        return false;
    }
    row.denominator = entry.size;
    turn(&mut row.numbers, entry.negative);
    true
}

// A divisor that a row's numbers have in common with its denominator. Nothing is promised of it.
fn divisor<T: Words>(numbers: &[Signed<T>], denominator: T) -> T {
    let mut found = denominator;
    if is_one(found) {
        return found;
    }
    let mut by = Divisor::new(found);
    for number in numbers {
        if number.size.is_zero() {
            continue;
        }
        if is_one(found) {
            break;
        }
        if quotient_by(number.size, &by).is_none() {
            found = some_common(found, number.size);
            by = Divisor::new(found);
        }
    }
    found
}

// Divides a row's numbers and its denominator by a divisor that they have in common. Where the answer is false the row
// is spent.
pub(crate) fn reduce<T: Words>(row: &mut Row<T>) -> bool
    requires positive { 0 < T.value row.old.denominator }
    ensures rest { IsTrue result → AreNow T.value
        (fraction_at T.value row.old.numbers.items (T.value row.old.denominator))
        (length row.old.numbers.items) row.new.numbers.items (T.value row.new.denominator) }
    ensures positive { IsTrue result → 0 < T.value row.new.denominator }
{
    let by = Divisor::new(divisor(&row.numbers, row.denominator));
    if is_one(by.number) {
        return true;
    }
    match quotient_by(row.denominator, &by) {
        Some(denominator) => {
            row.denominator = denominator;
            part(&mut row.numbers, &by)
        }
        None => false,
    }
}
