// Whether a step is likely to stay within the width.
ghost use Rattle.std.specs.Prelude.{◌<◌, length};
ghost use Rattle.lp_rows.specs.Shows.{IsWhole, height, width};
ghost use Rattle.lp_rows.specs.Steps.{MayMake};

use crate::fractions::Row;
use crate::tableau::choice::Step;
use crate::tableau::tableau::RowTableau;
use lp_natural::words::{Signed, Words};
use lp_tableau::Pivot;

// Whether the product of two numbers with `a` and `b` bits, and a sum with another such product, is within the width
// whatever these numbers are.
fn fits<T: Words>(a: u32, b: u32) -> bool {
    a.wrapping_add(b).wrapping_add(2) <= T::width()
}

// The greater of two counts.
fn more(a: u32, b: u32) -> u32 {
    if a < b { b } else { a }
}

// How many bits a number has in use.
fn bits_of_number<T: Words>(n: Signed<T>) -> u32 {
    n.size.bits()
}

// How many bits a bound has in use, and 0 where there is none.
fn bits_of_bound<T: Words>(bound: Option<Signed<T>>) -> u32 {
    match bound {
        Some(bound) => bits_of_number(bound),
        None => 0,
    }
}

// The most bits that any number of a row, or its denominator, has in use.
fn bits_of_row<T: Words>(row: &Row<T>) -> u32 {
    let mut most = row.denominator;
    for number in &row.numbers {
        most = most.either(number.size);
    }
    most.bits()
}

// Whether a row has room for `a` times it less its entry in column `j` times another row, where `a` and the numbers of
// the other row have so many bits. It has where that entry is 0, since the row stays then.
fn has_room<T: Words>(row: &Row<T>, j: usize, a: u32, other: u32) -> bool
    requires { j < length row.now.numbers.items }
{
    let entry = bits_of_number(row.numbers[j]);
    entry == 0 || (fits::<T>(entry, other) && fits::<T>(bits_of_row(row), a))
}

// Whether all rows and the reduced costs have room for a step in column `j`: for a multiplier of `a` bits of their own,
// and another row whose numbers have `other` bits.
fn all_have_room<T: Words>(tab: &RowTableau<T>, j: usize, a: u32, other: u32) -> bool
    requires whole { IsWhole T.value tab.now }
    requires column { j < width tab.now }
{
    for i in 0..tab.rows.len() {
        if !has_room(&tab.rows[i], j, a, other) {
            return false;
        }
    }
    has_room(&tab.costs, j, a, other)
}

// The most bits that either bound of a column has in use.
fn bits_of_bounds<T: Words>(tab: &RowTableau<T>, k: usize) -> u32
    requires lower { k < length tab.now.lower.items }
    requires upper { k < length tab.now.upper.items }
{
    more(bits_of_bound(tab.lower[k]), bits_of_bound(tab.upper[k]))
}

// Whether a flip of column `j` is likely to stay within the width, by the bits in use.
fn flip_has_room<T: Words>(tab: &RowTableau<T>, j: usize) -> bool
    requires whole { IsWhole T.value tab.now }
    requires column { j < width tab.now }
{
    all_have_room(tab, j, 0, bits_of_bounds(tab, j))
}

// Whether a pivot is likely to stay within the width, by the bits in use.
fn pivot_has_room<T: Words>(tab: &RowTableau<T>, at: Pivot) -> bool
    requires whole { IsWhole T.value tab.now }
    requires place { at.position < height tab.now }
    requires column { at.column < width tab.now }
{
    let (p, j) = (at.position as usize, at.column as usize);
    let own = &tab.rows[p];
    let leaving = bits_of_bounds(tab, tab.basic[p] as usize);
    let entry = bits_of_number(own.numbers[j]);
    let most = more(
        bits_of_row(own),
        leaving.wrapping_add(own.denominator.bits()),
    );
    fits::<T>(entry, bits_of_bounds(tab, j)) && all_have_room(tab, j, entry, most)
}

/// Whether a step is likely to stay within the width, by the bits in use: a product has at most as many as its factors
/// together. Nothing is promised, since divisors in common are not known before: where it is false, `make` may do, and
/// the other way round. It looks only at rows with an entry in the step's column.
pub fn is_roomy<T: Words>(tab: &RowTableau<T>, step: Step) -> bool
    requires whole { IsWhole T.value tab.now }
    requires inside { MayMake tab.now step }
{
    match step {
        Step::End(_) => true,
        Step::Flip(col) => flip_has_room(tab, col as usize),
        Step::Pivot { place, col, .. } => {
            let at = Pivot {
                position: place,
                column: col,
            };
            pivot_has_room(tab, at)
        }
    }
}
