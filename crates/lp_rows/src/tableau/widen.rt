// The same rows in words of another width.
ghost use Rattle.std.specs.Prelude.{◌≡◌, IfOk, IfSome, map, option_map};
ghost use Rattle.spec_simplex.specs.Tableau as tableaus;
ghost use Rattle.lp_rows.specs.Held.{whole_of, wholes, whole_bounds, whole_row, AreSameBounds, AreSameNumbers};
ghost use Rattle.lp_rows.specs.Shows.{IsWhole, Shows, height};

use crate::fractions::Row;
use crate::overflow::Overflow;
use crate::tableau::parts::{Bounds, Standing};
use crate::tableau::tableau::RowTableau;
use lp_natural::words::{Signed, Words, converted};
use std::alloc::{AllocError, Global};

// A number in words of another width; none where it overflows them.
fn number<T: Words, U: Words>(n: Signed<T>) -> Option<Signed<U>>
    ensures { IfSome result (λ m. whole_of U.value m ≡ whole_of T.value n) }
{
    match converted(n.size) {
        Some(size) => Some(Signed {
            negative: n.negative,
            size,
        }),
        None => None,
    }
}

// Numbers in words of another width, or `None` where one overflows them.
fn numbers<T: Words, U: Words>(
    alloc: Global,
    from: &[Signed<T>],
) -> Result<Option<Vec<Signed<U>>>, AllocError>
    ensures { IfOk result (λ o. IfSome o (λ v. wholes U.value v.items ≡ wholes T.value from.now)) }
{
    let mut list = Vec::new(alloc);
    for n in from {
        match number(*n) {
            Some(number) => list.push(number)?,
            None => return Ok(None),
        }
    }
    Ok(Some(list))
}

// A bound, if there is one, in words of another width; an error where it overflows them.
fn bound<T: Words, U: Words>(b: Option<Signed<T>>) -> Result<Option<Signed<U>>, Overflow>
    ensures { IfOk result (λ c. option_map (whole_of U.value) c ≡ option_map (whole_of T.value) b) }
{
    match b {
        Some(n) => match number(n) {
            Some(number) => Ok(Some(number)),
            None => Err(Overflow),
        },
        None => Ok(None),
    }
}

// Bounds in words of another width, or `None` where one overflows them.
fn bounds<T: Words, U: Words>(
    alloc: Global,
    from: &[Option<Signed<T>>],
) -> Result<Option<Vec<Option<Signed<U>>>>, AllocError>
    ensures { IfOk result (λ o. IfSome o (λ v. whole_bounds U.value v.items ≡ whole_bounds T.value from.now)) }
{
    let mut list = Vec::new(alloc);
    for b in from {
        match bound(*b) {
            Ok(bound) => list.push(bound)?,
            Err(Overflow) => return Ok(None),
        }
    }
    Ok(Some(list))
}

// A row in words of another width, or `None` where a number overflows them.
fn row<T: Words, U: Words>(alloc: Global, from: &Row<T>) -> Result<Option<Row<U>>, AllocError>
    ensures { IfOk result (λ o. IfSome o (λ r. whole_row U.value r ≡ whole_row T.value from.now)) }
{
    let Some(denominator) = converted(from.denominator) else {
        return Ok(None);
    };
    match numbers(alloc, &from.numbers)? {
        Some(numbers) => Ok(Some(Row {
            numbers,
            denominator,
        })),
        None => Ok(None),
    }
}

// Rows in words of another width, or `None` where a number overflows them.
fn rows<T: Words, U: Words>(
    alloc: Global,
    from: &[Row<T>],
) -> Result<Option<Vec<Row<U>>>, AllocError>
    ensures { IfOk result (λ o. IfSome o (λ v. map (whole_row U.value) v.items ≡ map (whole_row T.value) from.now)) }
{
    let mut list = Vec::new(alloc);
    for r in from {
        match row(alloc, r)? {
            Some(row) => list.push(row)?,
            None => return Ok(None),
        }
    }
    Ok(Some(list))
}

// The bounds of all columns, and their denominator, in words of another width; none where one overflows them.
fn all_bounds<T: Words, U: Words>(
    alloc: Global,
    tab: &RowTableau<T>,
) -> Result<Option<Bounds<U>>, AllocError>
    ensures { IfOk result (λ o. IfSome o (AreSameBounds T.value U.value tab.now)) }
{
    let Some(denominator) = converted(tab.denominator) else {
        return Ok(None);
    };
    let Some(lower) = bounds(alloc, &tab.lower)? else {
        return Ok(None);
    };
    match bounds(alloc, &tab.upper)? {
        Some(upper) => Ok(Some(Bounds {
            lower,
            upper,
            denominator,
        })),
        None => Ok(None),
    }
}

// Copies of the lists of basic columns, of statuses, and of which columns are fixed.
fn standing<T: Words>(alloc: Global, tab: &RowTableau<T>) -> Result<Standing, AllocError>
    ensures basic { IfOk result (λ s. s.basic.items ≡ tab.now.basic.items) }
    ensures status { IfOk result (λ s. s.status.items ≡ tab.now.status.items) }
    ensures fixed { IfOk result (λ s. s.fixed.items ≡ tab.now.fixed.items) }
{
    Ok(Standing {
        basic: Vec::from_slice(alloc, &tab.basic)?,
        status: Vec::from_slice(alloc, &tab.status)?,
        fixed: Vec::from_slice(alloc, &tab.fixed)?,
    })
}

/// An integer-row tableau in words of another width, or `None` where a number overflows them.
pub fn widened<T: Words, U: Words>(
    alloc: Global,
    tab: &RowTableau<T>,
) -> Result<Option<RowTableau<U>>, AllocError>
    requires { IsWhole T.value tab.now }
    ensures whole { IfOk result (λ o. IfSome o (IsWhole U.value)) }
    ensures rows { IfOk result (λ o. IfSome o (λ r. height r ≡ height tab.now)) }
    ensures cols { IfOk result (λ o. IfSome o (λ r. r.cols ≡ tab.now.cols)) }
    ensures shown { (t : tableaus.Tableau) → Shows T.value tab.now t →
        IfOk result (λ o. IfSome o (λ r. Shows U.value r t)) }
{
    made(alloc, tab)
}

// An integer-row tableau in words of another width, with a contract that all its numbers are the same.
fn made<T: Words, U: Words>(
    alloc: Global,
    tab: &RowTableau<T>,
) -> Result<Option<RowTableau<U>>, AllocError>
    ensures { IfOk result (λ o. IfSome o (AreSameNumbers T.value U.value tab.now)) }
{
    let Some(bounds) = all_bounds(alloc, tab)? else {
        return Ok(None);
    };
    let Some(costs) = row(alloc, &tab.costs)? else {
        return Ok(None);
    };
    let Some(rows) = rows(alloc, &tab.rows)? else {
        return Ok(None);
    };
    let standing = standing(alloc, tab)?;
    Ok(Some(RowTableau {
        cols: tab.cols,
        rows,
        costs,
        basic: standing.basic,
        status: standing.status,
        lower: bounds.lower,
        upper: bounds.upper,
        fixed: standing.fixed,
        denominator: bounds.denominator,
    }))
}
