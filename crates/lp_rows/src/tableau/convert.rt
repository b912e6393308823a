// The rows of a tableau of fractions.
ghost use Rattle.std.specs.Prelude.{◌≡◌, ◌<◌, IfOk, IfSome};
ghost use Rattle.spec_exact.specs.Fraction.{0ℚ};
ghost use Rattle.spec_exact.specs.Run.{made};
ghost use Rattle.spec_simplex.specs.Tableau as tableaus;
ghost use Rattle.lp_rows.specs.Held.{IsRowOf, AreRowsOf, AreBounds, AreStandings, HoldsParts};
ghost use Rattle.lp_rows.specs.Shows.{IsWhole, IsReached, Shows, height};

use crate::fractions::Row;
use crate::tableau::common::row_of;
use crate::tableau::parts::{Bounds, Standing, common_bounds};
use crate::tableau::tableau::RowTableau;
use lp_form::Status;
use lp_frac::{Frac, zero};
use lp_natural::words::Words;
use lp_tableau::{Tableau, is_fixed};
use std::alloc::{AllocError, Global};

// The list of an item for each `i` of a range.
macro_rules! listed {
    ($alloc:expr, $i:ident in $range:expr => $item:expr) => {{
        let mut list = Vec::new($alloc);
        for $i in $range {
            list.push($item)?;
        }
        Ok(list)
    }};
}

// The entries of a position's row in the structural and the logical columns.
fn entries(alloc: Global, tab: &Tableau, position: u32) -> Result<Vec<Frac>, AllocError>
    requires { position < tab.now.rows }
    ensures { IfOk result (λ v. v.items ≡ made (tableaus.form_columns tab.now) (tableaus.entry_at tab.now position)) }
{
    listed!(alloc, k in 0..tab.cols() + tab.rows() => tab.entry(position, k))
}

// The reduced costs of the structural and the logical columns.
fn reduced(alloc: Global, tab: &Tableau) -> Result<Vec<Frac>, AllocError>
    ensures { IfOk result (λ v. v.items ≡ made (tableaus.form_columns tab.now) (tableaus.reduced_at tab.now)) }
{
    listed!(alloc, k in 0..tab.cols() + tab.rows() => tab.reduced(k))
}

// The lower bounds of all columns of the tableau, also of the artificial ones.
fn lowers(alloc: Global, tab: &Tableau) -> Result<Vec<Option<Frac>>, AllocError>
    ensures { IfOk result (λ v. v.items ≡ made (tableaus.all_columns tab.now) (tableaus.lower_at tab.now)) }
{
    listed!(alloc, k in 0..tab.width() => tab.lower(k))
}

// The upper bounds of all columns of the tableau, also of the artificial ones.
fn uppers(alloc: Global, tab: &Tableau) -> Result<Vec<Option<Frac>>, AllocError>
    ensures { IfOk result (λ v. v.items ≡ made (tableaus.all_columns tab.now) (tableaus.upper_at tab.now)) }
{
    listed!(alloc, k in 0..tab.width() => tab.upper(k))
}

// The statuses of all columns of the tableau, also of the artificial ones.
fn statuses(alloc: Global, tab: &Tableau) -> Result<Vec<Status>, AllocError>
    ensures { IfOk result (λ v. v.items ≡ made (tableaus.all_columns tab.now) (tableaus.status_at tab.now)) }
{
    listed!(alloc, k in 0..tab.width() => tab.status(k))
}

// The basic columns of all positions.
fn basics(alloc: Global, tab: &Tableau) -> Result<Vec<u32>, AllocError>
    ensures { IfOk result (λ v. v.items ≡ made tab.now.rows (tableaus.basic_at tab.now)) }
{
    listed!(alloc, i in 0..tab.rows() => tab.basic(i))
}

// Which structural and logical columns are fixed.
fn fixed(alloc: Global, tab: &Tableau) -> Result<Vec<bool>, AllocError>
    ensures { IfOk result (λ v. v.items ≡ made (tableaus.form_columns tab.now)
        (λ k. tableaus.is_fixed (tableaus.lower_at tab.now k) (tableaus.upper_at tab.now k))) }
{
    listed!(alloc, k in 0..tab.cols() + tab.rows() => is_fixed(tab.lower(k), tab.upper(k)))
}

// The integer row of a position, with the value of its basic column behind, on the row's denominator times this one;
// none where that value is not whole there, or a number overflows the width.
fn row<T: Words>(
    alloc: Global,
    tab: &Tableau,
    position: u32,
    denominator: T,
) -> Result<Option<Row<T>>, AllocError>
    requires place { position < tab.now.rows }
    requires positive { 0 < T.value denominator }
    ensures { IfOk result (λ o. IfSome o (IsRowOf T.value
        (made (tableaus.form_columns tab.now) (tableaus.entry_at tab.now position))
        (tableaus.value_at tab.now (tableaus.basic_at tab.now position)) (T.value denominator))) }
{
    let list = entries(alloc, tab, position)?;
    row_of(alloc, &list, tab.value(tab.basic(position)), denominator)
}

// The integer rows of all positions; none where a number overflows the width, or a basic value is not whole on its
// row's denominator times this one.
fn rows<T: Words>(
    alloc: Global,
    tab: &Tableau,
    denominator: T,
) -> Result<Option<Vec<Row<T>>>, AllocError>
    requires { 0 < T.value denominator }
    ensures { IfOk result (λ o. IfSome o
        (λ v. AreRowsOf T.value tab.now (T.value denominator) tab.now.rows v.items)) }
{
    let mut rows = Vec::new(alloc);
    for i in 0..tab.rows() {
        match row(alloc, tab, i, denominator)? {
            Some(row) => rows.push(row)?,
            None => return Ok(None),
        }
    }
    Ok(Some(rows))
}

// The integer row of the reduced costs, with 0 behind; none where a number overflows the width.
fn costs<T: Words>(
    alloc: Global,
    tab: &Tableau,
    denominator: T,
) -> Result<Option<Row<T>>, AllocError>
    requires { 0 < T.value denominator }
    ensures { IfOk result (λ o. IfSome o (IsRowOf T.value
        (made (tableaus.form_columns tab.now) (tableaus.reduced_at tab.now)) 0ℚ (T.value denominator))) }
{
    let list = reduced(alloc, tab)?;
    row_of(alloc, &list, zero(), denominator)
}

/// The integer rows that show a tableau of fractions. There are none where a number overflows the width, or a basic
/// value is not whole on its row's denominator times that of all bounds.
pub fn from_tableau<T: Words>(
    alloc: Global,
    tab: &Tableau,
) -> Result<Option<RowTableau<T>>, AllocError>
    ensures whole { IfOk result (λ o. IfSome o (IsWhole T.value)) }
    ensures rows { IfOk result (λ o. IfSome o (λ r. height r ≡ tab.now.rows)) }
    ensures cols { IfOk result (λ o. IfSome o (λ r. r.cols ≡ tab.now.cols)) }
    ensures shown { IsReached tab.now → IfOk result (λ o. IfSome o (λ r. Shows T.value r tab.now)) }
{
    let _ = tab.width();
    parts(alloc, tab)
}

// The bounds of all columns as integers on a common denominator; none where a number overflows the width.
fn bounds<T: Words>(alloc: Global, tab: &Tableau) -> Result<Option<Bounds<T>>, AllocError>
    ensures { IfOk result (λ o. IfSome o (AreBounds T.value
        (made (tableaus.all_columns tab.now) (tableaus.lower_at tab.now))
        (made (tableaus.all_columns tab.now) (tableaus.upper_at tab.now)))) }
{
    let lower = lowers(alloc, tab)?;
    let upper = uppers(alloc, tab)?;
    common_bounds(alloc, &lower, &upper)
}

// The basic columns, the statuses, and which columns are fixed.
fn standing(alloc: Global, tab: &Tableau) -> Result<Standing, AllocError>
    ensures { IfOk result (AreStandings tab.now) }
{
    Ok(Standing {
        basic: basics(alloc, tab)?,
        status: statuses(alloc, tab)?,
        fixed: fixed(alloc, tab)?,
    })
}

// The integer rows of a tableau, with a contract for each part of them. None where a number overflows the width, or a
// basic value is not whole on its row's denominator times that of all bounds.
fn parts<T: Words>(alloc: Global, tab: &Tableau) -> Result<Option<RowTableau<T>>, AllocError>
    ensures { IfOk result (λ o. IfSome o (HoldsParts T.value tab.now)) }
{
    let Some(bounds) = bounds(alloc, tab)? else {
        return Ok(None);
    };
    let Some(rows) = rows(alloc, tab, bounds.denominator)? else {
        return Ok(None);
    };
    let Some(costs) = costs(alloc, tab, bounds.denominator)? else {
        return Ok(None);
    };
    let standing = standing(alloc, tab)?;
    Ok(Some(RowTableau {
        cols: tab.cols(),
        rows,
        costs,
        basic: standing.basic,
        status: standing.status,
        lower: bounds.lower,
        upper: bounds.upper,
        fixed: standing.fixed,
        denominator: bounds.denominator,
    }))
}
