// The equations of a form as rows of whole numbers, and the values of the nonbasic columns.
ghost use Rattle.std.specs.Prelude.{◌≡◌, ◌<◌, ◌+◌, ℕ, IfOk, IfSome, IsTrue, Some, List, length, replicate};
ghost use Rattle.spec_exact.specs.Fraction.{0ℚ};
ghost use Rattle.spec_exact.specs.Run.{made};
ghost use Rattle.spec_simplex.specs.declared.ends.RowStart.TheVariants.{Within};
ghost use Rattle.spec_simplex.specs.Form.{Form as forms, form_lower, form_upper};
ghost use Rattle.spec_simplex.specs.Start.{start_entry};
ghost use Rattle.spec_simplex.specs.Tableau as tableaus;
ghost use Rattle.spec_simplex.specs.Tableau.{at_place};
ghost use Rattle.spec_simplex.specs.Eliminate as elimination;
ghost use Rattle.spec_pivot.specs.declared.status.Status.{Status as statuses};
ghost use Rattle.lp_rows.specs.Held.{IsRowOf};
ghost use Rattle.lp_rows.specs.Shows.{IsWhole, IsRow, width};
ghost use Rattle.lp_rows.specs.Moves.{number_at};
ghost use Rattle.lp_row_runs.specs.Rows.{AreRowsAt, AreZeros, IsUnsolved};

use lp_form::{Form, Status};
use lp_frac::{Frac, neg, one, zero};
use lp_natural::words::{Signed, Words};
use lp_rows::Row;
use lp_rows::tableau::{
    RowTableau, bounds_on, denominator_with, is_fixed, move_all, row_of, stand,
};
use lp_tableau::start::with_artificials;
use std::alloc::{AllocError, Global};

// ---- rows

// The entry of column `k` in the equation of row `i`, which is its logical less the row's sum: the negated coefficient
// of a structural column, 1 for the row's logical, and 0 for other logicals.
fn entry(form: &Form, i: u32, k: u32) -> Frac
    requires row { i < form.now.rows }
    requires column { k < form.now.cols + form.now.rows }
    ensures { result ≡ start_entry form.now (Within 0ℚ) i k }
{
    if k < form.cols() {
        return neg(form.entry(i, k));
    }
    if form.logical(i) == k { one() } else { zero() }
}

// The entries of all structural and logical columns in the equation of row `i`.
fn entries(alloc: Global, form: &Form, i: u32) -> Result<Vec<Frac>, AllocError>
    requires { i < form.now.rows }
    ensures { IfOk result
        (λ v. v.items ≡ made (form.now.cols + form.now.rows) (start_entry form.now (Within 0ℚ) i)) }
{
    let mut list = Vec::new(alloc);
    for k in 0..form.cols() + form.rows() {
        list.push(entry(form, i, k))?;
    }
    Ok(list)
}

// The equation of row `i` as a row of whole numbers, whose value is still 0; nothing where a number is past the width.
fn equation<T: Words>(
    alloc: Global,
    form: &Form,
    i: u32,
    denominator: T,
) -> Result<Option<Row<T>>, AllocError>
    requires row { i < form.now.rows }
    requires positive { 0 < T.value denominator }
    ensures { IfOk result (λ o. IfSome o (IsRowOf T.value
        (made (form.now.cols + form.now.rows) (start_entry form.now (Within 0ℚ) i)) 0ℚ (T.value denominator))) }
{
    let list = entries(alloc, form, i)?;
    row_of(alloc, &list, zero(), denominator)
}

// The equations of all rows as rows of whole numbers; nothing where a number is past the width.
fn equations<T: Words>(
    alloc: Global,
    form: &Form,
    denominator: T,
) -> Result<Option<Vec<Row<T>>>, AllocError>
    requires { 0 < T.value denominator }
    ensures { (basis : List statuses) → IfOk result (λ o. IfSome o (λ v. AreRowsAt T.value (T.value denominator)
        form.now.rows (form.now.cols + form.now.rows) 0 (elimination.basis_value form.now basis)
        (at_place (elimination.unsolved form.now).rows) v.items)) }
{
    let mut rows = Vec::new(alloc);
    for i in 0..form.rows() {
        match equation(alloc, form, i, denominator)? {
            Some(row) => rows.push(row)?,
            None => return Ok(None),
        }
    }
    Ok(Some(rows))
}

// A list of `n` numbers that are all 0.
fn zeros<T: Words>(alloc: Global, n: usize) -> Result<Vec<Signed<T>>, AllocError>
    ensures { IfOk result (λ v. AreZeros T.value n v.items) }
{
    let mut numbers = Vec::new(alloc);
    for _ in 0..n {
        numbers.push(Signed {
            negative: false,
            size: T::zero(),
        })?;
    }
    Ok(numbers)
}

// A row of `n` numbers and one more, all 0.
fn zero_row<T: Words>(alloc: Global, n: usize) -> Result<Row<T>, AllocError>
    requires { n < 1024 }
    ensures row { IfOk result (IsRow T.value n) }
    ensures none { IfOk result (λ row. (k : ℕ) → k < n → number_at T.value row k ≡ 0ℚ) }
{
    Ok(Row {
        numbers: zeros(alloc, n + 1)?,
        denominator: T::one(),
    })
}

// ---- lists by positions and columns

// Column 0 for each position, as long as none has a basic column.
fn no_columns(alloc: Global, form: &Form) -> Result<Vec<u32>, AllocError>
    ensures { IfOk result (λ v. v.items ≡ replicate form.now.rows 0) }
{
    Vec::from_elem(alloc, 0, form.rows() as usize)
}

// The statuses of a basis, with those of the artificial columns: nonbasic at the lower bound.
fn statuses(alloc: Global, form: &Form, basis: &[Status]) -> Result<Vec<Status>, AllocError>
    ensures { IfOk result (λ v. v.items ≡ elimination.basis_status form.now basis.now) }
{
    let mut statuses = Vec::from_slice(alloc, basis)?;
    statuses.resize(statuses.len() + form.rows() as usize, Status::AtLower)?;
    Ok(statuses)
}

// For each structural and logical column whether its bounds are the same.
fn fixed(alloc: Global, form: &Form) -> Result<Vec<bool>, AllocError>
    ensures { IfOk result (λ v. v.items ≡ made (form.now.cols + form.now.rows)
        (λ k. tableaus.is_fixed (form_lower form.now k) (form_upper form.now k))) }
{
    let mut list = Vec::new(alloc);
    for k in 0..form.cols() + form.rows() {
        list.push(is_fixed(form.lower(k), form.upper(k)))?;
    }
    Ok(list)
}

// ---- the whole

/// The form's equations with the statuses of a basis: no position has a basic column, and no column a value or a cost.
/// There are none where a number is past the width.
pub(crate) fn unsolved<T: Words>(
    alloc: Global,
    form: &Form,
    basis: &[Status],
) -> Result<Option<RowTableau<T>>, AllocError>
    requires { length basis.now ≡ form.now.cols + form.now.rows }
    ensures { IfOk result (λ o. IfSome o (IsUnsolved T.value form.now basis.now 0)) }
{
    let lower = with_artificials(alloc, form.lowers(), form.rows())?;
    let upper = with_artificials(alloc, form.uppers(), form.rows())?;
    let Some(so_far) = denominator_with(T::one(), &lower) else {
        return Ok(None);
    };
    match denominator_with(so_far, &upper) {
        Some(denominator) => unsolved_on(alloc, form, basis, &lower, &upper, denominator),
        None => Ok(None),
    }
}

// The form's equations with the statuses of a basis, and with these bounds on the common denominator `denominator`;
// nothing where a number is past the width.
fn unsolved_on<T: Words>(
    alloc: Global,
    form: &Form,
    basis: &[Status],
    lower: &[Option<Frac>],
    upper: &[Option<Frac>],
    denominator: T,
) -> Result<Option<RowTableau<T>>, AllocError>
    requires all { length basis.now ≡ form.now.cols + form.now.rows }
    requires lower { lower.now ≡ elimination.basis_lower form.now }
    requires upper { upper.now ≡ elimination.basis_upper form.now }
    requires positive { 0 < T.value denominator }
    ensures { IfOk result (λ o. IfSome o (IsUnsolved T.value form.now basis.now 0)) }
{
    let Some(lower) = bounds_on(alloc, lower, denominator)? else {
        return Ok(None);
    };
    let Some(upper) = bounds_on(alloc, upper, denominator)? else {
        return Ok(None);
    };
    let Some(rows) = equations(alloc, form, denominator)? else {
        return Ok(None);
    };
    Ok(Some(RowTableau {
        cols: form.cols(),
        rows,
        costs: zero_row(alloc, (form.cols() + form.rows()) as usize)?,
        basic: no_columns(alloc, form)?,
        status: statuses(alloc, form, basis)?,
        lower,
        upper,
        fixed: fixed(alloc, form)?,
        denominator,
    }))
}

// Gives column `k` its value, if it is nonbasic: the entry times the value goes off each row's last number. False where
// a number is past the width.
fn place_value<T: Words>(tab: &mut RowTableau<T>, k: usize) -> bool
    requires whole { IsWhole T.value tab.old }
    requires column { k < width tab.old }
    ensures whole { IsTrue result → IsWhole T.value tab.new }
    ensures placed { IsTrue result → (f : forms) (basis : List statuses) → IsUnsolved T.value f basis k tab.old →
        IsUnsolved T.value f basis (k + 1) tab.new }
    ensures size { width tab.new ≡ width tab.old }
{
    let n = tab.width();
    let value = stand(tab.status[k], tab.lower[k], tab.upper[k]);
    move_all(&mut tab.rows, n, k, value)
}

/// Gives each nonbasic column its value. False where a number is past the width.
pub(crate) fn place_values<T: Words>(tab: &mut RowTableau<T>) -> bool
    requires { IsWhole T.value tab.old }
    ensures whole { IsTrue result → IsWhole T.value tab.new }
    ensures placed { IsTrue result → (f : forms) (basis : List statuses) → IsUnsolved T.value f basis 0 tab.old →
        IsUnsolved T.value f basis (f.cols + f.rows) tab.new }
{
    for k in 0..tab.width() {
        if !place_value(tab, k) {
            return false;
        }
    }
    true
}
