// The tableau of a basis.
ghost use Rattle.std.specs.Prelude.{◌≡◌, ◌<◌, ◌+◌, ◌++◌, IfOk, IfErr, OnOk, Ok, Some, None, length, get_or, replicate};
ghost use Rattle.spec_exact.specs.Fraction.{0ℚ};
ghost use Rattle.spec_pivot.specs.declared.status.Status.TheVariants.{AtLower};
ghost use Rattle.spec_exact.specs.Run.{made, refused_as};
ghost use Rattle.spec_exact.specs.Narrow.{number_limit};
ghost use Rattle.spec_simplex.specs.Form.{IsForm};
ghost use Rattle.spec_simplex.specs.Tableau.{all_columns};
ghost use Rattle.spec_simplex.specs.declared.ends.StartStop.TheVariants as start;
ghost use Rattle.spec_simplex.specs.Eliminate as elimination;
ghost use Rattle.lp_tableau.specs.Grid.{IsGrid};
ghost use Rattle.lp_tableau.specs.Parts.{AreLists};
ghost use Rattle.lp_tableau.specs.Based.{AreInside, StopsAt, based_run, stand_in};

use crate::coefficients::coefficients;
use crate::solve::eliminate;
use crate::start::{RowStart, lowers, rows, width, with_artificials, zeros};
use crate::steps::stand;
use crate::tableau::{ColumnLists, Tableau};
use crate::twins::Twins;
use lp_form::{Basis, BasisStop, Form, Status, is_basic};
use lp_frac::{Frac, Past, less_product, zero};
use std::alloc::{AllocError, Global};

// The form's equations, one row for each, before any is solved. Each artificial has the sign of its logical. Memory may
// run out.
fn equations(alloc: Global, form: &Form) -> Result<Twins, AllocError>
    ensures { IfOk result (λ rows. rows ≡ (elimination.unsolved form.now).rows) }
{
    let starts = Vec::from_elem(alloc, RowStart::Within(zero()), form.rows() as usize)?;
    let coefficients = coefficients(alloc, form)?;
    rows(alloc, form, &coefficients, &starts)
}

// A list that gives no column to any position of the form, if there is memory.
fn no_columns(alloc: Global, form: &Form) -> Result<Vec<Option<u32>>, AllocError>
    ensures { IfOk result (λ v. v.items ≡ (elimination.unsolved form.now).basic) }
{
    Vec::from_elem(alloc, None, form.rows() as usize)
}

// The column, or the first one where there is none.
fn or_first(column: Option<u32>) -> u32
    ensures { result ≡ elimination.or_first column }
{
    match column {
        Some(k) => k,
        None => 0,
    }
}

// The column of each position, the first one where a position has none. Memory may run out.
fn columns(alloc: Global, basic: &[Option<u32>]) -> Result<Vec<u32>, AllocError>
    ensures { IfOk result
        (λ v. v.items ≡ made (length basic.now) (λ i. elimination.or_first (get_or basic.now i None))) }
{
    let mut columns = Vec::new(alloc);
    for i in 0..basic.len() {
        columns.push(or_first(basic[i]))?;
    }
    Ok(columns)
}

// The status of each column: those of the basis, and each artificial at its lower bound. Memory may run out.
fn statuses(alloc: Global, form: &Form, basis: &Basis) -> Result<Vec<Status>, AllocError>
    ensures { IfOk result (λ v. v.items ≡ elimination.basis_status form.now basis.now) }
{
    let mut statuses = Vec::from_slice(alloc, basis.as_slice())?;
    statuses.resize(statuses.len() + form.rows() as usize, Status::AtLower)?;
    Ok(statuses)
}

// The upper bounds of the form, and 0 for each artificial. Memory may run out.
fn uppers(alloc: Global, form: &Form) -> Result<Vec<Option<Frac>>, AllocError>
    ensures { IfOk result (λ v. v.items ≡ elimination.basis_upper form.now) }
{
    with_artificials(alloc, form.uppers(), form.rows())
}

// The value of each column: that of a nonbasic one by its status and bounds, and 0 for each basic one. Memory may run
// out.
fn values(
    alloc: Global,
    status: &[Status],
    lower: &[Option<Frac>],
    upper: &[Option<Frac>],
) -> Result<Vec<Frac>, AllocError>
    requires lower { length lower.now ≡ length status.now }
    requires upper { length upper.now ≡ length status.now }
    ensures { IfOk result (λ v. v.items ≡ made (length status.now) (stand_in status.now lower.now upper.now)) }
{
    let mut values = Vec::new(alloc);
    for k in 0..status.len() {
        values.push(stand(status[k], lower[k], upper[k]))?;
    }
    Ok(values)
}

// The lists of the tableau by columns, with 0 for the values of basic columns and for the reduced costs. Memory may run
// out.
fn lists(alloc: Global, form: &Form, basis: &Basis) -> Result<ColumnLists, AllocError>
    requires kept { IsForm form.now }
    requires statuses { length basis.now ≡ form.now.cols + form.now.rows }
    ensures { IfOk result (λ l. AreLists l
        (made (form.now.cols + form.now.rows + form.now.rows) (elimination.basis_value form.now basis.now))
        (replicate (form.now.cols + form.now.rows + form.now.rows) 0ℚ) (elimination.basis_status form.now basis.now)
        (elimination.basis_lower form.now) (elimination.basis_upper form.now)) }
{
    let status = statuses(alloc, form, basis)?;
    let (lower, upper) = (lowers(alloc, form)?, uppers(alloc, form)?);
    Ok(ColumnLists {
        value: values(alloc, &status, &lower, &upper)?,
        reduced: zeros(alloc, width(form) as usize)?,
        status,
        lower,
        upper,
    })
}

// The tableau of these rows and basic columns, with 0 for the values of basic columns and for the reduced costs. Memory
// may run out.
fn begun(
    alloc: Global,
    form: &Form,
    basis: &Basis,
    grid: Twins,
    basic: &[Option<u32>],
) -> Result<Tableau, AllocError>
    requires statuses { length basis.now ≡ form.now.cols + form.now.rows }
    requires shape { IsGrid form.now.rows (form.now.cols + form.now.rows + form.now.rows) grid }
    requires places { length basic.now ≡ form.now.rows }
    requires inside { AreInside (form.now.cols + form.now.rows + form.now.rows) basic.now }
    ensures { IfOk result
        (λ t. t ≡ elimination.with_basis form.now basis.now (record { rows = grid; basic = basic.now })) }
{
    let (height, cols) = (form.rows(), form.cols());
    let basic = columns(alloc, basic)?;
    let lists = lists(alloc, form, basis)?;
    Ok(Tableau::from_parts(height, cols, grid, basic, lists))
}

impl Tableau {
    // The value of the basic column at position `i`: the negative of the sum of its row's entries times the values of
    // the nonbasic columns. Refused where a number is past 127 bits.
    fn position(&self, i: u32) -> Result<Frac, Past>
        requires { i < self.now.rows }
        ensures { result ≡ elimination.position_run (Some number_limit) self.now i }
    {
        let mut value = zero();
        for k in 0..self.width() {
            if !is_basic(self.status(k)) {
                value = less_product(self.entry(i, k), self.value(k), value)?;
            }
        }
        Ok(value)
    }

    // The values of all columns: the nonbasic ones keep theirs, and the basic ones get theirs from these. Else why not:
    // a number past 127 bits, or no memory.
    fn valued(&self, alloc: Global) -> Result<Vec<Frac>, BasisStop>
        ensures ok { IfOk result (λ v. elimination.valued_run (Some number_limit) self.now ≡ Ok v.items) }
        ensures len { IfOk result (λ v. length v.items ≡ all_columns self.now) }
        ensures err { IfErr result (StopsAt (refused_as start.Past (elimination.valued_run (Some number_limit)
            self.now))) }
    {
        let mut values = Vec::from_slice(alloc, &self.value)?;
        for i in 0..self.rows() {
            let value = self.position(i)?;
            values[self.basic(i) as usize] = value;
        }
        Ok(values)
    }

    // Replaces the values of all columns.
    fn set_values(&mut self, values: Vec<Frac>)
        requires { length values.items ≡ all_columns self.old }
        ensures { self.new ≡ elimination.with_values self.old values.items }
    {
        self.value = values;
    }

    // Sets the values of the basic columns, and the reduced costs for the form's costs. Else why not: a number past 127
    // bits, or no memory.
    fn complete(&mut self, alloc: Global, form: &Form) -> Result<(), BasisStop>
        ensures ok { OnOk result (elimination.filled_run (Some number_limit) form.now self.old ≡ Ok self.new) }
        ensures err { IfErr result (StopsAt (refused_as start.Past
            (elimination.filled_run (Some number_limit) form.now self.old))) }
    {
        let values = self.valued(alloc)?;
        self.price(form.costs())?;
        self.set_values(values);
        Ok(())
    }
}

// The form's equations solved for the basis' columns, with 0 for the values of basic columns and for the reduced costs.
// Else why not: a singular basis, a number past 127 bits, or no memory.
fn solved(alloc: Global, form: &Form, basis: &Basis) -> Result<Tableau, BasisStop>
    requires { length basis.now ≡ form.now.cols + form.now.rows }
    ensures ok { IfOk result (λ t. based_run (Some number_limit) form.now basis.now ≡ Ok t) }
    ensures err { IfErr result (StopsAt (based_run (Some number_limit) form.now basis.now)) }
{
    let mut grid = equations(alloc, form)?;
    let mut basic = no_columns(alloc, form)?;
    eliminate(&mut grid, &mut basic, form, basis)?;
    let tab = begun(alloc, form, basis, grid, &basic)?;
    Ok(tab)
}

/// The tableau of a basis: the form's equations solved for one basic column after the other, each in the least position
/// that is left and where its entry is not 0. It has all values and the form's reduced costs. Else why not: a column
/// has no such position, so the basis is singular; a number past 127 bits; or no memory.
pub fn start_from(alloc: Global, form: &Form, basis: &Basis) -> Result<Tableau, BasisStop>
    requires { length basis.now ≡ form.now.cols + form.now.rows }
    ensures ok { IfOk result (λ t. elimination.start_from (Some number_limit) form.now basis.now ≡ Ok t) }
    ensures err { IfErr result (StopsAt (elimination.start_from (Some number_limit) form.now basis.now)) }
{
    let mut tab = solved(alloc, form, basis)?;
    match tab.complete(alloc, form) {
        Ok(()) => Ok(tab),
        Err(stop) => {
            drop(tab);
            Err(stop)
        }
    }
}
