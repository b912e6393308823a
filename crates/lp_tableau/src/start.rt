// The tableau that a form begins with.
ghost use Rattle.std.specs.Prelude.{◌≡◌, ◌<◌, ◌≤◌, ◌+◌, ◌++◌, length, map, replicate, IfOk, IfErr, OnOk, Ok, Some};
ghost use Rattle.spec_exact.specs.Fraction.{0ℚ};
ghost use Rattle.spec_exact.specs.Run.{list_run, made};
ghost use Rattle.spec_exact.specs.Narrow.{number_limit};
ghost use Rattle.spec_simplex.specs.Start as starting;
ghost use Rattle.lp_tableau.specs.Answer.{Stops};
ghost use Rattle.lp_tableau.specs.Grid.{flat};
ghost use Rattle.lp_tableau.specs.Parts.{AreLists};
ghost use Rattle.lp_tableau.specs.Begun.{HoldsColumns, is_below, priced_start, start_front};

use crate::coefficients::coefficients;
use crate::ends::ColdStop;
use crate::grid::Grid;
pub use crate::row_starts::RowStart;
use crate::row_starts::{first_status, first_value, row_starts};
use crate::steps::or_zero;
use crate::tableau::{ColumnLists, Tableau};
use crate::twins::Twins;
use lp_form::{Form, Status};
use lp_frac::{Frac, Stop, neg, one, zero};
use std::alloc::{AllocError, Global};

// One of three, by whether column `k` is structural, logical or artificial; the latter two by their rows.
macro_rules! by_column {
    ($form:expr, $k:expr, $structural:expr, $row:ident => $logical:expr, $artificial:expr) => {{
        let (cols, both) = ($form.cols(), $form.cols() + $form.rows());
        if $k < cols {
            $structural
        } else if $k < both {
            let $row = $k - cols;
            $logical
        } else {
            let $row = $k - both;
            $artificial
        }
    }};
}

// The list of an item for each `i` of a range.
macro_rules! listed {
    ($alloc:expr, $i:ident in $range:expr => $item:expr) => {{
        let mut list = Vec::new($alloc);
        for $i in $range {
            list.push($item)?;
        }
        Ok(list)
    }};
}

// The value of a row's logical at the start: the row's sum, or, where that misses a limit, this limit.
fn logical_value(start: RowStart, lower: Option<Frac>, upper: Option<Frac>) -> Frac
    ensures { result ≡ starting.logical_value start lower upper }
{
    match start {
        RowStart::Within(v) => v,
        RowStart::Below(_) => or_zero(lower),
        RowStart::Above(_) => or_zero(upper),
    }
}

// The status of a row's logical at the start: basic, or, where the row's sum misses a limit, nonbasic at this limit.
fn logical_status(start: RowStart) -> Status
    ensures { result ≡ starting.logical_status start }
{
    match start {
        RowStart::Within(_) => Status::Basic,
        RowStart::Below(_) => Status::AtLower,
        RowStart::Above(_) => Status::AtUpper,
    }
}

// The status of a row's artificial at the start: basic where the row's sum misses a limit, else at its lower bound 0.
fn artificial_status(start: RowStart) -> Status
    ensures { result ≡ starting.artificial_status start }
{
    match start {
        RowStart::Within(_) => Status::AtLower,
        RowStart::Below(_) | RowStart::Above(_) => Status::Basic,
    }
}

// The value of a row's artificial at the start: by how much the row's sum misses a limit, 0 where it misses none.
fn artificial_value(start: RowStart) -> Frac
    ensures { result ≡ starting.artificial_value start }
{
    match start {
        RowStart::Within(_) => zero(),
        RowStart::Below(gap) | RowStart::Above(gap) => gap,
    }
}

// The upper bound of a row's artificial: none where the row's sum misses a limit, else 0.
fn artificial_upper(start: RowStart) -> Option<Frac>
    ensures { result ≡ starting.artificial_upper start }
{
    match start {
        RowStart::Within(_) => Some(zero()),
        RowStart::Below(_) | RowStart::Above(_) => None,
    }
}

// The cost of a row's artificial in phase one: 1 where the row's sum misses a limit, else 0.
fn artificial_cost(start: RowStart) -> Frac
    ensures { result ≡ starting.first_cost start }
{
    match start {
        RowStart::Within(_) => zero(),
        RowStart::Below(_) | RowStart::Above(_) => one(),
    }
}

// The entry of a row's logical in the row at the start: -1 where the row's sum is below its limits, else 1.
fn logical_sign(start: RowStart) -> Frac
    ensures { result ≡ starting.logical_sign start }
{
    match start {
        RowStart::Below(_) => neg(one()),
        RowStart::Within(_) | RowStart::Above(_) => one(),
    }
}

// The entry of a structural column in a row at the start: its coefficient where the row's sum is below its limits, else
// the negated coefficient.
fn structural_entry(start: RowStart, coefficient: Frac) -> Frac
    ensures { result ≡ starting.structural_entry start coefficient }
{
    match start {
        RowStart::Below(_) => coefficient,
        RowStart::Within(_) | RowStart::Above(_) => neg(coefficient),
    }
}

// `v` where row `i` is the column's own row `r`, and 0 in the other rows.
fn one_at(i: u32, r: u32, v: Frac) -> Frac
    ensures { result ≡ starting.one_at i r v }
{
    if i == r { v } else { zero() }
}

// The entry of row `i` in column `k` at the start: of a structural column its negated coefficient, or its coefficient
// where the row's sum is below its limits; of the row's own logical 1, or -1 there; of its own artificial 1; else 0.
fn entry(form: &Form, coefficients: &Grid, starts: &[RowStart], i: u32, k: u32) -> Frac
    requires held { HoldsColumns form.now form.now.cols coefficients.now }
    requires row { i < form.now.rows }
    requires column { k < form.now.cols + form.now.rows + form.now.rows }
    requires starts { length starts.now ≡ form.now.rows }
    ensures { result ≡ starting.start_entry form.now (starting.start_at starts.now i) i k }
{
    let start = starts[i as usize];
    by_column!(
        form,
        k,
        structural_entry(start, coefficients.at(i as usize, k as usize)),
        row => one_at(i, row, logical_sign(start)),
        one_at(i, row, one())
    )
}

// The basic column of row `i` at the start: its logical, or, where the row's sum misses a limit, its artificial.
fn basic(form: &Form, starts: &[RowStart], i: u32) -> u32
    requires row { i < form.now.rows }
    requires starts { length starts.now ≡ form.now.rows }
    ensures value { result ≡ starting.start_basic form.now starts.now i }
{
    let (cols, rows) = (form.cols(), form.rows());
    match starts[i as usize] {
        RowStart::Within(_) => cols + i,
        RowStart::Below(_) | RowStart::Above(_) => cols + rows + i,
    }
}

// The value of column `k` at the start: of a structural column the bound at which it is, or 0; of a logical its row's
// sum, or the limit that this misses; of an artificial by how much it misses one.
fn value(form: &Form, starts: &[RowStart], k: u32) -> Frac
    requires column { k < form.now.cols + form.now.rows + form.now.rows }
    requires starts { length starts.now ≡ form.now.rows }
    ensures { result ≡ starting.start_value form.now starts.now k }
{
    by_column!(
        form,
        k,
        first_value(form, k),
        row => logical_value(starts[row as usize], form.lower(k), form.upper(k)),
        artificial_value(starts[row as usize])
    )
}

// The status of column `k` at the start: a structural column is at its lower bound, else at its upper one, else at 0.
// Where a row's sum misses a limit, its logical is at this limit and its artificial basic; else its logical is basic.
fn status(form: &Form, starts: &[RowStart], k: u32) -> Status
    requires column { k < form.now.cols + form.now.rows + form.now.rows }
    requires starts { length starts.now ≡ form.now.rows }
    ensures { result ≡ starting.start_status form.now starts.now k }
{
    by_column!(
        form,
        k,
        first_status(form, k),
        row => logical_status(starts[row as usize]),
        artificial_status(starts[row as usize])
    )
}

// How many structural and logical columns there are: a row is kept without the artificial ones.
fn front(form: &Form) -> u32
    ensures value { result ≡ form.now.cols + form.now.rows }
    ensures bound { result ≤ 768 }
{
    form.cols() + form.rows()
}

// How many columns a tableau of the form has, with the artificial ones.
pub(crate) fn width(form: &Form) -> u32
    ensures value { result ≡ form.now.cols + form.now.rows + form.now.rows }
    ensures bound { result ≤ 1024 }
{
    form.cols() + 2 * form.rows()
}

// Adds row `i` of the start, without its artificial columns, behind the block, if there is memory.
fn push_row(
    block: &mut Vec<Frac>,
    form: &Form,
    coefficients: &Grid,
    starts: &[RowStart],
    i: u32,
) -> Result<(), AllocError>
    requires held { HoldsColumns form.now form.now.cols coefficients.now }
    requires row { i < form.now.rows }
    requires starts { length starts.now ≡ form.now.rows }
    ensures { OnOk result (block.new.items ≡ block.old.items ++ start_front form.now starts.now i) }
{
    for k in 0..front(form) {
        block.push(entry(form, coefficients, starts, i, k))?;
    }
    Ok(())
}

// The rows of the start without artificial columns, one after the other, if there is memory.
fn block(
    alloc: Global,
    form: &Form,
    coefficients: &Grid,
    starts: &[RowStart],
) -> Result<Vec<Frac>, AllocError>
    requires held { HoldsColumns form.now form.now.cols coefficients.now }
    requires starts { length starts.now ≡ form.now.rows }
    ensures { IfOk result (λ v. v.items ≡ flat form.now.rows (start_front form.now starts.now)) }
{
    let mut block = Vec::with_capacity(alloc, form.rows() as usize * front(form) as usize)?;
    for i in 0..form.rows() {
        push_row(&mut block, form, coefficients, starts, i)?;
    }
    Ok(block)
}

// Whether the row's artificial is the negative of its logical: where the row's sum is below its limits.
fn is_negative(start: RowStart) -> bool
    ensures { result ≡ is_below start }
{
    match start {
        RowStart::Below(_) => true,
        RowStart::Within(_) | RowStart::Above(_) => false,
    }
}

// For each row, whether its artificial is the negative of its logical. Memory may run out.
fn turns(alloc: Global, starts: &[RowStart]) -> Result<Vec<bool>, AllocError>
    ensures { IfOk result (λ v. v.items ≡ map is_below starts.now) }
{
    listed!(alloc, start in starts => is_negative(*start))
}

// The rows of the start, in which an artificial is kept as the twin of its logical. Memory may run out.
pub(crate) fn rows(
    alloc: Global,
    form: &Form,
    coefficients: &Grid,
    starts: &[RowStart],
) -> Result<Twins, AllocError>
    requires held { HoldsColumns form.now form.now.cols coefficients.now }
    requires starts { length starts.now ≡ form.now.rows }
    ensures { IfOk result (λ rows. rows ≡ made form.now.rows (starting.start_row form.now starts.now)) }
{
    let (first, others) = (form.cols(), form.rows());
    let turned = turns(alloc, starts)?;
    let block = block(alloc, form, coefficients, starts)?;
    let grid = Grid::from_block(others as usize, front(form) as usize, block);
    Ok(Twins::from_grid(first, others, grid, turned))
}

/// The basic column of each position at the start: its row's logical, or, where the row's sum misses a limit, its
/// artificial. Memory may run out.
pub fn basics(alloc: Global, form: &Form, starts: &[RowStart]) -> Result<Vec<u32>, AllocError>
    requires { length starts.now ≡ form.now.rows }
    ensures { IfOk result (λ v. v.items ≡ made form.now.rows (starting.start_basic form.now starts.now)) }
{
    listed!(alloc, i in 0..form.rows() => basic(form, starts, i))
}

/// The value of each column at the start: of the structural ones, then the logical ones, then the artificial ones.
/// Memory may run out.
pub fn values(alloc: Global, form: &Form, starts: &[RowStart]) -> Result<Vec<Frac>, AllocError>
    requires { length starts.now ≡ form.now.rows }
    ensures { IfOk result (λ v.
        v.items ≡ made (form.now.cols + form.now.rows + form.now.rows) (starting.start_value form.now starts.now)) }
{
    listed!(alloc, k in 0..width(form) => value(form, starts, k))
}

/// The status of each column at the start: of the structural ones, then the logical ones, then the artificial ones.
/// Memory may run out.
pub fn statuses(alloc: Global, form: &Form, starts: &[RowStart]) -> Result<Vec<Status>, AllocError>
    requires { length starts.now ≡ form.now.rows }
    ensures { IfOk result (λ v.
        v.items ≡ made (form.now.cols + form.now.rows + form.now.rows) (starting.start_status form.now starts.now)) }
{
    listed!(alloc, k in 0..width(form) => status(form, starts, k))
}

/// The given bounds of structural and logical columns, and behind them the bound 0 for each artificial column. Memory
/// may run out.
pub fn with_artificials(
    alloc: Global,
    bounds: &[Option<Frac>],
    artificials: u32,
) -> Result<Vec<Option<Frac>>, AllocError>
    ensures { IfOk result (λ v. v.items ≡ bounds.now ++ replicate artificials (Some 0ℚ)) }
{
    let mut all = Vec::from_slice(alloc, bounds)?;
    all.resize(all.len() + artificials as usize, Some(zero()))?;
    Ok(all)
}

/// The lower bound of each column, 0 for the artificials. Memory may run out.
pub fn lowers(alloc: Global, form: &Form) -> Result<Vec<Option<Frac>>, AllocError>
    ensures { IfOk result (λ v. v.items ≡ form.now.lower ++ replicate form.now.rows (Some 0ℚ)) }
{
    with_artificials(alloc, form.lowers(), form.rows())
}

/// The upper bound of each column. An artificial has 0, or none where its row's sum misses a limit. Memory may run out.
pub fn uppers(
    alloc: Global,
    form: &Form,
    starts: &[RowStart],
) -> Result<Vec<Option<Frac>>, AllocError>
    ensures { IfOk result (λ v. v.items ≡ form.now.upper ++ map starting.artificial_upper starts.now) }
{
    let mut uppers = Vec::from_slice(alloc, form.uppers())?;
    for start in starts {
        uppers.push(artificial_upper(*start))?;
    }
    Ok(uppers)
}

// A list of `n` fractions that are all 0, if there is memory.
pub(crate) fn zeros(alloc: Global, n: usize) -> Result<Vec<Frac>, AllocError>
    ensures { IfOk result (λ v. v.items ≡ replicate n 0ℚ) }
{
    Vec::from_elem(alloc, zero(), n)
}

/// The costs of phase one: 1 for the artificial of each row whose sum misses a limit, and 0 for all other columns.
/// Memory may run out.
pub fn first_costs(alloc: Global, form: &Form, starts: &[RowStart]) -> Result<Vec<Frac>, AllocError>
    ensures { IfOk result (λ v. v.items ≡ starting.first_costs form.now starts.now) }
{
    let mut costs = zeros(alloc, (form.cols() + form.rows()) as usize)?;
    for start in starts {
        costs.push(artificial_cost(*start))?;
    }
    Ok(costs)
}

// The lists by columns of the start's tableau, with 0 for each reduced cost. Memory may run out.
fn lists(alloc: Global, form: &Form, starts: &[RowStart]) -> Result<ColumnLists, AllocError>
    requires { length starts.now ≡ form.now.rows }
    ensures { IfOk result (λ l. AreLists l
        (made (form.now.cols + form.now.rows + form.now.rows) (starting.start_value form.now starts.now))
        (replicate (form.now.cols + form.now.rows + form.now.rows) 0ℚ)
        (made (form.now.cols + form.now.rows + form.now.rows) (starting.start_status form.now starts.now))
        (form.now.lower ++ replicate form.now.rows (Some 0ℚ))
        (form.now.upper ++ map starting.artificial_upper starts.now)) }
{
    Ok(ColumnLists {
        value: values(alloc, form, starts)?,
        reduced: zeros(alloc, width(form) as usize)?,
        status: statuses(alloc, form, starts)?,
        lower: lowers(alloc, form)?,
        upper: uppers(alloc, form, starts)?,
    })
}

// The tableau that the form begins with, with 0 for each reduced cost. Memory may run out.
fn begun(
    alloc: Global,
    form: &Form,
    coefficients: &Grid,
    starts: &[RowStart],
) -> Result<Tableau, AllocError>
    requires held { HoldsColumns form.now form.now.cols coefficients.now }
    requires starts { length starts.now ≡ form.now.rows }
    ensures { IfOk result (λ t. t ≡ starting.begun form.now starts.now) }
{
    let (height, cols) = (form.rows(), form.cols());
    let basic = basics(alloc, form, starts)?;
    let lists = lists(alloc, form, starts)?;
    let grid = rows(alloc, form, coefficients, starts)?;
    Ok(Tableau::from_parts(height, cols, grid, basic, lists))
}

// The tableau that the form begins with, with the reduced costs of phase one. Else why not: a number past 127 bits, or
// no memory.
fn priced(
    alloc: Global,
    form: &Form,
    coefficients: &Grid,
    starts: &[RowStart],
) -> Result<Tableau, ColdStop>
    requires held { HoldsColumns form.now form.now.cols coefficients.now }
    requires starts { length starts.now ≡ form.now.rows }
    ensures ok { IfOk result (λ t. priced_start (Some number_limit) form.now starts.now ≡ Ok t) }
    ensures err { IfErr result (Stops (priced_start (Some number_limit) form.now starts.now)) }
{
    let costs = first_costs(alloc, form, starts)?;
    let mut tableau = begun(alloc, form, coefficients, starts)?;
    match tableau.price(&costs) {
        Ok(()) => Ok(tableau),
        Err(past) => {
            drop(tableau);
            Err(Stop::Past(past))
        }
    }
}

/// How each row's sum stands, in order, where each structural column is at its lower bound, else at its upper one, else
/// at 0: within the row's limits, or how far below or above them. Else why not: a number past 127 bits, or no memory.
pub fn starts(alloc: Global, form: &Form) -> Result<Vec<RowStart>, ColdStop>
    ensures ok { IfOk result (λ v. list_run form.now.rows (starting.row_start (Some number_limit) form.now) ≡ Ok
        v.items) }
    ensures err { IfErr result (Stops (list_run form.now.rows (starting.row_start (Some number_limit) form.now))) }
{
    let coefficients = coefficients(alloc, form)?;
    row_starts(alloc, form, &coefficients)
}

/// The tableau that the form begins with, with the reduced costs of phase one. Else why not: a number past 127 bits, or
/// no memory.
///
/// Each structural column is at its lower bound, else at its upper one, else at 0. Row by row,
/// the logical is basic where its row's sum is then within the row's limits; else the logical stands
/// at the limit that is missed, and the row's artificial is basic with the missing amount as its value.
pub fn start_cold(alloc: Global, form: &Form) -> Result<Tableau, ColdStop>
    ensures ok { IfOk result (λ t. starting.start_of (Some number_limit) form.now ≡ Ok t) }
    ensures err { IfErr result (Stops (starting.start_of (Some number_limit) form.now)) }
{
    let coefficients = coefficients(alloc, form)?;
    let starts = row_starts(alloc, form, &coefficients)?;
    priced(alloc, form, &coefficients, &starts)
}
