// The certificate and the basis of an end.
ghost use Rattle.std.specs.Prelude.{◌≡◌, ◌≢◌, ◌<◌, ◌++◌, ◌∷◌, [], ◌&&◌, All, IfOk, IfSome, OnOk, Some, None, get_or};
ghost use Rattle.std.specs.Prelude.{length, nat_le, ◌+◌, ◌*◌};
ghost use Rattle.spec_exact.specs.Fraction.{ℚ, neg_ℚ};
ghost use Rattle.spec_exact.specs.Run.{made};
ghost use Rattle.spec_pivot.specs.declared.status.Status.TheVariants as statuses;
ghost use Rattle.spec_simplex.specs.declared.ends.PrimalEnd.TheVariants as primal;
ghost use Rattle.spec_simplex.specs.Step as step;
ghost use Rattle.spec_simplex.specs.Tableau as tableaus;
ghost use Rattle.spec_runs.specs.Cold as cold;
ghost use Rattle.lp_rows.specs.Number.{fraction_of};
ghost use Rattle.lp_rows.specs.Row.{fraction_at};
ghost use Rattle.lp_rows.specs.Ratio.{bound_of};
ghost use Rattle.lp_rows.specs.Shows.{IsRow, IsWhole, IsReached, Shows, height, width, all_width, row_at};
ghost use Rattle.lp_rows.specs.Ends.{certificate_as, basis_by, AllFit, IsInside, point_as, multipliers_as, direction_as};

use crate::fractions::Row;
use crate::number::{Listed, RowFraction, directed, negated, one, zero};
use crate::tableau::tableau::RowTableau;
use lp_base::Items;
use lp_form::{Status, StatusList, is_basic};
use lp_natural::words::{Signed, Words};
use lp_tableau::PrimalEnd;
use spec_check::Certificate;
use spec_simplex::Entering;
use std::alloc::{AllocError, Global};

// ---- one number

// The position at which column `k` is basic; none if it is nonbasic.
fn position_of(basic: &[u32], k: u32) -> Option<usize>
    ensures { IfSome result (λ i. (i < length basic.now) × (get_or basic.now i 0 ≡ k)) }
{
    for i in 0..basic.len() {
        if basic[i] == k {
            return Some(i);
        }
    }
    None
}

// The value of a position's basic column as a fraction; none where a number overflows the width.
fn basic_value<T: Words>(tab: &RowTableau<T>, i: usize) -> Option<RowFraction<T>>
    requires whole { IsWhole T.value tab.now }
    requires inside { i < height tab.now }
    ensures { IfSome result (λ v. fraction_of T.value v ≡
        row_at T.value (T.value tab.now.denominator) tab.now.rows.items i (width tab.now)) }
{
    let last = tab.width();
    last_number(&tab.rows[i], last, tab.denominator)
}

// The last number of a row as a fraction, whose denominator is the row's times `denominator`. None where that overflows
// the width.
fn last_number<T: Words>(row: &Row<T>, last: usize, denominator: T) -> Option<RowFraction<T>>
    requires row { IsRow T.value last row.now }
    ensures { IfSome result (λ v. fraction_of T.value v ≡
        fraction_at T.value row.now.numbers.items (T.value denominator * T.value row.now.denominator) last) }
{
    match denominator.product(row.denominator) {
        Some(both) => Some(RowFraction {
            number: row.numbers[last],
            denominator: both,
        }),
        None => None,
    }
}

// The number of a row in column `k`, as a fraction.
fn number<T: Words>(row: &Row<T>, columns: usize, k: usize) -> RowFraction<T>
    requires row { IsRow T.value columns row.now }
    requires inside { k < columns }
    ensures { fraction_of T.value result ≡
        fraction_at T.value row.now.numbers.items (T.value row.now.denominator) k }
{
    RowFraction {
        number: row.numbers[k],
        denominator: row.denominator,
    }
}

// A bound on a denominator as a fraction, and 0 where there is none.
fn bound_or_zero<T: Words>(bound: Option<Signed<T>>, denominator: T) -> RowFraction<T>
    ensures { fraction_of T.value result ≡ tableaus.or_zero (bound_of T.value (T.value denominator) bound) }
{
    match bound {
        Some(number) => RowFraction {
            number,
            denominator,
        },
        None => zero(),
    }
}

// The value of a nonbasic column of this status with these bounds on `denominator`, and none for a basic one. A bound
// that is absent counts as 0.
fn stand<T: Words>(
    status: Status,
    lower: Option<Signed<T>>,
    upper: Option<Signed<T>>,
    denominator: T,
) -> Option<RowFraction<T>>
    ensures { IfSome result (λ v. (status ≢ statuses.Basic) × (fraction_of T.value v ≡ tableaus.stand status
        (bound_of T.value (T.value denominator) lower) (bound_of T.value (T.value denominator) upper))) }
{
    match status {
        Status::Basic => None,
        Status::AtLower => Some(bound_or_zero(lower, denominator)),
        Status::AtUpper => Some(bound_or_zero(upper, denominator)),
        Status::AtZero => Some(zero()),
    }
}

// The value of column `j`, basic or not, as a fraction; none where a number overflows the width.
fn value_of<T: Words>(tab: &RowTableau<T>, j: u32) -> Option<RowFraction<T>>
    requires whole { IsWhole T.value tab.now }
    requires inside { j < all_width tab.now }
    ensures { (t : tableaus.Tableau) → Shows T.value tab.now t →
        IfSome result (λ v. fraction_of T.value v ≡ tableaus.value_at t j) }
{
    let k = j as usize;
    match position_of(&tab.basic, j) {
        Some(position) => basic_value(tab, position),
        None => stand(tab.status[k], tab.lower[k], tab.upper[k], tab.denominator),
    }
}

// The multiplier of row `i`: the reduced cost of its logical.
fn multiplier<T: Words>(tab: &RowTableau<T>, i: usize) -> RowFraction<T>
    requires whole { IsWhole T.value tab.now }
    requires inside { i < height tab.now }
    ensures { (t : tableaus.Tableau) → Shows T.value tab.now t →
        fraction_of T.value result ≡ tableaus.reduced_at t (t.cols + i) }
{
    let columns = tab.width();
    number(&tab.costs, columns, tab.cols as usize + i)
}

// How the basic column of a position moves while the entering column rises or falls by 1.
fn basic_move<T: Words>(tab: &RowTableau<T>, i: usize, e: Entering) -> RowFraction<T>
    requires whole { IsWhole T.value tab.now }
    requires place { i < height tab.now }
    requires column { e.col < width tab.now }
    ensures { (t : tableaus.Tableau) → Shows T.value tab.now t →
        fraction_of T.value result ≡ neg_ℚ (step.directed e.direction (tableaus.entry_at t i e.col)) }
{
    let columns = tab.width();
    let entry = number(&tab.rows[i], columns, e.col as usize);
    negated(directed(e.direction, entry))
}

// How column `k` moves by the positions up to `i`, where `so_far` is how it moves by those before.
fn move_by<T: Words>(
    tab: &RowTableau<T>,
    i: usize,
    e: Entering,
    k: u32,
    so_far: RowFraction<T>,
) -> RowFraction<T>
    requires whole { IsWhole T.value tab.now }
    requires place { i < height tab.now }
    requires column { e.col < width tab.now }
    ensures { (t : tableaus.Tableau) → Shows T.value tab.now t →
        fraction_of T.value so_far ≡ cold.moves_below t e.col e.direction k i →
        fraction_of T.value result ≡ cold.moves_below t e.col e.direction k (i + 1) }
{
    if tab.basic[i] == k {
        basic_move(tab, i, e)
    } else {
        so_far
    }
}

// How column `k` moves before any position is counted: by 1 up or down if it enters, else not at all.
fn own_move<T: Words>(e: Entering, k: u32) -> RowFraction<T>
    ensures { (t : tableaus.Tableau) → fraction_of T.value result ≡ cold.moves_below t e.col e.direction k 0 }
{
    if k == e.col {
        directed(e.direction, one())
    } else {
        zero()
    }
}

// How column `k` moves while the entering column rises or falls by 1.
fn move_of<T: Words>(tab: &RowTableau<T>, e: Entering, k: u32) -> RowFraction<T>
    requires whole { IsWhole T.value tab.now }
    requires column { e.col < width tab.now }
    ensures { (t : tableaus.Tableau) → Shows T.value tab.now t →
        fraction_of T.value result ≡ cold.moves_by t e.col e.direction k }
{
    let mut moved = own_move(e, k);
    for i in 0..tab.rows.len() {
        moved = move_by(tab, i, e, k, moved);
    }
    moved
}

// ---- lists of numbers

// The fraction as a number of the list's kind; none where there is no fraction, or it does not fit that kind.
fn listed<T: Words, N: Listed>(
    alloc: Global,
    v: Option<RowFraction<T>>,
) -> Result<Option<N>, AllocError>
    ensures value { (q : ℚ) → IfSome v (λ v. fraction_of T.value v ≡ q) →
        IfOk result (λ o. IfSome o (λ n. n ≡ N.of q)) }
    ensures fits { IfOk result (λ o. IfSome o N.fits) }
{
    match v {
        Some(v) => {
            if v.denominator.is_zero() {
                return Ok(None);
            }
            N::from_row(alloc, v)
        }
        None => Ok(None),
    }
}

// The values of the structural columns; none where one overflows the width of the words, or does not fit its kind.
fn point<T: Words, N: Listed>(
    alloc: Global,
    tab: &RowTableau<T>,
) -> Result<Option<Items<N>>, AllocError>
    requires { IsWhole T.value tab.now }
    ensures value { (t : tableaus.Tableau) → Shows T.value tab.now t →
        IfOk result (λ o. IfSome o (λ x. x ≡ point_as N.of t)) }
    ensures fits { IfOk result (λ o. IfSome o (All N.fits)) }
{
    let mut point: Items<N> = Items::new(alloc);
    for j in 0..tab.cols {
        match listed(alloc, value_of(tab, j))? {
            Some(v) => point.push(v)?,
            None => return Ok(None),
        }
    }
    Ok(Some(point))
}

// The reduced costs of the rows' logicals, which are the multipliers of the rows. None where one does not fit its kind.
fn multipliers<T: Words, N: Listed>(
    alloc: Global,
    tab: &RowTableau<T>,
) -> Result<Option<Items<N>>, AllocError>
    requires { IsWhole T.value tab.now }
    ensures value { (t : tableaus.Tableau) → Shows T.value tab.now t →
        IfOk result (λ o. IfSome o (λ y. y ≡ multipliers_as N.of t)) }
    ensures fits { IfOk result (λ o. IfSome o (All N.fits)) }
{
    let mut multipliers: Items<N> = Items::new(alloc);
    for i in 0..tab.rows.len() {
        match listed(alloc, Some(multiplier(tab, i)))? {
            Some(v) => multipliers.push(v)?,
            None => return Ok(None),
        }
    }
    Ok(Some(multipliers))
}

// How the structural columns move while the entering column rises or falls by 1. None where a number does not fit its
// kind.
fn direction<T: Words, N: Listed>(
    alloc: Global,
    tab: &RowTableau<T>,
    e: Entering,
) -> Result<Option<Items<N>>, AllocError>
    requires whole { IsWhole T.value tab.now }
    requires column { e.col < width tab.now }
    ensures value { (t : tableaus.Tableau) → Shows T.value tab.now t →
        IfOk result (λ o. IfSome o (λ r. r ≡ direction_as N.of t e.col e.direction)) }
    ensures fits { IfOk result (λ o. IfSome o (All N.fits)) }
{
    let mut direction: Items<N> = Items::new(alloc);
    for k in 0..tab.cols {
        match listed(alloc, Some(move_of(tab, e, k)))? {
            Some(v) => direction.push(v)?,
            None => return Ok(None),
        }
    }
    Ok(Some(direction))
}

// ---- certificates

// The certificate that no point is feasible: the reduced costs of the rows' logicals at the end of phase one. None
// where one does not fit its kind.
fn infeasible<T: Words, N: Listed>(
    alloc: Global,
    tab: &RowTableau<T>,
) -> Result<Option<Certificate<Items<N>>>, AllocError>
    requires { IsWhole T.value tab.now }
    ensures value { (t : tableaus.Tableau) → Shows T.value tab.now t →
        IfOk result (λ o. IfSome o (λ c. c ≡ certificate_as N.of t None)) }
    ensures fits { IfOk result (λ o. IfSome o (AllFit N.fits)) }
{
    match multipliers(alloc, tab)? {
        Some(y) => Ok(Some(Certificate::Infeasible { y })),
        None => Ok(None),
    }
}

// The certificate of an optimum: the point, and the multipliers. None where a number overflows the width of the words,
// or does not fit its kind.
fn optimal<T: Words, N: Listed>(
    alloc: Global,
    tab: &RowTableau<T>,
) -> Result<Option<Certificate<Items<N>>>, AllocError>
    requires { IsWhole T.value tab.now }
    ensures value { (t : tableaus.Tableau) → Shows T.value tab.now t →
        IfOk result (λ o. IfSome o (λ c. c ≡ certificate_as N.of t (Some primal.Optimal))) }
    ensures fits { IfOk result (λ o. IfSome o (AllFit N.fits)) }
{
    let Some(x) = point(alloc, tab)? else {
        return Ok(None);
    };
    match multipliers(alloc, tab)? {
        Some(y) => Ok(Some(Certificate::Optimal { x, y })),
        None => Ok(None),
    }
}

// The certificate that the model is unbounded: the point, and the ray of the entering column. None where a number
// overflows the width of the words, or does not fit its kind.
fn unbounded<T: Words, N: Listed>(
    alloc: Global,
    tab: &RowTableau<T>,
    e: Entering,
) -> Result<Option<Certificate<Items<N>>>, AllocError>
    requires whole { IsWhole T.value tab.now }
    requires column { e.col < width tab.now }
    ensures value { (t : tableaus.Tableau) → Shows T.value tab.now t →
        IfOk result (λ o. IfSome o (λ c. c ≡ certificate_as N.of t (Some (primal.Unbounded e.col e.direction)))) }
    ensures fits { IfOk result (λ o. IfSome o (AllFit N.fits)) }
{
    let Some(x) = point(alloc, tab)? else {
        return Ok(None);
    };
    match direction(alloc, tab, e)? {
        Some(r) => Ok(Some(Certificate::Unbounded { x, r })),
        None => Ok(None),
    }
}

// The certificate of an end of phase two; none where a number overflows the width of the words, or does not fit its
// kind.
fn certificate_at<T: Words, N: Listed>(
    alloc: Global,
    tab: &RowTableau<T>,
    end: PrimalEnd,
) -> Result<Option<Certificate<Items<N>>>, AllocError>
    requires whole { IsWhole T.value tab.now }
    requires inside { IsInside tab.now (Some end) }
    ensures value { (t : tableaus.Tableau) → Shows T.value tab.now t →
        IfOk result (λ o. IfSome o (λ c. c ≡ certificate_as N.of t (Some end))) }
    ensures fits { IfOk result (λ o. IfSome o (AllFit N.fits)) }
{
    match end {
        PrimalEnd::Optimal => optimal(alloc, tab),
        PrimalEnd::Unbounded { col, direction } => {
            unbounded(alloc, tab, Entering { col, direction })
        }
    }
}

/// The certificate of an end: that of phase two, or of phase one where it leaves an artificial column that is not 0.
/// There is none where a number overflows the width of its kind, or that of the words.
pub fn certificate<T: Words, N: Listed>(
    alloc: Global,
    tab: &RowTableau<T>,
    end: Option<PrimalEnd>,
) -> Result<Option<Certificate<Items<N>>>, AllocError>
    requires whole { IsWhole T.value tab.now }
    requires inside { IsInside tab.now end }
    ensures value { (t : tableaus.Tableau) → IsReached t → Shows T.value tab.now t →
        IfOk result (λ o. IfSome o (λ c. c ≡ certificate_as N.of t end)) }
    ensures fits { IfOk result (λ o. IfSome o (AllFit N.fits)) }
{
    match end {
        Some(end) => certificate_at(alloc, tab, end),
        None => infeasible(alloc, tab),
    }
}

// ---- bases

// The status of a column.
fn status_at<T: Words>(tab: &RowTableau<T>, k: usize) -> Status
    requires whole { IsWhole T.value tab.now }
    requires inside { k < all_width tab.now }
    ensures { (t : tableaus.Tableau) → Shows T.value tab.now t → result ≡ tableaus.status_at t k }
{
    tab.status[k]
}

// Whether column `k` is the logical of a row whose artificial is basic in its stead.
fn is_in_its_place<T: Words>(tab: &RowTableau<T>, k: usize) -> bool
    requires whole { IsWhole T.value tab.now }
    requires inside { k < width tab.now }
    ensures { (t : tableaus.Tableau) → Shows T.value tab.now t →
        result ≡ (nat_le t.cols k && tableaus.is_basic (tableaus.status_at t (k + t.rows))) }
{
    tab.cols as usize <= k && is_basic(status_at(tab, k + tab.rows.len()))
}

// The status of a column. A logical whose row's artificial is basic counts as basic in its place.
fn basis_status<T: Words>(tab: &RowTableau<T>, k: usize) -> Status
    requires whole { IsWhole T.value tab.now }
    requires inside { k < width tab.now }
    ensures { (t : tableaus.Tableau) → Shows T.value tab.now t → result ≡ cold.basis_status t k }
{
    if is_in_its_place(tab, k) {
        Status::Basic
    } else {
        status_at(tab, k)
    }
}

// The statuses of the model's columns and then of the rows' logicals. A logical whose row's artificial is basic counts
// as basic in its place.
fn basis_statuses<T: Words>(alloc: Global, tab: &RowTableau<T>) -> Result<StatusList, AllocError>
    requires { IsWhole T.value tab.now }
    ensures { (t : tableaus.Tableau) → Shows T.value tab.now t →
        IfOk result (λ b. b ≡ made (tableaus.form_columns t) (cold.basis_status t)) }
{
    let mut list = StatusList::new(alloc);
    for k in 0..tab.width() {
        list.push(basis_status(tab, k))?;
    }
    Ok(list)
}

/// The statuses of the basis of an optimal end; another end has none.
pub fn basis<T: Words>(
    alloc: Global,
    tab: &RowTableau<T>,
    end: Option<PrimalEnd>,
) -> Result<Option<StatusList>, AllocError>
    requires { IsWhole T.value tab.now }
    ensures { (t : tableaus.Tableau) → Shows T.value tab.now t → IfOk result (λ b. b ≡ basis_by t end) }
{
    match end {
        Some(PrimalEnd::Optimal) => Ok(Some(basis_statuses(alloc, tab)?)),
        Some(PrimalEnd::Unbounded { .. }) => Ok(None),
        None => Ok(None),
    }
}
