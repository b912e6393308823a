// Flips and pivots.
ghost use Rattle.std.specs.Prelude.{◌≡◌, ◌<◌, ◌≤◌, ℕ, IsTrue, Ok, None, length, slice_set, get_or};
ghost use Rattle.spec_exact.specs.Fraction.{ℚ, 0ℚ, over};
ghost use Rattle.spec_pivot.specs.declared.status.Status.TheVariants.{Basic};
ghost use Rattle.spec_simplex.specs.declared.ends.Choice.{Choice};
ghost use Rattle.spec_simplex.specs.Tableau as tableaus;
ghost use Rattle.spec_simplex.specs.Step.{choice_run};
ghost use Rattle.spec_simplex.specs.Phases.{done_run};
ghost use Rattle.lp_natural.specs.Whole.{whole};
ghost use Rattle.lp_rows.specs.Ratio.{bound_of};
ghost use Rattle.lp_rows.specs.Shows.{IsWhole, IsReached, Shows, height, width, all_width};
ghost use Rattle.lp_rows.specs.Steps.{step_of, MayMake};
ghost use Rattle.lp_rows.specs.Changes.{upper_in, basic_in, left_upper, IsFlipped, IsPivoted};

use crate::ratio::toward;
use crate::tableau::choice::Step;
use crate::tableau::moves::{Turn, move_all, turn_rows};
use crate::tableau::tableau::RowTableau;
use lp_form::Status;
use lp_natural::words::{Signed, Words, minus};
use lp_tableau::{Pivot, flip_way, other_bound};

// The number 0.
fn zero<T: Words>() -> Signed<T>
    ensures { (d : ℕ) → 0 < d → over (whole result.negative (T.value result.size)) d ≡ 0ℚ }
{
    Signed {
        negative: false,
        size: T::zero(),
    }
}

// The bound, or 0 where there is none.
fn or_zero<T: Words>(bound: Option<Signed<T>>) -> Signed<T>
    ensures { (d : ℕ) → 0 < d → over (whole result.negative (T.value result.size)) d ≡
        tableaus.or_zero (bound_of T.value d bound) }
{
    match bound {
        Some(bound) => bound,
        None => zero(),
    }
}

/// The value of a nonbasic column of this status with these bounds, and 0 for a basic one, or where the bound that the
/// status names is absent.
pub fn stand<T: Words>(
    status: Status,
    lower: Option<Signed<T>>,
    upper: Option<Signed<T>>,
) -> Signed<T>
    ensures { (d : ℕ) → 0 < d → over (whole result.negative (T.value result.size)) d ≡
        tableaus.stand status (bound_of T.value d lower) (bound_of T.value d upper) }
{
    match status {
        Status::AtLower => or_zero(lower),
        Status::AtUpper => or_zero(upper),
        Status::Basic | Status::AtZero => zero(),
    }
}

// Moves column `col` to its other bound. Where it is false a number overflows the width, and the tableau is spent.
fn flip<T: Words>(tab: &mut RowTableau<T>, col: usize) -> bool
    requires whole { IsWhole T.value tab.old }
    requires column { col < width tab.old }
    ensures { IsTrue result → IsFlipped T.value col tab.old tab.new }
{
    let way = flip_way(tab.status[col]);
    let Some(range) = minus(or_zero(tab.upper[col]), or_zero(tab.lower[col])) else {
        return false;
    };
    let n = tab.width();
    if !move_all(&mut tab.rows, n, col, toward(way, range)) {
        return false;
    }
    tab.status[col] = other_bound(way);
    true
}

// Makes the pivot's column basic at its position. The column that was basic there goes to the bound `to`; an artificial
// one has the upper bound 0 from then on.
fn exchange<T: Words>(tab: &mut RowTableau<T>, at: Pivot, to: Status)
    requires rows { length tab.old.rows.items ≤ 256 }
    requires cols { tab.old.cols ≤ 512 }
    requires place { at.position < length tab.old.basic.items }
    requires leaving { basic_in tab.old at.position < length tab.old.status.items }
    requires bounds { length tab.old.upper.items ≡ length tab.old.status.items }
    requires column { at.column < length tab.old.status.items }
    ensures basic { tab.new.basic.items ≡ slice_set tab.old.basic.items at.position at.column }
    ensures status { tab.new.status.items ≡
        slice_set (slice_set tab.old.status.items (basic_in tab.old at.position) to) at.column Basic }
    ensures upper { (k : ℕ) → 0 < T.value tab.old.denominator → upper_in T.value tab.new k ≡
        left_upper (width tab.old) (basic_in tab.old at.position) k (upper_in T.value tab.old k) }
    ensures len { length tab.new.upper.items ≡ length tab.old.upper.items }
    ensures rest { tab.new ≡
        record tab.old { basic = tab.new.basic; status = tab.new.status; upper = tab.new.upper } }
{
    let position = at.position as usize;
    let leaving = tab.basic[position] as usize;
    tab.basic[position] = at.column;
    tab.status[leaving] = to;
    tab.status[at.column as usize] = Status::Basic;
    if leaving >= tab.width() {
        tab.upper[leaving] = Some(zero());
    }
}

// Makes a pivot: its column becomes basic at its position, the column that was there goes to the bound `to`, and the
// rows, the basic values and the reduced costs follow. Where it is false a number overflows the width, or the pivot's
// entry is 0, and the tableau is spent.
fn pivot<T: Words>(tab: &mut RowTableau<T>, at: Pivot, to: Status) -> bool
    requires whole { IsWhole T.value tab.old }
    requires place { at.position < height tab.old }
    requires column { at.column < width tab.old }
    ensures { IsTrue result → IsPivoted T.value at.position at.column to tab.old tab.new }
{
    let (p, j) = (at.position as usize, at.column as usize);
    let q = tab.basic[p] as usize;
    let turn = Turn {
        place: p,
        col: j,
        leaves_at: stand(to, tab.lower[q], tab.upper[q]),
        enters_from: stand(tab.status[j], tab.lower[j], tab.upper[j]),
    };
    let n = tab.width();
    if !turn_rows(&mut tab.rows, &mut tab.costs, n, turn) {
        return false;
    }
    exchange(tab, at, to);
    true
}

/// Makes the flip or the pivot of a step; an end changes nothing. Where it is false a number overflows the width, or
/// the pivot's entry is 0, and the tableau is spent.
pub fn make<T: Words>(tab: &mut RowTableau<T>, step: Step) -> bool
    requires whole { IsWhole T.value tab.old }
    requires inside { MayMake tab.old step }
    ensures whole { IsTrue result → IsWhole T.value tab.new }
    ensures made { IsTrue result → (t u : tableaus.Tableau) (c : Choice ℚ) → IsReached t → Shows T.value tab.old t →
        choice_run None t ≡ Ok c → step_of c ≡ step → done_run None t c ≡ Ok u → Shows T.value tab.new u }
    ensures rows { IsTrue result → height tab.new ≡ height tab.old }
    ensures cols { IsTrue result → tab.new.cols ≡ tab.old.cols }
{
    match step {
        Step::End(_) => true,
        Step::Flip(col) => flip(tab, col as usize),
        Step::Pivot { place, col, to } => {
            let at = Pivot {
                position: place,
                column: col,
            };
            pivot(tab, at, to)
        }
    }
}
