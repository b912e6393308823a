// Which column enters, by a row of reduced costs.
ghost use Rattle.std.specs.Prelude.{◌≡◌, ◌<◌, ◌≤◌, pos, length, IfSome};
ghost use Rattle.std.specs.Ordering.{int_cmp};
ghost use Rattle.spec_simplex.specs.Tableau as tableaus;
ghost use Rattle.spec_simplex.specs.Step.{entering as entering_of};
ghost use Rattle.lp_natural.specs.Whole.{whole};
ghost use Rattle.lp_rows.specs.Entering.{way_of, way_with, IsPriced};

use crate::fractions::Row;
use lp_natural::words::{Signed, Words};
use spec_pivot::{Status, Way};
use spec_simplex::Entering;
use std::cmp::Ordering;

// The sign of a number, as its order to 0.
pub(crate) fn sign<T: Words>(n: Signed<T>) -> Ordering
    ensures { result ≡ int_cmp (whole n.negative (T.value n.size)) (pos 0) }
{
    if n.size.is_zero() {
        Ordering::Equal
    } else if n.negative {
        Ordering::Less
    } else {
        Ordering::Greater
    }
}

// Which way a nonbasic column goes as it enters, by its status and the sign of its reduced cost; none if it should not
// enter.
fn way(status: Status, sign: Ordering) -> Option<Way>
    ensures { result ≡ way_of status sign }
{
    match status {
        Status::Basic => None,
        Status::AtLower => match sign {
            Ordering::Less => Some(Way::Up),
            Ordering::Equal => None,
            Ordering::Greater => None,
        },
        Status::AtUpper => match sign {
            Ordering::Less => None,
            Ordering::Equal => None,
            Ordering::Greater => Some(Way::Down),
        },
        Status::AtZero => match sign {
            Ordering::Less => Some(Way::Up),
            Ordering::Equal => None,
            Ordering::Greater => Some(Way::Down),
        },
    }
}

// Which way a column goes as it enters, by its status and reduced cost; none if it should not enter, or is fixed.
fn way_if_free<T: Words>(cost: Signed<T>, status: Status, is_fixed: bool) -> Option<Way>
    ensures { result ≡ way_with is_fixed status (int_cmp (whole cost.negative (T.value cost.size)) (pos 0)) }
{
    if is_fixed {
        None
    } else {
        way(status, sign(cost))
    }
}

// The least column that may enter, with its way, by the reduced costs, the statuses and which columns are fixed; none
// if no one may. `fixed` has structural and logical columns: the artificial ones behind them never enter.
pub(crate) fn entering<T: Words>(
    costs: &Row<T>,
    status: &[Status],
    fixed: &[bool],
) -> Option<Entering>
    requires positive { 0 < T.value costs.now.denominator }
    requires numbers { length fixed.now ≤ length costs.now.numbers.items }
    requires statuses { length fixed.now ≤ length status.now }
    requires few { length fixed.now ≤ 1024 }
    ensures value { (t : tableaus.Tableau) →
        IsPriced T.value t costs.now.numbers.items (T.value costs.now.denominator) status.now fixed.now →
        result ≡ entering_of t }
    ensures inside { IfSome result (λ e. e.col < length fixed.now) }
{
    for k in 0..fixed.len() {
        let cost = costs.numbers[k];
        let stands = status[k];
        let is_fixed = fixed[k];
        match way_if_free(cost, stands, is_fixed) {
            Some(direction) => {
                return Some(Entering {
                    col: k as u32,
                    direction,
                });
            }
            None => {}
        }
    }
    None
}
