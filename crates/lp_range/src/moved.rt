// The ends of a cost: where reduced costs change their sign.
ghost use Rattle.std.specs.Prelude.{◌≡◌, ◌≢◌, ◌<◌, Some};
ghost use Rattle.spec_exact.specs.Fraction.{0ℚ};
ghost use Rattle.spec_exact.specs.Narrow.{number_limit};
ghost use Rattle.spec_simplex.specs.Tableau.{all_columns, entry_at};
ghost use Rattle.spec_range.specs.Rule as rule;
ghost use Rattle.lp_range.specs.Answer.{IsSeated};

use crate::ends::{Ends, at_least, at_most, at_side, no_ends};
use lp_form::{Status, is_basic, least_cost};
use lp_frac::{Frac, Past, add, div, is_positive, neg, one, sub};
use lp_model::Sense;
use lp_simplex::dual::position_of;
use lp_tableau::{Pivot, Tableau, is_fixed, is_zero};

// The ends, with the cost `v` too, at which the reduced cost of a column of this status is 0. Where that `falls` as the
// cost grows, `v` is an upper end for a column at its lower bound and a lower end for one at its upper bound, else the
// other way. A column at 0 gives both ends, a basic one none. A comparison may be refused.
fn ends_by(status: Status, falls: bool, v: Frac, ends: Ends) -> Result<Ends, Past>
    ensures { result ≡ rule.ends_by (Some number_limit) status falls v ends }
{
    match status {
        Status::Basic => Ok(ends),
        Status::AtLower => at_side(falls, v, ends),
        Status::AtUpper => at_side(!falls, v, ends),
        Status::AtZero => {
            let ends = at_least(v, ends)?;
            at_most(v, ends)
        }
    }
}

// Whether the reduced cost of a column with this entry in the row of the basic column whose cost moves falls as that
// cost grows: the entry is above 0 for `min`, below 0 for `max`.
fn falls(sense: Sense, entry: Frac) -> bool
    ensures { result ≡ rule.falls_by sense entry }
{
    is_positive(least_cost(sense, entry))
}

// The cost with which a column at a bound has the reduced cost 0: the present cost less the reduced cost for `min`,
// plus it for `max`; refused past 127 bits. The present cost for a column at 0 or basic.
fn own_number(sense: Sense, cost: Frac, status: Status, reduced: Frac) -> Result<Frac, Past>
    ensures { result ≡ rule.own_number (Some number_limit) sense cost status reduced }
{
    match status {
        Status::Basic | Status::AtZero => Ok(cost),
        Status::AtLower | Status::AtUpper => sub(cost, least_cost(sense, reduced)),
    }
}

// The ends for the cost of a nonbasic column: where its own reduced cost changes its sign. A fixed column has none.
// Refused where a number is past 127 bits.
fn own(tab: &Tableau, sense: Sense, cost: Frac, col: u32) -> Result<Ends, Past>
    requires { col < all_columns tab.now }
    ensures { result ≡ rule.own_ends (Some number_limit) sense cost tab.now col }
{
    if is_fixed(tab.lower(col), tab.upper(col)) {
        return Ok(no_ends());
    }
    let status = tab.status(col);
    let v = own_number(sense, cost, status, tab.reduced(col))?;
    ends_by(status, falls(sense, neg(one())), v, no_ends())
}

// Whether column `at.column` limits the range of the cost of the basic column at `at.position`: it is nonbasic, not
// fixed, and its entry there is not 0.
fn is_moved(tab: &Tableau, at: Pivot) -> bool
    requires place { at.position < tab.now.rows }
    requires column { at.column < all_columns tab.now }
    ensures { result ≡ rule.is_moved tab.now at.position at.column }
{
    let k = at.column;
    !(is_basic(tab.status(k))
        || (is_fixed(tab.lower(k), tab.upper(k)) || is_zero(tab.entry(at.position, k))))
}

// The ends, with the cost too at which the reduced cost of column `at.column` is 0, as the cost of the basic column at
// `at.position` moves. Refused where a number is past 127 bits.
fn moved(tab: &Tableau, sense: Sense, cost: Frac, at: Pivot, ends: Ends) -> Result<Ends, Past>
    requires place { at.position < tab.now.rows }
    requires column { at.column < all_columns tab.now }
    requires entry { entry_at tab.now at.position at.column ≢ 0ℚ }
    ensures { result ≡ rule.moved_ends (Some number_limit) sense cost tab.now at.position at.column ends }
{
    let k = at.column;
    let entry = tab.entry(at.position, k);
    let q = div(least_cost(sense, tab.reduced(k)), entry)?;
    let v = add(cost, q)?;
    ends_by(tab.status(k), falls(sense, entry), v, ends)
}

// The ends for the cost of the basic column at `at.position`, with the one that column `at.column` gives if it limits
// the range. Refused where a number is past 127 bits.
fn moved_if(tab: &Tableau, sense: Sense, cost: Frac, at: Pivot, ends: Ends) -> Result<Ends, Past>
    requires place { at.position < tab.now.rows }
    requires column { at.column < all_columns tab.now }
    ensures { result ≡ rule.moved_if (Some number_limit) sense cost tab.now at.position at.column ends }
{
    if is_moved(tab, at) {
        moved(tab, sense, cost, at, ends)
    } else {
        Ok(ends)
    }
}

// The ends for the cost of the basic column at position `p`, the tightest that the reduced costs of all columns give.
// Refused where a number is past 127 bits.
fn basic(tab: &Tableau, sense: Sense, cost: Frac, p: u32) -> Result<Ends, Past>
    requires { p < tab.now.rows }
    ensures { result ≡ rule.basic_ends (Some number_limit) sense cost tab.now p }
{
    let mut ends = no_ends();
    for k in 0..tab.width() {
        let at = Pivot {
            position: p,
            column: k,
        };
        ends = moved_if(tab, sense, cost, at, ends)?;
    }
    Ok(ends)
}

// The ends for the cost of column `col`, between which each reduced cost of a column that is not fixed keeps the sign
// of its column's status. Refused where a number is past 127 bits.
pub(crate) fn cost_ends(tab: &Tableau, sense: Sense, cost: Frac, col: u32) -> Result<Ends, Past>
    requires column { col < all_columns tab.now }
    requires seated { IsSeated tab.now }
    ensures { result ≡ rule.cost_ends (Some number_limit) sense cost tab.now col }
{
    if is_basic(tab.status(col)) {
        basic(tab, sense, cost, position_of(tab, col))
    } else {
        own(tab, sense, cost, col)
    }
}
