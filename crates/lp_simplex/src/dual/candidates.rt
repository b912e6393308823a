// Which column enters: the dual ratio test.
ghost use Rattle.std.specs.Prelude.{◌≡◌, ◌≢◌, ◌<◌, Some};
ghost use Rattle.spec_exact.specs.Fraction.{0ℚ};
ghost use Rattle.spec_exact.specs.Narrow.{number_limit};
ghost use Rattle.spec_simplex.specs.Tableau.{all_columns};
ghost use Rattle.spec_simplex.specs.Dual as dual;

use crate::primal::way;
use lp_frac::{Frac, Past, abs, cmp, div};
use lp_tableau::{Tableau, directed, is_fixed};
use spec_pivot::Way;
use std::cmp::Ordering;

// The least ratio so far.
pub(crate) type Cheapest = spec_simplex::Cheapest<Frac>;

// A position whose basic column is outside its bounds, and the way in which this comes back.
#[derive(Clone, Copy)]
pub(crate) struct Outside {
    pub(crate) position: u32,
    pub(crate) direction: Way,
}

// The way in which column `k` moves as it enters, if it may bring the column that is outside back to its bound; else
// none.
fn column_way(tab: &Tableau, out: Outside, k: u32) -> Option<Way>
    requires place { out.position < tab.now.rows }
    requires column { k < all_columns tab.now }
    ensures { result ≡ dual.dual_way_at tab.now out.position out.direction k }
{
    if is_fixed(tab.lower(k), tab.upper(k)) {
        return None;
    }
    way(
        tab.status(k),
        directed(out.direction, tab.entry(out.position, k)),
    )
}

// The better of column `new` and the best one before, if there is one: the one with the lesser ratio, and of equal ones
// `best`, which came first.
fn cheaper(new: Cheapest, best: Option<Cheapest>) -> Result<Option<Cheapest>, Past>
    ensures { result ≡ dual.cheaper_run (Some number_limit) new best }
{
    let Some(best) = best else {
        return Ok(Some(new));
    };
    match cmp(new.ratio, best.ratio)? {
        Ordering::Less => Ok(Some(new)),
        Ordering::Equal | Ordering::Greater => Ok(Some(best)),
    }
}

// The best of the columns that were compared before, with column `k` compared too.
fn cheapest_with(
    tab: &Tableau,
    out: Outside,
    k: u32,
    best: Option<Cheapest>,
) -> Result<Option<Cheapest>, Past>
    requires place { out.position < tab.now.rows }
    requires column { k < all_columns tab.now }
    ensures { result ≡ dual.cheapest_with (Some number_limit) tab.now out.position out.direction k best }
{
    match column_way(tab, out, k) {
        None => Ok(best),
        Some(_) => {
            let ratio = div(abs(tab.reduced(k)), abs(tab.entry(out.position, k)))?;
            cheaper(Cheapest { ratio, col: k }, best)
        }
    }
}

// The column that enters, by the dual ratio test: the one with the least ratio of reduced cost to entry, in absolute
// values. None if no column may enter.
pub(crate) fn cheapest(tab: &Tableau, out: Outside) -> Result<Option<Cheapest>, Past>
    requires { out.position < tab.now.rows }
    ensures { result ≡ dual.cheapest_run (Some number_limit) tab.now out.position out.direction }
{
    let mut best = None;
    for k in 0..tab.width() {
        best = cheapest_with(tab, out, k, best)?;
    }
    Ok(best)
}
