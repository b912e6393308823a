// Which basic column is outside its bounds.
ghost use Rattle.std.specs.Prelude.{◌≡◌, ◌<◌, Some};
ghost use Rattle.spec_exact.specs.Narrow.{number_limit};
ghost use Rattle.spec_simplex.specs.Tableau.{all_columns};
ghost use Rattle.spec_simplex.specs.Fit as fit;

use lp_form::is_basic;
use lp_frac::{Frac, Past, cmp};
use lp_tableau::Tableau;
use spec_pivot::Way;
use spec_simplex::Leaving;

// Whether `v` is below the bound; false where there is none.
fn below_lower(bound: Option<Frac>, v: Frac) -> Result<bool, Past>
    ensures { result ≡ fit.below_lower (Some number_limit) bound v }
{
    match bound {
        None => Ok(false),
        Some(l) => Ok(cmp(v, l)?.is_lt()),
    }
}

// Whether `v` is above the bound; false where there is none.
fn above_upper(bound: Option<Frac>, v: Frac) -> Result<bool, Past>
    ensures { result ≡ fit.above_upper (Some number_limit) bound v }
{
    match bound {
        None => Ok(false),
        Some(u) => Ok(cmp(v, u)?.is_gt()),
    }
}

// The way in which `v` comes back inside its bounds: up if it is below the lower one, down if it is above the upper
// one. None if it is inside.
fn outside(lower: Option<Frac>, upper: Option<Frac>, v: Frac) -> Result<Option<Way>, Past>
    ensures { result ≡ fit.outside_run (Some number_limit) lower upper v }
{
    if below_lower(lower, v)? {
        return Ok(Some(Way::Up));
    }
    if above_upper(upper, v)? {
        return Ok(Some(Way::Down));
    }
    Ok(None)
}

// Column `col` as the one that leaves, if its value is outside its bounds; else none.
fn leaving_at(tab: &Tableau, col: u32) -> Result<Option<Leaving>, Past>
    requires { col < all_columns tab.now }
    ensures { result ≡ fit.leaving_at (Some number_limit) tab.now col }
{
    match outside(tab.lower(col), tab.upper(col), tab.value(col))? {
        Some(direction) => Ok(Some(Leaving { col, direction })),
        None => Ok(None),
    }
}

// The first basic column outside its bounds up to column `col`, where `first` is that of the columns before; none if
// there is none. Nothing is compared after the first.
fn leaving_with(tab: &Tableau, col: u32, first: Option<Leaving>) -> Result<Option<Leaving>, Past>
    requires { col < all_columns tab.now }
    ensures { result ≡ fit.leaving_with (Some number_limit) tab.now col first }
{
    if let Some(first) = first {
        return Ok(Some(first));
    }
    if is_basic(tab.status(col)) {
        leaving_at(tab, col)
    } else {
        Ok(None)
    }
}

// The first basic column that is outside its bounds; none if each is within them.
pub(crate) fn leaving(tab: &Tableau) -> Result<Option<Leaving>, Past>
    ensures { result ≡ fit.leaving_run (Some number_limit) tab.now }
{
    let mut first = None;
    for col in 0..tab.width() {
        first = leaving_with(tab, col, first)?;
    }
    Ok(first)
}
