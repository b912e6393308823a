// Which column enters: reduced costs, each over its column's entries alone.
ghost use Rattle.std.specs.Prelude.{◌≡◌, ◌<◌, ◌≤◌, ◌+◌, Some, All, IfSome, IfOk, length};
ghost use Rattle.spec_exact.specs.Narrow.{IsNarrow, number_limit};
ghost use Rattle.spec_simplex.specs.Tableau.{all_columns};
ghost use Rattle.spec_factor.specs.Revised.{price_run, way_run, entering_run};

use crate::costs::cost;
use crate::state::Revised;
use lp_form::{Form, is_basic};
use lp_frac::{Frac, Past, less_product, narrow, neg, one};
use lp_simplex::primal::{is_fixed, way};
use spec_pivot::Way;
use spec_simplex::Entering;

// The reduced cost of structural column `k` by the multipliers `y`: its cost plus each of its coefficients times that
// row's multiplier, as the form's equations have the coefficients negated.
fn price_structural(form: &Form, costs: &[Frac], y: &[Frac], k: u32) -> Result<Frac, Past>
    requires column { k < form.now.cols }
    requires all { length y.now ≡ form.now.rows }
    requires narrow { All IsNarrow y.now }
    ensures { result ≡ price_run (Some number_limit) form.now costs.now y.now k }
{
    let mut rest = narrow(cost(costs, k));
    for (row, value) in form.entries(k) {
        rest = narrow(less_product(y[*row as usize], neg(*value), rest)?);
    }
    Ok(rest)
}

// The reduced cost of logical column `k` by the multipliers `y`: its cost less its row's multiplier.
fn price_logical(form: &Form, costs: &[Frac], y: &[Frac], k: u32) -> Result<Frac, Past>
    requires logical { form.now.cols ≤ k }
    requires column { k < form.now.cols + form.now.rows }
    requires all { length y.now ≡ form.now.rows }
    requires narrow { All IsNarrow y.now }
    ensures { result ≡ price_run (Some number_limit) form.now costs.now y.now k }
{
    let rest = narrow(cost(costs, k));
    let less = narrow(less_product(y[(k - form.cols()) as usize], one(), rest)?);
    Ok(less)
}

// The reduced cost of column `k` by the multipliers `y`. That of an artificial is its cost alone: one that is nonbasic
// is fixed.
fn price(form: &Form, costs: &[Frac], y: &[Frac], k: u32) -> Result<Frac, Past>
    requires all { length y.now ≡ form.now.rows }
    requires narrow { All IsNarrow y.now }
    ensures { result ≡ price_run (Some number_limit) form.now costs.now y.now k }
{
    if k < form.cols() {
        price_structural(form, costs, y, k)
    } else if k - form.cols() < form.rows() {
        price_logical(form, costs, y, k)
    } else {
        Ok(narrow(cost(costs, k)))
    }
}

impl Revised {
    // The way in which column `k` moves when it enters, by its status and its reduced cost; none where it may not
    // enter, as a basic or fixed column.
    fn way(&self, form: &Form, costs: &[Frac], y: &[Frac], k: u32) -> Result<Option<Way>, Past>
        requires column { k < all_columns self.now.bare }
        requires all { length y.now ≡ form.now.rows }
        requires narrow { All IsNarrow y.now }
        ensures { result ≡ way_run (Some number_limit) form.now costs.now y.now self.now.bare k }
    {
        let status = self.status(k);
        if is_fixed(self.lower(k), self.upper(k)) || is_basic(status) {
            return Ok(None);
        }
        Ok(way(status, price(form, costs, y, k)?))
    }

    // The entering column by Bland's rule: the least one that may enter, with its way; none if no one may. Those behind
    // it are not priced.
    pub(crate) fn entering(
        &self,
        form: &Form,
        costs: &[Frac],
        y: &[Frac],
    ) -> Result<Option<Entering>, Past>
        requires all { length y.now ≡ form.now.rows }
        requires narrow { All IsNarrow y.now }
        ensures value { result ≡ entering_run (Some number_limit) form.now costs.now y.now self.now.bare }
        ensures inside { IfOk result (λ o. IfSome o (λ e. e.col < all_columns self.now.bare)) }
    {
        for col in 0..self.width() {
            if let Some(direction) = self.way(form, costs, y, col)? {
                return Ok(Some(Entering { col, direction }));
            }
        }
        Ok(None)
    }
}
