// The ranges of costs and right sides from one basis.
ghost use Rattle.std.specs.Prelude.{◌≡◌, ◌<◌, List, IfOk, Ok, Some};
ghost use Rattle.spec_exact.specs.Fraction.{ℚ};
ghost use Rattle.spec_exact.specs.Narrow.{number_limit};
ghost use Rattle.spec_exact.specs.Run.{refused_as};
ghost use Rattle.spec_model.specs.Model.{width, height, row, cost as cost_of};
ghost use Rattle.spec_model.specs.Truth.{IsOptimal};
ghost use Rattle.spec_edit.specs.Changes.{with_cost, with_rhs};
ghost use Rattle.spec_pivot.specs.declared.status.Status.{Status as exact_status};
ghost use Rattle.spec_simplex.specs.declared.ends.StartStop.TheVariants as stops;
ghost use Rattle.spec_simplex.specs.Form.{Form as exact_form};
ghost use Rattle.spec_range.specs.Rule as rule;
ghost use Rattle.spec_range.specs.Span.{IsRange};
ghost use Rattle.lp_range.specs.Answer.{IsSeated, IsKept, IsStart, IsFrom};

use crate::carried::side_ends;
use crate::columns::logical;
use crate::ends::Range;
use crate::moved::cost_ends;
use lp_form::{Basis, Form, least_cost};
use lp_frac::{Past, Stop};
use lp_model::Model;
use lp_tableau::{Tableau, start_from};
use std::alloc::{AllocError, Global};

/// A basis that the numbers of a model are ranged from. Its tableau is made once, and each range is read off that.
#[derive(Drop)]
pub struct Ranging {
    // The tableau, or the operation that its elimination was refused.
    start: Result<Tableau, Past>,
}

impl std::marker::Model for Ranging {
    ghost use Rattle.lp_range.specs.Answer.{Start};

    ghost Value = { Start };

    ghost view = { λ ranging. ranging.start };
}

// The range of the cost of column `col`, read off the tableau of the basis. Its slope is the column's value. Refused
// where a number is past 127 bits.
#[tactic(auto, unfolding(spec_range::specs::Rule::cost_run))]
fn cost_at(tab: &Tableau, model: &Model, col: u32) -> Result<Range, Past>
    requires column { col < width model.now }
    requires wide { tab.now.cols ≡ width model.now }
    requires seated { IsSeated tab.now }
    ensures { result ≡ rule.cost_run (Some number_limit) model.now tab.now col }
{
    let ends = cost_ends(tab, model.sense(), model.col(col).cost, col)?;
    Ok(Range {
        ends,
        slope: tab.value(col),
    })
}

// The range of the right side of row `row`, read off the tableau of the basis. Its slope is the reduced cost of the
// row's logical, negated for `max`. Refused where a number is past 127 bits.
#[tactic(auto, unfolding(spec_range::specs::Rule::side_run))]
fn side_at(tab: &Tableau, model: &Model, row: u32) -> Result<Range, Past>
    requires row { row < height model.now }
    requires high { tab.now.rows ≡ height model.now }
    requires seated { IsSeated tab.now }
    ensures { result ≡ rule.side_run (Some number_limit) model.now tab.now row }
{
    let logical = logical(tab, row);
    let ends = side_ends(tab, model.row(row).rhs, logical)?;
    Ok(Range {
        ends,
        slope: least_cost(model.sense(), tab.reduced(logical)),
    })
}

impl Ranging {
    /// Starts from a basis that keeps the model of the form optimal: makes its tableau, or notes the operation that was
    /// refused in that. Memory may run out.
    pub fn new(alloc: Global, form: &Form, basis: &Basis) -> Result<Ranging, AllocError>
        requires { IsKept form.now basis.now }
        ensures { IfOk result (IsStart form.now basis.now) }
    {
        match start_from(alloc, form, basis) {
            Ok(tab) => Ok(Ranging { start: Ok(tab) }),
            Err(Stop::Past(past)) => Ok(Ranging { start: Err(past) }),
            Err(Stop::NoMemory) => Err(AllocError),
            Err(Stop::Cause(_)) => unreachable!(),
        }
    }

    /// The range of the cost of column `col` of a model that the basis keeps: exactly the costs with which it keeps the
    /// model. With each of them the optimal value is the present one, and the slope times what the cost is above the
    /// present one. Refused where an operation in making the tableau or in finding the ends is past 127 bits.
    pub fn cost(&self, model: &Model, col: u32) -> Result<Range, Past>
        requires column { col < width model.now }
        requires from { (f : exact_form) × (basis : List exact_status) × IsFrom model.now f basis self.now }
        ensures value { (f : exact_form) (basis : List exact_status) → IsFrom model.now f basis self.now →
            rule.cost_range (Some number_limit) model.now f basis col ≡ refused_as stops.Past result }
        ensures range { IfOk result (λ r. (f : exact_form) (basis : List exact_status) → IsFrom model.now f basis self.now →
            (v : ℚ) → IsOptimal model.now v → IsRange (with_cost model.now col) basis (cost_of model.now col) v r) }
    {
        match &self.start {
            Ok(tab) => cost_at(tab, model, col),
            Err(past) => Err(*past),
        }
    }

    /// The range of the right side of row `at` of a model that the basis keeps: exactly the right sides with which it
    /// keeps the model. The slope is what the optimal value grows by for each unit. Refused where an operation in
    /// making the tableau or in finding the ends is past 127 bits.
    pub fn side(&self, model: &Model, at: u32) -> Result<Range, Past>
        requires row { at < height model.now }
        requires from { (f : exact_form) × (basis : List exact_status) × IsFrom model.now f basis self.now }
        ensures value { (f : exact_form) (basis : List exact_status) → IsFrom model.now f basis self.now →
            rule.side_range (Some number_limit) model.now f basis at ≡ refused_as stops.Past result }
        ensures range { IfOk result (λ r. (f : exact_form) (basis : List exact_status) → IsFrom model.now f basis self.now →
            (v : ℚ) → IsOptimal model.now v → IsRange (with_rhs model.now at) basis (row model.now at).rhs v r) }
    {
        match &self.start {
            Ok(tab) => side_at(tab, model, at),
            Err(past) => Err(*past),
        }
    }
}
