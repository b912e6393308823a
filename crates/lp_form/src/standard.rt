// The form of a model.
ghost use Rattle.std.specs.Prelude.{◌≡◌, [], ◌∷◌, ◌++◌, map, replicate, All, IfOk, IfErr, OnOk, Ok, Some, length};
ghost use Rattle.spec_exact.specs.Fraction.{0ℚ};
ghost use Rattle.spec_model.specs.Model.{width, height, row};
ghost use Rattle.spec_model.specs.Kept.{AreEntries, IsUsual, large_limits};
ghost use Rattle.spec_exact.specs.Run.{list_run, steps};
ghost use Rattle.spec_exact.specs.Narrow.{number_limit};
ghost use Rattle.spec_simplex.specs.Form as forms;
ghost use Rattle.lp_form.specs.Answer.{IsFaultOf, IsStopOf};
ghost use Rattle.lp_form.specs.Bounds.{AreBounds};

use crate::fault::{FormStop, stop_of};
use crate::forms::Form;
use crate::large::LargeForm;
use crate::lists::{BoundList, Columns};
use crate::row_limits::{clash, limits};
use lp_frac::{Entries, Frac, Fracs, neg, zero};
use lp_model::{Model, Sense};
use std::alloc::{AllocError, Global};

type FormFault = spec_simplex::FormFault<Frac>;

// Adds `least` at the end of the lower bounds, and `most` at the end of the upper ones.
fn push_bounds(
    lower: &mut BoundList,
    upper: &mut BoundList,
    least: Option<Frac>,
    most: Option<Frac>,
) -> Result<(), AllocError>
    ensures lower { OnOk result (lower.new ≡ lower.old ++ least ∷ []) }
    ensures upper { OnOk result (upper.new ≡ upper.old ++ most ∷ []) }
{
    lower.push(least)?;
    upper.push(most)?;
    Ok(())
}

// Fills both empty lists with the bounds of all columns and then the limits of all rows. The first limit that is past
// 127 bits is the fault, or memory that is refused before.
fn fill_bounds(model: &Model, lower: &mut BoundList, upper: &mut BoundList) -> Result<(), FormStop>
    requires lower { lower.old ≡ [] }
    requires upper { upper.old ≡ [] }
    ensures ok { OnOk result (AreBounds model.now (height model.now) lower.new upper.new) }
    ensures err { IfErr result
        (IsStopOf (list_run (height model.now) (λ i. forms.limits_run (Some number_limit) (row model.now i)))) }
{
    for j in 0..model.cols() {
        let column = model.col(j);
        push_bounds(lower, upper, column.lower, column.upper)?;
    }
    for i in 0..model.rows() {
        let (least, most) = limits(model.row(i))?;
        push_bounds(lower, upper, least, most)?;
    }
    Ok(())
}

// The fault of the first column whose bounds clash, or whose bounds can't be compared in 127 bits; `Ok` if there is
// none.
fn first_clash(model: &Model) -> Result<(), FormFault>
    ensures { result ≡ steps (width model.now) (λ j _. forms.column_clash (Some number_limit) model.now j) tt }
{
    for j in 0..model.cols() {
        let column = model.col(j);
        clash(j, column.lower, column.upper)?;
    }
    Ok(())
}

// The entries of all structural columns, copied from the model.
fn entries(alloc: Global, model: &Model) -> Result<Columns, AllocError>
    ensures value { IfOk result (λ v. v ≡ map (λ c. c.entries) model.now.columns) }
    ensures kept { IfOk result (λ v. All (AreEntries (height model.now)) v) }
{
    let mut entries = Columns::new(alloc);
    for j in 0..model.cols() {
        let column = Vec::from_slice(alloc, model.entries(j))?;
        entries.push(Entries::from_vec(column))?;
    }
    Ok(entries)
}

/// The cost where the objective is made least: its negative for `max`.
pub fn least_cost(sense: Sense, cost: Frac) -> Frac
    ensures { result ≡ forms.least_cost sense cost }
{
    match sense {
        Sense::Min => cost,
        Sense::Max => neg(cost),
    }
}

// The costs of all structural columns, for an objective to be made least, and 0 for each logical column.
fn costs(alloc: Global, model: &Model) -> Result<Fracs, AllocError>
    ensures { IfOk result (λ v.
        v ≡ map (λ c. forms.least_cost model.now.sense c.cost) model.now.columns ++ replicate (height model.now) 0ℚ) }
{
    let mut costs = Fracs::new(alloc);
    for j in 0..model.cols() {
        costs.push(least_cost(model.sense(), model.col(j).cost))?;
    }
    for _ in 0..model.rows() {
        costs.push(zero())?;
    }
    Ok(costs)
}

/// The form of the model: its columns, and a logical column for each row. The limits of the rows are
/// taken first, in order, then the bounds of the columns are compared, in order; the first refused
/// operation, the first clash, or memory that is refused, is why there is none.
pub fn large_form(alloc: Global, model: &Model) -> Result<LargeForm, FormStop>
    ensures ok { IfOk result (λ f. forms.form_of (Some number_limit) model.now ≡ Ok f) }
    ensures kept { IfOk result (λ f. forms.IsFormWithin large_limits f) }
    ensures err { IfErr result (IsFaultOf (forms.form_of (Some number_limit) model.now)) }
{
    let mut lower = BoundList::new(alloc);
    let mut upper = BoundList::new(alloc);
    fill_bounds(model, &mut lower, &mut upper)?;
    if let Err(fault) = first_clash(model) {
        return Err(stop_of(fault));
    }
    let entries = entries(alloc, model)?;
    let cost = costs(alloc, model)?;
    Ok(LargeForm::new(model.rows(), model.cols(), entries, lower, upper, cost))
}

/// The form of a usual model, of which tableaus can be made; or why it has none: a refused operation, a clash, or
/// memory that is refused.
pub fn form(alloc: Global, model: &Model) -> Result<Form, FormStop>
    requires { IsUsual model.now }
    ensures ok { IfOk result (λ f. forms.form_of (Some number_limit) model.now ≡ Ok f) }
    ensures err { IfErr result (IsFaultOf (forms.form_of (Some number_limit) model.now)) }
{
    let form = large_form(alloc, model)?;
    Ok(Form::new(form))
}
