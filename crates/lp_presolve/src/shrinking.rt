// The model without the row or column that goes.
ghost use Rattle.std.specs.Prelude.{◌≡◌, ◌<◌, Some, Ok, Err, OnOk, IfErr};
ghost use Rattle.spec_exact.specs.Narrow.{number_limit};
ghost use Rattle.spec_model.specs.Model.{width, height, bounds};
ghost use Rattle.spec_edit.specs.Changes as changes;
ghost use Rattle.spec_presolve.specs.declared.reduction.Choice.TheVariants.{Reduce};
ghost use Rattle.spec_presolve.specs.declared.reduction.Reduction.TheVariants.{Fixed};
ghost use Rattle.spec_presolve.specs.Choose.{chosen};
ghost use Rattle.spec_presolve.specs.Reduce as reduce;
ghost use Rattle.spec_model.specs.Kept.{IsBound, IsModel};

use crate::choosing::Reduction;
use lp_frac::{Frac, Past, less_product, plus_product};
use lp_model::Model;

// The new bound if there is one, or else the old one.
fn or_old(bound: Option<Frac>, old: Option<Frac>) -> Option<Frac>
    ensures { result ≡ reduce.or_old bound old }
{
    match bound {
        Some(bound) => Some(bound),
        None => old,
    }
}

// Gives column `j` the new bounds that there are, and removes row `i`.
fn without_single(model: &mut Model, i: u32, j: u32, lower: Option<Frac>, upper: Option<Frac>)
    requires kept { IsModel model.old }
    requires i_in_range { i < height model.old }
    requires j_in_range { j < width model.old }
    requires lower { IsBound lower }
    requires upper { IsBound upper }
    ensures { model.new ≡ changes.without_row
        (changes.with_bounds model.old j (reduce.tightened (bounds model.old j) lower upper)) i }
{
    let column = model.col(j);
    let lower = or_old(lower, column.lower);
    let upper = or_old(upper, column.upper);
    model.set_bounds(j, lower, upper);
    model.remove_row(i);
}

// Subtracts from each right side what column `j` adds to its row at `value`. After a refusal some may be changed.
fn shift(model: &mut Model, j: u32, value: Frac) -> Result<(), Past>
    requires { j < width model.old }
    ensures ok { OnOk result (reduce.shifted (Some number_limit) model.old j value ≡ Ok model.new) }
    ensures err { IfErr result (λ p. reduce.shifted (Some number_limit) model.old j value ≡ Err p) }
{
    for i in 0..model.rows() {
        let rhs = less_product(model.entry(i, j), value, model.row(i).rhs)?;
        model.set_rhs(i, rhs);
    }
    Ok(())
}

// Removes column `j`, which is at `value`: right sides are less by what it adds to their rows, and the offset is more
// by its cost times `value`. Refused where a number is past 127 bits; then nothing is said of the model.
fn without_fixed(model: &mut Model, j: u32, value: Frac) -> Result<(), Past>
    requires { j < width model.old }
    ensures ok { OnOk result (reduce.after (Some number_limit) model.old (Fixed j value) ≡ Ok model.new) }
    ensures err { IfErr result (λ p. reduce.after (Some number_limit) model.old (Fixed j value) ≡ Err p) }
{
    let cost = model.col(j).cost;
    let old = model.offset();
    shift(model, j, value)?;
    let offset = plus_product(cost, value, old)?;
    model.set_offset(offset);
    model.remove_col(j);
    Ok(())
}

/// Makes the model smaller by the reduction that was chosen for it. Refused where a number is past 127 bits; then
/// nothing is said of the model.
pub(crate) fn shrink(model: &mut Model, reduction: &Reduction) -> Result<(), Past>
    requires kept { IsModel model.old }
    requires chosen { chosen (Some number_limit) model.old ≡ Ok (Reduce reduction.now) }
    ensures ok { OnOk result (reduce.after (Some number_limit) model.old reduction.now ≡ Ok model.new) }
    ensures err { IfErr result (λ p. reduce.after (Some number_limit) model.old reduction.now ≡ Err p) }
{
    match reduction {
        Reduction::Empty { row } => {
            model.remove_row(*row);
            Ok(())
        }
        Reduction::Single {
            row,
            column,
            lower,
            upper,
            ..
        } => {
            without_single(model, *row, *column, *lower, *upper);
            Ok(())
        }
        Reduction::Fixed { column, value } => without_fixed(model, *column, *value),
    }
}
