// Edits that are applied.
ghost use Rattle.std.specs.Prelude.{◌≡◌, ◌<◌, true, false, IfOk};
ghost use Rattle.spec_model.specs.Model.{width, height};
ghost use Rattle.spec_edit.specs.Changes as changes;
ghost use Rattle.spec_edit.specs.Edited as edited;
ghost use Rattle.lp_model.specs.Answer.{Applies, Leaves};
ghost use Rattle.lp_model.specs.Named.{at_row, at_column, at_entry};

use crate::column::entries_of;
use crate::edit::{ColumnBounds, Edit, EditError, EditFault, Pairs};
use crate::limits::is_free;
use crate::model::{Column, Model, Row};
use crate::names::{is_name, is_row_name};
use crate::usual::UsualModel;
use lp_base::{Name, are_same};
use lp_frac::{Frac, neg, zero};
use spec_edit::Which;
use spec_model::Kind;
use std::alloc::Global;

/// The most rows that a usual model may have.
const MAX_ROWS: u32 = 256;

/// The most columns that a usual model may have.
const MAX_COLUMNS: u32 = 512;

// The number of the row with this name; a fault if no row has it.
fn row_named(model: &Model, name: Name) -> Result<u32, EditFault>
    ensures value { result ≡ edited.row_named model.now name }
    ensures inside { IfOk result (λ i. i < height model.now) }
{
    match model.row_of(name.as_slice()) {
        Some(i) => Ok(i),
        None => Err(EditFault::UnknownName(name)),
    }
}

// The number of the column with this name; a fault if no column has it.
fn column_named(model: &Model, name: Name) -> Result<u32, EditFault>
    ensures value { result ≡ edited.column_named model.now name }
    ensures inside { IfOk result (λ j. j < width model.now) }
{
    match model.col_of(name.as_slice()) {
        Some(j) => Ok(j),
        None => Err(EditFault::UnknownName(name)),
    }
}

// Whether a row or the objective has this name.
fn is_row_taken(model: &Model, name: &[u8]) -> bool
    ensures { result ≡ edited.is_row_taken model.now name.now }
{
    are_same(model.objective().as_slice(), name) || model.row_of(name).is_some()
}

// Whether a row of this kind and range would be a free row with a range, which there may not be.
fn is_ranged_free(kind: Kind, range: &Option<Frac>) -> bool
    ensures { result ≡ edited.is_ranged_free kind range.now }
{
    range.is_some() && is_free(kind)
}

// Adds a row at the end. A bad name, one that is taken, one row too many, or a range of a free row is a fault. A fault
// or a lack of memory leaves the model as it was.
#[tactic(auto, unfolding(spec_edit::specs::Edited::new_row))]
fn add_row(model: &mut Model, row: Row) -> Result<(), EditError>
    ensures { Leaves (edited.new_row model.old row) true model.old model.new result }
{
    if !is_row_name(row.name.as_slice()) {
        return Err(EditError::Fault(EditFault::BadName));
    }
    if is_row_taken(model, row.name.as_slice()) {
        return Err(EditError::Fault(EditFault::Taken(row.name)));
    }
    if model.rows() >= MAX_ROWS {
        return Err(EditError::Fault(EditFault::Limit(Which::Rows, MAX_ROWS)));
    }
    if is_ranged_free(row.kind, &row.range) {
        return Err(EditError::Fault(EditFault::FreeRow(row.name)));
    }
    model.push_row(row)?;
    Ok(())
}

// Takes the row with this name out, with its coefficients. A name that no row has is a fault.
fn delete_row(model: &mut Model, name: Name) -> Result<(), EditError>
    ensures { Leaves (at_row model.old name (changes.without_row model.old)) false model.old model.new result }
{
    let i = row_named(model, name)?;
    model.remove_row(i);
    Ok(())
}

// Adds a column at the end with lower bound 0 and no upper bound. A fault: a bad name, one that is taken, one column
// too many, or a pair whose name no row has, or an earlier pair has too. A fault or a lack of memory leaves the model.
#[tactic(auto, unfolding(spec_edit::specs::Edited::new_column))]
fn add_column(
    alloc: Global,
    model: &mut Model,
    name: Name,
    cost: Frac,
    pairs: &mut Pairs,
) -> Result<(), EditError>
    ensures { Leaves (edited.new_column model.old name cost pairs.old) true model.old model.new result }
{
    if !is_name(name.as_slice()) {
        return Err(EditError::Fault(EditFault::BadName));
    }
    if model.col_of(name.as_slice()).is_some() {
        return Err(EditError::Fault(EditFault::Taken(name)));
    }
    if model.cols() >= MAX_COLUMNS {
        return Err(EditError::Fault(EditFault::Limit(Which::Columns, MAX_COLUMNS)));
    }
    let entries = entries_of(alloc, model, pairs)?;
    model.push_col(Column {
        name,
        cost,
        lower: Some(zero()),
        upper: None,
        entries,
    })?;
    Ok(())
}

// Takes the column with this name out. A name that no column has is a fault.
fn delete_column(model: &mut Model, name: Name) -> Result<(), EditError>
    ensures { Leaves (at_column model.old name (changes.without_column model.old)) false model.old model.new result }
{
    let j = column_named(model, name)?;
    model.remove_col(j);
    Ok(())
}

// Gives the column with this name this cost. A name that no column has is a fault.
fn set_cost(model: &mut Model, name: Name, value: Frac) -> Result<(), EditError>
    ensures { Leaves (at_column model.old name (λ j. changes.with_cost model.old j value))
        false model.old model.new result }
{
    let j = column_named(model, name)?;
    model.set_cost(j, value);
    Ok(())
}

// Gives the column `column` this coefficient in row `row`; 0 takes the entry out. A name that no row or no column has
// is a fault. A fault or a lack of memory leaves the model as it was.
fn set_coefficient(model: &mut Model, row: Name, column: Name, value: Frac) -> Result<(), EditError>
    ensures { Leaves (at_entry model.old row column (λ i j. changes.with_coefficient model.old i j value))
        true model.old model.new result }
{
    let i = row_named(model, row)?;
    let j = column_named(model, column)?;
    model.set_entry(i, j, value)?;
    Ok(())
}

// Gives the row with this name this right side. For the objective's name the offset becomes the negative of it. A name
// that is neither the objective's nor a row's is a fault.
#[tactic(auto, unfolding(spec_edit::specs::Edited::with_right_side))]
fn set_right_side(model: &mut Model, name: Name, value: Frac) -> Result<(), EditError>
    ensures { Leaves (edited.with_right_side model.old name value) false model.old model.new result }
{
    if are_same(model.objective().as_slice(), name.as_slice()) {
        model.set_offset(neg(value));
        return Ok(());
    }
    let i = row_named(model, name)?;
    model.set_rhs(i, value);
    Ok(())
}

// Gives the row with this name this range, or takes its range away. A name that no row has is a fault, and so is a
// range for a free row.
#[tactic(auto, unfolding(spec_edit::specs::Edited::with_new_range))]
fn set_range(model: &mut Model, name: Name, range: Option<Frac>) -> Result<(), EditError>
    ensures { Leaves (edited.with_new_range model.old name range) false model.old model.new result }
{
    let Some(i) = model.row_of(name.as_slice()) else {
        return Err(EditError::Fault(EditFault::UnknownName(name)));
    };
    if is_ranged_free(model.row(i).kind, &range) {
        return Err(EditError::Fault(EditFault::FreeRow(name)));
    }
    model.set_range(i, range);
    Ok(())
}

// Gives the column with this name these bounds, each of which may be absent. A name that no column has is a fault.
fn set_bounds(model: &mut Model, name: Name, bounds: ColumnBounds) -> Result<(), EditError>
    ensures { Leaves (at_column model.old name (λ j. changes.with_bounds model.old j bounds))
        false model.old model.new result }
{
    let j = column_named(model, name)?;
    model.set_bounds(j, bounds.lower(), bounds.upper());
    Ok(())
}

// Applies an edit to a model. One that is refused, or for which there is no memory, leaves the model as it was.
#[tactic(auto, unfolding(spec_edit::specs::Edited::edited))]
fn change(alloc: Global, model: &mut Model, edit: Edit) -> Result<(), EditError>
    ensures { Applies model.old edit model.new result }
{
    match edit {
        Edit::AddRow {
            name,
            kind,
            rhs,
            range,
        } => add_row(
            model,
            Row {
                name,
                kind,
                rhs,
                range,
            },
        ),
        Edit::DelRow(name) => delete_row(model, name),
        Edit::AddCol {
            name,
            cost,
            mut pairs,
        } => add_column(alloc, model, name, cost, &mut pairs),
        Edit::DelCol(name) => delete_column(model, name),
        Edit::SetCost(name, value) => set_cost(model, name, value),
        Edit::SetCoef { row, column, value } => set_coefficient(model, row, column, value),
        Edit::SetRhs(name, value) => set_right_side(model, name, value),
        Edit::SetRange(name, range) => set_range(model, name, range),
        Edit::SetBound { column, bounds } => set_bounds(model, column, bounds),
        Edit::SetSense(sense) => {
            model.set_sense(sense);
            Ok(())
        }
    }
}

/// Applies an edit. One that is refused leaves the model as it was, and so does one for which there is no memory.
pub fn apply(alloc: Global, model: &mut UsualModel, edit: Edit) -> Result<(), EditError>
    ensures { Applies model.old edit model.new result }
{
    change(alloc, &mut model.model, edit)
}
