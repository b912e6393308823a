// A copy of a model.
ghost use Rattle.std.specs.Prelude.{◌≡◌, IfOk};
ghost use Rattle.spec_model.specs.Kept.{IsModel};

use lp_frac::Entries;
use lp_model::{Column, Model, Row};
use std::alloc::{AllocError, Global};

// A copy of the row.
fn copied_row(alloc: Global, row: &Row) -> Result<Row, AllocError>
    ensures { IfOk result (λ copy. copy ≡ row.now) }
{
    Ok(Row {
        name: row.name.copy(alloc)?,
        kind: row.kind,
        rhs: row.rhs,
        range: row.range,
    })
}

// A copy of the column.
fn copied_column(alloc: Global, column: &Column) -> Result<Column, AllocError>
    ensures { IfOk result (λ copy. copy ≡ column.now) }
{
    Ok(Column {
        name: column.name.copy(alloc)?,
        cost: column.cost,
        lower: column.lower,
        upper: column.upper,
        entries: Entries::from_slice(alloc, column.entries.as_slice())?,
    })
}

// A list with a copy of each row of the model.
fn copied_rows(alloc: Global, model: &Model) -> Result<Vec<Row>, AllocError>
    ensures { IfOk result (λ rows. rows.items ≡ model.now.rows) }
{
    let mut rows = Vec::new(alloc);
    for i in 0..model.rows() {
        rows.push(copied_row(alloc, model.row(i))?)?;
    }
    Ok(rows)
}

// A list with a copy of each column of the model.
fn copied_columns(alloc: Global, model: &Model) -> Result<Vec<Column>, AllocError>
    ensures { IfOk result (λ columns. columns.items ≡ model.now.columns) }
{
    let mut columns = Vec::new(alloc);
    for j in 0..model.cols() {
        columns.push(copied_column(alloc, model.col(j))?)?;
    }
    Ok(columns)
}

/// A copy of the model, to be made smaller.
pub(crate) fn copied(alloc: Global, model: &Model) -> Result<Model, AllocError>
    requires { IsModel model.now }
    ensures { IfOk result (λ copy. copy ≡ model.now) }
{
    let name = model.name().copy(alloc)?;
    let objective = model.objective().copy(alloc)?;
    let rows = copied_rows(alloc, model)?;
    let columns = copied_columns(alloc, model)?;
    Ok(Model::new(
        name,
        model.sense(),
        objective,
        model.offset(),
        rows,
        columns,
    ))
}
