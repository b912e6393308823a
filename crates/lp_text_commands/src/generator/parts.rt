// The parts of a generated model, in the order in which they are drawn.
ghost use Rattle.std.specs.Prelude.{◌≡◌, ◌<◌, ◌≤◌, ◌++◌, IfOk, OnOk, decimal};
ghost use Rattle.spec_model.specs.Kept.{row_limit, column_limit};
ghost use Rattle.spec_commands.specs.Draws.{after};
ghost use Rattle.spec_commands.specs.Generated as generator;

use crate::generator::draws::Draws;
use lp_base::{Bytes, Name};
use lp_frac::{Entries, zero};
use lp_line::push_numbered;
use lp_model::{Column, Kind, Model, Row, Sense, UsualModel};
use std::alloc::{AllocError, Global};

// The name that is a letter and a number.
fn numbered(alloc: Global, letter: &[u8], number: u32) -> Result<Name, AllocError>
    ensures { IfOk result (λ name. name ≡ letter.now ++ decimal number) }
{
    let mut text = Bytes::new(alloc);
    push_numbered(alloc, letter, u64::from(number), &mut text)?;
    Name::from_slice(alloc, text.as_slice())
}

// Draws the entries of a column, in about one of three of so many rows. Each is a whole number from 1 to 9.
fn entries(alloc: Global, draws: &mut Draws, rows: u32) -> Result<Entries, AllocError>
    ensures entries { IfOk result (λ entries. entries ≡ generator.entries draws.old rows) }
    ensures state { OnOk result (draws.new ≡ generator.at_row draws.old rows) }
{
    let mut entries = Entries::new(alloc);
    for row in 0..rows {
        if draws.draw() % 3 == 0 {
            entries.push((row, draws.number_from(1, 9)))?;
        }
    }
    Ok(entries)
}

// Draws column j of a model of so many rows: its cost, its upper bound, and an entry in about one of three rows. Its
// lower bound is 0, and C1 is the name of the first column.
#[tactic(auto, unfolding(spec_commands::specs::Generated::generated_column, spec_commands::specs::Generated::column_name))]
fn column(alloc: Global, draws: &mut Draws, rows: u32, j: u32) -> Result<Column, AllocError>
    requires { j < column_limit }
    ensures column { IfOk result (λ column. column ≡ generator.generated_column rows j draws.old) }
    ensures state { OnOk result (draws.new ≡ generator.at_row (after 2 draws.old) rows) }
{
    let cost = draws.number_from(1, 9);
    let upper = draws.number_from(1, 20);
    let entries = entries(alloc, draws, rows)?;
    Ok(Column {
        name: numbered(alloc, b"C", j + 1)?,
        cost,
        lower: Some(zero()),
        upper: Some(upper),
        entries,
    })
}

// Draws so many columns, one after the other.
fn columns(
    alloc: Global,
    draws: &mut Draws,
    rows: u32,
    count: u32,
) -> Result<Vec<Column>, AllocError>
    requires { count ≤ column_limit }
    ensures columns { IfOk result (λ columns. columns.items ≡ generator.generated_columns draws.old rows count) }
    ensures state { OnOk result (draws.new ≡ generator.at_column rows draws.old count) }
{
    let mut columns = Vec::new(alloc);
    for j in 0..count {
        columns.push(column(alloc, draws, rows, j)?)?;
    }
    Ok(columns)
}

// Draws row `i`: its sum is at most the right side that is drawn, a whole number from 10 to 99. R1 is the name of the
// first row.
#[tactic(auto, unfolding(spec_commands::specs::Generated::generated_row, spec_commands::specs::Generated::row_name))]
fn row(alloc: Global, draws: &mut Draws, i: u32) -> Result<Row, AllocError>
    requires { i < row_limit }
    ensures row { IfOk result (λ row. row ≡ generator.generated_row i draws.old) }
    ensures state { OnOk result (draws.new ≡ after 1 draws.old) }
{
    Ok(Row {
        name: numbered(alloc, b"R", i + 1)?,
        kind: Kind::L,
        rhs: draws.number_from(10, 90),
        range: None,
    })
}

// Draws so many rows, one after the other.
fn rows(alloc: Global, draws: &mut Draws, count: u32) -> Result<Vec<Row>, AllocError>
    requires { count ≤ row_limit }
    ensures { IfOk result (λ rows. rows.items ≡ generator.generated_rows draws.old count) }
{
    let mut rows = Vec::new(alloc);
    for i in 0..count {
        rows.push(row(alloc, draws, i)?)?;
    }
    Ok(rows)
}

/// The model of this seed, with so many rows and columns. The point 0 is feasible, and each column has both bounds.
#[tactic(auto, unfolding(spec_commands::specs::Generated::generated))]
pub fn make(alloc: Global, seed: u32, rows: u32, columns: u32) -> Result<UsualModel, AllocError>
    requires rows { rows ≤ row_limit }
    requires columns { columns ≤ column_limit }
    ensures { IfOk result (λ model. model ≡ generator.generated seed rows columns) }
{
    let mut draws = Draws::new(seed);
    let columns = self::columns(alloc, &mut draws, rows, columns)?;
    let rows = self::rows(alloc, &mut draws, rows)?;
    Ok(UsualModel::new(Model::new(
        Name::from_slice(alloc, b"gen")?,
        Sense::Max,
        Name::from_slice(alloc, b"cost")?,
        zero(),
        rows,
        columns,
    )))
}
