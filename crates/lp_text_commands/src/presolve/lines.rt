// Which model a solve by a smaller one solved, as it is written.
ghost use Rattle.std.specs.Prelude.{◌≡◌, ◌++◌, OnOk};
ghost use Rattle.spec_presolve.specs.declared.presolved.Way.TheVariants as ways;
ghost use Rattle.spec_commands.specs.PresolveOut as out;

use crate::solve::print_past;
use lp_base::Bytes;
use lp_presolve::{Way, Why};
use std::alloc::{AllocError, Global};

/// Writes how small the model was made, or why it was solved as it is.
pub(crate) fn print_way(alloc: Global, way: &Way, to: &mut Bytes) -> Result<(), AllocError>
    ensures { OnOk result (to.new ≡ to.old ++ out.way_line way.now) }
{
    match way {
        Way::Reduced { rows, columns } => print_reduced(alloc, *rows, *columns, to),
        Way::Plain(why) => {
            to.extend(b"PLAIN ")?;
            print_why(alloc, why, to)
        }
    }
}

// Appends the line `REDUCED` with how many rows and columns the smaller model has.
fn print_reduced(alloc: Global, rows: u32, columns: u32, to: &mut Bytes) -> Result<(), AllocError>
    ensures { OnOk result (to.new ≡ to.old ++ out.way_line (ways.Reduced rows columns)) }
{
    let line = format!(in alloc; "REDUCED {rows} {columns}\n")?;
    to.extend(line.as_bytes())
}

// Writes why the model was solved as it is: an operation past 127 bits on the way by the smaller one, or its budget was
// spent.
fn print_why(alloc: Global, why: &Why, to: &mut Bytes) -> Result<(), AllocError>
    ensures { OnOk result (to.new ≡ to.old ++ out.why_line why.now) }
{
    match why {
        Why::Past(past) => print_past(alloc, *past, to),
        Why::Spent => to.extend(b"SPENT\n"),
    }
}
