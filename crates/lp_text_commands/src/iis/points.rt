// Points, by their parts that are not 0.
ghost use Rattle.std.specs.Prelude.{◌≡◌, ◌<◌, ◌+◌, ◌^◌, ◌++◌, ◌∷◌, [], All, OnOk, codes, decimal, length};
ghost use Rattle.spec_model.specs.Model.{column, width};
ghost use Rattle.spec_check.specs.declared.certificate.Letter.TheVariants as letter;
ghost use Rattle.spec_certificate.specs.TextWritten as written;
ghost use Rattle.spec_server.specs.Output.{ended_lines};
ghost use Rattle.spec_commands.specs.IisOut.{point_lines};

use crate::words::print_named;
use lp_base::Bytes;
use lp_check::part;
use lp_frac::{Frac, Fracs, is_zero};
use lp_iis::Points;
use lp_line::push_numbered;
use lp_model::Model;
use lp_numtext::write;
use std::alloc::{AllocError, Global};

// Appends the line of a column's value in a point: `x`, the column's name and the value.
fn print_text(alloc: Global, name: &[u8], value: Frac, to: &mut Bytes) -> Result<(), AllocError>
    ensures { OnOk result (to.new ≡ to.old ++ (written.part_text letter.X name.now value ++ 10 ∷ [])) }
{
    print_named(b"x ", name, to)?;
    write(alloc, value, to)?;
    to.push(b'\n')
}

// Appends the line of one value of a point, unless the value is 0.
fn print_part(alloc: Global, name: &[u8], value: Frac, to: &mut Bytes) -> Result<(), AllocError>
    ensures { OnOk result (to.new ≡ to.old ++ ended_lines (written.part_lines letter.X name.now value)) }
{
    if is_zero(value) {
        return Ok(());
    }
    print_text(alloc, name, value, to)
}

// The name of column j.
fn name_at(model: &Model, j: u32) -> &[u8]
    requires { j < width model.now }
    ensures { result.now ≡ (column model.now j).name }
{
    model.col(j).name.as_slice()
}

// Writes a line for each column whose value in the point is not 0.
fn print_parts(
    alloc: Global,
    model: &Model,
    point: &Fracs,
    to: &mut Bytes,
) -> Result<(), AllocError>
    requires { length point.now ≡ width model.now }
    ensures { OnOk result (to.new ≡ to.old ++ ended_lines (written.column_lines model.now letter.X point.now)) }
{
    for j in 0..model.cols() {
        print_part(alloc, name_at(model, j), part(point, j), to)?;
    }
    Ok(())
}

// Appends a point: the line with its number, and a line for each value that is not 0.
fn print_point(
    alloc: Global,
    model: &Model,
    number: u64,
    point: &Fracs,
    to: &mut Bytes,
) -> Result<(), AllocError>
    requires { length point.now ≡ width model.now }
    ensures { OnOk result (to.new ≡ to.old ++ ended_lines ((codes "POINT " ++ decimal number)
        ∷ written.column_lines model.now letter.X point.now)) }
{
    push_numbered(alloc, b"POINT ", number, to)?;
    to.push(b'\n')?;
    print_parts(alloc, model, point, to)
}

/// Writes the points in their order.
pub(crate) fn print_points(
    alloc: Global,
    model: &Model,
    points: &Points,
    to: &mut Bytes,
) -> Result<(), AllocError>
    requires { All (λ z. length z ≡ width model.now) points.now }
    ensures { OnOk result (to.new ≡ to.old ++ ended_lines (point_lines model.now 0 points.now)) }
{
    for k in 0..points.len() {
        print_point(alloc, model, k as u64 + 1, points.get(k), to)?;
    }
    Ok(())
}
