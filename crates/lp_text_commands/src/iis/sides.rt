// Single limits and bounds, a line each.
ghost use Rattle.std.specs.Prelude.{◌≡◌, ◌++◌, ◌∷◌, [], All, OnOk, map};
ghost use Rattle.spec_iis.specs.Sides.{IsSide};
ghost use Rattle.spec_server.specs.Output.{ended_lines};
ghost use Rattle.spec_commands.specs.IisOut as iis;

use lp_base::Bytes;
use lp_iis::{Side, Sides};
use lp_model::Model;
use std::alloc::AllocError;

// The words for a side: of a row or of a column, and upper or lower.
fn words_of(side: Side) -> &'static [u8]
    ensures { result.now ≡ iis.kind_word side.row ++ iis.end_word side.upper }
{
    match (side.row, side.upper) {
        (true, true) => b"ROW UPPER ",
        (true, false) => b"ROW LOWER ",
        (false, true) => b"COLUMN UPPER ",
        (false, false) => b"COLUMN LOWER ",
    }
}

// The name of the row or column whose side this is.
fn name_of(model: &Model, side: Side) -> &[u8]
    requires { IsSide model.now side }
    ensures { result.now ≡ iis.side_name model.now side }
{
    if side.row {
        model.row(side.at).name.as_slice()
    } else {
        model.col(side.at).name.as_slice()
    }
}

// Appends the line of a side: whether it is of a row or a column, upper or lower, and whose.
#[tactic(auto, unfolding(spec_commands::specs::IisOut::side_line))]
fn print_side(model: &Model, side: Side, to: &mut Bytes) -> Result<(), AllocError>
    requires { IsSide model.now side }
    ensures { OnOk result (to.new ≡ to.old ++ (iis.side_line model.now side ++ 10 ∷ [])) }
{
    to.extend(words_of(side))?;
    to.extend(name_of(model, side))?;
    to.push(b'\n')
}

/// Writes the sides in their order.
pub(crate) fn print_sides(model: &Model, sides: &Sides, to: &mut Bytes) -> Result<(), AllocError>
    requires { All (IsSide model.now) sides.now }
    ensures { OnOk result (to.new ≡ to.old ++ ended_lines (map (iis.side_line model.now) sides.now)) }
{
    for i in 0..sides.len() {
        print_side(model, sides.at(i), to)?;
    }
    Ok(())
}
