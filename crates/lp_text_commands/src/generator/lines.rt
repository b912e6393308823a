// The size of a model, and the pivots of a solve, as they are written.
ghost use Rattle.std.specs.Prelude.{◌≡◌, ◌≤◌, ◌++◌, ◌∷◌, [], codes, OnOk};
ghost use Rattle.spec_model.specs.Kept.{row_limit, IsUsual};
ghost use Rattle.spec_model.specs.Model.{height};
ghost use Rattle.spec_commands.specs.GenOut.{entry_count, size_text};
ghost use Rattle.spec_server.specs.Machine.{pivots_of_solved};
ghost use Rattle.spec_server.specs.Output.{pivots_text};

use lp_base::Bytes;
use lp_line::push_numbered;
use lp_model::Model;
use lp_solve::End;
use std::alloc::{AllocError, Global};

/// Writes how many rows, columns and entries the model has.
#[tactic(auto, unfolding(spec_commands::specs::GenOut::size_text))]
pub(crate) fn print_size(alloc: Global, model: &Model, to: &mut Bytes) -> Result<(), AllocError>
    requires { IsUsual model.now }
    ensures { OnOk result (to.new ≡ to.old ++ size_text model.now) }
{
    let (rows, columns) = (model.rows(), model.cols());
    let entries = count_entries(model);
    let line = format!(in alloc; "MODEL {rows} {columns} {entries}\n")?;
    to.extend(line.as_bytes())
}

// How many entries the columns of the model have.
fn count_entries(model: &Model) -> u64
    requires { height model.now ≤ row_limit }
    ensures { result ≡ entry_count model.now }
{
    let mut count = 0;
    for column in 0..model.cols() {
        count += model.entries(column).len() as u64;
    }
    count
}

/// Appends the line of how many pivots and flips a solve made; `-` stands for them where it has no answer.
pub(crate) fn print_pivots(alloc: Global, solved: &End, to: &mut Bytes) -> Result<(), AllocError>
    ensures { OnOk result (to.new ≡ to.old ++ codes "PIVOTS " ++ pivots_text (pivots_of_solved solved.now) ++ 10 ∷ []) }
{
    match solved {
        End::Ended { pivots, .. } => push_numbered(alloc, b"PIVOTS ", *pivots, to)?,
        End::Past(_) | End::Spent => to.extend(b"PIVOTS -")?,
    }
    to.push(b'\n')
}
