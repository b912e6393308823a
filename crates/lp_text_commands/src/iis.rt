// The command `iis`: it seeks an irreducible infeasible subset of the model, and writes what the search ended with.
ghost use Rattle.std.specs.Prelude.{Ok, refl};
ghost use Rattle.spec_model.specs.Kept.{IsUsualModel};
ghost use Rattle.spec_iis.specs.Found.{MayFind};
ghost use Rattle.spec_server.specs.Machine.{opening_budget};
ghost use Rattle.spec_server.specs.Output.{ended_lines};
ghost use Rattle.spec_commands.specs.IisOut.{IisOut, iis_lines};

mod lines;
mod points;
mod sides;

use crate::command::Command;
use lines::{print_end, print_found, print_stopped};
use lp_base::Bytes;
use lp_iis::{Iis, find};
use lp_model::Model;
use lp_solve::OPENING_BUDGET;
use std::alloc::{AllocError, Global};

/// The command `iis`.
#[derive(Drop)]
pub(crate) struct FindIis;

impl Command for FindIis {
    type Given = Model;

    type Outcome = Iis;

    ghost takes = { λ _ m. IsUsualModel m };

    ghost may_make = { λ _ m found. MayFind m opening_budget found };

    ghost lines = { λ _ m found. ended_lines (iis_lines m found) };

    ghost may_write = { λ _ m. IisOut (Ok m) };

    ghost is_written = { λ _ m found is. (found, is, refl) };

    // Seeks an irreducible infeasible subset of the model.
    fn run(&self, alloc: Global, model: &Model) -> Result<Iis, AllocError> {
        find(alloc, model, OPENING_BUDGET)
    }

    // Writes what the search ended with.
    fn write(
        &self,
        alloc: Global,
        model: &Model,
        found: &Iis,
        to: &mut Bytes,
    ) -> Result<(), AllocError> {
        match found {
            Iis::Found {
                sides,
                certificate,
                points,
            } => print_found(alloc, model, sides, certificate, points, to),
            Iis::Other(end) => print_end(alloc, end, to),
            Iis::Stopped(end) => print_stopped(alloc, end, to),
        }
    }
}
