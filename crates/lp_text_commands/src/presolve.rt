// The command `presolve`: it solves the model by a smaller one, and writes how that went and what it ended with.
ghost use Rattle.std.specs.Prelude.{Ok, refl};
ghost use Rattle.spec_model.specs.Kept.{IsUsualModel};
ghost use Rattle.spec_presolve.specs.Presolved.{IsPresolved};
ghost use Rattle.spec_server.specs.Machine.{opening_budget};
ghost use Rattle.spec_commands.specs.PresolveOut.{PresolveOut, presolved_lines};

mod lines;

use crate::command::Command;
use crate::solve::print_end;
use lines::print_way;
use lp_base::Bytes;
use lp_model::Model;
use lp_presolve::Presolved;
use lp_solve::OPENING_BUDGET;
use std::alloc::{AllocError, Global};

/// The command `presolve`.
#[derive(Drop)]
pub(crate) struct Presolve;

impl Command for Presolve {
    type Given = Model;

    type Outcome = Presolved;

    ghost takes = { λ _ m. IsUsualModel m };

    ghost may_make = { λ _ m presolved. IsPresolved m opening_budget presolved };

    ghost lines = { λ _ m presolved. presolved_lines m presolved };

    ghost may_write = { λ _ m. PresolveOut (Ok m) };

    ghost is_written = { λ _ m presolved is. (presolved, is, refl) };

    // Solves the model by a smaller one.
    fn run(&self, alloc: Global, model: &Model) -> Result<Presolved, AllocError> {
        lp_presolve::presolve(alloc, model, OPENING_BUDGET)
    }

    // Appends the size of the smaller model, or why the model was solved as it is; and then what the solve ended with.
    #[tactic(auto, unfolding(spec_commands::specs::PresolveOut::presolved_lines))]
    fn write(
        &self,
        alloc: Global,
        model: &Model,
        presolved: &Presolved,
        to: &mut Bytes,
    ) -> Result<(), AllocError> {
        print_way(alloc, &presolved.way, to)?;
        print_end(alloc, model, &presolved.end, to)
    }
}
