// The command `basis`: it solves the model from the basis of the file after its text, and writes what that ended with.
ghost use Rattle.std.specs.Prelude.{Ok, refl};
ghost use Rattle.spec_model.specs.Kept.{IsUsual};
ghost use Rattle.spec_runs.specs.Solve.{solve_end};
ghost use Rattle.spec_solve.specs.Answers.{IsSolved};
ghost use Rattle.spec_server.specs.Machine.{opening_budget};
ghost use Rattle.spec_commands.specs.BasisOut.{BasisOut, basis_lines};

mod faults;
mod file;
mod lines;
mod said;
mod stage;
mod starting;
mod wide;

use crate::command::Command;
use lines::{print_end, print_whole};
use lp_base::Bytes;
use lp_solve::{End, OPENING_BUDGET, solve};
pub(crate) use said::say_basis;
use spec_runs::Route;
use starting::Handed;
use std::alloc::{AllocError, Global};
pub(crate) use wide::SolveWideFrom;

/// The command `basis`.
#[derive(Drop)]
pub(crate) struct SolveFrom;

impl Command for SolveFrom {
    type Given = Handed;

    type Outcome = (End, Route);

    ghost takes = { λ _ handed. IsUsual handed.model };

    ghost may_make = { λ _ handed ended. IsSolved handed.model opening_budget handed.basis (solve_end ended) };

    ghost lines = { λ _ handed ended. basis_lines handed.model (solve_end ended) };

    ghost may_write = { λ _ handed. BasisOut (Ok handed) };

    ghost is_written = { λ _ handed ended is. (solve_end ended, is, refl) };

    // Solves the model from its basis, or cold if it has none, within the budget of a new session.
    fn run(&self, alloc: Global, handed: &Handed) -> Result<(End, Route), AllocError> {
        match &handed.start {
            Some(start) => solve(alloc, &handed.model, OPENING_BUDGET, Some(&start.basis)),
            None => solve(alloc, &handed.model, OPENING_BUDGET, None),
        }
    }

    // Appends what the solve ended with, and after an optimum its basis file where the model has a form.
    fn write(
        &self,
        alloc: Global,
        handed: &Handed,
        ended: &(End, Route),
        to: &mut Bytes,
    ) -> Result<(), AllocError> {
        match &handed.start {
            Some(start) => print_whole(alloc, &handed.model, &start.form, ended, to),
            None => print_end(alloc, &handed.model, ended, to),
        }
    }
}
