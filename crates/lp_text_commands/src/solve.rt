// The command `solve`: it solves the model, and writes what that ended with.
ghost use Rattle.std.specs.Prelude.{None, Ok, refl};
ghost use Rattle.spec_model.specs.Kept.{IsUsual};
ghost use Rattle.spec_runs.specs.declared.ends.Route.{Route};
ghost use Rattle.spec_runs.specs.Solve.{solve_end};
ghost use Rattle.spec_solve.specs.Answers.{IsSolved};
ghost use Rattle.spec_server.specs.Machine.{opening_budget};
ghost use Rattle.spec_commands.specs.SolveOut.{SolveOut, solved_lines};

mod lines;
mod wide;

use crate::command::Command;
pub(crate) use lines::{print_answer, print_certificate, print_end, print_past};
use lp_base::Bytes;
use lp_model::Model;
use lp_solve::{End, OPENING_BUDGET};
use std::alloc::{AllocError, Global};

/// The command `solve`.
#[derive(Drop)]
pub(crate) struct Solve;

impl Command for Solve {
    type Given = Model;

    type Outcome = End;

    ghost takes = { λ _ m. IsUsual m };

    ghost may_make = { λ _ m end. (route : Route) × IsSolved m opening_budget None (solve_end (end, route)) };

    ghost lines = { λ _ m end. solved_lines m end };

    ghost may_write = { λ _ m. SolveOut (Ok m) };

    ghost is_written = { λ _ m end is. (solve_end (end, is.0), is.1, refl) };

    // Solves the model cold, within the budget of a new session.
    fn run(&self, alloc: Global, model: &Model) -> Result<End, AllocError> {
        let (end, _) = lp_solve::solve(alloc, model, OPENING_BUDGET, None)?;
        Ok(end)
    }

    // Writes what the solve ended with, and the certificate of its answer.
    fn write(
        &self,
        alloc: Global,
        model: &Model,
        end: &End,
        to: &mut Bytes,
    ) -> Result<(), AllocError> {
        print_end(alloc, model, end, to)
    }
}
