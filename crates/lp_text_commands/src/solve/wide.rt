// The command `solve --wide`: it solves a model that may be large, and writes its answer with numbers of any width.
ghost use Rattle.std.specs.Prelude.{None, Ok, refl};
ghost use Rattle.spec_solve.specs.Exact.{IsExactEnd};
ghost use Rattle.spec_server.specs.Machine.{opening_budget};
ghost use Rattle.spec_server.specs.Output.{ended_lines};
ghost use Rattle.spec_server.specs.WideLines as wide;
ghost use Rattle.spec_commands.specs.SolveOut.{solve_code};
ghost use Rattle.spec_commands.specs.SolveWideOut.{SolveWideOut};

use crate::command::{Command, perform};
use crate::exit_status::ExitStatus;
use crate::hearing::Output;
use lp_base::Bytes;
use lp_line::{LargeSaid, Refusal, Reply, print_lines, wide_lines};
use lp_model::Model;
use lp_solve::{ExactEnd, OPENING_BUDGET, solve_exactly};
use std::alloc::{AllocError, Global};

/// The command `solve --wide`.
pub(crate) struct SolveWide;

impl Command for SolveWide {
    type Given = Model;

    type Outcome = ExactEnd;

    ghost takes = { λ _ _. Unit {0} };

    ghost may_make = { λ _ m end. IsExactEnd m opening_budget None end };

    ghost lines = { λ _ m end. ended_lines (wide.wide_lines m end) };

    ghost may_write = { λ _ m. SolveWideOut (Ok m) };

    ghost is_written = { λ _ m end is. (end, is, refl) };

    // Solves the model exactly, with the budget that a session opens with.
    fn run(&self, alloc: Global, model: &Model) -> Result<ExactEnd, AllocError> {
        solve_exactly(alloc, model, OPENING_BUDGET, None)
    }

    // Writes the answer and its certificate, or that nothing is known.
    fn write(
        &self,
        alloc: Global,
        model: &Model,
        end: &ExactEnd,
        to: &mut Bytes,
    ) -> Result<(), AllocError> {
        let lines = wide_lines(alloc, model, end)?;
        print_lines(&lines, to)
    }
}

impl Output for LargeSaid {
    ghost can_print = { λ _. Unit {0} };

    ghost may_write = { SolveWideOut };

    ghost code = { solve_code };

    // Writes what an exact solve of the model ends with, or why the text is refused.
    fn print(self, alloc: Global, to: &mut Bytes) -> Result<ExitStatus, AllocError> {
        match self {
            Ok(model) => {
                let status = perform(alloc, &SolveWide, &model, to);
                drop(model);
                status
            }
            Err(fault) => Reply::Refused(Refusal::Misspelled(fault)).print(alloc, to),
        }
    }
}
