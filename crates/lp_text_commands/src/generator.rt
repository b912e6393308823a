// The command `gen`: it makes the model of a seed, solves it, and writes its size and what the solve ended with.
ghost use Rattle.std.specs.Prelude.{◌≤◌, IfOk, IsErrOf, None, refl};
ghost use Rattle.lp_base.specs.Causes.{Rose};
ghost use Rattle.spec_model.specs.Kept.{row_limit, column_limit, IsUsual};
ghost use Rattle.spec_runs.specs.declared.ends.Route.{Route};
ghost use Rattle.spec_runs.specs.Solve.{solve_end};
ghost use Rattle.spec_solve.specs.Answers.{IsSolved};
ghost use Rattle.spec_server.specs.Machine.{opening_budget};
ghost use Rattle.spec_commands.specs.GenOut.{generated_lines, GenOut, SolvedOut};
ghost use Rattle.lp_text_commands.specs.Generating.{Writes};

mod draws;
mod lines;
mod parts;

use crate::command::{Command, perform};
use crate::solve::print_answer;
use lines::{print_pivots, print_size};
use lp_base::{Bytes, Sink, send};
use lp_line::Halt;
use lp_model::Model;
use lp_solve::{End, OPENING_BUDGET, solve};
pub use parts::make;
use std::alloc::{AllocError, Global};

// Solves a model that was made.
struct SolveMade;

impl Command for SolveMade {
    type Given = Model;

    type Outcome = End;

    ghost takes = { λ _ m. IsUsual m };

    ghost may_make = { λ _ m end. (route : Route) × IsSolved m opening_budget None (solve_end (end, route)) };

    ghost lines = { λ _ m end. generated_lines m end };

    ghost may_write = { λ _ m. SolvedOut m };

    ghost is_written = { λ _ m end is. (solve_end (end, is.0), is.1, refl) };

    // Solves the model cold, within the budget of a new session.
    fn run(&self, alloc: Global, model: &Model) -> Result<End, AllocError> {
        let (end, _) = solve(alloc, model, OPENING_BUDGET, None)?;
        Ok(end)
    }

    // Appends the size of the model, what the solve ended with, and how many pivots and flips it made.
    #[tactic(auto, unfolding(spec_commands::specs::GenOut::generated_lines))]
    fn write(
        &self,
        alloc: Global,
        model: &Model,
        end: &End,
        to: &mut Bytes,
    ) -> Result<(), AllocError> {
        print_size(alloc, model, to)?;
        print_answer(alloc, end, to)?;
        print_pivots(alloc, end, to)
    }
}

/// Makes the model of this seed, with so many rows and columns, and writes its size and what a solve of it ends with.
/// Where memory runs out nothing is written.
pub fn generate<K: Sink>(
    alloc: Global,
    seed: u32,
    rows: u32,
    columns: u32,
    out: &mut K,
) -> Result<(), Halt>
    requires rows { rows ≤ row_limit }
    requires columns { columns ≤ column_limit }
    ensures output { Writes (GenOut seed rows columns) (K.taken out.old) (K.taken out.new) result }
    ensures write { IsErrOf result Halt.Write → Rose (K.write_faults out.old) (K.write_faults out.new) }
{
    let text = generated_text(alloc, seed, rows, columns)?;
    send(out, text.as_slice())?;
    Ok(())
}

// The text that `gen` writes of the model that it makes: its size, and what a solve of it ends with.
fn generated_text(alloc: Global, seed: u32, rows: u32, columns: u32) -> Result<Bytes, AllocError>
    requires rows { rows ≤ row_limit }
    requires columns { columns ≤ column_limit }
    ensures { IfOk result (GenOut seed rows columns) }
{
    let made = make(alloc, seed, rows, columns)?;
    let mut text = Bytes::new(alloc);
    perform(alloc, &SolveMade, made.model(), &mut text)?;
    Ok(text)
}
