// The command `range`: it solves the model, and writes what that ended with and the range of one number of the model.
ghost use Rattle.std.specs.Prelude.{◌<◌, refl};
ghost use Rattle.spec_model.specs.Kept.{IsUsual};
ghost use Rattle.spec_runs.specs.Solve.{solve_end};
ghost use Rattle.spec_commands.specs.RangeOut.{RangedOut, range_lines};
ghost use Rattle.lp_text_commands.specs.RangeEnds.{IsRanged, count_by};

mod all;
mod asked;
mod lines;
mod named;
mod ranging;

use crate::command::Command;
use crate::solve::print_answer;
pub(crate) use all::RangeAll;
pub(crate) use asked::say_range;
use lines::print_range;
use lp_base::Bytes;
use lp_model::Model;
use ranging::{Ranged, range_of, solve_ranging};
use spec_program::Moved;
use std::alloc::{AllocError, Global};

/// Ranges this number of the column or row `at`.
#[derive(Clone, Copy)]
pub(crate) struct RangeAt {
    pub moved: Moved,
    pub at: u32,
}

impl Command for RangeAt {
    type Given = Model;

    type Outcome = Ranged;

    ghost takes = { λ number m. IsUsual m × number.at < count_by number.moved m };

    ghost may_make = { λ _ m ranged. IsRanged m ranged };

    ghost lines = { λ number m ranged. range_lines number.moved m number.at ranged.end };

    ghost may_write = { λ number m. RangedOut number.moved m number.at };

    ghost is_written = { λ _ m ranged is. (solve_end (ranged.end, is.solved.0), is.solved.1, refl) };

    // Solves the model cold, and prepares the ranges of its numbers at the basis of an optimum, if the model has a
    // form.
    fn run(&self, alloc: Global, model: &Model) -> Result<Ranged, AllocError> {
        solve_ranging(alloc, model)
    }

    // Appends the answer; and where ranges were prepared, that of the number, or the operation past 127 bits for which
    // there is none.
    fn write(
        &self,
        alloc: Global,
        model: &Model,
        ranged: &Ranged,
        to: &mut Bytes,
    ) -> Result<(), AllocError> {
        print_answer(alloc, &ranged.end, to)?;
        match &ranged.ranging {
            Some(ranging) => {
                let range = range_of(ranging, model, self.moved, self.at);
                print_range(alloc, range, to)
            }
            None => Ok(()),
        }
    }
}
