// The basis that a run in floats ends with, for who solves for it exactly.
ghost use Rattle.std.specs.Prelude.{◌≡◌, ◌+◌, IfOk, IfSome, length};
ghost use Rattle.spec_model.specs.Model.{width, height};

use crate::end::{FloatEnd, fitted_end};
use crate::model::program_of;
use crate::program::Program;
use crate::runs::{logical_start, run, run_near};
use lp_model::Model;
use spec_pivot::Status;
use std::alloc::{AllocError, Global};

// How many steps a run takes at most for each column, structural or logical.
const STEPS_EACH: u64 = 20;

// How many more steps a run takes at most, however many columns there are.
const MORE_STEPS: u64 = 1000;

// How many columns the steps of a run go over at most, in all: about an hour of them.
const WORK: u64 = 30_000_000_000;

// How many steps a run takes at most: 20 for each column of the program and 1,000 more, or fewer, so that these many
// steps times the columns stay within `WORK`.
fn effort(program: &Program) -> u64 {
    let columns = (program.len() as u64).max(1);
    let steps = columns
        .saturating_mul(STEPS_EACH)
        .saturating_add(MORE_STEPS);
    steps.min(WORK / columns)
}

// The end of a run from these statuses, or from the logical basis where there are none; `None` where the run gives up.
fn end_from(
    alloc: Global,
    program: &Program,
    start: Option<&[Status]>,
) -> Result<Option<FloatEnd>, AllocError> {
    match start {
        Some(statuses) => run(alloc, program, statuses, effort(program)),
        None => {
            let statuses = logical_start(alloc, program)?;
            run(alloc, program, &statuses, effort(program))
        }
    }
}

/// The end of a run of the simplex method in floats: a status for each column of the model, and then one for the
/// logical column of each row. Where there is no optimum it has the column that shows so, if there is one. The run
/// begins with the statuses of `start`, which may be those of no basis, or else with the basis of the logical columns.
///
/// The basis is likely one that is optimal; or one whose row at the basic column that is named shows that no point is
/// feasible; or one from which the other column that is named goes on for ever, at ever less cost. There is no end where the
/// run finds none of these. Nothing is claimed of an end: it may be another one, or its basis singular, and who uses it
/// solves for it exactly.
///
/// The effort is bounded: a run takes at most 1,000 steps and 20 more for each column and row, and fewer where these many
/// steps times the columns and rows are past 30,000,000,000. As often at most, in each of its parts, a step is tried anew
/// with new factors. Its only error is to be out of memory.
pub fn float_end(
    alloc: Global,
    model: &Model,
    start: Option<&[Status]>,
) -> Result<Option<FloatEnd>, AllocError>
    ensures { IfOk result (λ o. IfSome o (λ e. length e.statuses.items ≡ width model.now + height model.now)) }
{
    let program = program_of(alloc, model)?;
    let end = end_from(alloc, &program, start)?;
    fitted_end(alloc, model, end)
}

/// The end of a short run from a basis that is likely near one, with the statuses of `start`. It is as that of `float_end`,
/// with less effort: 1,000 steps at most, of which the first already has the costs as they are, and tight tolerances. From
/// a basis that is optimal in floats it ends at once with this basis.
pub fn near_end(
    alloc: Global,
    model: &Model,
    start: &[Status],
) -> Result<Option<FloatEnd>, AllocError>
    ensures { IfOk result (λ o. IfSome o (λ e. length e.statuses.items ≡ width model.now + height model.now)) }
{
    let program = program_of(alloc, model)?;
    let end = run_near(alloc, &program, start, effort(&program))?;
    fitted_end(alloc, model, end)
}
