// The command `range all`: it solves the model, and writes what that ended with and the range of each of its numbers.
ghost use Rattle.std.specs.Prelude.{◌≡◌, ◌≤◌, ◌<◌, ◌++◌, List, OnOk, Ok, refl};
ghost use Rattle.spec_model.specs.Kept.{IsUsualModel};
ghost use Rattle.spec_pivot.specs.declared.status.Status.{Status as exact_status};
ghost use Rattle.spec_simplex.specs.Form.{Form as exact_form};
ghost use Rattle.spec_runs.specs.Solve.{solve_end};
ghost use Rattle.spec_commands.specs.RangesOut as ranges;
ghost use Rattle.lp_range.specs.Answer.{IsFrom};
ghost use Rattle.lp_text_commands.specs.RangeEnds.{IsRanged, count_by};

use crate::command::Command;
use crate::range::lines::print_range;
use crate::range::ranging::{Ranged, range_of, solve_ranging};
use crate::solve::print_answer;
use crate::words::print_named;
use lp_base::Bytes;
use lp_model::Model;
use lp_range::Ranging;
use spec_program::Moved;
use std::alloc::{AllocError, Global};

/// Ranges each cost and each right side of the model.
#[derive(Drop)]
pub(crate) struct RangeAll;

impl Command for RangeAll {
    type Given = Model;

    type Outcome = Ranged;

    ghost takes = { λ _ m. IsUsualModel m };

    ghost may_make = { λ _ m ranged. IsRanged m ranged };

    ghost lines = { λ _ m ranged. ranges.ranges_lines m ranged.end };

    ghost may_write = { λ _ m. ranges.RangesOut (Ok m) };

    ghost is_written = { λ _ m ranged is. (solve_end (ranged.end, is.solved.0), is.solved.1, refl) };

    // Solves the model cold, and prepares the ranges of its numbers at the basis of an optimum, if the model has a
    // form.
    fn run(&self, alloc: Global, model: &Model) -> Result<Ranged, AllocError> {
        solve_ranging(alloc, model)
    }

    // Appends the answer; and where ranges were prepared, a line for each cost and right side: its range, or the
    // operation past the limit that keeps it from being known.
    fn write(
        &self,
        alloc: Global,
        model: &Model,
        ranged: &Ranged,
        to: &mut Bytes,
    ) -> Result<(), AllocError> {
        print_answer(alloc, &ranged.end, to)?;
        match &ranged.ranging {
            Some(ranging) => print_all(alloc, ranging, model, to),
            None => Ok(()),
        }
    }
}

// Appends the lines of the ranges of all costs, and then those of all right sides.
fn print_all(
    alloc: Global,
    ranging: &Ranging,
    model: &Model,
    to: &mut Bytes,
) -> Result<(), AllocError>
    requires { (f : exact_form) × (basis : List exact_status) × IsFrom model.now f basis ranging.now }
    ensures { OnOk result ((f : exact_form) (basis : List exact_status) → IsFrom model.now f basis ranging.now →
        to.new ≡ to.old ++ ranges.ranges_from model.now basis (Ok f)) }
{
    print_numbers(alloc, ranging, model, Moved::Cost, model.cols(), to)?;
    print_numbers(alloc, ranging, model, Moved::RightSide, model.rows(), to)
}

// Appends the lines of the ranges of the first `count` columns' costs, or rows' right sides.
fn print_numbers(
    alloc: Global,
    ranging: &Ranging,
    model: &Model,
    moved: Moved,
    count: u32,
    to: &mut Bytes,
) -> Result<(), AllocError>
    requires inside { count ≤ count_by moved model.now }
    requires from { (f : exact_form) × (basis : List exact_status) × IsFrom model.now f basis ranging.now }
    ensures { OnOk result ((f : exact_form) (basis : List exact_status) → IsFrom model.now f basis ranging.now →
        to.new ≡ to.old ++ ranges.number_lines moved model.now f basis count) }
{
    for at in 0..count {
        print_number(alloc, ranging, model, moved, at, to)?;
    }
    Ok(())
}

// Appends the line of the range of one number, the cost of a column or the right side of a row; or of the operation
// past 127 bits for which there is none.
fn print_number(
    alloc: Global,
    ranging: &Ranging,
    model: &Model,
    moved: Moved,
    at: u32,
    to: &mut Bytes,
) -> Result<(), AllocError>
    requires inside { at < count_by moved model.now }
    requires from { (f : exact_form) × (basis : List exact_status) × IsFrom model.now f basis ranging.now }
    ensures { OnOk result ((f : exact_form) (basis : List exact_status) → IsFrom model.now f basis ranging.now →
        to.new ≡ to.old ++ ranges.number_line moved model.now f basis at) }
{
    print_words(model, moved, at, to)?;
    print_range(alloc, range_of(ranging, model, moved, at), to)
}

// Appends the words for the number whose range follows, `cost` or `rhs` and its name, as a command line for this range
// alone has them, and a space.
fn print_words(model: &Model, moved: Moved, at: u32, to: &mut Bytes) -> Result<(), AllocError>
    requires { at < count_by moved model.now }
    ensures { OnOk result
        (to.new ≡ to.old ++ ranges.number_words moved (ranges.name_by moved model.now at)) }
{
    match moved {
        Moved::Cost => print_named(b"cost ", model.col(at).name.as_slice(), to),
        Moved::RightSide => print_named(b"rhs ", model.row(at).name.as_slice(), to),
    }
}
