// The warm start: the run of a form from a basis.
ghost use Rattle.std.specs.Prelude.{◌≡◌, IfOk, IfSome, Ok, Some};
ghost use Rattle.spec_exact.specs.Narrow.{number_limit};
ghost use Rattle.spec_model.specs.Model.{Model};
ghost use Rattle.spec_simplex.specs.Form.{form_of};
ghost use Rattle.spec_simplex.specs.Eliminate.{IsBasisOf};
ghost use Rattle.lp_row_runs.specs.Warm.{EndsFromBasis};

use crate::ladder::{AllWidths, Widths};
use crate::phases::RowEnd;
use lp_form::{Form, Status};
use lp_ratio::Ratio;
use std::alloc::{AllocError, Global};

// The bound on the work, some minutes of it: each number that is changed counts for the square of its words.
const WORK: u64 = 64_000_000_000;

/// The warm start over the integer-row tableau, within a budget of pivots and flips. The form's equations are
/// solved for the basic columns. Where each of these is within its bounds, phase two goes on from there.
///
/// For the form of a model it ends as the stated run with no limit on numbers, or has no end: where the basis is
/// singular or not primal feasible, where a number of a row is past 2,048 bits, or where the budget is spent,
/// or a bound on the work. Which of these it is, is not said, and nothing is promised of when the latter come. Running
/// out of memory is the only error.
pub fn wide_warm(
    alloc: Global,
    form: &Form,
    basis: &[Status],
    budget: u64,
) -> Result<Option<RowEnd<Ratio>>, AllocError>
    requires { IsBasisOf form.now basis.now }
    ensures { (m : Model) → form_of (Some number_limit) m ≡ Ok form.now →
        IfOk result (λ o. IfSome o (EndsFromBasis budget form.now basis.now)) }
{
    let mut work = WORK;
    AllWidths::run_warm(alloc, form, basis, budget, &mut work)
}
