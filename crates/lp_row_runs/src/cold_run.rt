// The cold run of a form, with a certificate in one kind of numbers.
ghost use Rattle.std.specs.Prelude.{◌≡◌, IfOk, Ok, Some, None};
ghost use Rattle.spec_exact.specs.Narrow.{number_limit};
ghost use Rattle.spec_model.specs.Model.{Model};
ghost use Rattle.spec_simplex.specs.Form.{form_of};
ghost use Rattle.spec_simplex.specs.Phases.{phases_run};
ghost use Rattle.lp_row_runs.specs.Cold.{EndsAs, IsFitEnd};

use crate::ladder::{AllWidths, Widths};
use crate::phases::RowEnd;
use lp_form::Form;
use lp_frac::Stop;
use lp_rows::Listed;
use lp_tableau::start_cold;
use std::alloc::{AllocError, Global};

/// The cold run over the integer-row tableau, from the form's start through both phases, with the certificate of its
/// end in numbers of the kind `N`. It has a budget of pivots and flips, and the caller's bound on the work. Each number
/// that is changed counts for the square of its words.
///
/// For the form of a model it ends as the stated run with no limit on numbers, or has no end: where the start is past
/// 127 bits, a number of a row past 2,048, or one of the certificate past its kind, or where the budget is spent, or the
/// bound on the work. Which of these it is, is not said, and nothing is promised of when they come. Running out of
/// memory is the only error.
pub fn cold_over_rows<N: Listed>(
    alloc: Global,
    form: &Form,
    budget: u64,
    work: u64,
) -> Result<Option<RowEnd<N>>, AllocError>
    ensures whole { (m : Model) → form_of (Some number_limit) m ≡ Ok form.now →
        IfOk result (EndsAs N.of (phases_run None budget form.now)) }
    ensures fits { IfOk result (IsFitEnd N.fits) }
{
    match start_cold(alloc, form) {
        Ok(tab) => {
            let end = AllWidths::run_cold(alloc, form, budget, &tab, work);
            drop(tab);
            end
        }
        Err(Stop::Past(_)) => Ok(None),
        Err(Stop::NoMemory) => Err(AllocError),
    }
}
