// What a model is solved to, and what its numbers are ranged by.
ghost use Rattle.std.specs.Prelude.{◌≡◌, ◌<◌, List, IfOk, Some};
ghost use Rattle.spec_exact.specs.Narrow.{number_limit};
ghost use Rattle.spec_exact.specs.Run.{refused_as};
ghost use Rattle.spec_model.specs.Kept.{IsUsual};
ghost use Rattle.spec_pivot.specs.declared.status.Status.{Status as exact_status};
ghost use Rattle.spec_simplex.specs.declared.ends.StartStop.TheVariants as stops;
ghost use Rattle.spec_simplex.specs.Form.{Form as exact_form, form_of};
ghost use Rattle.spec_range.specs.Span.{Keeps};
ghost use Rattle.spec_commands.specs.RangeOut as ranges;
ghost use Rattle.lp_range.specs.Answer.{IsFrom};
ghost use Rattle.lp_text_commands.specs.RangeEnds.{IsRanged, IsRangingFrom, IsRangingOf, KeepsAtEnd, count_by};

use lp_check::Known;
use lp_form::{Basis, form};
use lp_frac::{Past, Stop};
use lp_model::Model;
use lp_range::{Range, Ranging};
use lp_solve::{End, OPENING_BUDGET, solve};
use spec_program::Moved;
use std::alloc::{AllocError, Global};

/// What a solve ended with, and what the numbers of the model are ranged by, behind an optimum of a model with a form.
#[derive(Drop)]
pub(crate) struct Ranged {
    pub end: End,
    pub ranging: Option<Ranging>,
}

/// Solves the model cold, and prepares the ranges of its numbers at the basis of an optimum, if the model has a form.
pub(crate) fn solve_ranging(alloc: Global, model: &Model) -> Result<Ranged, AllocError>
    requires { IsUsual model.now }
    ensures { IfOk result (IsRanged model.now) }
{
    let (end, _) = solve(alloc, model, OPENING_BUDGET, None)?;
    match ranging_behind(alloc, model, &end) {
        Ok(ranging) => Ok(Ranged { end, ranging }),
        Err(AllocError) => {
            drop(end);
            Err(AllocError)
        }
    }
}

// What numbers are ranged by at the basis of an optimum; none at another end, or where the model has no form.
fn ranging_behind(alloc: Global, model: &Model, end: &End) -> Result<Option<Ranging>, AllocError>
    requires usual { IsUsual model.now }
    requires keeps { KeepsAtEnd model.now end.now }
    ensures { IfOk result (IsRangingOf model.now end.now) }
{
    match end {
        End::Ended {
            answer: Known::Optimal(_),
            basis: Some(basis),
            ..
        } => ranging_from(alloc, model, basis),
        End::Ended { .. } | End::Past(_) | End::Spent => Ok(None),
    }
}

// What numbers are ranged by at a basis of the model; none where the model has no form.
fn ranging_from(alloc: Global, model: &Model, basis: &Basis) -> Result<Option<Ranging>, AllocError>
    requires usual { IsUsual model.now }
    requires keeps { Keeps model.now basis.now }
    ensures { IfOk result (IsRangingFrom model.now basis.now (form_of (Some number_limit) model.now)) }
{
    match form(alloc, model) {
        Ok(form) => {
            let ranging = Ranging::new(alloc, &form, basis);
            drop(form);
            Ok(Some(ranging?))
        }
        Err(Stop::Cause(_) | Stop::Past(_)) => Ok(None),
        Err(Stop::NoMemory) => Err(AllocError),
    }
}

/// The range of the cost of column `at`, or of the right side of row `at`. Refused where an operation is past 127 bits.
pub(crate) fn range_of(
    ranging: &Ranging,
    model: &Model,
    moved: Moved,
    at: u32,
) -> Result<Range, Past>
    requires inside { at < count_by moved model.now }
    requires from { (f : exact_form) × (basis : List exact_status) × IsFrom model.now f basis ranging.now }
    ensures { (f : exact_form) (basis : List exact_status) → IsFrom model.now f basis ranging.now →
        ranges.range_of moved (Some number_limit) model.now f basis at ≡ refused_as stops.Past result }
{
    match moved {
        Moved::Cost => ranging.cost(model, at),
        Moved::RightSide => ranging.side(model, at),
    }
}
