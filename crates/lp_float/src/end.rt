// The end of a run, with a status for each column and each row of a model.
ghost use Rattle.std.specs.Prelude.{◌≡◌, ◌+◌, IfOk, IfSome, length};
ghost use Rattle.spec_model.specs.Model.{width, height};

use crate::statuses::status_at;
use lp_model::Model;
use spec_pivot::Status;
use std::alloc::{AllocError, Global};

/// The end of a run in floats.
pub struct FloatEnd {
    /// Where each column stands, the structural ones first and then the logical one of each row.
    pub statuses: Vec<Status>,
    /// The column by which there is no optimum: a basic one that nothing brings within its bounds, or another one that
    /// nothing stops. There is none at an optimum.
    pub witness: Option<usize>,
}

impl Drop for FloatEnd {
    fn drop(self) {
        let FloatEnd {
            statuses,
            witness: _,
        } = self;
        drop(statuses);
    }
}

// A status for each column and each row of a model: those given, and basic ones where they end.
fn fitted(alloc: Global, model: &Model, statuses: &[Status]) -> Result<Vec<Status>, AllocError>
    ensures { IfOk result (λ l. length l.items ≡ width model.now + height model.now) }
{
    let mut list = Vec::new(alloc);
    for k in 0..model.cols() + model.rows() {
        list.push(status_at(statuses, k as usize))?;
    }
    Ok(list)
}

/// The end, if there is one, with a status for each column and each row of a model.
pub(crate) fn fitted_end(
    alloc: Global,
    model: &Model,
    end: Option<FloatEnd>,
) -> Result<Option<FloatEnd>, AllocError>
    ensures { IfOk result (λ o. IfSome o (λ e. length e.statuses.items ≡ width model.now + height model.now)) }
{
    match end {
        Some(end) => Ok(Some(FloatEnd {
            statuses: fitted(alloc, model, &end.statuses)?,
            witness: end.witness,
        })),
        None => Ok(None),
    }
}
