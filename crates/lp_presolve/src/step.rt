// A reduction, with what a certificate needs to be carried back over it.
ghost use Rattle.std.specs.Prelude.{◌≡◌, IfOk};
ghost use Rattle.lp_presolve.specs.Kept.{kept, HasColumn};

use crate::choosing::Reduction;
use lp_base::Items;
use lp_frac::{Entries, Frac, zero};
use lp_model::{Model, Sense};
use std::alloc::{AllocError, Global};

/// A reduction, and of the model that it leads to how many rows it has, its sense, and the cost and the entries of the
/// column that has new bounds.
#[derive(Drop)]
pub(crate) struct Step {
    pub reduction: Reduction,
    pub rows: u32,
    pub sense: Sense,
    pub cost: Frac,
    pub entries: Entries,
}

/// Reductions in their order.
pub(crate) type Steps = Items<Step>;

/// The record of a reduction, for carrying a certificate back. `model` is the one that the reduction led to: of it are
/// the count of rows, the sense, and the cost and the entries of the column that has new bounds.
pub(crate) fn step_of(
    alloc: Global,
    model: &Model,
    reduction: Reduction,
) -> Result<Step, AllocError>
    requires { HasColumn reduction model.now }
    ensures { IfOk result (λ step. step ≡ kept reduction model.now) }
{
    let (cost, entries) = match &reduction {
        Reduction::Single { column, .. } => {
            let column = model.col(*column);
            (
                column.cost,
                Entries::from_slice(alloc, column.entries.as_slice())?,
            )
        }
        Reduction::Empty { .. } | Reduction::Fixed { .. } => (zero(), Entries::new(alloc)),
    };
    Ok(Step {
        reduction,
        rows: model.rows(),
        sense: model.sense(),
        cost,
        entries,
    })
}
