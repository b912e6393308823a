// The model with some of its sides alone.
ghost use Rattle.std.specs.Prelude.{◌≡◌, All, IfOk, Some};
ghost use Rattle.spec_exact.specs.Narrow.{number_limit};
ghost use Rattle.spec_model.specs.Kept.{IsUsual, IsUsualModel};
ghost use Rattle.spec_iis.specs.Only.{only};
ghost use Rattle.spec_iis.specs.Rule.{IsRead};

use crate::columns::columns;
use crate::places::places;
use crate::rows::rows;
use lp_frac::zero;
use lp_model::{Model, Sense};
use spec_iis::Side;
use std::alloc::{AllocError, Global};

/// The model with these sides alone, and the objective 0. All columns stay, and of the rows those of which a side is
/// listed. Memory may run out.
#[tactic(auto, unfolding(spec_iis::specs::Only::only))]
pub fn only(alloc: Global, model: &Model, sides: &[Side]) -> Result<Model, AllocError>
    requires kept { IsUsualModel model.now }
    requires read { All (IsRead (Some number_limit) model.now) sides.now }
    ensures value { IfOk result (λ alone. alone ≡ only model.now sides.now) }
    ensures usual { IfOk result IsUsual }
{
    let places = places(alloc, model, sides)?;
    let columns = columns(alloc, model, sides, &places)?;
    drop(places);
    let rows = rows(alloc, model, sides)?;
    Ok(Model::new(
        model.name().copy(alloc)?,
        Sense::Min,
        model.objective().copy(alloc)?,
        zero(),
        rows,
        columns,
    ))
}
