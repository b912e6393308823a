// The numbers of the rows that stay.
ghost use Rattle.std.specs.Prelude.{◌≡◌, IfOk};
ghost use Rattle.spec_exact.specs.Run.{made};
ghost use Rattle.spec_model.specs.Model.{height};
ghost use Rattle.spec_iis.specs.Only.{stays};
ghost use Rattle.lp_iis.specs.Reading.{place_by};

use crate::listed::stays;
use lp_model::Model;
use spec_iis::Side;
use std::alloc::{AllocError, Global};

/// For each row of the model its number among those of which a side is listed; none where the row has no listed side.
/// Memory may run out.
pub(crate) fn places(
    alloc: Global,
    model: &Model,
    sides: &[Side],
) -> Result<Vec<Option<u32>>, AllocError>
    ensures { IfOk result (λ places. places.items ≡ made (height model.now) (place_by (stays sides.now))) }
{
    let mut places = Vec::new(alloc);
    let mut next: u32 = 0;
    for i in 0..model.rows() {
        if stays(sides, i) {
            places.push(Some(next))?;
            next += 1;
        } else {
            places.push(None)?;
        }
    }
    Ok(places)
}
