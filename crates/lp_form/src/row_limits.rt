// The limits of a row, and bounds that clash.
ghost use Rattle.std.specs.Prelude.{◌≡◌, Some};
ghost use Rattle.spec_exact.specs.Narrow.{number_limit};
ghost use Rattle.spec_simplex.specs.Form as forms;

use lp_frac::{Frac, Past, cmp};
use lp_model::{Row, lower_limit, upper_limit};
use std::cmp::Ordering;

type FormFault = spec_simplex::FormFault<Frac>;

/// The lower and the upper limit of the row's sum, each of which may be absent. Refused where one is past 127 bits.
pub fn limits(row: &Row) -> Result<(Option<Frac>, Option<Frac>), Past>
    ensures { result ≡ forms.limits_run (Some number_limit) row.now }
{
    let lower = lower_limit(row)?;
    let upper = upper_limit(row)?;
    Ok((lower, upper))
}

/// The fault of column `j`: its lower bound is above its upper one, or the two can't be compared in 127 bits. `Ok` if
/// neither, or if a bound is absent.
pub(crate) fn clash(j: u32, lower: Option<Frac>, upper: Option<Frac>) -> Result<(), FormFault>
    ensures { result ≡ forms.bounds_clash (Some number_limit) j lower upper }
{
    match (lower, upper) {
        (Some(lower), Some(upper)) => match cmp(lower, upper) {
            Ok(Ordering::Less | Ordering::Equal) => Ok(()),
            Ok(Ordering::Greater) => Err(FormFault::Clash(j)),
            Err(past) => Err(FormFault::Past(past)),
        },
        _ => Ok(()),
    }
}
