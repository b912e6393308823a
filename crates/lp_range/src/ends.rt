// The ends so far, of which the tightest are kept.
ghost use Rattle.std.specs.Prelude.{◌≡◌, Some};
ghost use Rattle.spec_exact.specs.Narrow.{number_limit};
ghost use Rattle.spec_range.specs.Rule as rule;

use lp_frac::{Frac, Past, cmp};
use std::cmp::Ordering;

// The ends of a range, as far as they are there.
pub(crate) type Ends = spec_range::Ends<Frac>;

/// A range, and by how much the optimal value grows with each unit of the number.
pub type Range = spec_range::Range<Frac>;

// The ends of a range that has none: every number is in it.
pub(crate) fn no_ends() -> Ends
    ensures { result ≡ rule.no_ends }
{
    Ends {
        low: None,
        high: None,
    }
}

// The greater of two numbers; the first one where the second is missing. Refused where they can't be compared in 127
// bits.
fn greater(new: Frac, kept: Option<Frac>) -> Result<Frac, Past>
    ensures { result ≡ rule.greater_run (Some number_limit) new kept }
{
    let Some(kept) = kept else {
        return Ok(new);
    };
    match cmp(new, kept)? {
        Ordering::Less | Ordering::Equal => Ok(kept),
        Ordering::Greater => Ok(new),
    }
}

// The lesser of two numbers; the first one where the second is missing. Refused where they can't be compared in 127
// bits.
fn lesser(new: Frac, kept: Option<Frac>) -> Result<Frac, Past>
    ensures { result ≡ rule.lesser_run (Some number_limit) new kept }
{
    let Some(kept) = kept else {
        return Ok(new);
    };
    match cmp(new, kept)? {
        Ordering::Less => Ok(new),
        Ordering::Equal | Ordering::Greater => Ok(kept),
    }
}

// The ends with `v` as a lower end too, of which the greater is kept. The comparison may be refused.
pub(crate) fn at_least(v: Frac, ends: Ends) -> Result<Ends, Past>
    ensures { result ≡ rule.at_least (Some number_limit) v ends }
{
    let low = greater(v, ends.low)?;
    Ok(Ends {
        low: Some(low),
        high: ends.high,
    })
}

// The ends with `v` as an upper end too, of which the lesser is kept. The comparison may be refused.
pub(crate) fn at_most(v: Frac, ends: Ends) -> Result<Ends, Past>
    ensures { result ≡ rule.at_most (Some number_limit) v ends }
{
    let high = lesser(v, ends.high)?;
    Ok(Ends {
        low: ends.low,
        high: Some(high),
    })
}

// The ends with `v` as an upper end too if `upper`, else as a lower one; the tightest is kept. The comparison may be
// refused.
pub(crate) fn at_side(upper: bool, v: Frac, ends: Ends) -> Result<Ends, Past>
    ensures { result ≡ rule.at_side (Some number_limit) upper v ends }
{
    if upper {
        at_most(v, ends)
    } else {
        at_least(v, ends)
    }
}
