// The limits of a row: as operations, and taken at 127 bits.
ghost use Rattle.std.specs.Prelude.{◌≡◌, Some};
ghost use Rattle.spec_exact.specs.Narrow.{number_limit};
ghost use Rattle.spec_model.specs.Model as model;

use crate::model::Row;
use lp_frac::{Frac, Past, abs, add, is_negative, sub};
use spec_model::Kind;

/// A limit of a row, if it has one, by the operation that gives it, if it takes one.
pub type RowLimit = spec_model::RowLimit<Frac>;

/// Whether rows of this kind have no limits.
pub fn is_free(kind: Kind) -> bool
    ensures { result ≡ model.is_free kind }
{
    matches!(kind, Kind::N)
}

/// The lower limit of the row's sum, as the operation that gives it. It is the right side for `G` and `E`, with a range
/// below 0 added for `E`. For `L` with a range it is the right side less the range's absolute value. Else it is absent.
pub fn lower_of(row: &Row) -> RowLimit
    ensures { result ≡ model.lower_of row.now }
{
    match (row.kind, row.range) {
        (Kind::L, None) | (Kind::N, _) => RowLimit::Absent,
        (Kind::L, Some(range)) => RowLimit::Difference(row.rhs, abs(range)),
        (Kind::E, Some(range)) if is_negative(range) => RowLimit::Sum(row.rhs, range),
        (Kind::G | Kind::E, _) => RowLimit::Given(row.rhs),
    }
}

/// The upper limit of the row's sum, as the operation that gives it. It is the right side for `L` and `E`, with a range
/// that is not below 0 added for `E`. For `G` with a range it is the right side plus the range's absolute value. Else
/// it is absent.
pub fn upper_of(row: &Row) -> RowLimit
    ensures { result ≡ model.upper_of row.now }
{
    match (row.kind, row.range) {
        (Kind::G, None) | (Kind::N, _) => RowLimit::Absent,
        (Kind::G, Some(range)) => RowLimit::Sum(row.rhs, abs(range)),
        (Kind::E, Some(range)) if !is_negative(range) => RowLimit::Sum(row.rhs, range),
        (Kind::L | Kind::E, _) => RowLimit::Given(row.rhs),
    }
}

// The number that a limit comes to; none where it is absent. Refused where a step of its sum or difference is past 127
// bits.
fn taken(limit: RowLimit) -> Result<Option<Frac>, Past>
    ensures { result ≡ model.limit_run (Some number_limit) limit }
{
    match limit {
        RowLimit::Absent => Ok(None),
        RowLimit::Given(v) => Ok(Some(v)),
        RowLimit::Sum(v, w) => Ok(Some(add(v, w)?)),
        RowLimit::Difference(v, w) => Ok(Some(sub(v, w)?)),
    }
}

/// The least that the row's sum may be; none where there is no limit. Refused where a step to it is past 127 bits.
pub fn lower_limit(row: &Row) -> Result<Option<Frac>, Past>
    ensures { result ≡ model.lower_run (Some number_limit) row.now }
{
    taken(lower_of(row))
}

/// The most that the row's sum may be; none where there is no limit. Refused where a step to it is past 127 bits.
pub fn upper_limit(row: &Row) -> Result<Option<Frac>, Past>
    ensures { result ≡ model.upper_run (Some number_limit) row.now }
{
    taken(upper_of(row))
}
