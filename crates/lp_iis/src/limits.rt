// The limits of a row, where none is refused.
ghost use Rattle.std.specs.Prelude.{◌≡◌, is_some, Some, Ok};
ghost use Rattle.spec_exact.specs.Narrow.{number_limit};
ghost use Rattle.spec_model.specs.Model.{limits_of};
ghost use Rattle.spec_check.specs.Run.{lower_run, upper_run};

use lp_frac::Frac;
use lp_model::{Row, RowLimit, lower_of, upper_of};

/// The least that the row's sum may be; none where there is no limit, or where a step to it is past 127 bits.
pub(crate) fn lower_limit(row: &Row) -> Option<Frac>
    requires { lower_run (Some number_limit) row.now ≡ Ok (limits_of row.now).lower }
    ensures { result ≡ (limits_of row.now).lower }
{
    match lp_model::lower_limit(row) {
        Ok(limit) => limit,
        Err(_) => None,
    }
}

/// The most that the row's sum may be; none where there is no limit, or where a step to it is past 127 bits.
pub(crate) fn upper_limit(row: &Row) -> Option<Frac>
    requires { upper_run (Some number_limit) row.now ≡ Ok (limits_of row.now).upper }
    ensures { result ≡ (limits_of row.now).upper }
{
    match lp_model::upper_limit(row) {
        Ok(limit) => limit,
        Err(_) => None,
    }
}

/// Whether the row has a lower limit.
pub(crate) fn is_limited_below(row: &Row) -> bool
    ensures { result ≡ is_some (limits_of row.now).lower }
{
    !matches!(lower_of(row), RowLimit::Absent)
}

/// Whether the row has an upper limit.
pub(crate) fn is_limited_above(row: &Row) -> bool
    ensures { result ≡ is_some (limits_of row.now).upper }
{
    !matches!(upper_of(row), RowLimit::Absent)
}
