// Statuses of columns.
ghost use Rattle.std.specs.Prelude.{◌≡◌};
ghost use Rattle.spec_simplex.specs.Tableau.{is_basic as is_basic_of};

use spec_pivot::Status;

/// Whether the status is that of a basic column.
#[inline(always)]
pub fn is_basic(status: Status) -> bool
    ensures { result ≡ is_basic_of status }
{
    match status {
        Status::Basic => true,
        Status::AtLower | Status::AtUpper | Status::AtZero => false,
    }
}
