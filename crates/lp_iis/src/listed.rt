// Sides that are listed.
ghost use Rattle.std.specs.Prelude.{◌≡◌};
ghost use Rattle.spec_iis.specs.Sides.{same_side, is_listed};
ghost use Rattle.spec_iis.specs.Only as only;

use spec_iis::Side;

// Whether both are the same side of the same row or column.
fn is_same(a: Side, b: Side) -> bool
    ensures { result ≡ same_side a b }
{
    a.row == b.row && a.at == b.at && a.upper == b.upper
}

/// Whether the side is in the list of sides.
#[tactic(auto, unfolding(spec_iis::specs::Sides::is_listed))]
pub(crate) fn is_listed(sides: &[Side], side: Side) -> bool
    ensures { result ≡ is_listed sides.now side }
{
    sides.iter().any(|other| is_same(side, *other))
}

/// Whether the lower side of the row or column `at` is listed.
pub(crate) fn has_lower(sides: &[Side], row: bool, at: u32) -> bool
    ensures { result ≡ only.has_lower sides.now row at }
{
    is_listed(
        sides,
        Side {
            row,
            at,
            upper: false,
        },
    )
}

/// Whether the upper side of the row or column `at` is listed.
pub(crate) fn has_upper(sides: &[Side], row: bool, at: u32) -> bool
    ensures { result ≡ only.has_upper sides.now row at }
{
    is_listed(
        sides,
        Side {
            row,
            at,
            upper: true,
        },
    )
}

/// Whether a side of row `i` is listed, so that the row stays.
pub(crate) fn stays(sides: &[Side], i: u32) -> bool
    ensures { result ≡ only.stays sides.now i }
{
    has_lower(sides, true, i) || has_upper(sides, true, i)
}
