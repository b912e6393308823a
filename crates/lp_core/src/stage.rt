// Where a session is in its ask.
ghost use Rattle.std.specs.Prelude.{◌≡◌};
ghost use Rattle.lp_core.specs.Stages.{looking_at};

use spec_board::{BasisWords, Found, ShapeWords};

/// Where a session is in its ask: what it is to do next, with what this needs.
#[derive(Clone, Copy)]
pub enum Stage {
    /// No ask is being answered.
    Idle,
    /// A look for this shape begins.
    Counts(ShapeWords),
    /// It goes on with this place.
    Sees(ShapeWords, u32),
    /// It has ended.
    Solving(Option<Found<BasisWords>>),
    /// A put of these words begins.
    Puts(BasisWords),
    /// So many places were claimed.
    Claims(BasisWords, u32),
    /// This place is the session's.
    Writes(BasisWords, u32),
}

/// The stage of a look for a shape that has `places` places left, the last one first. With none left the session
/// solves, with nothing found.
pub fn looking(shape: ShapeWords, places: u32) -> Stage
    ensures { result ≡ looking_at shape places }
{
    if places == 0 {
        Stage::Solving(None)
    } else {
        Stage::Sees(shape, places - 1)
    }
}
