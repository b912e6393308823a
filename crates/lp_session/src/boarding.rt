// What a look at a board comes to, as sessions are told it.
ghost use Rattle.std.specs.Prelude.{◌≡◌};
ghost use Rattle.basis_board.specs.PassReads.{looked_by};

use basis_board::Look;
use spec_board::{BasisWords, Found};

// The place that a look at the board found, with its words; nothing where the look found no basis.
pub(crate) fn found_by(look: Look) -> Option<Found<BasisWords>>
    ensures { result ≡ looked_by look }
{
    match look {
        Look::Found(place, words) => Some(Found { place, words }),
        Look::NoneReady(_) => None,
    }
}
