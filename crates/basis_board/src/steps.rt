// The kinds of atomic step, and what each tells the pass that takes it.
ghost use Rattle.basis_board.specs.Rule.{counted, claimed, wrote, published, saw, word_read};
ghost use Rattle.basis_board.specs.Moments.{in_time, learned_in_time, left_sight, right_sight, met_sight, spent_sight};

use crate::seats::Sight;
use atomic_table::{Join, Play, Split};

/// A load of the count, which the pass notes as a read.
pub struct Counts;

impl Play<u8, Sight> for Counts {
    ghost then = { in_time counted };
}

/// A compare-exchange of the count with the next number, by which a pass claims the next place or loses it.
pub struct Claims;

impl Play<u8, Sight> for Claims {
    ghost then = { in_time claimed };
}

/// A store of one payload word of the place that the pass has claimed, which is no read.
pub struct Writes;

impl Play<u8, Sight> for Writes {
    ghost then = { in_time wrote };
}

/// A store of 1 as the done word of the place that the pass has claimed, which publishes it.
pub struct Finishes;

impl Play<u8, Sight> for Finishes {
    ghost then = { in_time published };
}

/// A load of the done word of a place, which the pass notes as done or not.
pub struct Sees;

impl Play<u8, Sight> for Sees {
    ghost then = { in_time saw };
}

/// A load of the next payload word of the place that the pass saw last as done.
pub struct Reads;

impl Play<u8, Sight> for Reads {
    ghost then = { in_time word_read };
}

/// A load of the count after a meeting, which is no read.
pub struct Learns;

impl Play<u8, Sight> for Learns {
    ghost then = { learned_in_time };
}

/// A pass split in two, of which the new one gets one part of the right to the board.
pub struct Parts;

impl Split<Sight> for Parts {
    ghost left = { left_sight };

    ghost right = { right_sight };
}

/// Two passes merged into one, which knows what both did and has their parts of the right to the board.
pub struct Joins;

impl Join<Sight> for Joins {
    ghost both = { met_sight };

    ghost spent = { spent_sight };
}
