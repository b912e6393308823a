// What a pass knows of its board, and the rule of the board's words.
use atomic_table::{Seat, Table, TableRule};
use std::alloc::Global;
use std::collections::LinkedList;
use std::marker::Model;

/// What a pass read or did, one entry for each step, but for the words of a place,
/// which stand with the entry of their place.
pub enum RawRead {
    /// So many places were claimed.
    Count(u64),
    /// The place was not done.
    Open(u64),
    /// The place was done, and these were its first words.
    See(u64, LinkedList<u64>),
    /// The place was claimed.
    Claim(u64),
    /// Another pass was quicker: so many places were claimed then.
    Lost(u64),
    /// The place was published with these words.
    Done(u64, LinkedList<u64>),
}

/// What a pass knows: what it has seen, published and read. It stands in contracts alone: no value of it is made.
pub struct View {
    /// How many places the board has.
    pub places: u64,
    /// Of 64 in all: the pass that has them all is the only one left.
    pub share: u64,
    /// The place that is claimed, with the words that were stored in it.
    pub held: Option<(u64, LinkedList<u64>)>,
    /// Words that were read or written, by place.
    pub seen: LinkedList<(u64, LinkedList<u64>)>,
    /// The places that were published, in order.
    pub own: LinkedList<u64>,
    /// The newest first.
    pub reads: LinkedList<RawRead>,
}

/// What a pass knows, and when it noted each of its reads. No value of it is made.
pub struct Sight {
    pub view: View,
    /// One for each of the view's reads, the newest first: which note of all passes it was, and what the words were.
    pub moments: LinkedList<(u64, LinkedList<u64>)>,
}

/// The rule that each step on a board's table keeps (`KeptInTime`), and what the first pass of a board knows.
pub struct BoardRule;

impl TableRule<u8, Sight, u64> for BoardRule {
    ghost use Rattle.basis_board.specs.Moments.{KeptInTime, first_sight};

    ghost holds = { KeptInTime };

    ghost first = { first_sight };
}

/// The right of a worker to look at a board and to publish on it, with what was seen so far. It claims no place between
/// calls, and takes no bytes.
#[derive(Drop)]
pub struct Pass {
    pub(crate) seat: Seat<u8, Sight>,
}

impl Model for Pass {
    ghost use Rattle.basis_board.specs.Known.{Known};

    ghost Value = { Known };

    ghost use Rattle.basis_board.specs.Known.{known_of, IsIdle};

    ghost view = { λ p. known_of p.seat };

    ghost invariant = { λ p. IsIdle p.seat };
}

/// The table of a board's words, which keeps the board's rule.
pub type Words = Table<u8, Sight, u64, BoardRule, Global>;
