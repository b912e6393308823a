//! A board of places on which threads publish bases, without a lock, a wait or a loop around a shared word.
//!
//! | Item | What it is | Where |
//! |---|---|---|
//! | `Board` | a fixed number of places, each of which takes one basis and keeps it | src/board |
//! | `Pass` | the right to look at a board and to publish on it, with what was seen so far | src/seats |
//! | `Look` | what a look found | src/board |
//! | `Put` | what a publication came to | spec_board |
//! | `View`, `RawRead` | what contracts see of a pass: what it has seen, published and read | src/seats |
//! | `Looks`, `Puts`, `Meets` | what the calls promise | specs/Calls |
//! | `Kept` | the rule of the board's words, which each atomic step keeps | specs/Rule |
//! | `Timed`, `NotesMore` | when each read was noted, and that it was so then | specs/Moments |
//! | `Turns`, `IsOneLog` | what befell the places at each note, and the notes of all passes in one order | specs/Moments |
//! | `board_of` | the places that the board's words spell | specs/Places |
//! | `reads_of`, `spelled`, `IsOrderly`, `IsLogOf` | what a pass reads, as reads of places that sessions share, and its laws | src/reads, specs/PassReads, specs/Spelled, specs/Orderly, specs/Played |
//!
//! Every place that a pass has read as done shows it, and every other pass, the same well-formed words for good,
//! whatever other threads do. Nothing is claimed of which of two publications wins a place, or when.
//!
//! Word 0 of the board's table is the number of claimed places. Place k has its 49 words in words 50 k + 1 to 50 k + 49
//! and its done word, 0 or 1, in word 50 k + 50. Every access is one atomic step on one word.
#![tactic(auto)]

mod board;
mod laws;
mod reads;
mod seats;
mod steps;

pub use board::{Board, Look};
pub use laws::{
    meaning, notes_are_made_then, only_what_is_so_is_noted, rule_is_kept, seen_words_stay,
    steps_are_events, whole_passes_own_all,
};
pub use reads::{
    any_kind_is_answered, backed_in_any_order, calls_keep_order, looks_are_read, puts_are_read,
    reads_change_the_board, steps_are_reads, whole_logs_are_played, whole_passes_are_backed,
};
pub use seats::{Pass, RawRead, Sight, View};
pub use spec_board::Put;
