//! That what a pass of a board reads is what sessions read of the places that they share.
//!
//! | Item | What it is | Where |
//! |---|---|---|
//! | `reads_of` | the reads of a pass, as reads of places | specs/PassReads |
//! | `AddsLook`, `AddsPut` | that a pass reads one look more, or one put | specs/PassReads |
//! | `spelled`, `Changes` | the places that a board's words spell, and what a read changes of them | specs/Spelled |
//! | `StepsAreReads` | the read that each kind of step of a board is | specs/Spelled |
//! | `AnyKindIsAnswered` | that no kind of step notes a read that the places don't answer | specs/Noted |
//! | `IsOrderly` | what holds of the reads of a pass | specs/Orderly |
//! | `IsLogOf` | the reads of a pass, each with the session that it was made for | specs/Played |

ghost use Rattle.std.specs.Prelude.{◌≡◌, ℕ, List, length};
ghost use Rattle.std.specs.List.{AllByRecursion};
ghost use Rattle.std.specs.List.Sorted.{IsPermutation};
ghost use Rattle.spec_board.specs.Words.{IsWellFormed};
ghost use Rattle.spec_board.specs.Reads.{Words, ExactRead};
ghost use Rattle.spec_board.specs.Places.{ExactPlace, Answers};
ghost use Rattle.spec_board.specs.Orders.{AreBacked};
ghost use Rattle.atomic_table.specs.Table.{State};
ghost use Rattle.basis_board.specs.declared.seats.View.{View};
ghost use Rattle.basis_board.specs.declared.board.Look.{Look};
ghost use Rattle.spec_board.specs.declared.read.Put.{Put};
ghost use Rattle.basis_board.specs.Calls.{CountTells, Looks, Puts};
ghost use Rattle.basis_board.specs.Rule.{Consistent, Kept, OwnsBelow};
ghost use Rattle.basis_board.specs.Orderly.{IsWhole, IsOrderly};
ghost use Rattle.basis_board.specs.PassReads.{reads_of, AddsLook, AddsPut};
ghost use Rattle.basis_board.specs.Spelled.{Changes, AreSpelled, StepsAreReads};
ghost use Rattle.basis_board.specs.Noted.{AnyKindIsAnswered};
ghost use Rattle.basis_board.specs.Played.{WholeLogsArePlayed};

/// Where a pass looks on the board, its reads grow by this look alone.
pub fn looks_are_read()
    ensures { (shape : Words) (before after : View) (look : Look) →
        Looks shape before look after → AddsLook shape look before after }
{}

/// Where a pass publishes on the board, its reads grow by those of this publication alone.
pub fn puts_are_read()
    ensures { (words : Words) (before after : View) (put : Put) →
        Puts before words put after → AddsPut words put before after }
{}

/// A read that the places answer changes them as a step of a board changes the places that its words spell.
pub fn reads_change_the_board()
    ensures { (places session : ℕ) (now next : List ExactPlace) (made : ExactRead) →
        Answers places now session made next → Changes now made next }
{}

/// In each state that keeps the board's rule, each kind of step but one is one read of the places that the words
/// spell. The places answer it, and the words that the step leaves spell the places that it leaves. The store of a
/// payload word is no read, and changes no place.
pub fn steps_are_reads()
    ensures { (places : ℕ) (s : State ℕ View) (now : List ExactPlace) →
        Kept places s → AreSpelled s.words now → StepsAreReads places s now }
{}

/// A kind of step, also one that anyone may yet write, may note a read by a load or by a lost compare-exchange. Where
/// it is of the count, or of a claimed place and words that it has, the places answer this read when it is taken.
pub fn any_kind_is_answered()
    ensures { AnyKindIsAnswered }
{}

/// Whatever a pass is called for, its counts never fall, and a place that it read as done or published is below each
/// later count, and done ever after.
pub fn calls_keep_order()
    ensures look { (shape : Words) (before after : View) (look : Look) → Looks shape before look after →
        Consistent before → Consistent after → IsOrderly before → IsOrderly after }
    ensures put { (words : Words) (before after : View) (put : Put) → IsWellFormed words →
        Puts before words put after → Consistent before → Consistent after → IsOrderly before → IsOrderly after }
{}

/// In what a whole pass read, itself or by those that were met into it, no place is published twice. The published
/// places are those below a number that no count exceeds, and what is read as done was published with those words.
pub fn whole_passes_are_backed()
    ensures { (v : View) (n : ℕ) → v.share ≡ 64 → Consistent v → OwnsBelow v n → CountTells v n →
        AllByRecursion IsWhole (reads_of v) → AreBacked (reads_of v) }
{}

/// Reads that fit each other in one order (`AreBacked`) do so in any other order.
pub fn backed_in_any_order()
    ensures { (a b : List ExactRead) → IsPermutation a b → AreBacked a → AreBacked b }
{}

/// What workers read, each by a pass of its own, stands in one order, in which places answer one read after the other.
/// It is so if the notes of their passes together are those of all passes of a board, and what was read is backed by
/// what was published.
pub fn whole_logs_are_played()
    ensures { WholeLogsArePlayed }
{}
