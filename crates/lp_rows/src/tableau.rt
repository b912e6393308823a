//! Tableaus over rows of whole numbers: what a step does, and the step; the start from a tableau of fractions, phase
//! two, and the certificate and the basis of an end.
//!
//! Contracts speak of each tableau of exact fractions that the rows show (specs/Shows): no number has a limit there.
//! Where a number overflows the width of the words there is no answer, and then nothing is promised.
//!
//! | Item | What it is | Where |
//! |---|---|---|
//! | `RowTableau` | a tableau over rows of whole numbers | src/tableau/tableau |
//! | `Step`, `next_step` | what a step of the primal method does; that of a tableau, by the ratio test of src/tableau/ratio | src/tableau/choice |
//! | `make` | the flip or the pivot of a step, over src/tableau/moves: what it does to rows | src/tableau/pivot |
//! | `is_roomy` | an estimate whether a step will stay within the width | src/tableau/room |
//! | `from_tableau` | the rows of a tableau of fractions | src/tableau/convert |
//! | `widened` | the same rows in words of another width | src/tableau/widen |
//! | `wants_phase_one`, `is_stuck`, `phase_two` | what the phases ask, and the reduced costs of the second | src/tableau/phases |
//! | `certificate`, `basis` | the certificate and the basis of an end | src/tableau/ends |
//! | `effort_of` | how much a step changes | src/tableau/effort |
//! | `row_of`, `bounds_on`, `denominator_with`, `is_fixed` | fractions and bounds as whole numbers, for rows that are made elsewhere | src/tableau/common, src/tableau/convert |
//! | `turn_rows`, `move_all`, `stand`, `priced` | the parts of a step on rows, and the reduced costs of a form's costs | src/tableau/moves, src/tableau/pivot, src/tableau/second |
//! | `Shows` | which tableau of exact fractions the rows are | specs/Shows |
//! | `IsFlipped`, `IsPivoted` | a tableau of rows before and after a flip, and before and after a pivot | specs/Changes |

mod choice;
mod common;
mod convert;
mod effort;
mod ends;
mod moves;
mod parts;
mod phases;
mod pivot;
mod ratio;
mod room;
mod second;
mod tableau;
mod widen;

pub use choice::{Step, next_step};
pub use common::{bounds_on, denominator_with, row_of};
pub use convert::from_tableau;
pub use effort::effort_of;
pub use ends::{basis, certificate};
pub use lp_tableau::is_fixed;
pub use moves::{Turn, move_all, turn_rows};
pub use phases::{is_stuck, phase_two, wants_phase_one};
pub use pivot::{make, stand};
pub use room::is_roomy;
pub use second::priced;
pub use tableau::RowTableau;
pub use widen::widened;
