//! Workers on threads that share a board, each with a pass of its own.
//!
//! | Item | What it is | Where |
//! |---|---|---|
//! | `on_threads` | each job takes its turn, on a thread where the system makes one | src/threads |
//! | `Turn` | what a job does in its turn | src/turn |
//! | `Worker` | a job with its pass | src/hiring |
//! | `IsFresh`, `IsUsed` | a pass before a turn and after it | specs/Passes |
//! | `TookTurns` | that all jobs took their turns, and what their passes know together | specs/Turns |
//!
//! The first pass of the board is split into one more than there are workers, and all parts meet again when all turns
//! are over. What the passes read then stands in one order.
#![tactic(auto)]

mod hiring;
mod threads;
mod turn;

pub use hiring::Worker;
pub use threads::on_threads;
pub use turn::Turn;
