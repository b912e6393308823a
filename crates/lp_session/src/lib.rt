//! Sessions: each holds a model, solves it, and replies to commands. They share bases.
//!
//! | Item | What it is | Where |
//! |---|---|---|
//! | `Session` | steps as the one-session machine, at once or in parts | src/session |
//! | `AddsStep`, `StepCalls` | what a step reads more by a pass of a board, and by which calls | specs/Boarding |
//! | `Holding` | what a session holds, and what it keeps of its last solve | src/holding |
//! | `Awaited`, `AwaitedFits` | what a session awaits in its ask, and what holds of that | src/awaited, specs/Parts |
//! | `how_by`, `words_of_end` | how an answer was found, and the words of its basis | src/working |
#![tactic(auto)]

mod awaited;
mod boarding;
mod holding;
mod session;
mod working;

pub use session::Session;
