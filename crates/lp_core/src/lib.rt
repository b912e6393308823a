//! The pure server: sessions over one list of places. Their acts come in any order, and each act is done in one step.
//!
//! | Item | What it is | Where |
//! |---|---|---|
//! | `World` | sessions and the places that they share, and what one event does | src/world |
//! | `Seat` | a session and where it is in its ask | src/seat |
//! | `Stage` | where a session is in its ask | src/stage |
//! | `Core`, `Kept` | what the code holds of a world, and of one session | specs/Core |
//! | `Shows` | that it is held of this world | specs/Core |
//! | `StepFits`, `Follows` | that an event leads on as it may, from the opening world | specs/Core |
#![tactic(auto)]

mod seat;
mod stage;
mod world;

pub use world::World;
