//! The run of a script: its asks are read, answered by one worker or by many, and the replies written in their order.
//!
//! | Item | What it is | Where |
//! |---|---|---|
//! | `run_script` | runs the script that a source gives | src/run |
//! | `answer_all` | the replies to the asks, in their order, by many workers | src/answer_all |
//! | `Gate`, `NeverHolds` | what is told before each solve of many workers | src/gate |
//! | `Part` | what one worker has: its sessions and asks, and the replies | src/part |
//! | `Sessions` | the sessions of a script by one worker, and the places that they share: a board with the only pass of it | src/sessions |
//! | `Sharing`, `SharesStep` | how many there are, with the words in them, and a step with them | specs/Sharing |
//! | `IsOnly` | that a pass is the only one of a board, and has published one place after the other | specs/Only |
//! | `AnswersAll` | what replies many workers may give | specs/AnswersAll |
//! | `IsOpen`, `HasServed` | a part before its turn and after it | specs/Parts |
//! | `AreDealt`, `HoldReplies` | the asks and the replies of each part, of those of the script | specs/Dealt |
//! | `Moves`, `Runs` | what a run reads and writes, and what its end says of that | specs/Run |
//! | `Turn`, `IsSoFar` | where a run by one worker stands between two asks | proofs/Turns, proofs/ExchangesSoFar |
//!
//! By one worker each reply is written before the next command is read; by more, the script is read to its end first. A
//! session is one worker's, by its number. A worker answers its asks one after the other, in the order of the script, by
//! a pass of its own. What its sessions read of the board is told by the pass.
#![tactic(auto)]

mod answer;
mod answer_all;
mod deal;
mod gate;
mod in_order;
mod part;
mod run;
mod script;
mod sessions;
mod side_by_side;

pub use gate::{Gate, NeverHolds};
pub use run::run_script;
