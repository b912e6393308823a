//! The words of the program's command line.
//!
//! | Item | What it is | Where |
//! |---|---|---|
//! | `command_line_of` | what the words ask, if they are a command line | src/line |
//! | `first_option`, `value_of` | the options of a command, and their values | src/options |
//! | `plan`, `Serving` | at which address a server listens, and for how many workers | src/listening |
//! | `word_fault`, `WordFault` | which word is at fault, if they are none | src/finding, specs/WordFaults |
//! | `notice_of`, `Notice` | what they ask for in place of a command | src/notices, specs/Notices |
//! | `are_in`, `value_in` | the options as they are read | specs/Words |
#![tactic(auto)]

mod fault;
mod finding;
mod line;
mod listening;
mod notices;
mod options;

pub use fault::{Plain, WordFault};
pub use finding::word_fault;
pub use line::command_line_of;
pub use listening::{Serving, plan};
pub use notices::{Notice, notice_of};
