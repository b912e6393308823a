//! MPS basis files: read line by line for a model and its form, and written.
//!
//! | Item | What it is | Where |
//! |---|---|---|
//! | `BasReader` | a file that is read line by line | src/reader |
//! | `BasFault`, `BasCode` | the first line that is wrong, and what is wrong with it | `spec_bas` |
//! | `write` | the file of a basis | src/writing |
//!
//! What a line leads to is `step` of spec_bas, and which basis a file spells its `SpellsBasis`.
#![tactic(auto)]

mod marks;
mod reader;
mod reading;
mod statuses;
mod writing;

pub use reader::BasReader;
pub use spec_bas::{BasCode, BasFault};
pub use writing::write;
