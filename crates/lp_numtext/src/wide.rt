//! Numbers of any width as text, both ways.
//!
//! | Item | What it is | Where |
//! |---|---|---|
//! | `read_wide` | the fraction that a text is | src/wide/reading |
//! | `WideFault` | why a text is not read as a number | src/wide/reading |
//! | `wide_text` | the text of a fraction | src/wide/writing |
//!
//! The contracts cite `wide_of` and `wide_text` of spec_mps. A number of 127 bits is read and written as
//! lp_numtext does, by that crate's laws.

mod naturals;
mod reading;
mod writing;

pub use reading::{WideFault, read_wide};
pub use writing::wide_text;
