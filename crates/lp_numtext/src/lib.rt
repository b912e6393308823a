//! Numbers as text, both ways. Nothing is rounded: a text is one fraction whose parts have at most 127 bits, or it is
//! refused by name. Reading takes no memory.
//!
//! | Item | What it is | Where |
//! |---|---|---|
//! | `read` | the fraction that a text is | src/reading |
//! | `read_bound` | the bound that a text is | src/bounds |
//! | `number_text` | the text of a fraction | src/writing |
//! | `write` | the same, after other text | src/writing |
//! | `read_wide`, `WideFault`, `wide_text` | the same for fractions of any width | src/wide |
//!
//! The contracts cite the rule of the text in spec_mps: number_of (specs/NumberText), bound_of (specs/BoundText) and
//! number_text (specs/NumberWritten). Its laws, such as that what is written is read again, are spec_mps's.
#![tactic(auto)]

mod bounds;
mod digits;
mod parts;
mod pieces;
mod reading;
mod wide;
mod width;
mod writing;

pub use bounds::read_bound;
pub use reading::read;
pub use spec_mps::{BoundValue, NumFault};
pub use wide::{WideFault, read_wide, wide_text};
pub use writing::{number_text, write};
