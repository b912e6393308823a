//! Models as text, in both forms. A reader of the same form reads the text as the same model.
//!
//! | Item | What it is | Where |
//! |---|---|---|
//! | `free`, `fixed` | the text of a model in free and in fixed form | src/write/text |
//! | `WriteStop` | why there is no text | src/write/stop |
//! | `Adds`, `IsAdded` | what adding cards to a text says | specs/Adds |
//!
//! The cards and lines of a text, which the contracts cite, are in spec_mps: specs/Written.

mod line;
mod sections;
mod signs;
mod stop;
mod text;

pub use stop::WriteStop;
pub use text::{fixed, free};
