//! Texts of models, in free and in fixed form: their cards, their reader, and models written as texts.
//!
//! | Item | What it is | Where |
//! |---|---|---|
//! | `card` | the cards of a text, one line at a time | src/card |
//! | `write` | models as text, which a reader of the same form reads as the same model | src/write |
//! | `read` | the reader of texts, line by line | src/read |
#![tactic(auto)]

pub mod card;
pub mod read;
pub mod write;
