//! The cards of a text of a model, one line at a time.
//!
//! | Item | What it is | Where |
//! |---|---|---|
//! | `Card`, `Field` | a card, and one of its fields | src/card/fields |
//! | `Fields` | the fields of a card | src/card/fields |
//! | `free`, `fixed` | the card of a line, in free and in fixed form | src/card/cards |
//! | `CardFault` | why a line has no card | src/card/fault |
//! | `GivesCard` | what the two answer | specs/CardAnswer |

mod cards;
mod columns;
mod fault;
mod fields;
mod lines;
mod words;

pub use cards::{fixed, free};
pub use fault::CardFault;
pub use fields::{Card, Field, Fields};
