//! Models: linear programs whose numbers are fractions of at most 127 bits.
//!
//! | Item | What it is | Where |
//! |---|---|---|
//! | `Model` | a model that may be kept; to contracts a record of plain data, `spec_model`'s `Model` | src/model |
//! | `UsualModel` | a model within the usual limits, as sessions hold them | src/usual |
//! | `USUAL_LIMITS`, `LARGE_LIMITS` | how many rows and columns there may be | src/usual |
//! | `Row`, `Column` | its parts, with names and numbers as the code holds them | src/model |
//! | `Sense`, `Kind` | whether the objective is to be least or greatest; the kinds of rows | `spec_model` |
//! | `RowLimit`, `lower_of`, `upper_of` | the limits of a row, as the operations that give them | src/limits |
//! | `lower_limit`, `upper_limit` | the same, taken at 127 bits | src/limits |
//! | `is_free` | whether a kind of row has no limits | src/limits |
//! | `NameIndex` | distinct names that are found by their hashes | src/name_index |
//! | `is_name`, `is_row_name`, `is_model_name` | whether a text may be a name | src/names |
//! | `apply` | changes a usual model by an edit, or refuses the edit and leaves the model | src/edits |
//! | `Edit` | an edit, whose rows and columns are named | src/edit |
//! | `Pairs`, `ColumnBounds` | the numbers of a new column, and the bounds of a column | src/edit |
//! | `EditError`, `EditFault`, `Which` | why an edit is not applied | src/edit, `spec_edit` |
//!
//! A model is read by the methods of src/model and changed by those of src/changes, which keep it in order.
//!
//! What an edit leaves, and which fault it has, is `edited` of `spec_edit`.
#![tactic(auto)]

mod changes;
mod column;
mod edit;
mod edits;
mod entries;
mod indexed;
mod limits;
mod model;
mod name_index;
mod names;
mod narrow;
mod usual;

pub use edit::{ColumnBounds, Edit, EditError, EditFault, Pairs};
pub use edits::apply;
pub use limits::{RowLimit, is_free, lower_limit, lower_of, upper_limit, upper_of};
pub use model::{Column, Model, Row};
pub use name_index::NameIndex;
pub use names::{is_model_name, is_name, is_row_name};
pub use spec_edit::Which;
pub use spec_model::{Kind, Sense};
pub use usual::{LARGE_LIMITS, USUAL_LIMITS, UsualModel};
