//! The form of a linear program as the simplex method takes it, and bases: made of a model, and as words.
//!
//! | Item | What it is | Where |
//! |---|---|---|
//! | `LargeForm` | columns with bounds and costs to be made least, the rows' sums among them | src/large |
//! | `Form` | such a form of at most 256 rows and 512 columns, of which tableaus are made | src/forms |
//! | `BoundList`, `Columns`, `StatusList` | lists that are plain ones to contracts | src/lists |
//! | `Basis`, `Status` | how each structural and logical column stands, as many basic as rows | src/basis, `spec_pivot` |
//! | `is_basic` | whether a status is that of a basic column | src/status |
//! | `is_basis` | whether statuses are those of a basis of a form | src/fitting |
//! | `BasisStop`, `Singular` | why a basis has no factors or no tableau | src/stop |
//! | `large_form`, `form` | the form of any model, and of a usual one | src/standard |
//! | `limits` | the limits of a row, both taken at 127 bits | src/row_limits |
//! | `least_cost` | a cost where the objective is made least | src/standard |
//! | `Clash`, `FormStop` | why a model has no form | src/fault |
//! | `shape`, `same_shape` | the 25 words of a form's shape; whether two forms have the same | src/packing |
//! | `pack`, `unpack` | the 49 words of a basis, which begin with its form's shape; the basis in words | src/packing, src/unpacking |
//! | `well_formed` | whether 49 words are those of some basis | src/formed |
//!
//! Contracts see a form as the record of spec_simplex's specs/Form.
//!
//! `large_form` gives the form, the first column whose bounds clash, or the first operation that is past
//! 127 bits, exactly as spec_simplex's `form_of` has it.
//!
//! Each is exactly its definition in spec_board's specs/Words, where the words are described.
//! Only `unpack` takes memory.
#![tactic(auto)]

mod basis;
mod codes;
mod fault;
mod fitting;
mod formed;
mod forms;
mod large;
mod lists;
mod packing;
mod row_limits;
mod standard;
mod status;
mod stop;
mod unpacking;

pub use basis::{Basis, bases_have_their_rows};
pub use fault::{Clash, FormStop};
pub use fitting::is_basis;
pub use formed::well_formed;
pub use forms::Form;
pub use large::LargeForm;
pub use lists::{BoundList, Columns, StatusList};
pub use packing::{pack, same_shape, shape};
pub use row_limits::limits;
pub use spec_pivot::Status;
pub use standard::{form, large_form, least_cost};
pub use status::is_basic;
pub use stop::{BasisStop, Singular};
pub use unpacking::unpack;
