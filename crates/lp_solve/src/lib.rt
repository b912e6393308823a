//! The solve of a model, cold or from a starting basis.
//!
//! `solve` gives the answer, the certificate that the checker accepted for it, the basis of an optimum and the count of
//! pivots; or the first operation that is past 127 bits, or that the budget is spent; and how it came to that. It ends
//! with what may be answered (spec_solve's `IsSolved`): with an answer only by a certificate for the model to which the
//! checker says yes, and with a spent budget only where this is below the number of pivots that is enough. A starting
//! basis never costs an answer: where the start from it stops, the cold solve has the whole budget. Nor does one of its
//! three engines, factors, whole tableaus and rows of whole numbers: where one of them gives up, the next one has the
//! whole budget. Which comes first is a choice of speed alone. Of an answer over rows the checker says yes to the
//! certificate, as of each other.
//!
//! An exact solve asks first for a certificate that the end of a run in floats leads to (lp_float, lp_lift), or from a
//! starting basis for that of the basis; of a model past the usual limits a short run in floats from the basis comes
//! before it. Whatever the guess is, it is checked without a limit. Only where that comes to nothing it solves a model
//! within the usual limits at 127 bits, and where it is refused an operation there over rows of whole numbers without a
//! limit.
//!
//! | Item | What it is | Where |
//! |---|---|---|
//! | `solve` | the solve of a model, with its end and the route to it | src/solving |
//! | `solve_formed`, `solve_formless` | the solve by the model's form, or by why it has none | src/solving |
//! | `OPENING_BUDGET` | the budget of a new session, and of the commands that solve | src/solving |
//! | `solve_exactly`, `ExactEnd`, `ExactAnswer` | the exact solve of a model, whose numbers may have any width | src/exact |
//! | `at_basis`, `at_near_end`, `at_float_end`, `over_rows` | answers by certificates checked without a limit | src/shown |
//! | `accepted` | the answer of a certificate to which the check without a limit says yes | src/acceptance |
//! | `stand_at_basis` | whether a point and multipliers stand as a basis says | src/stands |
//! | `fits_lines` | whether the numbers of a certificate fit their lines | src/lines |
//! | `widened_certificate` | a certificate of 127 bits as one whose numbers may have any width | src/widened |
//! | `cold_solve`, `Engine` | the engines of a cold solve, and their order for a model | src/strategy |
//! | `End`, `from_form` | what a solve ends with, and the engine over whole tableaus | src/cold |
//! | `from_basis` | the warm start from a basis | src/warm |
//! | `Ended` | how both phases of a cold solve ended | src/phases |
//! | `certificate_at`, `basis_at` | the certificate and the basis of an end | src/certificate, src/basis |
//! | `IsFit`, `LeavesBasis` | what holds of the certificate of an answer, and of its basis | specs/Fit |
//! | `IsRunOf`, `GaveUp` | what an engine may end with, and what holds where it gives up | specs/Strategy |
//! | `HasNoForm` | that a model has no form | specs/Formless |
//! | `IsAfterStop` | how a solve ends where the start from the basis has stopped | specs/Stopped |
#![tactic(auto)]

mod acceptance;
mod basis;
mod certificate;
mod cold;
mod exact;
mod lines;
mod phases;
mod shown;
mod solving;
mod stands;
mod strategy;
mod warm;
mod widened;

pub use cold::End;
pub use exact::{ExactAnswer, ExactEnd, solve_exactly};
pub use solving::{OPENING_BUDGET, solve, solve_formed, solve_formless};
pub use spec_runs::Route;
