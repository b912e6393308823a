// The strategy of a cold solve: which engine is tried first, and which ones where it gives up.
ghost use Rattle.std.specs.Prelude.{◌≡◌, Contains, IfOk, Ok, Some};
ghost use Rattle.spec_exact.specs.Narrow.{number_limit};
ghost use Rattle.spec_simplex.specs.Form.{form_of};
ghost use Rattle.spec_solve.specs.Order as order;
ghost use Rattle.lp_solve.specs.Fit.{IsFit};
ghost use Rattle.lp_solve.specs.Strategy.{IsRunOf, KeepsRefusal};

use crate::basis::basis_of;
use crate::cold::{End, checked_cold, from_form};
use lp_form::Form;
use lp_frac::{Frac, Stop};
use lp_model::Model;
use lp_revised::cold_over_factors;
use lp_row_runs::cold_over_rows;
use std::alloc::{AllocError, Global};

/// An engine: what runs both phases of a cold solve. Each one has the whole budget.
#[derive(Clone, Copy)]
pub(crate) enum Engine {
    /// Revised simplex over factors of the basis.
    Factors,
    /// Whole tableaus. What they are refused is what the cold solve is refused.
    Tableaus,
    /// Tableaus of integer rows, until their effort passes a bound.
    Rows,
}

// How many entries of a column are counted at the most, on average.
const COUNTED: usize = 3;

// How many counted entries beyond two a row there are in a model whose pivots are quicker over factors.
const BEYOND: usize = 180;

// The fewest rows of a model whose pivots are quicker over factors though it has no more columns than rows.
const MANY_ROWS: u32 = 48;

// How many entries the columns have together.
fn entry_count(form: &Form) -> usize {
    let mut entries: usize = 0;
    for j in 0..form.cols() {
        entries = entries.saturating_add(form.entries(j).len());
    }
    entries
}

// Whether the entries, of which at most three a column on average count, are at least 180 more than two a row. Then
// there are many columns beside those of a basis, which has one a row. Each pivot of a tableau changes them all; over
// factors those up to the one that enters are priced. More than three entries a column fill both alike.
fn has_columns_beside(form: &Form, entries: usize) -> bool {
    entries.min(COUNTED * form.cols() as usize) >= 2 * form.rows() as usize + BEYOND
}

// Whether there are at least 48 rows and no more columns than rows, and the columns have at most two and three quarters
// entries on average. A basis takes in most of them then. Where they stand in chains of equations, their tableau fills
// with wide fractions, and their factors stay sparse.
fn has_few_sparse_columns(form: &Form, entries: usize) -> bool {
    let (rows, cols) = (form.rows(), form.cols());
    rows >= MANY_ROWS && cols <= rows && entries <= 11 * cols as usize / 4
}

// Whether the run over factors is likely the quickest, by the counts of rows, columns and entries alone
// (docs/performance/factors.md).
fn suits_factors(form: &Form) -> bool {
    let entries = entry_count(form);
    has_columns_beside(form, entries) || has_few_sparse_columns(form, entries)
}

// How many rows for each column a tall model has.
const TALL: u32 = 4;

// Whether the form has at least four rows for each column. The tableaus are then likely quicker than the rows of whole
// numbers, of which a step looks at each number: in a row the basic columns are 0, one for each row of the model, and a
// tableau passes over them (docs/performance/rows.md).
fn is_tall(form: &Form) -> bool {
    form.rows() / TALL >= form.cols()
}

// The engines, the one that is likely the quickest first. The order is a choice of speed alone.
fn engines(form: &Form) -> [Engine; 3]
    ensures { (engine : Engine) → Contains result engine }
{
    if suits_factors(form) {
        [Engine::Factors, Engine::Tableaus, Engine::Rows]
    } else if is_tall(form) {
        [Engine::Tableaus, Engine::Factors, Engine::Rows]
    } else {
        [Engine::Rows, Engine::Tableaus, Engine::Factors]
    }
}

/// The effort of a run over rows whose certificate has numbers of 127 bits, some seconds of it: each number that is
/// changed counts for the square of its words.
pub(crate) const WORK: u64 = 512_000_000;

// Runs one engine, and has the certificate of its end, if it comes to one, checked at 127 bits. The rows give up where
// their effort passes `work` too, and always as `Spent`.
fn run(
    alloc: Global,
    budget: u64,
    work: u64,
    model: &Model,
    form: &Form,
    engine: Engine,
) -> Result<End, AllocError>
    requires { form_of (Some number_limit) model.now ≡ Ok form.now }
    ensures answer { IfOk result (IsRunOf budget model.now form.now engine) }
    ensures narrow { IfOk result (IsFit model.now) }
{
    match engine {
        Engine::Factors => match cold_over_factors(alloc, form, budget) {
            Ok(end) => Ok(checked_cold(
                model,
                end.certificate,
                basis_of(form, end.basis),
                end.pivots,
            )),
            Err(Stop::Past(past)) => Ok(End::Past(past)),
            Err(Stop::Cause(_)) => Ok(End::Spent),
            Err(Stop::NoMemory) => Err(AllocError),
        },
        Engine::Tableaus => from_form(alloc, budget, model, form),
        Engine::Rows => match cold_over_rows::<Frac>(alloc, form, budget, work)? {
            Some(row_end) => Ok(checked_cold(
                model,
                row_end.certificate,
                basis_of(form, row_end.basis),
                row_end.pivots,
            )),
            None => Ok(End::Spent),
        },
    }
}

// The refusal that is kept after this engine gave up with `end`: `end` if it is the one over tableaus, else `refused`.
fn refusal(engine: Engine, refused: End, end: End) -> End
    ensures { KeepsRefusal engine refused end result }
{
    match engine {
        Engine::Tableaus => {
            drop(refused);
            end
        }
        Engine::Factors | Engine::Rows => {
            drop(end);
            refused
        }
    }
}

/// A solve from the start that each model has: one engine after the other, until one has an answer. It is that of the
/// cold solve without a limit, and the checker says yes to its certificate at 127 bits. Where all give up, it ends as
/// the tableaus do, `Past` or `Spent`. The rows give up where their effort passes `work` too.
pub(crate) fn cold_solve(
    alloc: Global,
    budget: u64,
    work: u64,
    model: &Model,
    form: &Form,
) -> Result<End, AllocError>
    requires { form_of (Some number_limit) model.now ≡ Ok form.now }
    ensures answer { IfOk result (order.MayEndCold (Some number_limit) budget model.now) }
    ensures narrow { IfOk result (IsFit model.now) }
{
    let mut refused = End::Spent;
    for engine in engines(form) {
        let end = run(alloc, budget, work, model, form, engine)?;
        match end {
            End::Ended { .. } => {
                drop(refused);
                return Ok(end);
            }
            End::Past(_) | End::Spent => refused = refusal(engine, refused, end),
        }
    }
    Ok(refused)
}
