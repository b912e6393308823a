// Whole runs.
use crate::dual::{DualEnd, run_dual};
use crate::end::FloatEnd;
use crate::number::{at, copy, fill, greatest, mixed, put};
use crate::primal::{PrimalEnd, run_primal};
use crate::program::Program;
use crate::rebuild::{evaluate, reduce};
use crate::state::{Limits, State, resting, state_at};
use crate::statuses::status_at;
use spec_pivot::Status;
use std::alloc::{AllocError, Global};

// The tolerances of a run but for its last part.
const LIMITS: Limits = Limits {
    primal: 1e-7,
    dual: 1e-7,
};

// The tolerances of a run's last part, and of a short run.
const TIGHT: Limits = Limits {
    primal: 1e-9,
    dual: 1e-9,
};

// How often the dual and then the primal method are run, at most.
const ROUNDS: u32 = 5;

// How many steps a basis is from an end that is near, at most.
const NEAR: u64 = 1000;

// How far costs are moved apart, beside 1, and beside the greatest.
const APART: f64 = 5e-7;

// How a run ended.
#[derive(Clone, Copy)]
enum Kind {
    /// The basis is optimal.
    Optimal,
    /// Nothing brings this basic column within its bounds. None is named where the sum of infeasibilities is least.
    Infeasible(Option<usize>),
    /// All are within their bounds, and nothing stops this column.
    Unbounded(usize),
    /// The effort is spent, or the numbers are of no use.
    GivenUp,
}

// The status of a column in the logical basis: basic if it is logical, else at the bound nearer to 0, or at 0 without
// bounds.
fn first_status(program: &Program, k: usize) -> Status {
    let lower = at(&program.lower, k);
    let upper = at(&program.upper, k);
    if program.is_logical(k) {
        Status::Basic
    } else if lower.abs() <= upper.abs() {
        resting(Status::AtLower, lower, upper)
    } else {
        resting(Status::AtUpper, lower, upper)
    }
}

/// The statuses of the basis of the logical columns, with each structural column at the bound nearer to 0, or at 0
/// without bounds.
pub(crate) fn logical_start(alloc: Global, program: &Program) -> Result<Vec<Status>, AllocError> {
    let mut list = Vec::with_capacity(alloc, program.len())?;
    for k in 0..program.len() {
        list.push(first_status(program, k))?;
    }
    Ok(list)
}

// By how much the cost of a column is changed so that ties between columns are rare: up if it has a lower bound, and no
// upper one or a cost that is not below 0; else down. 0 for logical, fixed and free columns.
fn shift_of(program: &Program, k: usize, base: f64, seed: u64) -> f64 {
    let lower = at(&program.lower, k);
    let upper = at(&program.upper, k);
    let cost = at(&program.cost, k);
    let by = (cost.abs() + 1.0) * base * (1.0 + mixed(seed.wrapping_add(k as u64)));
    let has_lower = lower > f64::NEG_INFINITY;
    let has_upper = upper < f64::INFINITY;
    if lower == upper || program.is_logical(k) || !(has_lower || has_upper) {
        0.0
    } else if has_lower && (!has_upper || cost >= 0.0) {
        by
    } else {
        -by
    }
}

// Sets the costs to the program's, moved a little apart, to the side on which reduced costs stay right. The costs of
// logical, fixed and free columns are not moved.
fn perturb(state: &mut State, program: &Program, seed: u64) {
    let most = greatest(&program.cost);
    let scale = if most > 100.0 {
        (10.0 * most.sqrt()).sqrt()
    } else {
        most.max(1.0)
    };
    for k in 0..program.len() {
        let cost = at(&program.cost, k) + shift_of(program, k, APART * scale, seed);
        put(&mut state.cost, k, cost);
    }
}

// The box that replaces a column's bounds while a dual feasible basis is looked for: wide only on the sides without a
// bound.
fn box_of(lower: f64, upper: f64) -> (f64, f64) {
    match (lower > f64::NEG_INFINITY, upper < f64::INFINITY) {
        (true, true) => (0.0, 0.0),
        (true, false) => (0.0, 1.0),
        (false, true) => (-1.0, 0.0),
        (false, false) => (-1000.0, 1000.0),
    }
}

// Replaces the bounds by boxes: where a basis is optimal in them at 0, its reduced costs are right without them.
fn put_boxes(state: &mut State, program: &Program) {
    for k in 0..program.len() {
        let (lower, upper) = box_of(at(&program.lower, k), at(&program.upper, k));
        put(&mut state.lower, k, lower);
        put(&mut state.upper, k, upper);
    }
}

// Sets the state's bounds to those of the program again.
fn put_bounds(state: &mut State, program: &Program) {
    copy(&mut state.lower, &program.lower);
    copy(&mut state.upper, &program.upper);
}

// Moves a nonbasic column to the bound that the sign of its reduced cost calls for, or to its other bound, or to 0, if
// it lacks that.
fn settle_by_cost(state: &mut State, k: usize) {
    let reduced = at(&state.reduced, k);
    let wanted = if reduced > 0.0 {
        Status::AtLower
    } else if reduced < 0.0 {
        Status::AtUpper
    } else {
        status_at(&state.status, k)
    };
    state.settle(k, wanted);
}

// Moves each nonbasic column to the bound that the sign of its reduced cost calls for, or to its other bound, or to 0,
// if it lacks that.
fn settle_all(state: &mut State) {
    for k in 0..state.status.len() {
        if !state.is_basic(k) {
            settle_by_cost(state, k);
        }
    }
}

// Looks for a basis that is dual feasible, by the dual method with boxes for bounds, and puts the bounds back. There
// may be none.
fn first_phase(
    alloc: Global,
    state: &mut State,
    program: &Program,
    effort: u64,
) -> Result<(), AllocError> {
    put_boxes(state, program);
    settle_all(state);
    let _ = run_dual(alloc, state, program, effort)?;
    put_bounds(state, program);
    reduce(state, program)?;
    settle_all(state);
    evaluate(state, program)
}

// Begins the float run: perturbs the costs, and makes the reduced costs and the basic values. Where a reduced cost has
// the wrong sign, a first phase looks for a basis that is dual feasible; there may be none.
fn begin(
    alloc: Global,
    state: &mut State,
    program: &Program,
    effort: u64,
) -> Result<(), AllocError> {
    perturb(state, program, 0);
    reduce(state, program)?;
    settle_all(state);
    evaluate(state, program)?;
    if state.most_wrong() > state.limits.dual {
        first_phase(alloc, state, program, effort)?;
    }
    Ok(())
}

// The end where the sum of infeasibilities is least: `Infeasible`, with a column that nothing brings within its bounds,
// if the dual method without costs finds one.
fn blocked(
    alloc: Global,
    state: &mut State,
    program: &Program,
    effort: u64,
) -> Result<Option<Kind>, AllocError> {
    fill(&mut state.cost, 0.0);
    match run_dual(alloc, state, program, effort)? {
        DualEnd::Blocked(k) => Ok(Some(Kind::Infeasible(Some(k)))),
        DualEnd::Feasible | DualEnd::Spent | DualEnd::Lost => Ok(Some(Kind::Infeasible(None))),
    }
}

// Sets the program's costs, and ends: at once if all is right, else by the primal method. There is no end where the
// numbers are of no use.
fn finish(
    alloc: Global,
    state: &mut State,
    program: &Program,
    is_feasible: bool,
    effort: u64,
) -> Result<Option<Kind>, AllocError> {
    copy(&mut state.cost, &program.cost);
    reduce(state, program)?;
    if is_feasible && state.most_wrong() <= state.limits.dual {
        return Ok(Some(Kind::Optimal));
    }
    match run_primal(alloc, state, program, effort)? {
        PrimalEnd::Optimal => Ok(Some(Kind::Optimal)),
        PrimalEnd::Unbounded(k) => Ok(Some(Kind::Unbounded(k))),
        PrimalEnd::Infeasible => blocked(alloc, state, program, effort),
        PrimalEnd::Spent => Ok(Some(Kind::GivenUp)),
        PrimalEnd::Lost => Ok(None),
    }
}

// One round: the dual method, and then the primal one if that is needed. There is no end where the numbers are of no
// use.
fn round(
    alloc: Global,
    state: &mut State,
    program: &Program,
    effort: u64,
) -> Result<Option<Kind>, AllocError> {
    match run_dual(alloc, state, program, effort)? {
        DualEnd::Blocked(k) => Ok(Some(Kind::Infeasible(Some(k)))),
        DualEnd::Spent => Ok(Some(Kind::GivenUp)),
        DualEnd::Feasible => finish(alloc, state, program, true, effort),
        DualEnd::Lost => finish(alloc, state, program, false, effort),
    }
}

// Runs rounds until there is an end, five at most; then the run is given up.
fn rounds(
    alloc: Global,
    state: &mut State,
    program: &Program,
    effort: u64,
) -> Result<Kind, AllocError> {
    for _ in 0..ROUNDS {
        if let Some(kind) = round(alloc, state, program, effort)? {
            return Ok(kind);
        }
    }
    Ok(Kind::GivenUp)
}

// Whether both runs ended at an optimum, or both without a limit.
fn are_alike(kind: Kind, again: Kind) -> bool {
    matches!(
        (kind, again),
        (Kind::Optimal, Kind::Optimal) | (Kind::Unbounded(_), Kind::Unbounded(_))
    )
}

// Whether a run with tight tolerances may lead further: from an optimum, or where the end is unbounded and a value is
// outside.
fn is_rough(state: &State, kind: Kind) -> bool {
    match kind {
        Kind::Optimal => true,
        Kind::Unbounded(_) => state.most_outside() > TIGHT.primal,
        Kind::Infeasible(_) | Kind::GivenUp => false,
    }
}

// Runs a round with tight tolerances. Gives the kind of its end, if it is the same kind of end as before; else none.
fn polish(
    alloc: Global,
    state: &mut State,
    program: &Program,
    kind: Kind,
    effort: u64,
) -> Result<Option<Kind>, AllocError> {
    state.limits = TIGHT;
    match round(alloc, state, program, effort)? {
        Some(again) if are_alike(kind, again) => Ok(Some(again)),
        Some(_) | None => Ok(None),
    }
}

// The end of a run of this kind: that of another round with tight tolerances, where such a round may lead further and
// ends alike; else the one before it.
fn last_end(
    alloc: Global,
    state: &mut State,
    program: &Program,
    kind: Kind,
    effort: u64,
) -> Result<FloatEnd, AllocError> {
    let statuses = Vec::from_slice(alloc, &state.status)?;
    if is_rough(state, kind) {
        if let Some(again) = polish(alloc, state, program, kind, effort)? {
            return Ok(FloatEnd {
                statuses: Vec::from_slice(alloc, &state.status)?,
                witness: witness_of(again),
            });
        }
    }
    Ok(FloatEnd {
        statuses,
        witness: witness_of(kind),
    })
}

// The column by which there is no optimum, if this end names one; none at an optimum.
fn witness_of(kind: Kind) -> Option<usize> {
    match kind {
        Kind::Infeasible(column) => column,
        Kind::Unbounded(column) => Some(column),
        Kind::Optimal | Kind::GivenUp => None,
    }
}

// Runs rounds from the state, and gives their end; none where the run is given up.
fn end_of(
    alloc: Global,
    state: &mut State,
    program: &Program,
    effort: u64,
) -> Result<Option<FloatEnd>, AllocError> {
    let kind = rounds(alloc, state, program, effort)?;
    if matches!(kind, Kind::GivenUp) {
        return Ok(None);
    }
    Ok(Some(last_end(alloc, state, program, kind, effort)?))
}

/// The end of a run of the simplex method in floats, if it has one. It begins at the basis of the given statuses, which is
/// mended where it is none. Costs are moved apart at first, and reduced costs made right. A run takes at most `effort` steps,
/// and as many tries in each part. Its only error is to be out of memory.
pub(crate) fn run(
    alloc: Global,
    program: &Program,
    start: &[Status],
    effort: u64,
) -> Result<Option<FloatEnd>, AllocError> {
    let mut state = state_at(alloc, program, start, LIMITS)?;
    begin(alloc, &mut state, program, effort)?;
    end_of(alloc, &mut state, program, effort)
}

/// The end of a short run, if it has one: one round from the basis of the given statuses, which is mended where it is
/// none. No costs are moved apart at first, and tolerances are tight. It takes at most `effort` steps, and 1,000. Only
/// want of memory is an error.
pub(crate) fn run_near(
    alloc: Global,
    program: &Program,
    start: &[Status],
    effort: u64,
) -> Result<Option<FloatEnd>, AllocError> {
    let mut state = state_at(alloc, program, start, TIGHT)?;
    match round(alloc, &mut state, program, effort.min(NEAR))? {
        Some(Kind::GivenUp | Kind::Infeasible(None)) | None => Ok(None),
        Some(kind) => Ok(Some(FloatEnd {
            statuses: Vec::from_slice(alloc, &state.status)?,
            witness: witness_of(kind),
        })),
    }
}
