// The dual method (Koberstein, "The dual simplex method, techniques for a fast and stable implementation", 2005): the
// column with the greatest infeasibility for its weight leaves, by the weights of the dual steepest edge (Forrest and
// Goldfarb, "Steepest-edge simplex algorithms for linear programming", 1992).
use crate::dual_ratio::{NO_PIVOT, Trial, choose};
use crate::number::{add_at, at, index_at, put};
use crate::program::Program;
use crate::rebuild::{add_column, evaluate, make_row, reduce, solve_column, solve_unit};
use crate::sparse::{copy_to, square};
use crate::state::{Room, State, refactor};
use crate::statuses::put_status;
use spec_pivot::Status;
use std::alloc::{AllocError, Global};

// The least weight of a position.
const LEAST_WEIGHT: f64 = 1e-4;

// How far a number of the tableau by its row may be off from that by its column, beside 1 and the number, before the
// factors are made anew.
const APART: f64 = 1e-7;

// How far the two may be off with new factors, beside the number, before the pivot is refused.
const FAR_APART: f64 = 0.1;

// How many times as large as a number that turned out to be no pivot a pivot is until the next exchange.
const LARGER: f64 = 10.0;

// Past this size of a number that turned out to be no pivot, the run is lost.
const MOST_LEAST: f64 = 1e-3;

// Past this many times its weight, the squared norm of a leaving position's row lets another position be looked for.
const OFF: f64 = 4.0;

// How often in a row another leaving position is looked for, at most.
const RETRIES: u32 = 8;

/// How a run of the dual method ended.
#[derive(Clone, Copy)]
pub(crate) enum DualEnd {
    /// All values are within their bounds.
    Feasible,
    /// Nothing brings this basic column within its bounds.
    Blocked(usize),
    /// The effort is spent.
    Spent,
    /// The numbers are of no use.
    Lost,
}

// What came of a step of the dual method: it is done, it needs new factors, or the run ends.
#[derive(Clone, Copy)]
enum DualStep {
    Done,
    /// New factors are needed first.
    Unsure,
    End(DualEnd),
}

// A position whose column leaves, the square of the norm of its row of the inverse, and the column that enters.
#[derive(Clone, Copy)]
struct Pivot {
    place: usize,
    norm: f64,
    entering: usize,
}

// The position whose column leaves: that whose squared distance from its bounds is greatest over its weight. None if
// all are within their bounds.
fn leaving(state: &State) -> Option<usize> {
    let mut found = None;
    let mut most = 0.0;
    for (p, (square, weight)) in state.room.outside.iter().zip(&state.weight).enumerate() {
        if *square > most * *weight {
            found = Some(p);
            most = *square / *weight;
        }
    }
    found
}

// Subtracts `step` times the row of the tableau from the reduced costs.
fn move_reduced(state: &mut State, step: f64) {
    let row = &state.room.row;
    for k in &row.places {
        add_at(&mut state.reduced, *k, -(step * at(&row.numbers, *k)));
    }
}

/// Brings all reduced costs to those after an exchange, by the row of the tableau at the leaving position.
pub(crate) fn exchange_reduced(state: &mut State, entering: usize, leaving: usize) {
    let step = at(&state.reduced, entering) / at(&state.room.row.numbers, entering);
    move_reduced(state, step);
    put(&mut state.reduced, entering, 0.0);
    put(&mut state.reduced, leaving, -step);
}

// Moves these nonbasic columns to their other bounds. What the basic columns have to make up for in each row, the
// opposite of the change, is added to `by_row`.
fn turn_all(state: &mut State, program: &Program, flips: &[usize]) -> Result<(), AllocError> {
    for k in flips {
        let before = at(&state.value, *k);
        state.turn(*k);
        let by = at(&state.value, *k) - before;
        add_column(&mut state.room.by_row, program, *k, -by)?;
    }
    Ok(())
}

// Adds the numbers of the solution in `other` to the values of the basic columns at their positions.
fn add_solution(state: &mut State) {
    for n in 0..state.room.other.places.len() {
        let p = index_at(&state.room.other.places, n);
        let number = at(&state.room.other.numbers, p);
        if number != 0.0 {
            let k = index_at(&state.basis.head, p);
            add_at(&mut state.value, k, number);
            state.note_outside(p);
        }
    }
}

// Moves these nonbasic columns to their other bounds, and the basic columns so that the rows still hold.
fn flip_all(state: &mut State, program: &Program, flips: &[usize]) -> Result<(), AllocError> {
    if flips.is_empty() {
        return Ok(());
    }
    state.room.by_row.clear();
    turn_all(state, program, flips)?;
    state
        .basis
        .solve(&mut state.room.by_row, &mut state.room.other)?;
    add_solution(state);
    Ok(())
}

/// Adds `step` to the value of the entering column, and moves the basic columns so that the rows still hold.
pub(crate) fn move_values(state: &mut State, entering: usize, step: f64) {
    for n in 0..state.room.column.places.len() {
        let p = index_at(&state.room.column.places, n);
        let number = at(&state.room.column.numbers, p);
        if number != 0.0 {
            let k = index_at(&state.basis.head, p);
            add_at(&mut state.value, k, -(step * number));
            state.note_outside(p);
        }
    }
    add_at(&mut state.value, entering, step);
}

// Brings the weight of each position where the entering column has a number to that after the exchange, but for the
// leaving position.
fn update_all(state: &mut State, pivot: f64, norm: f64) {
    let Room { column, other, .. } = &state.room;
    for p in &column.places {
        let number = at(&column.numbers, *p);
        if number != 0.0 {
            let quotient = number / pivot;
            let change = quotient * (quotient * norm - 2.0 * at(&other.numbers, *p));
            let weight = at(&state.weight, *p) + change;
            put(&mut state.weight, *p, weight.max(LEAST_WEIGHT));
        }
    }
}

// Brings the weights of the dual steepest edge to those after the exchange at `place`. `norm` is the squared norm of
// that row of the inverse.
fn update_weights(state: &mut State, place: usize, norm: f64) -> Result<(), AllocError> {
    copy_to(&mut state.room.by_row, &state.room.inverse_row)?;
    state
        .basis
        .solve(&mut state.room.by_row, &mut state.room.other)?;
    let pivot = at(&state.room.column.numbers, place);
    update_all(state, pivot, norm);
    let own = norm / (pivot * pivot);
    put(&mut state.weight, place, own.max(LEAST_WEIGHT));
    Ok(())
}

/// Makes the entering column basic at the position of the leaving one, which goes to the bound `to`. Counts a step.
pub(crate) fn exchange(
    state: &mut State,
    place: usize,
    entering: usize,
    to: Status,
) -> Result<(), AllocError> {
    let leaving = index_at(&state.basis.head, place);
    state.basis.change(place, entering, &state.room.column)?;
    put_status(&mut state.status, entering, Status::Basic);
    state.settle(leaving, to);
    state.note_idle(entering);
    state.note_idle(leaving);
    state.note_outside(place);
    state.steps = state.steps.wrapping_add(1);
    Ok(())
}

// Changes the cost of column `k` so that its reduced cost becomes 0.
fn shift(state: &mut State, k: usize) {
    let reduced = at(&state.reduced, k);
    add_at(&mut state.cost, k, -reduced);
    put(&mut state.reduced, k, 0.0);
}

// Makes the pivot that the ratio test found: flips columns, moves values, updates weights and exchanges two columns.
fn apply(
    state: &mut State,
    program: &Program,
    trial: &Trial,
    pivot: Pivot,
) -> Result<(), AllocError> {
    let Pivot {
        place,
        norm,
        entering,
    } = pivot;
    let leaving = index_at(&state.basis.head, place);
    if state.wrong(entering) > 0.0 {
        shift(state, entering);
    }
    exchange_reduced(state, entering, leaving);
    flip_all(state, program, &trial.flips)?;
    let outside = state.outside(leaving);
    let step = outside / at(&state.room.column.numbers, place);
    move_values(state, entering, step);
    update_weights(state, place, norm)?;
    let to = if outside > 0.0 {
        Status::AtUpper
    } else {
        Status::AtLower
    };
    exchange(state, place, entering, to)
}

// Sets the weight of a position to the squared norm of its row of the inverse. Says whether that is more than four
// times the weight before.
fn correct_weight(state: &mut State, place: usize, norm: f64) -> bool {
    let weight = at(&state.weight, place);
    put(&mut state.weight, place, norm.max(LEAST_WEIGHT));
    norm > OFF * weight
}

// What comes of a pivot that turned out to be too small or unsure. Numbers of up to ten times its size are no pivots
// until the next exchange. The run is lost if the number is not small.
fn refused(trial: &mut Trial, by_row: f64) -> DualStep {
    if by_row.abs() > MOST_LEAST {
        return DualStep::End(DualEnd::Lost);
    }
    trial.least = (LARGER * by_row.abs()).max(trial.least);
    DualStep::Unsure
}

// Makes the exchange if row and column agree on a pivot that is large enough. `Unsure` if new factors may help or
// another pivot is wanted; else the run is lost.
fn exchange_surely(
    state: &mut State,
    program: &Program,
    trial: &mut Trial,
    pivot: Pivot,
) -> Result<DualStep, AllocError> {
    solve_column(state, program, pivot.entering)?;
    let by_row = at(&state.room.row.numbers, pivot.entering);
    let by_column = at(&state.room.column.numbers, pivot.place);
    let apart = (by_row - by_column).abs();
    if state.basis.changes() > 0 && apart > APART * (1.0 + by_column.abs()) {
        return Ok(DualStep::Unsure);
    }
    if by_column.abs() < NO_PIVOT || apart > FAR_APART * by_column.abs() {
        return Ok(refused(trial, by_row));
    }
    apply(state, program, trial, pivot)?;
    trial.least = NO_PIVOT;
    Ok(DualStep::Done)
}

// One step of the dual method: takes a leaving column, chooses an entering one by the ratio test, and exchanges them;
// or only corrects a weight that is far off, or asks for new factors. It ends where each basic value is within its
// bounds, no column may enter, or the numbers are of no use.
fn dual_step(
    state: &mut State,
    program: &Program,
    trial: &mut Trial,
) -> Result<DualStep, AllocError> {
    let Some(place) = leaving(state) else {
        return Ok(DualStep::End(DualEnd::Feasible));
    };
    solve_unit(state, place)?;
    let norm = square(&state.room.inverse_row);
    if correct_weight(state, place, norm) && trial.retries < RETRIES {
        trial.retries = trial.retries.wrapping_add(1);
        return Ok(DualStep::Done);
    }
    trial.retries = 0;
    make_row(state, program)?;
    let k = index_at(&state.basis.head, place);
    match choose(state, state.outside(k), norm, trial)? {
        Some(entering) => exchange_surely(
            state,
            program,
            trial,
            Pivot {
                place,
                norm,
                entering,
            },
        ),
        None if state.basis.changes() > 0 => Ok(DualStep::Unsure),
        None => Ok(DualStep::End(DualEnd::Blocked(k))),
    }
}

// Brings a wrong reduced cost right: the column goes to its other bound, if it has both; else its cost is shifted.
fn correct(state: &mut State, k: usize) {
    if state.range(k) < f64::INFINITY {
        state.turn(k);
    } else {
        shift(state, k);
    }
}

// Brings all reduced costs right that are wrong beyond the tolerance, by other bounds or by shifts of costs.
fn correct_all(state: &mut State) {
    for k in 0..state.status.len() {
        if state.wrong(k) > state.limits.dual {
            correct(state, k);
        }
    }
}

// Makes the factors, the reduced costs and the basic values anew from the numbers of the program. Reduced costs that
// are wrong are brought right before the values are made.
fn rebuild(alloc: Global, state: &mut State, program: &Program) -> Result<(), AllocError> {
    refactor(alloc, state, program)?;
    reduce(state, program)?;
    correct_all(state);
    evaluate(state, program)
}

// Takes steps of the dual method until its end, or until `effort` steps or as many tries are spent. New factors are
// made where they are due.
fn dual_steps(
    alloc: Global,
    state: &mut State,
    program: &Program,
    trial: &mut Trial,
    effort: u64,
) -> Result<DualEnd, AllocError> {
    rebuild(alloc, state, program)?;
    for _ in 0..effort {
        if state.basis.is_long() {
            rebuild(alloc, state, program)?;
        }
        match dual_step(state, program, trial)? {
            DualStep::Done => {}
            DualStep::End(DualEnd::Feasible) if state.basis.changes() > 0 => {
                rebuild(alloc, state, program)?;
            }
            DualStep::End(end) => return Ok(end),
            DualStep::Unsure => rebuild(alloc, state, program)?,
        }
        if state.steps >= effort {
            return Ok(DualEnd::Spent);
        }
    }
    Ok(DualEnd::Spent)
}

/// Runs the dual method from the state's basis to its end, or until the state has taken `effort` steps in all, or the
/// run as many tries. Reduced costs that are wrong beyond the tolerance at its beginning are made right by the other
/// bounds or by the costs of the state.
pub(crate) fn run_dual(
    alloc: Global,
    state: &mut State,
    program: &Program,
    effort: u64,
) -> Result<DualEnd, AllocError> {
    let mut trial = Trial::new(alloc);
    dual_steps(alloc, state, program, &mut trial, effort)
}
