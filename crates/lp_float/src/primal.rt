// The primal method: the column with the most wrong reduced cost for its weight enters, by the weights of Devex (Harris,
// "Pivot selection methods of the Devex LP code", 1973). Where values are outside of their bounds the cost is the sum of
// infeasibilities.
use crate::dual::{exchange, exchange_reduced, move_values};
use crate::number::{at, fill, index_at, put};
use crate::primal_ratio::{Block, blocking};
use crate::program::Program;
use crate::rebuild::{evaluate, make_row, price, reduce, solve_column, solve_unit};
use crate::sparse::add_to;
use crate::state::{State, refactor};
use std::alloc::{AllocError, Global};

// How far a number of the tableau by its row may be off from that by its column, beside 1 and the number, before the
// factors are made anew.
const APART: f64 = 1e-7;

// How far the two may be off with new factors, beside the number, before the run is lost.
const FAR_APART: f64 = 0.1;

// Past this weight of a column, all weights begin anew at 1.
const MOST_WEIGHT: f64 = 1e12;

/// How a run of the primal method ended.
#[derive(Clone, Copy)]
pub(crate) enum PrimalEnd {
    Optimal,
    /// The sum of infeasibilities is least.
    Infeasible,
    /// Nothing stops this column.
    Unbounded(usize),
    /// The effort is spent.
    Spent,
    /// The numbers are of no use.
    Lost,
}

// What came of a step of the primal method: it is done, it needs new factors, or the run ends.
#[derive(Clone, Copy)]
enum PrimalStep {
    Done,
    /// New factors are needed first.
    Unsure,
    End(PrimalEnd),
}

// The cost of a basic column in the sum of infeasibilities: 1 above its bounds, -1 below them, 0 within the tolerance.
fn sign(outside: f64, tolerance: f64) -> f64 {
    if outside > tolerance {
        1.0
    } else if outside < -tolerance {
        -1.0
    } else {
        0.0
    }
}

// Sets the costs of phase one by position: the sign of each basic column that is outside its bounds. Says whether there
// is one.
fn put_signs(state: &mut State) -> Result<bool, AllocError> {
    state.room.by_place.clear();
    for p in 0..state.basis.head.len() {
        let k = index_at(&state.basis.head, p);
        let sign = sign(state.outside(k), state.limits.primal);
        if sign != 0.0 {
            add_to(&mut state.room.by_place, p, sign)?;
        }
    }
    Ok(!state.room.by_place.places.is_empty())
}

// Sets the reduced costs by the sum of infeasibilities, if a basic column is outside of its bounds. Says whether one
// is.
fn price_outside(state: &mut State, program: &Program) -> Result<bool, AllocError> {
    let is_outside = put_signs(state)?;
    if is_outside {
        fill(&mut state.reduced, 0.0);
        price(state, program)?;
    }
    Ok(is_outside)
}

// The column that enters: that with the greatest square of its wrong reduced cost over its reference weight. None if no
// reduced cost is wrong beyond the tolerance.
fn priced(state: &State) -> Option<usize> {
    let mut found = None;
    let mut most = 0.0;
    for k in 0..state.status.len() {
        let wrong = state.wrong(k);
        if wrong > state.limits.dual {
            let score = wrong * wrong / at(&state.reference, k);
            if score > most {
                found = Some(k);
                most = score;
            }
        }
    }
    found
}

// Raises the reference weights of the columns with numbers in the row of the tableau, where they are too small. Gives
// the greatest weight so found.
fn raise_weights(state: &mut State, pivot: f64, own: f64) -> f64 {
    let row = &state.room.row;
    let mut most = 0.0;
    for k in &row.places {
        let quotient = at(&row.numbers, *k) / pivot;
        let weight = quotient * quotient * own;
        if weight > at(&state.reference, *k) {
            put(&mut state.reference, *k, weight);
        }
        most = weight.max(most);
    }
    most
}

// Brings the reference weights to those after the exchange. If one is too large all begin anew at 1.
fn update_weights(state: &mut State, entering: usize, leaving: usize) {
    let pivot = at(&state.room.row.numbers, entering);
    let own = at(&state.reference, entering);
    let most = raise_weights(state, pivot, own);
    let weight = own / (pivot * pivot);
    put(&mut state.reference, leaving, weight.max(1.0));
    if most.max(weight) > MOST_WEIGHT {
        fill(&mut state.reference, 1.0);
    }
}

// The entering column, which way it goes, and whether values are outside.
#[derive(Clone, Copy)]
struct Entering {
    column: usize,
    way: f64,
    is_outside: bool,
}

// Makes the exchange if row and column agree on the pivot. `Unsure` if new factors may help; else the run is lost.
fn exchange_surely(
    state: &mut State,
    program: &Program,
    entering: Entering,
    block: Block,
) -> Result<PrimalStep, AllocError> {
    let Block { place, step, to } = block;
    let k = entering.column;
    solve_unit(state, place)?;
    make_row(state, program)?;
    let by_row = at(&state.room.row.numbers, k);
    let by_column = at(&state.room.column.numbers, place);
    let apart = (by_row - by_column).abs();
    if state.basis.changes() > 0 && apart > APART * (1.0 + by_column.abs()) {
        return Ok(PrimalStep::Unsure);
    }
    if apart > FAR_APART * by_column.abs() {
        return Ok(PrimalStep::End(PrimalEnd::Lost));
    }
    let leaving = index_at(&state.basis.head, place);
    update_weights(state, k, leaving);
    if !entering.is_outside {
        exchange_reduced(state, k, leaving);
    }
    move_values(state, k, entering.way * step);
    exchange(state, place, k, to)?;
    Ok(PrimalStep::Done)
}

// Sends the entering column to its other bound, at the distance `range`, and moves the basic columns with it. Counts a
// step.
fn flip(state: &mut State, entering: Entering, range: f64) {
    move_values(state, entering.column, entering.way * range);
    state.turn(entering.column);
    state.steps = state.steps.wrapping_add(1);
}

// Moves the entering column until a basic one or its own other bound stops it: an exchange or a flip. Where nothing
// does, new factors are needed first, if some column came in since; else the end is `Lost` with a value outside, and
// `Unbounded` without.
fn advance(
    state: &mut State,
    program: &Program,
    entering: Entering,
) -> Result<PrimalStep, AllocError> {
    solve_column(state, program, entering.column)?;
    let range = state.range(entering.column);
    match blocking(state, entering.way) {
        Some(block) if block.step < range => exchange_surely(state, program, entering, block),
        Some(_) | None if range < f64::INFINITY => {
            flip(state, entering, range);
            Ok(PrimalStep::Done)
        }
        Some(_) | None if state.basis.changes() > 0 => Ok(PrimalStep::Unsure),
        Some(_) | None if entering.is_outside => Ok(PrimalStep::End(PrimalEnd::Lost)),
        Some(_) | None => Ok(PrimalStep::End(PrimalEnd::Unbounded(entering.column))),
    }
}

// What it means that no column enters: with new factors an optimum, or infeasible if values are outside; else new
// factors are needed first.
fn at_rest(state: &State, is_outside: bool) -> PrimalStep {
    if state.basis.changes() > 0 {
        PrimalStep::Unsure
    } else if is_outside {
        PrimalStep::End(PrimalEnd::Infeasible)
    } else {
        PrimalStep::End(PrimalEnd::Optimal)
    }
}

// One step of the primal method: prices, takes the entering column, and exchanges or flips; or ends, or asks for new
// factors. `was_outside` says whether values were outside at the step before, and is brought up to date.
fn primal_step(
    state: &mut State,
    program: &Program,
    was_outside: &mut bool,
) -> Result<PrimalStep, AllocError> {
    let is_outside = price_outside(state, program)?;
    if *was_outside && !is_outside {
        reduce(state, program)?;
        fill(&mut state.reference, 1.0);
    }
    *was_outside = is_outside;
    let Some(column) = priced(state) else {
        return Ok(at_rest(state, is_outside));
    };
    let way = if at(&state.reduced, column) < 0.0 {
        1.0
    } else {
        -1.0
    };
    advance(
        state,
        program,
        Entering {
            column,
            way,
            is_outside,
        },
    )
}

// Makes the factors, the basic values and the reduced costs anew from the numbers of the program.
fn rebuild(alloc: Global, state: &mut State, program: &Program) -> Result<(), AllocError> {
    refactor(alloc, state, program)?;
    evaluate(state, program)?;
    reduce(state, program)
}

/// Runs the primal method in floats from the state's basis to its end, or until the state has taken `effort` steps in
/// all, or the run as many tries.
pub(crate) fn run_primal(
    alloc: Global,
    state: &mut State,
    program: &Program,
    effort: u64,
) -> Result<PrimalEnd, AllocError> {
    rebuild(alloc, state, program)?;
    fill(&mut state.reference, 1.0);
    let mut was_outside = false;
    for _ in 0..effort {
        if state.basis.is_long() {
            rebuild(alloc, state, program)?;
        }
        match primal_step(state, program, &mut was_outside)? {
            PrimalStep::Done => {}
            PrimalStep::Unsure => rebuild(alloc, state, program)?,
            PrimalStep::End(end) => return Ok(end),
        }
        if state.steps >= effort {
            return Ok(PrimalEnd::Spent);
        }
    }
    Ok(PrimalEnd::Spent)
}
