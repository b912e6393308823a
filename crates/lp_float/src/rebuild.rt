// Values, reduced costs and rows of the tableau, from the factors of the basis.
use crate::number::{add_at, at, copy, flag_at, index_at, product, put};
use crate::program::Program;
use crate::sparse::{add_line, add_to, is_dense, put_in};
use crate::state::{Room, State};
use lp_sparse::{Entry, Sparse};
use std::alloc::AllocError;

// What is taken for 0 in a row of the inverse.
const NOTHING: f64 = 1e-14;

// Where more than one number in so many of a row of the inverse is not 0, the columns of the program are gone over.
const DENSE: usize = 3;

/// Adds `times` times a column of the program to numbers by row. A logical column has -1 in its row.
pub(crate) fn add_column(
    list: &mut Sparse<f64>,
    program: &Program,
    k: usize,
    times: f64,
) -> Result<(), AllocError> {
    if program.is_logical(k) {
        add_to(list, program.row_of(k), -times)
    } else {
        add_line(list, program.columns.line(k), times)
    }
}

// Sets the right sides, by row, that the nonbasic columns at their values leave for the basic ones.
fn put_rest(state: &mut State, program: &Program) -> Result<(), AllocError> {
    state.room.by_row.clear();
    for k in 0..program.len() {
        let value = at(&state.value, k);
        if value != 0.0 && !state.is_basic(k) {
            add_column(&mut state.room.by_row, program, k, -value)?;
        }
    }
    Ok(())
}

// Gives the basic columns the values of the solution in `other`.
fn put_values(state: &mut State) {
    for p in 0..state.basis.head.len() {
        let k = index_at(&state.basis.head, p);
        put(&mut state.value, k, at(&state.room.other.numbers, p));
        state.note_outside(p);
    }
}

/// Gives each basic column its value, by the factors, from the values of the nonbasic columns.
pub(crate) fn evaluate(state: &mut State, program: &Program) -> Result<(), AllocError> {
    put_rest(state, program)?;
    state
        .basis
        .solve(&mut state.room.by_row, &mut state.room.other)?;
    put_values(state);
    Ok(())
}

// Sets the costs of the basic columns as right sides, by position.
fn put_costs(state: &mut State) -> Result<(), AllocError> {
    state.room.by_place.clear();
    for (p, k) in state.basis.head.iter().enumerate() {
        let cost = at(&state.cost, *k);
        if cost != 0.0 {
            add_to(&mut state.room.by_place, p, cost)?;
        }
    }
    Ok(())
}

// Subtracts the multipliers times its column from each reduced cost. That of a basic column becomes 0.
fn take_products(state: &mut State, program: &Program) {
    for k in 0..program.len() {
        let part = if state.is_basic(k) {
            at(&state.reduced, k)
        } else if program.is_logical(k) {
            -at(&state.room.multiplier.numbers, program.row_of(k))
        } else {
            product(&state.room.multiplier.numbers, program.columns.line(k))
        };
        add_at(&mut state.reduced, k, -part);
    }
}

/// Finds the multipliers for the costs in `by_place`, and subtracts them times its column from each reduced cost.
pub(crate) fn price(state: &mut State, program: &Program) -> Result<(), AllocError> {
    state
        .basis
        .solve_turned(&mut state.room.by_place, &mut state.room.multiplier)?;
    take_products(state, program);
    Ok(())
}

/// Gives each column its reduced cost by the costs of the state; 0 to a basic one.
pub(crate) fn reduce(state: &mut State, program: &Program) -> Result<(), AllocError> {
    put_costs(state)?;
    copy(&mut state.reduced, &state.cost);
    price(state, program)
}

/// Solves for column `k` of the program: `room.column` becomes its numbers in the tableau, by position.
pub(crate) fn solve_column(
    state: &mut State,
    program: &Program,
    k: usize,
) -> Result<(), AllocError> {
    state.room.by_row.clear();
    add_column(&mut state.room.by_row, program, k, 1.0)?;
    state
        .basis
        .solve(&mut state.room.by_row, &mut state.room.column)
}

/// Finds the row of the inverse at a position, by row of the program, into `room.inverse_row`.
pub(crate) fn solve_unit(state: &mut State, place: usize) -> Result<(), AllocError> {
    state.room.by_place.clear();
    add_to(&mut state.room.by_place, place, 1.0)?;
    state
        .basis
        .solve_turned(&mut state.room.by_place, &mut state.room.inverse_row)
}

// Adds `times` times a row of the program to the row of the tableau, without the columns that never enter.
fn add_row(
    row: &mut Sparse<f64>,
    idle: &[bool],
    line: &[Entry<f64>],
    times: f64,
) -> Result<(), AllocError> {
    for entry in line {
        if !flag_at(idle, entry.place) {
            add_to(row, entry.place, times * entry.value)?;
        }
    }
    Ok(())
}

// Adds up the row of the tableau from the rows of the program for which the row of the inverse has a number.
fn make_by_rows(state: &mut State, program: &Program) -> Result<(), AllocError> {
    let Room {
        inverse_row,
        row,
        ..
    } = &mut state.room;
    for i in &inverse_row.places {
        let number = at(&inverse_row.numbers, *i);
        if number.abs() > NOTHING {
            add_row(row, &state.idle, program.by_rows.line(*i), number)?;
            let logical = [Entry {
                place: program.logical(*i),
                value: -1.0,
            }];
            add_row(row, &state.idle, &logical, number)?;
        }
    }
    Ok(())
}

// Makes the row of the tableau as the product of the row of the inverse with each column that may enter.
fn make_by_columns(state: &mut State, program: &Program) -> Result<(), AllocError> {
    let Room {
        inverse_row,
        row,
        ..
    } = &mut state.room;
    for (k, is_idle) in state.idle.iter().enumerate() {
        if !*is_idle {
            let number = if program.is_logical(k) {
                -at(&inverse_row.numbers, program.row_of(k))
            } else {
                product(&inverse_row.numbers, program.columns.line(k))
            };
            if number != 0.0 {
                put_in(row, k, number)?;
            }
        }
    }
    Ok(())
}

/// Makes the row of the tableau, by column, from the row of the inverse, without the columns that never enter.
pub(crate) fn make_row(state: &mut State, program: &Program) -> Result<(), AllocError> {
    state.room.row.clear();
    if is_dense(&state.room.inverse_row, DENSE) {
        make_by_columns(state, program)
    } else {
        make_by_rows(state, program)
    }
}
