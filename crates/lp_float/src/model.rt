// Programs of models.
use crate::program::Program;
use crate::scaling::scale;
use lp_frac::{Frac, Past, den, is_negative, num};
use lp_model::{Model, lower_limit, upper_limit};
use lp_sparse::{Lines, numbered, turned};
use spec_model::Sense;
use std::alloc::{AllocError, Global};
use std::num::nearest_u64_to_f64;

// 2^64.
const WORD: f64 = 18446744073709551616.0;

// The float near a natural number of 128 bits.
fn near(n: u128) -> f64 {
    let high = (n >> 64) as u64;
    let low = (n & 0xffff_ffff_ffff_ffff) as u64;
    nearest_u64_to_f64(high) * WORD + nearest_u64_to_f64(low)
}

// The float near a fraction, with its sign.
fn float(v: Frac) -> f64 {
    let magnitude = near(num(v).unsigned_abs()) / near(den(v).unsigned_abs());
    if is_negative(v) {
        -magnitude
    } else {
        magnitude
    }
}

// A bound as a float, or `none` where it is absent.
fn bound_or(bound: Option<Frac>, none: f64) -> f64 {
    match bound {
        Some(bound) => float(bound),
        None => none,
    }
}

// The cost as one to be made least: negated where the model is to be maximized.
fn signed(sense: Sense, cost: f64) -> f64 {
    match sense {
        Sense::Min => cost,
        Sense::Max => -cost,
    }
}

// A program of the model's sizes, with no columns, bounds or costs yet.
fn empty_program(alloc: Global, model: &Model) -> Program {
    Program {
        rows: model.rows() as usize,
        cols: model.cols() as usize,
        columns: Lines::new(alloc),
        by_rows: Lines::new(alloc),
        lower: Vec::new(alloc),
        upper: Vec::new(alloc),
        cost: Vec::new(alloc),
    }
}

// Adds one column's bounds and its cost at the end of the program's lists.
fn add_column(program: &mut Program, lower: f64, upper: f64, cost: f64) -> Result<(), AllocError> {
    program.lower.push(lower)?;
    program.upper.push(upper)?;
    program.cost.push(cost)?;
    Ok(())
}

// Adds the bounds and the costs of the structural columns.
fn add_columns(program: &mut Program, model: &Model) -> Result<(), AllocError> {
    for j in 0..model.cols() {
        let column = model.col(j);
        let lower = bound_or(column.lower, f64::NEG_INFINITY);
        let upper = bound_or(column.upper, f64::INFINITY);
        let cost = signed(model.sense(), float(column.cost));
        add_column(program, lower, upper, cost)?;
    }
    Ok(())
}

// A limit, none where it is past 127 bits.
fn unless_past(limit: Result<Option<Frac>, Past>) -> Option<Frac> {
    match limit {
        Ok(limit) => limit,
        Err(_) => None,
    }
}

// Adds the limits of the rows as bounds of the logical columns.
fn add_rows(program: &mut Program, model: &Model) -> Result<(), AllocError> {
    for i in 0..model.rows() {
        let row = model.row(i);
        let lower = bound_or(unless_past(lower_limit(row)), f64::NEG_INFINITY);
        let upper = bound_or(unless_past(upper_limit(row)), f64::INFINITY);
        add_column(program, lower, upper, 0.0)?;
    }
    Ok(())
}

// Adds the entries of a column, in floats, as one line.
fn put_line(lines: &mut Lines<f64>, entries: &[(u32, Frac)]) -> Result<(), AllocError> {
    for (i, number) in entries {
        lines.put(*i as usize, float(*number))?;
    }
    lines.end()
}

// Adds a line for each structural column of a model.
fn put_lines(lines: &mut Lines<f64>, model: &Model) -> Result<(), AllocError> {
    for j in 0..model.cols() {
        put_line(lines, model.entries(j))?;
    }
    Ok(())
}

// Adds the columns and the rows of a model to a program without columns.
fn put_model(alloc: Global, program: &mut Program, model: &Model) -> Result<(), AllocError> {
    add_columns(program, model)?;
    add_rows(program, model)?;
    put_lines(&mut program.columns, model)?;
    let names = numbered(alloc, program.cols)?;
    program.by_rows = turned(alloc, &program.columns, &names, program.rows, 0.0)?;
    Ok(())
}

/// The program of a model in floats, scaled by powers of two. Where the model is to be maximized, its costs are
/// negated.
pub(crate) fn program_of(alloc: Global, model: &Model) -> Result<Program, AllocError> {
    let mut program = empty_program(alloc, model);
    put_model(alloc, &mut program, model)?;
    scale(alloc, &mut program)?;
    Ok(program)
}
