// The state of a run.
use crate::basis::{Basis, NOWHERE, basis_of};
use crate::number::{at, index_at, put};
use crate::program::Program;
use crate::statuses::{is_basic, put_status, status_at};
use lp_sparse::Sparse;
use spec_pivot::Status;
use std::alloc::{AllocError, Global};

/// The basis of a run, its bounds and costs, its values and reduced costs, by column, and room for its steps.
pub(crate) struct State {
    pub(crate) lower: Vec<f64>,
    pub(crate) upper: Vec<f64>,
    pub(crate) cost: Vec<f64>,
    pub(crate) value: Vec<f64>,
    pub(crate) reduced: Vec<f64>,
    pub(crate) status: Vec<Status>,
    /// Whether a column never enters: it is basic, or its bounds are the same.
    pub(crate) idle: Vec<bool>,
    pub(crate) basis: Basis,
    /// The weights of the dual method, by position, and those of the primal one, by column.
    pub(crate) weight: Vec<f64>,
    pub(crate) reference: Vec<f64>,
    pub(crate) room: Room,
    pub(crate) limits: Limits,
    pub(crate) steps: u64,
}

/// Room for the steps of a run.
pub(crate) struct Room {
    /// By row: the row of the inverse at the leaving position.
    pub(crate) inverse_row: Sparse<f64>,
    /// By column: the row of the tableau at the leaving position, without the columns that never enter.
    pub(crate) row: Sparse<f64>,
    /// By position: the square of how far the value is outside, 0 where that is within the tolerance.
    pub(crate) outside: Vec<f64>,
    /// By position: the entering column, solved, and another solution.
    pub(crate) column: Sparse<f64>,
    pub(crate) other: Sparse<f64>,
    /// Right sides by row and by position.
    pub(crate) by_row: Sparse<f64>,
    pub(crate) by_place: Sparse<f64>,
    /// By row: multipliers.
    pub(crate) multiplier: Sparse<f64>,
}

/// How far values may be outside of their bounds, and reduced costs on the wrong side of 0.
#[derive(Clone, Copy)]
pub(crate) struct Limits {
    pub(crate) primal: f64,
    pub(crate) dual: f64,
}

impl Drop for Room {
    fn drop(self) {
        let Room {
            inverse_row,
            row,
            outside,
            column,
            other,
            by_row,
            by_place,
            multiplier,
        } = self;
        drop(inverse_row);
        drop(row);
        drop(outside);
        drop(column);
        drop(other);
        drop(by_row);
        drop(by_place);
        drop(multiplier);
    }
}

impl Drop for State {
    fn drop(self) {
        let State {
            lower,
            upper,
            cost,
            value,
            reduced,
            status,
            idle,
            basis,
            weight,
            reference,
            room,
            limits: _,
            steps: _,
        } = self;
        drop(lower);
        drop(upper);
        drop(cost);
        drop(value);
        drop(reduced);
        drop(status);
        drop(idle);
        drop(basis);
        drop(weight);
        drop(reference);
        drop(room);
    }
}

// The columns that these statuses say are basic, but only the first ones, as many as there are rows.
fn basic_columns(
    alloc: Global,
    program: &Program,
    status: &[Status],
) -> Result<Vec<usize>, AllocError> {
    let mut head = Vec::with_capacity(alloc, program.rows)?;
    for (k, status) in status.iter().enumerate() {
        if is_basic(*status) && head.len() < program.rows {
            head.push(k)?;
        }
    }
    Ok(head)
}

// The basic columns of statuses, as many as there are rows at most. Where they are fewer, logical ones that the
// statuses say are not basic follow; they stay fewer where the statuses end before the logical columns.
fn head_of(alloc: Global, program: &Program, status: &[Status]) -> Result<Vec<usize>, AllocError> {
    let mut head = basic_columns(alloc, program, status)?;
    for i in 0..program.rows {
        let k = program.logical(i);
        if head.len() < program.rows && !is_basic(status_at(status, k)) {
            head.push(k)?;
        }
    }
    Ok(head)
}

/// The status of a nonbasic column with these bounds: the wanted bound if it has that, else its other one, else
/// `AtZero`.
pub(crate) fn resting(wanted: Status, lower: f64, upper: f64) -> Status {
    let has_lower = lower > f64::NEG_INFINITY;
    let has_upper = upper < f64::INFINITY;
    if has_upper && (matches!(wanted, Status::AtUpper) || !has_lower) {
        Status::AtUpper
    } else if has_lower {
        Status::AtLower
    } else {
        Status::AtZero
    }
}

// An empty list of numbers, without places.
fn no_numbers(alloc: Global) -> Sparse<f64> {
    Sparse {
        numbers: Vec::new(alloc),
        places: Vec::new(alloc),
    }
}

impl Room {
    // Empty lists, with room for no rows and no columns yet.
    fn new(alloc: Global) -> Self {
        Room {
            inverse_row: no_numbers(alloc),
            row: no_numbers(alloc),
            outside: Vec::new(alloc),
            column: no_numbers(alloc),
            other: no_numbers(alloc),
            by_row: no_numbers(alloc),
            by_place: no_numbers(alloc),
            multiplier: no_numbers(alloc),
        }
    }

    // Makes room for so many rows and columns, whose numbers are all 0.
    fn lengthen(&mut self, rows: usize, columns: usize) -> Result<(), AllocError> {
        self.inverse_row.numbers.resize(rows, 0.0)?;
        self.row.numbers.resize(columns, 0.0)?;
        self.outside.resize(rows, 0.0)?;
        self.column.numbers.resize(rows, 0.0)?;
        self.other.numbers.resize(rows, 0.0)?;
        self.by_row.numbers.resize(rows, 0.0)?;
        self.by_place.numbers.resize(rows, 0.0)?;
        self.multiplier.numbers.resize(rows, 0.0)?;
        Ok(())
    }
}

// Adds `len` statuses to a list: the given ones, and basic ones behind their end.
fn put_statuses(list: &mut Vec<Status>, len: usize, start: &[Status]) -> Result<(), AllocError> {
    for k in 0..len {
        list.push(status_at(start, k))?;
    }
    Ok(())
}

impl State {
    // A state with no numbers yet.
    fn new(alloc: Global, basis: Basis, limits: Limits) -> Self {
        State {
            lower: Vec::new(alloc),
            upper: Vec::new(alloc),
            cost: Vec::new(alloc),
            value: Vec::new(alloc),
            reduced: Vec::new(alloc),
            status: Vec::new(alloc),
            idle: Vec::new(alloc),
            basis,
            weight: Vec::new(alloc),
            reference: Vec::new(alloc),
            room: Room::new(alloc),
            limits,
            steps: 0,
        }
    }

    // Sets the bounds, the costs and the statuses of all columns of the program.
    fn put_columns(&mut self, program: &Program, start: &[Status]) -> Result<(), AllocError> {
        self.lower.extend_from_slice(&program.lower)?;
        self.upper.extend_from_slice(&program.upper)?;
        self.cost.extend_from_slice(&program.cost)?;
        put_statuses(&mut self.status, program.len(), start)
    }

    // Makes room for the values and reduced costs of so many columns, and for the weights of columns and rows.
    fn lengthen(&mut self, rows: usize, columns: usize) -> Result<(), AllocError> {
        self.value.resize(columns, 0.0)?;
        self.reduced.resize(columns, 0.0)?;
        self.idle.resize(columns, false)?;
        self.weight.resize(rows, 1.0)?;
        self.reference.resize(columns, 1.0)?;
        self.room.lengthen(rows, columns)
    }
}

/// The state of a run at the basis of these statuses, which is mended where it is none. Its basic values and reduced
/// costs are still to be made.
pub(crate) fn state_at(
    alloc: Global,
    program: &Program,
    start: &[Status],
    limits: Limits,
) -> Result<State, AllocError> {
    let head = head_of(alloc, program, start)?;
    let mut state = State::new(alloc, basis_of(alloc, program, head)?, limits);
    state.put_columns(program, start)?;
    state.lengthen(program.rows, program.len())?;
    mark_basic(&mut state);
    Ok(state)
}

impl State {
    /// Whether a column is basic.
    #[inline(always)]
    pub(crate) fn is_basic(&self, k: usize) -> bool {
        is_basic(status_at(&self.status, k))
    }

    /// How far the value of a column is outside of its bounds: below 0 where it is below the lower one, 0 within them.
    #[inline(always)]
    pub(crate) fn outside(&self, k: usize) -> f64 {
        let value = at(&self.value, k);
        let lower = at(&self.lower, k);
        let upper = at(&self.upper, k);
        if value < lower {
            value - lower
        } else if value > upper {
            value - upper
        } else {
            0.0
        }
    }

    /// How far a reduced cost is on the wrong side of 0 for its status, at most 0 where it is not. 0 for basic and
    /// fixed columns.
    #[inline(always)]
    pub(crate) fn wrong(&self, k: usize) -> f64 {
        let reduced = at(&self.reduced, k);
        if at(&self.lower, k) == at(&self.upper, k) {
            return 0.0;
        }
        match status_at(&self.status, k) {
            Status::Basic => 0.0,
            Status::AtLower => -reduced,
            Status::AtUpper => reduced,
            Status::AtZero => reduced.abs(),
        }
    }

    /// Notes the squared distance of the value at a position from its bounds, 0 within the tolerance.
    #[inline(always)]
    pub(crate) fn note_outside(&mut self, place: usize) {
        let outside = self.outside(index_at(&self.basis.head, place));
        let square = if outside.abs() > self.limits.primal {
            outside * outside
        } else {
            0.0
        };
        put(&mut self.room.outside, place, square);
    }

    /// Notes whether a column never enters: it is basic, or its bounds are the same.
    pub(crate) fn note_idle(&mut self, k: usize) {
        let is_fixed = at(&self.lower, k) == at(&self.upper, k);
        let is_idle = is_fixed || self.is_basic(k);
        if let Some(idle) = self.idle.get_mut(k) {
            *idle = is_idle;
        }
    }

    /// The distance between the bounds of a column; infinite where one is absent.
    #[inline(always)]
    pub(crate) fn range(&self, k: usize) -> f64 {
        at(&self.upper, k) - at(&self.lower, k)
    }

    /// Moves a nonbasic column to the wanted bound if it has that, else to its other bound, else to 0: its status and
    /// its value.
    pub(crate) fn settle(&mut self, k: usize, wanted: Status) {
        let lower = at(&self.lower, k);
        let upper = at(&self.upper, k);
        let status = resting(wanted, lower, upper);
        let value = match status {
            Status::AtLower => lower,
            Status::AtUpper => upper,
            Status::AtZero | Status::Basic => 0.0,
        };
        put_status(&mut self.status, k, status);
        put(&mut self.value, k, value);
    }

    /// Moves a nonbasic column to its other bound, or leaves it where it has none.
    pub(crate) fn turn(&mut self, k: usize) {
        match status_at(&self.status, k) {
            Status::AtUpper => self.settle(k, Status::AtLower),
            Status::AtLower | Status::AtZero | Status::Basic => self.settle(k, Status::AtUpper),
        }
    }

    /// The most by which the value of any column is outside of its bounds, 0 at least.
    pub(crate) fn most_outside(&self) -> f64 {
        let mut most = 0.0;
        for k in 0..self.status.len() {
            most = self.outside(k).abs().max(most);
        }
        most
    }

    /// The most by which any reduced cost is wrong for its status, 0 at least.
    pub(crate) fn most_wrong(&self) -> f64 {
        let mut most = 0.0;
        for k in 0..self.status.len() {
            most = self.wrong(k).max(most);
        }
        most
    }
}

// Makes the status of each column in the basis basic, and moves each other column to its bound. Notes which columns
// never enter.
fn mark_basic(state: &mut State) {
    for k in 0..state.status.len() {
        if index_at(&state.basis.place, k) != NOWHERE {
            put_status(&mut state.status, k, Status::Basic);
        } else {
            let wanted = status_at(&state.status, k);
            state.settle(k, wanted);
        }
        state.note_idle(k);
    }
}

// Sets the weight of each position to 1 whose column is another one than before.
fn forget_weights(state: &mut State, before: &[usize]) {
    for (p, k) in before.iter().enumerate() {
        if index_at(&state.basis.head, p) != *k {
            put(&mut state.weight, p, 1.0);
        }
    }
}

/// Makes the factors of the basis anew. Where that mends the basis, statuses, values and weights follow.
pub(crate) fn refactor(
    alloc: Global,
    state: &mut State,
    program: &Program,
) -> Result<(), AllocError> {
    let before = Vec::from_slice(alloc, &state.basis.head)?;
    state.basis.renew(alloc, program)?;
    forget_weights(state, &before);
    mark_basic(state);
    Ok(())
}
