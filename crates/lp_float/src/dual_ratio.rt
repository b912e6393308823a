// Which column enters by the dual method: the ratio test of Harris ("Pivot selection methods of the Devex LP code", 1973),
// over groups of columns of which those before the entering one go to their other bounds.
use crate::number::{at, index_at};
use crate::state::State;
use crate::statuses::status_at;
use spec_pivot::Status;
use std::alloc::{AllocError, Global};

// A number of the row of up to this size is no pivot.
pub(crate) const NO_PIVOT: f64 = 1e-9;

// Nor is one of up to this part of the norm of the inverse's row: it may be 0 but for rounding.
const NOISE: f64 = 1e-14;

// How many groups of candidates a ratio test takes at most.
const GROUPS: u32 = 60;

// What part of the greatest candidate's number a pivot is at least; but 1 always is enough.
const PART: f64 = 0.1;

// A column that may enter: its number in the row and its reduced cost, both turned so that they are above 0, and how far
// apart its bounds are.
#[derive(Clone, Copy)]
struct Candidate {
    column: usize,
    number: f64,
    cost: f64,
    range: f64,
}

/// Room for a ratio test, and what came of it.
pub(crate) struct Trial {
    waiting: Vec<Candidate>,
    taken: Vec<Candidate>,
    // where each group among those that are taken ends
    ends: Vec<usize>,
    /// The columns that go to their other bounds.
    pub(crate) flips: Vec<usize>,
    /// How often in a row a leaving position was looked for again.
    pub(crate) retries: u32,
    /// What is no pivot until the next exchange.
    pub(crate) least: f64,
}

impl Drop for Trial {
    fn drop(self) {
        let Trial {
            waiting,
            taken,
            ends,
            flips,
            retries: _,
            least: _,
        } = self;
        drop(waiting);
        drop(taken);
        drop(ends);
        drop(flips);
    }
}

impl Trial {
    /// A trial before any row: its lists are empty.
    pub(crate) fn new(alloc: Global) -> Self {
        Trial {
            waiting: Vec::new(alloc),
            taken: Vec::new(alloc),
            ends: Vec::new(alloc),
            flips: Vec::new(alloc),
            retries: 0,
            least: NO_PIVOT,
        }
    }
}

// The way in which a nonbasic column may move: up (1), down (-1), or by the sign of its number where it is free. 0 if
// it is basic.
fn way(status: Status, number: f64) -> f64 {
    match status {
        Status::AtLower => 1.0,
        Status::AtUpper => -1.0,
        Status::AtZero if number > 0.0 => 1.0,
        Status::AtZero => -1.0,
        Status::Basic => 0.0,
    }
}

// A column as a candidate. None if its bounds are the same, or if its number in the row, turned by its status, is not
// above `least`.
fn candidate_of(state: &State, column: usize, turn: f64, least: f64) -> Option<Candidate> {
    let number = at(&state.room.row.numbers, column) * turn;
    let way = way(status_at(&state.status, column), number);
    let range = state.range(column);
    if number * way > least && range > 0.0 {
        Some(Candidate {
            column,
            number: number * way,
            cost: at(&state.reduced, column) * way,
            range,
        })
    } else {
        None
    }
}

// Empties the trial, and collects the columns that may enter: those of the row whose numbers have the right sign and
// are above `least`.
fn collect(state: &State, turn: f64, least: f64, trial: &mut Trial) -> Result<(), AllocError> {
    trial.waiting.clear();
    trial.taken.clear();
    trial.ends.clear();
    trial.flips.clear();
    for k in &state.room.row.places {
        if let Some(candidate) = candidate_of(state, *k, turn, least) {
            trial.waiting.push(candidate)?;
        }
    }
    Ok(())
}

// How far the dual step may go until the reduced cost of one of these candidates is wrong by more than the tolerance.
fn reach(waiting: &[Candidate], tolerance: f64) -> f64 {
    let mut least = f64::INFINITY;
    for candidate in waiting {
        let room = candidate.cost.max(0.0) + tolerance;
        least = (room / candidate.number).min(least);
    }
    least
}

// Puts a candidate at place `k` of the list.
fn keep(waiting: &mut [Candidate], k: usize, candidate: Candidate) {
    if let Some(place) = waiting.get_mut(k) {
        *place = candidate;
    }
}

// Moves the candidates that the step `reach` comes to into a group of their own among those taken. Gives the slope that
// is left once they are at their other bounds.
fn take(trial: &mut Trial, reach: f64, slope: f64) -> Result<f64, AllocError> {
    let mut left = slope;
    let mut kept = 0usize;
    for k in 0..trial.waiting.len() {
        if let Some(candidate) = trial.waiting.get(k).copied() {
            if candidate.cost <= reach * candidate.number {
                left -= candidate.number * candidate.range;
                trial.taken.push(candidate)?;
            } else {
                keep(&mut trial.waiting, kept, candidate);
                kept = kept.wrapping_add(1);
            }
        }
    }
    trial.waiting.truncate(kept);
    let end = trial.taken.len();
    trial.ends.push(end)?;
    Ok(left)
}

// Takes groups of candidates, the nearest first, until the slope is below 0 or no candidate waits; 60 at most.
fn take_groups(state: &State, trial: &mut Trial, slope: f64) -> Result<(), AllocError> {
    let mut left = slope;
    for _ in 0..GROUPS {
        if trial.waiting.is_empty() || left < 0.0 {
            return Ok(());
        }
        let reach = reach(&trial.waiting, state.limits.dual);
        left = take(trial, reach, left)?;
    }
    Ok(())
}

// The candidate with the greatest number in the row; none if the list is empty.
fn largest(list: &[Candidate]) -> Option<Candidate> {
    let mut found = None;
    let mut most = 0.0;
    for candidate in list {
        if candidate.number > most {
            found = Some(*candidate);
            most = candidate.number;
        }
    }
    found
}

// The index in `taken` at which a group of candidates begins.
fn first(trial: &Trial, group: usize) -> usize {
    if group == 0 {
        0
    } else {
        index_at(&trial.ends, group - 1)
    }
}

// The candidates of a group; none if there is no such group.
fn members(trial: &Trial, group: usize) -> &[Candidate] {
    match trial
        .taken
        .get(first(trial, group)..index_at(&trial.ends, group))
    {
        Some(members) => members,
        None => &[],
    }
}

// The last group whose greatest number is at least `least`, and the candidate with that number. None if there is no
// such group.
fn pick(trial: &Trial, least: f64) -> Option<(usize, Candidate)> {
    for group in (0..trial.ends.len()).rev() {
        if let Some(candidate) = largest(members(trial, group)) {
            if candidate.number >= least {
                return Some((group, candidate));
            }
        }
    }
    None
}

// Notes the columns with both bounds in the groups before this one as those that go to their other bounds.
fn note_flips(trial: &mut Trial, group: usize) -> Result<(), AllocError> {
    let end = first(trial, group);
    for candidate in trial.taken.iter().take(end) {
        if candidate.range < f64::INFINITY {
            trial.flips.push(candidate.column)?;
        }
    }
    Ok(())
}

/// The column that enters, if one may. The leaving column is `outside` of its bounds: above 0 if it is above them.
/// `square` is the squared norm of its row of the inverse. The trial gets the columns that flip.
pub(crate) fn choose(
    state: &State,
    outside: f64,
    square: f64,
    trial: &mut Trial,
) -> Result<Option<usize>, AllocError> {
    let turn = if outside > 0.0 { 1.0 } else { -1.0 };
    let least = (NOISE * square.sqrt()).max(trial.least);
    collect(state, turn, least, trial)?;
    take_groups(state, trial, outside.abs())?;
    let Some(most) = largest(&trial.taken) else {
        return Ok(None);
    };
    match pick(trial, (PART * most.number).min(1.0)) {
        Some((group, candidate)) => {
            note_flips(trial, group)?;
            Ok(Some(candidate.column))
        }
        None => Ok(None),
    }
}
