// What to do next at a basis: flips of columns to their other bound, and steps of the dual and the primal simplex method.
use crate::program::Program;
use crate::standing::{FREE, Room};
use crate::statuses::{is_basic_at, put_status, status_at};
use lp_frac::are_same;
use spec_pivot::{Status, Way};

/// A basic column outside of its bounds, and the way to the bound that it passed: up where it is below the lower one.
#[derive(Clone, Copy)]
pub(crate) struct Leaving {
    pub(crate) column: usize,
    pub(crate) way: Way,
}

impl Leaving {
    /// Whether it is below its lower bound.
    pub(crate) fn is_below(self) -> bool {
        matches!(self.way, Way::Up)
    }
}

/// A column that is not basic, and the way in which its reduced cost moves it.
#[derive(Clone, Copy)]
pub(crate) struct Entering {
    pub(crate) column: usize,
    pub(crate) way: Way,
}

/// What stops a column that moves.
#[derive(Clone, Copy)]
pub(crate) enum Block {
    /// This basic column, at its lower bound or its upper one.
    Column { column: usize, at_lower: bool },
    /// Its own other bound.
    Own,
}

/// The number at `k`, 0 where there is none.
pub(crate) fn float_at(list: &[f64], k: usize) -> f64 {
    match list.get(k) {
        Some(number) => *number,
        None => 0.0,
    }
}

// Whether a reduced cost has a sign by which a column that is neither basic nor fixed should move from its bound, or
// from 0. A column is fixed if both bounds exist and are equal.
fn is_wrong(program: &Program<'_>, statuses: &[Status], k: usize, reduced: f64) -> bool {
    if let (Some(lower), Some(upper)) = (program.lower(k), program.upper(k)) {
        if are_same(lower, upper) {
            return false;
        }
    }
    match status_at(statuses, k) {
        Status::Basic => false,
        Status::AtLower => reduced < 0.0,
        Status::AtUpper => reduced > 0.0,
        Status::AtZero => reduced != 0.0,
    }
}

// Flips a column that is at a bound to its other one; any other column stays as it is.
fn flip(statuses: &mut [Status], k: usize) {
    let other = match status_at(statuses, k) {
        Status::AtLower => Status::AtUpper,
        Status::AtUpper => Status::AtLower,
        same => same,
    };
    put_status(statuses, k, other);
}

/// Flips each nonbasic column with two bounds, not fixed, whose reduced cost has the wrong sign. Says whether there was
/// one.
pub(crate) fn flip_wrong(program: &Program<'_>, statuses: &mut [Status], reduced: &[f64]) -> bool {
    let mut is_any = false;
    for (k, cost) in reduced.iter().enumerate() {
        let is_boxed = program.lower(k).is_some() && program.upper(k).is_some();
        if is_boxed && is_wrong(program, statuses, k, *cost) {
            flip(statuses, k);
            is_any = true;
        }
    }
    is_any
}

// The way in which a column with this reduced cost makes the cost less.
fn downhill(cost: f64) -> Way {
    if cost < 0.0 { Way::Up } else { Way::Down }
}

// The way back to the bound that a column with this room has passed.
fn way_back(room: Room) -> Way {
    if room.above_lower < 0.0 {
        Way::Up
    } else {
        Way::Down
    }
}

/// The nonbasic column, not fixed, with the greatest reduced cost of the wrong sign, in absolute value, and the way in
/// which it moves. None if no sign is wrong.
pub(crate) fn most_wrong(
    program: &Program<'_>,
    statuses: &[Status],
    reduced: &[f64],
) -> Option<Entering> {
    let mut found = None;
    let mut most = 0.0f64;
    for (k, cost) in reduced.iter().enumerate() {
        if cost.abs() > most && is_wrong(program, statuses, k, *cost) {
            most = cost.abs();
            found = Some(Entering {
                column: k,
                way: downhill(*cost),
            });
        }
    }
    found
}

/// The way in which a column should move by its reduced cost; none where its sign is right, or the column is basic or
/// fixed.
pub(crate) fn entering_at(
    program: &Program<'_>,
    statuses: &[Status],
    reduced: &[f64],
    k: usize,
) -> Option<Entering> {
    let cost = float_at(reduced, k);
    if is_wrong(program, statuses, k, cost) {
        Some(Entering {
            column: k,
            way: downhill(cost),
        })
    } else {
        None
    }
}

/// Column `k` as one that leaves, if it is outside of its bounds; else none.
pub(crate) fn leaving_at(rooms: &[Room], k: usize) -> Option<Leaving> {
    match rooms.get(k) {
        Some(room) if room.above_lower.min(room.below_upper) < 0.0 => Some(Leaving {
            column: k,
            way: way_back(*room),
        }),
        Some(_) | None => None,
    }
}

/// The basic column that is furthest outside of its bounds; none if all are within them.
pub(crate) fn furthest_outside(rooms: &[Room]) -> Option<Leaving> {
    let mut found = None;
    let mut most = 0.0f64;
    for (k, room) in rooms.iter().enumerate() {
        let outside = -room.above_lower.min(room.below_upper);
        if outside > most {
            most = outside;
            found = Some(Leaving {
                column: k,
                way: way_back(*room),
            });
        }
    }
    found
}

/// The nonbasic column that enters for a leaving one, by the dual ratio test: the least ratio of reduced cost to rate.
/// `rates` are the reduced costs where the leaving column alone costs 1. None if no column may enter.
pub(crate) fn dual_entering(
    program: &Program<'_>,
    statuses: &[Status],
    leaving: Leaving,
    reduced: &[f64],
    rates: &[f64],
) -> Option<usize> {
    let mut found = None;
    let (mut least, mut largest) = (f64::INFINITY, 0.0f64);
    for (k, rate) in rates.iter().enumerate() {
        let toward = if leaving.is_below() { *rate } else { -*rate };
        if !is_basic_at(statuses, k) && is_wrong(program, statuses, k, -toward) {
            let ratio = float_at(reduced, k).abs() / toward.abs();
            if ratio < least || (ratio == least && toward.abs() > largest) {
                least = ratio;
                largest = toward.abs();
                found = Some(k);
            }
        }
    }
    found
}

// How far a column may move at this rate, above or below 0, before it meets a bound, and whether that is its lower one.
fn way(room: Room, rate: f64) -> (f64, bool) {
    if rate < 0.0 {
        (room.above_lower.max(0.0) / -rate, true)
    } else {
        (room.below_upper.max(0.0) / rate, false)
    }
}

/// What first stops the entering column, by the ratio test: a basic column at a bound, or the end of its own range
/// between its bounds. None if nothing stops it.
pub(crate) fn blocked(range: f64, rooms: &[Room], rates: &[f64]) -> Option<Block> {
    let mut found = if range < f64::INFINITY {
        Some(Block::Own)
    } else {
        None
    };
    let (mut least, mut largest) = (range, 0.0f64);
    for (k, rate) in rates.iter().enumerate() {
        if *rate != 0.0 {
            let (way, at_lower) = way(room_at(rooms, k), *rate);
            let is_less = way < least || (way == least && rate.abs() > largest);
            if way < f64::INFINITY && is_less {
                least = way;
                largest = rate.abs();
                found = Some(Block::Column {
                    column: k,
                    at_lower,
                });
            }
        }
    }
    found
}

// The distances of column `k` from its bounds; without bounds where the list is shorter.
fn room_at(rooms: &[Room], k: usize) -> Room {
    match rooms.get(k) {
        Some(room) => *room,
        None => FREE,
    }
}

/// Makes the entering column basic, and the leaving one nonbasic at its lower or upper bound.
pub(crate) fn exchange(statuses: &mut [Status], entering: usize, leaving: usize, at_lower: bool) {
    let bound = if at_lower {
        Status::AtLower
    } else {
        Status::AtUpper
    };
    put_status(statuses, leaving, bound);
    put_status(statuses, entering, Status::Basic);
}

/// Makes the entering column basic in place of the column that blocks it, or flips it where its own bound does.
pub(crate) fn advance(statuses: &mut [Status], entering: Entering, block: Block) {
    match block {
        Block::Column { column, at_lower } => {
            exchange(statuses, entering.column, column, at_lower);
        }
        Block::Own => flip(statuses, entering.column),
    }
}
