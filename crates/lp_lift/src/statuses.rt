// Statuses of columns, structural and logical.
use crate::program::Program;
use lp_frac::{Frac, zero};
use spec_pivot::Status;
use std::alloc::{AllocError, Global};

/// The status of column `k`, basic where there is none.
pub(crate) fn status_at(statuses: &[Status], k: usize) -> Status {
    match statuses.get(k) {
        Some(status) => *status,
        None => Status::Basic,
    }
}

/// Sets the status of column `k`, if the list is that long.
pub(crate) fn put_status(statuses: &mut [Status], k: usize, status: Status) {
    if let Some(place) = statuses.get_mut(k) {
        *place = status;
    }
}

/// The status of a nonbasic column with these bounds: at the lower one, else at the upper one, else at 0.
pub(crate) fn resting(lower: Option<Frac>, upper: Option<Frac>) -> Status {
    if lower.is_some() {
        Status::AtLower
    } else if upper.is_some() {
        Status::AtUpper
    } else {
        Status::AtZero
    }
}

// The status, or that of `resting` where the column does not have the bound that it names, or is said to be at 0.
fn fitting(status: Status, lower: Option<Frac>, upper: Option<Frac>) -> Status {
    match status {
        Status::Basic => Status::Basic,
        Status::AtLower if lower.is_some() => Status::AtLower,
        Status::AtUpper if upper.is_some() => Status::AtUpper,
        Status::AtLower | Status::AtUpper | Status::AtZero => resting(lower, upper),
    }
}

/// A status for each column of a program: the given one where it fits the column's bounds, else another one that does.
/// Behind the end of the list `AtLower` is taken as given.
pub(crate) fn fitting_statuses(
    alloc: Global,
    program: &Program<'_>,
    statuses: &[Status],
) -> Result<Vec<Status>, AllocError> {
    let mut list = Vec::with_capacity(alloc, statuses.len())?;
    for k in 0..program.lowers.len() {
        let status = match statuses.get(k) {
            Some(status) => *status,
            None => Status::AtLower,
        };
        list.push(fitting(status, program.lower(k), program.upper(k)))?;
    }
    Ok(list)
}

/// The value of a column with this status: its bound, or 0 where it is basic, free or without the bound.
pub(crate) fn standing(status: Status, lower: Option<Frac>, upper: Option<Frac>) -> Frac {
    let bound = match status {
        Status::AtLower => lower,
        Status::AtUpper => upper,
        Status::Basic | Status::AtZero => None,
    };
    match bound {
        Some(value) => value,
        None => zero(),
    }
}

/// The values at which the nonbasic columns are; 0 for each basic one.
pub(crate) fn standings(
    alloc: Global,
    program: &Program<'_>,
    statuses: &[Status],
) -> Result<Vec<Frac>, AllocError> {
    let mut list = Vec::with_capacity(alloc, statuses.len())?;
    for k in 0..program.lowers.len() {
        let status = status_at(statuses, k);
        list.push(standing(status, program.lower(k), program.upper(k)))?;
    }
    Ok(list)
}

/// Whether column `k` is basic.
pub(crate) fn is_basic_at(statuses: &[Status], k: usize) -> bool {
    matches!(status_at(statuses, k), Status::Basic)
}
