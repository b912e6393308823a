// The statuses of columns, by number.
use spec_pivot::Status;

/// Whether a status is that of a basic column.
#[inline(always)]
pub(crate) fn is_basic(status: Status) -> bool {
    matches!(status, Status::Basic)
}

/// The status of a column, basic where there is none.
#[inline(always)]
pub(crate) fn status_at(list: &[Status], k: usize) -> Status {
    match list.get(k) {
        Some(status) => *status,
        None => Status::Basic,
    }
}

/// Sets the status at `k`, if the list is that long.
#[inline(always)]
pub(crate) fn put_status(list: &mut [Status], k: usize, status: Status) {
    if let Some(place) = list.get_mut(k) {
        *place = status;
    }
}
