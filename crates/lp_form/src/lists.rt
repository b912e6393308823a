// Lists that contracts see as plain lists: of bounds, of the entries of columns, and of statuses.
use lp_base::Items;
use lp_frac::{Entries, Frac};
use spec_pivot::Status;

/// A list of bounds, each of which may be absent.
pub type BoundList = Items<Option<Frac>>;

/// The entries of columns, one list for each.
pub type Columns = Items<Entries>;

/// The statuses of columns, of which any may be basic.
pub type StatusList = Items<Status>;
