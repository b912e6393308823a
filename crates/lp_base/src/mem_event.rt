// What a listener in memory remembers.
use crate::mem_link::MemLink;
use std::snapshot::Snapshot;

/// A link was given or came back, as it was then.
#[derive(Drop)]
pub(crate) enum MemEvent {
    Given(Snapshot<MemLink>),
    Returned(Snapshot<MemLink>),
}
