// What sessions share, over the type W of words.

/// A place that is claimed.
#[derive(Clone, Copy)]
pub enum Place<W> {
    /// By this session, which has not written it yet.
    Claimed(u32),
    /// It has these words for good.
    Done(W),
}
