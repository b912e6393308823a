// What is read and written of what sessions share, over the type W of words.

/// One read or write of the places, all at once.
#[derive(Clone, Copy)]
pub enum Read<W> {
    /// So many places were claimed.
    Count(u32),
    /// This place was not done.
    NotDone(u32),
    /// This place was done. These are its words, or only those in front.
    Seen(u32, W),
    /// This place was claimed by the reader.
    Claim(u32),
    /// So many places were claimed, and not as many as were expected: nothing was claimed.
    Lost(u32),
    /// The reader's place was done with these words.
    Done(u32, W),
}

/// What became of words that were to be published.
#[derive(Clone, Copy, Debug, PartialEq, Eq)]
pub enum Put {
    /// They have this place.
    Published(u32),
    /// Another session was quicker, and so many places were claimed.
    Raced(u32),
    /// All places, so many, were claimed.
    Full(u32),
}

/// A place that a look found, and its words.
#[derive(Clone, Copy)]
pub struct Found<W> {
    pub place: u32,
    pub words: W,
}
