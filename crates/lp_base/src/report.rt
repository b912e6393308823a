// What is told of a link.

/// What was done on a link, counted for those who look after a server. No contract speaks of it.
#[derive(Clone, Copy, Default)]
pub struct LinkWork {
    /// How many commands came.
    pub commands: u64,
    /// How many pivots and flips their solves took to their answers.
    pub pivots: u64,
}

/// What its service tells of a link that has ended, for those who look after a server. No contract speaks of it.
#[derive(Drop)]
pub struct LinkReport {
    /// How it ended, in a word.
    pub word: &'static str,
    /// What was done on it.
    pub work: LinkWork,
}
