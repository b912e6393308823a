// How lines name the sessions that they are for.

/// Whether the lines of an input name sessions.
#[derive(Clone, Copy)]
pub enum Addressing {
    /// Each command and each reply begins with the number of its session.
    Numbered,
    /// All commands are those of one session, which is 0, and no line has a number.
    Alone,
}
