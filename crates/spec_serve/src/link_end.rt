// How the service of a link ends.

/// How the service of a link ended.
#[derive(Clone, Copy)]
pub enum LinkEnd {
    /// The session said QUIT, or the link ended between two commands.
    Done,
    /// The link could not be read.
    Read,
    /// The link could not be written.
    Write,
    /// The link ended inside the body of a command.
    Cut,
    /// The link sent more than may be read.
    Over,
    /// Memory was refused.
    NoMemory,
}
