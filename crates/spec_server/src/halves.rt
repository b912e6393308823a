// A step of a session in parts, over the type R of replies: the session reads nothing of what sessions share, and is
// told what was found, and what became of what it published.
use spec_board::{BasisWords, ShapeWords};

/// How a session begins a request: with its reply, or with a look for a basis.
#[derive(Drop)]
pub enum Started<R> {
    /// It has ended, with this reply.
    Reply(R),
    /// A basis of this shape is looked for.
    Look(ShapeWords),
}

/// How a solve goes on after its look: with its reply, or with a basis to publish.
#[derive(Drop)]
pub enum Next<R> {
    /// The ask has ended, with this reply.
    Reply(R),
    /// A basis is to be published, in these words.
    Publish(BasisWords),
}
