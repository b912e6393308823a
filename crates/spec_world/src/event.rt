// What happens in the world, over the type A of asks and R of replies.

/// What a session does at once, while no other does anything.
#[derive(Drop)]
pub enum Act<A> {
    /// It begins an ask, and ends it unless it looks for a basis.
    Ask(A),
    /// It reads how many places are claimed. Where it is about to publish and all are claimed, it ends the ask.
    Count,
    /// It reads this place.
    See(u32),
    /// It solves, and ends the ask unless it publishes a basis.
    Work,
    /// It claims the next place. Where another session was quicker, it ends the ask without one.
    Claim,
    /// It writes its basis into the place that it claimed, and ends the ask.
    Done,
}

/// An act of one session, with the session's number.
#[derive(Drop)]
pub struct Event<A> {
    pub session: u32,
    pub act: Act<A>,
}

/// What comes of an event.
#[derive(Drop)]
pub enum StepEnd<R> {
    /// No ask ended.
    Quiet,
    /// An ask of this session ended with this reply.
    Replied(u32, R),
    /// The event cannot happen now, and nothing did.
    Not,
}
