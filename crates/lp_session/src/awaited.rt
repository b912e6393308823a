// What a session awaits between the parts of an ask.
use lp_form::Form;
use lp_solve::End;
use spec_board::BasisWords;
use spec_server::How;

/// An answer whose basis is to be published, in these words.
#[derive(Drop)]
pub(crate) struct Pending {
    pub(crate) end: End,
    pub(crate) how: How,
    pub(crate) words: BasisWords,
}

/// What a session awaits in its ask.
#[derive(Drop)]
pub(crate) enum Awaited {
    /// It is in no ask.
    Nothing,
    /// What a look for the shape of its model's form finds.
    WhatIsFound(Form),
    /// What becomes of the words that it publishes.
    WhatBecameOf(Pending),
}
