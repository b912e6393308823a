// What gives links, one after the other, and takes them back.
ghost use Rattle.std.specs.Prelude.{◌≡◌, ℕ, List, [], ◌∷◌, Option};
ghost use Rattle.lp_base.specs.Causes.{HasCause};
ghost use Rattle.lp_base.specs.LinkState.{state_of};
ghost use Rattle.lp_base.specs.Listening.{LinkEvent, Returned, HandsOver, HasOneOut, Grows};

use crate::link::Link;
use crate::outside::Failed;
use crate::report::LinkReport;

/// Gives links, and takes them back when they have ended.
pub trait Listen {
    type Link: Link + Drop;

    /// Which links it has given and which have come back, as they then were, in the order of time, where that is known.
    ghost log: { Self → Option (List LinkEvent) };

    /// How often it has failed to give one. It never falls.
    ghost accept_faults: { Self → ℕ };

    /// Waits for the next link. Nothing was written to it yet.
    fn accept(&mut self) -> Result<Self::Link, Failed>
        ensures log { HandsOver
            (state_of Self.Link.left Self.Link.read_faults Self.Link.taken Self.Link.write_faults)
            (log self.old) (log self.new) result }
        ensures cause { HasCause (accept_faults self.old) (accept_faults self.new) result };

    /// Takes back a link that has ended, with what is told of it.
    fn give_back(&mut self, link: Self::Link, report: LinkReport)
        requires { HasOneOut (log self.old) }
        ensures log { Grows (log self.old) (log self.new) (Returned
            (state_of Self.Link.left Self.Link.read_faults Self.Link.taken Self.Link.write_faults link) ∷ []) }
        ensures faults { accept_faults self.new ≡ accept_faults self.old };
}
