// A listener in memory.
ghost use Rattle.std.specs.Prelude.{◌≡◌, ◌↔◌, ◌⊎◌, ◌+◌, ◌*◌, ◌-◌, ◌^◌, ◌<◌, ◌≤◌, ◌++◌, [], ◌∷◌, All};
ghost use Rattle.std.specs.Prelude.{min, Some, IsErr, OnErr, IfOk};
ghost use Rattle.std.specs.List.{Contains};
ghost use Rattle.std.specs.Vec.{vec_len, vec_capacity};
ghost use Rattle.std.specs.VecDeque.{deque_len};
ghost use Rattle.std.proofs.Props.{props};
ghost use Rattle.lp_base.specs.Causes.{HasCause};
ghost use Rattle.lp_base.specs.Listening.{HandsOver, Returned, links_out};
ghost use Rattle.lp_base.specs.LinkMemory.{mem_link_state, events_of, IsUnwritten};

use crate::calls::Calls;
use crate::listen::Listen;
use crate::mem_event::MemEvent;
use crate::mem_link::MemLink;
use crate::outside::Failed;
use crate::report::LinkReport;
use std::alloc::{AllocError, Global};
use std::collections::VecDeque;
use std::snapshot::Snapshot;

/// Gives links in memory in their order, and keeps those that come back. The accepts whose number is listed fail, and
/// so do those for which no link is left.
#[derive(Drop)]
pub struct MemListen {
    waiting: VecDeque<MemLink>,
    log: Vec<MemEvent>,
    back: Vec<MemLink>,
    calls: Calls,
    // Each link that waits is given and comes back, and each that is out comes back.
    ghost room_to_log: { vec_len log + 2 * deque_len waiting + links_out 0 (events_of log.items) ≤ vec_capacity log },
    ghost room_for_back: { vec_len back + deque_len waiting + links_out 0 (events_of log.items) ≤ vec_capacity back },
    ghost unwritten: { All IsUnwritten waiting.items } by { Prim.hlevel props },
}

impl MemListen {
    ghost use Rattle.lp_base.specs.MemListening.{links_waiting, links_returned, link_log};
    ghost use Rattle.lp_base.specs.MemListening.{next_accept, failing_accepts, listen_faults};

    /// A listener that will give these links in this order; nothing was written to them yet. The accepts with the
    /// numbers in `fails`, counted from 1, will fail.
    pub fn new(alloc: Global, links: Vec<MemLink>, fails: Vec<u64>) -> Result<Self, AllocError>
        requires { All IsUnwritten links.items }
        ensures waiting { IfOk result (λ net. links_waiting net ≡ links.items) }
        ensures back { IfOk result (λ net. links_returned net ≡ []) }
        ensures log { IfOk result (λ net. link_log net ≡ []) }
        ensures next { IfOk result (λ net. next_accept net ≡ 1) }
        ensures fails { IfOk result (λ net. failing_accepts net ≡ fails.items) }
        ensures faults { IfOk result (λ net. listen_faults net ≡ 0) }
    {
        let back = Vec::with_capacity(alloc, links.len())?;
        let log = Vec::with_capacity(alloc, links.len().saturating_mul(2))?;
        Ok(MemListen {
            waiting: VecDeque::from(links),
            log,
            back,
            calls: Calls::new(fails),
        })
    }

    /// The links that were given back to the listener, in the order in which they came.
    pub fn links_back(&self) -> &[MemLink]
        ensures { result.now ≡ links_returned self.now }
    {
        &self.back
    }
}

impl Listen for MemListen {
    ghost use Rattle.lp_base.specs.MemListening.{links_waiting, links_returned, link_log};
    ghost use Rattle.lp_base.specs.MemListening.{next_accept, failing_accepts, listen_faults};

    type Link = MemLink;

    ghost log = { λ net. Some (link_log net) };

    ghost accept_faults = { listen_faults };

    // Gives the first link that waits and logs this. It fails at a listed number, and where no link waits.
    fn accept(&mut self) -> Result<MemLink, Failed>
        ensures log { HandsOver mem_link_state (Some (link_log self.old)) (Some (link_log self.new)) result }
        ensures cause { HasCause (listen_faults self.old) (listen_faults self.new) result }
        ensures listed { IsErr result
            ↔ (Contains (failing_accepts self.old) (next_accept self.old) ⊎ (links_waiting self.old ≡ [])) }
        ensures first { IfOk result (λ link. links_waiting self.old ≡ link ∷ links_waiting self.new) }
        ensures kept { OnErr result (links_waiting self.new ≡ links_waiting self.old) }
        ensures back { links_returned self.new ≡ links_returned self.old }
        ensures next { next_accept self.new ≡ min (next_accept self.old + 1) (2 ^ 64 - 1) }
        ensures fails { failing_accepts self.new ≡ failing_accepts self.old }
    {
        self.calls.begin()?;
        let Some(link) = self.waiting.pop_front() else {
            return Err(self.calls.fail());
        };
        self.log.push_reserved(MemEvent::Given(Snapshot::of(&link)));
        Ok(link)
    }

    // Keeps the link behind those that came back, and logs this. The report is dropped.
    fn give_back(&mut self, link: MemLink, _report: LinkReport)
        requires { 0 < links_out 0 (link_log self.old) }
        ensures log { link_log self.new ≡ link_log self.old ++ Returned (mem_link_state link) ∷ [] }
        ensures back { links_returned self.new ≡ links_returned self.old ++ link ∷ [] }
        ensures waiting { links_waiting self.new ≡ links_waiting self.old }
        ensures next { next_accept self.new ≡ next_accept self.old }
        ensures fails { failing_accepts self.new ≡ failing_accepts self.old }
        ensures faults { listen_faults self.new ≡ listen_faults self.old }
    {
        self.log
            .push_reserved(MemEvent::Returned(Snapshot::of(&link)));
        self.back.push_reserved(link);
    }
}
