// What one worker has of a script, and its turn.
ghost use Rattle.std.specs.Prelude.{◌≡◌, ◌≤◌, ◌+◌, ◌<◌, ◌++◌, [], ◌∷◌, List, IfOk, OnOk, vec_len, vec_capacity};
ghost use Rattle.std.specs.Prelude.{◌⊎◌, ◌-◌, ◌^◌};
ghost use Rattle.spec_server.specs.declared.asks.Asked.{Asked as exact_asked};
ghost use Rattle.spec_server.specs.Machine.{ExactAsk, ExactReply};
ghost use Rattle.lp_script.specs.Parts.{IsHired, HasHad, IsOpen, Took};

use crate::gate::Gate;
use crate::sessions::{SESSIONS, opening_sessions};
use basis_board::{Board, Pass};
use lp_line::{Ask, Asked, Reply};
use lp_session::Session;
use lp_workers::Turn;
use spec_server::Plain;
use std::alloc::{AllocError, Global};
use std::sync::Wait;

/// The sessions by their numbers with the count of their solves, the asks of one worker, the last one first, and the
/// replies.
#[derive(Drop)]
pub struct Part {
    pub(crate) sessions: Vec<Session>,
    pub(crate) solves: Vec<u64>,
    pub(crate) asks: Vec<Asked>,
    /// In the order of the asks, with room for all of them.
    pub(crate) replies: Vec<Reply>,
}

// If the request is `SOLVE`, counts it, up to 2^64 - 1, and then calls the gate.
fn tell<R: Wait, G: Gate>(rt: &R, gate: &G, asked: &Asked, solves: &mut u64)
    ensures { (solves.new ≡ solves.old) ⊎ (solves.new ≡ solves.old + 1) ⊎ (solves.new ≡ 2 ^ 64 - 1) }
{
    if let Ask::Plain(Plain::Solve) = &asked.ask {
        *solves = solves.saturating_add(1);
        gate.before(rt, asked.session, *solves);
    }
}

impl Part {
    /// A part without requests, whose sessions are as they open.
    pub(crate) fn new(alloc: Global) -> Result<Self, AllocError>
        ensures opened { IfOk result IsOpen }
        ensures idle { IfOk result (λ part. part.asks.items ≡ []) }
    {
        Ok(Part {
            sessions: opening_sessions(alloc)?,
            solves: std::vec![in alloc; 0u64; SESSIONS]?,
            asks: Vec::new(alloc),
            replies: Vec::new(alloc),
        })
    }

    /// Takes one more request, which is answered before those that it holds, and makes room for its reply.
    pub(crate) fn take(&mut self, asked: Asked) -> Result<(), AllocError>
        ensures asks { OnOk result (self.new.asks.items ≡ self.old.asks.items ++ asked ∷ []) }
        ensures room { OnOk result (vec_len self.new.replies + vec_len self.new.asks ≤ vec_capacity self.new.replies) }
        ensures replies { self.new.replies.items ≡ self.old.replies.items }
        ensures sessions { self.new.sessions ≡ self.old.sessions }
        ensures solves { self.new.solves ≡ self.old.solves }
    {
        self.asks.push(asked)?;
        self.replies.reserve(self.asks.len())?;
        Ok(())
    }

    // The reply of the request's session to it, over the board by the pass. The gate is called before a `SOLVE`.
    fn answer<R: Wait, G: Gate>(
        &mut self,
        rt: &R,
        alloc: Global,
        board: &Board,
        pass: &mut Pass,
        gate: &G,
        asked: Asked,
    ) -> Reply
        requires session { asked.session ≤ 64 }
        requires hired { IsHired board.now (record { job = self.old; pass = pass.old }) }
        ensures hired { IsHired board.now (record { job = self.new; pass = pass.new }) }
        ensures had { (asks : List (exact_asked ExactAsk)) (replies : List ExactReply) →
            HasHad asks replies (record { job = self.old; pass = pass.old }) →
            HasHad (asks ++ asked ∷ []) (replies ++ result ∷ []) (record { job = self.new; pass = pass.new }) }
        ensures asks { self.new.asks ≡ self.old.asks }
        ensures replies { self.new.replies ≡ self.old.replies }
    {
        let session = asked.session as usize;
        tell(rt, gate, &asked, &mut self.solves[session]);
        self.sessions[session].step(alloc, board, pass, asked.ask)
    }
}

impl<G: Gate + Sync> Turn<G> for Part {
    ghost is_ready = { λ _ part. IsOpen part };

    ghost took = { λ _. Took };

    // Answers its requests, in the order of the script.
    fn turn<R: Wait>(&mut self, rt: &R, alloc: Global, shared: &G, board: &Board, pass: &mut Pass) {
        while let Some(asked) = self.asks.pop() {
            let reply = self.answer(rt, alloc, board, pass, shared, asked);
            self.replies.push_reserved(reply);
        }
    }
}
