// A session.
ghost use Rattle.std.specs.Prelude.{◌≡◌, option_and_then};
ghost use Rattle.spec_server.specs.Machine.{opening, pivots_of_solved};
ghost use Rattle.spec_server.specs.Halves.{Nothing, at_rest, StartFits, MayBeFound, NextFits, IsPutAwaited, PutFits};
ghost use Rattle.basis_board.specs.Id.{id_of};
ghost use Rattle.basis_board.specs.Rule.{Consistent};
ghost use Rattle.lp_session.specs.Boarding.{AddsStep, StepCalls, NotesOn};

use crate::awaited::Awaited;
use crate::boarding::found_by;
use crate::holding::Holding;
use basis_board::{Board, Pass};
use lp_form::shape;
use lp_line::{Ask, Reply};
use spec_board::{BasisWords, Found, Put};
use spec_server::{Next, Publication, Started};
use std::alloc::Global;
use std::marker::Model;
use std::mem;
use std::ops::ControlFlow;

/// A session: what it holds, and what it awaits.
pub struct Session {
    holding: Holding,
    awaited: Awaited,
}

impl Model for Session {
    ghost use Rattle.spec_server.specs.Halves.{Standing};
    ghost use Rattle.lp_session.specs.Parts.{awaits_of, AwaitedFits};

    ghost Value = { Standing };

    ghost view = { λ s. record { state = s.holding; awaits = awaits_of s.awaited } };

    ghost invariant = { λ s. AwaitedFits s.holding.model s.awaited };
}

impl Drop for Session {
    // Frees what the session holds and what it awaits.
    fn drop(self) {
        let Session { holding, awaited } = self;
        drop(holding);
        drop(awaited);
    }
}

impl Session {
    /// The pivots and flips of the last answer; none where there is no last answer, or its solve ended without one.
    pub fn pivots(&self) -> Option<u64>
        ensures { result ≡ option_and_then (λ last. pivots_of_solved last.solved) (self.now.state).last }
    {
        self.holding.pivots()
    }

    /// A session without a model.
    pub fn new() -> Self
        ensures { result ≡ at_rest opening }
    {
        Session {
            holding: Holding::new(),
            awaited: Awaited::Nothing,
        }
    }

    /// Begins a request: the session replies, or it is to be told what a look for the shape of its model's form finds.
    /// If memory runs out the reply is `Memory`, and the session holds what it did.
    pub fn start(&mut self, alloc: Global, ask: Ask) -> Started<Reply>
        requires { self.old.awaits ≡ Nothing }
        ensures { StartFits self.old.state ask result self.new }
    {
        match self.holding.begin(alloc, ask) {
            ControlFlow::Break(reply) => Started::Reply(reply),
            ControlFlow::Continue(form) => {
                let shape = shape(&form);
                drop(mem::replace(&mut self.awaited, Awaited::WhatIsFound(form)));
                Started::Look(shape)
            }
        }
    }

    /// Solves with what a look found, and replies, or gives the words of the final basis, which are to be published. If
    /// memory runs out the reply is `Memory`, and the session holds what it did.
    pub fn found(&mut self, alloc: Global, found: Option<Found<BasisWords>>) -> Next<Reply>
        requires { MayBeFound self.old.awaits found }
        ensures { NextFits self.old.state found result self.new }
    {
        let Awaited::WhatIsFound(form) = &self.awaited else {
            unreachable!()
        };
        let worked = self.holding.work(alloc, form, found);
        drop(mem::replace(&mut self.awaited, Awaited::Nothing));
        match worked {
            ControlFlow::Break(reply) => Next::Reply(reply),
            ControlFlow::Continue(pending) => {
                let words = pending.words;
                drop(mem::replace(&mut self.awaited, Awaited::WhatBecameOf(pending)));
                Next::Publish(words)
            }
        }
    }

    /// Keeps the end of the solve, once it is known whether the words of its basis got a slot of the board, and replies
    /// with it.
    pub fn put(&mut self, put: Put) -> Reply
        requires { IsPutAwaited self.old.awaits }
        ensures { PutFits self.old.state self.old.awaits put result self.new }
    {
        let Awaited::WhatBecameOf(pending) = mem::replace(&mut self.awaited, Awaited::Nothing)
        else {
            unreachable!()
        };
        self.holding
            .keep(pending.end, pending.how, Publication::Tried(put))
    }

    /// Replies to a request, over a board that others may share, by a pass of the board. A solve of a model
    /// with a form looks once for a basis, and then publishes at most once; other requests leave the board alone. Any
    /// session may take any pass.
    pub fn step(&mut self, alloc: Global, board: &Board, pass: &mut Pass, ask: Ask) -> Reply
        requires rests { self.old.awaits ≡ Nothing }
        requires board { pass.old.board ≡ id_of board.now }
        ensures step { AddsStep self.old.state ask pass.old.view result self.new.state pass.new.view }
        ensures calls { StepCalls pass.old.view pass.new.view }
        ensures rests { self.new.awaits ≡ Nothing }
        ensures board { pass.new.board ≡ pass.old.board }
        ensures consistent { Consistent pass.old.view → Consistent pass.new.view }
        ensures share { (pass.new.view).share ≡ (pass.old.view).share }
        ensures notes { NotesOn pass.old pass.new }
    {
        let form = match self.holding.begin(alloc, ask) {
            ControlFlow::Break(reply) => return reply,
            ControlFlow::Continue(form) => form,
        };
        let shape = shape(&form);
        let found = found_by(board.look(pass, &shape));
        let (end, route) = match self.holding.solve(alloc, &form, found) {
            Ok(solved) => solved,
            Err(_) => {
                drop(form);
                return Reply::Memory;
            }
        };
        let worked = self.holding.conclude(&form, found, end, route);
        drop(form);
        let pending = match worked {
            ControlFlow::Break(reply) => return reply,
            ControlFlow::Continue(pending) => pending,
        };
        let put = board.publish(pass, &pending.words);
        self.holding
            .keep(pending.end, pending.how, Publication::Tried(put))
    }
}
