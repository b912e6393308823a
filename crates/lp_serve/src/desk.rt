// What one worker has of a server, and its turn.
ghost use Rattle.lp_base.specs.Listening.{listener_of};
ghost use Rattle.lp_serve.specs.Desks.{IsOpen, Took};

use crate::ends::word;
use crate::link::serve_link;
use basis_board::{Board, Pass};
use lp_base::{LinkReport, LinkWork, Listen};
use lp_workers::Turn;
use spec_serve::LinkEnd;
use std::alloc::Global;
use std::sync::Wait;

/// A listener, and how its links ended that were served, with room for all of them.
#[derive(Drop)]
pub struct Desk<N> {
    pub(crate) net: N,
    pub(crate) ends: Vec<LinkEnd>,
    /// Whether the listener failed to give a link.
    pub(crate) has_failed: bool,
}

impl<N: Listen> Turn<u32> for Desk<N> {
    ghost is_ready = { IsOpen };

    ghost took = { Took (listener_of N.log N.accept_faults) };

    // Serves so many links, one after the other, and gives each back when it has ended. It stops where none is given.
    fn turn<R: Wait>(
        &mut self,
        _rt: &R,
        alloc: Global,
        shared: &u32,
        board: &Board,
        pass: &mut Pass,
    ) {
        for index in 0..*shared {
            let Ok(mut link) = self.net.accept() else {
                self.has_failed = true;
                return;
            };
            let mut work = LinkWork::default();
            let end = serve_link(alloc, &mut link, board, pass, &mut work);
            let word = word(end);
            self.net.give_back(link, LinkReport { word, work });
            self.ends.push_reserved(end);
        }
    }
}
