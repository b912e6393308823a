// The sessions of a script, and the places that they share.
ghost use Rattle.std.specs.Prelude.{◌≡◌, ◌⊎◌, ◌≤◌, IfErr, IfOk, IsErrOf, OnOk, replicate};
ghost use Rattle.lp_base.specs.Causes.{Rose};
ghost use Rattle.spec_server.specs.Halves.{at_rest};
ghost use Rattle.spec_server.specs.Machine.{opening};
ghost use Rattle.lp_script.specs.Answer.{opening_with, Answers, AnswersInPart};
ghost use Rattle.lp_script.specs.Run.{IsPlaces};

use crate::answer::write_reply;
use basis_board::{Board, Pass};
use lp_base::Sink;
use lp_line::{Asked, Halt};
use lp_session::Session;
use std::alloc::{AllocError, Global};
use std::marker::Model;

/// How many sessions there are, numbered from 0. Session 0 stands for lines that name none.
pub(crate) const SESSIONS: usize = 65;

/// All sessions of a script in the state in which they open.
pub(crate) fn opening_sessions(alloc: Global) -> Result<Vec<Session>, AllocError>
    ensures { IfOk result (λ all. all.items ≡ replicate 65 (at_rest opening)) }
{
    let mut all = Vec::with_capacity(alloc, SESSIONS)?;
    for index in 0..SESSIONS {
        all.push_reserved(Session::new());
    }
    Ok(all)
}

/// The sessions, by their numbers, and the places for bases that they share and nobody else reads or writes: a board with
/// the only pass of it. Places are claimed one after the other, and each is written at once.
pub(crate) struct Sessions {
    all: Vec<Session>,
    board: Board,
    pass: Pass,
}

impl Model for Sessions {
    ghost use Rattle.std.specs.Prelude.{◌≡◌, length};
    ghost use Rattle.basis_board.specs.Id.{id_of};
    ghost use Rattle.lp_script.specs.Answer.{Together, states_of, AreAtRest};
    ghost use Rattle.lp_script.specs.Only.{sharing_of, IsOnly};

    ghost Value = { Together };

    ghost view = { λ s. record { states = states_of s.all.items; sharing = sharing_of s.pass.view } };

    ghost invariant = { λ s. (length s.all.items ≡ 65) × AreAtRest s.all.items × IsOnly (id_of s.board) s.pass };
}

impl Drop for Sessions {
    fn drop(self) {
        let Sessions { all, board, pass } = self;
        drop(all);
        drop(board);
        drop(pass);
    }
}

impl Sessions {
    /// All sessions as they open, and so many places, with room for all of them, of which none is claimed.
    pub(crate) fn new(alloc: Global, places: u32) -> Result<Self, AllocError>
        requires { IsPlaces places }
        ensures { IfOk result (λ sessions. sessions ≡ opening_with places) }
    {
        let all = opening_sessions(alloc)?;
        let (board, pass) = Board::new(alloc, places)?;
        Ok(Sessions { all, board, pass })
    }

    /// Lets a session answer a request, and writes its reply. The session reads the places as the other sessions left
    /// them.
    pub(crate) fn answer<K: Sink>(
        &mut self,
        alloc: Global,
        asked: Asked,
        out: &mut K,
    ) -> Result<(), Halt>
        requires { asked.session ≤ 64 }
        ensures ok { OnOk result (Answers (K.taken out.old) (K.taken out.new) self.old self.new asked) }
        ensures part { AnswersInPart (K.taken out.old) (K.taken out.new) self.old asked }
        ensures halts { IfErr result (λ halt. (halt ≡ Halt.Write) ⊎ (halt ≡ Halt.NoMemory)) }
        ensures later { K.write_faults out.old ≤ K.write_faults out.new }
        ensures write { IsErrOf result Halt.Write → Rose (K.write_faults out.old) (K.write_faults out.new) }
    {
        let Asked { session, ask } = asked;
        let reply = self.all[session as usize].step(alloc, &self.board, &mut self.pass, ask);
        let written = write_reply(alloc, session, &reply, out);
        drop(reply);
        written
    }
}
