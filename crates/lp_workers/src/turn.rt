// What a worker does in its turn.
ghost use Rattle.basis_board.specs.declared.board.Board.{Board as exact_board};
ghost use Rattle.basis_board.specs.Known.{Known};
ghost use Rattle.lp_workers.specs.Passes.{IsFresh, IsUsed};

use basis_board::{Board, Pass};
use std::alloc::Global;
use std::sync::Wait;

/// A job that one worker does by a pass of its own, while others do theirs. All of them share a `C`.
pub trait Turn<C> {
    /// What it is before its turn.
    ghost is_ready: { C → Self → Type 0 };

    /// What a turn makes of it and of the pass.
    ghost took: { C → exact_board → Self → Known → Self → Known → Type 0 };

    /// Does the job by the pass, which no other worker has.
    fn turn<R: Wait>(&mut self, rt: &R, alloc: Global, shared: &C, board: &Board, pass: &mut Pass)
        requires ready { is_ready shared.now self.old }
        requires fresh { IsFresh board.now pass.old }
        ensures took { took shared.now board.now self.old pass.old self.new pass.new }
        ensures used { IsUsed board.now pass.new };
}
