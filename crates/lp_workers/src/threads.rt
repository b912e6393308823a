// The turns of workers, on threads.
ghost use Rattle.std.specs.Prelude.{◌≡◌, ◌≤◌, ◌<◌, All, OnOk, OnErr, length, vec_len};
ghost use Rattle.spec_server.specs.Shared.{IsPlaces};
ghost use Rattle.lp_workers.specs.Passes.{IsUsed};
ghost use Rattle.lp_workers.specs.Turns.{IsReady, TookTurn, TakeTurns, TookTurns, passes_of};

use crate::hiring::{Worker, dismiss, hire};
use crate::turn::Turn;
use basis_board::Board;
use std::alloc::{AllocError, Global};
use std::sync::Wait;
use std::thread;
use std::thread::Threads;

// One worker takes its turn.
fn take_turn<R: Wait, C, T: Turn<C>>(
    rt: &R,
    alloc: Global,
    shared: &C,
    board: &Board,
    worker: &mut Worker<T>,
)
    requires { IsReady T.is_ready T.took shared.now board.now worker.old }
    ensures { TookTurn T.is_ready T.took shared.now board.now worker.old worker.new }
{
    worker.job.turn(rt, alloc, shared, board, &mut worker.pass);
}

// Each worker takes its turn, in a thread of its own where the system makes one.
fn take_turns<R: Threads + Wait + Sync, C: Sync, T: Turn<C> + Send + Drop>(
    rt: &R,
    alloc: Global,
    shared: &C,
    board: &Board,
    workers: &mut [Worker<T>],
)
    requires { All (IsReady T.is_ready T.took shared.now board.now) workers.old }
    ensures { TakeTurns T.is_ready T.took shared.now board.now workers.old workers.new }
{
    if workers.is_empty() {
        return;
    }
    let threads = workers.len();
    thread::for_each_mut(
        rt,
        workers,
        threads,
        &|_, worker: &mut Worker<T>| take_turn(rt, alloc, shared, board, worker),
    );
}

// Each worker of a vector takes its turn, in a thread of its own where the system makes one. The workers stay in their
// order.
fn take_all_turns<R: Threads + Wait + Sync, C: Sync, T: Turn<C> + Send + Drop>(
    rt: &R,
    alloc: Global,
    shared: &C,
    board: &Board,
    workers: &mut Vec<Worker<T>>,
)
    requires { All (IsReady T.is_ready T.took shared.now board.now) workers.old.items }
    ensures many { length workers.new.items ≡ length workers.old.items }
    ensures turns { TakeTurns T.is_ready T.took shared.now board.now workers.old.items workers.new.items }
    ensures used { All (IsUsed board.now) (passes_of workers.new.items) }
{
    take_turns(rt, alloc, shared, board, workers.as_mut_slice());
}

/// Each job takes its turn, on a thread where the system makes one, by a pass of its own of one board with so many
/// places. The jobs are then as their turns left them, in their order; where there is no memory, they are as they were.
pub fn on_threads<R: Threads + Wait + Sync, C: Sync, T: Turn<C> + Send + Drop>(
    rt: &R,
    alloc: Global,
    places: u32,
    shared: &C,
    jobs: &mut Vec<T>,
) -> Result<(), AllocError>
    requires places { IsPlaces places }
    requires some { 1 ≤ vec_len jobs.old }
    requires few { vec_len jobs.old < 64 }
    requires ready { All (T.is_ready shared.now) jobs.old.items }
    ensures len { vec_len jobs.new ≡ vec_len jobs.old }
    ensures turns { OnOk result (TookTurns T.is_ready T.took shared.now places jobs.old.items jobs.new.items) }
    ensures kept { OnErr result (jobs.new ≡ jobs.old) }
{
    let (board, mut first) = Board::new(alloc, places)?;
    let mut workers = hire(alloc, &board, &mut first, jobs)?;
    take_all_turns(rt, alloc, shared, &board, &mut workers);
    let _whole = dismiss(&board, first, workers, jobs);
    Ok(())
}
