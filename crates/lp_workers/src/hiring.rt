// How jobs are given to workers, with passes that are cut off the first one, and taken back from them.
ghost use Rattle.std.specs.Prelude.{◌≡◌, ◌+◌, ◌≤◌, ◌<◌, ◌++◌, [], All, IfOk, OnOk, OnErr, vec_len, vec_capacity};
ghost use Rattle.std.specs.List.Sorted.{IsPermutation};
ghost use Rattle.basis_board.specs.Id.{id_of};
ghost use Rattle.basis_board.specs.Known.{notes_of};
ghost use Rattle.basis_board.specs.Moments.{IsOneLog};
ghost use Rattle.basis_board.specs.Rule.{Consistent};
ghost use Rattle.basis_board.specs.PassReads.{reads_of};
ghost use Rattle.lp_workers.specs.Passes.{IsFresh, IsUsed, KnowsWhole, notes_of_all, part_of, reads_of_all};
ghost use Rattle.lp_workers.specs.Turns.{jobs_of, passes_of};

use basis_board::{Board, Pass};
use std::alloc::{AllocError, Global};

/// A job with the pass by which it takes its turn.
#[derive(Drop)]
pub struct Worker<T> {
    pub job: T,
    pub pass: Pass,
}

/// A worker for each job, in their order, each with a pass that is split off the first one and has one part of its
/// share. The jobs are taken out of their vector, which keeps its room. Without memory they stay there.
pub(crate) fn hire<T: Drop>(
    alloc: Global,
    board: &Board,
    first: &mut Pass,
    jobs: &mut Vec<T>,
) -> Result<Vec<Worker<T>>, AllocError>
    requires board { (first.old.board ≡ id_of board.now) × (first.old.view.places ≡ board.now.places) }
    requires share { vec_len jobs.old < first.old.view.share }
    requires unread { first.old.view.reads ≡ [] }
    requires consistent { Consistent first.old.view }
    ensures board { first.new.board ≡ first.old.board }
    ensures rest { first.new.view ≡ part_of first.old.view first.new.view.share }
    ensures consistent { Consistent first.new.view }
    ensures share { IfOk result (λ hired. first.new.view.share + vec_len hired ≡ first.old.view.share) }
    ensures len { IfOk result (λ hired. vec_len hired ≡ vec_len jobs.old) }
    ensures jobs { IfOk result (λ hired. jobs_of hired.items ≡ jobs.old.items) }
    ensures fresh { IfOk result (λ hired. All (λ w. IsFresh board.now w.pass) hired.items) }
    ensures left { OnOk result (jobs.new.items ≡ []) }
    ensures room { vec_capacity jobs.new ≡ vec_capacity jobs.old }
    ensures kept { OnErr result (jobs.new ≡ jobs.old) }
{
    let mut hired = Vec::with_capacity(alloc, jobs.len())?;
    while let Some(job) = jobs.pop() {
        let pass = board.split(first);
        hired.push_reserved(Worker { job, pass });
    }
    hired.reverse();
    Ok(hired)
}

/// Takes the jobs out of the workers, and puts them in their order into the vector, in the room that they left. It
/// gives the first pass, into which those of all workers were merged: it has their parts and reads beside its own.
pub(crate) fn dismiss<T: Drop>(
    board: &Board,
    mut first: Pass,
    mut workers: Vec<Worker<T>>,
    jobs: &mut Vec<T>,
) -> Pass
    requires empty { jobs.old.items ≡ [] }
    requires room { vec_len workers ≤ vec_capacity jobs.old }
    requires board { first.board ≡ id_of board.now }
    requires used { All (IsUsed board.now) (passes_of workers.items) }
    requires consistent { Consistent first.view }
    requires whole { first.view.share ≡ 64 → KnowsWhole first.view }
    requires log { first.view.share ≡ 64 → IsOneLog (notes_of first) }
    ensures jobs { jobs.new.items ≡ jobs_of workers.items }
    ensures consistent { Consistent result.view }
    ensures share { result.view.share ≡ first.view.share + vec_len workers }
    ensures whole { result.view.share ≡ 64 → KnowsWhole result.view }
    ensures reads { IsPermutation
        (reads_of first.view ++ reads_of_all (passes_of workers.items)) (reads_of result.view) }
    ensures notes { notes_of result ≡ notes_of_all (passes_of workers.items) ++ notes_of first }
    ensures log { result.view.share ≡ 64 → IsOneLog (notes_of result) }
{
    while let Some(worker) = workers.pop() {
        let Worker { job, pass } = worker;
        jobs.push_reserved(job);
        first = board.meet(first, pass);
    }
    jobs.reverse();
    first
}
