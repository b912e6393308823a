// The asks of a script, answered by so many workers.
ghost use Rattle.std.specs.Prelude.{◌≤◌, All, IfOk};
ghost use Rattle.spec_server.specs.Shared.{IsPlaces, IsWorkers};
ghost use Rattle.lp_script.specs.AnswersAll.{AnswersAll};

use crate::deal::{collect, deal, open_parts};
use crate::gate::Gate;
use lp_line::{Asked, Reply};
use lp_workers::on_threads;
use std::alloc::{AllocError, Global};
use std::sync::Wait;
use std::thread::Threads;

/// Answers the requests on so many threads, which share so many places. The replies come in the order of the requests.
pub(crate) fn answer_all<R: Threads + Wait + Sync, G: Gate + Sync>(
    rt: &R,
    alloc: Global,
    asks: Vec<Asked>,
    workers: u32,
    places: u32,
    gate: &G,
) -> Result<Vec<Reply>, AllocError>
    requires workers { IsWorkers workers }
    requires places { IsPlaces places }
    requires sessions { All (λ asked. asked.session ≤ 64) asks.items }
    ensures { IfOk result (λ replies. AnswersAll workers places asks.items replies.items) }
{
    let mut parts = open_parts(alloc, workers)?;
    let sessions = deal(alloc, asks, &mut parts)?;
    on_threads(rt, alloc, places, gate, &mut parts)?;
    collect(alloc, sessions.as_slice(), &mut parts)
}
