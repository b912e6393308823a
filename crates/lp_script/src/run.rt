// The run of a script.
ghost use Rattle.std.specs.Prelude.{IsErrOf};
ghost use Rattle.lp_base.specs.Causes.{Rose};
ghost use Rattle.lp_script.specs.Run.{IsPlaces, IsWorkers, Runs};
ghost use Rattle.spec_server.specs.Streams.{streams};

use crate::gate::Gate;
use crate::in_order::answer_asks;
use crate::sessions::Sessions;
use crate::side_by_side::run_side_by_side;
use lp_base::{Lines, Sink, Source};
use lp_line::Halt;
use std::alloc::Global;
use std::sync::Wait;
use std::thread::Threads;

/// Answers the requests of the script that the source gives, by so many workers, and writes the replies in their order.
/// The sessions share so many places.
pub fn run_script<R: Threads + Wait + Sync, S: Source, K: Sink, G: Gate + Sync>(
    rt: &R,
    alloc: Global,
    src: &mut S,
    out: &mut K,
    workers: u32,
    places: u32,
    gate: &G,
) -> Result<(), Halt>
    requires workers { IsWorkers workers }
    requires places { IsPlaces places }
    ensures output { Runs workers places
        (streams (S.left src.old) (S.left src.new) (K.taken out.old) (K.taken out.new)) result }
    ensures read { IsErrOf result Halt.Read → Rose (S.read_faults src.old) (S.read_faults src.new) }
    ensures write { IsErrOf result Halt.Write → Rose (K.write_faults out.old) (K.write_faults out.new) }
{
    if workers != 1 {
        return run_side_by_side(rt, alloc, src, out, workers, places, gate);
    }
    let mut lines = Lines::new(alloc)?;
    let mut sessions = Sessions::new(alloc, places)?;
    let run = answer_asks(alloc, &mut lines, &mut sessions, src, out);
    drop(sessions);
    drop(lines);
    run
}
