// The run of a script by many workers.
ghost use Rattle.std.specs.Prelude.{◌≡◌, ◌≢◌, ◌⊎◌, map, IfOk, IfErr, IsErrOf, OnOk};
ghost use Rattle.std.specs.Io.KnownBytes.{Appends};
ghost use Rattle.lp_base.specs.Beside.{Takes};
ghost use Rattle.lp_base.specs.Causes.{Rose};
ghost use Rattle.lp_script.specs.Replies.{replies_out};
ghost use Rattle.lp_script.specs.Run.{IsPlaces, IsWorkers, Runs};
ghost use Rattle.spec_server.specs.Streams.{streams};

use crate::answer::write_reply;
use crate::answer_all::answer_all;
use crate::gate::Gate;
use crate::script::{Script, read_script};
use lp_base::{Sink, Source};
use lp_line::{Asked, Halt, Reply};
use std::alloc::{AllocError, Global};
use std::sync::Wait;
use std::thread::Threads;

// The numbers of the sessions that these requests are for, in the order of the requests.
fn sessions_of(alloc: Global, asks: &[Asked]) -> Result<Vec<u32>, AllocError>
    ensures { IfOk result (λ sessions. sessions.items ≡ map (λ asked. asked.session) asks.now) }
{
    let mut sessions = Vec::with_capacity(alloc, asks.len())?;
    for asked in asks {
        sessions.push_reserved(asked.session);
    }
    Ok(sessions)
}

// Writes these replies, one after the other. `sessions` has the number of each one's session.
fn write<K: Sink>(
    alloc: Global,
    sessions: &[u32],
    replies: &[Reply],
    out: &mut K,
) -> Result<(), Halt>
    ensures ok { OnOk result (Appends (K.taken out.old) (K.taken out.new) (replies_out sessions.now replies.now)) }
    ensures part { Takes (K.taken out.old) (K.taken out.new) (replies_out sessions.now replies.now) }
    ensures halts { IfErr result (λ halt. (halt ≡ Halt.Write) ⊎ (halt ≡ Halt.NoMemory)) }
    ensures write { IsErrOf result Halt.Write → Rose (K.write_faults out.old) (K.write_faults out.new) }
{
    for (session, reply) in sessions.iter().zip(replies) {
        write_reply(alloc, *session, reply, out)?;
    }
    Ok(())
}

/// Reads the script that the source gives to its end, answers its requests on so many threads, and writes the replies.
pub(crate) fn run_side_by_side<R: Threads + Wait + Sync, S: Source, K: Sink, G: Gate + Sync>(
    rt: &R,
    alloc: Global,
    src: &mut S,
    out: &mut K,
    workers: u32,
    places: u32,
    gate: &G,
) -> Result<(), Halt>
    requires workers { IsWorkers workers }
    requires places { IsPlaces places }
    requires many { workers ≢ 1 }
    ensures output { Runs workers places
        (streams (S.left src.old) (S.left src.new) (K.taken out.old) (K.taken out.new)) result }
    ensures read { IsErrOf result Halt.Read → Rose (S.read_faults src.old) (S.read_faults src.new) }
    ensures write { IsErrOf result Halt.Write → Rose (K.write_faults out.old) (K.write_faults out.new) }
{
    let Script { asks, end } = read_script(alloc, src)?;
    let sessions = sessions_of(alloc, asks.as_slice())?;
    let replies = answer_all(rt, alloc, asks, workers, places, gate)?;
    write(alloc, sessions.as_slice(), replies.as_slice(), out)?;
    end
}
