// The links of many listeners, each served by a worker of its own.
ghost use Rattle.std.specs.Prelude.{◌≡◌, ◌≤◌, ◌<◌, All, IsErrOf, map, vec_len};
ghost use Rattle.std.specs.List.{list_any};
ghost use Rattle.spec_server.specs.Shared.{IsPlaces, IsWorkers};
ghost use Rattle.lp_base.specs.Causes.{Rose};
ghost use Rattle.lp_base.specs.Listening.{listener_of};
ghost use Rattle.lp_serve.specs.Desks.{IsOpen, nets_of};
ghost use Rattle.lp_serve.specs.Serving.{Serves, ended_with};
ghost use Rattle.lp_serve.specs.declared.desk.Desk.{Desk as exact_desk};

use crate::desk::Desk;
use crate::desks::{leave, man};
use crate::ends::write_ends;
use crate::fault::ServeFault;
use lp_base::{Listen, Sink};
use lp_workers::on_threads;
use std::alloc::Global;
use std::sync::Wait;
use std::thread::Threads;

// Whether the listener of some desk failed to give a link.
fn some_failed<N>(desks: &[Desk<N>]) -> bool
    ensures { result ≡ list_any (λ (desk : exact_desk N). desk.has_failed) desks.now }
{
    desks.iter().any(|desk| desk.has_failed)
}

// How serving ended: with the fault of the writing, of the sink or of memory, if there was one; else with `Accept`, if
// a listener failed; else well.
fn ended(said: Result<(), ServeFault>, has_failed: bool) -> Result<(), ServeFault>
    ensures { result ≡ ended_with said has_failed }
{
    match said {
        Err(fault) => Err(fault),
        Ok(()) => {
            if has_failed {
                return Err(ServeFault::Accept);
            }
            Ok(())
        }
    }
}

// Serves the links of listeners at desks, by one worker for each desk, and then writes a line for each link. Where
// there is no memory for the workers, it does neither. The desks stay.
fn serve_desks<R: Threads + Wait + Sync, N: Listen + Send + Drop, K: Sink>(
    rt: &R,
    alloc: Global,
    desks: &mut Vec<Desk<N>>,
    each: u32,
    places: u32,
    out: &mut K,
) -> Result<(), ServeFault>
where
    N::Link: Send,
    requires desks { IsWorkers (vec_len desks.old) }
    requires opened { All (IsOpen each) desks.old.items }
    requires places { IsPlaces places }
    ensures len { vec_len desks.new ≡ vec_len desks.old }
    ensures serves { Serves places each
        (map (listener_of N.log N.accept_faults) (nets_of desks.old.items))
        (map (listener_of N.log N.accept_faults) (nets_of desks.new.items))
        (K.taken out.old) (K.taken out.new) result }
    ensures write { IsErrOf result ServeFault.Write → Rose (K.write_faults out.old) (K.write_faults out.new) }
{
    on_threads(rt, alloc, places, &each, desks)?;
    let said = write_ends(alloc, desks.as_slice(), out);
    let has_failed = some_failed(desks.as_slice());
    ended(said, has_failed)
}

/// Where there is memory for the workers, serves so many links of each listener, one after the other, each listener by
/// a worker of its own, in sessions that share so many places. Then it writes a line for each link: its worker and its
/// number with that worker, both from 1, and how it ended. A worker stops where its listener fails to give a link.
pub fn serve<R: Threads + Wait + Sync, N: Listen + Send + Drop, K: Sink>(
    rt: &R,
    alloc: Global,
    nets: &mut Vec<N>,
    each: u32,
    places: u32,
    out: &mut K,
) -> Result<(), ServeFault>
where
    N::Link: Send,
    requires nets { IsWorkers (vec_len nets.old) }
    requires each { (1 ≤ each) × (each ≤ 1000) }
    requires places { IsPlaces places }
    ensures len { vec_len nets.new ≡ vec_len nets.old }
    ensures serves { Serves places each
        (map (listener_of N.log N.accept_faults) nets.old.items)
        (map (listener_of N.log N.accept_faults) nets.new.items)
        (K.taken out.old) (K.taken out.new) result }
    ensures write { IsErrOf result ServeFault.Write → Rose (K.write_faults out.old) (K.write_faults out.new) }
{
    let mut desks = man(alloc, nets, each)?;
    let served = serve_desks(rt, alloc, &mut desks, each, places, out);
    leave(desks, nets);
    served
}
