// Where a server listens.
ghost use Rattle.std.specs.Prelude.{◌≡◌, map, string_bytes, vec_len, IfOk};
ghost use Rattle.spec_program.specs.CommandLine.{command_line_of};
ghost use Rattle.lp_top.specs.Top.{HasListeners};

use crate::unbound::Unbound;
use lp_net::TcpNet;
use lp_top::plan;
use std::alloc::{AllocError, Global};
use std::net::TcpListener;

/// The socket of a server, bound at this address, or why it cannot be. That it is bound is said on standard error, with
/// the address as the system tells it; where that fails, nothing is said.
pub fn listen<'a>(rt: &HostRuntime, address: &'a String) -> Result<TcpListener, Unbound<'a>> {
    let socket = match TcpListener::bind(rt, address) {
        Ok(socket) => socket,
        Err(error) => return Err(Unbound { address, error }),
    };
    if let Ok(bound) = socket.local_addr() {
        let _ = eprintln!(rt; "lpd: listening on {bound}");
    }
    Ok(socket)
}

/// How many listeners a command line wants: one for each worker of a server, and else none.
pub fn wanted(words: &[String]) -> u32
    ensures { HasListeners (command_line_of (map string_bytes words.now)) result }
{
    match plan(words) {
        Some(serving) => serving.workers,
        None => 0,
    }
}

/// A list of `count` listeners of one socket, which number their workers from 1 on. Memory may run out.
pub fn nets_at<'a>(
    rt: &'a HostRuntime,
    alloc: Global,
    count: u32,
    socket: Option<&'a TcpListener>,
) -> Result<Vec<TcpNet<'a, HostRuntime>>, AllocError>
    ensures { IfOk result (λ nets. vec_len nets ≡ count) }
{
    let mut nets = Vec::new(alloc);
    for index in 0..count {
        nets.push(TcpNet::new(rt, socket, index + 1))?;
    }
    Ok(nets)
}
