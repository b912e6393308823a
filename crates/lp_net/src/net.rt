// A TCP socket as a listener.
ghost use Rattle.std.specs.Prelude.{None};

use crate::TcpLink;
use crate::said::{LinkLine, can_say};
use lp_base::{Failed, LinkReport, Listen};
use std::io::ErrorKind;
use std::net::TcpListener;
use std::time::{Clock, Instant};

/// Gives one worker the links of a socket, which others may share. Where there is no socket, none is given. When a link
/// comes back, it is closed, after which a line on standard error says how it ended; a fault of that write changes nothing.
/// Where standard error would have the worker wait, the line is dropped, and the next one says how many were.
#[derive(Drop)]
pub struct TcpNet<'a, R> {
    rt: &'a R,
    socket: Option<&'a TcpListener>,
    faults: u64,
    worker: u32,
    links: u64,
    dropped: u64,
}

impl<'a, R> TcpNet<'a, R> {
    /// A listener on this socket, of which nothing was given yet. Its lines say the worker's number.
    pub fn new(rt: &'a R, socket: Option<&'a TcpListener>, worker: u32) -> Self {
        TcpNet {
            rt,
            socket,
            faults: 0,
            worker,
            links: 0,
            dropped: 0,
        }
    }
}

// The next link of a socket, whose small pieces are sent at once where the system can. What a signal interrupts is
// tried again, and so is a link whose peer has gone already, up to 2 ^ 32 - 1 times. Any other fault is an error.
fn next_link<R: Clock>(rt: &R, socket: &TcpListener) -> Result<TcpLink, Failed> {
    for _ in 0..u32::MAX {
        match socket.accept() {
            Ok((stream, peer)) => {
                let _ = stream.set_nodelay(true);
                return Ok(TcpLink::new(stream, peer, Instant::now(rt).ok()));
            }
            Err(error) if is_passing(error.kind()) => {}
            Err(_) => break,
        }
    }
    Err(Failed)
}

// Whether an accept that failed in this way is tried again: a signal came, or the peer went away.
fn is_passing(kind: ErrorKind) -> bool {
    kind == ErrorKind::Interrupted || kind == ErrorKind::ConnectionAborted
}

impl<'a, R: Clock + Eprint> Listen for TcpNet<'a, R> {
    type Link = TcpLink;

    ghost log = { λ _. None };

    ghost accept_faults = { λ net. net.faults };

    // Waits for the next link of the socket. A fault is counted, and so is that there is no socket.
    fn accept(&mut self) -> Result<TcpLink, Failed> {
        if let Some(socket) = self.socket {
            if let Ok(link) = next_link(self.rt, socket) {
                return Ok(link);
            }
        }
        self.faults = self.faults.saturating_add(1);
        Err(Failed)
    }

    // Closes the link and writes its line on standard error, or counts the line as dropped.
    fn give_back(&mut self, link: TcpLink, report: LinkReport) {
        self.links = self.links.saturating_add(1);
        let line = LinkLine::of(
            self.rt,
            self.worker,
            self.links,
            &link,
            report,
            self.dropped,
        );
        link.close(self.rt);
        if can_say() && eprintln!(self.rt; "{line}").is_ok() {
            self.dropped = 0;
        } else {
            self.dropped = self.dropped.saturating_add(1);
        }
    }
}
