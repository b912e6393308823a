// A TCP stream as a link. It counts its faults and its bytes, and tells nothing of what these are.
ghost use Rattle.std.specs.Prelude.{None, refl};
ghost use Rattle.lp_base.specs.LinkState.{sink_of, source_of};

use crate::again::{counted, read_again, write_again};
use lp_base::{Failed, Link, Sink, Source};
use std::io;
use std::io::{ErrorKind, Read};
use std::net::{Shutdown, SocketAddr, TcpStream};
use std::time::{Clock, Duration, Instant};

// For how many seconds, as a link closes, what its client still sends is read and dropped.
const PATIENCE: u64 = 2;

// How many reads of a closing link are dropped at most: 2 ^ 26 bytes with `MOST_AT_ONCE` bytes each.
const MOST_READS: u32 = 16_384;

// How many bytes of a closing link are read and dropped at once, at most.
const MOST_AT_ONCE: usize = 4096;

/// A TCP stream as a link. A call that a signal interrupts is tried again, and a write that takes nothing is a fault.
#[derive(Drop)]
pub struct TcpLink {
    stream: TcpStream,
    read_faults: u64,
    write_faults: u64,
    pub(crate) peer: SocketAddr,
    /// When it was accepted, where the clock told.
    pub(crate) since: Option<Instant>,
    pub(crate) bytes_read: u64,
    pub(crate) bytes_written: u64,
}

impl TcpLink {
    /// A link on an accepted stream, by the peer's address and the time when it was accepted. Nothing is counted yet.
    pub fn new(stream: TcpStream, peer: SocketAddr, since: Option<Instant>) -> Self {
        TcpLink {
            stream,
            read_faults: 0,
            write_faults: 0,
            peer,
            since,
            bytes_read: 0,
            bytes_written: 0,
        }
    }

    /// Closes the link: the client hears at once that no more comes. What it still sends is read and dropped for a
    /// while, since a system resets a link that is closed with bytes unread, and then a client may lose replies. Where
    /// the client can't be told, nothing is read.
    pub(crate) fn close<R: Clock>(mut self, rt: &R) {
        if self.stream.shutdown(Shutdown::Write).is_ok() {
            let _ = drop_rest(rt, &mut self.stream);
        }
    }
}

// Reads and drops what comes, until no more comes, a read or the clock fails, two seconds are up, or 2 ^ 14 reads were
// made. A read that a signal interrupts is one of these, and no failure.
fn drop_rest<R: Clock>(rt: &R, stream: &mut TcpStream) -> io::Result<()> {
    let (since, patience) = (Instant::now(rt)?, Duration::from_secs(PATIENCE));
    let mut dropped = [0; MOST_AT_ONCE];
    for _ in 0..MOST_READS {
        let left = patience.saturating_sub(since.elapsed(rt)?);
        if left.is_zero() {
            break;
        }
        stream.set_read_timeout(Some(left))?;
        match stream.read(&mut dropped) {
            Ok(0) => break,
            Ok(_) => {}
            Err(error) if error.kind() == ErrorKind::Interrupted => {}
            Err(error) => return Err(error),
        }
    }
    Ok(())
}

// The count of bytes after a call, which adds those that it moved, and none where it failed.
fn with_more(bytes: u64, did: &Result<usize, Failed>) -> u64 {
    match did {
        Ok(count) => bytes.saturating_add(*count as u64),
        Err(_) => bytes,
    }
}

impl Source for TcpLink {
    ghost left = { λ _. None };

    ghost read_faults = { λ link. link.read_faults };

    ghost beside_reads = { λ link. sink_of None link.write_faults };

    // Reads from the stream, and counts the bytes or the fault.
    fn read(&mut self, buf: &mut [u8]) -> Result<usize, Failed> {
        let read = read_again(&mut self.stream, buf);
        self.bytes_read = with_more(self.bytes_read, &read);
        counted(read, &mut self.read_faults)
    }
}

impl Sink for TcpLink {
    ghost taken = { λ _. None };

    ghost write_faults = { λ link. link.write_faults };

    ghost beside_writes = { λ link. source_of None link.read_faults };

    // Writes to the stream, and counts the bytes or the fault.
    fn write(&mut self, piece: &[u8]) -> Result<usize, Failed> {
        let written = write_again(&mut self.stream, piece);
        self.bytes_written = with_more(self.bytes_written, &written);
        counted(written, &mut self.write_faults)
    }
}

impl Link for TcpLink {
    ghost reads_beside = { λ _. refl };

    ghost writes_beside = { λ _. refl };
}
