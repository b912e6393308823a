// What is said of a link on standard error, in logfmt. No contract speaks of it.
use crate::TcpLink;
use jiff::Timestamp;
use libc::net::{POLLOUT, poll};
use libc::types::pollfd;
use lp_base::LinkReport;
use std::fmt;
use std::net::SocketAddr;
use std::time::{Clock, Duration};

// Standard error.
const STDERR: i32 = 2;

/// Whether a line on standard error does not wait: it is taken at once, or fails at once. A pipe that takes more takes
/// 4,096 bytes: a line of each of 16 workers. Where it cannot be asked, no wait is expected.
pub(crate) fn can_say() -> bool {
    let mut asked = [pollfd {
        fd: STDERR,
        events: POLLOUT,
        revents: 0,
    }];
    poll(&mut asked, 0) != 0
}

/// The line of a link that has ended. A time that the clock did not tell is left out.
#[derive(Drop)]
pub(crate) struct LinkLine {
    time: Option<Timestamp>,
    worker: u32,
    number: u64,
    peer: SocketAddr,
    report: LinkReport,
    bytes_read: u64,
    bytes_written: u64,
    lasted: Option<Duration>,
    dropped: u64,
}

impl LinkLine {
    /// The record of a link that ends now, by its worker's number and its own number with that worker.
    pub fn of<R: Clock>(
        rt: &R,
        worker: u32,
        number: u64,
        link: &TcpLink,
        report: LinkReport,
        dropped: u64,
    ) -> Self {
        LinkLine {
            time: Timestamp::now(rt).ok(),
            worker,
            number,
            peer: link.peer,
            report,
            bytes_read: link.bytes_read,
            bytes_written: link.bytes_written,
            lasted: lasted(rt, link),
            dropped,
        }
    }
}

// How long a link has lasted since it was accepted; none where the clock does not tell or did not tell then.
fn lasted<R: Clock>(rt: &R, link: &TcpLink) -> Option<Duration> {
    link.since?.elapsed(rt).ok()
}

impl fmt::Display for LinkLine {
    // Writes the line in fields, each a name, `=` and a value: time, worker, link, peer, word, commands, pivots, bytes
    // in and out, seconds, and how many lines were dropped before it, if any. A time that the clock did not tell is
    // left out.
    fn fmt<W: fmt::Write>(&self, f: &mut fmt::Formatter<W>) -> fmt::Result {
        if let Some(time) = self.time {
            write!(f, "time={time:.3} ")?;
        }
        let (worker, number, peer) = (self.worker, self.number, self.peer);
        write!(f, "worker={worker} link={number} peer={peer}")?;
        let (word, work) = (self.report.word, self.report.work);
        let (commands, pivots) = (work.commands, work.pivots);
        write!(f, " word={word} commands={commands} pivots={pivots}")?;
        let (read, written) = (self.bytes_read, self.bytes_written);
        write!(f, " in={read} out={written}")?;
        if let Some(lasted) = self.lasted {
            let (seconds, millis) = (lasted.as_secs(), lasted.subsec_millis());
            write!(f, " seconds={seconds}.{millis:03}")?;
        }
        if self.dropped > 0 {
            write!(f, " dropped={}", self.dropped)?;
        }
        Ok(())
    }
}
