// The first line that a sink took.
ghost use Rattle.std.specs.Prelude.{◌≤◌};

use lp_base::{Failed, Sink};

// How many of the first bytes are kept: a refusal by a name of a model has 80 bytes at most, and a line feed.
const KEPT: usize = 96;

// The first bytes that were written, 96 at most.
#[derive(Drop)]
struct Start {
    bytes: [u8; KEPT],
    count: usize,
    ghost fits: { count ≤ 96 },
}

impl Start {
    // Keeps as much of the next piece of output as there is room for.
    fn keep(&mut self, piece: &[u8]) {
        let room = &mut self.bytes[self.count..];
        let more = room.len().min(piece.len());
        room[..more].copy_from_slice(&piece[..more]);
        self.count += more;
    }
}

/// A sink that keeps the first 96 bytes of what it takes, to tell the first line.
#[derive(Drop)]
pub struct Opening<K> {
    inner: K,
    start: Start,
}

impl<K> Opening<K> {
    /// A sink that has taken nothing yet.
    pub fn new(inner: K) -> Self {
        let start = Start {
            bytes: [0; KEPT],
            count: 0,
        };
        Opening { inner, start }
    }

    /// The first line of the output, if the first 96 bytes of the output are text and have its line feed.
    pub fn first_line(&self) -> Option<&str> {
        let start = &self.start;
        let text = str::from_utf8(&start.bytes[..start.count]).ok()?;
        let (line, _) = text.split_once('\n')?;
        Some(line)
    }
}

impl<K: Sink> Sink for Opening<K> {
    ghost taken = { λ s. K.taken s.inner };

    ghost write_faults = { λ s. K.write_faults s.inner };

    ghost beside_writes = { λ s. K.beside_writes s.inner };

    // Writes to the inner sink, and keeps of what it took as much as there is room for.
    fn write(&mut self, piece: &[u8]) -> Result<usize, Failed> {
        let count = self.inner.write(piece)?;
        self.start.keep(&piece[..count]);
        Ok(count)
    }
}
