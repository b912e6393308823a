// The real source and sink. They count their faults, and tell of the bytes what std tells. What a signal interrupts is
// no fault.
ghost use Rattle.lp_base.specs.Beside.{no_sink, no_source};

use lp_base::{Failed, Sink, Source};
use lp_net::{counted, read_again, write_again};
use std::io::{Read, Write};

/// A reader as a source, and a writer as a sink.
#[derive(Drop)]
pub struct Counted<T> {
    inner: T,
    faults: u64,
}

impl<T> Counted<T> {
    /// A reader or a writer that has had no fault yet.
    pub fn new(inner: T) -> Self {
        Counted { inner, faults: 0 }
    }
}

impl<R: Read> Source for Counted<R> {
    ghost left = { λ s. R.remaining s.inner };

    ghost read_faults = { λ s. s.faults };

    ghost beside_reads = { λ _. no_sink };

    // Reads from the reader, and counts a fault, if there is one.
    fn read(&mut self, buf: &mut [u8]) -> Result<usize, Failed> {
        let read = read_again(&mut self.inner, buf);
        counted(read, &mut self.faults)
    }
}

impl<W: Write> Sink for Counted<W> {
    ghost taken = { λ s. W.contents s.inner };

    ghost write_faults = { λ s. s.faults };

    ghost beside_writes = { λ _. no_source };

    // Writes to the writer, and counts a fault, if there is one.
    fn write(&mut self, piece: &[u8]) -> Result<usize, Failed> {
        let written = write_again(&mut self.inner, piece);
        counted(written, &mut self.faults)
    }
}
