// A link in memory.
ghost use Rattle.std.specs.Prelude.{◌≡◌, ◌↔◌, ◌+◌, ◌-◌, ◌^◌, [], length, min, take, refl};
ghost use Rattle.std.specs.Prelude.{Some, IsErr, OnOk, OnErr, IfOk};
ghost use Rattle.std.specs.List.{Contains};
ghost use Rattle.std.specs.Io.{ReadsAtMost, WritesAtMost};
ghost use Rattle.std.specs.Io.KnownBytes.{ReadConsumes, WriteAppends};
ghost use Rattle.lp_base.specs.Causes.{HasCause};
ghost use Rattle.lp_base.specs.Memory.{unread, unread_pieces, next_read, failing_reads, source_faults};
ghost use Rattle.lp_base.specs.Memory.{bytes_taken, next_write, failing_writes, sink_faults};
ghost use Rattle.lp_base.specs.Pieces.{filled, bytes_of, first_given, left_behind};
ghost use Rattle.lp_base.specs.LinkState.{sink_of, source_of};

use crate::bytes::Texts;
use crate::link::Link;
use crate::memory::{MemSink, MemSource};
use crate::outside::{Failed, Sink, Source};
use std::alloc::Global;

/// Gives some pieces, and keeps what is written to it. The reads and the writes whose number is listed fail.
#[derive(Drop)]
pub struct MemLink {
    source: MemSource,
    sink: MemSink,
}

impl MemLink {
    /// A link that gives these pieces. The reads and the writes with the listed numbers will fail, counted from 1 each.
    pub fn new(alloc: Global, pieces: Texts, read_fails: Vec<u64>, write_fails: Vec<u64>) -> Self
        ensures pieces { unread_pieces result.source ≡ filled pieces }
        ensures left { unread result.source ≡ bytes_of pieces }
        ensures next_read { next_read result.source ≡ 1 }
        ensures read_fails { failing_reads result.source ≡ read_fails.items }
        ensures read_faults { source_faults result.source ≡ 0 }
        ensures taken { bytes_taken result.sink ≡ [] }
        ensures next_write { next_write result.sink ≡ 1 }
        ensures write_fails { failing_writes result.sink ≡ write_fails.items }
        ensures write_faults { sink_faults result.sink ≡ 0 }
    {
        MemLink {
            source: MemSource::new(pieces, read_fails),
            sink: MemSink::new(alloc, write_fails),
        }
    }

    /// The bytes that were written to the link so far.
    pub fn written(&self) -> &[u8]
        ensures { result.now ≡ bytes_taken self.now.sink }
    {
        self.sink.written()
    }
}

impl Source for MemLink {
    ghost left = { λ l. Some (unread l.source) };

    ghost read_faults = { λ l. source_faults l.source };

    ghost beside_reads = { λ l. sink_of (Some (bytes_taken l.sink)) (sink_faults l.sink) };

    // Counts the read, and copies the next bytes of the pieces into the buffer unless the read's number is listed. What
    // was written is left as it is.
    fn read(&mut self, buf: &mut [u8]) -> Result<usize, Failed>
        ensures bound { ReadsAtMost result buf.new }
        ensures bytes { ReadConsumes (Some (unread self.old.source)) (Some (unread self.new.source)) result buf.new }
        ensures first { IfOk result
            (λ n. take n buf.new ≡ first_given (length buf.old) (unread_pieces self.old.source)) }
        ensures behind { OnOk result
            (unread_pieces self.new.source ≡ left_behind (length buf.old) (unread_pieces self.old.source)) }
        ensures kept { OnErr result (unread_pieces self.new.source ≡ unread_pieces self.old.source) }
        ensures cause { HasCause (source_faults self.old.source) (source_faults self.new.source) result }
        ensures next { next_read self.new.source ≡ min (next_read self.old.source + 1) (2 ^ 64 - 1) }
        ensures fails { failing_reads self.new.source ≡ failing_reads self.old.source }
        ensures listed { IsErr result ↔ Contains (failing_reads self.old.source) (next_read self.old.source) }
        ensures sink { self.new.sink ≡ self.old.sink }
    {
        self.source.read(buf)
    }
}

impl Sink for MemLink {
    ghost taken = { λ l. Some (bytes_taken l.sink) };

    ghost write_faults = { λ l. sink_faults l.sink };

    ghost beside_writes = { λ l. source_of (Some (unread l.source)) (source_faults l.source) };

    // Counts the write, and keeps all bytes of the piece unless the write's number is listed or memory runs out. The
    // pieces still to be read are left as they are.
    fn write(&mut self, piece: &[u8]) -> Result<usize, Failed>
        ensures bound { WritesAtMost result piece.now }
        ensures all { IfOk result (λ n. n ≡ length piece.now) }
        ensures bytes { WriteAppends (Some (bytes_taken self.old.sink)) (Some (bytes_taken self.new.sink)) result
            piece.now }
        ensures cause { HasCause (sink_faults self.old.sink) (sink_faults self.new.sink) result }
        ensures next { next_write self.new.sink ≡ min (next_write self.old.sink + 1) (2 ^ 64 - 1) }
        ensures fails { failing_writes self.new.sink ≡ failing_writes self.old.sink }
        ensures listed { Contains (failing_writes self.old.sink) (next_write self.old.sink) → IsErr result }
        ensures source { self.new.source ≡ self.old.source }
    {
        self.sink.write(piece)
    }
}

impl Link for MemLink {
    ghost reads_beside = { λ l. refl };

    ghost writes_beside = { λ l. refl };
}
