// A source and a sink in memory.
ghost use Rattle.std.specs.Prelude.{◌≡◌, ◌↔◌, ℕ, ◌+◌, ◌-◌, ◌^◌, ◌<◌, ◌≤◌, ◌++◌, List, [], ◌∷◌};
ghost use Rattle.std.specs.Prelude.{length, min, take, Some, IsErr, IsErrOf, OnOk, OnErr, IfOk};
ghost use Rattle.std.specs.List.{Contains};
ghost use Rattle.std.specs.Io.{ReadsAtMost, WritesAtMost};
ghost use Rattle.std.specs.Io.KnownBytes.{ReadConsumes, WriteAppends};
ghost use Rattle.lp_base.specs.Beside.{no_sink, no_source};
ghost use Rattle.lp_base.specs.Causes.{HasCause};
ghost use Rattle.lp_base.specs.Memory.{unread, unread_pieces, next_read, failing_reads, source_faults};
ghost use Rattle.lp_base.specs.Memory.{bytes_taken, next_write, failing_writes, sink_faults};
ghost use Rattle.lp_base.specs.Pieces.{filled, pieces_left, bytes_of, first_given, left_behind};

use crate::calls::Calls;
use crate::{Failed, Sink, Source, Texts};
use std::alloc::Global;

/// Gives one piece per read, cut where the buffer is shorter; empty pieces are skipped.
/// The reads whose number is listed fail, and no others.
#[derive(Drop)]
pub struct MemSource {
    pieces: Texts,
    // The piece to be read next, and where in it.
    piece: usize,
    from: usize,
    calls: Calls,
}

impl MemSource {
    /// A source of these pieces. The reads with the listed numbers will fail, counted from 1.
    pub fn new(pieces: Texts, fails: Vec<u64>) -> Self
        ensures pieces { unread_pieces result ≡ filled pieces }
        ensures left { unread result ≡ bytes_of pieces }
        ensures next { next_read result ≡ 1 }
        ensures fails { failing_reads result ≡ fails.items }
        ensures faults { source_faults result ≡ 0 }
    {
        MemSource {
            pieces,
            piece: 0,
            from: 0,
            calls: Calls::new(fails),
        }
    }

    // Copies the next piece that is not empty, or its rest, into the buffer, as much as there is room for; gives the
    // number of bytes, which is 0 where no such piece is left.
    fn give(&mut self, buf: &mut [u8]) -> usize
        ensures bound { result ≤ length buf.new }
        ensures len { length buf.new ≡ length buf.old }
        ensures first { take result buf.new ≡ first_given (length buf.old) (unread_pieces self.old) }
        ensures behind { unread_pieces self.new ≡ left_behind (length buf.old) (unread_pieces self.old) }
        ensures bytes { unread self.old ≡ take result buf.new ++ unread self.new }
        ensures end { result ≡ 0 → 0 < length buf.new → unread self.new ≡ [] }
        ensures calls { self.new.calls ≡ self.old.calls }
    {
        while self.piece < self.pieces.len() {
            let piece = self.pieces.get(self.piece).as_slice();
            if self.from < piece.len() {
                let count = copy_front(&piece[self.from..], buf);
                self.from += count;
                return count;
            }
            self.piece += 1;
            self.from = 0;
        }
        0
    }
}

// Copies the first of the bytes to the start of the buffer, as many as it has room for, and gives their number.
fn copy_front(bytes: &[u8], buf: &mut [u8]) -> usize
    ensures count { result ≡ min (length bytes.now) (length buf.old) }
    ensures len { length buf.new ≡ length buf.old }
    ensures copied { take result buf.new ≡ take result bytes.now }
{
    let count = bytes.len().min(buf.len());
    buf[..count].copy_from_slice(&bytes[..count]);
    count
}

impl Source for MemSource {
    ghost left = { λ s. Some (bytes_of (pieces_left s.piece s.from s.pieces)) };

    ghost read_faults = { λ s. s.calls.faults };

    ghost beside_reads = { λ _. no_sink };

    // Counts the read, and copies bytes of the next piece into the buffer unless the read's number is listed.
    fn read(&mut self, buf: &mut [u8]) -> Result<usize, Failed>
        ensures bound { ReadsAtMost result buf.new }
        ensures bytes { ReadConsumes (Some (unread self.old)) (Some (unread self.new)) result buf.new }
        ensures first { IfOk result (λ n. take n buf.new ≡ first_given (length buf.old) (unread_pieces self.old)) }
        ensures behind { OnOk result (unread_pieces self.new ≡ left_behind (length buf.old) (unread_pieces self.old)) }
        ensures kept { OnErr result (unread_pieces self.new ≡ unread_pieces self.old) }
        ensures cause { HasCause (source_faults self.old) (source_faults self.new) result }
        ensures next { next_read self.new ≡ min (next_read self.old + 1) (2 ^ 64 - 1) }
        ensures fails { failing_reads self.new ≡ failing_reads self.old }
        ensures listed { IsErr result ↔ Contains (failing_reads self.old) (next_read self.old) }
    {
        self.calls.begin()?;
        Ok(self.give(buf))
    }
}

/// Keeps what is written to it. The writes whose number is listed fail; another one may fail because memory runs out.
#[derive(Drop)]
pub struct MemSink {
    bytes: Vec<u8>,
    calls: Calls,
}

impl MemSink {
    /// A sink that holds no byte. The writes with the listed numbers will fail, counted from 1.
    pub fn new(alloc: Global, fails: Vec<u64>) -> Self
        ensures taken { bytes_taken result ≡ [] }
        ensures next { next_write result ≡ 1 }
        ensures fails { failing_writes result ≡ fails.items }
        ensures faults { sink_faults result ≡ 0 }
    {
        MemSink {
            bytes: Vec::new(alloc),
            calls: Calls::new(fails),
        }
    }

    /// The bytes that were written so far.
    pub fn written(&self) -> &[u8]
        ensures { result.now ≡ bytes_taken self.now }
    {
        &self.bytes
    }
}

impl Sink for MemSink {
    ghost taken = { λ s. Some s.bytes.items };

    ghost write_faults = { λ s. s.calls.faults };

    ghost beside_writes = { λ _. no_source };

    // Counts the write, and keeps all bytes of the piece unless the write's number is listed or memory runs out.
    fn write(&mut self, piece: &[u8]) -> Result<usize, Failed>
        ensures bound { WritesAtMost result piece.now }
        ensures all { IfOk result (λ n. n ≡ length piece.now) }
        ensures bytes { WriteAppends (Some (bytes_taken self.old)) (Some (bytes_taken self.new)) result piece.now }
        ensures cause { HasCause (sink_faults self.old) (sink_faults self.new) result }
        ensures next { next_write self.new ≡ min (next_write self.old + 1) (2 ^ 64 - 1) }
        ensures fails { failing_writes self.new ≡ failing_writes self.old }
        ensures listed { Contains (failing_writes self.old) (next_write self.old) → IsErr result }
    {
        self.calls.begin()?;
        if self.bytes.extend_from_slice(piece).is_err() {
            return Err(self.calls.fail());
        }
        Ok(piece.len())
    }
}
