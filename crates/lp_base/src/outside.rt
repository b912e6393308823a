// What is outside of the program: where bytes come from, and where they go.
ghost use Rattle.std.specs.Prelude.{◌≡◌, ℕ, ◌<◌, List, length, Option, OnOk, IfOk};
ghost use Rattle.std.specs.Io.{ReadsAtMost, WritesAtMost};
ghost use Rattle.std.specs.Io.KnownBytes.{ReadConsumes, WriteAppends, Appends};
ghost use Rattle.lp_base.specs.Causes.{HasCause};
ghost use Rattle.lp_base.specs.Beside.{SinkState, SourceState, Takes};

use thiserror::Error;

/// The outside failed.
#[derive(Clone, Copy, Debug, Error)]
#[error("the outside failed")]
pub struct Failed;

/// Where bytes come from.
pub trait Source {
    /// The bytes still to come, where they are known.
    ghost left: { Self → Option (List ℕ) };

    /// How often it has failed. It never falls.
    ghost read_faults: { Self → ℕ };

    /// The state of the sink on the same object, which a read leaves as it is.
    ghost beside_reads: { Self → SinkState };

    /// Moves bytes from the start of what is left into the buffer, and gives how many. 0, with room for some, is the
    /// end.
    fn read(&mut self, buf: &mut [u8]) -> Result<usize, Failed>
        ensures bound { ReadsAtMost result buf.new }
        ensures bytes { ReadConsumes (left self.old) (left self.new) result buf.new }
        ensures cause { HasCause (read_faults self.old) (read_faults self.new) result }
        ensures beside { beside_reads self.new ≡ beside_reads self.old };
}

/// Where bytes go.
pub trait Sink {
    /// The bytes that it took, where they are known.
    ghost taken: { Self → Option (List ℕ) };

    /// How often it has failed. It never falls.
    ghost write_faults: { Self → ℕ };

    /// The state of the source on the same object, which a write leaves as it is.
    ghost beside_writes: { Self → SourceState };

    /// Takes some bytes from the start of the piece, and gives how many: one at least, if there is one.
    fn write(&mut self, piece: &[u8]) -> Result<usize, Failed>
        ensures bound { WritesAtMost result piece.now }
        ensures some { IfOk result (λ n. 0 < length piece.now → 0 < n) }
        ensures bytes { WriteAppends (taken self.old) (taken self.new) result piece.now }
        ensures cause { HasCause (write_faults self.old) (write_faults self.new) result }
        ensures beside { beside_writes self.new ≡ beside_writes self.old };
}

/// The sink failed before it took all.
#[derive(Clone, Copy, Debug, Error)]
#[error("the sink failed")]
pub struct WriteFault;

/// Writes all of the piece, in as many writes as that takes. Where a write fails, the sink has taken a beginning of it.
pub fn send<K: Sink>(out: &mut K, piece: &[u8]) -> Result<(), WriteFault>
    ensures ok { OnOk result (Appends (K.taken out.old) (K.taken out.new) piece.now) }
    ensures part { Takes (K.taken out.old) (K.taken out.new) piece.now }
    ensures cause { HasCause (K.write_faults out.old) (K.write_faults out.new) result }
    ensures beside { K.beside_writes out.new ≡ K.beside_writes out.old }
{
    let mut rest = piece;
    while !rest.is_empty() {
        match out.write(rest) {
            Ok(count) => rest = &rest[count..],
            Err(Failed) => return Err(WriteFault),
        }
    }
    Ok(())
}
