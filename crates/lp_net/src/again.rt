// Reads and writes that are tried again where a signal interrupts them, up to 2 ^ 32 - 1 times.
ghost use Rattle.std.specs.Prelude.{◌≡◌, ◌<◌, IfOk};
ghost use Rattle.std.specs.Io.{ReadsAtMost, WritesAtMost};
ghost use Rattle.std.specs.Io.KnownBytes.{ReadConsumes, WriteAppends};
ghost use Rattle.lp_base.specs.Causes.{HasCause};

use lp_base::Failed;
use std::io::{ErrorKind, Read, Write};

/// Reads into the buffer. A read that a signal interrupts is tried again, so that there are at most 2^32 - 1 tries.
pub fn read_again<R: Read>(from: &mut R, buf: &mut [u8]) -> Result<usize, Failed>
    ensures bound { ReadsAtMost result buf.new }
    ensures bytes { ReadConsumes (R.remaining from.old) (R.remaining from.new) result buf.new }
{
    for _ in 0..u32::MAX {
        match from.read(buf) {
            Ok(count) => return Ok(count),
            Err(error) if error.kind() == ErrorKind::Interrupted => {}
            Err(_) => break,
        }
    }
    Err(Failed)
}

/// Writes some of the piece. A write that a signal interrupts is tried again, so that there are at most 2^32 - 1 tries.
/// One that takes nothing is a fault.
pub fn write_again<W: Write>(to: &mut W, piece: &[u8]) -> Result<usize, Failed>
    ensures bound { WritesAtMost result piece.now }
    ensures some { IfOk result (λ count. 0 < count) }
    ensures bytes { WriteAppends (W.contents to.old) (W.contents to.new) result piece.now }
{
    for _ in 0..u32::MAX {
        match to.write(piece) {
            Ok(count) if count > 0 => return Ok(count),
            Err(error) if error.kind() == ErrorKind::Interrupted => {}
            _ => break,
        }
    }
    Err(Failed)
}

/// Gives the result as it is, and raises the count of faults by one where it is an error and the count is not the
/// largest of its type.
pub fn counted(did: Result<usize, Failed>, faults: &mut u64) -> Result<usize, Failed>
    ensures same { result ≡ did }
    ensures cause { HasCause faults.old faults.new result }
{
    if did.is_err() {
        *faults = faults.saturating_add(1);
    }
    did
}
