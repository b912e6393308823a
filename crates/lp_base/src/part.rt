// A line as far as it was read.
ghost use Rattle.std.specs.Prelude.{◌≡◌, ℕ, ◌+◌, ◌^◌, ◌<◌, ◌≤◌, List, [], ◌++◌, length, take, IfOk};
ghost use Rattle.std.specs.Str.Lines.{strip_carriage_return};
ghost use Rattle.spec_text.specs.Lines.{line_of};
ghost use Rattle.spec_text.specs.declared.line.Line.TheVariants.{End};
ghost use Rattle.lp_base.specs.NextLine.{IsKept};

use crate::{Bytes, Line};
use std::alloc::{AllocError, Global};

const CARRIAGE_RETURN: u8 = b'\r';

// The most bytes of a line that is kept.
const MAX_LINE: u64 = 16_384;

/// The part of a line that was read: its first bytes, at most one more than a line may have, its length and its last byte.
#[derive(Drop)]
pub struct Part {
    bytes: Vec<u8>,
    len: u64,
    last: u8,
}

impl Part {
    /// The part of a line of which nothing was read yet. It takes no memory.
    pub fn new(alloc: Global) -> Self
        ensures { IsKept result [] }
    {
        Part {
            bytes: Vec::new(alloc),
            len: 0,
            last: 0,
        }
    }

    /// Adds bytes to the line: those that fit are kept, and all are counted.
    pub fn extend(&mut self, run: &[u8]) -> Result<(), AllocError>
        requires { self.old.len + length run.now < 2 ^ 64 }
        ensures { IfOk result (λ _. (raw : List ℕ) → IsKept self.old raw → IsKept self.new (raw ++ run.now)) }
    {
        let Some(last) = run.last() else {
            return Ok(());
        };
        let room = (MAX_LINE + 1).saturating_sub(self.len) as usize;
        self.bytes.extend_from_slice(&run[..run.len().min(room)])?;
        self.len += run.len() as u64;
        self.last = *last;
        Ok(())
    }

    /// The line of the bytes that were read, which has no line feed after it; the end of the input, if none were read.
    pub fn last_line(self) -> Line
        ensures some { (raw : List ℕ) → IsKept self raw → 0 < length raw → result ≡ line_of raw }
        ensures none { IsKept self [] → result ≡ End }
    {
        if self.len == 0 {
            return Line::End;
        }
        let len = self.len;
        self.cut(len)
    }

    /// The line of the bytes that were read, which has a line feed after it. A carriage return at its end is left out.
    pub fn ended_line(self) -> Line
        ensures { (raw : List ℕ) → IsKept self raw → result ≡ line_of (strip_carriage_return raw) }
    {
        let len = if self.last == CARRIAGE_RETURN {
            self.len.saturating_sub(1)
        } else {
            self.len
        };
        self.cut(len)
    }

    // The line of the first `len` bytes that were read, or `Long` where these are more than a line may have.
    fn cut(self, len: u64) -> Line
        requires { len ≤ self.len }
        ensures { (raw : List ℕ) → IsKept self raw → result ≡ line_of (take len raw) }
    {
        if len > MAX_LINE {
            return Line::Long(len);
        }
        let mut bytes = self.bytes;
        bytes.truncate(len as usize);
        Line::Text(Bytes::from_vec(bytes))
    }
}
