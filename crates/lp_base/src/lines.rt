// The lines of a source.
ghost use Rattle.std.specs.Prelude.{◌≡◌, ◌≢◌, ℕ, ◌+◌, ◌-◌, ◌^◌, ◌<◌, ◌≤◌, List, [], ◌∷◌, ◌++◌, All, length, take};
ghost use Rattle.std.specs.Prelude.{drop, slice_index, IfOk, IsErrOf, IsTrue, MatchOption, ◌↔◌, true, false, Ok};
ghost use Rattle.std.specs.List.{Contains};
ghost use Rattle.lp_base.specs.declared.lines.LineStop.TheVariants.{Read, NoMemory};
ghost use Rattle.spec_text.specs.declared.line.Line.TheVariants.{End};
ghost use Rattle.lp_base.specs.Causes.{Rose, HasCause};
ghost use Rattle.lp_base.specs.NextLine.{ReadsOn, GivesNext, TakesRun};
ghost use Rattle.lp_base.specs.LinesState.{at_start};

use crate::part::Part;
use crate::{Bytes, Failed, Source};
use std::alloc::{AllocError, Global};
use std::marker::Model;
use thiserror::Error;

const LINE_FEED: u8 = b'\n';

// The most bytes of an input whose lines are given.
const MAX_INPUT: u64 = 1 << 26;

// The most bytes that are read ahead.
const BUFFER_LEN: usize = 4_096;

/// A line, or what stands in its place at the end of the input.
pub type Line = spec_text::Line<Bytes>;

/// Why no line is given.
#[derive(Clone, Copy, Debug, Error)]
pub enum LineStop {
    #[error("the source failed")]
    Read,
    #[error("out of memory")]
    NoMemory,
}

impl From<Failed> for LineStop {
    ghost from_gives = { λ _ e. e ≡ Read };

    /// The stop for a source that failed: `Read`.
    fn from(_: Failed) -> Self {
        LineStop::Read
    }
}

impl From<AllocError> for LineStop {
    ghost from_gives = { λ _ e. e ≡ NoMemory };

    /// The stop for memory that was refused: `NoMemory`.
    fn from(_: AllocError) -> Self {
        LineStop::NoMemory
    }
}

/// Reads the lines of a source, through a buffer. Only as many bytes of a line are kept as a line may have.
pub struct Lines {
    alloc: Global,
    buffer: Vec<u8>,
    // Where the bytes that were read and not given yet begin and end.
    from: usize,
    to: usize,
    given: u64,
    ended: bool,
}

impl Model for Lines {
    ghost use Rattle.lp_base.specs.LinesState.{LinesState};

    ghost Value = { LinesState };

    ghost use Rattle.lp_base.specs.Buffer.{IsBuffer, state_of};

    ghost view = { state_of };

    ghost invariant = { IsBuffer };
}

impl Drop for Lines {
    /// Frees the memory of the buffer.
    fn drop(self) {
        let Lines {
            alloc: _,
            buffer,
            from: _,
            to: _,
            given: _,
            ended: _,
        } = self;
        drop(buffer);
    }
}

impl Lines {
    /// A reader that has read nothing, at the start of its input, or an error without memory for its buffer of 4,096
    /// bytes.
    pub fn new(alloc: Global) -> Result<Self, AllocError>
        ensures { IfOk result (λ lines. lines ≡ at_start) }
    {
        let buffer = vec![in alloc; 0; BUFFER_LEN]?;
        Ok(Lines {
            alloc,
            buffer,
            from: 0,
            to: 0,
            given: 0,
            ended: false,
        })
    }

    /// The next line of the source, without what ends it: its bytes, or its length where it is too long to be kept. Or
    /// `End` where none is left, or `Over` where the line does not end within the first 2^26 bytes of the input.
    /// After `Over` or an `Err` no further line is promised; after `End` only `End` comes.
    /// Nothing is read in vain: beyond a line that is given, or the part of one, at most a buffer of 4,096 bytes is.
    pub fn next<S: Source>(&mut self, source: &mut S) -> Result<Line, LineStop>
        ensures line { GivesNext (S.left source.old) (S.left source.new) self.old self.new result }
        ensures ended { self.old.ended ≡ true → (result ≡ Ok End) × (S.left source.new ≡ S.left source.old) }

        // A line that was read already is given without the source.
        ensures held { Contains self.old.ahead 10 →
            (S.left source.new ≡ S.left source.old) × (S.read_faults source.new ≡ S.read_faults source.old) }

        ensures later { S.read_faults source.old ≤ S.read_faults source.new }
        ensures read { IsErrOf result LineStop.Read → Rose (S.read_faults source.old) (S.read_faults source.new) }
        ensures beside { S.beside_reads source.new ≡ S.beside_reads source.old }
    {
        let mut line = Part::new(self.alloc);
        while self.has_more(source)? {
            if self.is_full() {
                return Ok(Line::Over);
            }
            if self.take_run(&mut line)? {
                return Ok(line.ended_line());
            }
        }
        Ok(line.last_line())
    }

    // Whether as many bytes were given of the input as it may have, 2^26.
    fn is_full(&self) -> bool
        ensures full { IsTrue result ↔ (self.now.given ≡ 2 ^ 26) }
        ensures bound { self.now.given ≤ 2 ^ 26 }
    {
        self.given == MAX_INPUT
    }

    // Reads into the buffer where no byte in it is unread, and says whether one is then. It reads nothing once the
    // input has ended.
    fn has_more<S: Source>(&mut self, source: &mut S) -> Result<bool, Failed>
        ensures moved { ReadsOn (S.left source.old) (S.left source.new) self.old self.new result }
        ensures ended { self.old.ended ≡ true → (result ≡ Ok false) × (S.left source.new ≡ S.left source.old) }
        ensures held { 0 < length self.old.ahead →
            (S.left source.new ≡ S.left source.old) × (S.read_faults source.new ≡ S.read_faults source.old) }
        ensures near { length self.new.ahead ≤ 4096 }
        ensures cause { HasCause (S.read_faults source.old) (S.read_faults source.new) result }
        ensures beside { S.beside_reads source.new ≡ S.beside_reads source.old }
    {
        if self.ended {
            return Ok(false);
        }
        if self.from < self.to {
            return Ok(true);
        }
        let count = source.read(&mut self.buffer)?;
        self.from = 0;
        self.to = count;
        self.ended = count == 0;
        Ok(count > 0)
    }

    // The unread bytes of the buffer, but no more than may still be given of an input.
    fn ahead(&self) -> &[u8]
        ensures { result.now ≡ take (2 ^ 26 - self.now.given) self.now.ahead }
    {
        let room = (MAX_INPUT - self.given) as usize;
        let to = self.to.min(self.from + room);
        &self.buffer[self.from..to]
    }

    // Skips this many of the unread bytes of the buffer.
    fn pass(&mut self, count: usize)
        requires some { count ≤ length self.old.ahead }
        requires room { self.old.given + count ≤ 2 ^ 26 }
        ensures { self.new
            ≡ record { ahead = drop count self.old.ahead; given = self.old.given + count; ended = self.old.ended } }
    {
        self.from += count;
        self.given += count as u64;
    }

    // Moves the unread bytes of the buffer to the line, up to a line feed, which is skipped; says whether there was
    // one. It moves no more bytes than may still be given of an input.
    fn take_run(&mut self, line: &mut Part) -> Result<bool, AllocError>
        requires some { 0 < length self.old.ahead }
        requires room { self.old.given < 2 ^ 26 }
        requires len { line.old.len ≤ self.old.given }
        ensures { IfOk result (TakesRun self.old self.new line.old line.new) }
    {
        let ahead = self.ahead();
        match line_feed_at(ahead) {
            Some(at) => {
                line.extend(&ahead[..at])?;
                self.pass(at + 1);
                Ok(true)
            }
            None => {
                let count = ahead.len();
                line.extend(ahead)?;
                self.pass(count);
                Ok(false)
            }
        }
    }
}

// The place of the first line feed; none if there is none.
fn line_feed_at(bytes: &[u8]) -> Option<usize>
    ensures { MatchOption result (All (λ b. b ≢ 10) bytes.now)
        (λ at. (at < length bytes.now) × (slice_index bytes.now at ≡ 10) × All (λ b. b ≢ 10) (take at bytes.now)) }
{
    bytes.iter().position(|b| *b == LINE_FEED)
}
