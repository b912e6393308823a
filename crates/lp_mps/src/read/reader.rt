// A text that is read line by line.
ghost use Rattle.std.specs.Prelude.{◌≡◌, ◌+◌, ◌<◌, ◌-◌, ◌^◌, ℕ};
ghost use Rattle.spec_model.specs.Kept.{AreAtMost, large_limits};
ghost use Rattle.spec_model.specs.declared.parts.SizeLimits.{SizeLimits};
ghost use Rattle.spec_mps.specs.declared.style.Style.{Style};
ghost use Rattle.spec_mps.specs.Reader.{start};
ghost use Rattle.spec_mps.specs.Steps.{Outcome, step};
ghost use Rattle.lp_mps.specs.Answer.{Fails};
ghost use Rattle.lp_mps.specs.TextRead.{TextRead};
ghost use Rattle.lp_mps.specs.Feeds.{Feeds, IsDoneWithin};

use crate::read::draft::Draft;
use crate::read::fault::Fault;
use lp_base::{Feed, Line};
use lp_model::Model;
use spec_model::SizeLimits;
use spec_mps::{MpsFault, Style};
use std::alloc::Global;
use std::marker;

/// A text of a model within limits of size, which is read line by line. After any answer but `More` the reader has lost
/// what it read.
pub struct ReaderWithin {
    limits: SizeLimits,
    style: Style,
    draft: Draft,
    lines: u32,
}

impl marker::Model for ReaderWithin {
    ghost use Rattle.lp_mps.specs.Draft.{state_of};
    ghost use Rattle.lp_mps.specs.Leads.{IsReached};
    ghost use Rattle.lp_mps.specs.TextRead.{ReadWithin};
    ghost use Rattle.spec_model.specs.Kept.{AreAtMost, large_limits};

    ghost Value = { ReadWithin };

    ghost view = { λ r. record {
      limits = r.limits;
      text = record { style = r.style; state = state_of r.draft; lines = r.lines };
    } };

    ghost invariant = { λ r. AreAtMost r.limits large_limits × IsReached r.limits r.style (state_of r.draft) };
}

// The answer that line `line` has this fault, or that memory ran out.
fn refused(fault: Fault, line: u32) -> Feed<Model, MpsFault>
    ensures feeds { (outcome : Outcome) (style : Style) (new : TextRead) →
        Fails outcome fault → Feeds outcome style line new result }
    ensures within { (limits : SizeLimits) → IsDoneWithin limits result }
{
    match fault {
        Fault::Code(code) => Feed::Refused(MpsFault { line, code }),
        Fault::NoMemory => Feed::NoMemory,
    }
}

impl Drop for ReaderWithin {
    fn drop(self) {
        let ReaderWithin {
            limits: _,
            style: _,
            draft,
            lines: _,
        } = self;
        drop(draft);
    }
}

impl ReaderWithin {
    /// A reader of a text in this form, within these limits, that has read nothing.
    pub fn new(alloc: Global, limits: SizeLimits, style: Style) -> Self
        requires { AreAtMost limits large_limits }
        ensures { result ≡ record {
          limits = limits;
          text = record { style = style; state = start; lines = 0 };
        } }
    {
        ReaderWithin {
            limits,
            style,
            draft: Draft::new(alloc),
            lines: 0,
        }
    }

    /// The limits of size that the reader keeps its model within.
    pub fn limits(&self) -> SizeLimits
        ensures { result ≡ self.now.limits }
    {
        self.limits
    }

    /// Takes the next line of a text. Gives the model or a fault where the text ends with it, `More` where it goes on,
    /// and `NoMemory` where memory is refused.
    pub fn feed(&mut self, alloc: Global, line: &Line) -> Feed<Model, MpsFault>
        requires { self.old.text.lines < 2 ^ 32 - 1 }
        ensures feeds { Feeds (step self.old.limits self.old.text.style self.old.text.state line.now)
            self.old.text.style (self.old.text.lines + 1) self.new.text result }
        ensures limits { self.new.limits ≡ self.old.limits }
        ensures within { IsDoneWithin self.old.limits result }
    {
        let number = self.lines + 1;
        match self.draft.advance(alloc, self.limits, self.style, line) {
            Ok(None) => {
                self.lines = number;
                Feed::More
            }
            Ok(Some(model)) => {
                self.draft.restart(alloc);
                Feed::Done(model)
            }
            Err(fault) => {
                self.draft.restart(alloc);
                refused(fault, number)
            }
        }
    }
}
