// A text of a model that may be large, which is read line by line.
ghost use Rattle.std.specs.Prelude.{◌≡◌, ◌+◌, ◌<◌, ◌-◌, ◌^◌};
ghost use Rattle.spec_model.specs.Kept.{large_limits};
ghost use Rattle.spec_mps.specs.Reader.{start};
ghost use Rattle.spec_mps.specs.Steps.{step};
ghost use Rattle.lp_mps.specs.Feeds.{Feeds};

use crate::read::reader::ReaderWithin;
use lp_base::{Feed, Line};
use lp_model::{LARGE_LIMITS, Model};
use spec_mps::{MpsFault, Style};
use std::alloc::Global;
use std::marker;

/// A text of a model within the large limits, which is read line by line. After any answer but `More` the reader has lost
/// what it read.
#[derive(Drop)]
pub struct LargeReader {
    within: ReaderWithin,
}

impl marker::Model for LargeReader {
    ghost use Rattle.std.specs.Prelude.{◌≡◌};
    ghost use Rattle.lp_mps.specs.TextRead.{TextRead};
    ghost use Rattle.spec_model.specs.Kept.{large_limits};

    ghost Value = { TextRead };

    ghost view = { λ r. r.within.text };

    ghost invariant = { λ r. r.within.limits ≡ large_limits };
}

impl LargeReader {
    /// A reader of a text in this form, within the large limits, that has read nothing.
    pub fn new(alloc: Global, style: Style) -> Self
        ensures { result ≡ record { style = style; state = start; lines = 0 } }
    {
        LargeReader {
            within: ReaderWithin::new(alloc, LARGE_LIMITS, style),
        }
    }

    /// Takes the next line of a text. Gives the model or a fault where the text ends with it, `More` where it goes on,
    /// and `NoMemory` where memory is refused.
    pub fn feed(&mut self, alloc: Global, line: &Line) -> Feed<Model, MpsFault>
        requires { self.old.lines < 2 ^ 32 - 1 }
        ensures { Feeds (step large_limits self.old.style self.old.state line.now) self.old.style
            (self.old.lines + 1) self.new result }
    {
        self.within.feed(alloc, line)
    }
}
