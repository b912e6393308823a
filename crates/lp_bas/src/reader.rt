// A basis file that is read line by line.
ghost use Rattle.std.specs.Prelude.{◌≡◌, ◌+◌, ◌<◌, ◌-◌, ◌^◌, IfOk};
ghost use Rattle.spec_bas.specs.Steps as steps;
ghost use Rattle.spec_bas.specs.Fits.{HasSizeOf, IsMarking};
ghost use Rattle.lp_bas.specs.Feeds.{Feeds};

use crate::marks::{Marks, StepFault};
use lp_base::{Feed, Line};
use lp_form::{Basis, LargeForm};
use lp_model::Model;
use spec_bas::BasFault;
use std::alloc::{AllocError, Global};

/// A basis file that is read line by line, for a model and its form. After any answer but `More` the reader is as it
/// was before the line.
pub struct BasReader {
    marks: Marks,
    lines: u32,
}

impl std::marker::Model for BasReader {
    ghost use Rattle.lp_bas.specs.FileRead.{FileRead};

    ghost Value = { FileRead };

    ghost view = { λ r. record { state = r.marks; lines = r.lines } };
}

impl Drop for BasReader {
    /// Frees the memory of the reader.
    fn drop(self) {
        let BasReader { marks, lines: _ } = self;
        drop(marks);
    }
}

impl BasReader {
    /// A reader that has read nothing.
    pub fn new(alloc: Global, form: &LargeForm) -> Result<Self, AllocError>
        ensures state { IfOk result (λ reader. reader ≡ record { state = steps.start form.now; lines = 0 }) }
        ensures marking { IfOk result (λ reader. IsMarking form.now reader.state) }
    {
        let marks = Marks::new(alloc, form)?;
        Ok(BasReader { marks, lines: 0 })
    }

    /// Takes the next line of a basis file. Gives the basis or a fault where the file ends with it, and `More` where it
    /// goes on; `NoMemory` where memory is refused.
    pub fn feed(
        &mut self,
        alloc: Global,
        model: &Model,
        form: &LargeForm,
        line: &Line,
    ) -> Feed<Basis, BasFault>
        requires sizes { HasSizeOf model.now form.now }
        requires marking { IsMarking form.now self.old.state }
        requires lines { self.old.lines < 2 ^ 32 - 1 }
        ensures { Feeds form.now (steps.step model.now form.now self.old.state line.now) self.old self.new result }
    {
        let number = self.lines + 1;
        match self.marks.take(alloc, model, form, line) {
            Ok(None) => {
                self.lines = number;
                Feed::More
            }
            Ok(Some(basis)) => Feed::Done(basis),
            Err(StepFault::Wrong(code)) => Feed::Refused(BasFault { line: number, code }),
            Err(StepFault::NoMemory) => Feed::NoMemory,
        }
    }
}
