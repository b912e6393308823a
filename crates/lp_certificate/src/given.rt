// Which columns and rows were given a number.
ghost use Rattle.std.specs.Prelude.{◌≡◌, ◌<◌, false, get_or, length, replicate, IfOk};
ghost use Rattle.spec_model.specs.Model.{width, height};
ghost use Rattle.lp_certificate.specs.Marks.{marks_of, with_mark};

use lp_base::Items;
use lp_model::Model;
use spec_check::Letter;
use std::alloc::{AllocError, Global};
use std::vec;

/// For each letter, whether the column or the row at a place was given a number by a part with this letter.
pub(crate) struct Given {
    pub(crate) x: Items<bool>,
    pub(crate) y: Items<bool>,
    pub(crate) r: Items<bool>,
}

impl Drop for Given {
    // Drops the notes of all three letters, and gives their memory back.
    fn drop(self) {
        let Given { x, y, r } = self;
        drop(x);
        drop(y);
        drop(r);
    }
}

// A list of `count` notes, of which none says that a number was given.
fn unmarked(alloc: Global, count: u32) -> Result<Items<bool>, AllocError>
    ensures { IfOk result (λ marks. marks ≡ replicate count false) }
{
    let marks = vec![in alloc; false; count as usize]?;
    Ok(Items::from_vec(marks))
}

impl Given {
    /// Notes for all columns and rows that say that no number was given.
    pub(crate) fn nothing(alloc: Global, model: &Model) -> Result<Given, AllocError>
        ensures x { IfOk result (λ given. given.x ≡ replicate (width model.now) false) }
        ensures y { IfOk result (λ given. given.y ≡ replicate (height model.now) false) }
        ensures r { IfOk result (λ given. given.r ≡ replicate (width model.now) false) }
    {
        let x = unmarked(alloc, model.cols())?;
        let y = unmarked(alloc, model.rows())?;
        let r = unmarked(alloc, model.cols())?;
        Ok(Given { x, y, r })
    }

    /// Whether the column, or for `y` the row, at `k` was given a number with this letter.
    pub(crate) fn has(&self, letter: Letter, k: u32) -> bool
        requires { k < length (marks_of letter self.now) }
        ensures { result ≡ get_or (marks_of letter self.now) k false }
    {
        match letter {
            Letter::X => self.x.at(k as usize),
            Letter::Y => self.y.at(k as usize),
            Letter::R => self.r.at(k as usize),
        }
    }

    /// Notes that the column, or for `y` the row, at `k` was given a number with this letter.
    pub(crate) fn mark(&mut self, letter: Letter, k: u32)
        requires { k < length (marks_of letter self.old) }
        ensures { self.new ≡ with_mark letter k self.old }
    {
        match letter {
            Letter::X => self.x.set(k as usize, true),
            Letter::Y => self.y.set(k as usize, true),
            Letter::R => self.r.set(k as usize, true),
        }
    }
}
