// Why words are no command line.
ghost use Rattle.std.specs.Prelude.{◌≡◌};

use std::alloc::AllocError;

/// A word that a command wants at its place.
#[derive(Clone, Copy)]
pub enum Plain {
    Address,
    /// Which number of a model.
    Number,
    /// The name of a column or row.
    Name,
    Seed,
    Rows,
    Columns,
}

/// Why words are no command line, and which word is at fault. `W` is what a word is told as.
#[derive(Copy)]
pub enum WordFault<W> {
    /// There is no word.
    NoWord,
    /// It names no command.
    NoCommand(W),
    /// The command wants more words before its options.
    TooFew,
    /// It is none that may stand at its place.
    NotPlain(Plain, W),
    /// It is no option of the command.
    NoOption(W),
    /// The option is given twice.
    Twice(W),
    /// The option has no value.
    NoValue(W),
    /// The value is none that this option may have.
    NotValue(W, W),
}

impl<W: Copy> Clone for WordFault<W> {
    ghost is_clone = { λ x y. y ≡ x };

    // A copy of the fault.
    fn clone(&self) -> Result<WordFault<W>, AllocError> {
        Ok(*self)
    }
}
