// The command lines of a script, over the type E of edits.
use spec_mps::Style;

/// The first word of a command, which says what is asked.
#[derive(Clone, Copy)]
pub enum CommandWord {
    Load,
    Write,
    Solve,
    Cert,
    How,
    Budget,
    Wide,
    Check,
    Quit,
    Edit(EditWord),
}

/// The command word of an edit, which says what of the model is to change.
#[derive(Clone, Copy)]
pub enum EditWord {
    AddRow,
    DelRow,
    AddCol,
    DelCol,
    SetCost,
    SetCoef,
    SetRhs,
    SetRange,
    SetBound,
    Sense,
}

/// A command that one line asks alone, without a text or a certificate behind it.
#[derive(Drop)]
pub enum Plain<E> {
    /// The session's model is asked for as a text.
    Write(Style),
    /// The session's model is to be solved.
    Solve,
    /// The certificate of the last answer is asked for.
    Cert,
    /// How the last answer was found is asked for.
    How,
    /// Each later solve is to make at most this many pivots and flips.
    Budget(u32),
    /// The session's model is to be solved with numbers of any width, which changes nothing.
    Wide,
    /// The session's model is to be edited.
    Change(E),
    /// The session is to be reset.
    Quit,
}

/// Why a line is no command.
#[derive(Clone, Copy)]
pub enum LineFault {
    /// A word, or the count of words.
    Word,
    /// A word that is no number, or none of those that the command takes.
    Number,
    /// A number that is too wide.
    Wide,
    /// The line's length.
    Long,
}

/// What the words of a line ask, after the number of its session.
#[derive(Drop)]
pub enum Command<E> {
    /// A text of a model follows.
    Load(Style),
    /// A certificate follows.
    Check,
    /// A command of this line alone.
    Plain(Plain<E>),
    /// No command.
    Bad(LineFault),
}
