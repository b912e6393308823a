// What a session is asked and what it replies, over the type M of models, R of certificates as their texts have them, E
// of edits, N of names, F of numbers, T of texts and L of lists of lines.
use crate::answer::{How, Publication};
use crate::command::{LineFault, Plain};
use spec_check::{Known, Verdict};
use spec_edit::Which;
use spec_exact::Past;
use spec_mps::MpsFault;
use std::fmt::Debug;

/// A request to a session: a command of one line, or what the lines of a whole `LOAD` or `CHECK` ask, or that a line
/// is no command.
#[derive(Drop)]
pub enum Ask<M, R, E> {
    /// What one line asks alone.
    Plain(Plain<E>),
    /// To hold this model from now on.
    Loaded(M),
    /// To hold the model of a text that spells none.
    Misspelled(MpsFault),
    /// To check a certificate against its model.
    Checked(R),
    /// To check a certificate whose text does not fit, from the line with this number on.
    Unfit(u32),
    /// Nothing: the line is no command.
    Bad(LineFault),
}

/// An ask of type A, with the number of its session, which is 0 where a line names no session. A line between two
/// commands asks a `Command`, and the lines of a whole command ask an `Ask`.
#[derive(Drop)]
pub struct Asked<A> {
    pub session: u32,
    pub ask: A,
}

/// A session's reply to one request: a result, or that memory ran out, or a refusal.
#[derive(Drop)]
pub enum Reply<N, F: Debug, T, L> {
    /// The number of rows and of columns.
    Loaded(u32, u32),
    /// The text of its model.
    Written(T),
    /// What was asked is so from now on.
    Done,
    /// A solve knows this of the model, by a certificate.
    Known(Known<F>),
    /// A solve gave up at this operation, which is past the limit.
    Past(Past<F>),
    /// This budget was not enough for a solve.
    Spent(u64),
    /// The lines of the last answer's certificate, if it has one.
    Certified(L),
    /// How the last answer was found. There are no pivots where it knows nothing of the model.
    Found {
        how: How,
        pivots: Option<u64>,
        publication: Publication,
    },
    Checked(Verdict<F>),
    /// The lines of an exact solve: its answer, and then those of its certificate; or that nothing is known.
    Wide(L),
    /// The session is reset.
    Bye,
    /// Memory ran out, and the session is as it was.
    Memory,
    Refused(Refusal<N, T>),
}

/// Why a session refuses a request, which leaves it as it was.
#[derive(Drop)]
pub enum Refusal<N, T> {
    /// A line is no command.
    Bad(LineFault),
    /// No model is loaded.
    NoModel,
    /// No row, or no column, as is asked for, has the name.
    Name(N),
    /// A row, the objective or a column has the new name already.
    Taken(N),
    /// So many rows or columns are there already.
    Limit(Which, u32),
    /// The new name is none that a row or a column may have.
    BadName,
    /// Nothing was solved since the model was loaded or edited.
    NoAnswer,
    /// A certificate has the name twice, for one letter; or a new column has the row twice.
    Repeated(N),
    /// A text spells no model.
    Misspelled(MpsFault),
    /// A text is no certificate from this line on.
    Unfit(u32),
    /// Fixed form has no place for this name or number.
    FixedWide(T),
    /// The row that is to have a range is free.
    FreeRow(N),
}
