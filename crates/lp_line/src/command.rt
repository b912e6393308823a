// The lines between two commands.
ghost use Rattle.std.specs.Prelude.{◌≡◌, Some, IfOk};
ghost use Rattle.spec_text.specs.declared.line.Line.TheVariants as line;
ghost use Rattle.spec_server.specs.Command.{style_of, budget_of};
ghost use Rattle.spec_server.specs.Command as commands;
ghost use Rattle.spec_server.specs.EditCommand.{edit_by};
ghost use Rattle.spec_server.specs.Addressing as lines;

use crate::asks::{Command, Plain};
use crate::edits::{EditStop, edit_by};
use crate::words::{budget_of, command_word_of, session_of, style_of};
use lp_base::{Bytes, Line, words};
use spec_server::{Addressing, Asked, CommandWord, EditWord, LineFault};
use std::alloc::{AllocError, Global};

// The command `LOAD` with this form of the text, or a bad one where the word is no form.
fn load(form: &[u8]) -> Command
    ensures { result ≡ commands.load_by (style_of form.now) }
{
    match style_of(form) {
        Some(style) => Command::Load(style),
        None => Command::Bad(LineFault::Word),
    }
}

// The command `WRITE` with this form of the text, or a bad one where the word is no form.
fn write(form: &[u8]) -> Command
    ensures { result ≡ commands.write_by (style_of form.now) }
{
    match style_of(form) {
        Some(style) => Command::Plain(Plain::Write(style)),
        None => Command::Bad(LineFault::Word),
    }
}

// The command `BUDGET` with this count, or a bad one where the word is no count.
fn budget(count: &[u8]) -> Command
    ensures { result ≡ commands.budget_by (budget_of count.now) }
{
    match budget_of(count) {
        Some(budget) => Command::Plain(Plain::Budget(budget)),
        None => Command::Bad(LineFault::Number),
    }
}

// The command for an edit, or a bad command where the words are no edit of this kind.
fn change(alloc: Global, which: EditWord, words: &[Bytes]) -> Result<Command, AllocError>
    ensures { IfOk result (λ command. command ≡ commands.change_by (edit_by which words.now)) }
{
    match edit_by(alloc, which, words) {
        Ok(edit) => Ok(Command::Plain(Plain::Change(edit))),
        Err(EditStop::Fault(fault)) => Ok(Command::Bad(fault)),
        Err(EditStop::NoMemory) => Err(AllocError),
    }
}

// The command of this word and of the words behind it, which is bad where they do not fit.
fn command_with(alloc: Global, word: CommandWord, words: &[Bytes]) -> Result<Command, AllocError>
    ensures { IfOk result (λ command. command ≡ commands.command_with word words.now) }
{
    match (word, words) {
        (CommandWord::Load, [form]) => Ok(load(form.as_slice())),
        (CommandWord::Write, [form]) => Ok(write(form.as_slice())),
        (CommandWord::Solve, []) => Ok(Command::Plain(Plain::Solve)),
        (CommandWord::Cert, []) => Ok(Command::Plain(Plain::Cert)),
        (CommandWord::How, []) => Ok(Command::Plain(Plain::How)),
        (CommandWord::Budget, [count]) => Ok(budget(count.as_slice())),
        (CommandWord::Wide, []) => Ok(Command::Plain(Plain::Wide)),
        (CommandWord::Check, []) => Ok(Command::Check),
        (CommandWord::Quit, []) => Ok(Command::Plain(Plain::Quit)),
        (CommandWord::Edit(which), words) => change(alloc, which, words),
        _ => Ok(Command::Bad(LineFault::Word)),
    }
}

// The command that the words are, which is bad where they are none.
fn command_of(alloc: Global, words: &[Bytes]) -> Result<Command, AllocError>
    ensures { IfOk result (λ command. command ≡ commands.command_of words.now) }
{
    let [first, behind @ ..] = words else {
        return Ok(Command::Bad(LineFault::Word));
    };
    match command_word_of(first.as_slice()) {
        Some(word) => command_with(alloc, word, behind),
        None => Ok(Command::Bad(LineFault::Word)),
    }
}

// The command that the words are, for this session.
fn addressed(
    alloc: Global,
    session: u32,
    words: &[Bytes],
) -> Result<Option<Asked<Command>>, AllocError>
    ensures { IfOk result (λ found. found ≡
        Some (record { session = session; ask = commands.command_of words.now })) }
{
    let ask = command_of(alloc, words)?;
    Ok(Some(Asked { session, ask }))
}

// The command that the words are, by whether their lines name sessions. No words are none. A first word that should be
// the number of a session, but is no such number, makes it a bad command of session 0.
fn addressed_by(
    alloc: Global,
    addressing: Addressing,
    words: &[Bytes],
) -> Result<Option<Asked<Command>>, AllocError>
    ensures { IfOk result (λ found. found ≡ lines.addressed_by addressing words.now) }
{
    let [first, behind @ ..] = words else {
        return Ok(None);
    };
    match addressing {
        Addressing::Numbered => match session_of(first.as_slice()) {
            Some(session) => addressed(alloc, session, behind),
            None => Ok(Some(Asked {
                session: 0,
                ask: Command::Bad(LineFault::Word),
            })),
        },
        Addressing::Alone => addressed(alloc, 0, words),
    }
}

// Whether the text is a comment: its first byte is `#`.
fn begins_with_hash(text: &[u8]) -> bool
    ensures { result ≡ lines.begins_with_hash text.now }
{
    match text {
        [first, ..] => *first == b'#',
        [] => false,
    }
}

// The command that the text of a line is, or none where the line is blank or a comment.
#[tactic(auto, unfolding(spec_server::specs::Addressing::addressed_in))]
fn text_command(
    alloc: Global,
    addressing: Addressing,
    text: &[u8],
) -> Result<Option<Asked<Command>>, AllocError>
    ensures { IfOk result (λ found. found ≡ lines.addressed_in addressing (line.Text text.now)) }
{
    if begins_with_hash(text) {
        return Ok(None);
    }
    let words = words(alloc, text)?;
    addressed_by(alloc, addressing, words.as_slice())
}

/// The command that a line between two commands is. None where it is blank, a comment or the end of what may be read. A
/// line that is too long is a bad command of session 0.
#[tactic(auto, unfolding(spec_server::specs::Addressing::addressed_in))]
pub fn read(
    alloc: Global,
    addressing: Addressing,
    line: &Line,
) -> Result<Option<Asked<Command>>, AllocError>
    ensures { IfOk result (λ found. found ≡ lines.addressed_in addressing line.now) }
{
    match line {
        Line::Text(text) => text_command(alloc, addressing, text.as_slice()),
        Line::Long(_) => Ok(Some(Asked {
            session: 0,
            ask: Command::Bad(LineFault::Long),
        })),
        Line::End | Line::Over => Ok(None),
    }
}
