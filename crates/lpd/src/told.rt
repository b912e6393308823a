// What is said on standard error.
use crate::refusal::tell_refused;
use crate::unbound::{Unbound, tell_unbound};
use crate::wrong_words::tell_words;
use lp_command_line::word_fault;
use lp_top::ExitStatus;
use std::alloc::Global;
use std::io::{self, IsTerminal};

/// How the program ends.
#[derive(Clone, Copy)]
pub struct Ending<'a> {
    pub status: ExitStatus,
    /// The words of the command line, unless they could not be read.
    pub words: Option<&'a [String]>,
    /// Where a server could not listen.
    pub unbound: Option<&'a Unbound<'a>>,
    /// The first line that was written, where it is known.
    pub first_line: Option<&'a str>,
}

impl<'a> Ending<'a> {
    /// An ending of which no more is known.
    pub fn new(status: ExitStatus, words: Option<&'a [String]>) -> Self {
        Ending {
            status,
            words,
            unbound: None,
            first_line: None,
        }
    }
}

/// Writes on standard error what happened, if not all was done. Where memory runs out or a write fails, no more is
/// written.
pub fn tell(rt: &HostRuntime, alloc: Global, ending: Ending<'_>) -> io::Result<()> {
    match (ending.status, ending.words, ending.unbound) {
        (ExitStatus::ACCEPT, _, Some(unbound)) => return tell_unbound(rt, unbound),
        (ExitStatus::BAD_COMMAND_LINE, Some(words), _) => return tell_words(rt, alloc, words),
        (ExitStatus::REFUSED, Some(words), _) => {
            return tell_refused(rt, words, ending.first_line);
        }
        _ => {}
    }
    match what_happened(ending.status) {
        Some(what) => eprintln!(rt; "lpd: {what}"),
        None => Ok(()),
    }
}

// What standard error says of an exit status of which no more is known than its number; none where the status is 0 or
// 9.
fn what_happened(status: ExitStatus) -> Option<&'static str> {
    match status {
        ExitStatus::BAD_COMMAND_LINE => Some("bad command line\nlpd: a word is not UTF-8"),
        ExitStatus::READ => Some("standard input could not be read (status 3)"),
        ExitStatus::WRITE => Some("standard output could not be written (status 4)"),
        ExitStatus::NO_MEMORY => Some("out of memory (status 5)"),
        ExitStatus::CUT => Some("standard input ended inside a body (status 6)"),
        ExitStatus::ACCEPT => Some("a link could not be accepted (status 7)"),
        ExitStatus::OVER => Some("standard input is longer than 67,108,864 bytes (status 8)"),
        _ => None,
    }
}

/// Says on standard error what a command reads, where its words have no fault and standard input is a terminal. A fault
/// of that write changes nothing.
pub fn tell_reading(rt: &HostRuntime, words: &[String]) {
    if !rt.stdin().is_terminal() || word_fault(words).is_some() {
        return;
    }
    let Some(command) = words.first() else {
        return;
    };
    if let Some(what) = what_is_read(command.as_str()) {
        let _ = eprintln!(rt; "lpd: reading {what}, up to the end of the input (Ctrl-D)");
    }
}

/// What the command with this name reads from standard input, where it reads something.
pub fn what_is_read(command: &str) -> Option<&'static str> {
    match command {
        "run" => Some("a script, as `1 LOAD FREE`, a model and `1 SOLVE` (docs/PROTOCOL.md)"),
        "solve" | "presolve" | "iis" | "range" => Some("a model in MPS"),
        "check" => Some("a model in MPS, and its certificate behind it"),
        "basis" => Some("a model in MPS, and a basis file behind it"),
        _ => None,
    }
}
