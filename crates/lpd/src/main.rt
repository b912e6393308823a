//! The program: standard input is the source, standard output the sink, and a server's links come from a TCP socket.
#![tactic(auto)]

mod listening;
mod nearest;
mod notice;
mod opening;
mod outside;
mod refusal;
mod told;
mod unbound;
mod usage;
mod wrong_words;

use listening::{listen, nets_at, wanted};
use lp_command_line::notice_of;
use lp_top::{ExitStatus, NeverHolds, lpd_top, plan};
use notice::show;
use opening::Opening;
use outside::Counted;
use std::alloc::Global;
use std::io::ErrorKind;
use std::process::ExitCode;
use std::{env, io};
use told::{Ending, tell, tell_reading};

// Reads the words of the command line, writes the notice that they ask for, or else runs the command on standard input
// and output, and ends with the status.
fn main(rt: HostRuntime) -> ExitCode {
    let alloc = rt.alloc();
    let words = match words_of(&rt, alloc) {
        Ok(words) => words,
        Err(error) => return end(&rt, alloc, Ending::new(status_of(&error), None)),
    };
    if let Some(notice) = notice_of(&words) {
        let mut sink = Counted::new(rt.stdout());
        let status = show(alloc, notice, &mut sink);
        return end(&rt, alloc, Ending::new(status, Some(&words)));
    }
    let bound = match plan(&words) {
        Some(serving) => Some(listen(&rt, serving.address)),
        None => None,
    };
    let socket = match &bound {
        Some(Ok(socket)) => Some(socket),
        _ => None,
    };
    let Ok(mut nets) = nets_at(&rt, alloc, wanted(&words), socket) else {
        return end(&rt, alloc, Ending::new(ExitStatus::NO_MEMORY, Some(&words)));
    };
    tell_reading(&rt, &words);
    let mut source = Counted::new(rt.stdin());
    let mut sink = Opening::new(Counted::new(rt.stdout()));
    let status = lpd_top(
        &rt,
        alloc,
        &words,
        &mut source,
        &mut sink,
        &mut nets,
        &NeverHolds,
    );
    let unbound = match &bound {
        Some(Err(unbound)) => Some(unbound),
        _ => None,
    };
    let ending = Ending {
        status,
        words: Some(&words),
        unbound,
        first_line: sink.first_line(),
    };
    end(&rt, alloc, ending)
}

// Says on standard error what happened, if not all was done, and gives the status.
fn end(rt: &HostRuntime, alloc: Global, ending: Ending<'_>) -> ExitCode {
    let _ = tell(rt, alloc, ending);
    ExitCode::from(ending.status.code)
}

// The words of the command line, without the program's own name. Words that are no text fail all together. Memory
// may run out.
fn words_of(rt: &HostRuntime, alloc: Global) -> io::Result<Vec<String>> {
    let mut args = env::args(rt)?;
    drop(args.next());
    let mut words = Vec::new(alloc);
    for word in args {
        words.push(word)?;
    }
    Ok(words)
}

// The status where the words of the command line could not be read: 5 for lack of memory, else 2.
fn status_of(error: &io::Error) -> ExitStatus {
    match error.kind() {
        ErrorKind::OutOfMemory => ExitStatus::NO_MEMORY,
        _ => ExitStatus::BAD_COMMAND_LINE,
    }
}
