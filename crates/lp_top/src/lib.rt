//! The top call: all that the program does, from the words of its command line to its status.
//!
//! | Item | What it is | Where |
//! |---|---|---|
//! | `lpd_top` | runs a command line over a source, a sink and listeners | here |
//! | `ExitStatus` | how that ended | `lp_text_commands` |
//! | `Serving`, `plan` | which listeners a command line needs | `lp_command_line` |
//! | `Does`, `DoesOver` | what a command line reads and writes, and does over its listeners | specs/Top |
//!
//! specs/Top says of a script what `lp_script` does, of a text and of a generated model what `lp_text_commands`, and of a
//! server what `lp_serve`, in the words of the server's definitions.
#![tactic(auto)]

ghost use Rattle.std.specs.Prelude.{◌≡◌, ◌↔◌, map, string_bytes, vec_len, Some, None};
ghost use Rattle.lp_base.specs.Causes.{Rose};
ghost use Rattle.spec_program.specs.CommandLine.{command_line_of};
ghost use Rattle.spec_server.specs.Streams.{streams};
ghost use Rattle.spec_program.specs.Fits.{Fits};
ghost use Rattle.spec_program.specs.Spelled.{spelled};
ghost use Rattle.lp_base.specs.Listening.{listener_of};
ghost use Rattle.lp_serve.specs.Serving.{SomeFailed};
ghost use Rattle.lp_top.specs.Status.{code_of_fault};
ghost use Rattle.lp_top.specs.Top.{Does, DoesOver, HasListeners, IsStatus};
ghost use Rattle.lp_top.specs.TrueLinks.{AreTrueListeners};
ghost use Rattle.spec_text_truth.specs.TrueOutput.{IsTrueOutput};

use lp_base::{Listen, Sink, Source};
use lp_command_line::command_line_of;
pub use lp_command_line::{Serving, plan};
use lp_script::run_script;
pub use lp_script::{Gate, NeverHolds};
use lp_serve::{ServeFault, serve};
pub use lp_text_commands::ExitStatus;
use lp_text_commands::{generate, read_text};
use spec_program::CommandLine;
use std::alloc::Global;
use std::sync::Wait;
use std::thread::Threads;

/// All that the program does. The words are those of the command line, without the program's own name. The listeners
/// are those of a server; other commands leave them alone.
pub fn lpd_top<
    R: Threads + Wait + Sync,
    S: Source,
    K: Sink,
    N: Listen + Send + Drop,
    G: Gate + Sync,
>(
    rt: &R,
    alloc: Global,
    words: &[String],
    src: &mut S,
    out: &mut K,
    nets: &mut Vec<N>,
    gate: &G,
) -> ExitStatus
where
    N::Link: Send,
    requires nets { HasListeners (command_line_of (map string_bytes words.now)) (vec_len nets.old) }

    // For some bytes that were read and written: of a script, what was written is the output of a run in which each
    // session replies as if it were alone with what it reads of the places, which nobody else writes; there are as many
    // places as the command line says; whole or in part as the status says. Of the text of a model, what
    // was written is what the command may write of what its lines say, as far as an input may be read. Of a generated
    // model, it is its size and what a solve of it may end with, and nothing is read. A server reads nothing of the
    // source either.
    ensures output { Does (command_line_of (map string_bytes words.now))
        (streams (S.left src.old) (S.left src.new) (K.taken out.old) (K.taken out.new)) result.code }

    // Of a server, each listener's links were given and came back one after the other, each before the next was given: so
    // many, unless the listener failed. To each was written what its session replies, as if it were alone with what it
    // reads of the places, to what the link asks. How they ended was written to the sink. No other command uses a listener.
    ensures links { DoesOver (command_line_of (map string_bytes words.now))
        (streams (S.left src.old) (S.left src.new) (K.taken out.old) (K.taken out.new))
        (map (listener_of N.log N.accept_faults) nets.old.items)
        (map (listener_of N.log N.accept_faults) nets.new.items) result.code }
    ensures nets { vec_len nets.new ≡ vec_len nets.old }

    // What was written is true: each answer of the model that a text spells, of the one that is made from a seed, or of
    // the one that its session has then. So it is of what was written to links.
    ensures truth { IsTrueOutput (command_line_of (map string_bytes words.now))
        (streams (S.left src.old) (S.left src.new) (K.taken out.old) (K.taken out.new)) }
    ensures truth_of_links { AreTrueListeners (command_line_of (map string_bytes words.now))
        (map (listener_of N.log N.accept_faults) nets.old.items)
        (map (listener_of N.log N.accept_faults) nets.new.items) }

    ensures codes { IsStatus (command_line_of (map string_bytes words.now)) result.code }

    // The words are refused exactly if they are no command line.
    ensures words { (result.code ≡ 2) ↔ (command_line_of (map string_bytes words.now) ≡ None) }

    // No fault is reported that did not happen.
    ensures read { result.code ≡ 3 → Rose (S.read_faults src.old) (S.read_faults src.new) }
    ensures write { result.code ≡ 4 → Rose (K.write_faults out.old) (K.write_faults out.new) }
    ensures accept { result.code ≡ 7 → SomeFailed
        (map (listener_of N.log N.accept_faults) nets.old.items)
        (map (listener_of N.log N.accept_faults) nets.new.items) }
{
    match command_line_of(words) {
        None => ExitStatus::BAD_COMMAND_LINE,
        Some(command) => obey(rt, alloc, command, src, out, nets, gate),
    }
}

// Carries out a command line over the source, the sink and the listeners, and gives the exit status.
fn obey<R: Threads + Wait + Sync, S: Source, K: Sink, N: Listen + Send + Drop, G: Gate + Sync>(
    rt: &R,
    alloc: Global,
    command: CommandLine<&[u8]>,
    src: &mut S,
    out: &mut K,
    nets: &mut Vec<N>,
    gate: &G,
) -> ExitStatus
where
    N::Link: Send,
    requires fits { Fits (spelled command) }
    requires nets { HasListeners (Some (spelled command)) (vec_len nets.old) }
    ensures output { Does (Some (spelled command.entry))
        (streams (S.left src.old) (S.left src.new) (K.taken out.old) (K.taken out.new)) result.code }
    ensures links { DoesOver (Some (spelled command.entry))
        (streams (S.left src.old) (S.left src.new) (K.taken out.old) (K.taken out.new))
        (map (listener_of N.log N.accept_faults) nets.old.items)
        (map (listener_of N.log N.accept_faults) nets.new.items) result.code }
    ensures nets { vec_len nets.new ≡ vec_len nets.old }
    ensures codes { IsStatus (Some (spelled command.entry)) result.code }
    ensures read { result.code ≡ 3 → Rose (S.read_faults src.old) (S.read_faults src.new) }
    ensures write { result.code ≡ 4 → Rose (K.write_faults out.old) (K.write_faults out.new) }
    ensures accept { result.code ≡ 7 → SomeFailed
        (map (listener_of N.log N.accept_faults) nets.old.items)
        (map (listener_of N.log N.accept_faults) nets.new.items) }
{
    match command {
        CommandLine::Run { workers, places } => {
            match run_script(rt, alloc, src, out, workers, places, gate) {
                Ok(()) => ExitStatus::DONE,
                Err(halt) => ExitStatus::from(halt),
            }
        }
        CommandLine::Read(command, style) => {
            match read_text(alloc, command, style, src, out) {
                Ok(status) => status,
                Err(halt) => ExitStatus::from(halt),
            }
        }
        CommandLine::Generate {
            seed,
            rows,
            columns,
        } => match generate(alloc, seed, rows, columns, out) {
            Ok(()) => ExitStatus::DONE,
            Err(halt) => ExitStatus::from(halt),
        },
        CommandLine::Serve {
            workers: _,
            each,
            places,
        } => match serve(rt, alloc, nets, each, places, out) {
            Ok(()) => ExitStatus::DONE,
            Err(fault) => status_of_fault(fault),
        },
    }
}

// The status of what went wrong as links were served.
fn status_of_fault(fault: ServeFault) -> ExitStatus
    ensures { result.code ≡ code_of_fault fault }
{
    match fault {
        ServeFault::Accept => ExitStatus::ACCEPT,
        ServeFault::Write => ExitStatus::WRITE,
        ServeFault::NoMemory => ExitStatus::NO_MEMORY,
    }
}
