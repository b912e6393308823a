// The text of the usage: clap lays it out, and decides nothing about the words.
use clap::{Arg, ArgAction, Command};
use std::alloc::{AllocError, Global};

/// The commands with their plain words, and what each does.
pub static COMMANDS: [(&str, &str); 9] = [
    ("run", "Run a script of up to 64 sessions"),
    ("solve", "Solve the model of one text"),
    (
        "check",
        "Check a certificate, which follows the text of its model",
    ),
    (
        "basis",
        "Solve a model from a basis file, which follows its text",
    ),
    ("presolve", "Solve a model by a smaller one"),
    (
        "iis",
        "Solve a model, or find limits that contradict each other",
    ),
    (
        "range WHAT NAME",
        "Solve a model, and range a cost, a right side (rhs) or all",
    ),
    (
        "gen SEED ROWS COLS",
        "Make a model from these numbers, and solve it",
    ),
    (
        "serve ADDRESS",
        "Listen at this TCP address, and serve a session on each connection",
    ),
];

/// The options, below the commands that have them: their names, their values and what they say. A switch has no value: that
/// is empty.
pub static OPTIONS: [(&str, &str, &str, &str); 5] = [
    (
        "Options of run and serve",
        "workers",
        "K",
        "Workers, 1 to 16; else 1",
    ),
    (
        "Options of run and serve",
        "places",
        "P",
        "Places for bases, 1 to 1,024; else 256",
    ),
    (
        "Options of serve",
        "each",
        "C",
        "Links that each worker serves, 1 to 1,000; else 1",
    ),
    (
        "Options of solve, check, basis, presolve, iis and range",
        "form",
        "FORM",
        "The text's form, free or fixed; else free",
    ),
    (
        "Options of solve, check and basis",
        "wide",
        "",
        "Numbers of any width; else of up to 127 bits",
    ),
];

const STATUSES: &str = "Statuses:
  0  none of the others
  2  the words are no command line
  3  standard input could not be read
  4  standard output could not be written
  5  out of memory
  6  standard input ended inside a body
  7  a server cannot listen, or could not accept a connection
  8  standard input is longer than 67,108,864 bytes
  9  the text was refused

The manual is the page lpd(1): `man lpd`, or in the repository `man -l docs/lpd.1`.";

/// The commands and their options, the statuses, and where the manual is. Memory may run out.
pub fn usage(alloc: Global) -> Result<String, AllocError> {
    let mut program = Command::new(alloc, "lpd")
        .about("Solve linear programs exactly, and check certificates")
        .override_usage("lpd COMMAND [WORD]... [--OPTION [VALUE]]...")
        .after_help(STATUSES)
        .disable_help_flag(true)
        .disable_help_subcommand(true);
    for &(name, what) in &COMMANDS {
        program = program.subcommand(Command::new(alloc, name).about(what))?;
    }
    for &(commands, name, value, what) in &OPTIONS {
        program = program.arg(argument(alloc, commands, name, value, what))?;
    }
    program.render_help()
}

// An option below the commands that have it, with its value, or as a switch where that is empty.
fn argument(
    alloc: Global,
    commands: &'static str,
    name: &'static str,
    value: &'static str,
    what: &'static str,
) -> Arg<'static> {
    let option = Arg::new(alloc, name)
        .long(name)
        .help(what)
        .help_heading(commands);
    if value == "" {
        return option.action(ArgAction::SetTrue);
    }
    option.value_name(value)
}
